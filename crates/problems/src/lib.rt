// The problems of a meter map and of a tempo map, as records of three words: code, index, value.
// Every refusal is decided before the first word is written.
#![tactic(auto)]

ghost use Rattle.std.specs.Prelude.{◌≡◌, ◌≤◌, length};
ghost use Rattle.numbers.specs.Refusals.{read};
ghost use Rattle.problems.specs.Problems.{meter_problems};
ghost use Rattle.problems.specs.Answers.{meter_problems_answer, meter_after, tempo_problems_answer, tempo_after};
ghost use Rattle.problems.specs.Passes.{Ready, Passed};

use meter::MeterPoint;
use numbers::Refusal;
use records::Records;
use tempo::TempoMap;

mod changes;
mod records;
mod walk;

// The points of a map that is not too long.
const MOST_POINTS: usize = 65_536;

// How many problems a tempo map has, which is lent as three lists.
#[tactic(auto, using(tempo::proofs::Testing::uneven))]
pub fn tempo_map_problems(
    nums: &[i64],
    dens: &[u32],
    tempos: &[u32],
    out: &mut [u32],
) -> Result<u32, Refusal>
    ensures answer { read result ≡ tempo_problems_answer nums.now dens.now tempos.now out.old }
    ensures words { out.new ≡ tempo_after nums.now dens.now tempos.now out.old }
{
    let map = TempoMap::new(nums, dens, tempos)?;
    map.test()?;
    changes::list(&map, out)
}

// A pass over the points, which are taken apart and handed on: it counts the records, or writes them
// too.
fn pass(points: &[MeterPoint], out: &mut [u32], writing: bool) -> u32
    requires short { length points.now ≤ 65536 }
    requires ready { Ready writing out.old 0 (meter_problems points.now) }
    ensures { Passed writing out.old 0 (meter_problems points.now) out.new result }
{
    let mut records = Records {
        out,
        writing,
        count: 0,
    };
    let n = points.len() as u32;
    let mut low: u64 = 0;
    for (index, p) in points.iter().enumerate() {
        walk::records_at(
            &mut records,
            n,
            index as u32,
            low,
            p.bar,
            p.numerator,
            p.denominator,
        );
        low = p.bar as u64 + 1;
    }
    records.count
}

// How many problems a meter map has.
pub fn meter_map_problems(points: &[MeterPoint], out: &mut [u32]) -> Result<u32, Refusal>
    ensures answer { read result ≡ meter_problems_answer points.now out.old }
    ensures words { out.new ≡ meter_after points.now out.old }
{
    if points.len() > MOST_POINTS {
        return Err(Refusal::TooLong);
    }
    let count = pass(points, out, false);
    if count as usize > out.len() / 3 {
        return Err(Refusal::NoRoom);
    }
    if count == 0 {
        return Ok(0);
    }
    Ok(pass(points, out, true))
}
