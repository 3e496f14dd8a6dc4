// The line filler: a whole lent list of bar lines, entry k the frame of bar k. Its cost is that of
// the lines and of the maps: what a line needs of the maps is carried on to the next.
#![tactic(auto)]

ghost use Rattle.std.specs.Prelude.{◌≡◌, IfOk};
ghost use Rattle.numbers.specs.Refusals.{read};
ghost use Rattle.timeline.specs.Tests.{test_of, worse, maps_test, told};
ghost use Rattle.filler.specs.Fills.{lines_test, fill_answer, fill_after};

use numbers::Refusal;
use tempo::TempoMap;
use timeline::tests;
use transport::Transport;

mod bar_lines;
mod marks;
mod segments;
mod stands;

// How many lines there are.
fn lines_test(n: usize) -> Result<(), Refusal>
    ensures { result ≡ lines_test n }
{
    if n <= 65536 {
        Ok(())
    } else {
        Err(Refusal::TooLong)
    }
}

// The tempo map; 12, then 3, 4 and 1 of the maps and of the lines.
#[tactic(auto, unfolding(timeline::specs::Tests::test_of))]
fn test<'a>(
    t: Transport,
    words: &[u32],
    nums: &'a [i64],
    dens: &'a [u32],
    tempos: &'a [u32],
    n: usize,
) -> Result<TempoMap<'a>, Refusal>
    ensures test { told result ≡ test_of t (worse (lines_test n) (maps_test words.now nums.now dens.now tempos.now)) }
    ensures lists { IfOk result (λ map. (map.nums.now ≡ nums.now) × (map.dens.now ≡ dens.now) × (map.tempos.now ≡ tempos.now)) }
{
    // first, so that an unsound transport costs no look at its maps
    tests::found(t, Ok(()))?;
    let maps = tests::worse(tests::words_test(words), tempo::test(nums, dens, tempos));
    tests::worse(lines_test(n), maps)?;
    Ok(TempoMap { nums, dens, tempos })
}

// Fill the whole list, entry k with the frame of bar k.
pub fn fill_lines(
    t: Transport,
    words: &[u32],
    nums: &[i64],
    dens: &[u32],
    tempos: &[u32],
    out: &mut [u64],
) -> Result<(), Refusal>
    ensures result_value { read result ≡ fill_answer t words.now nums.now dens.now tempos.now out.old }
    ensures out_after { out.new ≡ fill_after t words.now nums.now dens.now tempos.now out.old }
{
    let map = test(t, words, nums, dens, tempos, out.len())?;
    bar_lines::fill(t, words, &map, out);
    Ok(())
}
