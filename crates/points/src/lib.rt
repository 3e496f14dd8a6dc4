// The problems of a meter map whose points are given as flat words, three a point: the words are
// made points of an array, and the part of it that they fill is lent.
#![tactic(auto)]

ghost use Rattle.std.specs.Prelude.{◌≡◌, ◌+◌, ◌<◌, ◌≤◌, ◌/◌, length};
ghost use Rattle.numbers.specs.Refusals.{read};
ghost use Rattle.meter.specs.Meters.{points_of, point_at};
ghost use Rattle.problems.specs.Answers.{meter_problems_answer, meter_after};
ghost use Rattle.points.specs.Answers.{flat_answer, flat_after};

use meter::MeterPoint;
use numbers::Refusal;

// The array that the points of a small map fit in, so that it does not cost a large one. It is more
// than the 256 points of a map without problems, so that one with some too many, problem 1, is small
// too.
const FEW: usize = 300;

// The array that the points of any map fit in: one more than the 65,536 points of a map that is not
// too long, so that the call over points can be lent one point too many, and itself refuses by 4.
const MANY: usize = 65537;

const NONE: MeterPoint = MeterPoint {
    bar: 0,
    numerator: 0,
    denominator: 0,
};

// The point of three words.
fn point_of(words: &[u32]) -> MeterPoint
    requires { length words.now ≡ 3 }
    ensures { result ≡ point_at words.now 0 }
{
    MeterPoint {
        bar: words[0],
        numerator: words[1],
        denominator: words[2],
    }
}

// The problems of the points of flat words, which fit in an array of N.
// Stays: an array and no Vec, by the rule of the project that libraries take no heap.
fn problems_within<const N: usize>(words: &[u32], out: &mut [u32]) -> Result<u32, Refusal>
    requires room { length words.now / 3 ≤ N }
    requires most { N ≤ 65537 }
    ensures answer { read result ≡ meter_problems_answer (points_of words.now) out.old }
    ensures words { out.new ≡ meter_after (points_of words.now) out.old }
{
    let mut points = [NONE; N];
    for (k, point) in words.chunks_exact(3).enumerate() {
        points[k] = point_of(point);
    }
    problems::meter_map_problems(&points[..words.len() / 3], out)
}

// The problems of the points of flat words: 3, 4 and 8 in this order.
pub fn flat_problems(words: &[u32], out: &mut [u32]) -> Result<u32, Refusal>
    ensures answer { read result ≡ flat_answer words.now out.old }
    ensures words { out.new ≡ flat_after words.now out.old }
{
    if words.len() % 3 != 0 {
        return Err(Refusal::Uneven);
    }
    let n = words.len() / 3;
    if n > MANY {
        return Err(Refusal::TooLong);
    }
    if n > FEW {
        return problems_within::<MANY>(words, out);
    }
    problems_within::<FEW>(words, out)
}
