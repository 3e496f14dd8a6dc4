// A Beat, as a question and an answer line have it.
ghost use Rattle.std.specs.Prelude.{◌≡◌};
ghost use Rattle.asking.specs.Fields.{beat_at};

use crate::fields::{i64_at, u32_at};
use crate::writing::{Answers, more};
use beats::Beat;
use std::io;

// Three words: the numerator's two, and the denominator.
pub fn beat_at(q: &[u32], i: usize) -> Beat
    ensures { result ≡ beat_at q.now i }
{
    if i < q.len() {
        Beat {
            num: i64_at(q, i),
            den: u32_at(q, i + 2),
        }
    } else {
        Beat { num: 0, den: 0 }
    }
}

// Its numerator and its denominator, behind what the line has.
pub fn more_beat(out: &mut Answers, b: Beat) -> io::Result<()> {
    let num = b.num;
    let den = b.den;
    more(out, numbers::as_bits(num))?;
    more(out, den as u64)
}
