// Exact beats, and the one place where they become frames or steps. These are the calls with their
// refusals; crates above, which have tested their beats, call `sums` and `frames`.
#![tactic(auto)]

ghost use Rattle.std.specs.Prelude.{◌≡◌, max};
ghost use Rattle.numbers.specs.Answers.{accepted};
ghost use Rattle.numbers.specs.Refusals.{read};
ghost use Rattle.beats.specs.Beats.{new_beat, is_beat, whole_beat, zero_beat, if_beat, if_beats};
ghost use Rattle.beats.specs.Sums.{add_answer, sub_answer, mul_answer, order_answer};
ghost use Rattle.beats.specs.Frames.{float_answer, frame_answer};
ghost use Rattle.beats.specs.Steps.{step_answer};

use numbers::{Miss, Part, Refusal};
use std::cmp::Ordering;

pub mod frames;
pub mod sums;

// A number of beats, num / den.
#[derive(Clone, Copy, Debug, PartialEq, Eq)]
pub struct Beat {
    pub num: i64,
    pub den: u32,
}

// den, or 1 for 0.
fn positive(den: u32) -> u32
    ensures { result ≡ max den 1 }
{
    den.max(1)
}

// 1 where either is no beat.
fn both_beats(a: Beat, b: Beat) -> Result<(), Refusal>
    ensures { read result ≡ if_beats a b (accepted (record {})) }
{
    a.tested()?;
    b.tested()?;
    Ok(())
}

impl Beat {
    // num / den in lowest terms; a denominator 0 counts as 1.
    pub fn new(num: i64, den: u32) -> Beat
        ensures { result ≡ new_beat num den }
    {
        let d = positive(den);
        let g = numbers::gcd(numbers::magnitude(num), d as u64);
        if g == 1 {
            return Beat { num, den: d };
        }
        Beat {
            num: num / (g as i64),
            den: (d as u64 / g) as u32,
        }
    }

    // The beat 0/1.
    pub fn zero() -> Beat
        ensures { result ≡ zero_beat }
    {
        Beat { num: 0, den: 1 }
    }

    // n whole beats.
    pub fn from_int(n: i64) -> Beat
        ensures { result ≡ whole_beat n }
    {
        Beat { num: n, den: 1 }
    }

    // Whether the denominator is not 0 and the fraction is in lowest terms.
    pub fn is_beat(self) -> bool
        ensures { result ≡ is_beat self }
    {
        self.den != 0 && numbers::gcd(numbers::magnitude(self.num), self.den as u64) == 1
    }

    // 1 where it is no beat, and else it.
    fn tested(self) -> Result<Beat, Refusal>
        ensures { read result ≡ if_beat self (accepted self) }
    {
        if self.is_beat() {
            Ok(self)
        } else {
            Err(Refusal::NotBeat)
        }
    }

    // The exact sum; 2 where it is too wide before it is reduced.
    pub fn checked_add(self, b: Beat) -> Result<Beat, Refusal>
        ensures { read result ≡ add_answer self b }
    {
        both_beats(self, b)?;
        sums::add(self, b)
    }

    // The exact difference; 2 where it is too wide before it is reduced.
    pub fn checked_sub(self, b: Beat) -> Result<Beat, Refusal>
        ensures { read result ≡ sub_answer self b }
    {
        both_beats(self, b)?;
        sums::sub(self, b)
    }

    // Scaled by num / den, which need not be in lowest terms. By n/0 the product's denominator is 0,
    // which becomes 1: 1/2 by 3/0 is 3/1.
    pub fn mul_rational(self, num: i64, den: u32) -> Result<Beat, Refusal>
        ensures { read result ≡ mul_answer self num den }
    {
        sums::mul(self.tested()?, num, den)
    }

    // Scaled by a whole number.
    pub fn scale(self, factor: i64) -> Result<Beat, Refusal>
        ensures { read result ≡ mul_answer self factor 1 }
    {
        self.mul_rational(factor, 1)
    }

    // The order of two beats, by exact cross products, signed.
    pub fn cmp(self, b: Beat) -> Result<Ordering, Refusal>
        ensures { read result ≡ order_answer self b }
    {
        both_beats(self, b)?;
        Ok(sums::order(self, b))
    }

    // The numerator as the nearest float, divided by the denominator: each rounded once.
    pub fn to_f64(self) -> Result<f64, Refusal>
        ensures { read result ≡ float_answer self }
    {
        Ok(frames::float_of(self.tested()?))
    }
}

// The frame of a beat at a tempo in beats a minute and a rate in frames a second.
pub fn beat_to_frames(beat: Beat, bpm: f32, rate: u32) -> Result<u64, Refusal>
    ensures { read result ≡ frame_answer beat bpm rate }
{
    Ok(frames::frame_of(beat.tested()?, bpm, rate))
}

// The step of a beat on a grid of so many steps a beat. The beat is in lowest terms, so it lies on
// the grid exactly where its denominator divides the steps, and no product is wider than two words.
pub fn beat_to_step(beat: Beat, steps: u32) -> Result<u32, Refusal>
    ensures { read result ≡ step_answer beat steps }
{
    let Beat { num, den } = beat.tested()?;
    let grid = positive(steps);
    if grid % den != 0 {
        return Err(Refusal::OffGrid(Miss {
            part: Part::Beat,
            place: 0,
            value: 0,
        }));
    }
    if numbers::negative(num) {
        return Ok(0);
    }
    let exact = numbers::saturating_mul(numbers::magnitude(num), (grid / den) as u64);
    Ok(numbers::to_u32(exact))
}
