// From beats to seconds to frames, each operation rounded once, in the order of document 01.
ghost use Rattle.std.specs.Prelude.{◌≡◌};
ghost use Rattle.std.specs.Float.Ieee.{of_int};
ghost use Rattle.std.specs.Float.{binary64};
ghost use Rattle.beats.specs.Frames.{beat_float, seconds_at, frames_at, frame_of};

use crate::Beat;

// The nearest float. Below 2^53 in size it is n itself.
fn float_near(n: i64) -> f64
    ensures { result ≡ of_int binary64 n }
{
    if n > 0x1f_ffff_ffff_ffff {
        return std::num::nearest_i64_to_f64(n);
    }
    if n < -0x1f_ffff_ffff_ffff {
        return std::num::nearest_i64_to_f64(n);
    }
    n as f64
}

// The numerator as the nearest float, divided by the denominator.
pub fn float_of(beat: Beat) -> f64
    ensures { result ≡ beat_float beat.num beat.den }
{
    float_near(beat.num) / (beat.den as f64)
}

// beat * 60 / tempo.
pub fn seconds_at(beat: f64, tempo: f64) -> f64
    ensures { result ≡ seconds_at beat tempo }
{
    beat * 60.0 / tempo
}

// seconds * rate, rounded half away from zero: below 0 and a NaN give 0, too large 2^64 - 1.
pub fn frames_at(seconds: f64, rate: u32) -> u64
    ensures { result ≡ frames_at seconds rate }
{
    rounding::round_to_u64(seconds * (rate as f64))
}

// The frame of a beat at one tempo, which counts as 1 where it is below 1 or a NaN.
pub fn frame_of(beat: Beat, bpm: f32, rate: u32) -> u64
    ensures { result ≡ frame_of beat.num beat.den bpm rate }
{
    let tempo = rounding::max_f64(rounding::widened(bpm), 1.0);
    frames_at(seconds_at(float_of(beat), tempo), rate)
}
