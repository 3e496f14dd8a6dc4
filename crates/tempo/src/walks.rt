// The tempo of given bits, and one stretch of one tempo: the seconds at a beat, and the beat at a second.
ghost use Rattle.std.specs.Prelude.{◌≡◌};
ghost use Rattle.tempo.specs.Tempos.{tempo_of, elapsed, beat_after};

use beats::frames;

// The tempo whose bits are given, and 1 where it is below 1 or a NaN.
pub fn tempo_of(bits: u32) -> f64
    ensures { result ≡ tempo_of bits }
{
    rounding::max_f64(rounding::widened(rounding::f32_of(bits)), 1.0)
}

// The seconds at a beat `to`, after `secs` seconds at the beat `from`, with one tempo between.
pub fn later(secs: f64, from: f64, to: f64, tempo: f64) -> f64
    ensures { result ≡ elapsed secs from to tempo }
{
    secs + frames::seconds_at(to - from, tempo)
}

// The beat at a second, within a stretch of one tempo that begins at `secs` and `from`.
pub(crate) fn beat_after(seconds: f64, secs: f64, from: f64, tempo: f64) -> f64
    ensures { result ≡ beat_after seconds secs from tempo }
{
    from + (seconds - secs) * tempo / 60.0
}
