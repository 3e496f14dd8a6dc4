// Whether a meter map has no problems.
ghost use Rattle.std.specs.Prelude.{◌≡◌, ◌&&◌, leb, ltb};
ghost use Rattle.meter.specs.Meters.{points_of};
ghost use Rattle.meter.specs.Fits.{good_den, first_zero, sound_from, sound_map};

use meter::MeterPoint;
use meter::bars::{Points, good_denominator};

// Whether a point is at least at the bar `low`, with a numerator and a good denominator.
fn point(low: u64, point: MeterPoint) -> bool
    ensures { result ≡ leb low point.bar && (ltb 0 point.numerator && good_den point.denominator) }
{
    let bar = point.bar;
    let numerator = point.numerator;
    low <= bar as u64 && (0 < numerator && good_denominator(point.denominator))
}

// Whether each point is sound and lies above the one before it.
fn points(words: &[u32]) -> bool
    ensures { result ≡ sound_from 0 (points_of words.now) }
{
    let mut low: u64 = 0;
    for next in Points::new(words) {
        if !point(low, next) {
            return false;
        }
        low = next.bar as u64 + 1;
    }
    true
}

// Whether the first point, if there is one, is at bar 0.
fn first_zero(words: &[u32]) -> bool
    ensures { result ≡ first_zero (points_of words.now) }
{
    match Points::new(words).next() {
        None => true,
        Some(first) => first.bar == 0,
    }
}

// Whether there are at most 256 points, the first at bar 0, and each of them is sound.
pub fn map(words: &[u32]) -> bool
    ensures { result ≡ sound_map (points_of words.now) }
{
    if words.len() / 3 > 256 {
        return false;
    }
    if !first_zero(words) {
        return false;
    }
    points(words)
}
