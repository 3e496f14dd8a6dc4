// Beats, by a numerator and a denominator.
ghost use Rattle.std.specs.Prelude.{◌≡◌, ◌≤◌, length};
ghost use Rattle.spelling.specs.Words.{numerator_of, sign_by, denominator_of, fraction_by, beat_of};

use crate::{BeatError, digits};
use beats::Beat;
use splits::scan;

// The number with this sign and this size.
fn with_sign(negative: bool, size: Option<u64>) -> Option<i64>
    ensures { result ≡ sign_by negative size }
{
    Some(numbers::signed(negative, size?))
}

// An i64: digits, with a minus in front of a number below 0.
fn numerator(word: &[u8]) -> Option<i64>
    ensures { result ≡ numerator_of word.now }
{
    match word.strip_prefix(b"-") {
        Some(size) => with_sign(true, digits::some(size, 0x8000_0000_0000_0000)),
        None => with_sign(false, digits::some(word, 0x7fff_ffff_ffff_ffff)),
    }
}

// The number behind a slash at a place, or 1 where there is none.
fn denominator(word: &[u8], slash: usize) -> Option<u32>
    requires { slash ≤ length word.now }
    ensures { result ≡ denominator_of word.now slash }
{
    if slash < word.len() {
        crate::number(&word[slash + 1..])
    } else {
        Some(1)
    }
}

// num / den, where that is in lowest terms.
fn ratio(num: i64, den: u32) -> Result<Beat, BeatError>
    ensures { result ≡ fraction_by num den }
{
    let beat = Beat { num, den };
    if beat.is_beat() {
        Ok(beat)
    } else {
        Err(BeatError::NotBeat)
    }
}

pub fn fraction(word: &[u8]) -> Result<Beat, BeatError>
    ensures { result ≡ beat_of word.now }
{
    let slash = scan::until(word, 0, b'/');
    let num = numerator(&word[..slash]).ok_or(BeatError::NotNumber)?;
    let den = denominator(word, slash).ok_or(BeatError::NotNumber)?;
    ratio(num, den)
}
