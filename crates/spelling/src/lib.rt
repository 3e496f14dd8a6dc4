// Numbers, beats and tempos, read from a word of text. Every word has an answer.
#![tactic(auto)]

ghost use Rattle.std.specs.Prelude.{◌≡◌};
ghost use Rattle.spelling.specs.Words.{number_of, beat_of, tempo_of};

use beats::Beat;

mod digits;
mod fractions;
mod points;

pub use points::over_ten;

// Why a word is no beat.
#[derive(Clone, Copy, Debug, PartialEq, Eq)]
pub enum BeatError {
    // not the text of a fraction, or one whose numbers are too large
    NotNumber,
    // the text of a fraction that is not in lowest terms, or is over 0
    NotBeat,
}

// A number below 2^32, by its decimal digits.
pub fn number(word: &[u8]) -> Option<u32>
    ensures { result ≡ number_of word.now }
{
    let n = digits::some(word, 0xffff_ffff)?;
    Some(n as u32)
}

// A beat, by its numerator and, behind a slash, its denominator: `n`, `-n`, `n/d` or `-n/d`.
pub fn beat(word: &[u8]) -> Result<Beat, BeatError>
    ensures { result ≡ beat_of word.now }
{
    fractions::fraction(word)
}

// The bits of a tempo's binary32, by decimal digits with a point or without, or by the eight
// hexadecimal digits of its bits: `120`, `92.5`, `0x42F00000`.
pub fn tempo(word: &[u8]) -> Option<u32>
    ensures { result ≡ tempo_of word.now }
{
    points::tempo(word)
}
