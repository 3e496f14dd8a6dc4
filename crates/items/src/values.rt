// A word of a line as the number, the beat or the tempo that it says.
ghost use Rattle.std.specs.Prelude.{◌≡◌};
ghost use Rattle.spelling.specs.Words.{number_of, beat_of, tempo_of};
ghost use Rattle.items.specs.Items.{number_value, beat_value, tempo_value};

use crate::Reason;
use beats::Beat;

pub fn number(word: &[u8]) -> Result<u32, Reason>
    ensures { result ≡ number_value (number_of word.now) }
{
    spelling::number(word).ok_or(Reason::NotNumber)
}

pub fn beat(word: &[u8]) -> Result<Beat, Reason>
    ensures { result ≡ beat_value (beat_of word.now) }
{
    Ok(spelling::beat(word)?)
}

// The bits of a tempo.
pub fn tempo(word: &[u8]) -> Result<u32, Reason>
    ensures { result ≡ tempo_value (tempo_of word.now) }
{
    spelling::tempo(word).ok_or(Reason::NotTempo)
}
