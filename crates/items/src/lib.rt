// What a line of the text form of a score says.
#![tactic(auto)]

ghost use Rattle.std.specs.Prelude.{◌≡◌};
ghost use Rattle.splits.specs.Splits.{words, body};
ghost use Rattle.items.specs.Items.{item_of};

use beats::Beat;
use spelling::BeatError;
use splits::scan;
use std::fmt;

mod keys;
mod values;

// What can be wrong with a text.
#[derive(Clone, Copy, Debug, PartialEq, Eq)]
pub enum Reason {
    // the first word of the line is none of the five keys
    Unknown,
    // words are missing, or there are too many
    Words,
    // not a number from 0 to 4,294,967,295
    NotNumber,
    // not the text of a beat
    NotBeat,
    // the text of a beat that is not in lowest terms, or whose denominator is 0
    NotLowest,
    NotTempo,
    // a meter without a slash
    NotMeter,
    // said before
    Twice,
    // over 256 meter points
    ManyMeters,
    // over 1,024 tempo points
    ManyTempos,
    // never said
    NoRate,
    NoBeats,
    NoTempo,
    // refused by the writer of score files
    Unwritten,
}

impl From<BeatError> for Reason {
    ghost use Rattle.std.specs.Prelude.{◌≡◌};
    ghost use Rattle.items.specs.Items.{reason_of};

    ghost from_gives = { λ why reason. reason ≡ reason_of why };

    fn from(why: BeatError) -> Reason {
        match why {
            BeatError::NotNumber => Reason::NotBeat,
            BeatError::NotBeat => Reason::NotLowest,
        }
    }
}

impl fmt::Display for Reason {
    ghost use Rattle.std.specs.Prelude.{Some};
    ghost use Rattle.items.specs.Messages.{reason_text};

    ghost output = { λ reason. Some (reason_text reason) };

    fn fmt<W: fmt::Write>(&self, f: &mut fmt::Formatter<W>) -> fmt::Result {
        f.write_str(match self {
            Reason::Unknown => "the first word is not known",
            Reason::Words => "words are missing, or there are too many",
            Reason::NotNumber => "not a number from 0 to 4294967295",
            Reason::NotBeat => "not a beat: n or n/d",
            Reason::NotLowest => "the beat is not in lowest terms, or its denominator is 0",
            Reason::NotTempo =>
                "not a tempo: a decimal whose digits are together below 16777216, at most ten behind the point, or 0x and eight hexadecimal digits",
            Reason::NotMeter => "not a meter: n/d",
            Reason::Twice => "said twice",
            Reason::ManyMeters => "over 256 meter points",
            Reason::ManyTempos => "over 1024 tempo points",
            Reason::NoRate => "rate is missing",
            Reason::NoBeats => "beats is missing",
            Reason::NoTempo => "tempo is missing",
            Reason::Unwritten => "the score cannot be written",
        })
    }
}

#[derive(Clone, Copy)]
pub enum Item {
    Rate(u32),
    Beats(u32),
    Tempo(u32),
    Pickup(Beat),
    // bar, numerator, denominator
    MeterPoint(u32, u32, u32),
    // beat, bits of the tempo
    TempoPoint(Beat, u32),
}

// What a line says; a line without words says nothing.
pub fn of_line(line: &[u8]) -> Result<Option<Item>, Reason>
    ensures { result ≡ item_of (words (body line.now)) }
{
    let end = scan::until(line, 0, b'#');
    keys::of_body(&line[..end])
}
