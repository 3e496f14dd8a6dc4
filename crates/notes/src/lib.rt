// Notes as flat words, four a note: step, len, gain bits and tag. The work on words whose numbers
// are tested is in `words` and `sorting`.
#![tactic(auto)]

ghost use Rattle.std.specs.Prelude.{◌≡◌};
ghost use Rattle.numbers.specs.Refusals.{read};
ghost use Rattle.notes.specs.Notes.{placed, note_of, note_words, refusal_of, passed_by};

use numbers::Refusal;

pub mod sorting;
pub mod words;

#[derive(Clone, Copy, Debug, PartialEq, Eq)]
pub struct Note {
    pub step: u32,
    pub len: u32,
    pub gain: u32,
    pub tag: u32,
}

impl Note {
    // The note at another step.
    pub fn at(self, step: u32) -> Note
        ensures { result ≡ placed step self }
    {
        Note { step, ..self }
    }
}

impl From<[u32; 4]> for Note {
    ghost use Rattle.std.specs.Prelude.{◌≡◌};
    ghost use Rattle.notes.specs.Notes.{note_of};

    ghost from_gives = { λ words n. n ≡ note_of words };

    fn from(words: [u32; 4]) -> Note {
        Note {
            step: words[0],
            len: words[1],
            gain: words[2],
            tag: words[3],
        }
    }
}

// Refuses lists of so many note words each: first those that are not four a note, then those over
// 4,096 notes.
pub fn tested(counts: &[usize]) -> Result<(), Refusal>
    ensures { read result ≡ passed_by (refusal_of counts.now) }
{
    let uneven = counts.iter().any(|words| words % 4 != 0);
    let long = counts.iter().any(|words| *words > 16_384);
    if uneven {
        return Err(Refusal::Uneven);
    }
    if long {
        return Err(Refusal::TooLong);
    }
    Ok(())
}
