// The one copier of notes that every call with input notes goes through, but `slice`, which leaves
// notes out. What is done to each note is a closure of the caller's.
ghost use Rattle.std.specs.Prelude.{◌≡◌, ◌%◌, ◌≤◌, ◌++◌, map, length, drop};
ghost use Rattle.notes.specs.declared.Note.{Note};
ghost use Rattle.notes.specs.Notes.{notes_of, words_of};
ghost use Rattle.rhythm.specs.Changes.{Gives};

use notes::{Note, words};

// Writes each note, changed, to the front of out.
// Stays: words that are four a note are asked for, here and in `joining`, since the clause says where
// the words behind the written ones begin; the words are lent flat (docs/DECISIONS.md).
pub fn copy<F: Fn(Note) -> Note>(words: &[u32], change: F, out: &mut [u32])
    requires ready { F.IsAlwaysCallable change }
    requires whole { length words.now % 4 ≡ 0 }
    requires room { length words.now ≤ length out.old }
    ensures { (how : Note → Note) → Gives (F.post change) how → out.new ≡ words_of (map how (notes_of words.now)) ++ drop (length words.now) out.old }
{
    for (k, note) in words::each(words).iter().enumerate() {
        words::put_note(out, 4 * k, change(Note::from(*note)));
    }
}
