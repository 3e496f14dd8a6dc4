// The words of notes: read note by note, written, and moved without reading them.
ghost use Rattle.std.specs.Prelude.{◌≡◌, ◌++◌, ◌+◌, ◌/◌, ◌≤◌, length, take, drop, map};
ghost use Rattle.notes.specs.Notes.{note_of, note_words, notes_of};

use crate::Note;

// The words of each note; those behind the last whole note are none.
pub fn each(words: &[u32]) -> &[[u32; 4]]
    ensures notes { map note_of result.now ≡ notes_of words.now }
    ensures len { length result.now ≡ length words.now / 4 }
{
    words.as_chunks().0
}

// The note whose first word is words[i].
pub fn note_at(words: &[u32], i: usize) -> Note
    requires { i + 4 ≤ length words.now }
    ensures { drop i words.now ≡ note_words result ++ drop (i + 4) words.now }
{
    Note {
        step: words[i],
        len: words[i + 1],
        gain: words[i + 2],
        tag: words[i + 3],
    }
}

// Writes the words of a note from out[i] on.
pub fn put_note(out: &mut [u32], i: usize, n: Note)
    requires { i + 4 ≤ length out.old }
    ensures { out.new ≡ take i out.old ++ (note_words n ++ drop (i + 4) out.old) }
{
    out[i] = n.step;
    out[i + 1] = n.len;
    out[i + 2] = n.gain;
    out[i + 3] = n.tag;
}

// Copies words to the front of out.
// Stays: a loop, where `copy_from_slice` would do, for the wrong edit that leaves out every second
// word; and not one with the copy of `between`, since each crate has wrong edits of its own copy.
pub fn copy(words: &[u32], out: &mut [u32])
    requires { length words.now ≤ length out.old }
    ensures { out.new ≡ words.now ++ drop (length words.now) out.old }
{
    for (i, word) in words.iter().enumerate() {
        out[i] = *word;
    }
}
