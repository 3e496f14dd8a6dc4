// One list of notes behind another: the rest of the output is lent from its middle to the copier.
ghost use Rattle.std.specs.Prelude.{◌≡◌, ◌+◌, ◌*◌, ◌%◌, ◌≤◌, ◌++◌, length, drop};
ghost use Rattle.notes.specs.Notes.{notes_of, words_of};
ghost use Rattle.rhythm.specs.Joins.{joined, copies_from};

use crate::{changing, steps};
use notes::Note;

// Writes a's notes, and behind them b's, each `off` steps later.
pub fn join(a: &[u32], b: &[u32], off: u64, out: &mut [u32])
    requires { (length a.now % 4 ≡ 0) × (length b.now % 4 ≡ 0) × (length a.now + length b.now ≤ length out.old) }
    ensures { out.new ≡ words_of (joined off (notes_of a.now) (notes_of b.now)) ++ drop (length a.now + length b.now) out.old }
{
    let n = a.len();
    changing::copy(a, |note| note, out);
    changing::copy(
        b,
        |note: Note| note.at(steps::later(note.step, off)),
        &mut out[n..],
    );
}

// Writes the notes `times` times, each copy `stride` steps behind the one before. No notes cost
// nothing, however many times.
pub fn copies(words: &[u32], stride: u64, times: u32, out: &mut [u32])
    requires { (length words.now % 4 ≡ 0) × (length words.now * times ≤ length out.old) }
    ensures { out.new ≡ words_of (copies_from stride (notes_of words.now) 0 times) ++ drop (length words.now * times) out.old }
{
    let n = words.len();
    if n == 0 {
        return;
    }
    let mut off: u64 = 0;
    for i in 0..times as usize {
        changing::copy(
            words,
            |note: Note| note.at(steps::later(note.step, off)),
            &mut out[n * i..],
        );
        off = off.saturating_add(stride);
    }
}
