// The notes of a window, and the notes that a stretch would put between steps.
ghost use Rattle.std.specs.Prelude.{◌≡◌, ◌*◌, ◌<◌, ◌≤◌, ◌++◌, length, drop};
ghost use Rattle.numbers.specs.Refusals.{read};
ghost use Rattle.notes.specs.Notes.{notes_of, words_of};
ghost use Rattle.rhythm.specs.Cuts.{window, grid_of, note_grid, grid_answer};

use notes::{Note, words};
use numbers::{Miss, Part, Refusal};

// How many notes start in the window.
// Tried as `filter(..).count()`: 50 us for 4,096 notes in `slice`, and 30 us so.
pub fn count_window(words: &[u32], start: u32, len: u32) -> usize
    ensures { result ≡ length (window start len (notes_of words.now)) }
{
    let mut count = 0;
    for note in words::each(words) {
        let n = Note::from(*note);
        if start <= n.step {
            if n.step - start < len {
                count += 1;
            }
        }
    }
    count
}

// Writes the notes that start in the window, counted from its start.
pub fn write_window(words: &[u32], start: u32, len: u32, out: &mut [u32])
    requires { 4 * length (window start len (notes_of words.now)) ≤ length out.old }
    ensures { out.new ≡ words_of (window start len (notes_of words.now)) ++ drop (4 * length (window start len (notes_of words.now))) out.old }
{
    let mut o = 0;
    for note in words::each(words) {
        let n = Note::from(*note);
        if start <= n.step {
            let step = n.step - start;
            if step < len {
                words::put_note(out, o, n.at(step));
                o += 4;
            }
        }
    }
}

// Refuses the first note whose step, or else len, falls between steps.
fn note_off_grid(words: &[u32], num: u32, den: u32) -> Result<(), Refusal>
    requires { 0 < den }
    ensures { read result ≡ grid_answer (note_grid num den 0 (notes_of words.now)) }
{
    let m = num as u64;
    let d = den as u64;
    for (place, note) in words::each(words).iter().enumerate() {
        let n = Note::from(*note);
        if n.step as u64 * m % d != 0 {
            return Err(Refusal::OffGrid(Miss {
                part: Part::Step,
                place,
                value: n.step,
            }));
        }
        if n.len as u64 * m % d != 0 {
            return Err(Refusal::OffGrid(Miss {
                part: Part::Len,
                place,
                value: n.len,
            }));
        }
    }
    Ok(())
}

// The bars are looked at first, then each note.
pub fn off_grid(bars: u32, words: &[u32], num: u32, den: u32) -> Result<(), Refusal>
    requires { 0 < den }
    ensures { read result ≡ grid_answer (grid_of num den bars (notes_of words.now)) }
{
    if bars as u64 * num as u64 % den as u64 != 0 {
        return Err(Refusal::OffGrid(Miss {
            part: Part::Bars,
            place: 0,
            value: bars,
        }));
    }
    note_off_grid(words, num, den)
}
