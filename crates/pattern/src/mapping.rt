// The calls that change each note in the same way and leave the bars.
ghost use Rattle.std.specs.Prelude.{◌≡◌, ◌≤◌, ◌*◌, IfOk, length};
ghost use Rattle.notes.specs.declared.Note.{Note};
ghost use Rattle.rhythm.specs.Changes.{Gives};
ghost use Rattle.pattern.specs.Calls.{mapped, mapped_sorted};
ghost use Rattle.pattern.specs.Readings.{Outcome};

use crate::{Pattern, Wrote};
use notes::{Note, sorting};
use numbers::Refusal;
use rhythm::changing;

// The call that changes each note and keeps their order.
pub fn each<F: Fn(Note) -> Note>(
    p: Pattern,
    words: &[u32],
    change: F,
    out: &mut [u32],
) -> Result<Wrote, Refusal>
    requires { F.IsAlwaysCallable change }
    ensures outcome { (how : Note → Note) → Gives (F.post change) how → Outcome (mapped how p words.now) result out.old out.new }
    ensures whole { IfOk result (λ wrote. 4 * wrote.notes ≡ length words.now) }
    ensures most { IfOk result (λ _. length words.now ≤ 16384) }
    ensures room { IfOk result (λ _. length words.now ≤ length out.old) }
{
    notes::tested(&[words.len()])?;
    if words.len() > out.len() {
        return Err(Refusal::NoRoom);
    }
    changing::copy(words, change, out);
    Ok(Wrote::of(words.len(), p.bars))
}

// The call that changes each note and sorts them by step.
pub fn each_sorted<F: Fn(Note) -> Note>(
    p: Pattern,
    words: &[u32],
    change: F,
    out: &mut [u32],
) -> Result<Wrote, Refusal>
    requires { F.IsAlwaysCallable change }
    ensures { (how : Note → Note) → Gives (F.post change) how → Outcome (mapped_sorted how p words.now) result out.old out.new }
{
    let wrote = each(p, words, change, out)?;
    sorting::sort_by_step(&mut out[..words.len()]);
    Ok(wrote)
}
