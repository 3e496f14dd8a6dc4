// The lines of a range, copied: for a caller that may hold no reference to a part of the list, as
// `lines::lines_between` answers.
#![tactic(auto)]

ghost use Rattle.std.specs.Prelude.{◌≡◌, ◌≤◌, length};
ghost use Rattle.numbers.specs.Answers.{accepted, over};
ghost use Rattle.numbers.specs.Refusals.{read};
ghost use Rattle.between.specs.Copies.{part_answer, part_after, copy_answer, copy_after};

use numbers::Refusal;

// Copies lines to the front of out.
// Stays: a loop, where `copy_from_slice` would do, for the wrong edit that leaves out every second
// line; and not one with the copy of `notes`, since each crate has wrong edits of its own copy.
fn copy(part: &[u64], out: &mut [u64])
    requires { length part.now ≤ length out.old }
    ensures { out.new ≡ over part.now out.old }
{
    for (i, line) in part.iter().enumerate() {
        out[i] = *line;
    }
}

// A part of lines that the test passes, copied.
fn copy_of(part: &[u64], out: &mut [u64]) -> Result<usize, Refusal>
    ensures value { read result ≡ part_answer (accepted tt) part.now out.old }
    ensures copied { out.new ≡ part_after (accepted tt) part.now out.old }
{
    if part.len() > out.len() {
        return Err(Refusal::NoRoom);
    }
    copy(part, out);
    Ok(part.len())
}

// The lines from start up to end, copied to the front of out: 4, 11 and 8 in this order.
pub fn copy_between(lines: &[u64], start: u64, end: u64, out: &mut [u64]) -> Result<usize, Refusal>
    ensures value { read result ≡ copy_answer start end lines.now out.old }
    ensures copied { out.new ≡ copy_after start end lines.now out.old }
{
    let part = lines::lines_between(lines, start, end)?;
    copy_of(part, out)
}
