// Bar lines: the frames that bars start at, lent by their owner. They are tested, and the lines of a
// range are handed back as a part of the owner's own list.
#![tactic(auto)]

ghost use Rattle.std.specs.Prelude.{◌≡◌, []};
ghost use Rattle.numbers.specs.Answers.{accepted, given, then};
ghost use Rattle.numbers.specs.Refusals.{read};
ghost use Rattle.lines.specs.Lines.{lines_answer, range_of};

use numbers::Refusal;

pub mod range;

pub use range::Lines;

// Whether 4 or 11 refuses the lines.
pub fn check_lines(lines: &[u64]) -> Result<(), Refusal>
    ensures { read result ≡ lines_answer lines.now }
{
    if lines.len() > 65536 {
        return Err(Refusal::TooLong);
    }
    if range::ascending(lines) {
        Ok(())
    } else {
        Err(Refusal::Descend)
    }
}

// The lines from start up to end, as a part of the list.
pub fn lines_between<'a>(lines: &'a [u64], start: u64, end: u64) -> Result<&'a [u64], Refusal>
    ensures test { then (read result) (λ part. accepted tt) ≡ lines_answer lines.now }
    ensures part { given (λ part. part.now) (read result) [] ≡ range_of start end lines.now }
{
    let fine = Lines::tested(lines)?;
    Ok(fine.part(start, end))
}
