// The text form of a score, read: from text to the score file that it says, or to the first line
// that is wrong and why.
#![tactic(auto)]

ghost use Rattle.std.specs.Prelude.{◌≡◌};
ghost use Rattle.form.specs.Forms.{form_answer, form_bytes, FileFits};

use items::Reason;
use score::{LONGEST, Points};
use std::fmt;

mod draft;
mod finish;
mod fold;
mod points;

// The first line that is wrong, and why.
#[derive(Clone, Copy, Debug, PartialEq, Eq)]
pub struct WrongLine {
    // counted from 1
    pub line: usize,
    pub reason: Reason,
}

impl fmt::Display for WrongLine {
    ghost use Rattle.std.specs.Prelude.{Some};
    ghost use Rattle.form.specs.Messages.{wrong_text};

    ghost output = { λ wrong. Some (wrong_text wrong) };

    fn fmt<W: fmt::Write>(&self, f: &mut fmt::Formatter<W>) -> fmt::Result {
        write!(f, "line {}: {}", self.line, self.reason)
    }
}

// Reads a text and writes the score file that it says, from the front of the output: answers how
// many bytes it has. Where a line is wrong, nothing is written. The second promise lets a caller cut
// the output to the file.
pub fn read_form(text: &[u8], out: &mut [u8; LONGEST]) -> Result<usize, WrongLine>
    ensures value { (result ≡ form_answer text.now) × (out.new ≡ form_bytes text.now out.old) }
    ensures file_fits { FileFits result out.new }
{
    let mut points = Points::new();
    let read = fold::lines(text, &mut points)?;
    finish::file(read.draft, read.lines, &points, out)
}
