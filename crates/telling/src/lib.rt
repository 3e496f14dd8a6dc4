// What is wrong with a text, told by a line: which line of the text, and why.
#![tactic(auto)]

use form::WrongLine;
use std::io;

// Writes the line to standard output or standard error.
pub fn wrong(to: &impl Print, wrong: WrongLine) -> io::Result<()> {
    println!(to; "{wrong}")
}
