// Makes the score file that a text says: standard input to standard output. Where the text is wrong,
// nothing is written there, and standard error has the line and the reason.
#![tactic(auto)]

use score::LONGEST;
use std::io;

// One byte more than the longest text that is read.
const READ: usize = 131073;

fn answer(file: &impl Print, errors: &impl Print, text: &[u8]) -> io::Result<()> {
    let mut out = [0u8; LONGEST];
    match form::read_form(text, &mut out) {
        Ok(size) => file.write_all(&out[..size]),
        Err(wrong) => telling::wrong(errors, wrong),
    }
}

fn main(rt: HostRuntime) -> io::Result<()> {
    let mut text = [0u8; READ];
    let n = intake::read_full(&mut rt.stdin(), &mut text)?;
    if n == READ {
        // it may go on
        return rt.eprintln("the text is longer than 131072 bytes");
    }
    answer(&rt.stdout(), &rt.stderr(), &text[..n])
}
