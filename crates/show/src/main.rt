// Prints a score file as text: standard input to standard output. One byte more than the longest
// score file is read, and a longer input is refused by that byte.
#![tactic(auto)]

use score::LONGEST;
use std::io;

const READ: usize = LONGEST + 1;

// Stays: `count`, `show` and `sheet` have these lines alike, each with its own text function and its own sizes
// of what it lends: one for all would take the function as a closure and both sizes as parameters.
fn main(rt: HostRuntime) -> io::Result<()> {
    let mut bytes = [0u8; READ];
    let mut out = [0u8; 65536];
    let n = intake::read_full(&mut rt.stdin(), &mut bytes)?;
    let k = form_text::form_of(&bytes[..n], &mut out);
    rt.write_all(&out[..k])
}
