// Prints how many bars the music up to a beat takes: a score file on standard input, the beat as
// the argument. One byte more than the longest score file is read, and a longer input is refused by
// that byte. An argument of more than 4,096 bytes counts as none.
#![tactic(auto)]

use score::LONGEST;
use std::io;

const READ: usize = LONGEST + 1;

// Stays: `count`, `show` and `sheet` have these lines alike, each with its own text function and its own sizes
// of what it lends: one for all would take the function as a closure and both sizes as parameters.
fn main(rt: HostRuntime) -> io::Result<()> {
    let mut bytes = [0u8; READ];
    let mut argument = [0u8; 4096];
    let mut out = [0u8; 1024];
    let n = intake::read_full(&mut rt.stdin(), &mut bytes)?;
    let word = intake::argument(&rt, 1, &mut argument).unwrap_or(&[]);
    let k = count_text::count_of(&bytes[..n], word, &mut out);
    rt.write_all(&out[..k])
}
