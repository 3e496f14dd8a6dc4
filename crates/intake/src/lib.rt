// What a program is given: bytes from a reader, and arguments.
#![tactic(auto)]

ghost use Rattle.std.specs.Prelude.{◌<◌, ◌≤◌, length, take, IfOk, IfSome};
ghost use Rattle.std.specs.Io.KnownBytes.{Consumes, IsAtEnd};

use std::env::{Env, FillError};
use std::io;
use std::io::Read;

// Reads until buf is full or the input ends, and returns how many bytes it put at the start of buf.
// Where a read fails, bytes that were read before are lost with it.
pub fn read_full<R: Read>(reader: &mut R, buf: &mut [u8]) -> io::Result<usize>
    ensures bound { IfOk result (λ n. n ≤ length buf.new) }
    ensures bytes { IfOk result (λ n. Consumes (R.remaining reader.old) (R.remaining reader.new) (take n buf.new)) }
    ensures end { IfOk result (λ n. n < length buf.new → IsAtEnd (R.remaining reader.new)) }
{
    let mut done = 0;
    // Stays: this counts no turns; each goes on by as many bytes as a read gave, 0 at the end.
    while done < buf.len() {
        let n = reader.read(&mut buf[done..])?;
        if n == 0 {
            break;
        }
        done += n;
    }
    Ok(done)
}

// Whether the program has an argument i. Its own name is argument 0.
pub fn has_argument(rt: &impl Env, i: usize) -> bool {
    let mut buf = [0u8; 1];
    !matches!(rt.arg(i, &mut buf), Err(FillError::NotPresent))
}

// Argument i, put at the start of buf: none where it is missing, or longer than buf.
pub fn argument<'a>(rt: &impl Env, i: usize, buf: &'a mut [u8]) -> Option<&'a [u8]>
    ensures { IfSome result (λ word. length word.now ≤ length buf.old) }
{
    let n = rt.arg(i, &mut *buf).ok()?;
    Some(&buf[..n])
}
