// Answer lines.
ghost use Rattle.std.specs.Prelude.{◌<◌};

use crate::HELD;
use numbers::Refusal;
use std::io;
use std::io::{Print, Stdout};

// The output, a block at a time.
// Stays: bytes with a count beside them, since std's buffered writers take heap, and memory is fixed here.
#[derive(Drop)]
pub struct Answers {
    stdout: Stdout,
    // What is not written yet: the first `to` bytes.
    held: [u8; HELD],
    to: usize,
}

impl Answers {
    // An output that nothing is written of yet.
    pub fn new(stdout: Stdout) -> Answers {
        Answers {
            stdout,
            held: [0u8; HELD],
            to: 0,
        }
    }
}

// Writes out the first n bytes of s.
fn write_front(stdout: &Stdout, s: &[u8], n: usize) -> io::Result<()> {
    if n <= s.len() {
        let a = 0;
        return stdout.write_all(&s[a..n]);
    }
    Ok(())
}

// Writes out what is held. Nothing is held afterwards, also where it fails.
pub fn flush(out: &mut Answers) -> io::Result<()> {
    let n = out.to;
    out.to = 0;
    write_front(&out.stdout, &out.held, n)
}

// One byte more.
fn put_byte(out: &mut Answers, b: u8) -> io::Result<()> {
    if out.to >= HELD {
        flush(out)?;
    }
    let n = out.to;
    if n < HELD {
        out.held[n] = b;
        out.to = n + 1;
    }
    Ok(())
}

fn put_bytes(out: &mut Answers, s: &[u8]) -> io::Result<()> {
    for b in s {
        put_byte(out, *b)?;
    }
    Ok(())
}

// Makes text the 16 hexadecimal digits of a number, and returns where the first one is that is no
// zero in front.
fn digits(x: u64, text: &mut [u8; 16]) -> usize
    ensures { result < 16 }
{
    hex::encode_to_slice(x.to_be_bytes(), text).unwrap();
    (x.leading_zeros() / 4).min(15) as usize
}

// The first number of a line.
pub fn first(out: &mut Answers, x: u64) -> io::Result<()> {
    let mut text = [0u8; 16];
    let k = digits(x, &mut text);
    put_bytes(out, &text[k..])
}

// A number behind another.
pub fn more(out: &mut Answers, x: u64) -> io::Result<()> {
    put_byte(out, b' ')?;
    first(out, x)
}

// The numbers of a list, behind what the line has.
pub fn more_all<T: Copy + Into<u64>>(out: &mut Answers, list: &[T]) -> io::Result<()> {
    for x in list {
        more(out, (*x).into())?;
    }
    Ok(())
}

pub fn end_line(out: &mut Answers) -> io::Result<()> {
    put_byte(out, b'\n')
}

// The line for what is no question.
pub fn unknown(out: &mut Answers) -> io::Result<()> {
    put_byte(out, b'?')?;
    end_line(out)
}

// What a line has of a refusal: its number, and of 7 what is off the grid, the note's place, and the
// value as it was given.
pub fn refusal(out: &mut Answers, why: Refusal) -> io::Result<()> {
    first(out, u64::from(u32::from(why)))?;
    if let Refusal::OffGrid(miss) = why {
        more(out, u64::from(u32::from(miss.part)))?;
        more(out, miss.place as u64)?;
        more(out, u64::from(miss.value))?;
    }
    Ok(())
}

// What a line has of an answer: 0 and what `put` writes of its value, or the refusal.
pub fn answered<A: Drop, F: FnOnce(&mut Answers, A) -> io::Result<()>>(
    out: &mut Answers,
    answer: Result<A, Refusal>,
    put: F,
) -> io::Result<()>
    requires { F.IsAlwaysCallable put }
{
    match answer {
        Ok(value) => {
            first(out, 0)?;
            put(out, value)
        }
        Err(why) => refusal(out, why),
    }
}

// The line of an answer that hands nothing back; of what is no question where there is none.
pub fn answer_line<A: Drop, F: FnOnce(&mut Answers, A) -> io::Result<()>>(
    out: &mut Answers,
    answer: Option<Result<A, Refusal>>,
    put: F,
) -> io::Result<()>
    requires { F.IsAlwaysCallable put }
{
    match answer {
        Some(answer) => {
            answered(out, answer, put)?;
            end_line(out)
        }
        None => unknown(out),
    }
}

// The line of a refusal that hands nothing back.
pub fn refused(out: &mut Answers, why: Refusal) -> io::Result<()> {
    refusal(out, why)?;
    end_line(out)
}
