// The loop of all rows, and what the calls are given. Each turn's answer goes into the checksum with
// a word of its notes, so that no call can be left out.
use crate::inputs::WORDS;
use benching::{checksum, input_of, place, refusal_word};
use numbers::Refusal;
use pattern::{Pattern, Wrote};
use std::env::Env;
use std::io;

// All patterns have 512 bars of 16 steps.
pub fn bars() -> Pattern {
    Pattern { bars: 512 }
}

// What the row without a call counts as its answer.
pub fn none(q: u32) -> Result<Wrote, Refusal> {
    Ok(Wrote {
        notes: 0,
        pattern: Pattern { bars: q },
    })
}

// A factor from a half to nearly 1.
pub fn factor(q: u32) -> f32 {
    rounding::f32_of(0x3f00_0000 + q % 8192 * 1024)
}

// As many notes as a list has.
pub fn count(words: &[u32]) -> u32 {
    numbers::to_u32(words.len() as u64 / 4)
}

// So many steps for each note, and a few more.
pub fn steps(words: &[u32], each: u32, q: u32) -> u32 {
    count(words).saturating_mul(each).saturating_add(q % 16)
}

// The word at an index, if it is one of so many notes.
fn written(lent: &[u32], notes: usize, at: usize) -> u32 {
    if at / 4 >= notes {
        return 0;
    }
    lent.get(at).copied().unwrap_or(0)
}

fn wrote_word(wrote: Wrote, lent: &[u32], at: usize) -> u64 {
    let word = written(lent, wrote.notes, at);
    u64::from(wrote.pattern.bars) << 32 ^ (wrote.notes as u64) << 16 ^ u64::from(word)
}

// An index below the number of words.
fn word_of(q: u32, words: &[u32]) -> usize {
    if words.is_empty() {
        return 0;
    }
    (q as usize * 5) % words.len()
}

// What a turn of a row counts: its answer, with a word of the notes that were written.
fn turn<F: Fn(&[u32], u32, &mut [u32]) -> Result<Wrote, Refusal>>(
    call: &F,
    words: &[u32],
    lent: &mut [u32; WORDS],
    i: u64,
) -> u64
    requires { F.IsAlwaysCallable call.now }
{
    let q = place(input_of(i));
    let answer = call(words, q, lent);
    match answer {
        Ok(wrote) => wrote_word(wrote, lent, word_of(q, words)),
        Err(why) => refusal_word(why),
    }
}

// Runs a row, if it is asked, and writes its line: `call` takes the words of the notes, a number of
// the turn's and the output.
pub fn show<R: Env + Print, F: Fn(&[u32], u32, &mut [u32]) -> Result<Wrote, Refusal>>(
    rt: &R,
    name: &str,
    size: &str,
    words: &[u32],
    few: u64,
    call: F,
) -> io::Result<()>
    requires { F.IsAlwaysCallable call }
{
    benching::row(
        rt,
        name,
        size,
        few,
        |turns|
            requires { F.IsAlwaysCallable call }
        {
            let mut lent = [0u32; WORDS];
            checksum(
                turns,
                |i|
                    requires { F.IsAlwaysCallable call }
                { turn(&call, words, &mut lent, i) },
            )
        },
    )
}
