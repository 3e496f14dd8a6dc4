// What the programs of the bench share: which row is asked, numbers that the Rust side makes alike,
// and the checksum by which the answers of both sides are compared.
//
// `PROGRAM CALL SIZE TURNS` runs one row and writes `CALL SIZE CHECKSUM`. With no arguments a
// program runs each of its rows a few turns: that is its list of rows, and what a check compares.
#![tactic(auto)]

ghost use Rattle.std.specs.Prelude.{◌≡◌, ◌+◌, ◌%◌};
ghost use Rattle.numbers.specs.Refusals.{number_of};
ghost use Rattle.benching.specs.Sums.{Summed};
ghost use Rattle.benching.specs.Words.{next_of, mixed_of, place_of, fraction_word};

use numbers::Refusal;
use std::env::Env;
use std::io;

pub mod maps;

// How many inputs a program makes before it starts. A processor learns the branches of 1,024 inputs
// that come round by heart, and then a call costs half of what it does on inputs that are new to
// it. These are too many for that, and few enough to stay in the cache.
pub const INPUTS: usize = 8192;

// The turns of a row that nobody asked by name: each input twice.
pub const FEW: u64 = 16384;

// The bytes of the longest argument that is looked at: a longer one counts as empty.
const LONGEST: usize = 4096;

// Where a sequence of numbers starts: any number but 0.
pub const START: u64 = 0x2545_f491_4f6c_dd1d;

// The number after x in a sequence that looks random, and that never reaches 0 from another. It
// has shifts alone, since a product would have to wrap.
pub fn next(x: u64) -> u64
    ensures { result ≡ next_of x }
{
    let a = x ^ x << 13;
    let b = a ^ a >> 7;
    b ^ b << 17
}

// The checksum of the answers so far and of one more. The sum is turned first, so that two answers
// that change places change it.
pub fn mixed(sum: u64, answer: u64) -> u64
    ensures { result ≡ mixed_of sum answer }
{
    sum.rotate_left(5).wrapping_add(answer)
}

// The index of the input that turn i reads: the inputs come round.
pub fn input_of(i: u64) -> usize
    ensures { result ≡ i % 8192 }
{
    (i % 8192) as usize
}

// The index of the input after that.
pub fn input_after(i: u64) -> usize
    ensures { result ≡ (i + 1) % 8192 }
{
    ((i % 8192 + 1) % 8192) as usize
}

// Where input k lies, of 8,192 places in a row. The first lies in the middle, and each next one a
// golden section further, round and round. So the first seven are spread as all of them are, and a
// call that is too slow for more turns costs about as much a turn as it would over all.
pub fn place(k: usize) -> u32
    ensures { result ≡ place_of k }
{
    ((4096 + 5063 * (k % 8192)) % 8192) as u32
}

// A fraction as one word: the numerator's size, its sign in the highest bit, and the denominator in
// the upper half.
pub fn fraction_word(num: i64, den: u32) -> u64
    ensures { result ≡ fraction_word num den }
{
    num.unsigned_abs() ^ u64::from(num < 0) << 63 ^ u64::from(den) << 32
}

// The checksum of the answers of so many turns.
pub fn checksum<F: FnMut(u64) -> u64>(turns: u64, mut answer: F) -> u64
    requires { F.IsAlwaysCallable answer }
    ensures { (last : F) × Summed F.step answer turns result last }
{
    let mut sum = 0;
    for i in 0..turns {
        sum = mixed(sum, answer(i));
    }
    sum
}

// The number that the digits of s say, or the largest there is.
// Stays: `parse` refuses a word that is no number, and a row takes the low bits of its bytes for digits.
fn number(s: &[u8]) -> u64 {
    s.iter().fold(
        0u64,
        |n, b| n.saturating_mul(10).saturating_add(u64::from(b & 15)),
    )
}

// Whether argument i is this word.
fn is_argument(rt: &impl Env, i: usize, word: &[u8]) -> bool {
    let mut buf = [0u8; LONGEST];
    intake::argument(rt, i, &mut buf).unwrap_or(&[]) == word
}

// Whether this row is to be run.
pub fn asked(rt: &impl Env, call: &[u8], size: &[u8]) -> bool {
    !intake::has_argument(rt, 2) || (is_argument(rt, 1, call) && is_argument(rt, 2, size))
}

// How often a row is to make its call: `few` times where nobody asked it by name.
pub fn turns_or(rt: &impl Env, few: u64) -> u64 {
    if !intake::has_argument(rt, 3) {
        return few;
    }
    let mut buf = [0u8; LONGEST];
    number(intake::argument(rt, 3, &mut buf).unwrap_or(&[]))
}

// Runs a row, if it is asked, and writes its line: `sum` makes so many turns, and gives the checksum of
// their answers. Where nobody asked a row by name there are `few` turns, fewer than others have where a
// call of the original's is slow.
pub fn row<R: Env + Print, F: FnOnce(u64) -> u64>(
    rt: &R,
    call: &str,
    size: &str,
    few: u64,
    sum: F,
) -> io::Result<()>
    requires { F.IsAlwaysCallable sum }
{
    if asked(rt, call.as_bytes(), size.as_bytes()) {
        let sum = sum(turns_or(rt, few));
        println!(rt; "{call} {size} {sum:016x}")?;
    }
    Ok(())
}

pub fn turns(rt: &impl Env) -> u64 {
    turns_or(rt, FEW)
}

// Writes the line of a row.
pub fn line(rt: &impl Print, call: &[u8], size: &[u8], sum: u64) -> io::Result<()> {
    rt.write_all(call)?;
    rt.write_all(b" ")?;
    rt.write_all(size)?;
    println!(rt; " {sum:016x}")
}

// The word of a refusal: its number in document 01.
pub fn refusal_word(why: Refusal) -> u64
    ensures { result ≡ number_of why }
{
    u64::from(u32::from(why))
}
