// The calls on patterns, as the bench times them and compares their answers with the original's.
//
// The calls, each over 8,192 inputs that come round:
//
//     empty        no call
//     repeat       a quarter of the list four times
//     concat       half of the list, and the same behind it
//     layer-..     half of the list, and the same at once
//     slice        the notes that start in half of the bars
//     stretch      times 1 to 7, as thirds
//     rotate-..    by up to the pattern's length
//     reverse-..
//     quantize-..  to a grid of 1 to 16 steps
//     vel, gate    by a half to nearly 1
//     euclidean    as many pulses, over twice as many steps
//     tuplet       as many notes, over four times as many steps
//
// The size is the number of notes that are written; of slice it is the number that is looked
// through. A pattern has 512 bars of 16 steps. Calls that sort have a row for a list that ascends
// (sorted), that descends (reversed) and in no order (random); reverse itself turns an order round.
// The others have the random list.
//
// Rows that nobody asked by name make fewer turns, the larger the list, and never a multiple of 64:
// after 64 turns the checksum has turned round, and answers that are spread evenly would cancel
// out.
#![tactic(auto)]

mod inputs;
mod rows;

use inputs::{Order, WORDS};
use numbers::Refusal;
use pattern::Wrote;
use rows::{bars, count, factor, steps};
use std::env::Env;
use std::io;

// The rows of a call, for each size.
fn sizes<R: Env + Print, F: Fn(&[u32], u32, &mut [u32]) -> Result<Wrote, Refusal> + Copy>(
    rt: &R,
    name: &str,
    list: &[u32; WORDS],
    call: F,
) -> io::Result<()>
    requires { F.IsAlwaysCallable call }
{
    rows::show(rt, name, "16", &list[..64], 1000, call)?;
    rows::show(rt, name, "256", &list[..1024], 200, call)?;
    rows::show(rt, name, "4096", list, 30, call)
}

// The row of a call over half of a list.
fn half<R: Env + Print, F: Fn(&[u32], u32, &mut [u32]) -> Result<Wrote, Refusal>>(
    rt: &R,
    name: &str,
    list: &[u32; WORDS],
    call: F,
) -> io::Result<()>
    requires { F.IsAlwaysCallable call }
{
    rows::show(rt, name, "2048", &list[..8192], 30, call)
}

// The rows of a call that sorts, over lists in each order. For the last one size more shows how the
// cost grows.
fn sorts<R: Env + Print, F: Fn(&[u32], u32, &mut [u32]) -> Result<Wrote, Refusal> + Copy>(
    rt: &R,
    sorted: &str,
    reversed: &str,
    random: &str,
    call: F,
) -> io::Result<()>
    requires { F.IsAlwaysCallable call }
{
    sizes(rt, sorted, &inputs::notes(Order::Sorted), call)?;
    sizes(rt, reversed, &inputs::notes(Order::Reversed), call)?;
    let list = inputs::notes(Order::Random);
    sizes(rt, random, &list, call)?;
    half(rt, random, &list, call)
}

// The rows of the calls that do not sort.
fn copies<R: Env + Print>(rt: &R, list: &[u32; WORDS]) -> io::Result<()> {
    rows::show(
        rt,
        "empty",
        "any",
        list,
        5000,
        |_words, q, _out| rows::none(q),
    )?;
    sizes(rt, "repeat", list, |words, q, out| {
        pattern::repeat(bars(), &words[..words.len() / 4], q % 64, 4, out)
    })?;
    sizes(rt, "concat", list, |words, q, out| {
        let half = &words[..words.len() / 2];
        pattern::concat(bars(), half, bars(), half, q % 64, out)
    })?;
    sizes(rt, "slice", list, |words, q, out| {
        pattern::slice(bars(), words, q / 2, 4096, 16, out)
    })?;
    sizes(rt, "stretch", list, |words, q, out| {
        pattern::stretch(bars(), words, q % 7 * 3 + 3, 3, out)
    })?;
    sizes(rt, "vel", list, |words, q, out| {
        pattern::vel(bars(), words, factor(q), out)
    })?;
    sizes(rt, "gate", list, |words, q, out| {
        pattern::gate(bars(), words, factor(q), out)
    })?;
    sizes(rt, "euclidean", list, |words, q, out| {
        pattern::euclidean(count(words), steps(words, 2, q), 36, 1, 16, out)
    })?;
    sizes(rt, "tuplet", list, |words, q, out| {
        pattern::tuplet(count(words), steps(words, 4, q), 36, 1, out)
    })
}

fn main(rt: HostRuntime) -> io::Result<()> {
    copies(&rt, &inputs::notes(Order::Random))?;
    sorts(
        &rt,
        "layer-sorted",
        "layer-reversed",
        "layer-random",
        |words, _q, out| {
            let half = &words[..words.len() / 2];
            pattern::layer(bars(), half, bars(), half, out)
        },
    )?;
    sorts(
        &rt,
        "rotate-sorted",
        "rotate-reversed",
        "rotate-random",
        |words, q, out| { pattern::rotate(bars(), words, i64::from(q), 16, out) },
    )?;
    sorts(
        &rt,
        "reverse-sorted",
        "reverse-reversed",
        "reverse-random",
        |words, q, out| { pattern::reverse(bars(), words, q % 2 + 16, out) },
    )?;
    sorts(
        &rt,
        "quantize-sorted",
        "quantize-reversed",
        "quantize-random",
        |words, q, out| { pattern::quantize(bars(), words, q % 16 + 1, out) },
    )
}
