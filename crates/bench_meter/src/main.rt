// The calls on bars, as the bench times them and compares their answers with the original's.
//
// The calls, each over 8,192 inputs that come round:
//
//     empty               an input is read and put into the checksum: no call
//     beat_at_bar         the beat at which a bar starts
//     bar_count_at_beat   the bars that have gone by at a beat
//
// The size is the number of points in the map. Point k begins at bar 4 * k, with a numerator from 1
// to 8 and a denominator of 2, 4, 8 or 16; where there is no point the meter is 4/4, and no map has
// a pickup. The bars that are asked are spread from the first to a little behind the last point.
// The beats that are asked are whole, and spread over the same stretch: a point's four bars last
// some 17 beats.
//
// The original looks for each next point in its whole map, so a start costs it points times points.
// Rows that nobody asked by name make fewer turns, the larger the map. No number of turns is a
// multiple of 64: after 64 turns the checksum has turned round, and answers that are spread evenly
// would cancel out.
#![tactic(auto)]

ghost use Rattle.std.specs.Prelude.{◌≡◌, ◌*◌, ◌≤◌, length};

use beats::Beat;
use benching::{INPUTS, checksum, input_of, maps, refusal_word};
use std::env::Env;
use std::io;

// The numerator where no point is in force; the denominator is 4 there.
const DEFAULT: u32 = 4;

fn beat_word(b: Beat) -> u64 {
    benching::fraction_word(b.num, b.den)
}

// A row of questions spread over `span`: `word` makes the call and a word of its answer.
fn row<R: Env + Print, F: Fn(u32) -> u64>(
    rt: &R,
    call: &str,
    size: &str,
    span: u64,
    few: u64,
    word: F,
) -> io::Result<()>
    requires { F.IsAlwaysCallable word }
{
    // the questions of a row that is not asked are not made
    benching::row(rt, call, size, few, |turns| {
        let mut questions = [0u32; INPUTS];
        maps::fill_spread(&mut questions, span);
        checksum(turns, |i| word(questions[input_of(i)]))
    })
}

// The row of the beat at which a bar starts, over the first points of the map.
fn start(rt: &(impl Env + Print), size: &str, map: &[u32], points: u32, few: u64) -> io::Result<()>
    requires { 3 * points ≤ length map.now }
{
    let words = &map[..3 * points as usize];
    row(
        rt,
        "beat_at_bar",
        size,
        u64::from(points) * 4 + 8,
        few,
        |bar| {
            meter::beat_at_bar(words, DEFAULT, None, bar).map_or_else(refusal_word, beat_word)
        },
    )
}

// The row of the bars that have gone by at a beat, likewise.
fn count(rt: &(impl Env + Print), size: &str, map: &[u32], points: u32, few: u64) -> io::Result<()>
    requires { 3 * points ≤ length map.now }
{
    let words = &map[..3 * points as usize];
    row(
        rt,
        "bar_count_at_beat",
        size,
        u64::from(points) * 17 + 34,
        few,
        |beat| {
            let beat = Beat::from_int(i64::from(beat));
            meter::bar_count_at_beat(words, DEFAULT, None, beat).map_or_else(
                refusal_word,
                u64::from,
            )
        },
    )
}

fn main(rt: HostRuntime) -> io::Result<()> {
    let map = maps::meter_words();
    row(&rt, "empty", "any", 16392, 5000, u64::from)?;
    start(&rt, "0", &map, 0, 5000)?;
    start(&rt, "16", &map, 16, 5000)?;
    start(&rt, "128", &map, 128, 1000)?;
    start(&rt, "256", &map, 256, 1000)?;
    start(&rt, "2048", &map, 2048, 10)?;
    start(&rt, "4096", &map, 4096, 5)?;
    count(&rt, "0", &map, 0, 5000)?;
    count(&rt, "16", &map, 16, 5000)?;
    count(&rt, "128", &map, 128, 200)?;
    count(&rt, "256", &map, 256, 50)?;
    count(&rt, "2048", &map, 2048, 1)?;
    count(&rt, "4096", &map, 4096, 1)
}
