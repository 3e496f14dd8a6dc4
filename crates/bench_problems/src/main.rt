// The calls on the problems of maps, as the bench times them and compares their answers with the
// original's.
//
//     empty         the place that a turn looks at is put into the checksum: no call
//     meter-sound   a meter map without problems, given as flat words
//     meter-wrong   one whose every point has all problems of a point: bar 0, meter 0/0
//     tempo-sound   a tempo map without problems
//     tempo-wrong   one whose every point has all problems of a point: beat 0, tempo -120
//
// The size is the number of points in the map. The sound maps are those of bench_meter and
// bench_tempo. The first point of a wrong map may be at 0 and has a problem less: n meter points
// have 3 * n - 1 records, and n tempo points 2 * n - 1.
//
// Every turn asks the same. It puts into the checksum the count of the problems, the place of its
// input, of 8,192 that come round, and the word of the records at that place, if there is one. So a
// sound map has the checksum of the empty row.
#![tactic(auto)]

ghost use Rattle.std.specs.Prelude.{◌≡◌, ◌*◌, ◌≤◌, length};

use benching::maps::{METER_WORDS, TEMPO_POINTS};
use benching::{INPUTS, input_of, maps, mixed, place};
use numbers::Refusal;
use std::env::Env;
use std::io;
use tempo::TempoMap;

// The turns of a row that nobody asked by name: no multiple of 64, after which the checksum has
// turned round and answers that are spread evenly would cancel out.
const FEW: u64 = 1000;

// The word at an index of so many records, or 0 behind them.
fn written(lent: &[u32], count: u32, at: usize) -> u32 {
    if at / 3 >= count as usize {
        return 0;
    }
    lent.get(at).copied().unwrap_or(0)
}

// The count of the problems and a word of their records. A refusal counts as its number in
// document 01.
fn word(answer: Result<u32, Refusal>, lent: &[u32], at: usize) -> u64 {
    match answer {
        Ok(count) => u64::from(count) << 48 ^ u64::from(written(lent, count, at)) << 16,
        Err(why) => benching::refusal_word(why),
    }
}

// One turn: the count and a word of the records, and the place that the turn looks at.
fn turn<F: Fn(&mut [u32]) -> Result<u32, Refusal>>(call: &F, lent: &mut [u32], i: u64) -> u64
    requires { F.IsAlwaysCallable call.now }
{
    let at = place(input_of(i));
    let answer = call(&mut *lent);
    word(answer, lent, at as usize) ^ u64::from(at)
}

// The checksum of so many turns.
// Stays: tried by `benching::checksum`, and `checksum-requires` stayed open: its closure would lend `lent` and
// call `call` at once.
fn sum_of<F: Fn(&mut [u32]) -> Result<u32, Refusal>>(call: &F, turns: u64) -> u64
    requires { F.IsAlwaysCallable call.now }
{
    let mut lent = [0u32; INPUTS];
    let mut sum = 0;
    for i in 0..turns {
        sum = mixed(sum, turn(call, &mut lent, i));
    }
    sum
}

// A row: `call` lists the problems. Each turn's answer goes into the checksum with a word of its records,
// so that no call can be left out, and with the place that it looks at, so that it tells how many turns
// were made where no map has a problem.
fn row<R: Env + Print, F: Fn(&mut [u32]) -> Result<u32, Refusal>>(
    rt: &R,
    name: &str,
    size: &str,
    call: F,
) -> io::Result<()>
    requires { F.IsAlwaysCallable call }
{
    benching::row(rt, name, size, FEW, |turns| sum_of(&call, turns))
}

// The row of the first points of a meter map.
fn meter_row(
    rt: &(impl Env + Print),
    name: &str,
    size: &str,
    words: &[u32],
    points: usize,
) -> io::Result<()>
    requires { 3 * points ≤ length words.now }
{
    let words = &words[..3 * points];
    row(rt, name, size, |out| points::flat_problems(words, out))
}

// The rows of a meter map, for each size.
fn meter_rows(rt: &(impl Env + Print), name: &str, words: &[u32]) -> io::Result<()>
    requires { length words.now ≡ 12288 }
{
    meter_row(rt, name, "16", words, 16)?;
    meter_row(rt, name, "128", words, 128)?;
    meter_row(rt, name, "256", words, 256)
}

// The row of the first points of a tempo map.
fn tempo_row(
    rt: &(impl Env + Print),
    name: &str,
    size: &str,
    map: &TempoMap,
    points: usize,
) -> io::Result<()>
    requires { points ≤ length map.now.nums.now }
{
    let nums = &map.nums[..points];
    let dens = &map.dens[..points];
    let tempos = &map.tempos[..points];
    row(
        rt,
        name,
        size,
        |out| problems::tempo_map_problems(nums, dens, tempos, out),
    )
}

// The rows of a tempo map, for each size.
fn tempo_rows(rt: &(impl Env + Print), name: &str, map: &TempoMap) -> io::Result<()>
    requires { length map.now.nums.now ≡ 1024 }
{
    tempo_row(rt, name, "64", map, 64)?;
    tempo_row(rt, name, "512", map, 512)?;
    tempo_row(rt, name, "1024", map, 1024)
}

fn main(rt: HostRuntime) -> io::Result<()> {
    let dens = maps::tempo_dens();
    row(&rt, "empty", "any", |_| Ok(0))?;
    meter_rows(&rt, "meter-sound", &maps::meter_words())?;
    let nums = maps::tempo_nums();
    let tempos = maps::tempo_bits();
    let sound = TempoMap {
        nums: &nums,
        dens: &dens,
        tempos: &tempos,
    };
    tempo_rows(&rt, "tempo-sound", &sound)?;
    meter_rows(&rt, "meter-wrong", &[0u32; METER_WORDS])?;
    let wrong = TempoMap {
        nums: &[0i64; TEMPO_POINTS],
        dens: &dens,
        tempos: &[0xc2f0_0000u32; TEMPO_POINTS],
    };
    tempo_rows(&rt, "tempo-wrong", &wrong)
}
