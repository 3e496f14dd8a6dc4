// The calls on tempo maps, as the bench times them and compares their answers with the original's.
//
// The calls, each over 8,192 inputs that come round:
//
//     empty              an input is read and put into the checksum: no call
//     seconds_at         the seconds at a beat, over a map whose every point is tested first
//     bpm_at             the tempo at a beat, likewise
//     beat_at_seconds    the beat at a second, likewise
//     walks_seconds_at   the same seconds as a crate calls them that has tested its map
//
// The size is the number of points in the map. Point k begins at beat 4 * k; tempos lie from 64 to
// 256, with a fraction. The beats that are asked are spread from the first to a little behind the
// last point, with a fraction. So are the seconds: a beat lasts some half a second.
#![tactic(auto)]

ghost use Rattle.std.specs.Prelude.{◌≡◌, ◌<◌, ◌≤◌, length};

use benching::{INPUTS, checksum, input_of, maps, refusal_word};
use rounding::f64_word;
use std::env::Env;
use std::io;
use tempo::TempoMap;

// The turns of a row that nobody asked by name: no multiple of 64, after which the checksum has
// turned round and answers that are spread evenly would cancel out.
const FEW: u64 = 5000;

// Numbers below `span`, spread over it.
fn spread(span: u32) -> [f64; INPUTS] {
    let mut questions = [0f64; INPUTS];
    for (k, question) in questions.iter_mut().enumerate() {
        *question = f64::from(benching::place(k)) * f64::from(span) / 8192.0;
    }
    questions
}

// A row of questions spread over `span`: `word` makes the call and a word of its answer.
fn row<R: Env + Print, F: Fn(f64) -> u64>(
    rt: &R,
    call: &str,
    size: &str,
    span: u32,
    word: F,
) -> io::Result<()>
    requires { F.IsAlwaysCallable word }
{
    // the questions of a row that is not asked are not made
    benching::row(rt, call, size, FEW, |turns| {
        let questions = spread(span);
        checksum(turns, |i| word(questions[input_of(i)]))
    })
}

// The first points of a map.
fn front<'a>(map: &TempoMap<'a>, points: usize) -> TempoMap<'a>
    requires { points ≤ length map.now.nums.now }
    ensures { length result.nums.now ≡ points }
{
    TempoMap {
        nums: &map.nums[..points],
        dens: &map.dens[..points],
        tempos: &map.tempos[..points],
    }
}

// The row of a call over a map.
fn over<R: Env + Print, F: Fn(&TempoMap, f64) -> u64>(
    rt: &R,
    call: &str,
    size: &str,
    map: TempoMap,
    span: u32,
    word: &F,
) -> io::Result<()>
    requires { F.IsAlwaysCallable word.now }
{
    row(rt, call, size, span, |x| word(&map, x))
}

// The rows of a call, for each size. The questions are spread over `stretch` a point.
fn sizes<R: Env + Print, F: Fn(&TempoMap, f64) -> u64>(
    rt: &R,
    call: &str,
    map: &TempoMap,
    stretch: u32,
    word: F,
) -> io::Result<()>
    requires points { length map.now.nums.now ≡ 1024 }
    requires few { stretch ≤ 4 }
    requires callable { F.IsAlwaysCallable word }
{
    over(rt, call, "1", front(map, 1), 3 * stretch, &word)?;
    over(rt, call, "64", front(map, 64), 66 * stretch, &word)?;
    over(rt, call, "512", front(map, 512), 514 * stretch, &word)?;
    over(rt, call, "1024", *map, 1026 * stretch, &word)
}

// The row of the walk that a crate calls which has tested its map.
fn walk(rt: &(impl Env + Print), size: &str, map: TempoMap, span: u32) -> io::Result<()>
    requires { 0 < length map.nums.now }
{
    row(
        rt,
        "walks_seconds_at",
        size,
        span,
        |x| f64_word(map.seconds_at(x)),
    )
}

fn seconds_at(map: &TempoMap, beat: f64) -> u64 {
    tempo::tempo_map_seconds_at(map.nums, map.dens, map.tempos, beat).map_or_else(
        refusal_word,
        f64_word,
    )
}

fn bpm_at(map: &TempoMap, beat: f64) -> u64 {
    tempo::tempo_map_bpm_at(map.nums, map.dens, map.tempos, beat).map_or_else(
        refusal_word,
        f64_word,
    )
}

fn beat_at_seconds(map: &TempoMap, seconds: f64) -> u64 {
    tempo::tempo_map_beat_at_seconds(map.nums, map.dens, map.tempos, seconds).map_or_else(
        refusal_word,
        f64_word,
    )
}

fn main(rt: HostRuntime) -> io::Result<()> {
    let nums = maps::tempo_nums();
    let dens = maps::tempo_dens();
    let tempos = maps::tempo_bits();
    let map = TempoMap {
        nums: &nums,
        dens: &dens,
        tempos: &tempos,
    };
    row(&rt, "empty", "any", 4104, f64_word)?;
    sizes(&rt, "seconds_at", &map, 4, seconds_at)?;
    sizes(&rt, "bpm_at", &map, 4, bpm_at)?;
    sizes(&rt, "beat_at_seconds", &map, 2, beat_at_seconds)?;
    walk(&rt, "1", front(&map, 1), 12)?;
    walk(&rt, "64", front(&map, 64), 264)?;
    walk(&rt, "512", front(&map, 512), 2056)?;
    walk(&rt, "1024", map, 4104)
}
