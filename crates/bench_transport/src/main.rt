// The calls on a transport, as the bench times them and compares their answers with the original's.
//
// The calls, each over 8,192 inputs that come round:
//
//     empty                 an input is read and put into the checksum: no call
//     advance               a transport goes on by some frames, tested first; the next turn has it
//     advanced              the same as a crate calls it that has tested its transport
//     frame_at_bar          the frame on which a bar starts, over maps whose every point is tested
//     places_frame_at_bar   the same frame without the tests
//     position_bars         the position in bars, of a transport that is sent to a frame before
//
// The transport has a rate of 48,000, a tempo of 120 and four beats in a bar, and its length is the
// greatest. That of the first two calls plays in a loop of some two seconds and has a pickup, and
// goes on by up to 4,096 frames at a time; that of the others has neither.
//
// The size of the others is the number of meter points; there are four tempo points for each. The
// maps are those of bench_meter and bench_tempo, and so are the bars that are asked. The frames are
// spread over the same stretch: a meter point's four bars last some 17 beats, and a beat some
// 24,000 frames.
//
// Rows that nobody asked by name make fewer turns, the larger the maps, and never a multiple of 64:
// after 64 turns the checksum has turned round, and answers that are spread evenly would cancel
// out.
#![tactic(auto)]

ghost use Rattle.std.specs.Prelude.{◌≡◌, ◌≤◌, true, length};
ghost use Rattle.transport.specs.Transports.{sound};

use beats::Beat;
use benching::{INPUTS, checksum, input_of, maps, mixed, refusal_word};
use std::env::Env;
use std::io;
use tempo::TempoMap;
use timeline::places;
use transport::{LoopRange, Moves, PlayState, Transport, change, playhead};

// The turns of a row over a transport alone.
const FEW: u64 = 5000;

// A transport that plays from frame 0.
fn clock(looping: Option<LoopRange>, pickup: Option<Beat>) -> Transport {
    Transport {
        sample_rate: 48000,
        bpm: 120.0f32,
        beats_per_bar: 4,
        length: u64::MAX,
        position: 0,
        state: PlayState::Playing,
        looping,
        pickup,
    }
}

// A position, with what the advance did in the highest bits.
fn moved_word(position: u64, moves: Moves) -> u64 {
    position ^ u64::from(moves.wrapped) << 63 ^ u64::from(moves.finished) << 62
}

// The checksum of a sound transport's advances.
// Stays: `checksum` asks a closure that may always be called, and this call asks a sound transport,
// which the loop's invariant keeps.
fn advanced(from: Transport, questions: &[u32; INPUTS], turns: u64) -> u64
    requires { sound from ≡ true }
{
    let mut t = from;
    let mut sum = 0;
    for i in 0..turns {
        let frames = u64::from(questions[input_of(i)]);
        let run = playhead::advanced(t, frames);
        t = run.transport;
        sum = mixed(sum, moved_word(t.position, run.moves));
    }
    sum
}

// The rows over a transport alone.
fn clock_rows<R: Env + Print>(rt: &R) -> io::Result<()> {
    let mut questions = [0u32; INPUTS];
    maps::fill_spread(&mut questions, 4096);
    let range = LoopRange {
        start: 1000,
        end: 97000,
    };
    let from = clock(Some(range), Some(Beat { num: 1, den: 1 }));
    benching::row(
        rt,
        "empty",
        "any",
        FEW,
        |turns| checksum(turns, |i| u64::from(questions[input_of(i)])),
    )?;
    benching::row(rt, "advance", "loop", FEW, |turns| {
        let mut t = from;
        checksum(turns, |i| {
            let handed = t.advance(u64::from(questions[input_of(i)]));
            t = handed.transport;
            match handed.answer {
                Ok(moves) => moved_word(t.position, moves),
                Err(why) => refusal_word(why),
            }
        })
    })?;
    benching::row(rt, "advanced", "loop", FEW, |turns| {
        if from.is_sound() {
            advanced(from, &questions, turns)
        } else {
            12
        }
    })
}

// The maps of all rows, at their longest.
#[derive(Clone, Copy)]
struct Maps<'a> {
    words: &'a [u32],
    nums: &'a [i64],
    dens: &'a [u32],
    tempos: &'a [u32],
    ghost words_long: { length words.now ≡ 12288 },
    ghost nums_long: { length nums.now ≡ 1024 },
    ghost dens_long: { length dens.now ≡ 1024 },
    ghost tempos_long: { length tempos.now ≡ 1024 },
}

impl<'a> Maps<'a> {
    // The first points of the meter map.
    fn meter(&self, points: usize) -> &'a [u32]
        requires { points ≤ 256 }
    {
        let words = self.words;
        &words[..3 * points]
    }

    // The tempo map of four points for each.
    fn tempo(&self, points: usize) -> TempoMap<'a>
        requires { points ≤ 256 }
    {
        let nums = self.nums;
        let dens = self.dens;
        let tempos = self.tempos;
        TempoMap {
            nums: &nums[..4 * points],
            dens: &dens[..4 * points],
            tempos: &tempos[..4 * points],
        }
    }
}

// A row of questions spread over `span`: `word` makes the call and a word of its answer.
fn row<R: Env + Print, F: Fn(u32) -> u64>(
    rt: &R,
    call: &str,
    size: &str,
    span: u64,
    few: u64,
    word: F,
) -> io::Result<()>
    requires { F.IsAlwaysCallable word }
{
    // the questions of a row that is not asked are not made
    benching::row(rt, call, size, few, |turns| {
        let mut questions = [0u32; INPUTS];
        maps::fill_spread(&mut questions, span);
        checksum(turns, |i| word(questions[input_of(i)]))
    })
}

// How many bars the questions are spread over.
fn bars(points: usize) -> u64
    requires { points ≤ 256 }
{
    points as u64 * 4 + 8
}

fn frame_row<R: Env + Print>(
    rt: &R,
    maps: &Maps,
    size: &str,
    points: usize,
    few: u64,
) -> io::Result<()>
    requires { points ≤ 256 }
{
    let t = clock(None, None);
    let words = maps.meter(points);
    let tempo = maps.tempo(points);
    row(rt, "frame_at_bar", size, bars(points), few, |bar| {
        match timeline::frame_at_bar(t, bar, words, tempo.nums, tempo.dens, tempo.tempos) {
            Ok(frame) => frame,
            Err(why) => refusal_word(why),
        }
    })
}

fn places_row<R: Env + Print>(
    rt: &R,
    maps: &Maps,
    size: &str,
    points: usize,
    few: u64,
) -> io::Result<()>
    requires { points ≤ 256 }
{
    let t = clock(None, None);
    let words = maps.meter(points);
    let tempo = maps.tempo(points);
    row(
        rt,
        "places_frame_at_bar",
        size,
        bars(points),
        few,
        |bar| places::frame_at_bar(t, bar, words, &tempo),
    )
}

fn position_row<R: Env + Print>(
    rt: &R,
    maps: &Maps,
    size: &str,
    points: usize,
    few: u64,
) -> io::Result<()>
    requires { points ≤ 256 }
{
    let t = clock(None, None);
    let words = maps.meter(points);
    let tempo = maps.tempo(points);
    let frames = (points as u64 * 17 + 34) * 24000;
    row(rt, "position_bars", size, frames, few, |frame| {
        let at = change::sought(t, u64::from(frame));
        match timeline::position_bars(at, words, tempo.nums, tempo.dens, tempo.tempos) {
            Ok(x) => rounding::f64_word(x),
            Err(why) => refusal_word(why),
        }
    })
}

fn main(rt: HostRuntime) -> io::Result<()> {
    let maps = Maps {
        words: &maps::meter_words(),
        nums: &maps::tempo_nums(),
        dens: &maps::tempo_dens(),
        tempos: &maps::tempo_bits(),
    };
    clock_rows(&rt)?;
    frame_row(&rt, &maps, "0", 0, 5000)?;
    frame_row(&rt, &maps, "128", 128, 1000)?;
    frame_row(&rt, &maps, "256", 256, 1000)?;
    places_row(&rt, &maps, "0", 0, 5000)?;
    places_row(&rt, &maps, "128", 128, 1000)?;
    places_row(&rt, &maps, "256", 256, 1000)?;
    position_row(&rt, &maps, "0", 0, 5000)?;
    position_row(&rt, &maps, "128", 128, 200)?;
    position_row(&rt, &maps, "256", 256, 50)
}
