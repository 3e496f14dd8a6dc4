// The line filler, as the bench times it. The original has none: the other side asks its transport
// for the frame of each bar.
//
//     empty       the number of a turn is put into the checksum: no call
//     fill-256    a list of lines is filled, over maps of 64 meter points and 256 tempo points
//     fill-1024   the same over maps of 256 meter points and 1,024 tempo points
//
// The size is the number of lines. The transport has a rate of 48,000, a tempo of 120, four beats
// in a bar and no pickup, and its length is the greatest; the maps are those of bench_meter and
// bench_tempo. A turn puts every line into the checksum, which is part of what it costs.
//
// Rows that nobody asked by name make few turns, and none where one turn of the original takes
// seconds: a run that times them compares the answer to one turn.
#![tactic(auto)]

mod rows;

ghost use Rattle.std.specs.Prelude.{◌≡◌, ◌≤◌, length};

use benching::maps;
use rows::Maps;
use std::env::Env;
use std::io;
use transport::{PlayState, Transport};

// The most lines of a row.
const LINES: usize = 65536;

// The turns of a row without maps.
const FEW: u64 = 5000;

// A transport that plays from frame 0.
fn clock() -> Transport {
    Transport {
        sample_rate: 48000,
        bpm: 120.0f32,
        beats_per_bar: 4,
        length: u64::MAX,
        position: 0,
        state: PlayState::Playing,
        looping: None,
        pickup: None,
    }
}

// Runs a row over maps for so many lines, if it is asked, and writes its line.
fn show<R: Env + Print>(
    rt: &R,
    call: &str,
    size: &str,
    maps: Maps,
    n: usize,
    few: u64,
) -> io::Result<()>
    requires { n ≤ 65536 }
{
    benching::row(rt, call, size, few, |turns| {
        let mut lines = [0u64; LINES];
        rows::fill(clock(), maps, &mut lines[0..n], turns)
    })
}

fn all<R: Env + Print>(
    rt: &R,
    words: &[u32],
    nums: &[i64],
    dens: &[u32],
    tempos: &[u32],
) -> io::Result<()>
    requires words_len { length words.now ≡ 12288 }
    requires nums_len { length nums.now ≡ 1024 }
    requires dens_len { length dens.now ≡ 1024 }
    requires tempos_len { length tempos.now ≡ 1024 }
{
    benching::row(rt, "empty", "any", FEW, |turns| {
        benching::checksum(turns, |i| i % 8192)
    })?;
    let small = Maps {
        words: &words[0..192],
        nums: &nums[0..256],
        dens: &dens[0..256],
        tempos: &tempos[0..256],
    };
    show(rt, "fill-256", "8", small, 8, 1000)?;
    show(rt, "fill-256", "4096", small, 4096, 5)?;
    show(rt, "fill-256", "32768", small, 32768, 1)?;
    show(rt, "fill-256", "65536", small, 65536, 1)?;
    let large = Maps {
        words: &words[0..768],
        nums,
        dens,
        tempos,
    };
    show(rt, "fill-1024", "8", large, 8, 1000)?;
    show(rt, "fill-1024", "4096", large, 4096, 1)?;
    show(rt, "fill-1024", "32768", large, 32768, 0)?;
    show(rt, "fill-1024", "65536", large, 65536, 0)
}

fn main(rt: HostRuntime) -> io::Result<()> {
    let words = maps::meter_words();
    let nums = maps::tempo_nums();
    let dens = maps::tempo_dens();
    let tempos = maps::tempo_bits();
    all(&rt, &words, &nums, &dens, &tempos)
}
