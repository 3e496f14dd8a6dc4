// What firmware links: the calls of `stand`, for C and Rust. The C faces are in
// include/pulleybale.h: a slice is a pointer and a length there, and a clock its eleven words.
// Stays: each is the twin of `stand`'s, for the C interface: an exported name has a function of its own.
#![tactic(auto)]

ghost use Rattle.std.specs.Prelude.{◌≡◌};
ghost use Rattle.numbers.specs.Answers.{number, given};
ghost use Rattle.stand.specs.Calls.{counted, started, framed, filled, lines_after, advanced_by, cued, cues_after};
ghost use Rattle.stand.specs.Words.{moves_flags, said_flags, said_count, clock_after};

use clock_words::WORDS;

// How many bars have gone by at a beat.
#[unsafe(no_mangle)]
pub extern "C" fn pulleybale_count(
    meter: &[u32],
    beats: u32,
    pickup_num: i64,
    pickup_den: u32,
    num: i64,
    den: u32,
    bars: &mut u32,
) -> u32
    ensures value { result ≡ number (counted meter.now beats pickup_num pickup_den (record { num = num; den = den })) }
    ensures bars_after { bars.new ≡ given (λ n. n) (counted meter.now beats pickup_num pickup_den (record { num = num; den = den })) bars.old }
{
    stand::pulleybale_count(meter, beats, pickup_num, pickup_den, num, den, bars)
}

// The beat at which a bar starts.
#[unsafe(no_mangle)]
pub extern "C" fn pulleybale_start(
    meter: &[u32],
    beats: u32,
    pickup_num: i64,
    pickup_den: u32,
    bar: u32,
    num: &mut i64,
    den: &mut u32,
) -> u32
    ensures value { result ≡ number (started meter.now beats pickup_num pickup_den bar) }
    ensures num_after { num.new ≡ given (λ beat. beat.num) (started meter.now beats pickup_num pickup_den bar) num.old }
    ensures den_after { den.new ≡ given (λ beat. beat.den) (started meter.now beats pickup_num pickup_den bar) den.old }
{
    stand::pulleybale_start(meter, beats, pickup_num, pickup_den, bar, num, den)
}

// The frame on which a bar starts.
#[unsafe(no_mangle)]
pub extern "C" fn pulleybale_frame(
    clock: &[u64; WORDS],
    meter: &[u32],
    nums: &[i64],
    dens: &[u32],
    tempos: &[u32],
    bar: u32,
    frame: &mut u64,
) -> u32
    ensures value { result ≡ number (framed clock.now meter.now nums.now dens.now tempos.now bar) }
    ensures frame_after { frame.new ≡ given (λ x. x) (framed clock.now meter.now nums.now dens.now tempos.now bar) frame.old }
{
    stand::pulleybale_frame(clock, meter, nums, dens, tempos, bar, frame)
}

// The frames of the bars from 0 on, as many as there are lines.
#[unsafe(no_mangle)]
pub extern "C" fn pulleybale_fill_lines(
    clock: &[u64; WORDS],
    meter: &[u32],
    nums: &[i64],
    dens: &[u32],
    tempos: &[u32],
    lines: &mut [u64],
) -> u32
    ensures value { result ≡ number (filled clock.now meter.now nums.now dens.now tempos.now lines.old) }
    ensures lines_after { lines.new ≡ lines_after clock.now meter.now nums.now dens.now tempos.now lines.old }
{
    stand::pulleybale_fill_lines(clock, meter, nums, dens, tempos, lines)
}

// Let so many frames go by.
#[unsafe(no_mangle)]
pub extern "C" fn pulleybale_advance(clock: &mut [u64; WORDS], frames: u64, report: &mut u32) -> u32
    ensures value { result ≡ number (advanced_by clock.old frames).answer }
    ensures clock_after { clock.new ≡ clock_after clock.old (advanced_by clock.old frames) }
    ensures report_after { report.new ≡ given moves_flags (advanced_by clock.old frames).answer report.old }
{
    stand::pulleybale_advance(clock, frames, report)
}

// The same, with the cues: the time and the place of each bar line that sounds.
#[unsafe(no_mangle)]
pub extern "C" fn pulleybale_cues(
    clock: &mut [u64; WORDS],
    lines: &[u64],
    frames: u64,
    cues: &mut [u64],
    count: &mut u64,
    report: &mut u32,
) -> u32
    ensures value { result ≡ number (cued clock.old lines.now frames cues.old).answer }
    ensures clock_after { clock.new ≡ clock_after clock.old (cued clock.old lines.now frames cues.old) }
    ensures cues_after { cues.new ≡ cues_after clock.old lines.now frames cues.old }
    ensures count_after { count.new ≡ given said_count (cued clock.old lines.now frames cues.old).answer count.old }
    ensures report_after { report.new ≡ given said_flags (cued clock.old lines.now frames cues.old).answer report.old }
{
    stand::pulleybale_cues(clock, lines, frames, cues, count, report)
}
