// The calls of a bar display over numbers and slices. Each answers 0, or the number of document 01
// by which it refuses, with no lent word changed. A clock is the eleven words of `clock_words`.
// `stand_c` exports them to C.
// Stays: the lists and what is written are parameters one by one, and the answer is a number: the C
// interface.
#![tactic(auto)]

ghost use Rattle.std.specs.Prelude.{◌≡◌};
ghost use Rattle.numbers.specs.Answers.{number, given};
ghost use Rattle.stand.specs.Calls.{counted, started, framed, filled, lines_after, advanced_by, cued, cues_after};
ghost use Rattle.stand.specs.Words.{flags, moves_flags, said_flags, said_count, clock_after};

use beats::Beat;
use clock_words::WORDS;

#[tactic(auto, unfolding(crate::specs::Words::flags))]
fn flags_of(wrapped: bool, finished: bool) -> u32
    ensures { result ≡ flags wrapped finished }
{
    u32::from(wrapped) + 2 * u32::from(finished)
}

// How many bars have gone by at a beat.
#[tactic(auto, unfolding(crate::specs::Calls::counted))]
pub fn pulleybale_count(
    meter: &[u32],
    beats: u32,
    pickup_num: i64,
    pickup_den: u32,
    num: i64,
    den: u32,
    bars: &mut u32,
) -> u32
    ensures value { result ≡ number (counted meter.now beats pickup_num pickup_den (record { num = num; den = den })) }
    ensures bars_after { bars.new ≡ given (λ n. n) (counted meter.now beats pickup_num pickup_den (record { num = num; den = den })) bars.old }
{
    let pickup = clock_words::pickup_of(pickup_num, pickup_den);
    match meter::bar_count_at_beat(meter, beats, pickup, Beat { num, den }) {
        Ok(n) => {
            *bars = n;
            0
        }
        Err(why) => u32::from(why),
    }
}

// The beat at which a bar starts.
#[tactic(auto, unfolding(crate::specs::Calls::started))]
pub fn pulleybale_start(
    meter: &[u32],
    beats: u32,
    pickup_num: i64,
    pickup_den: u32,
    bar: u32,
    num: &mut i64,
    den: &mut u32,
) -> u32
    ensures value { result ≡ number (started meter.now beats pickup_num pickup_den bar) }
    ensures num_after { num.new ≡ given (λ beat. beat.num) (started meter.now beats pickup_num pickup_den bar) num.old }
    ensures den_after { den.new ≡ given (λ beat. beat.den) (started meter.now beats pickup_num pickup_den bar) den.old }
{
    let pickup = clock_words::pickup_of(pickup_num, pickup_den);
    match meter::beat_at_bar(meter, beats, pickup, bar) {
        Ok(beat) => {
            *num = beat.num;
            *den = beat.den;
            0
        }
        Err(why) => u32::from(why),
    }
}

// The frame on which a bar starts.
#[tactic(auto, unfolding(crate::specs::Calls::framed))]
pub fn pulleybale_frame(
    clock: &[u64; WORDS],
    meter: &[u32],
    nums: &[i64],
    dens: &[u32],
    tempos: &[u32],
    bar: u32,
    frame: &mut u64,
) -> u32
    ensures value { result ≡ number (framed clock.now meter.now nums.now dens.now tempos.now bar) }
    ensures frame_after { frame.new ≡ given (λ x. x) (framed clock.now meter.now nums.now dens.now tempos.now bar) frame.old }
{
    let t = clock_words::clock_of(clock);
    match timeline::frame_at_bar(t, bar, meter, nums, dens, tempos) {
        Ok(x) => {
            *frame = x;
            0
        }
        Err(why) => u32::from(why),
    }
}

// The frames of the bars from 0 on, as many as there are lines.
#[tactic(auto, unfolding(crate::specs::Calls::filled, crate::specs::Calls::lines_after))]
pub fn pulleybale_fill_lines(
    clock: &[u64; WORDS],
    meter: &[u32],
    nums: &[i64],
    dens: &[u32],
    tempos: &[u32],
    lines: &mut [u64],
) -> u32
    ensures value { result ≡ number (filled clock.now meter.now nums.now dens.now tempos.now lines.old) }
    ensures lines_after { lines.new ≡ lines_after clock.now meter.now nums.now dens.now tempos.now lines.old }
{
    let t = clock_words::clock_of(clock);
    match filler::fill_lines(t, meter, nums, dens, tempos, lines) {
        Ok(()) => 0,
        Err(why) => u32::from(why),
    }
}

// Let so many frames go by.
#[tactic(auto, unfolding(crate::specs::Calls::advanced_by))]
pub fn pulleybale_advance(clock: &mut [u64; WORDS], frames: u64, report: &mut u32) -> u32
    ensures value { result ≡ number (advanced_by clock.old frames).answer }
    ensures clock_after { clock.new ≡ clock_after clock.old (advanced_by clock.old frames) }
    ensures report_after { report.new ≡ given moves_flags (advanced_by clock.old frames).answer report.old }
{
    let moved = clock_words::clock_of(clock).advance(frames);
    match moved.answer {
        Ok(moves) => {
            clock_words::place(clock, moved.transport);
            *report = flags_of(moves.wrapped, moves.finished);
            0
        }
        Err(why) => u32::from(why),
    }
}

// The same, with the cues: the time and the place of each bar line that sounds.
#[tactic(auto, unfolding(crate::specs::Calls::cued, crate::specs::Calls::cues_after))]
pub fn pulleybale_cues(
    clock: &mut [u64; WORDS],
    lines: &[u64],
    frames: u64,
    cues: &mut [u64],
    count: &mut u64,
    report: &mut u32,
) -> u32
    ensures value { result ≡ number (cued clock.old lines.now frames cues.old).answer }
    ensures clock_after { clock.new ≡ clock_after clock.old (cued clock.old lines.now frames cues.old) }
    ensures cues_after { cues.new ≡ cues_after clock.old lines.now frames cues.old }
    ensures count_after { count.new ≡ given said_count (cued clock.old lines.now frames cues.old).answer count.old }
    ensures report_after { report.new ≡ given said_flags (cued clock.old lines.now frames cues.old).answer report.old }
{
    let cued = cues::cue(clock_words::clock_of(clock), lines, frames, cues);
    match cued.answer {
        Ok(said) => {
            clock_words::place(clock, cued.transport);
            *count = said.count as u64;
            *report = flags_of(said.wrapped, said.finished);
            0
        }
        Err(why) => u32::from(why),
    }
}
