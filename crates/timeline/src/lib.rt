// Where beats and bars lie on a transport's frames, and back again. The maps are lent beside the
// transport: the meter map as flat words, three a point, the tempo map as three parallel lists.
// These are the calls with their refusals, 12, 3, 4 and 1 in this order and then their own; crates
// above, which have tested their maps, call `places`.
// Stays: these calls are lent the three lists one by one, a form that docs/DECISIONS.md names
// ("Forms that document 01 names"); `places` takes the `TempoMap` that the test makes of them.
#![tactic(auto)]

ghost use Rattle.std.specs.Prelude.{◌≡◌};
ghost use Rattle.timeline.specs.Answers.{frame_at_beat_answer, beat_at_frame_answer, frame_at_bar_answer, next_beat_answer, next_bar_answer, position_beats_answer, position_bars_answer, seek_beat_answer, seek_bar_answer, loop_bars_answer};
ghost use Rattle.numbers.specs.Refusals.{read};
ghost use Rattle.transport.specs.Readings.{read_handed};

use numbers::Refusal;
use transport::{Handed, Transport, change};

pub mod places;
pub mod tests;

// The frame of a beat.
#[tactic(auto, using(crate::proofs::Testing::refuses, crate::proofs::Testing::accepts))]
pub fn frame_at_beat(
    t: Transport,
    beat: f64,
    nums: &[i64],
    dens: &[u32],
    tempos: &[u32],
) -> Result<u64, Refusal>
    ensures { read result ≡ frame_at_beat_answer t beat nums.now dens.now tempos.now }
{
    let map = tests::tempo_test(t, nums, dens, tempos)?;
    Ok(places::frame_at_beat(t, beat, &map))
}

// The beat of a frame.
#[tactic(auto, using(crate::proofs::Testing::refuses, crate::proofs::Testing::accepts))]
pub fn beat_at_frame(
    t: Transport,
    frame: u64,
    nums: &[i64],
    dens: &[u32],
    tempos: &[u32],
) -> Result<f64, Refusal>
    ensures { read result ≡ beat_at_frame_answer t frame nums.now dens.now tempos.now }
{
    let map = tests::tempo_test(t, nums, dens, tempos)?;
    Ok(places::beat_at_frame(t, frame, &map))
}

// The frame on which a bar starts.
#[tactic(auto, using(crate::proofs::Testing::refuses, crate::proofs::Testing::accepts))]
pub fn frame_at_bar(
    t: Transport,
    bar: u32,
    words: &[u32],
    nums: &[i64],
    dens: &[u32],
    tempos: &[u32],
) -> Result<u64, Refusal>
    ensures { read result ≡ frame_at_bar_answer t bar words.now nums.now dens.now tempos.now }
{
    let map = tests::maps_test(t, words, nums, dens, tempos)?;
    Ok(places::frame_at_bar(t, bar, words, &map))
}

// The frame of the next whole beat after the position.
#[tactic(auto, using(crate::proofs::Testing::refuses, crate::proofs::Testing::accepts))]
pub fn next_beat(t: Transport, nums: &[i64], dens: &[u32], tempos: &[u32]) -> Result<u64, Refusal>
    ensures { read result ≡ next_beat_answer t nums.now dens.now tempos.now }
{
    let map = tests::tempo_test(t, nums, dens, tempos)?;
    Ok(places::next_beat(t, &map))
}

// The frame of the next bar line after the position, on a grid of `every` bars from bar 0.
#[tactic(auto, using(crate::proofs::Testing::refuses, crate::proofs::Testing::accepts))]
pub fn next_bar(
    t: Transport,
    every: u32,
    words: &[u32],
    nums: &[i64],
    dens: &[u32],
    tempos: &[u32],
) -> Result<u64, Refusal>
    ensures { read result ≡ next_bar_answer t every words.now nums.now dens.now tempos.now }
{
    let map = tests::maps_test(t, words, nums, dens, tempos)?;
    let line = places::next_grid_bar(t, every, words, &map);
    let line = u32::try_from(line).map_err(|_| Refusal::OutOfReach)?;
    Ok(places::frame_at_bar(t, line, words, &map))
}

// The position in beats.
#[tactic(auto, using(crate::proofs::Testing::refuses, crate::proofs::Testing::accepts))]
pub fn position_beats(
    t: Transport,
    nums: &[i64],
    dens: &[u32],
    tempos: &[u32],
) -> Result<f64, Refusal>
    ensures { read result ≡ position_beats_answer t nums.now dens.now tempos.now }
{
    let map = tests::tempo_test(t, nums, dens, tempos)?;
    Ok(places::position_beats(t, &map))
}

// The position in bars: the bar's number and the part of it that has gone by.
#[tactic(auto, using(crate::proofs::Testing::refuses, crate::proofs::Testing::accepts))]
pub fn position_bars(
    t: Transport,
    words: &[u32],
    nums: &[i64],
    dens: &[u32],
    tempos: &[u32],
) -> Result<f64, Refusal>
    ensures { read result ≡ position_bars_answer t words.now nums.now dens.now tempos.now }
{
    let map = tests::maps_test(t, words, nums, dens, tempos)?;
    Ok(places::position_bars(t, words, &map))
}

// Go to a beat, or to the end where that is nearer.
pub fn seek_beat(t: Transport, beat: f64, nums: &[i64], dens: &[u32], tempos: &[u32]) -> Handed<()>
    ensures { read_handed result ≡ seek_beat_answer t beat nums.now dens.now tempos.now }
{
    let frame = frame_at_beat(t, beat, nums, dens, tempos);
    tests::handed_back(t, frame.map(|frame| change::sought(t, frame)))
}

// Go to the start of a bar, or to the end where that is nearer.
pub fn seek_bar(
    t: Transport,
    bar: u32,
    words: &[u32],
    nums: &[i64],
    dens: &[u32],
    tempos: &[u32],
) -> Handed<()>
    ensures { read_handed result ≡ seek_bar_answer t bar words.now nums.now dens.now tempos.now }
{
    let frame = frame_at_bar(t, bar, words, nums, dens, tempos);
    tests::handed_back(t, frame.map(|frame| change::sought(t, frame)))
}

// Loop from the start of a bar up to the start of another.
pub fn set_loop_bars(
    t: Transport,
    start: u32,
    end: u32,
    words: &[u32],
    nums: &[i64],
    dens: &[u32],
    tempos: &[u32],
) -> Handed<()>
    ensures { read_handed result ≡ loop_bars_answer t start end words.now nums.now dens.now tempos.now }
{
    match tests::maps_test(t, words, nums, dens, tempos) {
        Err(why) => change::refused(t, why),
        Ok(map) => {
            let from = places::frame_at_bar(t, start, words, &map);
            let to = places::frame_at_bar(t, end, words, &map);
            change::looped(t, from, to)
        }
    }
}
