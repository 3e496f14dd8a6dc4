// Beats and bars to frames and back, over maps that were tested: binary64 operations, each rounded
// once, in the order of document 01.
ghost use Rattle.std.specs.Prelude.{◌≡◌};
ghost use Rattle.meter.specs.Meters.{points_of};
ghost use Rattle.tempo.specs.Maps.{points};
ghost use Rattle.timeline.specs.Places.{own_tempo, seconds_of, beats_of, frame_at_beat, beat_at_frame, frame_at_bar, position_beats, next_beat, nearest_beat, current_bar, within, position_bars, grid_bar, next_grid_bar};

use beats::{Beat, frames, sums};
use meter::bars::MeterMap;
use tempo::TempoMap;
use transport::Transport;

// The transport's own tempo, and 1 where it is below 1 or a NaN.
fn own_tempo(bpm: f32) -> f64
    ensures { result ≡ own_tempo bpm }
{
    rounding::max_f64(rounding::widened(bpm), 1.0)
}

// The seconds at a beat: through the map, or at the own tempo where it has no points.
#[tactic(auto, using(crate::proofs::Tempos::own_seconds, crate::proofs::Tempos::map_seconds))]
fn seconds_of(bpm: f32, beat: f64, map: &TempoMap) -> f64
    ensures { result ≡ seconds_of bpm (points map.now) beat }
{
    if map.is_empty() {
        frames::seconds_at(beat, own_tempo(bpm))
    } else {
        map.seconds_at(beat)
    }
}

// The beat at a second, likewise.
#[tactic(auto, using(crate::proofs::Tempos::own_beats, crate::proofs::Tempos::map_beats))]
fn beats_of(bpm: f32, seconds: f64, map: &TempoMap) -> f64
    ensures { result ≡ beats_of bpm (points map.now) seconds }
{
    if map.is_empty() {
        seconds * own_tempo(bpm) / 60.0
    } else {
        map.beat_at(seconds)
    }
}

// The meter map that the words are for a transport.
fn meter_map(t: Transport, words: &[u32]) -> MeterMap<'_>
    ensures { result ≡ record { words = words.entry; default = t.beats_per_bar; pickup = t.pickup } }
{
    MeterMap {
        words,
        default: t.beats_per_bar,
        pickup: t.pickup,
    }
}

#[tactic(auto, unfolding(crate::specs::Places::frame_at_beat))]
pub fn frame_at_beat(t: Transport, beat: f64, map: &TempoMap) -> u64
    ensures { result ≡ frame_at_beat t (points map.now) beat }
{
    frames::frames_at(seconds_of(t.bpm, beat, map), t.sample_rate)
}

#[tactic(auto, unfolding(crate::specs::Places::beat_at_frame))]
pub fn beat_at_frame(t: Transport, frame: u64, map: &TempoMap) -> f64
    ensures { result ≡ beat_at_frame t (points map.now) frame }
{
    let rate = t.sample_rate;
    let seconds = std::num::nearest_u64_to_f64(frame) / f64::from(rate);
    beats_of(t.bpm, seconds, map)
}

#[tactic(auto, unfolding(crate::specs::Places::frame_at_bar))]
pub fn frame_at_bar(t: Transport, bar: u32, words: &[u32], map: &TempoMap) -> u64
    ensures { result ≡ frame_at_bar t (points_of words.now) (points map.now) bar }
{
    let start = meter_map(t, words).start(bar);
    frame_at_beat(t, frames::float_of(start), map)
}

pub fn position_beats(t: Transport, map: &TempoMap) -> f64
    ensures { result ≡ position_beats t (points map.now) }
{
    beat_at_frame(t, t.position, map)
}

pub fn next_beat(t: Transport, map: &TempoMap) -> u64
    ensures { result ≡ next_beat t (points map.now) }
{
    let beat = rounding::floor(position_beats(t, map)) + 1.0;
    frame_at_beat(t, beat, map)
}

// The beat nearest to a float, in thousand millionths.
#[tactic(auto, unfolding(crate::specs::Places::nearest_beat))]
fn nearest_beat(x: f64) -> Beat
    ensures { result ≡ nearest_beat x }
{
    Beat::new(rounding::round_to_i64(x * 1000000000.0), 1_000_000_000)
}

// How much of a bar has gone by, 0 where it lasts no time.
#[tactic(auto, unfolding(crate::specs::Places::within))]
fn part_of(beat: Beat, start: Beat, len: Beat) -> f64
    ensures { result ≡ within beat start len }
{
    if !sums::below(Beat::zero(), len) {
        return 0.0;
    }
    (frames::float_of(beat) - frames::float_of(start)) / frames::float_of(len)
}

// The bar that a beat lies in: one less than the bars that have gone by.
fn current_bar(t: Transport, beat: Beat, words: &[u32]) -> u32
    ensures { result ≡ current_bar t (points_of words.now) beat }
{
    meter_map(t, words).elapsed(beat).saturating_sub(1)
}

pub fn position_bars(t: Transport, words: &[u32], map: &TempoMap) -> f64
    ensures { result ≡ position_bars t (points_of words.now) (points map.now) }
{
    let beat = nearest_beat(position_beats(t, map));
    let bar = current_bar(t, beat, words);
    let meters = meter_map(t, words);
    let start = meters.start(bar);
    let len = meters.length(bar);
    f64::from(bar) + rounding::clamp_f64(part_of(beat, start, len), 0.0, 1.0)
}

// The first bar after `bar` on a grid of `every` bars, 0 counting as 1.
fn grid_bar(bar: u32, every: u32) -> u64
    ensures { result ≡ grid_bar bar every }
{
    let step = u64::from(every.max(1));
    (u64::from(bar) / step + 1) * step
}

// The bar of the next line after the position, on such a grid.
pub fn next_grid_bar(t: Transport, every: u32, words: &[u32], map: &TempoMap) -> u64
    ensures { result ≡ next_grid_bar t (points_of words.now) (points map.now) every }
{
    let bars = position_bars(t, words, map);
    grid_bar(rounding::cut_to_u32(rounding::floor(bars)), every)
}
