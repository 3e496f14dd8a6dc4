// Transforms of patterns on the step grid. A pattern's notes are lent as flat words, four a note,
// and the result is written to the front of a lent output. Every refusal is decided before the
// first word is written, and a refused call changes no word.
// Stays: a pattern and its words are two arguments, since docs/DECISIONS.md ("pattern") has a pattern
// as what stands beside the words that the caller lends.
#![tactic(auto)]

ghost use Rattle.std.specs.Prelude.{◌≡◌, ◌/◌};
ghost use Rattle.pattern.specs.Phrases.{wrote_of};
ghost use Rattle.pattern.specs.Readings.{Outcome};
ghost use Rattle.pattern.specs.Calls.{repeat_of, concat_of, layer_of, slice_of, stretch_of, rotate_of, reverse_of, quantize_of, vel_of, gate_of, euclidean_of, tuplet_of};

use notes::Note;
use numbers::Refusal;
use rhythm::{changing, cutting, joining, making, steps};

mod mapping;

// What a pattern is beside its notes.
#[derive(Clone, Copy, Debug, PartialEq, Eq)]
pub struct Pattern {
    pub bars: u32,
}

// What an accepted call answers: the number of notes that it wrote, and their pattern.
#[derive(Clone, Copy, Debug, PartialEq, Eq)]
pub struct Wrote {
    pub notes: usize,
    pub pattern: Pattern,
}

impl Wrote {
    // Notes of so many words.
    fn of(words: usize, bars: u32) -> Wrote
        ensures { result ≡ wrote_of (words / 4) bars }
    {
        Wrote {
            notes: words / 4,
            pattern: Pattern { bars },
        }
    }
}

// Several patterns, or several copies of one.

// The pattern `times` times, one after the other.
pub fn repeat(
    p: Pattern,
    words: &[u32],
    steps_per_bar: u32,
    times: u32,
    out: &mut [u32],
) -> Result<Wrote, Refusal>
    ensures { Outcome (repeat_of p words.now steps_per_bar times) result out.old out.new }
{
    notes::tested(&[words.len()])?;
    let size = words.len() * (times as usize);
    if size > out.len() {
        return Err(Refusal::NoRoom);
    }
    let stride = steps::total(p.bars, steps_per_bar);
    joining::copies(words, stride, times, out);
    Ok(Wrote::of(size, steps::times_bars(p.bars, times)))
}

// a, then b behind a's bars.
pub fn concat(
    a: Pattern,
    words: &[u32],
    b: Pattern,
    more: &[u32],
    steps_per_bar: u32,
    out: &mut [u32],
) -> Result<Wrote, Refusal>
    ensures { Outcome (concat_of a words.now b more.now steps_per_bar) result out.old out.new }
{
    notes::tested(&[words.len(), more.len()])?;
    let size = words.len() + more.len();
    if size > out.len() {
        return Err(Refusal::NoRoom);
    }
    let off = steps::total(a.bars, steps_per_bar);
    joining::join(words, more, off, out);
    Ok(Wrote::of(size, steps::sum_bars(a.bars, b.bars)))
}

// a and b at once: of equal steps a's notes go first.
pub fn layer(
    a: Pattern,
    words: &[u32],
    b: Pattern,
    more: &[u32],
    out: &mut [u32],
) -> Result<Wrote, Refusal>
    ensures { Outcome (layer_of a words.now b more.now) result out.old out.new }
{
    notes::tested(&[words.len(), more.len()])?;
    let size = words.len() + more.len();
    if size > out.len() {
        return Err(Refusal::NoRoom);
    }
    joining::join(words, more, 0, out);
    notes::sorting::sort_by_step(&mut out[..size]);
    Ok(Wrote::of(size, a.bars.max(b.bars)))
}

// A part of a pattern, or all of it at another speed.

// The notes that start from `start` on and before start + len, counted from start.
pub fn slice(
    p: Pattern,
    words: &[u32],
    start: u32,
    len: u32,
    steps_per_bar: u32,
    out: &mut [u32],
) -> Result<Wrote, Refusal>
    ensures { Outcome (slice_of p words.now start len steps_per_bar) result out.old out.new }
{
    notes::tested(&[words.len()])?;
    let count = cutting::count_window(words, start, len);
    if count > out.len() / 4 {
        return Err(Refusal::NoRoom);
    }
    cutting::write_window(words, start, len, out);
    Ok(Wrote::of(4 * count, steps::bars_for(len, steps_per_bar)))
}

// Time scaled by exactly num / den: refused where something would fall between steps.
pub fn stretch(
    p: Pattern,
    words: &[u32],
    num: u32,
    den: u32,
    out: &mut [u32],
) -> Result<Wrote, Refusal>
    ensures { Outcome (stretch_of p words.now num den) result out.old out.new }
{
    notes::tested(&[words.len()])?;
    if num == 0 {
        return Err(Refusal::BadNumbers);
    }
    if den == 0 {
        return Err(Refusal::BadNumbers);
    }
    cutting::off_grid(p.bars, words, num, den)?;
    if words.len() > out.len() {
        return Err(Refusal::NoRoom);
    }
    let stretched = |n: Note| Note {
        step: steps::stretched(n.step, num, den),
        len: steps::stretched(n.len, num, den),
        ..n
    };
    changing::copy(words, stretched, out);
    Ok(Wrote::of(words.len(), steps::stretched(p.bars, num, den)))
}

// Each note changed in the same way.

// Each step moved by `shift`, round the pattern's length.
pub fn rotate(
    p: Pattern,
    words: &[u32],
    shift: i64,
    steps_per_bar: u32,
    out: &mut [u32],
) -> Result<Wrote, Refusal>
    ensures { Outcome (rotate_of p words.now shift steps_per_bar) result out.old out.new }
{
    let total = steps::total(p.bars, steps_per_bar);
    let rotated = |n: Note| n.at(steps::rotated(n.step, shift, total));
    mapping::each_sorted(p, words, rotated, out)
}

// The pattern mirrored in time.
pub fn reverse(
    p: Pattern,
    words: &[u32],
    steps_per_bar: u32,
    out: &mut [u32],
) -> Result<Wrote, Refusal>
    ensures { Outcome (reverse_of p words.now steps_per_bar) result out.old out.new }
{
    let total = steps::total(p.bars, steps_per_bar);
    let mirrored = |n: Note| n.at(steps::mirrored(n.step, n.len, total));
    mapping::each_sorted(p, words, mirrored, out)
}

// Each step at the nearest multiple of the grid, halves going up.
pub fn quantize(p: Pattern, words: &[u32], grid: u32, out: &mut [u32]) -> Result<Wrote, Refusal>
    ensures { Outcome (quantize_of p words.now grid) result out.old out.new }
{
    let snapped = |n: Note| n.at(steps::snapped(n.step, grid));
    mapping::each_sorted(p, words, snapped, out)
}

// Each gain times `scale`, kept between 0 and 1.
pub fn vel(p: Pattern, words: &[u32], scale: f32, out: &mut [u32]) -> Result<Wrote, Refusal>
    ensures { Outcome (vel_of p words.now scale) result out.old out.new }
{
    let scaled = |n: Note| Note {
        gain: steps::scaled(n.gain, scale),
        ..n
    };
    mapping::each(p, words, scaled, out)
}

// Each len times `factor`, rounded, and at least 1.
pub fn gate(p: Pattern, words: &[u32], factor: f32, out: &mut [u32]) -> Result<Wrote, Refusal>
    ensures { Outcome (gate_of p words.now factor) result out.old out.new }
{
    let gated = |n: Note| Note {
        len: steps::gated(n.len, factor),
        ..n
    };
    mapping::each(p, words, gated, out)
}

// Patterns made from numbers.

// `pulses` notes spread evenly over `steps` steps.
pub fn euclidean(
    pulses: u32,
    steps: u32,
    tag: u32,
    len: u32,
    steps_per_bar: u32,
    out: &mut [u32],
) -> Result<Wrote, Refusal>
    ensures { Outcome (euclidean_of pulses steps tag len steps_per_bar) result out.old out.new }
{
    if steps == 0 {
        return Err(Refusal::BadNumbers);
    }
    if pulses > steps {
        return Err(Refusal::BadNumbers);
    }
    if pulses as usize > out.len() / 4 {
        return Err(Refusal::NoRoom);
    }
    making::fill(pulses, |k| making::pulse(k, pulses, steps), len, tag, out);
    Ok(Wrote::of(4 * (pulses as usize), steps::bars_for(steps, steps_per_bar)))
}

// `count` notes spaced evenly over `steps` steps of one bar.
pub fn tuplet(count: u32, steps: u32, tag: u32, len: u32, out: &mut [u32]) -> Result<Wrote, Refusal>
    ensures { Outcome (tuplet_of count steps tag len) result out.old out.new }
{
    if count as usize > out.len() / 4 {
        return Err(Refusal::NoRoom);
    }
    making::fill(count, |k| making::nearest(k, count, steps), len, tag, out);
    Ok(Wrote::of(4 * (count as usize), 1))
}
