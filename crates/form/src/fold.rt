// The lines of a text, one after another.
ghost use Rattle.std.specs.Prelude.{◌≡◌, ◌<◌};
ghost use Rattle.form.specs.Drafts.{with_meter, with_point};
ghost use Rattle.form.specs.Forms.{MeterBehind, TempoBehind, taken, outcome, front, read_step, read_walk};

use crate::draft::Draft;
use crate::{WrongLine, draft, points};
use beats::Beat;
use items::{Item, Reason};
use score::Points;
use splits::scan;

// What all lines say, and how many there are.
#[derive(Clone, Copy)]
pub struct Read {
    pub draft: Draft,
    pub lines: usize,
}

fn meter_step(
    draft: Draft,
    bar: u32,
    num: u32,
    den: u32,
    points: &mut Points,
) -> Result<Draft, Reason>
    ensures { (result ≡ with_meter draft) × (draft.meters < 256 → MeterBehind draft.meters bar num den points.old points.new) }
{
    if draft.meters >= 256 {
        return Err(Reason::ManyMeters);
    }
    points::meter(points, draft.meters, bar, num, den);
    Ok(draft::more_meters(draft))
}

fn tempo_step(draft: Draft, beat: Beat, bits: u32, points: &mut Points) -> Result<Draft, Reason>
    ensures { (result ≡ with_point draft) × (draft.tempos < 1024 → TempoBehind draft.tempos beat bits points.old points.new) }
{
    if draft.tempos >= 1024 {
        return Err(Reason::ManyTempos);
    }
    points::tempo(points, draft.tempos, beat, bits);
    Ok(draft::more_tempos(draft))
}

// One line more.
fn step(line: &[u8], draft: Draft, points: &mut Points) -> Result<Draft, Reason>
    ensures { read_step result points.new ≡ taken (front draft points.old) line.now }
{
    let Some(item) = items::of_line(line)? else {
        return Ok(draft);
    };
    match item {
        Item::Rate(n) => draft::with_rate(draft, n),
        Item::Beats(n) => draft::with_beats(draft, n),
        Item::Tempo(bits) => draft::with_tempo(draft, bits),
        Item::Pickup(beat) => draft::with_pickup(draft, beat),
        Item::MeterPoint(bar, num, den) => meter_step(draft, bar, num, den, points),
        Item::TempoPoint(beat, bits) => tempo_step(draft, beat, bits, points),
    }
}

// Takes the lines of a text, and stops at the first that is wrong.
pub fn lines(text: &[u8], points: &mut Points) -> Result<Read, WrongLine>
    ensures { read_walk result points.new ≡ outcome text.now }
{
    let mut draft = draft::empty();
    let mut line = 0;
    let mut place = 0;
    // Stays: each turn goes on by a line. `split` gives one line more behind a last line feed, and
    // `split_inclusive` leaves each line its feed, so a `for` would have to cut it off again.
    while place < text.len() {
        line += 1;
        let end = scan::until(text, place, b'\n');
        match step(&text[place..end], draft, points) {
            Ok(next) => draft = next,
            Err(reason) => return Err(WrongLine { line, reason }),
        }
        place = end + 1;
    }
    Ok(Read { draft, lines: line })
}
