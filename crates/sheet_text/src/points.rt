// A score's points, as the maps that a clock goes by.
ghost use Rattle.std.specs.Prelude.{◌≡◌, ◌+◌, ◌≤◌, length};
ghost use Rattle.text.specs.Pages.{Appends};
ghost use Rattle.sheet_text.specs.Sheets.{clock_of, sheet_from};

use crate::lines;
use score::{Music, Score};
use text::Page;
use transport::{Transport, change};

// The score's clock, which never ends.
fn clock(score: Score) -> Transport
    ensures { result ≡ clock_of score }
{
    let bpm = rounding::f32_of(score.bpm);
    change::fresh(score.rate, bpm, score.beats, u64::MAX, score.pickup)
}

// The sheet by the points that the score counts.
pub fn sheet(page: &mut Page, music: Music)
    requires { page.old.place + 528 ≤ length page.old.out.now }
    ensures puts { let score = music.entry.score in let points = music.entry.points.now in Appends (sheet_from (clock_of score) score.meters score.tempos points.meter points.nums points.dens points.bpms) page.old page.new }
    ensures upper_bound { page.new.place ≤ page.old.place + 528 }
{
    lines::sheet(page, clock(music.score), music.meter(), &music.tempo_map());
}
