// The cue call: the bar lines that sound in a run of frames, written as pairs of words, and the
// transport moved by the run.
#![tactic(auto)]

ghost use Rattle.std.specs.Prelude.{◌≡◌};
ghost use Rattle.cues.specs.CueCall.{cue_answer, cue_after};
ghost use Rattle.cues.specs.Readings.{read_cues};

use lines::Lines;
use numbers::Refusal;
use transport::{Handed, Transport};

pub mod count;
pub mod plan;
pub mod play;
pub mod write;

// What a run says: whether it wrapped, whether it finished, and the number of cues.
#[derive(Clone, Copy, Debug, PartialEq, Eq)]
pub struct Cued {
    pub wrapped: bool,
    pub finished: bool,
    pub count: usize,
}

// Let so many frames go by, and write the time and the place of each bar line that sounds.
pub fn cue(t: Transport, lines: &[u64], frames: u64, out: &mut [u64]) -> Handed<Cued>
    ensures answer { read_cues result ≡ cue_answer t lines.now frames out.old }
    ensures words { out.new ≡ cue_after t lines.now frames out.old }
{
    if !t.is_sound() {
        return play::refused(t, Refusal::Unsound);
    }
    match Lines::tested(lines) {
        Ok(fine) => play::tested(t, fine, frames, out),
        Err(why) => play::refused(t, why),
    }
}
