// The score file: whether bytes are one, and what it says. It is read into lent arrays that hold
// the largest file's points, so that a bad file is the only refusal.
#![tactic(auto)]

ghost use Rattle.std.specs.Prelude.{◌≡◌};
ghost use Rattle.numbers.specs.Refusals.{read};
ghost use Rattle.score.specs.Format.{is_score};
ghost use Rattle.score.specs.Answers.{score_answer, Leaves};

use beats::Beat;
use numbers::Refusal;

mod file;
mod music;
mod words;

pub use music::{Music, Points};

// The bytes of the longest score file: a header, 256 meter points and 1,024 tempo points.
pub const LONGEST: usize = 19504;

// What a score file says beside the points of its two maps.
#[derive(Clone, Copy)]
pub struct Score {
    pub rate: u32,
    // the meter where no meter point is in force: so many beats a bar, over 4; 0 counts as 1
    pub beats: u32,
    // the tempo where there are no tempo points, as the bits of a float
    pub bpm: u32,
    pub pickup: Option<Beat>,
    // how many points the maps have
    pub meters: usize,
    pub tempos: usize,
}

// Whether the bytes are a score file.
#[tactic(auto, unfolding(crate::specs::Format::is_score))]
pub fn is_score(bytes: &[u8]) -> bool
    ensures { result ≡ is_score bytes.now }
{
    bytes.len() >= 48
        && file::laid_out(bytes)
        && file::pickup_good(bytes)
        && file::beats_good(bytes)
}

// Reads a score file: three words for each meter point, and a numerator, a denominator and the bits
// of a tempo for each tempo point, all at the front of the lent lists.
pub fn read_score(bytes: &[u8], points: &mut Points) -> Result<Score, Refusal>
    ensures result_value { read result ≡ score_answer bytes.now }
    ensures leaves { Leaves bytes.now points.old points.new }
{
    if !is_score(bytes) {
        return Err(Refusal::BadFile);
    }
    let score = file::header(bytes);
    let meters = score.meters;
    let tempos = score.tempos;
    let place = words::word_at(bytes, 40) as usize;
    words::copy_words(bytes, 48, 4, 3 * meters, &mut points.meter);
    words::copy_numbers(bytes, place, tempos, &mut points.nums);
    words::copy_words(bytes, place + 8, 16, tempos, &mut points.dens);
    words::copy_words(bytes, place + 12, 16, tempos, &mut points.bpms);
    Ok(score)
}
