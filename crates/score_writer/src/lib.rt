// The score file, written: the mirror of `score::read_score`, from the same lists and the same
// struct.
#![tactic(auto)]

ghost use Rattle.numbers.specs.Refusals.{read};
ghost use Rattle.score_writer.specs.Answers.{Writes};

use numbers::Refusal;
use score::{LONGEST, Music, Points, Score};

mod file;
mod words;

// Writes a score file: three words for each meter point, and a numerator, a denominator and the bits
// of a tempo for each tempo point, all from the front of the lent lists. Answers how many bytes it
// has, from the front of the output; 4 where the score counts too many points, 1 where the pickup or
// the beat of a point that counts is no beat.
pub fn write_score(score: Score, points: &Points, out: &mut [u8; LONGEST]) -> Result<usize, Refusal>
    ensures { Writes score points.now.meter points.now.nums points.now.dens points.now.bpms out.old (read result) out.new }
{
    if score.meters > 256 || score.tempos > 1024 {
        return Err(Refusal::TooLong);
    }
    let music = Music { score, points };
    if !meter::is_sound_pickup(score.pickup) || !file::beats_good(music) {
        return Err(Refusal::NotBeat);
    }
    Ok(file::write(music, out))
}
