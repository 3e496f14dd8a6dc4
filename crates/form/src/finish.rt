// From what all lines say to the score file.
ghost use Rattle.std.specs.Prelude.{◌≡◌};
ghost use Rattle.form.specs.Drafts.{finished};
ghost use Rattle.form.specs.Forms.{last_line, WrittenAt, Finished, front};

use crate::WrongLine;
use crate::draft::Draft;
use items::Reason;
use score::{LONGEST, Points, Score};

// The last line's number; a text without lines counts as one.
fn last_line(lines: usize) -> usize
    ensures { result ≡ last_line lines }
{
    lines.max(1)
}

// The score, where nothing is missing.
fn score_of(draft: Draft) -> Result<Score, Reason>
    ensures { result ≡ finished draft }
{
    let rate = draft.rate.ok_or(Reason::NoRate)?;
    let beats = draft.beats.ok_or(Reason::NoBeats)?;
    let bpm = draft.tempo.ok_or(Reason::NoTempo)?;
    Ok(Score {
        rate,
        beats,
        bpm,
        pickup: draft.pickup,
        meters: draft.meters,
        tempos: draft.tempos,
    })
}

fn written(
    score: Score,
    line: usize,
    points: &Points,
    out: &mut [u8; LONGEST],
) -> Result<usize, WrongLine>
    ensures { WrittenAt line score points.now out.old result out.new }
{
    match score_writer::write_score(score, points, out) {
        Ok(size) => Ok(size),
        Err(_) => Err(WrongLine {
            line,
            reason: Reason::Unwritten,
        }),
    }
}

// Writes the file of what so many lines say.
pub fn file(
    draft: Draft,
    lines: usize,
    points: &Points,
    out: &mut [u8; LONGEST],
) -> Result<usize, WrongLine>
    ensures { Finished (last_line lines) (front draft points.now) (finished draft) out.old result out.new }
{
    let line = last_line(lines);
    match score_of(draft) {
        Ok(score) => written(score, line, points, out),
        Err(reason) => Err(WrongLine { line, reason }),
    }
}
