// The call behind its tests.
ghost use Rattle.std.specs.Prelude.{◌≡◌, true, ◌≤◌, ◌/◌, length};
ghost use Rattle.transport.specs.Transports.{sound, playing};
ghost use Rattle.transport.specs.Readings.{refused_by};
ghost use Rattle.cues.specs.CueCall.{cue_answer, cue_after};
ghost use Rattle.cues.specs.Readings.{read_cues};
ghost use Rattle.cues.specs.Plans.{plan_cues, Fitting, counted_to, written};

use crate::plan::Plan;
use crate::write::Stretch;
use crate::{Cued, count, plan};
use lines::Lines;
use numbers::Refusal;
use transport::{Handed, Transport, playhead};

// A refusal hands back the old transport.
pub fn refused(transport: Transport, why: Refusal) -> Handed<Cued>
    ensures { result ≡ refused_by transport why }
{
    Handed {
        transport,
        answer: Err(why),
    }
}

// The cues of a plan, written where there is room for all of them. The part of each stretch is
// found once, and the number of cues is known before the first word.
fn fill(lines: Lines, p: Plan, out: &mut [u64]) -> Option<usize>
    requires few { length lines.frames.now ≤ 65536 }
    requires fits { Fitting p }
    ensures count { result ≡ counted_to (length out.old / 2) (length (plan_cues lines.entry.frames.now p)) }
    ensures words { out.new ≡ written (plan_cues lines.entry.frames.now p) out.old }
{
    let place = lines.place_of(p.from);
    let first = Stretch {
        part: lines.part_from(place, p.from, p.from + p.first),
        from: p.from,
        place,
    };
    let again = lines.place_from(0, p.start);
    let lap = Stretch {
        part: lines.part_from(again, p.start, p.start + p.lap),
        from: p.start,
        place: again,
    };
    let last = Stretch {
        part: lines.part_from(again, p.start, p.start + p.last),
        from: p.start,
        place: again,
    };
    let room = out.len() / 2;
    let n = count::total(
        first.part.len(),
        lap.part.len(),
        p.laps,
        last.part.len(),
        room,
    )?;
    let at = first.write(out, 0, 0);
    let next = lap.write_laps(out, at, p.first, p.lap, p.laps);
    last.write(out, next, p.first + p.laps * p.lap);
    Some(n)
}

// What a transport that plays is answered.
fn played(t: Transport, lines: Lines, frames: u64, out: &mut [u64]) -> Handed<Cued>
    requires fit { sound t ≡ true }
    requires few { length lines.frames.now ≤ 65536 }
    requires plays { playing t.state ≡ true }
    ensures answer { read_cues result ≡ cue_answer t lines.entry.frames.now frames out.old }
    ensures words { out.new ≡ cue_after t lines.entry.frames.now frames out.old }
{
    if u64::MAX - t.position < frames {
        return refused(t, Refusal::OutOfReach);
    }
    match fill(lines, plan::make(t, frames), out) {
        None => refused(t, Refusal::NoRoom),
        Some(count) => {
            let run = playhead::advanced(t, frames);
            Handed {
                transport: run.transport,
                answer: Ok(Cued {
                    wrapped: run.moves.wrapped,
                    finished: run.moves.finished,
                    count,
                }),
            }
        }
    }
}

// What is answered where neither the transport nor the lines are refused.
pub fn tested(t: Transport, lines: Lines, frames: u64, out: &mut [u64]) -> Handed<Cued>
    requires fit { sound t ≡ true }
    requires few { length lines.frames.now ≤ 65536 }
    ensures answer { read_cues result ≡ cue_answer t lines.entry.frames.now frames out.old }
    ensures words { out.new ≡ cue_after t lines.entry.frames.now frames out.old }
{
    if t.is_playing() {
        return played(t, lines, frames, out);
    }
    Handed {
        transport: t,
        answer: Ok(Cued {
            wrapped: false,
            finished: false,
            count: 0,
        }),
    }
}
