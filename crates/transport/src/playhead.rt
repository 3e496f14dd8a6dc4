// Where the playhead stands after a run of frames.
ghost use Rattle.std.specs.Prelude.{◌≡◌, true};
ghost use Rattle.transport.specs.Transports.{good_loop, sound_loop, sound};
ghost use Rattle.transport.specs.Advances.{unlooped, standing, came, ran, advanced};

use crate::{LoopRange, Moves, PlayState, Transport, change};

// Where a playhead that was carried to a frame stands.
#[derive(Clone, Copy, Debug, PartialEq, Eq)]
pub enum Stands {
    At(u64),
    Wrapped(u64),
    Ended,
}

// The transport after an advance, and what the advance did.
#[derive(Clone, Copy, Debug, PartialEq)]
pub struct Run {
    pub transport: Transport,
    pub moves: Moves,
}

// Whether 9 does not refuse it.
pub fn good_loop(length: u64, start: u64, end: u64) -> bool
    ensures { result ≡ good_loop length start end }
{
    start < end && end <= length
}

pub fn sound_loop(length: u64, looping: Option<LoopRange>) -> bool
    ensures { result ≡ sound_loop length looping }
{
    match looping {
        None => true,
        Some(range) => good_loop(length, range.start, range.end),
    }
}

fn stand_unlooped(length: u64, frame: u64) -> Stands
    ensures { result ≡ unlooped length frame }
{
    if frame >= length {
        return Stands::Ended;
    }
    Stands::At(frame)
}

// The loop goes before the length.
fn stand(length: u64, looping: Option<LoopRange>, frame: u64) -> Stands
    requires { sound_loop length looping ≡ true }
    ensures { result ≡ standing length looping frame }
{
    match looping {
        None => stand_unlooped(length, frame),
        Some(LoopRange { start, end }) => {
            if frame >= end {
                return Stands::Wrapped(start + (frame - start) % (end - start));
            }
            stand_unlooped(length, frame)
        }
    }
}

fn arrive(t: Transport, place: Stands) -> Run
    ensures { result ≡ came t place }
{
    match place {
        Stands::At(frame) => Run {
            transport: change::moved(t, frame, PlayState::Playing),
            moves: Moves {
                wrapped: false,
                finished: false,
            },
        },
        Stands::Wrapped(frame) => Run {
            transport: change::moved(t, frame, PlayState::Playing),
            moves: Moves {
                wrapped: true,
                finished: false,
            },
        },
        Stands::Ended => Run {
            transport: change::moved(t, t.length, PlayState::Stopped),
            moves: Moves {
                wrapped: false,
                finished: true,
            },
        },
    }
}

// A run of a transport that plays.
#[tactic(auto, using(crate::proofs::Loops::sound_loop_lem))]
fn play_on(t: Transport, frames: u64) -> Run
    requires { sound t ≡ true }
    ensures { result ≡ ran t frames }
{
    let frame = t.position.saturating_add(frames);
    arrive(t, stand(t.length, t.looping, frame))
}

// A sound transport, so many frames later.
// Stays: a type of sound transports would be no plainer than this `requires`: `Run` and `Handed` hand a
// plain transport on, so each call would take the type apart and prove it anew.
#[tactic(auto, unfolding(crate::specs::Advances::advanced))]
pub fn advanced(t: Transport, frames: u64) -> Run
    requires { sound t ≡ true }
    ensures { result ≡ advanced t frames }
{
    if t.is_playing() {
        return play_on(t, frames);
    }
    Run {
        transport: t,
        moves: Moves {
            wrapped: false,
            finished: false,
        },
    }
}
