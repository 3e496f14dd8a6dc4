// Transports made, and made anew with some of their fields changed.
ghost use Rattle.std.specs.Prelude.{◌≡◌};
ghost use Rattle.numbers.specs.Answers.{accepted};
ghost use Rattle.numbers.specs.declared.refusal.Refusal.TheVariants.{Unsound};
ghost use Rattle.transport.specs.Transports.{made, moved_to, seek_to, looping_by};
ghost use Rattle.transport.specs.Changes.{if_sound, loop_change, handed};
ghost use Rattle.transport.specs.Readings.{read_handed, changed_to, refused_by};

use crate::{Handed, LoopRange, PlayState, Transport, playhead};
use beats::Beat;
use numbers::Refusal;

// Stopped at frame 0, with no loop.
pub fn fresh(rate: u32, bpm: f32, beats: u32, length: u64, pickup: Option<Beat>) -> Transport
    ensures { result ≡ made rate bpm beats length pickup }
{
    Transport {
        sample_rate: rate,
        bpm,
        beats_per_bar: beats.max(1),
        length,
        position: 0,
        state: PlayState::Stopped,
        looping: None,
        pickup,
    }
}

// A loop and a pickup, made anew: a copy takes along the unused bytes beside their tags, and the
// processor waits for these where they were just written in words of another size.
// Stays: tried, slower. With `..t` for all fields in `moved` an advance takes 2.16 ns in place of 1.86.

fn loop_anew(looping: Option<LoopRange>) -> Option<LoopRange>
    ensures { result ≡ looping }
{
    looping.map(|LoopRange { start, end }| LoopRange { start, end })
}

fn pickup_anew(pickup: Option<Beat>) -> Option<Beat>
    ensures { result ≡ pickup }
{
    pickup.map(|Beat { num, den }| Beat { num, den })
}

// The same transport elsewhere. No other function moves one.
pub fn moved(t: Transport, position: u64, state: PlayState) -> Transport
    ensures { result ≡ moved_to t position state }
{
    let looping = loop_anew(t.looping);
    let pickup = pickup_anew(t.pickup);
    Transport {
        position,
        state,
        looping,
        pickup,
        ..t
    }
}

// The same transport with another loop.
pub fn with_loop(t: Transport, looping: Option<LoopRange>) -> Transport
    ensures { result ≡ looping_by t looping }
{
    Transport { looping, ..t }
}

// At the frame, or at the end where that is nearer.
pub fn sought(t: Transport, frame: u64) -> Transport
    ensures { result ≡ seek_to t frame }
{
    moved(t, frame.min(t.length), t.state)
}

// An accepted change.
pub fn done(transport: Transport) -> Handed<()>
    ensures { result ≡ changed_to transport }
{
    Handed {
        transport,
        answer: Ok(()),
    }
}

// A refusal hands back the old transport.
pub fn refused(transport: Transport, why: Refusal) -> Handed<()>
    ensures { result ≡ refused_by transport why }
{
    Handed {
        transport,
        answer: Err(why),
    }
}

pub fn unsound(transport: Transport) -> Handed<()>
    ensures { result ≡ refused_by transport Unsound }
{
    refused(transport, Refusal::Unsound)
}

// The new transport, unless 12 refuses the old one.
pub fn if_sound(old: Transport, new: Transport) -> Handed<()>
    ensures { read_handed result ≡ if_sound old (accepted new) }
{
    if !old.is_sound() {
        return unsound(old);
    }
    done(new)
}

// Looping from start up to end, unless 9 refuses it.
pub fn looped(t: Transport, start: u64, end: u64) -> Handed<()>
    ensures { read_handed result ≡ handed t (loop_change t start end) }
{
    let new = with_loop(t, Some(LoopRange { start, end }));
    if !playhead::good_loop(t.length, start, end) {
        return refused(t, Refusal::BadLoop);
    }
    done(new)
}
