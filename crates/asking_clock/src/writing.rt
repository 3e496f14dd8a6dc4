// A Transport, behind what a line has: twelve numbers.
use asking::Answers;
use beats::Beat;
use std::io;
use transport::{Handed, LoopRange, Transport};

fn more_loop(out: &mut Answers, looping: Option<LoopRange>) -> io::Result<()> {
    let words = match looping {
        None => [0, 0, 0],
        Some(LoopRange { start, end }) => [1, start, end],
    };
    asking::more_all::<u64>(out, &words)
}

fn more_pickup(out: &mut Answers, pickup: Option<Beat>) -> io::Result<()> {
    match pickup {
        None => asking::more_all::<u64>(out, &[0, 0, 0]),
        Some(beat) => {
            asking::more(out, 1)?;
            asking::more_beat(out, beat)
        }
    }
}

// Zeros stand for what an off loop or an absent pickup does not have. What a transport can be asked
// for is asked for, so that these calls are compared too.
pub fn more_transport(out: &mut Answers, t: Transport) -> io::Result<()> {
    let words = [t.sample_rate(), rounding::f32_word(t.bpm), t.beats_per_bar];
    asking::more_all(out, &words)?;
    asking::more(out, t.length_frames())?;
    asking::more(out, t.position_frames())?;
    asking::more(out, u64::from(t.state()))?;
    more_loop(out, t.loop_range())?;
    more_pickup(out, t.pickup)
}

// The line of a call that hands back a transport: 0 or the refusal, the transport, and what `put`
// writes of an accepted answer; of what is no question where there is none.
pub fn handed_line<A: Drop, F: FnOnce(&mut Answers, A) -> io::Result<()>>(
    out: &mut Answers,
    handed: Option<Handed<A>>,
    put: F,
) -> io::Result<()>
    requires { F.IsAlwaysCallable put }
{
    let Some(Handed { transport, answer }) = handed else {
        return asking::unknown(out);
    };
    match answer {
        Ok(value) => {
            asking::first(out, 0)?;
            more_transport(out, transport)?;
            put(out, value)?;
        }
        Err(why) => {
            asking::refusal(out, why)?;
            more_transport(out, transport)?;
        }
    }
    asking::end_line(out)
}
