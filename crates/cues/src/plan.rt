// A playing run as stretches of frames. It knows nothing of lines, and costs the same for any number of frames.
ghost use Rattle.std.specs.Prelude.{◌≡◌, ◌<◌};
ghost use Rattle.cues.specs.Plans.{straight_plan, loop_plan, Plays, Planned};

use transport::{LoopRange, Transport};

// `first` frames from `from`; then `laps` times `lap` frames from `start`; then `last` frames from `start`.
#[derive(Clone, Copy, Debug, PartialEq, Eq)]
pub struct Plan {
    pub from: u64,
    pub first: u64,
    pub start: u64,
    pub lap: u64,
    pub laps: u64,
    pub last: u64,
}

// One stretch alone.
fn straight(from: u64, frames: u64) -> Plan
    ensures { result ≡ straight_plan from frames }
{
    Plan {
        from,
        first: frames,
        start: 0,
        lap: 0,
        laps: 0,
        last: 0,
    }
}

// From a frame before the loop's end.
fn looped(range: LoopRange, from: u64, frames: u64) -> Plan
    requires { (range.start < range.end) × (from < range.end) }
    ensures { result ≡ loop_plan range.start range.end from frames }
{
    let left = range.end - from;
    if frames <= left {
        return straight(from, frames);
    }
    let lap = range.end - range.start;
    let more = frames - left;
    Plan {
        from,
        first: left,
        start: range.start,
        lap,
        laps: more / lap,
        last: more % lap,
    }
}

// A playhead at or past the loop's end is folded first.
pub fn make(t: Transport, frames: u64) -> Plan
    requires { Plays t frames }
    ensures { Planned t frames result }
{
    let position = t.position;
    match t.looping {
        None => {
            let left = t.length - position;
            let shorter = frames.min(left);
            straight(position, shorter)
        }
        Some(range) => {
            let LoopRange { start, end } = range;
            if position < end {
                looped(range, position, frames)
            } else {
                looped(range, start + (position - start) % (end - start), frames)
            }
        }
    }
}
