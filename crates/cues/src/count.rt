// The number of cues, against the room for them.
ghost use Rattle.std.specs.Prelude.{◌≡◌, ◌+◌, ◌*◌, ◌≤◌};
ghost use Rattle.cues.specs.Plans.{counted_to};

// The sum first + laps * lap + last, or none where it is over the room. Two stretches have at most
// 65,536 cues each, and so 131,072 together. The laps may be nearly 2^64, and no product overflows.
pub fn total(first: usize, lap: usize, laps: u64, last: usize, room: usize) -> Option<usize>
    requires { first + last ≤ 131072 }
    ensures { result ≡ counted_to room (first + (laps * lap + last)) }
{
    let ends = first + last;
    if room < ends {
        return None;
    }
    if lap == 0 {
        return Some(ends);
    }
    let times = laps as usize;
    if (room - ends) / lap < times {
        return None;
    }
    Some(ends + times * lap)
}
