// Bars over beats: the meter in force at a bar, how long a bar lasts, where it starts, and how many
// bars have gone by at a beat. A meter map is flat words, three a point: bar, numerator,
// denominator. These are the calls with their refusals, 3, 4 and 1 in this order; crates above,
// which have tested their map, call `bars` and `count`.
#![tactic(auto)]

ghost use Rattle.std.specs.Prelude.{◌≡◌, true, IfOk};
ghost use Rattle.numbers.specs.Refusals.{read};
ghost use Rattle.meter.specs.Meters.{pickup_or, sound_pickup};
ghost use Rattle.numbers.specs.Answers.{accepted};
ghost use Rattle.meter.specs.Answers.{if_map, if_pickup, meter_answer, length_answer, start_answer, count_answer};

use crate::bars::MeterMap;
use beats::Beat;
use numbers::Refusal;

pub mod bars;
pub mod count;

// The words of a map that is not too long: 65,536 points, three words each.
pub const MOST_WORDS: usize = 196_608;

// A time signature from a bar on.
#[derive(Clone, Copy, Debug, PartialEq, Eq)]
pub struct MeterPoint {
    pub bar: u32,
    pub numerator: u32,
    pub denominator: u32,
}

// The pickup, which is how long bar 0 lasts, or `usual` where there is none.
pub fn pickup_or(pickup: Option<Beat>, usual: Beat) -> Beat
    ensures { result ≡ pickup_or pickup usual }
{
    pickup.unwrap_or(usual)
}

// Whether there is none, or it is a beat.
pub fn is_sound_pickup(pickup: Option<Beat>) -> bool
    ensures { result ≡ sound_pickup pickup }
{
    match pickup {
        None => true,
        Some(beat) => beat.is_beat(),
    }
}

// The map and its pickup together: 3 where the words are not three a point, 4 where there are over
// 65,536 points, 1 where the pickup is no beat.
pub fn tested(words: &[u32], default: u32, pickup: Option<Beat>) -> Result<MeterMap<'_>, Refusal>
    ensures answer { read result ≡ if_map words.now (if_pickup pickup (accepted (record { words = words.entry; default = default; pickup = pickup }))) }
    ensures sound { IfOk result (λ map. sound_pickup map.pickup ≡ true) }
{
    if words.len() % 3 != 0 {
        return Err(Refusal::Uneven);
    }
    if words.len() > MOST_WORDS {
        return Err(Refusal::TooLong);
    }
    if !is_sound_pickup(pickup) {
        return Err(Refusal::NotBeat);
    }
    Ok(MeterMap {
        words,
        default,
        pickup,
    })
}

// The meter in force at a bar.
pub fn meter_at(words: &[u32], default: u32, bar: u32) -> Result<MeterPoint, Refusal>
    ensures { read result ≡ meter_answer words.now default bar }
{
    Ok(tested(words, default, None)?.meter(bar))
}

// How long a bar lasts, in quarter beats.
pub fn bar_len(words: &[u32], default: u32, pickup: Option<Beat>, bar: u32) -> Result<Beat, Refusal>
    ensures { read result ≡ length_answer words.now default pickup bar }
{
    Ok(tested(words, default, pickup)?.length(bar))
}

// The beat at which a bar starts.
pub fn beat_at_bar(
    words: &[u32],
    default: u32,
    pickup: Option<Beat>,
    bar: u32,
) -> Result<Beat, Refusal>
    ensures { read result ≡ start_answer words.now default pickup bar }
{
    Ok(tested(words, default, pickup)?.start(bar))
}

// How many bars have gone by at a beat: for a score that fits, the first bar that starts at or
// after it, or 4,294,967,295 where bar 2^31 still starts before it.
pub fn bar_count_at_beat(
    words: &[u32],
    default: u32,
    pickup: Option<Beat>,
    beat: Beat,
) -> Result<u32, Refusal>
    ensures { read result ≡ count_answer words.now default pickup beat }
{
    let map = tested(words, default, pickup)?;
    if !beat.is_beat() {
        return Err(Refusal::NotBeat);
    }
    Ok(map.elapsed(beat))
}
