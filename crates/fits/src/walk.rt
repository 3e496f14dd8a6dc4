// The walk over the bars by one pass over the map, refused as soon as the start of a bar up to
// 2^31 would be.
ghost use Rattle.std.specs.Prelude.{◌≡◌, min, ◌<◌};
ghost use Rattle.numbers.specs.Answers.{is_accepted, accepted};
ghost use Rattle.numbers.specs.Refusals.{read};
ghost use Rattle.meter.specs.Meters.{points_of, fallback};
ghost use Rattle.meter.specs.Starts.{checked_bars};
ghost use Rattle.meter.specs.Fits.{last_bar};
ghost use Rattle.fits.specs.Decision.{segment, reach, walked, walk_fits};

use beats::{Beat, sums};
use meter::MeterPoint;
use meter::bars::{self, MeterMap, Points};
use numbers::Refusal;

// The beat n bars of one length after a beat.
fn bars_on(at: Beat, len: Beat, n: u32) -> Result<Beat, Refusal>
    ensures { read result ≡ checked_bars at len n }
{
    sums::add(at, sums::mul(len, n as i64, 1)?)
}

// The beat n bars of one length after a beat, refused where the start of one of them would be: the
// last two decide.
fn segment_end(at: Beat, len: Beat, n: u32) -> Result<Beat, Refusal>
    requires { 0 < n }
    ensures { read result ≡ segment at len n }
{
    bars_on(at, len, n - 1)?;
    bars_on(at, len, n)
}

// From `bar`, which starts at `at`, to the start of `end`, all of one meter.
fn up_to(at: Beat, meter: MeterPoint, bar: u32, end: u32) -> Result<Beat, Refusal>
    ensures { read result ≡ reach bar end meter at }
{
    if bar < end {
        segment_end(at, meter.len(), end - bar)
    } else {
        Ok(at)
    }
}

// A bar, or 2^31 for one behind it.
fn limited(bar: u32) -> u32
    ensures { result ≡ min bar last_bar }
{
    if bar < 0x8000_0000 { bar } else { 0x8000_0000 }
}

// The start of bar 2^31, from the start of bar 1.
fn last_start(map: &MeterMap, one: Beat) -> Result<Beat, Refusal>
    ensures { read result ≡ walked (points_of map.now.words.now) 1 (fallback map.now.default) (accepted one) }
{
    let mut at = one;
    let mut meter = bars::unlisted(map.default);
    let mut bar: u32 = 1;
    for point in Points::new(map.words) {
        let end = limited(point.bar);
        at = up_to(at, meter, bar, end)?;
        bar = numbers::larger(bar, end);
        meter = point;
    }
    up_to(at, meter, bar, 0x8000_0000)
}

// Whether no start is refused up to bar 2^31.
pub fn passes(map: &MeterMap) -> bool
    ensures { result ≡ walk_fits (points_of map.now.words.now) map.now.default map.now.pickup }
{
    let zero = Beat::zero();
    match sums::add(zero, map.length(0)) {
        Ok(one) => last_start(map, one).is_ok(),
        Err(_) => false,
    }
}
