// The decision, for a pickup that has been tested: the map first, then the pickup's sign, then the
// walk, each only where those before it pass.
ghost use Rattle.std.specs.Prelude.{◌≡◌, true};
ghost use Rattle.meter.specs.Meters.{points_of, sound_pickup};
ghost use Rattle.meter.specs.Fits.{forward_pickup};
ghost use Rattle.fits.specs.Decision.{fits_bool};

use crate::{sound, walk};
use beats::Beat;
use meter::bars::MeterMap;

// Whether a pickup is absent or not below 0.
fn forward(pickup: Option<Beat>) -> bool
    requires { sound_pickup pickup ≡ true }
    ensures { result ≡ forward_pickup pickup }
{
    match pickup {
        None => true,
        Some(beat) => !numbers::negative(beat.num),
    }
}

pub fn decide(map: &MeterMap) -> bool
    requires { sound_pickup map.now.pickup ≡ true }
    ensures { result ≡ fits_bool (points_of map.now.words.now) map.now.default map.now.pickup }
{
    if !sound::map(map.words) {
        return false;
    }
    if !forward(map.pickup) {
        return false;
    }
    walk::passes(map)
}
