// Whether a score fits: its meter map has no problems, its pickup is not below 0, and no addition
// or scaling of the walk over its bars is refused up to bar 2^31. This is the call with its
// refusals, 3, 4 and 1 in this order; crates above, which have tested their pickup, call
// `deciding`.
#![tactic(auto)]

ghost use Rattle.std.specs.Prelude.{◌≡◌};
ghost use Rattle.numbers.specs.Refusals.{read};
ghost use Rattle.fits.specs.Answers.{fits_answer};

use beats::Beat;
use numbers::Refusal;

pub mod deciding;
mod sound;
mod walk;

// Whether a score fits, for a meter map of flat words, three a point.
pub fn fits(words: &[u32], default: u32, pickup: Option<Beat>) -> Result<bool, Refusal>
    ensures { read result ≡ fits_answer words.now default pickup }
{
    let map = meter::tested(words, default, pickup)?;
    Ok(deciding::decide(&map))
}
