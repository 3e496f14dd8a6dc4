// The points so far, at the front of lent lists.
ghost use Rattle.std.specs.Prelude.{◌<◌};
ghost use Rattle.form.specs.Forms.{MeterBehind, TempoBehind};

use beats::Beat;
use score::Points;

// A meter point behind so many.
pub fn meter(points: &mut Points, count: usize, bar: u32, num: u32, den: u32)
    requires { count < 256 }
    ensures { MeterBehind count bar num den points.old points.new }
{
    let place = 3 * count;
    points.meter[place..place + 3].copy_from_slice(&[bar, num, den]);
}

// A tempo point behind so many.
pub fn tempo(points: &mut Points, count: usize, beat: Beat, bits: u32)
    requires { count < 1024 }
    ensures { TempoBehind count beat bits points.old points.new }
{
    points.nums[count] = beat.num;
    points.dens[count] = beat.den;
    points.bpms[count] = bits;
}
