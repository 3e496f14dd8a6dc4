// Which bars a meter map lists: the bar's own entry of the lent list gets the number of the point
// listed last for it, counted from 1, and 0 where there is none.
ghost use Rattle.std.specs.Prelude.{[], length};
ghost use Rattle.meter.specs.Meters.{points_of};
ghost use Rattle.filler.specs.Numbers.{Marked};

use meter::bars::Points;

fn clear(out: &mut [u64])
    ensures { Marked [] (length out.old) out.new }
{
    out.fill(0);
}

// One pass over the map, whatever the order of its points.
pub fn mark(words: &[u32], out: &mut [u64])
    ensures { Marked (points_of words.now) (length out.old) out.new }
{
    clear(out);
    let mut number: u64 = 0;
    for point in Points::new(words) {
        let bar = point.bar as usize;
        number += 1;
        if bar < out.len() {
            out[bar] = number;
        }
    }
}
