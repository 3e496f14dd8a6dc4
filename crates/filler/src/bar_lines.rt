// The lines one after the other, each from what those before it have left. Of the walks over the
// tempo map `ahead` is the one to the latest beat so far. Starts fall behind it after one that
// overflows, after bar 0 where the pickup is below 0, and where rounding turns the order of two:
// `behind` has the walks to these.
ghost use Rattle.std.specs.Prelude.{◌≡◌, ◌≤◌, length};
ghost use Rattle.meter.specs.Meters.{points_of};
ghost use Rattle.tempo.specs.Maps.{points};
ghost use Rattle.filler.specs.Fills.{bar_lines};

use crate::marks;
use crate::segments::Segment;
use crate::stands::{self, Stand};
use beats::frames;
use meter::bars::MeterMap;
use tempo::TempoMap;
use transport::Transport;

pub fn fill(t: Transport, words: &[u32], map: &TempoMap, out: &mut [u64])
    requires { length out.old ≤ 65536 }
    ensures { out.new ≡ bar_lines t (points_of words.now) (points map.now) (length out.old) }
{
    marks::mark(words, out);
    let bars = MeterMap {
        words,
        default: t.beats_per_bar,
        pickup: t.pickup,
    };
    let mut segment = Segment::open(&bars);
    let mut ahead = Stand::begin(map);
    let mut behind = [ahead; stands::PLACES];
    for (k, line) in out.iter_mut().enumerate() {
        let bar = k as u32;
        segment = segment.on_to(&bars, bar, *line);
        let beat = frames::float_of(segment.start_of(bar));
        let from = if ahead.beat <= beat {
            ahead
        } else {
            behind[stands::place_of(beat)].resume(map, beat)
        };
        let stand = from.walk_to(map, beat);
        *line = stand.frame(t, map);
        if ahead.beat <= beat {
            ahead = stand;
        } else {
            behind[stands::place_of(beat)] = stand;
        }
    }
}
