// A segment: the bars from `first` on last `len` each, and `first` starts at `at`; `number` is the
// number of the meter point in force.
ghost use Rattle.std.specs.Prelude.{◌≡◌, ◌*◌, ◌≤◌, length};
ghost use Rattle.meter.specs.Meters.{points_of, len_of};
ghost use Rattle.filler.specs.Numbers.{mark_of, numbered};
ghost use Rattle.filler.specs.Carried.{begins, end_of, start_in, Before, Has};

use beats::{Beat, sums};
use meter::MeterPoint;
use meter::bars::{self, MeterMap};

#[derive(Clone, Copy, Debug, PartialEq, Eq)]
pub struct Segment {
    pub first: u32,
    pub at: Beat,
    pub len: Beat,
    pub number: u64,
}

// The length of the bars of a point's meter.
fn length_of(map: &MeterMap, number: u64) -> Beat
    requires { number * 3 ≤ length map.now.words.now }
    ensures { result ≡ len_of (numbered map.now.words.now map.now.default number) }
{
    if number == 0 {
        return bars::unlisted(map.default).len();
    }
    let i = (number as usize - 1) * 3;
    let words = map.words;
    let meter = MeterPoint {
        bar: words[i],
        numerator: words[i + 1],
        denominator: words[i + 2],
    };
    meter.len()
}

// Whether a bar begins a segment: bar 1 does, and after it each bar that a point is listed for.
fn begins(bar: u32, mark: u64) -> bool
    ensures { result ≡ begins bar mark }
{
    if bar <= 1 { bar == 1 } else { mark > 0 }
}

impl Segment {
    // Bar 0.
    pub fn open(map: &MeterMap) -> Segment
        ensures { Before (points_of map.now.words.now) map.now.default map.now.pickup 0 result }
    {
        Segment {
            first: 0,
            at: Beat::zero(),
            len: map.length(0),
            number: 0,
        }
    }

    // Where the segment ends that the bar follows.
    fn end_before(self, bar: u32) -> Beat
        requires { self.first ≤ bar }
        ensures { result ≡ end_of self bar }
    {
        if self.first == 0 {
            sums::or_most(sums::add(self.at, self.len))
        } else {
            bars::after_bars(self.at, self.len, bar - self.first)
        }
    }

    // The segment that the next bar lies in: a new one where the bar begins one.
    pub fn on_to(self, map: &MeterMap, bar: u32, mark: u64) -> Segment
        requires before { Before (points_of map.now.words.now) map.now.default map.now.pickup bar self }
        requires mark_value { mark ≡ mark_of (points_of map.now.words.now) bar }
        ensures { Has (points_of map.now.words.now) map.now.default map.now.pickup bar result }
    {
        let number = self.number.max(mark);
        if begins(bar, mark) {
            return Segment {
                first: bar,
                at: self.end_before(bar),
                len: length_of(map, number),
                number,
            };
        }
        Segment { number, ..self }
    }

    // Where a bar of the segment starts.
    pub fn start_of(self, bar: u32) -> Beat
        requires { self.first ≤ bar }
        ensures { result ≡ start_in self bar }
    {
        if bar == self.first {
            self.at
        } else {
            bars::after_bars(self.at, self.len, bar - self.first)
        }
    }
}
