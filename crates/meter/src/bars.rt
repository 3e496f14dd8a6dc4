// The meter, the length and the start of a bar, for a map of any words: those that are left over
// behind the last whole point count for nothing.
ghost use Rattle.std.specs.Prelude.{◌≡◌, ◌<◌, true};
ghost use Rattle.std.specs.Iterator.{YieldsFirst, item_count};
ghost use Rattle.meter.specs.Meters.{points_of, fallback, later, meter_at, len_of, bar_len, nearer, next_change};
ghost use Rattle.meter.specs.Fits.{good_den};
ghost use Rattle.meter.specs.Starts.{after_bars, ending, start_of, ascends, opening_of};

use crate::MeterPoint;
use beats::{Beat, sums};

// The points of flat words, first to last.
#[derive(Clone, Copy, Drop)]
pub struct Points<'a> {
    words: &'a [u32],
}

impl<'a> Iterator for Points<'a> {
    type Item = MeterPoint;

    ghost next_gives = { YieldsFirst (λ s. points_of s.words.now) };

    ghost remaining = { item_count (λ s. points_of s.words.now) };

    fn next(&mut self) -> Option<MeterPoint> {
        let [bar, numerator, denominator, rest @ ..] = self.words else {
            return None;
        };
        self.words = rest;
        Some(MeterPoint {
            bar: *bar,
            numerator: *numerator,
            denominator: *denominator,
        })
    }
}

impl<'a> Points<'a> {
    pub fn new(words: &'a [u32]) -> Points<'a>
        ensures { result.words.now ≡ words.now }
    {
        Points { words }
    }
}

// The meter where no point is in force: max(default, 1)/4.
pub fn unlisted(default: u32) -> MeterPoint
    ensures { result ≡ fallback default }
{
    MeterPoint {
        bar: 0,
        numerator: numbers::larger(default, 1),
        denominator: 4,
    }
}

// Whether it is a power of two up to 64.
pub fn good_denominator(denominator: u32) -> bool
    ensures { result ≡ good_den denominator }
{
    if denominator == 0 {
        return false;
    }
    64 % denominator == 0
}

// The point, where it begins at or before the bar, and else `found`.
fn later_point(point: MeterPoint, bar: u32, found: MeterPoint) -> MeterPoint
    ensures { result ≡ later point bar found }
{
    let at = point.bar;
    if at <= bar { point } else { found }
}

impl MeterPoint {
    // 4 * numerator / denominator quarter beats.
    pub fn len(self) -> Beat
        ensures { result ≡ len_of self }
    {
        let n = self.numerator;
        let d = self.denominator;
        Beat::new((n as u64 * 4) as i64, d)
    }
}

// The lesser of `change` and `end` where `change` is above the bar, and else `end`.
fn nearer_change(change: u32, bar: u32, end: u32) -> u32
    ensures { result ≡ nearer change bar end }
{
    if bar < change {
        if change < end { change } else { end }
    } else {
        end
    }
}

// The beat n bars of one length after a beat, each operation turned into (2^63 - 1)/1 where it is
// refused.
pub fn after_bars(at: Beat, len: Beat, n: u32) -> Beat
    ensures { result ≡ after_bars at len n }
{
    sums::or_most(sums::add(at, sums::or_most(sums::mul(len, n as i64, 1))))
}

// The bars from `bar`, which starts at `at`, up to `end`, all of one meter.
fn up_to(at: Beat, meter: MeterPoint, bar: u32, end: u32) -> Beat
    ensures { result ≡ ending bar end meter at }
{
    if bar < end {
        after_bars(at, meter.len(), end - bar)
    } else {
        at
    }
}

// A meter map of flat words, three a point, with the numerator where it lists none and the pickup.
#[derive(Clone, Copy)]
pub struct MeterMap<'a> {
    pub words: &'a [u32],
    pub default: u32,
    pub pickup: Option<Beat>,
}

impl<'a> MeterMap<'a> {
    // The meter in force at a bar: the last listed point that begins at or before it.
    pub fn meter(&self, bar: u32) -> MeterPoint
        ensures { result ≡ meter_at (points_of self.now.words.now) self.now.default bar }
    {
        let mut found = unlisted(self.default);
        for point in Points::new(self.words) {
            found = later_point(point, bar, found);
        }
        found
    }

    // How long a bar lasts: bar 0 the pickup, where there is one, and every other what its meter
    // says.
    pub fn length(&self, bar: u32) -> Beat
        ensures { result ≡ bar_len (points_of self.now.words.now) self.now.default self.now.pickup bar }
    {
        let usual = self.meter(bar).len();
        if bar != 0 {
            return usual;
        }
        crate::pickup_or(self.pickup, usual)
    }

    // The least of `end` and the listed bars above a bar.
    fn next_change(&self, bar: u32, end: u32) -> u32
        ensures { result ≡ next_change (points_of self.now.words.now) bar end }
    {
        let mut least = end;
        for point in Points::new(self.words) {
            least = nearer_change(point.bar, bar, least);
        }
        least
    }

    // Whether each listed bar is at least the one before it.
    fn ascending(&self) -> bool
        ensures { result ≡ ascends 0 (points_of self.now.words.now) }
    {
        let mut low: u32 = 0;
        for point in Points::new(self.words) {
            if point.bar < low {
                return false;
            }
            low = point.bar;
        }
        true
    }

    // What every start of the map begins with.
    pub fn open(&self) -> Opening<'a>
        ensures map { result.map ≡ self.now }
        ensures opened { opening_of (points_of self.now.words.now) self.now.default self.now.pickup ≡ (result.ascending, result.one) }
    {
        // 0 and a length: a sum that nothing refuses, so it is the length in lowest terms
        let Beat { num, den } = self.length(0);
        let one = Beat::new(num, den);
        Opening {
            map: *self,
            ascending: self.ascending(),
            one,
        }
    }

    // The beat at which a bar starts.
    pub fn start(&self, bar: u32) -> Beat
        ensures { result ≡ start_of (points_of self.now.words.now) self.now.default self.now.pickup bar }
    {
        self.open().start(bar)
    }
}

// A map with what every start begins with: whether its bars ascend, and the start of bar 1.
#[derive(Clone, Copy)]
pub struct Opening<'a> {
    pub map: MeterMap<'a>,
    pub ascending: bool,
    pub one: Beat,
    pub ghost opened: { opening_of (points_of map.words.now) map.default map.pickup ≡ (ascending, one) },
}

impl<'a> Opening<'a> {
    // The start of a bar above 0 by segments, whatever the order of the points: each next change is
    // looked for in the whole map.
    fn by_segments(&self, bar: u32) -> Beat
        requires { 0 < bar }
        ensures { result ≡ start_of (points_of self.now.map.words.now) self.now.map.default self.now.map.pickup bar }
    {
        let map = self.map;
        let mut at = self.one;
        let mut from: u32 = 1;
        // Stays: it goes on from change to change of the map, which is no count of turns.
        while from < bar {
            let end = map.next_change(from, bar);
            at = after_bars(at, map.length(from), end - from);
            from = end;
        }
        at
    }

    // The start of a bar above 0 by one pass over a map whose bars ascend.
    fn by_pass(&self, bar: u32) -> Beat
        requires bar_nonzero { 0 < bar }
        requires ascending { self.now.ascending ≡ true }
        ensures { result ≡ start_of (points_of self.now.map.words.now) self.now.map.default self.now.map.pickup bar }
    {
        let mut at = self.one;
        let mut meter = unlisted(self.map.default);
        let mut from: u32 = 1;
        for point in Points::new(self.map.words) {
            if point.bar >= bar {
                return up_to(at, meter, from, bar);
            }
            at = up_to(at, meter, from, point.bar);
            from = numbers::larger(from, point.bar);
            meter = point;
        }
        up_to(at, meter, from, bar)
    }

    // The start of a bar.
    pub fn start(&self, bar: u32) -> Beat
        ensures { result ≡ start_of (points_of self.now.map.words.now) self.now.map.default self.now.map.pickup bar }
    {
        if bar == 0 {
            return Beat::zero();
        }
        if self.ascending {
            self.by_pass(bar)
        } else {
            self.by_segments(bar)
        }
    }
}
