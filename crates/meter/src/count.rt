// Bars elapsed at a beat: a bar that reaches the beat is found by doubling, and the first one by
// halving.
ghost use Rattle.std.specs.Prelude.{◌≡◌};
ghost use Rattle.meter.specs.Meters.{points_of};
ghost use Rattle.meter.specs.Counts.{doubling, halving, reaches, count_at};

use crate::bars::{MeterMap, Opening};
use beats::{Beat, sums};

impl<'a> Opening<'a> {
    // Whether a bar starts at or after a beat.
    fn reaches(&self, beat: Beat, bar: u32) -> bool
        ensures { result ≡ reaches (points_of self.now.map.words.now) self.now.map.default self.now.map.pickup beat bar }
    {
        !sums::below(self.start(bar), beat)
    }

    // The bar at which doubling from 1 ends, since its start reaches the beat; none up to 2^31 does.
    fn upper_bar(&self, beat: Beat) -> Option<u32>
        ensures { result ≡ doubling (reaches (points_of self.now.map.words.now) self.now.map.default self.now.map.pickup beat) 32 1 }
    {
        let mut hi: u32 = 1;
        // Stays: a loop that yields its upper bar by break is a form that docs/DECISIONS.md names.
        loop {
            if self.reaches(beat, hi) {
                break Some(hi);
            }
            if hi >= 0x8000_0000 {
                break None;
            }
            hi *= 2;
        }
    }

    // The first bar up to `upper` that reaches the beat.
    fn first_bar(&self, beat: Beat, upper: u32) -> u32
        ensures { result ≡ halving (reaches (points_of self.now.map.words.now) self.now.map.default self.now.map.pickup beat) 32 0 upper }
    {
        let mut lo: u32 = 0;
        let mut hi = upper;
        // Stays: it halves a range of bars, which are in no list for std's search.
        while lo + 1 < hi {
            let mid = lo + (hi - lo) / 2;
            if self.reaches(beat, mid) {
                hi = mid;
            } else {
                lo = mid;
            }
        }
        hi
    }
}

impl<'a> MeterMap<'a> {
    // How many bars have gone by at a beat.
    pub fn elapsed(&self, beat: Beat) -> u32
        ensures { result ≡ count_at (points_of self.now.words.now) self.now.default self.now.pickup beat }
    {
        if !sums::below(Beat::zero(), beat) {
            return 0;
        }
        let opening = self.open();
        match opening.upper_bar(beat) {
            Some(hi) => opening.first_bar(beat, hi),
            None => 0xffff_ffff,
        }
    }
}
