// A score beside the points that it counts.
ghost use Rattle.std.specs.Prelude.{◌≤◌};

use crate::Score;
use meter::bars::MeterMap;
use tempo::TempoMap;

// The points of both maps, from the front of arrays that hold the largest file's.
#[derive(Drop)]
pub struct Points {
    // bar, numerator and denominator of each meter point
    pub meter: [u32; 768],
    // of each tempo point
    pub nums: [i64; 1024],
    pub dens: [u32; 1024],
    pub bpms: [u32; 1024],
}

impl Points {
    ghost use Rattle.std.specs.Prelude.{◌≡◌};
    ghost use Rattle.score.specs.Answers.{no_points};

    // All 0.
    pub fn new() -> Points
        ensures { result ≡ no_points }
    {
        Points {
            meter: [0; 768],
            nums: [0; 1024],
            dens: [0; 1024],
            bpms: [0; 1024],
        }
    }
}

// A score whose points the lists hold.
#[derive(Clone, Copy)]
pub struct Music<'a> {
    pub score: Score,
    pub points: &'a Points,
    pub ghost few_meters: { score.meters ≤ 256 },
    pub ghost few_tempos: { score.tempos ≤ 1024 },
}

impl<'a> Music<'a> {
    ghost use Rattle.std.specs.Prelude.{◌≡◌, ◌*◌, take, length};

    // The meter points that count, three words each.
    pub fn meter(self) -> &'a [u32]
        ensures words { result.now ≡ take (3 * self.entry.score.meters) self.entry.points.now.meter }
        ensures count { length result.now ≡ 3 * self.entry.score.meters }
    {
        let count = 3 * self.score.meters;
        &self.points.meter[..count]
    }

    // The meter map of the points that count, with the score's beats a bar and its pickup.
    pub fn meter_map(self) -> MeterMap<'a>
        ensures words { result.words.now ≡ take (3 * self.entry.score.meters) self.entry.points.now.meter }
        ensures default { result.default ≡ self.entry.score.beats }
        ensures pickup { result.pickup ≡ self.entry.score.pickup }
    {
        MeterMap {
            words: self.meter(),
            default: self.score.beats,
            pickup: self.score.pickup,
        }
    }

    // The tempo points that count.
    pub fn tempo_map(self) -> TempoMap<'a>
        ensures nums { result.nums.now ≡ take self.entry.score.tempos self.entry.points.now.nums }
        ensures dens { result.dens.now ≡ take self.entry.score.tempos self.entry.points.now.dens }
        ensures tempos { result.tempos.now ≡ take self.entry.score.tempos self.entry.points.now.bpms }
        ensures count { length result.nums.now ≡ self.entry.score.tempos }
    {
        let count = self.score.tempos;
        TempoMap {
            nums: &self.points.nums[..count],
            dens: &self.points.dens[..count],
            tempos: &self.points.bpms[..count],
        }
    }
}
