// Where the walk over a tempo map stands that was taken to a beat: before the point `next`, at the
// beat `from`, after `secs` seconds, with the tempo `tempo`. The walk for a later beat may go on from
// there.
ghost use Rattle.std.specs.Prelude.{◌≡◌, ◌%◌};
ghost use Rattle.std.specs.Float.Ieee.{to_bits};
ghost use Rattle.std.specs.Float.{binary64};
ghost use Rattle.tempo.specs.Maps.{points};
ghost use Rattle.timeline.specs.Places.{frame_at_beat};
ghost use Rattle.filler.specs.Carried.{Serves, ServesAll, Stopped};

use beats::{Beat, frames};
use tempo::{TempoMap, walks};
use timeline::places;
use transport::Transport;

#[derive(Clone, Copy, Debug, PartialEq)]
pub struct Stand {
    pub beat: f64,
    pub secs: f64,
    pub from: f64,
    pub tempo: f64,
    pub next: usize,
}

// How many walks are kept for the beats that fall behind the latest.
pub const PLACES: usize = 4;

// The place of a beat's walk among them: each is for every fourth float. Rounding puts a start at
// most three floats below one before it, so the beats of a place do not fall, and its walk goes on.
pub fn place_of(beat: f64) -> usize
    ensures { result ≡ to_bits binary64 beat % 4 }
{
    rounding::f64_word(beat) as usize % PLACES
}

impl Stand {
    // The beginning serves every beat.
    pub fn begin(map: &TempoMap) -> Stand
        ensures { ServesAll map.now.nums.now map.now.dens.now map.now.tempos.now result }
    {
        let tempo = if map.is_empty() {
            1.0
        } else {
            walks::tempo_of(map.tempos[0])
        };
        Stand {
            beat: 0.0,
            secs: 0.0,
            from: 0.0,
            tempo,
            next: 1,
        }
    }

    // Where to go on for a beat: from a walk, and where the beat falls behind it, from the beginning.
    pub fn resume(self, map: &TempoMap, beat: f64) -> Stand
        requires { Serves map.now.nums.now map.now.dens.now map.now.tempos.now self.beat self }
        ensures { Serves map.now.nums.now map.now.dens.now map.now.tempos.now beat result }
    {
        if self.beat <= beat {
            return self;
        }
        Stand::begin(map)
    }

    // Past the points that lie before a beat.
    pub fn walk_to(self, map: &TempoMap, beat: f64) -> Stand
        requires { Serves map.now.nums.now map.now.dens.now map.now.tempos.now beat self }
        ensures beat_value { result.beat ≡ beat }
        ensures stopped { Stopped map.now.nums.now map.now.dens.now map.now.tempos.now result }
    {
        let mut stand = Stand { beat, ..self };
        // Stays: a map is three parallel lists, as document 01 and C lend it, and a zip of three from `next`
        // on is no plainer.
        for i in self.next..map.len() {
            let at = frames::float_of(Beat {
                num: map.nums[i],
                den: map.dens[i],
            });
            if beat <= at {
                return stand;
            }
            stand.secs = walks::later(stand.secs, stand.from, at, stand.tempo);
            stand.from = at;
            stand.tempo = walks::tempo_of(map.tempos[i]);
            stand.next = i + 1;
        }
        stand
    }

    // The frame of the beat that the walk was taken to. Where the map has no points there is no walk.
    pub fn frame(self, t: Transport, map: &TempoMap) -> u64
        requires { Stopped map.now.nums.now map.now.dens.now map.now.tempos.now self }
        ensures { result ≡ frame_at_beat t (points map.now) self.beat }
    {
        if map.is_empty() {
            return places::frame_at_beat(t, self.beat, map);
        }
        frames::frames_at(
            walks::later(self.secs, self.from, self.beat, self.tempo),
            t.sample_rate,
        )
    }
}
