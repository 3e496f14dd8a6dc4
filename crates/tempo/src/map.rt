// A tempo map: three parallel lists, of the points' numerators, denominators and tempos, each tempo
// by its bits.
ghost use Rattle.tempo.specs.Tempos.{Parallel};

use crate::walks::{beat_after, later, tempo_of};
use beats::{Beat, frames};
use numbers::Refusal;

// The lists are of one length.
// Stays: three lists and no list of points, as document 01 has a map (`tempo_map_seconds_at` and the
// calls above are lent them so).
#[derive(Clone, Copy)]
pub struct TempoMap<'a> {
    pub nums: &'a [i64],
    pub dens: &'a [u32],
    pub tempos: &'a [u32],
    pub ghost parallel: { Parallel nums.now dens.now tempos.now },
}

impl<'a> TempoMap<'a> {
    ghost use Rattle.std.specs.Prelude.{◌≡◌, ◌<◌, length, eqb, IfOk, IfErr, get_or, pos};
    ghost use Rattle.numbers.specs.Refusals.{read};
    ghost use Rattle.tempo.specs.Tempos.{whole_walk, seconds_at_beat, tempo_at_beat, beat_at_seconds};
    ghost use Rattle.tempo.specs.Answers.{all_beats, test_answer};
    ghost use Rattle.tempo.specs.Maps.{points, beat_of, Decides, Gives};

    // A map of three lists; 3 where they are of unlike length.
    pub fn new(nums: &'a [i64], dens: &'a [u32], tempos: &'a [u32]) -> Result<TempoMap<'a>, Refusal>
        ensures even { IfOk result (λ map. (map.nums.now ≡ nums.now) × (map.dens.now ≡ dens.now) × (map.tempos.now ≡ tempos.now)) }
        ensures uneven { IfErr result (λ why. (why ≡ Refusal.Uneven) × (Parallel nums.now dens.now tempos.now → ⊥)) }
    {
        if dens.len() != nums.len() || tempos.len() != nums.len() {
            return Err(Refusal::Uneven);
        }
        Ok(TempoMap { nums, dens, tempos })
    }

    pub fn len(&self) -> usize
        ensures { result ≡ length self.now.nums.now }
    {
        self.nums.len()
    }

    pub fn is_empty(&self) -> bool
        ensures { result ≡ eqb (length self.now.nums.now) 0 }
    {
        self.nums.is_empty()
    }

    // Whether each numerator with its denominator is a beat.
    fn all_beats(&self) -> bool
        ensures { result ≡ all_beats self.now.nums.now self.now.dens.now }
    {
        self.nums
            .iter()
            .zip(self.dens)
            .all(|(&num, &den)| Beat { num, den }.is_beat())
    }

    // Whether the map can be walked: 4 and 1 in this order.
    pub fn test(&self) -> Result<(), Refusal>
        ensures { read result ≡ test_answer self.now.nums.now self.now.dens.now self.now.tempos.now }
    {
        if self.len() > 65536 {
            return Err(Refusal::TooLong);
        }
        if !self.all_beats() {
            return Err(Refusal::NotBeat);
        }
        Ok(())
    }

    // The beat of a point.
    pub fn beat(&self, i: usize) -> Beat
        requires { i < length self.now.nums.now }
        ensures { result ≡ beat_of (get_or self.now.nums.now i (pos 0)) (get_or self.now.dens.now i 0) }
    {
        Beat {
            num: self.nums[i],
            den: self.dens[i],
        }
    }

    // The walk over the points: `stop`, of a point's beat and of the seconds there, says whether it
    // ends before that point; `answer`, of the seconds, the beat and the tempo where it stands, is its
    // answer.
    fn walk<S: Fn(f64, f64) -> bool, A: Fn(f64, f64, f64) -> f64>(&self, stop: S, answer: A) -> f64
        requires some { 0 < length self.now.nums.now }
        requires stops { S.IsAlwaysCallable stop }
        requires answers { A.IsAlwaysCallable answer }
        ensures { (ends : _) (gives : _) → Decides (S.post stop) ends → Gives (A.post answer) gives → result ≡ whole_walk ends gives (points self.now) }
    {
        let mut secs: f64 = 0.0;
        let mut from: f64 = 0.0;
        let mut tempo: f64 = tempo_of(self.tempos[0]);
        // Stays: no plainer by an iterator, since a turn reads three lists, which a zip of zips with a
        // skip would take apart again.
        for i in 1..self.len() {
            let at = frames::float_of(self.beat(i));
            let there = later(secs, from, at, tempo);
            if stop(at, there) {
                return answer(secs, from, tempo);
            }
            secs = there;
            from = at;
            tempo = tempo_of(self.tempos[i]);
        }
        answer(secs, from, tempo)
    }

    // The seconds at a beat.
    pub fn seconds_at(&self, beat: f64) -> f64
        requires { 0 < length self.now.nums.now }
        ensures { result ≡ seconds_at_beat (points self.now) beat }
    {
        self.walk(
            |at, _| beat <= at,
            |secs, from, tempo| later(secs, from, beat, tempo),
        )
    }

    // The tempo in force at a beat.
    pub fn tempo_at(&self, beat: f64) -> f64
        requires { 0 < length self.now.nums.now }
        ensures { result ≡ tempo_at_beat (points self.now) beat }
    {
        self.walk(|at, _| beat < at, |_, _, tempo| tempo)
    }

    // The beat at a second.
    pub fn beat_at(&self, seconds: f64) -> f64
        requires { 0 < length self.now.nums.now }
        ensures { result ≡ beat_at_seconds (points self.now) seconds }
    {
        self.walk(
            |_, there| seconds < there,
            |secs, from, tempo| beat_after(seconds, secs, from, tempo),
        )
    }
}
