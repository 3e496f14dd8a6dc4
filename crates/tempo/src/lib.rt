// Tempo maps: seconds at a beat, the tempo at a beat, and the beat at a second. These are the calls,
// which are lent a map as three lists, with their refusals, 3, 4, 1 and 5 in this order; crates above
// take a `TempoMap`, which has the walks as methods.
#![tactic(auto)]

ghost use Rattle.std.specs.Prelude.{◌≡◌};
ghost use Rattle.numbers.specs.Refusals.{read};
ghost use Rattle.tempo.specs.Answers.{test_answer, seconds_answer, tempo_answer, beat_answer};

use numbers::Refusal;

pub mod map;
pub mod walks;

pub use map::TempoMap;

// Whether a map can be walked: 3, 4 and 1 in this order.
#[tactic(auto, using(crate::proofs::Testing::uneven))]
pub fn test(nums: &[i64], dens: &[u32], tempos: &[u32]) -> Result<(), Refusal>
    ensures { read result ≡ test_answer nums.now dens.now tempos.now }
{
    TempoMap::new(nums, dens, tempos)?.test()
}

// The seconds at a beat.
#[tactic(auto, using(crate::proofs::Testing::uneven))]
pub fn tempo_map_seconds_at(
    nums: &[i64],
    dens: &[u32],
    tempos: &[u32],
    beat: f64,
) -> Result<f64, Refusal>
    ensures { read result ≡ seconds_answer nums.now dens.now tempos.now beat }
{
    let map = TempoMap::new(nums, dens, tempos)?;
    map.test()?;
    if map.is_empty() {
        return Err(Refusal::EmptyMap);
    }
    Ok(map.seconds_at(beat))
}

// The tempo at a beat, in beats a minute.
#[tactic(auto, using(crate::proofs::Testing::uneven))]
pub fn tempo_map_bpm_at(
    nums: &[i64],
    dens: &[u32],
    tempos: &[u32],
    beat: f64,
) -> Result<f64, Refusal>
    ensures { read result ≡ tempo_answer nums.now dens.now tempos.now beat }
{
    let map = TempoMap::new(nums, dens, tempos)?;
    map.test()?;
    if map.is_empty() {
        return Err(Refusal::EmptyMap);
    }
    Ok(map.tempo_at(beat))
}

// The beat at a second.
#[tactic(auto, using(crate::proofs::Testing::uneven))]
pub fn tempo_map_beat_at_seconds(
    nums: &[i64],
    dens: &[u32],
    tempos: &[u32],
    seconds: f64,
) -> Result<f64, Refusal>
    ensures { read result ≡ beat_answer nums.now dens.now tempos.now seconds }
{
    let map = TempoMap::new(nums, dens, tempos)?;
    map.test()?;
    if map.is_empty() {
        return Err(Refusal::EmptyMap);
    }
    Ok(map.beat_at(seconds))
}
