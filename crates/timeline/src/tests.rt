// What is tested before a walk: 12 of the transport, then 3, 4 and 1 of the lists, each number for
// all lists before the next.
ghost use Rattle.std.specs.Prelude.{◌≡◌, ℕ, IfOk};
ghost use Rattle.tempo.specs.Answers.{map_test};
ghost use Rattle.timeline.specs.Tests.{rank, worse, words_test, test_of, maps_test, told, handed_by};

use numbers::Refusal;
use tempo::TempoMap;
use transport::{Handed, Transport, change};

// The flat words of a meter map.
// Stays: the wrong edits of words_test turn these lines; meter tests its words together with a pickup.
pub fn words_test(words: &[u32]) -> Result<(), Refusal>
    ensures { result ≡ words_test words.now }
{
    if words.len() % 3 != 0 {
        return Err(Refusal::Uneven);
    }
    if words.len() > meter::MOST_WORDS {
        return Err(Refusal::TooLong);
    }
    Ok(())
}

// How early a refusal of lists comes: 3, then 4, then any other.
fn rank(why: Refusal) -> u8
    ensures { result ≡ rank why }
{
    match why {
        Refusal::Uneven => 0,
        Refusal::TooLong => 1,
        _ => 2,
    }
}

// Of two findings the one whose refusal comes first.
pub fn worse(a: Result<(), Refusal>, b: Result<(), Refusal>) -> Result<(), Refusal>
    ensures { result ≡ worse a b }
{
    match (a, b) {
        (Ok(()), _) => b,
        (_, Ok(())) => a,
        (Err(why), Err(other)) => Err(if rank(why) <= rank(other) { why } else { other }),
    }
}

// 12, then what was found of the lists.
#[tactic(auto, unfolding(crate::specs::Tests::test_of))]
pub fn found(t: Transport, finding: Result<(), Refusal>) -> Result<(), Refusal>
    ensures { result ≡ test_of t finding }
{
    if !t.is_sound() {
        return Err(Refusal::Unsound);
    }
    finding
}

// A transport with a tempo map.
#[tactic(auto, unfolding(crate::specs::Tests::test_of), using(tempo::proofs::Testing::finding, crate::proofs::Testing::tempo_parallel))]
#[inline]
pub fn tempo_test<'a>(
    t: Transport,
    nums: &'a [i64],
    dens: &'a [u32],
    tempos: &'a [u32],
) -> Result<TempoMap<'a>, Refusal>
    ensures test { told result ≡ test_of t (map_test nums.now dens.now tempos.now) }
    ensures lists { IfOk result (λ map. (map.nums.now ≡ nums.now) × (map.dens.now ≡ dens.now) × (map.tempos.now ≡ tempos.now)) }
{
    // first, so that an unsound transport costs no look at its maps
    found(t, Ok(()))?;
    tempo::test(nums, dens, tempos)?;
    Ok(TempoMap { nums, dens, tempos })
}

// A transport with both maps.
#[tactic(auto, unfolding(crate::specs::Tests::maps_test, crate::specs::Tests::test_of), using(tempo::proofs::Testing::finding, crate::proofs::Testing::maps_parallel))]
#[inline]
pub fn maps_test<'a>(
    t: Transport,
    words: &[u32],
    nums: &'a [i64],
    dens: &'a [u32],
    tempos: &'a [u32],
) -> Result<TempoMap<'a>, Refusal>
    ensures test { told result ≡ test_of t (maps_test words.now nums.now dens.now tempos.now) }
    ensures lists { IfOk result (λ map. (map.nums.now ≡ nums.now) × (map.dens.now ≡ dens.now) × (map.tempos.now ≡ tempos.now)) }
{
    // first, as above
    found(t, Ok(()))?;
    worse(words_test(words), tempo::test(nums, dens, tempos))?;
    Ok(TempoMap { nums, dens, tempos })
}

// The new transport; where the change is refused, the old one.
pub fn handed_back(t: Transport, new: Result<Transport, Refusal>) -> Handed<()>
    ensures { result ≡ handed_by t new }
{
    match new {
        Ok(new) => change::done(new),
        Err(why) => change::refused(t, why),
    }
}
