// The records of a tempo map.
ghost use Rattle.std.specs.Prelude.{◌≡◌};
ghost use Rattle.std.specs.Float.{binary32};
ghost use Rattle.std.specs.Float.Ieee.{of_bits};
ghost use Rattle.numbers.specs.Refusals.{read};
ghost use Rattle.tempo.specs.Answers.{Walkable};
ghost use Rattle.problems.specs.Problems.{sound_tempo, tempo_bits, is_zero, tempo_problems};
ghost use Rattle.problems.specs.Answers.{walkable_answer, walkable_after};
ghost use Rattle.problems.specs.Passes.{Ready, Passed, listed_at, tempo_first, tempo_later, tempo_at};
ghost use Rattle.problems.specs.Records.{IsReady, Adds, listed_in};

use crate::records::{Code, Records};
use beats::{Beat, sums};
use numbers::Refusal;
use tempo::TempoMap;

// Whether the bits are those of a tempo that is finite and above 0.
fn sound_tempo(bits: u32) -> bool
    ensures { result ≡ sound_tempo (of_bits binary32 bits) }
{
    let tempo = rounding::f32_of(bits);
    0.0 < tempo && tempo < 1.0 / 0.0
}

// The record of a tempo.
fn own(records: &mut Records, index: u32, at: Beat, bits: u32)
    requires { IsReady records.old (tempo_bits index (listed_at at bits)) }
    ensures { Adds records.old (tempo_bits index (listed_at at bits)) records.new }
{
    records.note(!sound_tempo(bits), Code::BadTempo, index, bits);
}

// Whether a beat is 0.
fn is_zero(at: Beat) -> bool
    ensures { result ≡ is_zero at }
{
    at.num == 0
}

// The records of the map and of its first point.
fn first(records: &mut Records, n: u32, at: Beat, bits: u32)
    requires { IsReady records.old (tempo_first n (listed_at at bits)) }
    ensures { Adds records.old (tempo_first n (listed_at at bits)) records.new }
{
    records.note(1024 < n, Code::ManyTempos, 0, n);
    records.note(!is_zero(at), Code::LaterBeat, 0, 0);
    own(records, 0, at, bits);
}

// The records of a later point.
fn later(records: &mut Records, index: u32, before: Beat, at: Beat, bits: u32)
    requires { IsReady records.old (tempo_later index before (listed_at at bits)) }
    ensures { Adds records.old (tempo_later index before (listed_at at bits)) records.new }
{
    own(records, index, at, bits);
    records.note(!sums::below(before, at), Code::NotAbove, index, 0);
}

// The records at a point.
fn point(records: &mut Records, n: u32, index: u32, before: Beat, at: Beat, bits: u32)
    requires { IsReady records.old (tempo_at n index before (listed_at at bits)) }
    ensures { Adds records.old (tempo_at n index before (listed_at at bits)) records.new }
{
    if index == 0 {
        first(records, n, at, bits);
    } else {
        later(records, index, before, at, bits);
    }
}

// A pass over the points: it counts the records, or writes them too.
fn pass(map: &TempoMap, out: &mut [u32], writing: bool) -> u32
    requires map { Walkable map.now.nums.now map.now.dens.now map.now.tempos.now }
    requires ready { Ready writing out.old 0 (tempo_problems (listed_in map.now)) }
    ensures { Passed writing out.old 0 (tempo_problems (listed_in map.now)) out.new result }
{
    let mut records = Records {
        out,
        writing,
        count: 0,
    };
    let n = map.len();
    let mut before = Beat::zero();
    // Stays: no plainer by an iterator, since a turn reads three lists and its index.
    for i in 0..n {
        let at = map.beat(i);
        point(&mut records, n as u32, i as u32, before, at, map.tempos[i]);
        before = at;
    }
    records.count
}

// The problems of a map that can be walked: the records are counted, and where there are some, and
// room for them, written.
pub fn list(map: &TempoMap, out: &mut [u32]) -> Result<u32, Refusal>
    requires { Walkable map.now.nums.now map.now.dens.now map.now.tempos.now }
    ensures answer { read result ≡ walkable_answer map.now.nums.now map.now.dens.now map.now.tempos.now out.old }
    ensures words { out.new ≡ walkable_after map.now.nums.now map.now.dens.now map.now.tempos.now out.old }
{
    // Stays: the same questions as in `meter_map_problems`; a function over the pass is no plainer, as
    // it takes a closure over the lent words and a ghost list of problems that each caller picks.
    let count = pass(map, out, false);
    if count as usize > out.len() / 3 {
        return Err(Refusal::NoRoom);
    }
    if count == 0 {
        return Ok(0);
    }
    Ok(pass(map, out, true))
}
