// Notes made from numbers: their places are worked out one by one, so that a pattern costs its notes
// and not its steps.
ghost use Rattle.std.specs.Prelude.{◌≡◌, ℕ, ◌*◌, ◌<◌, ◌≤◌, ◌++◌, length, drop};
ghost use Rattle.notes.specs.Notes.{words_of};
ghost use Rattle.numbers.specs.Lists.{entries};
ghost use Rattle.rhythm.specs.Makes.{hit, Places, pulse_step, tuplet_step};

use notes::{Note, words};

// The least step that is not below k * steps / pulses.
pub fn pulse(k: u32, pulses: u32, steps: u32) -> u32
    requires { (k < pulses) × (pulses ≤ steps) }
    ensures { result ≡ pulse_step pulses steps k }
{
    let p = pulses as u64;
    ((k as u64 * steps as u64 + (p - 1)) / p) as u32
}

// The step nearest to k * steps / count, halves going up.
pub fn nearest(k: u32, count: u32, steps: u32) -> u32
    requires { k < count }
    ensures { result ≡ tuplet_step count steps k }
{
    let c = count as u64;
    let n = k as u64 * steps as u64;
    let left = n % c;
    if left * 2 < c {
        return numbers::to_u32(n / c);
    }
    numbers::to_u32(n / c + 1)
}

// Writes `count` notes at full gain to the front of out, each where `place` says.
pub fn fill<F: Fn(u32) -> u32>(count: u32, place: F, len: u32, tag: u32, out: &mut [u32])
    requires ready { (k : ℕ) → k < count → F.pre place k }
    requires room { 4 * count ≤ length out.old }
    ensures { (at : ℕ → ℕ) → Places count (F.post place) at → out.new ≡ words_of (entries (λ k. hit len tag (at k)) 0 count) ++ drop (4 * count) out.old }
{
    let long = len.max(1);
    for k in 0..count {
        let n = Note {
            step: place(k),
            len: long,
            gain: 0x3f80_0000,
            tag,
        };
        words::put_note(out, 4 * k as usize, n);
    }
}
