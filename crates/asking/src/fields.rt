// The fields of a question, each at the index of its first word.
ghost use Rattle.std.specs.Prelude.{◌≡◌, ◌+◌, ◌*◌, slice_index};
ghost use Rattle.std.specs.Float.Ieee as Ieee;
ghost use Rattle.std.specs.Float.{binary32, binary64};
ghost use Rattle.numbers.specs.Bits.{signed_of};
ghost use Rattle.asking.specs.Fields.{u64_at};

// A word; 0 past the end.
pub fn u32_at(q: &[u32], i: usize) -> u32
    ensures { result ≡ slice_index q.now i }
{
    if i < q.len() { q[i] } else { 0 }
}

// The number of two words.
fn of_halves(low: u32, high: u32) -> u64
    ensures { result ≡ low + 0x1_0000_0000 * high }
{
    low as u64 + 0x1_0000_0000 * (high as u64)
}

// Two words, the lower one first.
pub fn u64_at(q: &[u32], i: usize) -> u64
    ensures { result ≡ u64_at q.now i }
{
    if i < q.len() {
        of_halves(u32_at(q, i), u32_at(q, i + 1))
    } else {
        0
    }
}

// A signed number of two words.
pub fn i64_at(q: &[u32], i: usize) -> i64
    ensures { result ≡ signed_of (u64_at q.now i) }
{
    numbers::as_signed(u64_at(q, i))
}

// A float of one word, its bits.
pub fn f32_at(q: &[u32], i: usize) -> f32
    ensures { result ≡ Ieee.of_bits binary32 (slice_index q.now i) }
{
    rounding::f32_of(u32_at(q, i))
}

// A float of two words, its bits.
pub fn f64_at(q: &[u32], i: usize) -> f64
    ensures { result ≡ Ieee.of_bits binary64 (u64_at q.now i) }
{
    rounding::f64_of(u64_at(q, i))
}
