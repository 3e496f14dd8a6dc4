// Lists of a question, and the outputs that are lent to a call.
//
// The words of a list are a part of the question and are not copied. Where a call takes 64-bit
// numbers, they are made of those words in an array that the program lends.
ghost use Rattle.std.specs.Prelude.{◌≡◌, ◌<◌, ◌≤◌, ℕ, length, take, unwrap_or, IfSome};
ghost use Rattle.std.specs.List.{HoldsAt};
ghost use Rattle.asking.specs.Lists.{nowhere, past_of, past_words, past_longs, part_of, words_of, longs_of};
ghost use Rattle.asking.specs.Lists.{u64s_of, i64s_of, marks32, marks64};

use crate::LIST;
use crate::fields::{i64_at, u32_at, u64_at};

// The words from a up to e, or none where q has not all of them.
pub fn part(q: &[u32], a: usize, e: usize) -> &[u32]
    ensures { result.now ≡ part_of q.now a e }
{
    q.get(a..e).unwrap_or(&[])
}

// Past the n words from an index on, where q has all of them.
pub fn past(q: &[u32], at: usize, n: usize) -> Option<usize>
    ensures value { unwrap_or result nowhere ≡ past_of (length q.now) at n }
    ensures within { IfSome result (λ end. end ≤ length q.now) }
{
    let end = at.checked_add(n)?;
    if end <= q.len() { Some(end) } else { None }
}

// Past the list of words whose count is at an index. None too where it has more than `most`.
pub fn past_words(q: &[u32], at: usize, most: usize) -> Option<usize>
    ensures value { unwrap_or result nowhere ≡ past_words q.now at most }
    ensures within { IfSome result (λ end. end ≤ length q.now) }
{
    let n = u32_at(q, at) as usize;
    if n > most {
        return None;
    }
    past(q, past(q, at, 1)?, n)
}

// Past the list of 64-bit numbers whose count is at an index. None too where it has more than LIST.
pub fn past_longs(q: &[u32], at: usize) -> Option<usize>
    ensures value { unwrap_or result nowhere ≡ past_longs q.now at }
    ensures within { IfSome result (λ end. end ≤ length q.now) }
{
    let n = u32_at(q, at) as usize;
    if n > LIST {
        return None;
    }
    past(q, past(q, at, 1)?, n * 2)
}

// The list of words whose count is at an index; none where it is cut.
pub fn words(q: &[u32], at: usize) -> &[u32]
    ensures { result.now ≡ words_of q.now at }
{
    let a = at.saturating_add(1);
    part(q, a, a.saturating_add(u32_at(q, at) as usize))
}

// The words of the list of 64-bit numbers whose count is at an index; none where it is cut.
pub fn longs(q: &[u32], at: usize) -> &[u32]
    ensures { result.now ≡ longs_of q.now at }
{
    let a = at.saturating_add(1);
    part(q, a, a.saturating_add(2 * u32_at(q, at) as usize))
}

// Each element becomes what `f` gives for its index.
fn fill<T: Drop, F: Fn(usize) -> T>(space: &mut [T], f: F)
    requires { (k : ℕ) → k < length space.old → F.pre f k }
    ensures len { length space.new ≡ length space.old }
    ensures each { (k : ℕ) → k < length space.old → HoldsAt (F.post f k) space.new k }
{
    for (k, x) in space.iter_mut().enumerate() {
        *x = f(k);
    }
}

// Space becomes the numbers of a list, by their words; 0 where there are no more.
pub fn u64s(list: &[u32], space: &mut [u64])
    ensures { space.new ≡ u64s_of list.now (length space.old) }
{
    fill(space, |k| u64_at(list, 2 * k));
}

// Space becomes the signed numbers of a list, by their words; 0 where there are no more.
pub fn i64s(list: &[u32], space: &mut [i64])
    ensures { space.new ≡ i64s_of list.now (length space.old) }
{
    fill(space, |k| i64_at(list, 2 * k));
}

// The first n elements of space; all of them where it has fewer.
pub fn lend<T>(space: &mut [T], n: usize) -> &mut [T]
    ensures { result.now ≡ take n space.old }
{
    let n = n.min(space.len());
    &mut space[..n]
}

// Element k of a lent output becomes 0xA5000000 + k, so that a line shows which ones a call wrote.
pub fn mark_u32s(lent: &mut [u32])
    ensures { lent.new ≡ marks32 (length lent.old) }
{
    fill(
        lent,
        |k| 0xa500_0000u32.wrapping_add((k % 0x1_0000_0000) as u32),
    );
}

// Element k of a lent output becomes 0xA5000000 + k, so that a line shows which ones a call wrote.
pub fn mark_u64s(lent: &mut [u64])
    ensures { lent.new ≡ marks64 (length lent.old) }
{
    fill(lent, |k| 0xa500_0000 + k as u64);
}
