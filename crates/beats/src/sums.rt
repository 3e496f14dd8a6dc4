// Sums, differences, multiples and the order of two numbers num / den, whether they are beats or
// not: the exact products are worked out first, tested for 2, and then reduced.
ghost use Rattle.std.specs.Prelude.{◌≡◌, ◌*◌};
ghost use Rattle.numbers.specs.Exacts.{value_of};
ghost use Rattle.numbers.specs.Refusals.{read};
ghost use Rattle.beats.specs.Sums.{fitted, add_beats, sub_beats, mul_beat, order_of_beats, below_beat, or_most};

use crate::Beat;
use numbers::Refusal;
use numbers::exact::Exact;
use std::cmp::Ordering;

// num / den in lowest terms, or refused by 2 where either, as it stands, does not fit a beat.
fn checked(num: Exact, den: u64) -> Result<Beat, Refusal>
    ensures { read result ≡ fitted (value_of num) den }
{
    if !num.in_i64() {
        return Err(Refusal::Overflow);
    }
    if den > 0xffff_ffff {
        return Err(Refusal::Overflow);
    }
    Ok(Beat::new(num.to_i64(), den as u32))
}

// The product of two denominators.
fn common(d: u32, e: u32) -> u64
    ensures { result ≡ d * e }
{
    d as u64 * e as u64
}

// The exact sum, or 2.
pub fn add(a: Beat, b: Beat) -> Result<Beat, Refusal>
    ensures { read result ≡ add_beats a b }
{
    checked(
        Exact::sum_of_products(a.num, b.den as u64, b.num, a.den as u64),
        common(a.den, b.den),
    )
}

// The exact difference, or 2.
pub fn sub(a: Beat, b: Beat) -> Result<Beat, Refusal>
    ensures { read result ≡ sub_beats a b }
{
    checked(
        Exact::difference_of_products(a.num, b.den as u64, b.num, a.den as u64),
        common(a.den, b.den),
    )
}

// a, scaled by num / den.
pub fn mul(a: Beat, num: i64, den: u32) -> Result<Beat, Refusal>
    ensures { read result ≡ mul_beat a num den }
{
    checked(Exact::product(a.num, num), common(a.den, den))
}

// Where a stands to b.
pub fn order(a: Beat, b: Beat) -> Ordering
    ensures { result ≡ order_of_beats a b }
{
    numbers::exact::order_of_products(a.num, b.den, b.num, a.den)
}

// Whether a is below b.
pub fn below(a: Beat, b: Beat) -> bool
    ensures { result ≡ below_beat a b }
{
    order(a, b).is_lt()
}

// The beat, or (2^63 - 1)/1 for a refusal, as the bar walks take it.
pub fn or_most(answer: Result<Beat, Refusal>) -> Beat
    ensures { result ≡ or_most (read answer) }
{
    answer.unwrap_or(Beat {
        num: 9223372036854775807,
        den: 1,
    })
}
