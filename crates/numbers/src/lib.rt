// Whole numbers for exact music: signs, two's complement, sums and products that stop at the end of 64 bits, and the
// greatest common divisor. Exact products and sums past 64 bits are in `exact`.
#![tactic(auto)]

ghost use Rattle.std.specs.Prelude.{◌≡◌, min, max, ◌+◌, ◌*◌, ◌^◌, ◌-◌, nat_abs};
ghost use Rattle.numbers.specs.Signs.{is_neg, with_sign, to_i64};
ghost use Rattle.numbers.specs.Bits.{signed_of, bits_of};
ghost use Rattle.numbers.specs.Divisor.{gcd_of};

use crate::exact::Wide;

pub mod exact;
pub mod refusal;

pub use refusal::{Miss, Part, Refusal};

const MOST: u64 = 0xffff_ffff_ffff_ffff;

const MOST_SIGNED: u64 = 0x7fff_ffff_ffff_ffff;

// Whether x is below zero.
pub fn negative(x: i64) -> bool
    ensures { result ≡ is_neg x }
{
    x < 0
}

// |x|, of the least i64 too.
pub fn magnitude(x: i64) -> u64
    ensures { result ≡ nat_abs x }
{
    x.unsigned_abs()
}

// The number with this sign and this size, stopped at the ends of an i64.
pub fn signed(neg: bool, size: u64) -> i64
    ensures { result ≡ to_i64 (with_sign neg size) }
{
    if neg {
        if size == 0 {
            0
        } else {
            -1 - smaller(size - 1, MOST_SIGNED) as i64
        }
    } else {
        smaller(size, MOST_SIGNED) as i64
    }
}

// The number that 64 bits are in two's complement.
pub fn as_signed(bits: u64) -> i64
    ensures { result ≡ signed_of bits }
{
    bits.cast_signed()
}

// The 64 bits that a number is in two's complement.
pub fn as_bits(x: i64) -> u64
    ensures { result ≡ bits_of x }
{
    x.cast_unsigned()
}

// The smaller of two numbers.
pub fn smaller(a: u64, b: u64) -> u64
    ensures { result ≡ min a b }
{
    a.min(b)
}

// The larger of two numbers.
pub fn larger(a: u32, b: u32) -> u32
    ensures { result ≡ max a b }
{
    a.max(b)
}

// a + b, or 2^64 - 1 where that is less.
pub fn saturating_add(a: u64, b: u64) -> u64
    ensures { result ≡ min (a + b) (2 ^ 64 - 1) }
{
    a.saturating_add(b)
}

// a * b, or 2^64 - 1 where that is less.
pub fn saturating_mul(a: u64, b: u64) -> u64
    ensures { result ≡ min (a * b) (2 ^ 64 - 1) }
{
    // Stays: std's saturating_mul is no plainer here, and it divides, which these two words do not
    Wide::product(a, b).or_most()
}

// n, or 2^32 - 1 where that is less.
pub fn to_u32(n: u64) -> u32
    ensures { result ≡ min n (2 ^ 32 - 1) }
{
    u32::try_from(n).unwrap_or(u32::MAX)
}

// The greatest common divisor, by recursion on the remainder. A remainder of 1 ends it early: no
// division is left that could change the answer.
pub fn gcd(a: u64, b: u64) -> u64
    ensures { result ≡ gcd_of a b }
{
    if b == 0 {
        return a;
    }
    if b == 1 {
        return 1;
    }
    gcd(b, a % b)
}
