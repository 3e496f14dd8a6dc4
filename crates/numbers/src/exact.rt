// Exact products of 64 by 64 bits, their sums and their order: a sign and two words, where the
// original has an i128.
ghost use Rattle.std.specs.Prelude.{◌≡◌, min, ◌+◌, ◌-◌, ◌*◌, ◌^◌, ◌<◌, ◌≤◌, ltb, eqb, pos, ◌+ℤ◌, ◌-ℤ◌, ◌*ℤ◌};
ghost use Rattle.std.proofs.Math.IntN.{sub_ℕ};
ghost use Rattle.std.specs.Int.Signed.{lt_z};
ghost use Rattle.numbers.specs.Signs.{is_neg, with_sign, most_of, fits_i64, to_i64};
ghost use Rattle.numbers.specs.Exacts.{size_of, wide_of, value_of, exact_of, order_of};

use crate::MOST;
use std::cmp::Ordering;

// The number hi * 2^64 + lo.
// Stays: docs/DECISIONS.md keeps two words (and below a sign), which document 01 names, where std has an i128 now
#[derive(Clone, Copy, Debug, PartialEq, Eq)]
pub struct Wide {
    pub hi: u64,
    pub lo: u64,
}

// 2^32: half of a word's bits.
const HALF: u64 = 0x1_0000_0000;

impl Wide {
    // The exact product, by columns of 32 bits.
    pub fn product(u: u64, v: u64) -> Wide
        ensures { result ≡ wide_of (u * v) }
    {
        let u0 = u % HALF;
        let u1 = u / HALF;
        let v0 = v % HALF;
        let v1 = v / HALF;
        let w0 = u0 * v0;
        let t = u1 * v0 + w0 / HALF;
        let w1 = t % HALF + u0 * v1;
        Wide {
            hi: u1 * v1 + t / HALF + w1 / HALF,
            lo: w1 % HALF * HALF + w0 % HALF,
        }
    }

    // The sum of two numbers, which fits two words.
    fn plus(self, b: Wide) -> Wide
        requires { size_of self + size_of b < 2 ^ 128 }
        ensures { result ≡ wide_of (size_of self + size_of b) }
    {
        let ah = self.hi;
        let al = self.lo;
        let bh = b.hi;
        let bl = b.lo;
        let room = MOST - bl;
        if al <= room {
            Wide {
                hi: ah + bh,
                lo: al + bl,
            }
        } else {
            Wide {
                hi: ah + bh + 1,
                lo: al - room - 1,
            }
        }
    }

    // What is left of self when b, which is no larger, is taken away.
    fn less(self, b: Wide) -> Wide
        requires { size_of b ≤ size_of self }
        ensures { result ≡ wide_of (size_of self - size_of b) }
    {
        let ah = self.hi;
        let al = self.lo;
        let bh = b.hi;
        let bl = b.lo;
        if bl <= al {
            Wide {
                hi: ah - bh,
                lo: al - bl,
            }
        } else {
            Wide {
                hi: ah - bh - 1,
                lo: al + (MOST - bl) + 1,
            }
        }
    }

    // Whether self is below b.
    // Stays: the wrong edits of Wide::below ("the low words decide first") turn this line, which a derived order has not
    pub fn below(self, b: Wide) -> bool
        ensures { result ≡ ltb (size_of self) (size_of b) }
    {
        let ah = self.hi;
        let al = self.lo;
        let bh = b.hi;
        let bl = b.lo;
        if ah == bh { al < bl } else { ah < bh }
    }

    // Whether self is 0.
    pub fn is_zero(self) -> bool
        ensures { result ≡ eqb (size_of self) 0 }
    {
        let hi = self.hi;
        let lo = self.lo;
        if hi == 0 { lo == 0 } else { false }
    }

    // The number, or 2^64 - 1 where that is less.
    pub fn or_most(self) -> u64
        ensures { result ≡ min (size_of self) (2 ^ 64 - 1) }
    {
        let hi = self.hi;
        let lo = self.lo;
        if hi == 0 { lo } else { MOST }
    }
}

// size, or minus size where neg is set. Every function here that makes one leaves neg of 0 unset.
#[derive(Clone, Copy, Debug, PartialEq, Eq)]
pub struct Exact {
    pub neg: bool,
    pub size: Wide,
}

// p - q.
fn difference(p: Wide, q: Wide) -> Exact
    ensures { result ≡ exact_of (sub_ℕ (size_of p) (size_of q)) }
{
    if p.below(q) {
        Exact::new(true, q.less(p))
    } else {
        Exact::new(false, p.less(q))
    }
}

// The largest magnitude of an i64 with this sign.
fn most(neg: bool) -> u64
    ensures { result ≡ most_of neg }
{
    if neg {
        0x8000_0000_0000_0000
    } else {
        0x7fff_ffff_ffff_ffff
    }
}

impl Exact {
    // The number with this sign and this size.
    pub fn new(neg: bool, size: Wide) -> Exact
        ensures { result ≡ exact_of (with_sign neg (size_of size)) }
    {
        if size.is_zero() {
            Exact { neg: false, size }
        } else {
            Exact { neg, size }
        }
    }

    // x * v, or x * -v where neg is set.
    pub fn times(x: i64, neg: bool, v: u64) -> Exact
        ensures { result ≡ exact_of (x *ℤ with_sign neg v) }
    {
        let size = Wide::product(crate::magnitude(x), v);
        Exact::new(crate::negative(x) != neg, size)
    }

    // The product of two signed numbers.
    pub fn product(x: i64, y: i64) -> Exact
        ensures { result ≡ exact_of (x *ℤ y) }
    {
        Exact::times(x, crate::negative(y), crate::magnitude(y))
    }

    // The sum of two numbers whose sizes' sum fits two words.
    fn plus(self, b: Exact) -> Exact
        requires { size_of self.size + size_of b.size < 2 ^ 128 }
        ensures { result ≡ exact_of (value_of self +ℤ value_of b) }
    {
        let an = self.neg;
        let bn = b.neg;
        let p = self.size;
        let q = b.size;
        if an {
            if bn {
                Exact::new(true, p.plus(q))
            } else {
                difference(q, p)
            }
        } else {
            if bn {
                difference(p, q)
            } else {
                Exact::new(false, p.plus(q))
            }
        }
    }

    // a * b + c * d, or a * b - c * d where neg is set. Two such products never pass two words.
    fn of_products(a: i64, b: u64, c: i64, neg: bool, d: u64) -> Exact
        ensures { result ≡ exact_of (a *ℤ pos b +ℤ c *ℤ with_sign neg d) }
    {
        Exact::times(a, false, b).plus(Exact::times(c, neg, d))
    }

    // a * b + c * d.
    pub fn sum_of_products(a: i64, b: u64, c: i64, d: u64) -> Exact
        ensures { result ≡ exact_of (a *ℤ pos b +ℤ c *ℤ pos d) }
    {
        Exact::of_products(a, b, c, false, d)
    }

    // a * b - c * d.
    pub fn difference_of_products(a: i64, b: u64, c: i64, d: u64) -> Exact
        ensures { result ≡ exact_of (a *ℤ pos b -ℤ c *ℤ pos d) }
    {
        Exact::of_products(a, b, c, true, d)
    }

    // Whether self is below b. Neither is a 0 with a sign.
    fn below(self, b: Exact) -> bool
        requires neg_value { self.neg ≡ is_neg (value_of self) }
        requires neg_value_2 { b.neg ≡ is_neg (value_of b) }
        ensures { result ≡ lt_z (value_of self) (value_of b) }
    {
        let an = self.neg;
        let bn = b.neg;
        let p = self.size;
        let q = b.size;
        if an == bn {
            if an { q.below(p) } else { p.below(q) }
        } else {
            an
        }
    }

    // Whether the number is an i64.
    pub fn in_i64(self) -> bool
        ensures { result ≡ fits_i64 (value_of self) }
    {
        let neg = self.neg;
        let size = self.size;
        size.or_most() <= most(neg)
    }

    // The number, stopped at the ends of an i64.
    pub fn to_i64(self) -> i64
        ensures { result ≡ to_i64 (value_of self) }
    {
        let neg = self.neg;
        let size = self.size;
        crate::signed(neg, size.or_most())
    }
}

// Where a * b stands to c * d.
pub fn order_of_products(a: i64, b: u32, c: i64, d: u32) -> Ordering
    ensures { result ≡ order_of (a *ℤ pos b -ℤ c *ℤ pos d) }
{
    let x = Exact::times(a, false, b as u64);
    let y = Exact::times(c, false, d as u64);
    let less = x.below(y);
    let more = y.below(x);
    if less {
        Ordering::Less
    } else if more {
        Ordering::Greater
    } else {
        Ordering::Equal
    }
}
