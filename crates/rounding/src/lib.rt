// Floats worked out from their bits: the sign, rounding half away from zero, the casts that stop at
// a width's ends, flooring, a maximum, and floats as words; with them clamp and widening. Every
// function answers every input, NaNs and infinities included, and its contract is one equation.
#![tactic(auto)]

ghost use Rattle.std.specs.Prelude.{◌≡◌, if◌then◌else◌};
ghost use Rattle.std.specs.Float.Ieee as Ieee;
ghost use Rattle.std.specs.Float.{binary32, binary64};
ghost use Rattle.rounding.specs.Floats.{is_negative, without_sign, round_away, floor_of, place_of, maximum, clamp};

// The sign and the size, from the bits.

// Whether x has a minus sign, as -0 has. A NaN has none.
pub fn negative(x: f64) -> bool
    ensures { result ≡ is_negative x }
{
    f64_word(x) > 0x7fff_ffff_ffff_ffff
}

// The size of x as a whole number, the nearest with halves going up, or cut: 2^64 - 1 where it is
// too large, and 0 for a NaN. Every rounding and every cut reads the bits here, since adding 0.5 as
// a float and cutting would take 0.49999999999999994 to 1.
pub fn whole_size(x: f64, nearest: bool) -> u64
    ensures { result ≡ Ieee.to_unsigned 64 (without_sign (if nearest then round_away x else x)) }
{
    if x.is_nan() {
        return 0;
    }
    // the size is `digits` * 2 ^ (`exponent` - 1075), unless the exponent is 0 or 2047
    let bits: u64 = x.to_bits() & 0x7fff_ffff_ffff_ffff;
    let exponent: u64 = bits >> 52;
    let digits: u64 = (bits & 0xf_ffff_ffff_ffff) | 0x10_0000_0000_0000;
    if exponent < 1022 {
        return 0;
    }
    if exponent > 1086 {
        return 0xffff_ffff_ffff_ffff;
    }
    if exponent <= 1075 {
        // for the nearest: twice the size, cut, then one more half, and halved
        let half: u64 = nearest as u64;
        (((digits << half) >> (1075 - exponent)) + half) >> half
    } else {
        digits << (exponent - 1075)
    }
}

// Rounding: the nearest whole number, halves away from zero.

// `x.round().max(0.0) as u64`: below 0 and for a NaN 0, too large 2^64 - 1.
pub fn round_to_u64(x: f64) -> u64
    ensures { result ≡ Ieee.to_unsigned 64 (round_away x) }
{
    if negative(x) { 0 } else { whole_size(x, true) }
}

// `x.round() as i64`.
pub fn round_to_i64(x: f64) -> i64
    ensures { result ≡ Ieee.to_signed 63 (round_away x) }
{
    numbers::signed(negative(x), whole_size(x, true))
}

// `x.round() as u32`.
pub fn round_to_u32(x: f32) -> u32
    ensures { result ≡ Ieee.to_unsigned 32 (round_away x) }
{
    numbers::to_u32(round_to_u64(widened(x)))
}

// Casts: towards zero.

// `x as u64`.
pub fn cut_to_u64(x: f64) -> u64
    ensures { result ≡ Ieee.to_unsigned 64 x }
{
    if negative(x) { 0 } else { whole_size(x, false) }
}

// `x as u32`.
pub fn cut_to_u32(x: f64) -> u32
    ensures { result ≡ Ieee.to_unsigned 32 x }
{
    numbers::to_u32(cut_to_u64(x))
}

// `x.floor()`. A float of 2^53 and more has no fraction. With a minus a fraction is left where the
// bits are not those of the whole part.
pub fn floor(x: f64) -> f64
    ensures { result ≡ floor_of binary64 x }
{
    if x.is_nan() {
        return x;
    }
    let n: u64 = whole_size(x, false);
    if n > 0x1f_ffff_ffff_ffff {
        return x;
    }
    let whole: f64 = std::num::nearest_u64_to_f64(n);
    if negative(x) {
        if f64_word(x) == f64_word(-whole) {
            x
        } else {
            -std::num::nearest_u64_to_f64(n + 1)
        }
    } else {
        whole
    }
}

// Picks: a NaN goes as document 01 says, whichever side it stands on. A maximum is taken by the
// bits, a clamp by the comparisons of IEEE 754.

// Where x stands in the order of all floats: a NaN before all, 0 and -0 together in the middle.
fn place(x: f64) -> u64
    ensures { result ≡ place_of binary64 x }
{
    if x.is_nan() {
        return 0;
    }
    // 2^63 is the middle, and the sign's place in the bits
    let bits: u64 = x.to_bits();
    if bits > 0x7fff_ffff_ffff_ffff {
        0x8000_0000_0000_0000 - (bits - 0x8000_0000_0000_0000)
    } else {
        0x8000_0000_0000_0000 + bits
    }
}

// `x.max(y)`: a NaN gives the other side.
pub fn max_f64(x: f64, y: f64) -> f64
    ensures { result ≡ maximum x y }
{
    if place(x) < place(y) { y } else { x }
}

// `x.clamp(low, high)`: NaN and -0 stay. Where Rust panics, the definition's answer stands.
// Stays: std's clamp asks for bounds in order, and one for both formats would need a trait that states their comparisons again, which is
// no plainer than these two tests
pub fn clamp_f32(x: f32, low: f32, high: f32) -> f32
    ensures { result ≡ clamp x low high }
{
    if x < low {
        low
    } else if x > high {
        high
    } else {
        x
    }
}

// `x.clamp(low, high)`: NaN and -0 stay. Where Rust panics, the definition's answer stands.
pub fn clamp_f64(x: f64, low: f64, high: f64) -> f64
    ensures { result ≡ clamp x low high }
{
    if low > x {
        low
    } else if high < x {
        high
    } else {
        x
    }
}

// Formats: the same value in another form.

// `x as f64`: the same value, and a NaN for a NaN.
pub fn widened(x: f32) -> f64
    ensures { result ≡ x }
{
    std::num::f32_to_f64_with_nan(x)
}

// Stays: from_bits and to_bits of f32 and f64 are of no trait, so one function for both formats, here and for the words below, would have
// a trait with the masks, the two calls and their laws twice, and is no plainer than a test and a call
// The float whose bits are w. Any NaN's bits give a NaN.
pub fn f32_of(w: u32) -> f32
    ensures { result ≡ Ieee.of_bits binary32 w }
{
    if w & 0x7fff_ffff > 0x7f80_0000 {
        0.0 / 0.0
    } else {
        f32::from_bits(w)
    }
}

// The bits of x. A NaN is written 0x7FC00000.
pub fn f32_word(x: f32) -> u32
    ensures { result ≡ Ieee.to_bits binary32 x }
{
    if x.is_nan() { 0x7fc0_0000 } else { x.to_bits() }
}

// The float whose bits are w. Any NaN's bits give a NaN.
pub fn f64_of(w: u64) -> f64
    ensures { result ≡ Ieee.of_bits binary64 w }
{
    if w & 0x7fff_ffff_ffff_ffff > 0x7ff0_0000_0000_0000 {
        0.0 / 0.0
    } else {
        f64::from_bits(w)
    }
}

// The bits of x. A NaN is written 0x7FF8000000000000.
pub fn f64_word(x: f64) -> u64
    ensures { result ≡ Ieee.to_bits binary64 x }
{
    if x.is_nan() {
        0x7ff8_0000_0000_0000
    } else {
        x.to_bits()
    }
}
