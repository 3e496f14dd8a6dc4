// Tempos, by decimal digits with a point or without, or by their bits.
ghost use Rattle.std.specs.Prelude.{◌≡◌, ◌^◌, ◌≤◌, pos};
ghost use Rattle.std.specs.Float.Ieee as Ieee;
ghost use Rattle.std.specs.Float.{binary32};
ghost use Rattle.spelling.specs.Words.{quotient, behind_point, decimal_tempo, bits_tempo, is_bits, tempo_of};

use crate::digits;
use splits::scan;

// 10^places, which a binary32 holds exactly up to 10^10.
fn ten_to(places: usize) -> f32
    requires { places ≤ 10 }
    ensures { result ≡ Ieee.of_int binary32 (pos (10 ^ places)) }
{
    match places {
        0 => 1.0,
        1 => 10.0,
        2 => 100.0,
        3 => 1000.0,
        4 => 10000.0,
        5 => 100000.0,
        6 => 1000000.0,
        7 => 10000000.0,
        8 => 100000000.0,
        9 => 1000000000.0,
        _ => 10000000000.0,
    }
}

// The bits of n / 10^places: one division, of two floats that are exact where n is below 2^24.
pub fn over_ten(n: u32, places: usize) -> u32
    requires { places ≤ 10 }
    ensures { result ≡ quotient n places }
{
    rounding::f32_word(std::num::nearest_u32_to_f32(n) / ten_to(places))
}

// The tempo whose digits before the point are a number, and whose digits behind it are a word.
fn behind_point(front: u64, word: &[u8]) -> Option<u32>
    requires { front ≤ 16777215 }
    ensures { result ≡ behind_point front word.now }
{
    let places = word.len();
    if places == 0 || places > 10 {
        return None;
    }
    let n = digits::behind(word, 10, 0xff_ffff, front)?;
    Some(over_ten(n as u32, places))
}

// `digits` or `digits.digits`.
fn decimal(word: &[u8]) -> Option<u32>
    ensures { result ≡ decimal_tempo word.now }
{
    let point = scan::until(word, 0, b'.');
    let front = digits::some(&word[..point], 0xff_ffff)?;
    if point < word.len() {
        behind_point(front, &word[point + 1..])
    } else {
        Some(over_ten(front as u32, 0))
    }
}

// Whether a word has ten bytes and begins with `0x`.
fn is_bits(word: &[u8]) -> bool
    ensures { result ≡ is_bits word.now }
{
    word.len() == 10 && word.starts_with(b"0x")
}

// The bits that hexadecimal digits say.
fn bits(word: &[u8]) -> Option<u32>
    ensures { result ≡ bits_tempo word.now }
{
    let n = digits::behind(word, 16, 0xffff_ffff, 0)?;
    Some(n as u32)
}

pub fn tempo(word: &[u8]) -> Option<u32>
    ensures { result ≡ tempo_of word.now }
{
    if is_bits(word) {
        bits(&word[2..])
    } else {
        decimal(word)
    }
}
