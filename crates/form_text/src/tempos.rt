// A tempo as text: which decimal reads back as its bits, and the digits.
ghost use Rattle.std.specs.Prelude.{◌≡◌, ◌+◌, ◌≤◌, ◌<◌, ◌^◌, length, IfSome};
ghost use Rattle.std.specs.Option.{unwrap_or};
ghost use Rattle.text.specs.Pages.{Appends};
ghost use Rattle.form_text.specs.TempoTexts.{digits_for, reads_back, places_for, digit_byte, last_digits, point_text, tempo_text};

use text::Page;

// 10 to a power.
fn ten(places: u32) -> u32
    requires { places ≤ 4 }
    ensures { (result ≡ 10 ^ places) × (0 < result) }
{
    10u32.pow(places)
}

// The digits to try with so many places.
fn digits_for(bits: u32, places: u32) -> u64
    requires { places ≤ 4 }
    ensures { result ≡ digits_for bits places }
{
    let tempo = rounding::widened(rounding::f32_of(bits));
    let scale = ten(places);
    rounding::round_to_u64(tempo * (scale as f64))
}

// Whether those digits read back as the bits.
fn reads_back(bits: u32, places: u32) -> bool
    requires { places ≤ 4 }
    ensures { result ≡ reads_back bits places }
{
    let digits = digits_for(bits, places);
    if digits >= 16777216 {
        return false;
    }
    spelling::over_ten(digits as u32, places as usize) == bits
}

// The first number of places that reads back.
fn places_for(bits: u32) -> Option<u32>
    ensures value { unwrap_or result 5 ≡ places_for bits }
    ensures few { IfSome result (λ places. places ≤ 4) }
{
    (0..5).find(|places| reads_back(bits, *places))
}

// A digit to a base up to 16.
fn digit_byte(digit: u32) -> u8
    requires { digit < 16 }
    ensures { result ≡ digit_byte digit }
{
    if digit < 10 {
        b'0' + digit as u8
    } else {
        b'a' + (digit - 10) as u8
    }
}

// The last `count` digits of n.
fn last_digits(page: &mut Page, base: u32, count: u32, n: u32)
    requires { (page.old.place + count ≤ length page.old.out.now) × (0 < base) × (base ≤ 16) }
    ensures { Appends (last_digits base count n) page.old page.new }
{
    if count > 0 {
        last_digits(page, base, count - 1, n / base);
        page.byte(digit_byte(n % base));
    }
}

// Digits with so many of them behind the point.
fn point(page: &mut Page, digits: u32, places: u32)
    requires { (page.old.place + 15 ≤ length page.old.out.now) × (places ≤ 4) }
    ensures puts { Appends (point_text digits places) page.old page.new }
    ensures upper_bound { page.new.place ≤ page.old.place + 15 }
{
    page.decimal((digits / ten(places)) as u64);
    if places > 0 {
        page.byte(b'.');
        last_digits(page, 10, places, digits);
    }
}

// A tempo, which has at most 15 bytes.
pub fn tempo(page: &mut Page, bits: u32)
    requires { page.old.place + 15 ≤ length page.old.out.now }
    ensures puts { Appends (tempo_text bits) page.old page.new }
    ensures upper_bound { page.new.place ≤ page.old.place + 15 }
{
    match places_for(bits) {
        Some(places) => point(page, digits_for(bits, places) as u32, places),
        None => {
            page.bytes(b"0x");
            last_digits(page, 16, 8, bits);
        }
    }
}
