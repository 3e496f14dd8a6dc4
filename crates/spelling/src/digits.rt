// Digits, and the number that they are.
ghost use Rattle.std.specs.Prelude.{◌≡◌, ◌≤◌, ◌<◌, SomeIff};
ghost use Rattle.spelling.specs.Words.{digit_of, number_by, some_digits};

// The digit that a byte is, where it is one of the base.
fn digit(byte: u8, base: u32) -> Option<u64>
    requires { (2 ≤ base) × (base ≤ 16) }
    ensures { SomeIff result (digit_of byte < base) (digit_of byte) }
{
    let digit = char::from(byte).to_digit(base)?;
    Some(u64::from(digit))
}

// The number of `front` and, behind it, a word of digits, where it is at most the limit.
pub fn behind(word: &[u8], base: u32, limit: u64, front: u64) -> Option<u64>
    requires { (2 ≤ base) × (base ≤ 16) × (front ≤ limit) }
    ensures { result ≡ number_by base limit front word.now }
{
    let mut n = front;
    for byte in word {
        let digit = digit(*byte, base)?;
        n = n.checked_mul(u64::from(base))?.checked_add(digit)?;
        if n > limit {
            return None;
        }
    }
    Some(n)
}

// The number of at least one decimal digit.
pub fn some(word: &[u8], limit: u64) -> Option<u64>
    ensures { result ≡ some_digits limit word.now }
{
    if word.is_empty() {
        return None;
    }
    behind(word, 10, limit, 0)
}
