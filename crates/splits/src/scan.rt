// Runs of bytes of a kind: each function answers the place behind one.
ghost use Rattle.std.specs.Prelude.{◌≡◌, ◌≤◌, length};
ghost use Rattle.splits.specs.Splits.{blank, inked, other, past};

// Blank, tab or carriage return.
fn is_blank(byte: u8) -> bool
    ensures { result ≡ blank byte }
{
    matches!(byte, b' ' | b'\t' | b'\r')
}

// The next mark from a place on, or the end.
pub fn until(text: &[u8], from: usize, mark: u8) -> usize
    requires { from ≤ length text.now }
    ensures { (result ≡ past (other mark) text.now from) × (from ≤ result) × (result ≤ length text.now) }
{
    match text[from..].iter().position(|byte| *byte == mark) {
        Some(n) => from + n,
        None => text.len(),
    }
}

// The next byte from a place on that is no blank, or the end.
pub fn blanks(text: &[u8], from: usize) -> usize
    requires { from ≤ length text.now }
    ensures { (result ≡ past blank text.now from) × (from ≤ result) × (result ≤ length text.now) }
{
    match text[from..].iter().position(|byte| !is_blank(*byte)) {
        Some(n) => from + n,
        None => text.len(),
    }
}

// The end of the word at a place: the next blank, or the end.
pub fn word(text: &[u8], from: usize) -> usize
    requires { from ≤ length text.now }
    ensures { (result ≡ past inked text.now from) × (from ≤ result) × (result ≤ length text.now) }
{
    match text[from..].iter().position(|byte| is_blank(*byte)) {
        Some(n) => from + n,
        None => text.len(),
    }
}
