// Words and numbers in bytes, the lowest byte first.
ghost use Rattle.std.specs.Prelude.{◌≡◌, ℕ, ◌^◌, ◌++◌, ◌+◌, ◌*◌, ◌≤◌, ◌<◌, length, drop};
ghost use Rattle.score.specs.Bytes.{word_at, number_at, each, Reads};

fn wide(byte: u8) -> u32
    ensures { (result ≡ byte) × (result < 256) }
{
    byte as u32
}

// The word of the four bytes from a place on.
pub fn word_at(bytes: &[u8], place: usize) -> u32
    requires { place + 4 ≤ length bytes.now }
    ensures { result ≡ word_at bytes.now place }
{
    let a = wide(bytes[place]);
    let b = wide(bytes[place + 1]);
    let c = wide(bytes[place + 2]);
    let d = wide(bytes[place + 3]);
    a + b * 256 + c * 65536 + d * 16777216
}

// The number of the two words from a place on.
pub fn number_at(bytes: &[u8], place: usize) -> i64
    requires { place + 8 ≤ length bytes.now }
    ensures { result ≡ number_at bytes.now place }
{
    let low = word_at(bytes, place);
    let high = word_at(bytes, place + 4);
    numbers::as_signed(low as u64 + high as u64 * 4294967296)
}

// Copies what `read` gives at `count` places, the first at a place and each `step` behind the one before
// it.
fn copy_each<T: Copy, F: Fn(usize) -> T>(
    read: F,
    place: usize,
    step: usize,
    count: usize,
    out: &mut [T],
)
    requires ready { (k : ℕ) → k < count → F.pre read (place + step * k) }
    requires room { count ≤ length out.old }
    requires bound { place + step * count < 2 ^ 64 }
    ensures { (at : ℕ → T) → Reads count place step (F.post read) at → out.new ≡ each at place step count ++ drop count out.old }
{
    // Stays: the place that is read is worked out from k, so an iterator over `out` would be numbered for it.
    for k in 0..count {
        out[k] = read(place + step * k);
    }
}

// Copies `count` words, `step` bytes apart, the first at a place.
pub fn copy_words(bytes: &[u8], place: usize, step: usize, count: usize, out: &mut [u32])
    requires { (step ≤ 16) × (place + step * count + 4 ≤ length bytes.now + step) × (length bytes.now ≤ 65536) × (count ≤ length out.old) }
    ensures { out.new ≡ each (word_at bytes.now) place step count ++ drop count out.old }
{
    copy_each(|p| word_at(bytes, p), place, step, count, out);
}

// Copies `count` numbers, 16 bytes apart, the first at a place.
pub fn copy_numbers(bytes: &[u8], place: usize, count: usize, out: &mut [i64])
    requires { (place + 16 * count ≤ length bytes.now) × (count ≤ length out.old) }
    ensures { out.new ≡ each (number_at bytes.now) place 16 count ++ drop count out.old }
{
    copy_each(|p| number_at(bytes, p), place, 16, count, out);
}
