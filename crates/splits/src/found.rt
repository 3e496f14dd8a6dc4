// The words of a line.
ghost use Rattle.std.specs.Prelude.{◌≡◌, ◌≤◌, length, drop};
ghost use Rattle.splits.specs.Splits.{words, few, same};
ghost use Rattle.splits.specs.Readings.{read_found};

use crate::scan;

// One word or two, or another number of words.
#[derive(Clone, Copy)]
pub enum Found<'a> {
    One(&'a [u8]),
    Two(&'a [u8], &'a [u8]),
    Other,
}

// The words of a line from a place on.
pub fn words(line: &[u8], from: usize) -> Found<'_>
    requires { from ≤ length line.now }
    ensures { read_found result ≡ few (words (drop from line.now)) }
{
    let first = scan::blanks(line, from);
    if first == line.len() {
        return Found::Other;
    }
    let end = scan::word(line, first);
    let second = scan::blanks(line, end);
    if second == line.len() {
        return Found::One(&line[first..end]);
    }
    let close = scan::word(line, second);
    let third = scan::blanks(line, close);
    if third == line.len() {
        return Found::Two(&line[first..end], &line[second..close]);
    }
    Found::Other
}

// Whether two words have the same bytes.
pub fn same(word: &[u8], key: &[u8]) -> bool
    ensures { result ≡ same word.now key.now }
{
    word == key
}
