// Answers questions about score files: op 70 of docs/QUESTIONS.md. It reads questions from standard
// input and writes a line for each.
#![tactic(auto)]

use asking::Answers;
use std::io;

// The most bytes of a file that is asked.
const FILE: usize = 65536;

const BAD_FILE: u64 = 13;

// Puts the bytes of the words at the start of `bytes`, the lowest of each first, as far as there is
// room.
fn unpack(words: &[u32], bytes: &mut [u8; FILE]) {
    for (k, word) in words.iter().enumerate() {
        let [a, b, c, d] = word.to_le_bytes();
        if k < FILE / 4 {
            bytes[4 * k] = a;
            bytes[4 * k + 1] = b;
            bytes[4 * k + 2] = c;
            bytes[4 * k + 3] = d;
        }
    }
}

// The number of the refusal where the text is `refused 13`, and 0 where it is a sheet, which begins
// with `bar`.
fn number(text: &[u8; 1024]) -> u64 {
    if text[0] == b'r' { BAD_FILE } else { 0 }
}

// The line of a file: its number, and the bytes that are printed for it.
fn sheet(file: &[u8], out: &mut Answers) -> io::Result<()> {
    let mut text = [0u8; 1024];
    let n = sheet_text::sheet_of(file, &mut text);
    asking::first(out, number(&text))?;
    asking::more_all(out, &text[..n])?;
    asking::end_line(out)
}

// 70: a count of bytes, and the bytes, four a word.
fn ask_sheet(q: &[u32], bytes: &mut [u8; FILE], out: &mut Answers) -> io::Result<()> {
    let count = asking::u32_at(q, 0) as usize;
    if count > FILE || asking::past(q, 1, count.div_ceil(4)) != Some(q.len()) {
        return asking::unknown(out);
    }
    unpack(asking::part(q, 1, q.len()), bytes);
    sheet(&bytes[..count], out)
}

fn main(rt: HostRuntime) -> io::Result<()> {
    let mut bytes = [0u8; FILE];
    asking::answer_all(rt.stdin(), rt.stdout(), |op, q, out| match op {
        0x70 => ask_sheet(q, &mut bytes, out),
        _ => asking::unknown(out),
    })
}
