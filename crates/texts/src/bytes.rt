// The bytes of a file by hexadecimal digits, two a byte: written by words, and read.
use crate::commands::AtHand;
use score::LONGEST;
use std::io;

// The digits of the longest file.
const MOST: usize = 2 * LONGEST;

// A byte behind so many: four are a word, and eight words a line.
fn behind(rt: &impl Print, before: usize, byte: u8) -> io::Result<()> {
    if before % 32 == 0 {
        if before > 0 {
            rt.write_all(b"\n")?;
        }
    } else if before % 4 == 0 {
        rt.write_all(b" ")?;
    }
    print!(rt; "{byte:02x}")
}

// Writes the bytes of a file.
pub fn write(rt: &impl Print, file: &[u8]) -> io::Result<()> {
    for (before, byte) in file.iter().enumerate() {
        behind(rt, before, *byte)?;
    }
    rt.write_all(b"\n")
}

// The digit that a byte is; a capital letter is none.
fn digit(byte: u8) -> Option<u8> {
    match byte {
        b'0'..=b'9' => Some(byte - b'0'),
        b'a'..=b'f' => Some(byte - b'a' + 10),
        _ => None,
    }
}

// Two digits: the lower one of a byte, and one behind it.
fn joined(byte: u8, digit: u8) -> u8 {
    byte % 16 * 16 + digit % 16
}

// Makes the bytes that the digits of a line say the score at hand; as many as the longest file has.
pub fn read(line: &[u8], at_hand: &mut AtHand) {
    let mut digits = 0;
    for digit in line.iter().filter_map(|byte| digit(*byte)) {
        if digits < MOST {
            let byte = &mut at_hand.file[digits / 2];
            *byte = joined(*byte, digit);
            digits += 1;
        }
    }
    at_hand.size = digits / 2;
}
