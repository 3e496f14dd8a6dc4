// What each command of a session does with the score at hand.
use score::LONGEST;
use std::io;

// The score at hand: a file, from the front of the bytes.
#[derive(Drop)]
pub struct AtHand {
    pub file: [u8; LONGEST],
    pub size: usize,
}

impl AtHand {
    // Its bytes, or none where there are not so many.
    pub fn bytes(&self) -> &[u8] {
        self.file.get(..self.size).unwrap_or(&[])
    }
}

// Makes the file that a text says the score at hand, and writes its size; or writes what is wrong.
pub fn make(rt: &impl Print, text: &[u8], at_hand: &mut AtHand) -> io::Result<()> {
    match form::read_form(text, &mut at_hand.file) {
        Ok(size) => {
            at_hand.size = size;
            println!(rt; "{size} bytes")
        }
        Err(wrong) => telling::wrong(rt, wrong),
    }
}

// The answer to the drummer's question.
pub fn count(rt: &impl Print, file: &[u8], word: &[u8]) -> io::Result<()> {
    let mut out = [0u8; 1024];
    let n = count_text::count_of(file, word, &mut out);
    rt.write_all(&out[..n])
}

// The score as text.
pub fn text(rt: &impl Print, file: &[u8]) -> io::Result<()> {
    let mut out = [0u8; 65536];
    let n = form_text::form_of(file, &mut out);
    rt.write_all(&out[..n])
}

pub fn sheet(rt: &impl Print, file: &[u8]) -> io::Result<()> {
    let mut out = [0u8; 1024];
    let n = sheet_text::sheet_of(file, &mut out);
    rt.write_all(&out[..n])
}
