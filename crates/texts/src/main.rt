// Runs a session over texts and score files: standard input to standard output. Lines of the text
// form stand before a command, which is a line that begins with a colon; each command is written,
// and its answer under it:
//   :make          reads the lines since the last command: the size of their file, which is then the
//                  score at hand; or the line that is wrong, and why
//   :unended       the same, without the line feed of the last line
//   :line LINE     the same of one line, which stands behind the command
//   :file BYTES    bytes by their hexadecimal digits are the score at hand
//   :bytes         the bytes of the score at hand
//   :text          the score at hand as text
//   :sheet         its sheet
//   :count BEAT    how many bars it takes to the beat
//   : WORDS        nothing: a heading
#![tactic(auto)]

mod bytes;
mod commands;

use commands::AtHand;
use score::LONGEST;
use std::io;

// One byte more than the longest session.
const READ: usize = 131073;

// The letter of a command, behind its colon.
fn letter(line: &[u8]) -> Option<u8> {
    let letter = *line.strip_prefix(b":")?.first()?;
    if letter == 0 { None } else { Some(letter) }
}

// The line from a place on, behind the command's word and a blank.
fn behind(line: &[u8], from: usize) -> &[u8] {
    line.get(from..).unwrap_or(&[])
}

// All but the last byte.
fn unended(text: &[u8]) -> &[u8] {
    &text[..text.len().saturating_sub(1)]
}

// Runs the command of a line, behind the text of the lines since the last one.
fn answer(
    rt: &impl Print,
    letter: u8,
    line: &[u8],
    text: &[u8],
    at_hand: &mut AtHand,
) -> io::Result<()> {
    match letter {
        b'm' => commands::make(rt, text, at_hand),
        b'u' => commands::make(rt, unended(text), at_hand),
        b'l' => commands::make(rt, behind(line, 6), at_hand),
        b'f' => {
            bytes::read(behind(line, 6), at_hand);
            Ok(())
        }
        b'b' => bytes::write(rt, at_hand.bytes()),
        b't' => commands::text(rt, at_hand.bytes()),
        b's' => commands::sheet(rt, at_hand.bytes()),
        b'c' => commands::count(rt, at_hand.bytes(), behind(line, 7)),
        _ => Ok(()),
    }
}

// A session: where the lines since the last command begin, where this line does, and the score at
// hand.
#[derive(Drop)]
struct Session {
    text: usize,
    line: usize,
    at_hand: AtHand,
}

impl Session {
    // Takes the line that ends at a place: a command is answered, and the text begins anew behind it.
    fn turn(&mut self, rt: &impl Print, session: &[u8], end: usize) -> io::Result<()> {
        let line = session.get(self.line..end).unwrap_or(&[]);
        let text = session.get(self.text..self.line).unwrap_or(&[]);
        self.line = end.saturating_add(1);
        if let Some(letter) = letter(line) {
            self.text = self.line;
            rt.write_all(line)?;
            rt.write_all(b"\n")?;
            answer(rt, letter, line, text, &mut self.at_hand)?;
        }
        Ok(())
    }

    fn run(&mut self, rt: &impl Print, session: &[u8]) -> io::Result<()> {
        for (place, byte) in session.iter().enumerate() {
            if *byte == b'\n' {
                self.turn(rt, session, place)?;
            }
        }
        Ok(())
    }
}

fn main(rt: HostRuntime) -> io::Result<()> {
    let mut bytes = [0u8; READ];
    let n = intake::read_full(&mut rt.stdin(), &mut bytes)?;
    if n == READ {
        return rt.println("the session is longer than 131072 bytes");
    }
    let mut session = Session {
        text: 0,
        line: 0,
        at_hand: AtHand {
            file: [0; LONGEST],
            size: 0,
        },
    };
    session.run(&rt, &bytes[..n])
}
