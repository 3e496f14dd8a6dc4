// The questions of the input, and the loop that answers them.
ghost use Rattle.std.specs.Prelude.{◌≡◌, ◌≤◌, ◌+◌, ◌*◌, IfSome, slice_index};

use crate::writing::{Answers, flush, unknown};
use crate::{CHUNK, MOST};
use std::io;
use std::io::{Stdin, Stdout};

// Why there is no question to answer.
#[derive(Drop)]
enum Unread {
    End,
    // The input ends within the question.
    Cut,
    // A question of more words than the buffer has, which were let pass.
    TooLarge,
    Failed(io::Error),
}

impl From<io::Error> for Unread {
    fn from(e: io::Error) -> Unread {
        Unread::Failed(e)
    }
}

// The input, a chunk at a time.
// Stays: bytes with places beside them, since std's buffered readers take heap, and memory is fixed here.
#[derive(Drop)]
struct Questions {
    stdin: Stdin,
    chunk: [u8; CHUNK],
    // What is still to be read of the chunk.
    at: usize,
    end: usize,
    ghost within: { at ≤ end × end ≤ 65536 },
}

// The word of four bytes, the lowest first.
fn word_of(bytes: [u8; 4]) -> u32
    ensures { result ≡ slice_index bytes 0 + 256 * slice_index bytes 1 + 65536 * slice_index bytes 2 + 16777216 * slice_index bytes 3 }
{
    u32::from_le_bytes(bytes)
}

impl Questions {
    // The questions of an input that nothing is read of yet.
    fn new(stdin: Stdin) -> Questions {
        Questions {
            stdin,
            chunk: [0u8; CHUNK],
            at: 0,
            end: 0,
        }
    }

    // The next four bytes, where so many are left.
    fn first(&self) -> Option<[u8; 4]>
        ensures { IfSome result (λ bytes. self.now.at + 4 ≤ self.now.end) }
    {
        self.chunk[self.at..self.end].first_chunk().copied()
    }

    // The next word, where all of it is held: what most words cost, so it hands no error on.
    fn held(&mut self) -> Option<u32> {
        let word = word_of(self.first()?);
        self.at += 4;
        Some(word)
    }

    // The next word, its lowest byte first.
    fn word(&mut self) -> Result<u32, Unread> {
        if self.at == self.end {
            let n = intake::read_full(&mut self.stdin, &mut self.chunk)?;
            self.at = 0;
            self.end = n;
        }
        if self.at == self.end {
            return Err(Unread::End);
        }
        self.held().ok_or(Unread::Cut)
    }

    // The next word of a question that has begun.
    fn word_within(&mut self) -> Result<u32, Unread> {
        self.word().map_err(|why| match why {
            Unread::End => Unread::Cut,
            why => why,
        })
    }

    // The next question: its op, and its words at the start of q.
    fn question<'a>(&mut self, q: &'a mut [u32; MOST]) -> Result<(u32, &'a [u32]), Unread> {
        let op = self.word()?;
        let n = self.word_within()? as usize;
        if n > MOST {
            for _ in 0..n {
                if self.held().is_none() {
                    self.word_within()?;
                }
            }
            return Err(Unread::TooLarge);
        }
        let words = &mut q[..n];
        for word in words.iter_mut() {
            *word = match self.held() {
                Some(held) => held,
                None => self.word_within()?,
            };
        }
        Ok((op, words))
    }
}

// Answers each question of the input, by its op and its words, and what is no question by its line.
// Nothing says that the input ends, so the loop counts its turns up to a number that no run uses up.
pub fn answer_all<F: FnMut(u32, &[u32], &mut Answers) -> io::Result<()>>(
    stdin: Stdin,
    stdout: Stdout,
    mut answer: F,
) -> io::Result<()>
    requires { F.IsAlwaysCallable answer }
{
    let mut questions = Questions::new(stdin);
    let mut out = Answers::new(stdout);
    let mut q = [0u32; MOST];
    for _ in 0..u64::MAX {
        match questions.question(&mut q) {
            Ok((op, words)) => answer(op, words, &mut out)?,
            Err(Unread::TooLarge) => unknown(&mut out)?,
            Err(Unread::Cut) => {
                unknown(&mut out)?;
                break;
            }
            Err(Unread::End) => break,
            Err(Unread::Failed(e)) => return Err(e),
        }
    }
    flush(&mut out)
}
