// What the rows run. A turn is the call alone, and each turn's answer goes into the checksum, with
// every line, so that no call can be left out.
use benching::{checksum, mixed};
use numbers::Refusal;
use transport::Transport;

// The maps that the lines are filled over, as their owner lends them.
#[derive(Clone, Copy)]
pub struct Maps<'a> {
    pub words: &'a [u32],
    pub nums: &'a [i64],
    pub dens: &'a [u32],
    pub tempos: &'a [u32],
}

// All lines, each in its turn. A refusal counts as its number in document 01.
fn word(answer: Result<(), Refusal>, lines: &[u64]) -> u64 {
    match answer {
        Ok(()) => lines.iter().fold(0, |sum, line| mixed(sum, *line)),
        Err(why) => u64::from(u32::from(why)),
    }
}

pub fn fill(t: Transport, maps: Maps, lines: &mut [u64], turns: u64) -> u64 {
    checksum(turns, |_| {
        let answer = filler::fill_lines(t, maps.words, maps.nums, maps.dens, maps.tempos, lines);
        word(answer, lines)
    })
}
