// A run block by block, each cued on the transport that the block before handed back.
use crate::{ROOM, same};
use transport::{Handed, Transport};

#[derive(Clone, Copy)]
pub struct Walk {
    // As the last block left it.
    pub transport: Transport,
    // The frames and the words of cues so far.
    pub time: u64,
    pub words: u64,
    pub wrapped: bool,
    pub finished: bool,
    // Whether every cue so far is the whole's, and no call was refused.
    pub same: bool,
}

// Past one block more.
fn next(walk: Walk, lines: &[u64], size: u64, whole: &[u64], part: &mut [u64; ROOM]) -> Walk {
    let Handed { transport, answer } = cues::cue(walk.transport, lines, size, part);
    let Ok(cued) = answer else {
        return Walk {
            same: false,
            ..walk
        };
    };
    let n = cued.count.saturating_mul(2);
    let words = walk.words.saturating_add(n as u64);
    let mine = same::between(part, 0, n);
    let theirs = same::between(whole, walk.words as usize, words as usize);
    Walk {
        transport,
        time: walk.time.saturating_add(size),
        words,
        wrapped: walk.wrapped || cued.wrapped,
        finished: walk.finished || cued.finished,
        same: walk.same && same::cues(theirs, mine, walk.time),
    }
}

pub fn blocks(
    t: Transport,
    lines: &[u64],
    sizes: &[u64],
    whole: &[u64],
    part: &mut [u64; ROOM],
) -> Walk {
    let mut walk = Walk {
        transport: t,
        time: 0,
        words: 0,
        wrapped: false,
        finished: false,
        same: true,
    };
    for &size in sizes {
        walk = next(walk, lines, size, whole, part);
    }
    walk
}
