// What a run is made of: a sound transport, ascending lines, and the sizes of blocks. All frames of
// a run lie within 10,000 of its base.
use crate::random::draw;
use beats::Beat;
use transport::{LoopRange, PlayState, Transport};

// The first frame: mostly 0, else halfway, or as late as a run still is in reach.
pub fn base(r: &mut u64) -> u64 {
    match draw(r, 8) {
        0 => 0x8000_0000_0000_0000,
        1 => 0xffff_ffff_ffff_d8ef,
        _ => 0,
    }
}

// How many frames there are from the base to the end.
fn span(r: &mut u64) -> u64 {
    match draw(r, 4) {
        0 => draw(r, 4),
        1 => draw(r, 40),
        _ => draw(r, 2000),
    }
}

// Where a loop starts that ends here: at the base, one frame before, or anywhere between.
fn start(r: &mut u64, end: u64) -> u64 {
    match draw(r, 4) {
        0 => 0,
        1 => end.saturating_sub(1),
        _ => draw(r, end),
    }
}

fn loop_of(r: &mut u64, base: u64, span: u64, start: u64, end: u64) -> Option<LoopRange> {
    if span == 0 || draw(r, 3) == 0 {
        None
    } else {
        Some(LoopRange {
            start: base.saturating_add(start),
            end: base.saturating_add(end),
        })
    }
}

// A position: at the base, at the loop's edges, at the end, or anywhere.
fn position(r: &mut u64, span: u64, start: u64, end: u64) -> u64 {
    let at = match draw(r, 8) {
        0 => 0,
        1 => start,
        2 => end.saturating_sub(1),
        3 => end,
        4 => span,
        _ => draw(r, span.saturating_add(1)),
    };
    at.min(span)
}

fn state(r: &mut u64) -> PlayState {
    match draw(r, 16) {
        0 => PlayState::Stopped,
        1 => PlayState::Paused,
        _ => PlayState::Playing,
    }
}

fn pickup(r: &mut u64) -> Option<Beat> {
    if draw(r, 2) == 0 {
        None
    } else {
        Some(Beat { num: 3, den: 2 })
    }
}

pub fn clock(r: &mut u64, base: u64) -> Transport {
    let span = span(r);
    let end = draw(r, span).saturating_add(1);
    let start = start(r, end);
    let looping = loop_of(r, base, span, start, end);
    let position = position(r, span, start, end);
    let state = state(r);
    let pickup = pickup(r);
    Transport {
        sample_rate: 48000,
        bpm: 120.0f32,
        beats_per_bar: 4,
        length: base.saturating_add(span),
        position: base.saturating_add(position),
        state,
        looping,
        pickup,
    }
}

// A frame of a transport that a line may well stand at.
fn edge(t: Transport, which: u64) -> u64 {
    match t.looping {
        None => match which {
            0 => t.position,
            _ => t.length,
        },
        Some(LoopRange { start, end }) => match which {
            0 => start,
            1 => end.saturating_sub(1),
            2 => end,
            _ => t.position,
        },
    }
}

// A line that is not less than the one before, and once in a while equal to it.
fn line(r: &mut u64, t: Transport, before: u64) -> u64 {
    let at = edge(t, draw(r, 4));
    let far = match draw(r, 4) {
        0 => 0,
        1 => draw(r, 4),
        2 => draw(r, 40),
        _ => draw(r, 600),
    };
    if draw(r, 2) == 0 && at >= before {
        at
    } else {
        before.saturating_add(far)
    }
}

pub fn lines(r: &mut u64, t: Transport, base: u64) -> [u64; 8] {
    let mut lines = [0; 8];
    let mut before = base;
    for next in &mut lines {
        before = line(r, t, before);
        *next = before;
    }
    lines
}

// The frames of a block: 0, 1, 64, 512, or an odd number up to 799.
fn size(r: &mut u64) -> u64 {
    match draw(r, 8) {
        0 => 0,
        1 => 1,
        2 => 64,
        3 => 512,
        4 => draw(r, 400) << 1 | 1,
        _ => draw(r, 40) << 1 | 1,
    }
}

pub fn sizes(r: &mut u64) -> [u64; 8] {
    let mut sizes = [0; 8];
    for next in &mut sizes {
        *next = size(r);
    }
    sizes
}

// The frames of all blocks.
pub fn frames(sizes: &[u64]) -> u64 {
    sizes
        .iter()
        .fold(0, |sum: u64, size| sum.saturating_add(*size))
}
