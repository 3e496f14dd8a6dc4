// The inputs, each made of two numbers of one sequence, so that both sides have the same.
use beats::Beat;
use benching::{INPUTS, START, next};

// A fraction of this size, below zero one time in eight.
fn fraction(size: u64, s: u64, den: u32) -> Beat {
    Beat {
        num: numbers::signed(s % 8 == 0, size),
        den,
    }
}

pub fn small(r: u64, s: u64) -> Beat {
    fraction(r % 0x1_0000, s, (s / 8 % 0x100) as u32)
}

fn wider(r: u64, s: u64) -> Beat {
    fraction(r % 0x8000_0000_0000, s, (s / 8 % 0x1000) as u32)
}

pub fn large(r: u64, s: u64) -> Beat {
    fraction(r / 2, s, (s / 8 % 0x1_0000_0000) as u32)
}

fn lowest(x: Beat) -> Beat {
    Beat::new(x.num, x.den)
}

pub fn mixed(r: u64, s: u64) -> Beat {
    match s >> 60 {
        0 => lowest(large(r, s)),
        1..=4 => lowest(wider(r, s)),
        _ => lowest(small(r, s)),
    }
}

// Whole, half and quarter beats are the most frequent.
fn grid_den(x: u64) -> u32 {
    match x {
        0..=3 => 1,
        4..=6 => 2,
        7 | 8 => 4,
        9 | 10 => 3,
        11 => 6,
        12 => 8,
        13 => 12,
        14 => 16,
        _ => 24,
    }
}

pub fn grid(r: u64, s: u64) -> Beat {
    lowest(fraction(r % 0x1_0000, s, grid_den(s >> 60)))
}

// A tempo from 64 to 256, the bits of 64 and as many more as two exponents have; and a rate.
pub fn speed(r: u64, s: u64) -> (f32, u32) {
    let rate = match s % 4 {
        0 => 22050,
        1 => 44100,
        2 => 48000,
        _ => 96000,
    };
    (
        rounding::f32_of(0x4280_0000 + (r % 0x100_0000) as u32),
        rate,
    )
}

// Makes each input.
pub fn fill<T: Drop, F: Fn(u64, u64) -> T>(inputs: &mut [T; INPUTS], make: F)
    requires { F.IsAlwaysCallable make }
{
    let mut r = START;
    for input in inputs {
        let s = next(r);
        *input = make(r, s);
        r = next(s);
    }
}
