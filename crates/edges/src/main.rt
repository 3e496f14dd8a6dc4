// Document 01's edges, run through the calls themselves and printed a line each. Those that it
// marks to be proved stand in specs/Edges.antt too, as one table that holds for the definitions.
#![tactic(auto)]

use beats::Beat;
use numbers::Refusal;
use pattern::{Pattern, Wrote};
use std::cmp::Ordering;
use std::io;
use transport::{LoopRange, Moves, PlayState, Transport};

// The number of a refusal.
fn refuse(rt: &impl Print, why: Refusal) -> io::Result<()> {
    print!(rt; "refused {}", u32::from(why))
}

fn refused(rt: &impl Print, why: Refusal) -> io::Result<()> {
    refuse(rt, why)?;
    println!(rt)
}

fn print_beat(rt: &impl Print, b: Beat) -> io::Result<()> {
    println!(rt; "{}/{}", b.num, b.den)
}

fn print_answer(rt: &impl Print, answer: Result<Beat, Refusal>) -> io::Result<()> {
    match answer {
        Ok(b) => print_beat(rt, b),
        Err(why) => refused(rt, why),
    }
}

fn print_order(rt: &impl Print, answer: Result<Ordering, Refusal>) -> io::Result<()> {
    match answer {
        Ok(Ordering::Less) => println!(rt; "less"),
        Ok(Ordering::Equal) => println!(rt; "equal"),
        Ok(Ordering::Greater) => println!(rt; "greater"),
        Err(why) => refused(rt, why),
    }
}

fn print_count(rt: &impl Print, answer: Result<u32, Refusal>) -> io::Result<()> {
    match answer {
        Ok(bars) => println!(rt; "{bars}"),
        Err(why) => refused(rt, why),
    }
}

// The first record of the problems, or that there is none.
fn print_problem(
    rt: &impl Print,
    answer: Result<u32, Refusal>,
    code: u32,
    value: u32,
) -> io::Result<()> {
    match answer {
        Ok(0) => println!(rt; "no problem"),
        Ok(_) => println!(rt; "problem {code}, value {value}"),
        Err(why) => refused(rt, why),
    }
}

fn beat_edges(rt: &impl Print) -> io::Result<()> {
    print!(rt; "new(6, 8): ")?;
    print_beat(rt, Beat::new(6, 8))?;
    print!(rt; "new(0, 7): ")?;
    print_beat(rt, Beat::new(0, 7))?;
    print!(rt; "new(5, 0): ")?;
    print_beat(rt, Beat::new(5, 0))?;
    print!(rt; "1/65536 + 1/65536: ")?;
    print_answer(rt, Beat::new(1, 65536).checked_add(Beat::new(1, 65536)))?;
    print!(rt; "1/65535 + 1/65536: ")?;
    print_answer(rt, Beat::new(1, 65535).checked_add(Beat::new(1, 65536)))?;
    print!(rt; "-1/2 to -1/3: ")?;
    print_order(rt, Beat::new(-1, 2).cmp(Beat::new(-1, 3)))
}

// Bars gone by in 4/4.
fn count(rt: &impl Print, pickup: Option<Beat>, beat: Beat) -> io::Result<()> {
    let words = [0u32, 4, 4];
    print_count(rt, meter::bar_count_at_beat(&words, 4, pickup, beat))
}

fn count_edges(rt: &impl Print) -> io::Result<()> {
    let one = Some(Beat::from_int(1));
    print!(rt; "pickup 1, 4/4, beat 0: ")?;
    count(rt, one, Beat::zero())?;
    print!(rt; "pickup 1, 4/4, beat 1: ")?;
    count(rt, one, Beat::from_int(1))?;
    print!(rt; "pickup 1, 4/4, beat 9: ")?;
    count(rt, one, Beat::from_int(9))?;
    print!(rt; "pickup 1, 4/4, beat 28/3: ")?;
    count(rt, one, Beat::new(28, 3))?;
    print!(rt; "pickup 0, 4/4, beat 1/2: ")?;
    count(rt, Some(Beat::zero()), Beat::new(1, 2))?;
    print!(rt; "4/4, beat 8589934592: ")?;
    count(rt, None, Beat::from_int(8589934592))?;
    print!(rt; "4/4, beat 8589934593: ")?;
    count(rt, None, Beat::from_int(8589934593))
}

// Playing at a position, with the loop 100..300 and the length 1000.
fn looped(position: u64) -> Transport {
    Transport {
        sample_rate: 48000,
        bpm: 120.0,
        beats_per_bar: 4,
        length: 1000,
        position,
        state: PlayState::Playing,
        looping: Some(LoopRange {
            start: 100,
            end: 300,
        }),
        pickup: None,
    }
}

// Where it stands, and what it reports.
fn print_moved(rt: &impl Print, t: Transport, moves: Moves) -> io::Result<()> {
    print!(rt; "at {}", t.position)?;
    if moves.wrapped {
        print!(rt; ", wrapped")?;
    }
    if moves.finished {
        print!(rt; ", finished")?;
    }
    println!(rt)
}

fn advance_edge(rt: &impl Print) -> io::Result<()> {
    print!(rt; "loop 100..300, length 1000, at 350, advance(0): ")?;
    let after = looped(350).advance(0);
    match after.answer {
        Ok(moves) => print_moved(rt, after.transport, moves),
        Err(why) => refused(rt, why),
    }
}

fn cue_edge(rt: &impl Print) -> io::Result<()> {
    let lines = [0u64, 100, 200, 300];
    let mut out = [0u64; 6];
    print!(rt; "same loop, at 250, lines 0 100 200 300, 300 frames: ")?;
    let after = cues::cue(looped(250), &lines, 300, &mut out);
    match after.answer {
        Ok(cued) => {
            print!(rt; "{} cues ", cued.count)?;
            for [time, line] in out.as_chunks::<2>().0 {
                print!(rt; "({time},{line}) ")?;
            }
            let moves = Moves {
                wrapped: cued.wrapped,
                finished: cued.finished,
            };
            print_moved(rt, after.transport, moves)
        }
        Err(why) => refused(rt, why),
    }
}

fn print_fits(rt: &impl Print, answer: Result<bool, Refusal>) -> io::Result<()> {
    match answer {
        Ok(true) => println!(rt; "fits"),
        Ok(false) => println!(rt; "does not fit"),
        Err(why) => refused(rt, why),
    }
}

// A pickup so fine that the sum for bar 2 does not fit, while the longer one for bar 17 does.
fn fine_pickup(rt: &impl Print) -> io::Result<()> {
    let words = [0u32, 5, 64];
    let pickup = Some(Beat::new(1, 1073741824));
    print!(rt; "pickup 1/2^30, 5/64, bar 2: ")?;
    print_answer(rt, meter::beat_at_bar(&words, 4, pickup, 2))?;
    print!(rt; "pickup 1/2^30, 5/64, bar 17: ")?;
    print_answer(rt, meter::beat_at_bar(&words, 4, pickup, 17))?;
    print!(rt; "pickup 1/2^30, 5/64: ")?;
    print_fits(rt, fits::fits(&words, 4, pickup))
}

// The problems of a map of one point with this denominator.
fn denominator(rt: &impl Print, den: u32) -> io::Result<()> {
    let words = [0u32, 4, den];
    let mut out = [0u32; 3];
    let answer = points::flat_problems(&words, &mut out);
    print_problem(rt, answer, out[0], out[2])
}

fn denominator_edges(rt: &impl Print) -> io::Result<()> {
    print!(rt; "denominator 1: ")?;
    denominator(rt, 1)?;
    print!(rt; "denominator 64: ")?;
    denominator(rt, 64)?;
    print!(rt; "denominator 128: ")?;
    denominator(rt, 128)?;
    print!(rt; "denominator 0: ")?;
    denominator(rt, 0)
}

// Words that are no points: no question of the port and the original sends such.
fn uneven_edge(rt: &impl Print) -> io::Result<()> {
    let mut out = [0u32; 3];
    print!(rt; "meter words 0 4: ")?;
    let answer = points::flat_problems(&[0u32, 4], &mut out);
    print_problem(rt, answer, out[0], out[2])
}

// The notes that were written, or the number of the refusal.
fn print_written(rt: &impl Print, answer: Result<Wrote, Refusal>) -> io::Result<()> {
    match answer {
        Ok(wrote) => print!(rt; "{}", wrote.notes),
        Err(why) => refuse(rt, why),
    }
}

fn print_three(rt: &impl Print, a: u32, b: u32, c: u32) -> io::Result<()> {
    println!(rt; "{a} {b} {c}")
}

fn made_edges(rt: &impl Print) -> io::Result<()> {
    let mut out = [0u32; 12];
    print!(rt; "euclidean(3, 8), notes and steps: ")?;
    print_written(rt, pattern::euclidean(3, 8, 0, 1, 16, &mut out))?;
    print!(rt; ", ")?;
    print_three(rt, out[0], out[4], out[8])?;
    print!(rt; "euclidean(0, 8), notes: ")?;
    print_written(rt, pattern::euclidean(0, 8, 0, 1, 16, &mut out))?;
    print!(rt; "\ntuplet(3 in 4), notes and steps: ")?;
    print_written(rt, pattern::tuplet(3, 4, 0, 1, &mut out))?;
    print!(rt; ", ")?;
    print_three(rt, out[0], out[4], out[8])
}

// The step of a call's one note, or the number of the refusal.
fn print_step(rt: &impl Print, answer: Result<Wrote, Refusal>, step: u32) -> io::Result<()> {
    match answer {
        Ok(_) => println!(rt; "{step}"),
        Err(why) => refused(rt, why),
    }
}

// One bar of 16.
fn turned_edges(rt: &impl Print) -> io::Result<()> {
    let bar = Pattern { bars: 1 };
    let mut out = [0u32; 4];
    print!(rt; "rotate -1, step 0: ")?;
    let answer = pattern::rotate(bar, &[0u32, 1, 0, 0], -1, 16, &mut out);
    print_step(rt, answer, out[0])?;
    print!(rt; "reverse, step 14 len 4: ")?;
    let answer = pattern::reverse(bar, &[14u32, 4, 0, 0], 16, &mut out);
    print_step(rt, answer, out[0])
}

fn gate_edge(rt: &impl Print) -> io::Result<()> {
    let words = [0u32, 1, 0, 0, 4, 3, 0, 0, 8, 5, 0, 0];
    let mut out = [0u32; 12];
    print!(rt; "gate 0.5, lens 1 3 5: ")?;
    match pattern::gate(Pattern { bars: 1 }, &words, 0.5, &mut out) {
        Ok(_) => print_three(rt, out[1], out[5], out[9]),
        Err(why) => refused(rt, why),
    }
}

fn main(rt: HostRuntime) -> io::Result<()> {
    beat_edges(&rt)?;
    count_edges(&rt)?;
    advance_edge(&rt)?;
    cue_edge(&rt)?;
    fine_pickup(&rt)?;
    denominator_edges(&rt)?;
    uneven_edge(&rt)?;
    made_edges(&rt)?;
    turned_edges(&rt)?;
    gate_edge(&rt)
}
