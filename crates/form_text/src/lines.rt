// The lines of a score's text form.
ghost use Rattle.std.specs.Prelude.{◌+◌, ◌*◌, ◌/◌, ◌≤◌, length};
ghost use Rattle.text.specs.Pages.{Appends};
ghost use Rattle.form_text.specs.Forms.{number_line, pickup_line, meter_line, tempo_line, head_text, meter_lines, tempo_lines, form_from};

use crate::tempos;
use beats::Beat;
use score::{Music, Score};
use tempo::TempoMap;
use text::Page;

// A word and a number.
fn number_line(page: &mut Page, word: &[u8], number: u32)
    requires { page.old.place + length word.now + 11 ≤ length page.old.out.now }
    ensures puts { Appends (number_line word.now number) page.old page.new }
    ensures upper_bound { page.new.place ≤ page.old.place + length word.now + 11 }
{
    page.bytes(word);
    page.decimal(number as u64);
    page.byte(b'\n');
}

// The pickup's line, where there is one.
fn pickup_line(page: &mut Page, pickup: Option<Beat>)
    requires { page.old.place + 39 ≤ length page.old.out.now }
    ensures puts { Appends (pickup_line pickup) page.old page.new }
    ensures upper_bound { page.new.place ≤ page.old.place + 39 }
{
    if let Some(beat) = pickup {
        page.bytes(b"pickup ");
        page.beat(beat);
        page.byte(b'\n');
    }
}

// Bar, numerator and denominator.
fn meter_line(page: &mut Page, bar: u32, num: u32, den: u32)
    requires { page.old.place + 39 ≤ length page.old.out.now }
    ensures puts { Appends (meter_line bar num den) page.old page.new }
    ensures upper_bound { page.new.place ≤ page.old.place + 39 }
{
    page.bytes(b"meter ");
    page.decimal(bar as u64);
    page.byte(b' ');
    page.decimal(num as u64);
    page.byte(b'/');
    page.decimal(den as u64);
    page.byte(b'\n');
}

// Beat and tempo.
fn tempo_line(page: &mut Page, beat: Beat, bits: u32)
    requires { page.old.place + 54 ≤ length page.old.out.now }
    ensures puts { Appends (tempo_line beat bits) page.old page.new }
    ensures upper_bound { page.new.place ≤ page.old.place + 54 }
{
    page.bytes(b"tempo ");
    page.beat(beat);
    page.byte(b' ');
    tempos::tempo(page, bits);
    page.byte(b'\n');
}

// Rate, beats and tempo, and the pickup where there is one.
fn head(page: &mut Page, score: Score)
    requires { page.old.place + 94 ≤ length page.old.out.now }
    ensures puts { Appends (head_text score) page.old page.new }
    ensures upper_bound { page.new.place ≤ page.old.place + 94 }
{
    number_line(page, b"rate ", score.rate);
    number_line(page, b"beats ", score.beats);
    page.bytes(b"tempo ");
    tempos::tempo(page, score.bpm);
    page.byte(b'\n');
    pickup_line(page, score.pickup);
}

// A line for each meter point of flat words.
fn meter_lines(page: &mut Page, words: &[u32])
    requires { page.old.place + 13 * length words.now ≤ length page.old.out.now }
    ensures puts { Appends (meter_lines words.now (length words.now / 3)) page.old page.new }
    ensures upper_bound { page.new.place ≤ page.old.place + 13 * length words.now }
{
    for point in words.chunks_exact(3) {
        meter_line(page, point[0], point[1], point[2]);
    }
}

// A line for each tempo point.
fn tempo_lines(page: &mut Page, map: TempoMap)
    requires { page.old.place + 54 * length map.nums.now ≤ length page.old.out.now }
    ensures puts { Appends (tempo_lines map.entry.nums.now map.entry.dens.now map.entry.tempos.now (length map.entry.nums.now)) page.old page.new }
    ensures upper_bound { page.new.place ≤ page.old.place + 54 * length map.entry.nums.now }
{
    // Stays: a map is three parallel lists, as document 01 and C lend it, and a zip of three is no
    // plainer.
    for k in 0..map.len() {
        let beat = Beat {
            num: map.nums[k],
            den: map.dens[k],
        };
        tempo_line(page, beat, map.tempos[k]);
    }
}

// The whole form, which has at most 65,374 bytes.
pub fn form(page: &mut Page, music: Music)
    requires { page.old.place + 65374 ≤ length page.old.out.now }
    ensures puts { let points = music.entry.points.now in Appends (form_from music.entry.score points.meter points.nums points.dens points.bpms) page.old page.new }
    ensures upper_bound { page.new.place ≤ page.old.place + 65374 }
{
    head(page, music.score);
    meter_lines(page, music.meter());
    tempo_lines(page, music.tempo_map());
}
