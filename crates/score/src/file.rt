// The rules of the score file, a test each, and its header's values.
ghost use Rattle.std.specs.Prelude.{◌≡◌, true, ◌≤◌, length};
ghost use Rattle.score.specs.Format.{laid_out_by, laid_out, pickup_good, tempo_offset, tempo_count, beat_at, beats_good, pickup_of, score_of};

use crate::{Score, words};
use beats::Beat;

// Whether the header's words fit each other and the length. The products come behind the limits
// on the counts, so none is too large.
fn laid_out_by(
    edition: u32,
    meters: u32,
    meter_offset: u32,
    tempos: u32,
    tempo_offset: u32,
    total: u32,
    long: usize,
) -> bool
    ensures { result ≡ laid_out_by edition meters meter_offset tempos tempo_offset total long }
{
    edition == 1
        && meters <= 256
        && meter_offset == 48
        && tempos <= 1024
        && tempo_offset == 48 + 12 * meters
        && total == 48 + 12 * meters + 16 * tempos
        && long == total as usize
}

pub fn laid_out(bytes: &[u8]) -> bool
    requires { 48 ≤ length bytes.now }
    ensures { result ≡ laid_out bytes.now }
{
    let edition = words::word_at(bytes, 0);
    let meters = words::word_at(bytes, 28);
    let meter_offset = words::word_at(bytes, 32);
    let tempos = words::word_at(bytes, 36);
    let tempo_offset = words::word_at(bytes, 40);
    let total = words::word_at(bytes, 44);
    laid_out_by(
        edition,
        meters,
        meter_offset,
        tempos,
        tempo_offset,
        total,
        bytes.len(),
    )
}

// No pickup and both numerator words 0, or a beat.
pub fn pickup_good(bytes: &[u8]) -> bool
    requires { 48 ≤ length bytes.now }
    ensures { result ≡ pickup_good bytes.now }
{
    let den = words::word_at(bytes, 16);
    if den == 0 {
        let low = words::word_at(bytes, 20);
        if low != 0 {
            return false;
        }
        let high = words::word_at(bytes, 24);
        high == 0
    } else {
        let num = words::number_at(bytes, 20);
        let beat = Beat { num, den };
        beat.is_beat()
    }
}

// The beat of a tempo point.
fn beat_of(point: &[u8]) -> Beat
    requires { 16 ≤ length point.now }
    ensures { result ≡ beat_at point.now 0 }
{
    let num = words::number_at(point, 0);
    let den = words::word_at(point, 8);
    Beat { num, den }
}

// Whether each tempo point has a beat in lowest terms.
pub fn beats_good(bytes: &[u8]) -> bool
    requires { (48 ≤ length bytes.now) × (laid_out bytes.now ≡ true) }
    ensures { result ≡ beats_good bytes.now (tempo_offset bytes.now) (tempo_count bytes.now) }
{
    let place = words::word_at(bytes, 40) as usize;
    for point in bytes[place..].chunks_exact(16) {
        if !beat_of(point).is_beat() {
            return false;
        }
    }
    true
}

fn pickup_of(bytes: &[u8]) -> Option<Beat>
    requires { 48 ≤ length bytes.now }
    ensures { result ≡ pickup_of bytes.now }
{
    let den = words::word_at(bytes, 16);
    if den == 0 {
        return None;
    }
    let num = words::number_at(bytes, 20);
    Some(Beat { num, den })
}

// The header's values.
pub fn header(bytes: &[u8]) -> Score
    requires { 48 ≤ length bytes.now }
    ensures { result ≡ score_of bytes.now }
{
    let rate = words::word_at(bytes, 4);
    let beats = words::word_at(bytes, 8);
    let bpm = words::word_at(bytes, 12);
    let pickup = pickup_of(bytes);
    let meters = words::word_at(bytes, 28) as usize;
    let tempos = words::word_at(bytes, 36) as usize;
    Score {
        rate,
        beats,
        bpm,
        pickup,
        meters,
        tempos,
    }
}
