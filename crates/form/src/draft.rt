// What the lines so far have said, in numbers, and how a line adds to it.
ghost use Rattle.std.specs.Prelude.{◌≡◌, ◌<◌};
ghost use Rattle.form.specs.Drafts.{empty, with_rate, with_beats, with_tempo, with_pickup, more_meters, more_tempos};

use beats::Beat;
use items::Reason;

#[derive(Clone, Copy)]
pub struct Draft {
    pub rate: Option<u32>,
    pub beats: Option<u32>,
    // bits
    pub tempo: Option<u32>,
    pub pickup: Option<Beat>,
    // how many points
    pub meters: usize,
    pub tempos: usize,
}

// Nothing said.
pub fn empty() -> Draft
    ensures { result ≡ empty }
{
    Draft {
        rate: None,
        beats: None,
        tempo: None,
        pickup: None,
        meters: 0,
        tempos: 0,
    }
}

// Stays: this and the three behind it differ in the field, which no parameter names, and are one
// test and one field each.
pub fn with_rate(draft: Draft, n: u32) -> Result<Draft, Reason>
    ensures { result ≡ with_rate draft n }
{
    if draft.rate.is_some() {
        return Err(Reason::Twice);
    }
    Ok(Draft {
        rate: Some(n),
        ..draft
    })
}

pub fn with_beats(draft: Draft, n: u32) -> Result<Draft, Reason>
    ensures { result ≡ with_beats draft n }
{
    if draft.beats.is_some() {
        return Err(Reason::Twice);
    }
    Ok(Draft {
        beats: Some(n),
        ..draft
    })
}

pub fn with_tempo(draft: Draft, bits: u32) -> Result<Draft, Reason>
    ensures { result ≡ with_tempo draft bits }
{
    if draft.tempo.is_some() {
        return Err(Reason::Twice);
    }
    Ok(Draft {
        tempo: Some(bits),
        ..draft
    })
}

pub fn with_pickup(draft: Draft, beat: Beat) -> Result<Draft, Reason>
    ensures { result ≡ with_pickup draft beat }
{
    if draft.pickup.is_some() {
        return Err(Reason::Twice);
    }
    Ok(Draft {
        pickup: Some(beat),
        ..draft
    })
}

// One meter point more.
// Stays: this and the next differ in the field, which no parameter names.
pub fn more_meters(draft: Draft) -> Draft
    requires { draft.meters < 256 }
    ensures { result ≡ more_meters draft }
{
    Draft {
        meters: draft.meters + 1,
        ..draft
    }
}

// One tempo point more.
pub fn more_tempos(draft: Draft) -> Draft
    requires { draft.tempos < 1024 }
    ensures { result ≡ more_tempos draft }
{
    Draft {
        tempos: draft.tempos + 1,
        ..draft
    }
}
