// Where the maps of a question end.
ghost use Rattle.std.specs.Prelude.{◌≡◌, ◌≤◌, eqb, length, unwrap_or, IfSome};
ghost use Rattle.asking.specs.Lists.{nowhere};
ghost use Rattle.asking_clock.specs.Words.{past_meter, past_tempo};

use asking::LIST;

// The most flat words of a meter map: 65,537 points.
const MAP: usize = 196_611;

// Past the meter map whose count of words is at an index.
pub fn past_meter(q: &[u32], at: usize) -> Option<usize>
    ensures value { unwrap_or result nowhere ≡ past_meter q.now at }
    ensures within { IfSome result (λ end. end ≤ length q.now) }
{
    asking::past_words(q, at, MAP)
}

// Whether the meter map at an index ends the question.
pub fn meter_ends(q: &[u32], at: usize) -> bool
    ensures { result ≡ eqb (past_meter q.now at) (length q.now) }
{
    past_meter(q, at) == Some(q.len())
}

// Past the tempo map at an index: three lists.
pub fn past_tempo(q: &[u32], at: usize) -> Option<usize>
    ensures value { unwrap_or result nowhere ≡ past_tempo q.now at }
    ensures within { IfSome result (λ end. end ≤ length q.now) }
{
    let dens = asking::past_longs(q, at)?;
    let tempos = asking::past_words(q, dens, LIST)?;
    asking::past_words(q, tempos, LIST)
}
