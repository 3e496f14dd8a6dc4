// A score's meter map, and the beat that is asked.
ghost use Rattle.std.specs.Prelude.{◌≡◌, true, ◌+◌, ◌≤◌, length};
ghost use Rattle.meter.specs.Meters.{points_of, sound_pickup};
ghost use Rattle.spelling.specs.Words.{beat_of};
ghost use Rattle.text.specs.Pages.{Appends};
ghost use Rattle.count_text.specs.Answers.{answer_text, asked_text};

use crate::lines;
use beats::Beat;
use fits::deciding;
use meter::bars::MeterMap;
use text::Page;

// The count, whether the score fits, and the lines that say so.
fn answer(page: &mut Page, map: &MeterMap, beat: Beat)
    requires { (page.old.place + 193 ≤ length page.old.out.now) × (sound_pickup map.now.pickup ≡ true) }
    ensures puts { Appends (answer_text (points_of map.now.words.now) map.now.default map.now.pickup beat) page.old page.new }
    ensures upper_bound { page.new.place ≤ page.old.place + 193 }
{
    let bars = map.elapsed(beat);
    let fits = deciding::decide(map);
    lines::lines(page, bars, fits, beat);
}

// The answer for the beat that a word says, or the refusal of the word.
pub fn asked(page: &mut Page, map: &MeterMap, word: &[u8])
    requires { (page.old.place + 193 ≤ length page.old.out.now) × (sound_pickup map.now.pickup ≡ true) }
    ensures puts { Appends (asked_text (points_of map.now.words.now) map.now.default map.now.pickup (beat_of word.now)) page.old page.new }
    ensures upper_bound { page.new.place ≤ page.old.place + 193 }
{
    match spelling::beat(word) {
        Ok(beat) => answer(page, map, beat),
        Err(_) => page.bytes(b"refused 1\n"),
    }
}
