// The drummer's question: how many bars the music up to a beat takes, and whether they go into the
// display's row of twenty squares. From the bytes of a score file and of a beat's text to the bytes
// printed.
#![tactic(auto)]

ghost use Rattle.std.specs.Prelude.{◌≡◌, ◌+◌, ◌≤◌, length, take};
ghost use Rattle.text.specs.Texts.{Puts};
ghost use Rattle.text.specs.Pages.{Appends};
ghost use Rattle.count_text.specs.Answers.{count_text};

use score::{Music, Points};
use text::Page;

mod lines;
mod points;

// The answer for a score file and the text of a beat, or the refusal.
fn count(page: &mut Page, file: &[u8], word: &[u8])
    requires { page.old.place + 193 ≤ length page.old.out.now }
    ensures puts { Appends (count_text file.now word.now) page.old page.new }
    ensures upper_bound { page.new.place ≤ page.old.place + 193 }
{
    let mut points = Points::new();
    match score::read_score(file, &mut points) {
        Ok(score) => {
            let music = Music {
                score,
                points: &points,
            };
            points::asked(page, &music.meter_map(), word)
        }
        Err(_) => page.bytes(b"refused 13\n"),
    }
}

// Writes the answer for a score file and the text of a beat, or the refusal of other bytes (13) or
// of another word (1), and answers how many bytes it has. The second promise lets a caller cut the
// output to that many bytes.
pub fn count_of(file: &[u8], word: &[u8], out: &mut [u8; 1024]) -> usize
    ensures puts { Puts 0 (count_text file.now word.now) out.old result out.new }
    ensures upper_bound { (result ≤ length out.new) × (result ≡ length (take result out.new)) }
{
    let mut page = Page::new(out);
    count(&mut page, file, word);
    page.place
}
