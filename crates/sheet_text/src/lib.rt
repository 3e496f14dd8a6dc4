// The sheet of a score file, as text: what the program prints, from the file's bytes.
#![tactic(auto)]

ghost use Rattle.std.specs.Prelude.{◌≡◌, ◌+◌, ◌≤◌, length, take};
ghost use Rattle.text.specs.Texts.{Puts};
ghost use Rattle.text.specs.Pages.{Appends};
ghost use Rattle.sheet_text.specs.Sheets.{sheet_text};

use score::{Music, Points};
use text::Page;

mod lines;
mod points;

// The sheet of a score file, or the refusal of other bytes.
fn sheet(page: &mut Page, bytes: &[u8])
    requires { page.old.place + 528 ≤ length page.old.out.now }
    ensures puts { Appends (sheet_text bytes.now) page.old page.new }
    ensures upper_bound { page.new.place ≤ page.old.place + 528 }
{
    let mut points = Points::new();
    match score::read_score(bytes, &mut points) {
        Ok(score) => points::sheet(
            page,
            Music {
                score,
                points: &points,
            },
        ),
        Err(_) => page.bytes(b"refused 13\n"),
    }
}

// Writes the sheet of a score file, or the refusal of other bytes, and answers how many bytes it
// has. The second promise lets a caller cut the output to that many bytes.
pub fn sheet_of(bytes: &[u8], out: &mut [u8; 1024]) -> usize
    ensures puts { Puts 0 (sheet_text bytes.now) out.old result out.new }
    ensures upper_bound { (result ≤ length out.new) × (result ≡ length (take result out.new)) }
{
    let mut page = Page::new(out);
    sheet(&mut page, bytes);
    page.place
}
