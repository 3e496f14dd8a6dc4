// A score file as text, from the file's bytes to the bytes printed.
#![tactic(auto)]

ghost use Rattle.std.specs.Prelude.{◌≡◌, ◌+◌, ◌≤◌, length, take};
ghost use Rattle.text.specs.Texts.{Puts};
ghost use Rattle.text.specs.Pages.{Appends};
ghost use Rattle.form_text.specs.Forms.{form_text};

use score::{Music, Points};
use text::Page;

mod lines;
mod tempos;

// The text form of a score file, or the refusal of other bytes.
fn form(page: &mut Page, file: &[u8])
    requires { page.old.place + 65374 ≤ length page.old.out.now }
    ensures puts { Appends (form_text file.now) page.old page.new }
    ensures upper_bound { page.new.place ≤ page.old.place + 65374 }
{
    let mut points = Points::new();
    match score::read_score(file, &mut points) {
        Ok(score) => lines::form(
            page,
            Music {
                score,
                points: &points,
            },
        ),
        Err(_) => page.bytes(b"refused 13\n"),
    }
}

// Writes the text form of a score file, or the refusal of other bytes, and answers how many bytes it
// has. The second promise lets a caller cut the output to that many bytes.
pub fn form_of(file: &[u8], out: &mut [u8; 65536]) -> usize
    ensures puts { Puts 0 (form_text file.now) out.old result out.new }
    ensures upper_bound { (result ≤ length out.new) × (result ≡ length (take result out.new)) }
{
    let mut page = Page::new(out);
    form(&mut page, file);
    page.place
}
