// Words put on a page, the lowest byte first.
ghost use Rattle.std.specs.Prelude.{◌+◌, ◌*◌, ◌≤◌, length};
ghost use Rattle.text.specs.Pages.{Appends};
ghost use Rattle.score.specs.Bytes.{word_bytes, words_bytes};
ghost use Rattle.score_writer.specs.Files.{point_words, tempo_words};

use tempo::TempoMap;
use text::Page;

fn word(page: &mut Page, word: u32)
    requires { page.old.place + 4 ≤ length page.old.out.now }
    ensures { Appends (word_bytes word) page.old page.new }
{
    page.bytes(&word.to_le_bytes())
}

pub fn words(page: &mut Page, words: &[u32])
    requires { page.old.place + 4 * length words.now ≤ length page.old.out.now }
    ensures { Appends (words_bytes words.now) page.old page.new }
{
    for w in words {
        word(page, *w);
    }
}

// A tempo point, four words.
fn point(page: &mut Page, num: i64, den: u32, bpm: u32)
    requires { page.old.place + 16 ≤ length page.old.out.now }
    ensures { Appends (words_bytes (point_words num den bpm)) page.old page.new }
{
    let whole = numbers::as_bits(num);
    let low = (whole % 4294967296) as u32;
    let high = (whole / 4294967296) as u32;
    words(page, &[low, high, den, bpm]);
}

// The points of a tempo map.
pub fn points(page: &mut Page, map: TempoMap)
    requires { page.old.place + 16 * length map.nums.now ≤ length page.old.out.now }
    ensures { Appends (words_bytes (tempo_words map.entry.nums.now map.entry.dens.now map.entry.tempos.now)) page.old page.new }
{
    // Stays: a map is three parallel lists, as document 01 and C lend it, and a zip of three is no
    // plainer.
    for k in 0..map.len() {
        point(page, map.nums[k], map.dens[k], map.tempos[k]);
    }
}
