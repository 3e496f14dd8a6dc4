// The parts of a score file, from a score whose counts are within the limits.
ghost use Rattle.std.specs.Prelude.{◌≡◌, ◌+◌, ◌*◌, ◌≤◌, length, take};
ghost use Rattle.tempo.specs.Answers.{all_beats};
ghost use Rattle.text.specs.Texts.{Puts};
ghost use Rattle.text.specs.Pages.{Appends};
ghost use Rattle.score.specs.Bytes.{words_bytes};
ghost use Rattle.score_writer.specs.Files.{header_words};
ghost use Rattle.score_writer.specs.Answers.{file_from};

use crate::words;
use beats::Beat;
use score::{LONGEST, Music};
use text::Page;

// Whether the tempo points that count are beats.
pub fn beats_good(music: Music) -> bool
    ensures { result ≡ all_beats (take music.entry.score.tempos music.entry.points.now.nums) (take music.entry.score.tempos music.entry.points.now.dens) }
{
    music.tempo_map().test().is_ok()
}

// The header, twelve words.
fn header(page: &mut Page, music: Music)
    requires { page.old.place + 48 ≤ length page.old.out.now }
    ensures { Appends (words_bytes (header_words music.entry.score)) page.old page.new }
{
    let score = music.score;
    let beat = meter::pickup_or(score.pickup, Beat { num: 0, den: 0 });
    let whole = numbers::as_bits(beat.num);
    let meters = score.meters as u32;
    let tempos = score.tempos as u32;
    let words = [
        1,
        score.rate,
        score.beats,
        score.bpm,
        beat.den,
        (whole % 4294967296) as u32,
        (whole / 4294967296) as u32,
        meters,
        48,
        tempos,
        48 + 12 * meters,
        48 + 12 * meters + 16 * tempos,
    ];
    words::words(page, &words);
}

// The file: the header, and behind it the points that the score counts.
pub fn write(music: Music, out: &mut [u8; LONGEST]) -> usize
    ensures { let points = music.entry.points.now in Puts 0 (file_from music.entry.score points.meter points.nums points.dens points.bpms) out.old result out.new }
{
    let mut page = Page::new(out);
    header(&mut page, music);
    words::words(&mut page, music.meter());
    words::points(&mut page, music.tempo_map());
    page.place
}
