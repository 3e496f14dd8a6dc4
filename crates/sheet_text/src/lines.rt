// The lines of a sheet: for each bar its label, its start and its frame.
ghost use Rattle.std.specs.Prelude.{◌≡◌, ◌+◌, ◌*◌, ◌≤◌, length};
ghost use Rattle.meter.specs.Meters.{points_of};
ghost use Rattle.tempo.specs.Maps.{points};
ghost use Rattle.text.specs.Pages.{Appends};
ghost use Rattle.sheet_text.specs.Sheets.{label, line_text, line_of, lines_of, sheet_of};

use beats::Beat;
use meter::bars::MeterMap;
use tempo::TempoMap;
use text::Page;
use timeline::places;
use transport::Transport;

// The label of a bar.
fn label(bar: u32) -> u32
    ensures { result ≡ label bar }
{
    bar
}

// Label, start and frame.
fn line(page: &mut Page, label: u32, start: Beat, frame: u64)
    requires { page.old.place + length (line_text label start frame) ≤ length page.old.out.now }
    ensures { Appends (line_text label start frame) page.old page.new }
{
    page.decimal(label as u64);
    page.byte(b' ');
    page.beat(start);
    page.byte(b' ');
    page.decimal(frame);
    page.byte(b'\n');
}

// The line of a bar, which has at most 64 bytes.
pub fn bar_line(page: &mut Page, t: Transport, bar: u32, words: &[u32], map: &TempoMap)
    requires { page.old.place + 64 ≤ length page.old.out.now }
    ensures puts { Appends (line_of t (points_of words.now) (points map.now) bar) page.old page.new }
    ensures upper_bound { page.new.place ≤ page.old.place + 64 }
{
    let bars = MeterMap {
        words,
        default: t.beats_per_bar,
        pickup: t.pickup,
    };
    let start = bars.start(bar);
    let frame = places::frame_at_bar(t, bar, words, map);
    line(page, label(bar), start, frame);
}

// The lines of so many bars, from bar 0 on.
pub fn bar_lines(page: &mut Page, t: Transport, bars: u32, words: &[u32], map: &TempoMap)
    requires { page.old.place + 64 * bars ≤ length page.old.out.now }
    ensures puts { Appends (lines_of t (points_of words.now) (points map.now) bars) page.old page.new }
    ensures upper_bound { page.new.place ≤ page.old.place + 64 * bars }
{
    for bar in 0..bars {
        bar_line(page, t, bar, words, map);
    }
}

// The header, and the lines of eight bars.
pub fn sheet(page: &mut Page, t: Transport, words: &[u32], map: &TempoMap)
    requires { page.old.place + 528 ≤ length page.old.out.now }
    ensures puts { Appends (sheet_of t (points_of words.now) (points map.now)) page.old page.new }
    ensures upper_bound { page.new.place ≤ page.old.place + 528 }
{
    page.bytes(b"bar start frame\n");
    bar_lines(page, t, 8, words, map);
}
