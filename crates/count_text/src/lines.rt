// The three lines of an answer: the count, whether it is sure, and the display's row.
ghost use Rattle.std.specs.Prelude.{◌≡◌, ◌+◌, ◌≤◌, length};
ghost use Rattle.text.specs.Pages.{Appends};
ghost use Rattle.count_text.specs.Answers.{amount_text, unit_text, count_line, fits_line, repeated, row_text, over_text, row_line, lines_text};

use beats::Beat;
use text::Page;

// How many bars there are past the first `less`. A count that was not searched is more than 2^31.
fn amount(page: &mut Page, count: u32, less: u32)
    requires { (page.old.place + 20 ≤ length page.old.out.now) × (less ≤ count) × (less ≤ 20) }
    ensures puts { Appends (amount_text count less) page.old page.new }
    ensures upper_bound { page.new.place ≤ page.old.place + 20 }
{
    if count == 0xffff_ffff {
        page.bytes(b"more than ");
        page.decimal((0x8000_0000 - less) as u64);
    } else {
        page.decimal((count - less) as u64);
    }
}

// ` bar` or ` bars`.
fn unit(page: &mut Page, count: u32)
    requires { page.old.place + 5 ≤ length page.old.out.now }
    ensures puts { Appends (unit_text count) page.old page.new }
    ensures upper_bound { page.new.place ≤ page.old.place + 5 }
{
    if count == 1 {
        page.bytes(b" bar");
    } else {
        page.bytes(b" bars");
    }
}

// `4 bars to beat 28/3`.
fn count_line(page: &mut Page, count: u32, beat: Beat)
    requires { page.old.place + 80 ≤ length page.old.out.now }
    ensures puts { Appends (count_line count beat) page.old page.new }
    ensures upper_bound { page.new.place ≤ page.old.place + 80 }
{
    amount(page, count, 0);
    unit(page, count);
    page.bytes(b" to beat ");
    page.beat(beat);
    page.byte(b'\n');
}

// Whether the score fits, and so whether the count is sure.
fn fits_line(page: &mut Page, fits: bool)
    requires { page.old.place + 64 ≤ length page.old.out.now }
    ensures puts { Appends (fits_line fits) page.old page.new }
    ensures upper_bound { page.new.place ≤ page.old.place + 64 }
{
    if fits {
        page.bytes(b"the score fits: the count is sure\n");
    } else {
        page.bytes(b"the score does not fit: the count is not sure\n");
    }
}

// So many squares of one kind.
fn squares(page: &mut Page, square: u8, count: u32)
    requires { page.old.place + count ≤ length page.old.out.now }
    ensures puts { Appends (repeated square count) page.old page.new }
    ensures place { page.new.place ≡ page.old.place + count }
{
    for _ in 0..count {
        page.byte(square);
    }
}

// The display's row: twenty squares, of which as many are filled as there are bars.
fn row(page: &mut Page, count: u32)
    requires { page.old.place + 22 ≤ length page.old.out.now }
    ensures puts { Appends (row_text count) page.old page.new }
    ensures upper_bound { page.new.place ≤ page.old.place + 22 }
{
    let full = count.min(20);
    page.byte(b'[');
    squares(page, b'#', full);
    squares(page, b'.', 20 - full);
    page.byte(b']');
}

// ` 7 over`, where the count is over twenty.
fn over(page: &mut Page, count: u32)
    requires { page.old.place + 26 ≤ length page.old.out.now }
    ensures puts { Appends (over_text count) page.old page.new }
    ensures upper_bound { page.new.place ≤ page.old.place + 26 }
{
    if count > 20 {
        page.byte(b' ');
        amount(page, count, 20);
        page.bytes(b" over");
    }
}

fn row_line(page: &mut Page, count: u32)
    requires { page.old.place + 49 ≤ length page.old.out.now }
    ensures puts { Appends (row_line count) page.old page.new }
    ensures upper_bound { page.new.place ≤ page.old.place + 49 }
{
    row(page, count);
    over(page, count);
    page.byte(b'\n');
}

// The three lines.
pub fn lines(page: &mut Page, count: u32, fits: bool, beat: Beat)
    requires { page.old.place + 193 ≤ length page.old.out.now }
    ensures puts { Appends (lines_text count fits beat) page.old page.new }
    ensures upper_bound { page.new.place ≤ page.old.place + 193 }
{
    count_line(page, count, beat);
    fits_line(page, fits);
    row_line(page, count);
}
