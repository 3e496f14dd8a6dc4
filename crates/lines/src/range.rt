// A range of ascending lines: its start is found by a search of them all, and its end by steps from there.
ghost use Rattle.std.specs.Prelude.{◌≡◌, true, cond, ◌+◌, ◌≤◌, ltb, length, IfOk};
ghost use Rattle.numbers.specs.Answers.{accepted, then};
ghost use Rattle.numbers.specs.Refusals.{read};
ghost use Rattle.lines.specs.Lines.{ascends, lines_answer, between};
ghost use Rattle.lines.specs.Places.{Splits, Bracket, after_cut};

use numbers::Refusal;

// 1 where a line is less than a frame, else 0.
fn less(line: u64, than: u64) -> usize
    ensures { (result ≡ cond (ltb line than) 1 0) × (result ≤ 1) }
{
    usize::from(line < than)
}

// Whether no line is less than the one before. The falls are counted, and the first does not end the
// walk: lines that are fine are walked to the last in any case, and with one way out of the loop
// each costs less.
pub fn ascending(lines: &[u64]) -> bool
    ensures { result ≡ ascends lines.now }
{
    let mut low = 0;
    let mut falls: usize = 0;
    for &line in lines {
        falls += less(line, low);
        low = line;
    }
    falls == 0
}

// A lent list of lines of which none is less than the one before.
#[derive(Clone, Copy)]
pub struct Lines<'a> {
    pub frames: &'a [u64],
    pub ghost in_order: { ascends frames.now ≡ true },
}

impl<'a> Lines<'a> {
    // The list, tested: 4 or 11 refuses it.
    pub fn tested(frames: &'a [u64]) -> Result<Lines<'a>, Refusal>
        ensures test { then (read result) (λ lines. accepted tt) ≡ lines_answer frames.now }
        ensures same { IfOk result (λ lines. lines.frames.now ≡ frames.now) }
        ensures few { IfOk result (λ lines. length lines.frames.now ≤ 65536) }
    {
        crate::check_lines(frames)?;
        Ok(Lines { frames })
    }

    // A place nearer to the first line that is not before a frame, which is at most `size` lines on. Three
    // looks cut these lines into four parts. No look waits for what another finds, and what they find is
    // added up: a choice of two ways at each line would be one that no processor foresees.
    fn cut(self, place: usize, size: usize, frame: u64) -> usize
        requires { (3 ≤ size) × Bracket frame self.frames.now place (place + size) }
        ensures { Bracket frame self.entry.frames.now result (result + after_cut size) }
    {
        let lines = self.frames;
        let part = (size + 1) >> 2;
        let first = less(lines[place + part - 1], frame);
        let second = less(lines[place + 2 * part - 1], frame);
        let third = less(lines[place + 3 * part - 1], frame);
        place + part * (first + second + third)
    }

    // The place itself, line by line, where few lines are in question.
    fn walk(self, low: usize, size: usize, frame: u64) -> usize
        requires { Bracket frame self.frames.now low (low + size) }
        ensures { Splits frame self.entry.frames.now result }
    {
        let lines = self.frames;
        let mut place = low;
        for _look in 0..size {
            place += less(lines[place], frame);
        }
        place
    }

    // The place of the first line that is not before a frame, where it is known to lie from low to high.
    // Stays: tried, slower: with std's binary searches in its place a block of the cue call cost 100 to
    // 150 ns in place of 45 to 60 (docs/COSTS.md).
    fn search(self, low: usize, high: usize, frame: u64) -> usize
        requires { Bracket frame self.frames.now low high }
        ensures { Splits frame self.entry.frames.now result }
    {
        let mut place = low;
        let mut size = high - low;
        while 2 < size {
            place = self.cut(place, size, frame);
            size -= 3 * ((size + 1) >> 2);
        }
        self.walk(place, size, frame)
    }

    // The place of the first line that is not before a frame; past the last where there is none.
    pub fn place_of(self, frame: u64) -> usize
        ensures { Splits frame self.entry.frames.now result }
    {
        self.search(0, self.frames.len(), frame)
    }

    // The same where no earlier place than `from` is in question. The steps from there double until one
    // would go past the place, so a place that is near is found by a look or two.
    pub fn place_from(self, from: usize, frame: u64) -> usize
        requires { Bracket frame self.frames.now from (length self.frames.now) }
        ensures { Splits frame self.entry.frames.now result }
    {
        let lines = self.frames;
        let mut low = from;
        let mut step: usize = 1;
        // Stays: each step is twice the one before, which no iterator over the lines gives.
        while step <= lines.len() - low {
            let last = low + (step - 1);
            if frame <= lines[last] {
                return self.search(low, last, frame);
            }
            low = last + 1;
            step += step;
        }
        self.search(low, lines.len(), frame)
    }

    // The lines from start, whose place is known, up to end.
    pub fn part_from(self, place: usize, start: u64, end: u64) -> &'a [u64]
        requires { Splits start self.frames.now place }
        ensures { result.now ≡ between start end self.entry.frames.now }
    {
        let lines = self.frames;
        if start >= end {
            return &lines[..0];
        }
        let upto = self.place_from(place, end);
        &lines[place..upto]
    }

    // The lines from start up to end.
    pub fn part(self, start: u64, end: u64) -> &'a [u64]
        ensures { result.now ≡ between start end self.entry.frames.now }
    {
        let place = self.place_of(start);
        self.part_from(place, start, end)
    }
}
