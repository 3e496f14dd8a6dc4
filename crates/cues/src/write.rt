// The words of cues: the time, and then the place of the line.
ghost use Rattle.std.specs.Prelude.{◌≡◌, ◌+◌, length};
ghost use Rattle.std.proofs.lemmas.List.Edits.{sets};
ghost use Rattle.cues.specs.Plans.{part_words, lap_words, Writes, WritesLaps};

// The lines of a stretch of frames from `from` on, a part of a list; the first has this place there.
#[derive(Clone, Copy)]
pub struct Stretch<'a> {
    pub part: &'a [u64],
    pub from: u64,
    pub place: usize,
}

impl<'a> Stretch<'a> {
    // The cues of the stretch, where its first frame sounds at this time; written from the word `at` on.
    // Gives the next word.
    pub fn write(self, out: &mut [u64], at: usize, time: u64) -> usize
        requires { Writes self.part.now out.old at self.from self.place time }
        ensures next { result ≡ at + length (part_words time self.entry.from self.entry.place self.entry.part.now) }
        ensures words { out.new ≡ sets out.old at (part_words time self.entry.from self.entry.place self.entry.part.now) }
    {
        let mut word = at;
        for (i, line) in self.part.iter().enumerate() {
            out[word] = time + (*line - self.from);
            out[word + 1] = (self.place + i) as u64;
            word += 2;
        }
        word
    }

    // The same once a lap, which is so many frames long. A stretch with no lines costs nothing, whatever the laps.
    pub fn write_laps(self, out: &mut [u64], at: usize, time: u64, lap: u64, laps: u64) -> usize
        requires { WritesLaps self.part.now out.old at self.from lap self.place time laps }
        ensures next { result ≡ at + length (lap_words lap self.entry.from self.entry.place self.entry.part.now time laps) }
        ensures words { out.new ≡ sets out.old at (lap_words lap self.entry.from self.entry.place self.entry.part.now time laps) }
    {
        if self.part.is_empty() {
            return at;
        }
        let mut word = at;
        let mut begins = time;
        for _lap in 0..laps {
            word = self.write(out, word, begins);
            begins += lap;
        }
        word
    }
}
