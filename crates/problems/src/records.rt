// The records of a pass, in the words that it is lent: counted, and where it writes put one behind
// another.
ghost use Rattle.std.specs.Prelude.{◌≡◌, true, cond, [], ◌∷◌, ◌+◌, ◌*◌, ◌≤◌, length};
ghost use Rattle.std.proofs.lemmas.List.Edits.{sets};
ghost use Rattle.problems.specs.Problems.{problem_if};
ghost use Rattle.problems.specs.Records.{number_of, IsReady, Adds, Puts};

// What is wrong; its number stands in the record.
#[derive(Clone, Copy, Debug, PartialEq, Eq)]
pub enum Code {
    ManyMeters,
    LaterBar,
    NoNumerator,
    BadDenominator,
    LowBar,
    ManyTempos,
    LaterBeat,
    BadTempo,
    NotAbove,
}

impl From<Code> for u32 {
    ghost use Rattle.std.specs.Prelude.{◌≡◌};
    ghost use Rattle.problems.specs.Records.{number_of};

    ghost from_gives = { λ code n. n ≡ number_of code };

    fn from(code: Code) -> u32 {
        match code {
            Code::ManyMeters => 1,
            Code::LaterBar => 2,
            Code::NoNumerator => 3,
            Code::BadDenominator => 4,
            Code::LowBar => 5,
            Code::ManyTempos => 6,
            Code::LaterBeat => 7,
            Code::BadTempo => 8,
            Code::NotAbove => 9,
        }
    }
}

#[derive(Drop)]
pub struct Records<'a> {
    pub out: &'a mut [u32],
    pub writing: bool,
    pub count: u32,
}

impl<'a> Records<'a> {
    // The record behind `count` others, in a pass that writes.
    fn put(&mut self, code: u32, index: u32, value: u32)
        requires { self.old.writing ≡ true → 3 * self.old.count + 3 ≤ length self.old.out.now }
        ensures { Puts self.old (code ∷ index ∷ value ∷ []) self.new }
    {
        if !self.writing {
            return;
        }
        let at = self.count as usize * 3;
        self.out[at] = code;
        self.out[at + 1] = index;
        self.out[at + 2] = value;
    }

    // One more record where the problem was found.
    pub fn note(&mut self, found: bool, code: Code, index: u32, value: u32)
        requires { IsReady self.old (problem_if found (number_of code) index value) }
        ensures { Adds self.old (problem_if found (number_of code) index value) self.new }
    {
        if found {
            self.put(u32::from(code), index, value);
            self.count += 1;
        }
    }
}
