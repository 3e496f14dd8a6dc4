// Why a call refuses, for all the crates above: `?` hands a refusal on, and `u32::from` gives its number.
ghost use Rattle.std.specs.Prelude.{◌≡◌};

// What falls between two steps.
#[derive(Clone, Copy, Debug, PartialEq, Eq)]
pub enum Part {
    Bars,
    Step,
    Len,
    Beat,
}

// Which part is off the grid, the place of its note, and its value as it was given.
#[derive(Clone, Copy, Debug, PartialEq, Eq)]
pub struct Miss {
    pub part: Part,
    pub place: usize,
    pub value: u32,
}

#[derive(Clone, Copy, Debug, PartialEq, Eq)]
pub enum Refusal {
    NotBeat,
    Overflow,
    // parallel lists of several lengths, note words that are not four a note, meter words not three a point
    Uneven,
    TooLong,
    EmptyMap,
    BadNumbers,
    OffGrid(Miss),
    NoRoom,
    BadLoop,
    OutOfReach,
    // a bar line less than the one before
    Descend,
    // a transport past its end, or with a bad loop or pickup
    Unsound,
    BadFile,
}

impl From<Part> for u32 {
    ghost use Rattle.std.specs.Prelude.{◌≡◌};
    ghost use Rattle.numbers.specs.Refusals.{part_number};

    ghost from_gives = { λ part n. n ≡ part_number part };

    fn from(part: Part) -> u32 {
        match part {
            Part::Bars => 0,
            Part::Step => 1,
            Part::Len => 2,
            Part::Beat => 3,
        }
    }
}

impl From<Refusal> for u32 {
    ghost use Rattle.std.specs.Prelude.{◌≡◌};
    ghost use Rattle.numbers.specs.Refusals.{number_of};

    ghost from_gives = { λ why n. n ≡ number_of why };

    fn from(why: Refusal) -> u32 {
        match why {
            Refusal::NotBeat => 1,
            Refusal::Overflow => 2,
            Refusal::Uneven => 3,
            Refusal::TooLong => 4,
            Refusal::EmptyMap => 5,
            Refusal::BadNumbers => 6,
            Refusal::OffGrid(_) => 7,
            Refusal::NoRoom => 8,
            Refusal::BadLoop => 9,
            Refusal::OutOfReach => 10,
            Refusal::Descend => 11,
            Refusal::Unsound => 12,
            Refusal::BadFile => 13,
        }
    }
}
