// The refusals and their numbers. Types and prefixes themselves are definitions, in specs/.
#![tactic(auto)]

ghost use Rattle.std.specs.Prelude.{◌≡◌};
ghost use Rattle.stream.specs.Faults.{number};

// Why an operation refuses, with the number that the documents have for it.
#[derive(Clone, Copy, Debug, PartialEq, Eq)]
pub enum Fault {
    CutShort = 1,
    Unlisted = 2,
    LeftOver = 3,
    TypeTooLarge = 4,
    TooManyNodes = 5,
    NotNullable = 6,
    WrongShape = 7,
    SliceCutShort = 11,
    SliceUnlisted = 12,
    SliceLeftOver = 13,
    SliceMisplaced = 14,
    NoRoom = 20,
    OutputsDiffer = 30,
    TotalTooLarge = 31,
}

// The number of a refusal, which a caller in another language is told.
impl From<Fault> for u32 {
    ghost from_gives = { λ fault n. n ≡ number fault };

    fn from(fault: Fault) -> u32 {
        fault as u32
    }
}
