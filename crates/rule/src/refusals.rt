// Why the desk refuses a call, and the number that documents 01 and 02 give the refusal.
ghost use Rattle.std.specs.Prelude.{◌≡◌};
ghost use Rattle.rule.specs.Refusals.{number_of};

// The refusals of the desk's calls, each with its number.
#[derive(Clone, Copy, Debug, PartialEq, Eq)]
pub enum Refusal {
    BadSizes = 1,
    BadEnds = 2,
    BadWeights = 3,
    BadPassage = 4,
    BadEstimate = 5,
    AbovePassage = 6,
    AboveDetour = 7,
    Unfit = 8,
    NoWorker = 9,
    NotSearching = 10,
    WrongHands = 11,
    NothingOut = 12,
    NotFound = 13,
    BrokenTrail = 14,
    ShortBuffer = 15,
    ShortRow = 16,
    NoEvent = 18,
}

impl From<Refusal> for u8 {
    ghost from_gives = { λ refusal number. number ≡ number_of refusal };

    fn from(refusal: Refusal) -> u8 {
        refusal as u8
    }
}
