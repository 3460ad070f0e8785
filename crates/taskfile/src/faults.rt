// Why a file is refused and why one can't be written, each with its number.
ghost use Rattle.std.specs.Prelude.{◌≡◌};
ghost use Rattle.taskfile.specs.Faults.{fault_number, unwritable_number};

// What is wrong with a file, or with the slices that are lent for it.
#[derive(Clone, Copy, Debug, PartialEq, Eq)]
pub enum FaultKind {
    CutShort = 21,
    OutOfOrder = 22,
    TooLarge = 23,
    ShortSlice = 27,
}

impl From<FaultKind> for u8 {
    ghost from_gives = { λ kind number. number ≡ fault_number kind };

    fn from(kind: FaultKind) -> u8 {
        kind as u8
    }
}

// A fault, and how far into the file it lies.
#[derive(Clone, Copy, Debug, PartialEq, Eq)]
pub struct Fault {
    pub kind: FaultKind,
    pub at: usize,
}

// Why a task and events aren't written.
#[derive(Clone, Copy, Debug, PartialEq, Eq)]
pub enum Unwritable {
    Uncarried = 24,
    FileTooLarge = 25,
    ShortBuffer = 26,
}

impl From<Unwritable> for u8 {
    ghost from_gives = { λ refusal number. number ≡ unwritable_number refusal };

    fn from(refusal: Unwritable) -> u8 {
        refusal as u8
    }
}
