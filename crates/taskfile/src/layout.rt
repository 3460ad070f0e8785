// What reader and writer share: the kinds of record, how long the payload of each is, and where the records of a file begin.
ghost use Rattle.std.specs.Prelude.{◌≡◌, ◌+◌, ◌^◌, ◌<◌};
ghost use Rattle.taskfile.specs.Records.{payload_place, row_length, passage_place, row_place, call_place};
ghost use Rattle.taskfile.specs.Kinds.{kind_of, kind_number};

use super::FaultKind;

// The kinds of record, as a file numbers them.
#[derive(Clone, Copy, Debug, PartialEq, Eq)]
pub enum RecordKind {
    Head = 1,
    Passage = 2,
    Row = 3,
    Call = 4,
}

impl TryFrom<u16> for RecordKind {
    type Error = FaultKind;

    ghost try_from_gives = { λ number result. result ≡ kind_of number };

    fn try_from(number: u16) -> Result<RecordKind, FaultKind> {
        match number {
            1 => Ok(RecordKind::Head),
            2 => Ok(RecordKind::Passage),
            3 => Ok(RecordKind::Row),
            4 => Ok(RecordKind::Call),
            _ => Err(FaultKind::OutOfOrder),
        }
    }
}

impl From<RecordKind> for usize {
    ghost from_gives = { λ kind number. number ≡ kind_number kind };

    fn from(kind: RecordKind) -> usize {
        kind as usize
    }
}

// A record's payload comes behind its length and its kind, two bytes each.
pub const FRONT: usize = 4;

pub const HEAD_LENGTH: usize = 12;

pub const PASSAGE_LENGTH: usize = 8;

pub const CALL_LENGTH: usize = 2;

// A row's number and n estimates.
pub fn row_length(n: usize) -> usize
    requires { row_length n < 2 ^ 64 }
    ensures { result ≡ row_length n }
{
    2 + 4 * n
}

// Where passage i begins, behind the head.
pub fn passage_place(i: usize) -> usize
    requires { passage_place i < 2 ^ 64 }
    ensures { result ≡ passage_place i }
{
    FRONT + HEAD_LENGTH + (FRONT + PASSAGE_LENGTH) * i
}

// Where row r begins, behind so many passages.
pub fn row_place(passages: usize, n: usize, r: usize) -> usize
    requires { (payload_place + row_length n < 2 ^ 64) × (row_place passages n r < 2 ^ 64) }
    ensures { result ≡ row_place passages n r }
{
    passage_place(passages) + r * (FRONT + row_length(n))
}

// Where call i begins, behind so many passages and n rows; and where a file with i calls ends.
pub fn call_place(passages: usize, n: usize, i: usize) -> usize
    requires { (payload_place + row_length n < 2 ^ 64) × (call_place passages n i < 2 ^ 64) }
    ensures { result ≡ call_place passages n i }
{
    row_place(passages, n, n) + (FRONT + CALL_LENGTH) * i
}
