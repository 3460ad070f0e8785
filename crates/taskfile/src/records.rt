// The scan: each record's faults, in their order, and the file's end.
ghost use Rattle.std.specs.Prelude.{◌≡◌, ◌+◌, ◌*◌, ◌-◌, ◌≤◌, ◌<◌, length};
ghost use Rattle.taskfile.specs.Scan.{payload_length, head_at, passage_at, row_at, call_at, record_at, advance, scanned, complete};
ghost use Rattle.taskfile.specs.Laws.{Inside};

use super::layout::{CALL_LENGTH, FRONT, HEAD_LENGTH, PASSAGE_LENGTH, RecordKind, row_length};
use super::{Fault, FaultKind, MOST_PASSAGES, MOST_STATES, Scan, bytes};

impl Scan {
    // The head and all rows are there.
    pub fn complete(self) -> bool
        ensures { result ≡ complete self }
    {
        self.n >= 1 && self.rows == self.n
    }
}

// A file at a scan's next record, all of which is there.
#[derive(Clone, Copy)]
pub struct Record<'a> {
    pub file: &'a [u8],
    pub scan: Scan,
    pub ghost inside: { Inside file.now scan },
}

// The scan behind each record, or the record's fault.
impl Record<'_> {
    // How long the payload is.
    pub fn length(&self) -> usize
        ensures { result ≡ payload_length self.now.file.now self.now.scan.at }
    {
        usize::from(bytes::word(self.file, self.scan.at))
    }

    #[tactic(auto, unfolding(crate::specs::Scan::head_at))]
    pub fn head(&self) -> Result<Scan, FaultKind>
        ensures { result ≡ head_at self.now.file.now self.now.scan }
    {
        let s = self.scan;
        if s.n != 0 || self.length() != HEAD_LENGTH {
            return Err(FaultKind::OutOfOrder);
        }
        let n = usize::from(bytes::word(self.file, s.at + FRONT));
        if !(1..=MOST_STATES).contains(&n) {
            return Err(FaultKind::TooLarge);
        }
        Ok(Scan {
            at: s.at + (FRONT + HEAD_LENGTH),
            n,
            ..s
        })
    }

    #[tactic(auto, unfolding(crate::specs::Scan::passage_at))]
    pub fn passage(&self) -> Result<Scan, FaultKind>
        ensures { result ≡ passage_at self.now.file.now self.now.scan }
    {
        let s = self.scan;
        if s.n < 1 || s.rows != 0 || self.length() != PASSAGE_LENGTH {
            return Err(FaultKind::OutOfOrder);
        }
        if s.passages >= MOST_PASSAGES {
            return Err(FaultKind::TooLarge);
        }
        Ok(Scan {
            at: s.at + (FRONT + PASSAGE_LENGTH),
            passages: s.passages + 1,
            ..s
        })
    }

    // A row of estimates.
    #[tactic(auto, unfolding(crate::specs::Scan::row_at))]
    pub fn row(&self) -> Result<Scan, FaultKind>
        requires { self.now.scan.n ≤ 64 }
        ensures { result ≡ row_at self.now.file.now self.now.scan }
    {
        let s = self.scan;
        if s.rows >= s.n
            || self.length() != row_length(s.n)
            || usize::from(bytes::word(self.file, s.at + FRONT)) != s.rows
        {
            return Err(FaultKind::OutOfOrder);
        }
        Ok(Scan {
            at: s.at + (FRONT + row_length(s.n)),
            rows: s.rows + 1,
            ..s
        })
    }

    #[tactic(auto, unfolding(crate::specs::Scan::call_at))]
    pub fn call(&self) -> Result<Scan, FaultKind>
        requires { self.now.scan.calls < 65536 }
        ensures { result ≡ call_at self.now.file.now self.now.scan }
    {
        let s = self.scan;
        if !s.complete() || self.length() != CALL_LENGTH || self.file[s.at + FRONT] > 1 {
            return Err(FaultKind::OutOfOrder);
        }
        Ok(Scan {
            at: s.at + (FRONT + CALL_LENGTH),
            calls: s.calls + 1,
            ..s
        })
    }

    // A record of any kind.
    #[tactic(auto, unfolding(crate::specs::Scan::record_at))]
    pub fn read(&self) -> Result<Scan, FaultKind>
        requires { (self.now.scan.n ≤ 64) × (self.now.scan.calls < 65536) }
        ensures { result ≡ record_at self.now.file.now self.now.scan }
    {
        match RecordKind::try_from(bytes::word(self.file, self.scan.at + 2))? {
            RecordKind::Head => self.head(),
            RecordKind::Passage => self.passage(),
            RecordKind::Row => self.row(),
            RecordKind::Call => self.call(),
        }
    }
}

// The next record, once all of it is known to be there.
#[tactic(auto, unfolding(crate::specs::Scan::advance))]
pub fn advance(file: &[u8], s: Scan) -> Result<Scan, FaultKind>
    requires { (length file.now ≤ 65536) × ((s.n ≤ 64) × (s.calls < 65536)) }
    ensures { result ≡ advance file.now s }
{
    let left = file.len().saturating_sub(s.at);
    if left < FRONT || usize::from(bytes::word(file, s.at)) > left - FRONT {
        return Err(FaultKind::CutShort);
    }
    Record { file, scan: s }.read()
}

// The whole file, record by record.
pub fn scan(file: &[u8]) -> Result<Scan, Fault>
    requires { length file.now ≤ 65536 }
    ensures { result ≡ scanned file.now }
{
    let mut s = Scan::default();
    while s.at < file.len() {
        s = advance(file, s).map_err(|kind| Fault { kind, at: s.at })?;
    }
    if !s.complete() {
        return Err(Fault {
            kind: FaultKind::CutShort,
            at: s.at,
        });
    }
    Ok(s)
}
