// What a scanned file holds, written to the slices that are lent for it.
ghost use Rattle.std.specs.Prelude.{◌≡◌, [], ◌∷◌, ◌+◌, ◌*◌, ◌≤◌, ◌<◌, length};
ghost use Rattle.laws.specs.Part.{overlaid};
ghost use Rattle.taskfile.specs.Bytes.{word, long, number_at};
ghost use Rattle.taskfile.specs.Contents.{contents, roomy_for, file_passages, file_estimates, file_calls};
ghost use Rattle.taskfile.specs.Records.{worker_width, call_place};
ghost use Rattle.taskfile.specs.FillLaws.{row_from};

use super::layout::{CALL_LENGTH, FRONT, call_place, passage_place, row_place};
use super::{Contents, PER_CALL, Scan, bytes};

// A passage's three numbers.
pub fn put_passage(file: &[u8], at: usize, three: &mut [u32])
    requires { (at + 12 ≤ length file.now) × (length three.old ≡ 3) }
    ensures { three.new ≡ word file.now (at + 4) ∷ word file.now (at + 6) ∷ long file.now (at + 8) ∷ [] }
{
    three[0] = u32::from(bytes::word(file, at + 4));
    three[1] = u32::from(bytes::word(file, at + 6));
    three[2] = bytes::long(file, at + 8);
}

// One row of estimates.
pub fn put_row(file: &[u8], at: usize, row: &mut [u32])
    requires { at + (6 + 4 * length row.old) ≤ length file.now }
    ensures { row.new ≡ row_from file.now at (length row.old) }
{
    for (c, estimate) in row.iter_mut().enumerate() {
        *estimate = bytes::long(file, at + 6 + 4 * c);
    }
}

// A call's worker.
#[tactic(auto, using(crate::specs::BytesLaws::byte_is))]
pub fn worker(file: &[u8], at: usize) -> u8
    requires { at + worker_width ≤ length file.now }
    ensures { result ≡ number_at worker_width file.now at }
{
    file[at]
}

// A file that was scanned whole.
#[derive(Clone, Copy)]
pub struct Whole<'a> {
    pub file: &'a [u8],
    pub scan: Scan,
    pub ghost few: { scan.passages ≤ 512 },
    pub ghost small: { scan.n ≤ 64 },
    pub ghost inside: { call_place scan.passages scan.n scan.calls ≤ length file.now },
}

impl Whole<'_> {
    // The head's numbers, and how many passages and calls there are.
    pub fn contents(&self) -> Contents
        ensures { result ≡ contents self.now.file.now self.now.scan }
    {
        Contents {
            n: self.scan.n,
            k: usize::from(bytes::word(self.file, 6)),
            start: usize::from(bytes::word(self.file, 8)),
            goal: usize::from(bytes::word(self.file, 10)),
            pull: bytes::word(self.file, 12),
            excess: bytes::word(self.file, 14),
            passages: self.scan.passages,
            calls: self.scan.calls,
        }
    }

    // Slices of these lengths are long enough for what was scanned.
    #[tactic(auto, unfolding(crate::specs::Contents::roomy_for))]
    pub fn roomy(&self, passages: usize, estimates: usize, calls: usize) -> bool
        ensures { result ≡ roomy_for self.now.scan passages estimates calls }
    {
        let s = self.scan;
        3 * s.passages <= passages && s.n * s.n <= estimates && s.calls <= calls
    }

    // The passages, three numbers each.
    pub fn put_passages(&self, passages: &mut [u32])
        requires { 3 * self.now.scan.passages ≤ length passages.old }
        ensures { passages.new ≡ overlaid 0 (file_passages self.now.file.now self.now.scan.passages) passages.old }
    {
        // By place: what `chunks_exact_mut` lends is no longer known to hold what was written once it is back.
        for i in 0..self.scan.passages {
            put_passage(self.file, passage_place(i), &mut passages[3 * i..3 * i + 3]);
        }
    }

    // The estimates, row by row.
    pub fn put_rows(&self, estimates: &mut [u32])
        requires { self.now.scan.n * self.now.scan.n ≤ length estimates.old }
        ensures { estimates.new ≡ overlaid 0 (file_estimates self.now.file.now self.now.scan.passages self.now.scan.n) estimates.old }
    {
        let n = self.scan.n;
        // By number: a row's place in the file follows from it. (n may be 0, where `chunks_exact` can't be called.)
        for r in 0..n {
            let at = row_place(self.scan.passages, n, r);
            put_row(self.file, at, &mut estimates[r * n..r * n + n]);
        }
    }

    // The calls, a number each.
    pub fn put_calls(&self, calls: &mut [u32])
        requires { self.now.scan.calls ≤ length calls.old }
        ensures { calls.new ≡ overlaid 0 (file_calls self.now.file.now self.now.scan.passages self.now.scan.n self.now.scan.calls) calls.old }
    {
        let s = self.scan;
        let first = call_place(s.passages, s.n, 0);
        let front = &mut calls[..s.calls];
        for (i, call) in front.iter_mut().enumerate() {
            let at = first + (FRONT + CALL_LENGTH) * i;
            *call = PER_CALL * u32::from(self.file[at + 4]) + u32::from(worker(self.file, at + 5));
        }
    }
}
