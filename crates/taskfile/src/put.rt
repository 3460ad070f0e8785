// The records of a file, written to a buffer one behind the other.
ghost use Rattle.std.specs.Prelude.{◌≡◌, ◌++◌, ◌+◌, ◌*◌, ◌/◌, ◌≤◌, length};
ghost use Rattle.laws.specs.Part.{overlaid};
ghost use Rattle.laws.specs.Gather.{gathered};
ghost use Rattle.taskfile.specs.Bytes.{bytes_of};
ghost use Rattle.taskfile.specs.Cursors.{Puts};
ghost use Rattle.taskfile.specs.Kinds.{kind_number};
ghost use Rattle.taskfile.specs.Records.{payload_place, row_kind, call_kind, worker_width, call_length, call_place};
ghost use Rattle.taskfile.specs.Writing.{record_of, head_record, passage_record, row_record, call_record, file_of};
ghost use Rattle.taskfile.specs.WritingLaws.{row_bytes, call_payload};

use super::carry::Task;
use super::layout::{CALL_LENGTH, HEAD_LENGTH, PASSAGE_LENGTH, RecordKind, row_length};
use super::{Head, PER_CALL};

// A buffer, and the place in it that is written next.
#[derive(Drop)]
pub struct Cursor<'a> {
    pub buffer: &'a mut [u8],
    pub at: usize,
}

impl Cursor<'_> {
    // So many bytes of a number, the lowest first. (A u32 comes here by `as`, since std converts none to usize.)
    pub fn put<const WIDTH: usize>(&mut self, x: usize)
        requires { (WIDTH ≤ 8) × (self.old.at + WIDTH ≤ length self.old.buffer.now) }
        ensures { Puts (bytes_of WIDTH x) WIDTH self.old self.new }
    {
        let next = self.at + WIDTH;
        self.buffer[self.at..next].copy_from_slice(&x.to_le_bytes()[..WIDTH]);
        self.at = next;
    }

    // What each record begins with: the length of its payload, and its kind.
    #[tactic(auto, using(crate::specs::PutLaws::front_put))]
    pub fn put_length_and_kind(&mut self, payload: usize, kind: RecordKind)
        requires { self.old.at + 4 ≤ length self.old.buffer.now }
        ensures { Puts (bytes_of 2 payload ++ bytes_of 2 (kind_number kind)) 4 self.old self.new }
    {
        self.put::<2>(payload);
        self.put::<2>(usize::from(kind));
    }

    #[tactic(auto, using(crate::specs::PutLaws::head_put))]
    pub fn put_head(&mut self, head: Head)
        requires { self.old.at + 16 ≤ length self.old.buffer.now }
        ensures { Puts (head_record head) 16 self.old self.new }
    {
        self.put_length_and_kind(HEAD_LENGTH, RecordKind::Head);
        self.put::<2>(head.n);
        self.put::<2>(head.k);
        self.put::<2>(head.start);
        self.put::<2>(head.goal);
        self.put::<2>(head.pull);
        self.put::<2>(head.excess);
    }

    // A passage: from, to and cost.
    #[tactic(auto, using(crate::specs::PutLaws::passage_put))]
    pub fn put_passage(&mut self, passage: [u32; 3])
        requires { self.old.at + 12 ≤ length self.old.buffer.now }
        ensures { Puts (passage_record passage 0) 12 self.old self.new }
    {
        let [from, to, cost] = passage;
        self.put_length_and_kind(PASSAGE_LENGTH, RecordKind::Passage);
        self.put::<2>(from as usize);
        self.put::<2>(to as usize);
        self.put::<4>(cost as usize);
    }

    pub fn put_passages(&mut self, passages: &[u32])
        requires { self.old.at + 12 * (length passages.now / 3) ≤ length self.old.buffer.now }
        ensures { Puts (gathered (passage_record passages.now) (length passages.now / 3)) (12 * (length passages.now / 3)) self.old self.new }
    {
        let (whole, _) = passages.as_chunks::<3>();
        for &passage in whole {
            self.put_passage(passage);
        }
    }

    // A row's estimates.
    pub fn put_estimates(&mut self, row: &[u32])
        requires { self.old.at + 4 * length row.now ≤ length self.old.buffer.now }
        ensures { Puts (row_bytes row.now) (4 * length row.now) self.old self.new }
    {
        for &estimate in row {
            self.put::<4>(estimate as usize);
        }
    }

    // Row r.
    #[tactic(auto, using(crate::specs::PutLaws::row_put))]
    pub fn put_row(&mut self, r: usize, row: &[u32])
        requires { self.old.at + (6 + 4 * length row.now) ≤ length self.old.buffer.now }
        ensures { Puts (record_of row_kind (bytes_of 2 r ++ row_bytes row.now)) (6 + 4 * length row.now) self.old self.new }
    {
        self.put_length_and_kind(row_length(row.len()), RecordKind::Row);
        self.put::<2>(r);
        self.put_estimates(row);
    }

    // The n rows of a table of estimates.
    pub fn put_rows(&mut self, estimates: &[u32], n: usize)
        requires { (self.old.at + n * (6 + 4 * n) ≤ length self.old.buffer.now) × (n * n ≤ length estimates.now) }
        ensures { Puts (gathered (row_record estimates.now n) n) (n * (6 + 4 * n)) self.old self.new }
    {
        // By number, since a row begins with it. (n may be 0, where `chunks_exact` can't be called.)
        for r in 0..n {
            self.put_row(r, &estimates[r * n..r * n + n]);
        }
    }

    // A call's worker.
    pub fn put_worker(&mut self, worker: usize)
        requires { self.old.at + worker_width ≤ length self.old.buffer.now }
        ensures { Puts (bytes_of worker_width worker) worker_width self.old self.new }
    {
        self.put::<1>(worker);
    }

    #[tactic(auto, using(crate::specs::PutLaws::call_put))]
    pub fn put_call(&mut self, event: u32)
        requires { self.old.at + (payload_place + call_length) ≤ length self.old.buffer.now }
        ensures { Puts (record_of call_kind (call_payload event)) (payload_place + call_length) self.old self.new }
    {
        self.put_length_and_kind(CALL_LENGTH, RecordKind::Call);
        self.put::<1>((event / PER_CALL) as usize);
        self.put_worker((event % PER_CALL) as usize);
    }

    pub fn put_calls(&mut self, calls: &[u32])
        requires { self.old.at + (payload_place + call_length) * length calls.now ≤ length self.old.buffer.now }
        ensures { Puts (gathered (call_record calls.now) (length calls.now)) ((payload_place + call_length) * length calls.now) self.old self.new }
    {
        for &event in calls {
            self.put_call(event);
        }
    }
}

impl Task<'_> {
    // The whole file, and its length.
    #[tactic(auto, using(crate::specs::PutLaws::file_put, crate::specs::WritingLaws::file_length, crate::specs::Laws::row_width))]
    pub fn put(&self, buffer: &mut [u8]) -> usize
        requires { (call_place (length self.now.passages.now / 3) self.now.head.n (length self.now.calls.now) ≤ length buffer.old) × (self.now.head.n * self.now.head.n ≤ length self.now.estimates.now) }
        ensures value { result ≡ length (file_of self.now.head self.now.passages.now self.now.estimates.now self.now.calls.now) }
        ensures buffer_after { buffer.new ≡ overlaid 0 (file_of self.now.head self.now.passages.now self.now.estimates.now self.now.calls.now) buffer.old }
    {
        let mut out = Cursor { buffer, at: 0 };
        out.put_head(self.head);
        out.put_passages(self.passages);
        out.put_rows(self.estimates, self.head.n);
        out.put_calls(self.calls);
        out.at
    }
}
