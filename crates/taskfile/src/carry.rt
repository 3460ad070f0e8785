// Whether a file can carry a task and its events, and what stands against writing them.
ghost use Rattle.std.specs.Prelude.{◌≡◌, ◌≤◌, leb};
ghost use Rattle.taskfile.specs.Records.{most_bytes, call_place};
ghost use Rattle.taskfile.specs.Writing.{within, sizes_carried, head_carried, ends_carried, calls_carried, carried};
ghost use Rattle.taskfile.specs.WritingLaws.{call_carried, writable};

use super::layout::call_place;
use super::{Head, MOST_BYTES, MOST_PASSAGES, MOST_STATES, PER_CALL, Unwritable};

// A task and its events, as they are lent to be written.
#[derive(Clone, Copy)]
pub struct Task<'a> {
    pub head: Head,
    pub passages: &'a [u32],
    pub estimates: &'a [u32],
    pub calls: &'a [u32],
}

impl Task<'_> {
    // A file can carry all of it.
    #[tactic(auto, unfolding(crate::specs::Writing::carried))]
    pub fn carried(&self) -> bool
        ensures { result ≡ carried self.now.head self.now.passages.now self.now.estimates.now self.now.calls.now }
    {
        sizes_carried(self.head.n, self.passages.len(), self.estimates.len())
            && head_carried(self.head)
            && ends_carried(self.passages)
            && calls_carried(self.calls)
    }

    // What stands against writing it to a buffer of so many places, if anything does.
    #[tactic(auto, using(crate::specs::WritingLaws::file_length), unfolding(crate::specs::WritingLaws::writable))]
    pub fn writable(&self, room: usize) -> Result<(), Unwritable>
        ensures { result ≡ writable self.now.head self.now.passages.now self.now.estimates.now self.now.calls.now room }
    {
        let many = self.passages.len() / 3;
        if !self.carried() {
            return Err(Unwritable::Uncarried);
        }
        if !file_small(many, self.head.n, self.calls.len()) {
            return Err(Unwritable::FileTooLarge);
        }
        if call_place(many, self.head.n, self.calls.len()) > room {
            return Err(Unwritable::ShortBuffer);
        }
        Ok(())
    }
}

// The number of states is 1 to 64, the passages are whole and at most 512, and the estimates are n × n.
#[tactic(auto, unfolding(crate::specs::Writing::sizes_carried))]
pub fn sizes_carried(n: usize, passages: usize, estimates: usize) -> bool
    ensures { result ≡ sizes_carried n passages estimates }
{
    (1..=MOST_STATES).contains(&n)
        && passages % 3 == 0
        && passages / 3 <= MOST_PASSAGES
        && estimates == n * n
}

// A number that two bytes hold.
#[tactic(auto, unfolding(crate::specs::Bytes::beyond))]
pub fn fits_word(x: usize) -> bool
    ensures { result ≡ within 2 x }
{
    u16::try_from(x).is_ok()
}

// The head's other five numbers.
#[tactic(auto, unfolding(crate::specs::Writing::head_carried))]
pub fn head_carried(head: Head) -> bool
    ensures { result ≡ head_carried head }
{
    fits_word(head.k)
        && fits_word(head.start)
        && fits_word(head.goal)
        && fits_word(head.pull)
        && fits_word(head.excess)
}

// The ends of every passage.
pub fn ends_carried(passages: &[u32]) -> bool
    ensures { result ≡ ends_carried passages.now }
{
    let (whole, _) = passages.as_chunks::<3>();
    whole.iter().all(|&[from, to, _]| fits_word(from as usize) && fits_word(to as usize))
}

// An event that is a Take or a Bring, of a worker that one byte holds.
#[tactic(auto, unfolding(crate::specs::Bytes::beyond))]
pub fn call_carried(event: u32) -> bool
    ensures { result ≡ call_carried event }
{
    event / PER_CALL <= 1 && u8::try_from(event % PER_CALL).is_ok()
}

// Every event.
pub fn calls_carried(calls: &[u32]) -> bool
    ensures { result ≡ calls_carried calls.now }
{
    calls.iter().all(|&event| call_carried(event))
}

// A file of at most 65,536 bytes; one with more passages, states or calls than that is longer.
pub fn file_small(passages: usize, n: usize, calls: usize) -> bool
    ensures { result ≡ leb (call_place passages n calls) most_bytes }
{
    passages <= MOST_BYTES
        && n <= MOST_BYTES
        && calls <= MOST_BYTES
        && call_place(passages, n, calls) <= MOST_BYTES
}
