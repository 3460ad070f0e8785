// The task file's reader and writer. A file is scanned whole, record by record, before anything is written; then its passages,
// estimates and calls go to the three slices that are lent for them. A task and events that a file can carry are written record by record.
#![tactic(auto)]

mod bytes;
mod carry;
mod faults;
mod fill;
mod layout;
mod put;
mod records;

ghost use Rattle.std.specs.Prelude.{◌≡◌};
ghost use Rattle.taskfile.specs.Contents.{read_of};
ghost use Rattle.taskfile.specs.Writing.{write_of};

use carry::Task;
pub use faults::{Fault, FaultKind, Unwritable};
use fill::Whole;

// What a file holds at most.
pub const MOST_STATES: usize = 64;

pub const MOST_PASSAGES: usize = 512;

pub const MOST_BYTES: usize = 65536;

// An event is one number: so much for each call, 0 Take and 1 Bring, plus the worker.
pub const PER_CALL: u32 = 65536;

// A scan at its next record: n of the head, 0 before it, which is no task's n; and how many passages, rows and calls there were.
#[derive(Clone, Copy, Default)]
pub struct Scan {
    pub at: usize,
    pub n: usize,
    pub passages: usize,
    pub rows: usize,
    pub calls: usize,
}

// The head's numbers, and how many passages and calls were read.
#[derive(Clone, Copy)]
pub struct Contents {
    pub n: usize,
    pub k: usize,
    pub start: usize,
    pub goal: usize,
    pub pull: u16,
    pub excess: u16,
    pub passages: usize,
    pub calls: usize,
}

// A task's six numbers, as a file's head carries them. Each is as wide as a caller may pass it: what two bytes can't hold is
// refused as 24, so these aren't the narrower six of Contents.
#[derive(Clone, Copy)]
pub struct Head {
    pub n: usize,
    pub k: usize,
    pub start: usize,
    pub goal: usize,
    pub pull: usize,
    pub excess: usize,
}

// Reads a task file into the three slices: three numbers a passage, n × n estimates, a number a call.
pub fn read(
    file: &[u8],
    passages: &mut [u32],
    estimates: &mut [u32],
    calls: &mut [u32],
) -> Result<Contents, Fault>
    ensures value { result ≡ (read_of file.now passages.old estimates.old calls.old).outcome }
    ensures passages_after { passages.new ≡ (read_of file.now passages.old estimates.old calls.old).passages }
    ensures estimates_after { estimates.new ≡ (read_of file.now passages.old estimates.old calls.old).estimates }
    ensures calls_after { calls.new ≡ (read_of file.now passages.old estimates.old calls.old).calls }
{
    if file.len() > MOST_BYTES {
        return Err(Fault {
            kind: FaultKind::TooLarge,
            at: MOST_BYTES,
        });
    }
    let scan = records::scan(file)?;
    let whole = Whole { file, scan };
    if !whole.roomy(passages.len(), estimates.len(), calls.len()) {
        return Err(Fault {
            kind: FaultKind::ShortSlice,
            at: 0,
        });
    }
    whole.put_passages(passages);
    whole.put_rows(estimates);
    whole.put_calls(calls);
    Ok(whole.contents())
}

// Writes a task and a list of events as a task file to the front of a buffer, and answers the file's length.
pub fn write(
    head: Head,
    passages: &[u32],
    estimates: &[u32],
    calls: &[u32],
    buffer: &mut [u8],
) -> Result<usize, Unwritable>
    ensures value { result ≡ (write_of head passages.now estimates.now calls.now buffer.old).reply }
    ensures buffer_after { buffer.new ≡ (write_of head passages.now estimates.now calls.now buffer.old).buffer }
{
    let task = Task {
        head,
        passages,
        estimates,
        calls,
    };
    task.writable(buffer.len())?;
    Ok(task.put(buffer))
}
