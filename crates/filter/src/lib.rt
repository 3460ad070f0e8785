// `deskrun` from standard input to its exit status: the input is read to its end, reported on once, and the text written.
#![tactic(auto)]

ghost use Rattle.std.specs.Prelude.{◌<◌};
ghost use Rattle.filter.specs.Run.{Answered, Ran};

mod stream;

use stream::{Unread, Unwritten};

// What a run ends with where the file's own status doesn't say it. The last is what a shell says of a program that a closed
// pipe ended.
const CANNOT_READ: u32 = 3;

const CANNOT_WRITE: u32 = 4;

const PIPE_CLOSED: u32 = 141;

// Room for a file and one byte more, so that a longer one is seen to be too long, and for the longest text.
pub const FILE_ROOM: usize = 65537;

pub const TEXT_ROOM: usize = report::ROOM;

// Reports on a file that was read, and writes the text to standard output. The status is the file's where all was written.
#[tactic(auto, using(report::specs::SessionLaws::report_within))]
fn tell(rt: &HostRuntime, file: &[u8], text: &mut [u8]) -> u32
    ensures answered { Answered result file.now text.old text.new }
    ensures small { result < 256 }
{
    let many = report::report(file, text);
    match stream::drain(rt, &text[..many]) {
        Ok(()) => u32::from(report::status_of(file)),
        Err(Unwritten::Gone) => PIPE_CLOSED,
        Err(Unwritten::Failed) => CANNOT_WRITE,
    }
}

// Reads the file from standard input, and reports on it where it could be read to its end. The number fits an exit status.
pub fn run(rt: &HostRuntime, file: &mut [u8], text: &mut [u8]) -> u32
    ensures ran { Ran result file.new text.old text.new }
    ensures small { result < 256 }
{
    match stream::fill(rt, file) {
        Ok(got) => tell(rt, &file[..got], text),
        Err(Unread) => CANNOT_READ,
    }
}

// `deskrun`: the same over buffers of the right sizes. The number that comes back is the exit status.
pub fn deskrun(rt: &HostRuntime, file: &mut [u8; FILE_ROOM], text: &mut [u8; TEXT_ROOM]) -> u32
    ensures { Ran result file.new text.old text.new }
{
    run(rt, file, text)
}
