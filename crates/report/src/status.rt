// What a file comes to: `deskrun` ends with its number for a status where all of its text was written.
ghost use Rattle.std.specs.Prelude.{◌≡◌};
ghost use Rattle.report.specs.Status.{status_with, ending_of, status_of};

use super::session::opened;
use super::{ESTIMATES, EVENTS, PASSAGES};
use desk::Reply;

// The file's calls are run, or it has a fault, or its task's opening is refused.
#[derive(Clone, Copy, Debug, PartialEq, Eq)]
pub enum Ending {
    Run = 0,
    FileFault = 1,
    OpeningRefused = 2,
}

impl From<Ending> for u8 {
    ghost from_gives = { λ ending status. status ≡ status_with ending };

    fn from(ending: Ending) -> u8 {
        ending as u8
    }
}

// By what reading the file and opening its task come to; with the three arrays that `put_file` has too. The arrays stand here as in `put_file`: a function that both shared would
// have to copy them out.
pub fn ending_of(file: &[u8]) -> Ending
    ensures { result ≡ ending_of file.now }
{
    let mut passages = [0u32; PASSAGES];
    let mut estimates = [0u32; ESTIMATES];
    let mut events = [0u32; EVENTS];
    match taskfile::read(file, &mut passages, &mut estimates, &mut events) {
        Ok(c) => match opened(c, &passages, &estimates).reply {
            Reply::Refused(_) => Ending::OpeningRefused,
            _ => Ending::Run,
        },
        Err(_) => Ending::FileFault,
    }
}

// The same as a number.
#[tactic(auto, unfolding(crate::specs::Status::status_of))]
pub fn status_of(file: &[u8]) -> u8
    ensures { result ≡ status_of file.now }
{
    u8::from(ending_of(file))
}
