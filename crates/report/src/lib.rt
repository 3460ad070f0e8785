// What `deskrun` prints: one function from a file's bytes to the text, over a reader, a desk and a line maker.
#![tactic(auto)]

mod line;
mod page;
mod session;
mod status;

pub use session::{ROOM, report};
pub use status::{Ending, ending_of, status_of};

// Room for what any file holds: 512 passages of three numbers, 64 × 64 estimates, and 11,008 calls. A file of 65,536 bytes
// holds 10,918 calls at most.
const PASSAGES: usize = 3 * 512;

const ESTIMATES: usize = 64 * 64;

const EVENTS: usize = 11008;
