// The route desk: a machine that deals junction states out to workers and takes them back, one call at a time.
// The calls are Machine::opening, take, take_limited, bring, morning and path. Each is defined for every input.
// A call looks at the task's conditions 1 to 4 and at the stored keys, which no event makes wrong, and goes on with what it found: a
// morning looks once for all its events, and `called` serves one event for a caller that looked before.
#![tactic(auto)]

ghost use Rattle.std.specs.Prelude.{◌≡◌, ◌+◌, ◌*◌};
ghost use Rattle.desk.specs.Reply.{code_of, refusal};
ghost use Rattle.desk.specs.Morning.{event_of};

use rule::Refusal;

mod bring;
mod fits;
mod limited;
mod mornings;
mod opening;
mod path;
mod take;

pub use mornings::{called, morning_fault};

// The phases.
pub const SEARCHING: u8 = 0;

pub const FOUND: u8 = 1;

pub const NO_PATH: u8 = 2;

// n, k, start, goal, W and E of the task; the phase; for each state a mark, a label and the number of the passage that the
// label came by; for each worker the state that it holds; for each state its key, 0 where it is unseen. A phase, a mark and
// what a worker holds are numbers, since a caller may hand in whatever numbers it kept: those that are none of these are
// refused with 8.
#[derive(Clone, Copy)]
pub struct Machine {
    pub n: usize,
    pub k: usize,
    pub start: usize,
    pub goal: usize,
    pub pull: u16,
    pub excess: u16,
    pub phase: u8,
    pub mark: [u8; 256],
    pub label: [u32; 256],
    pub via: [u16; 256],
    pub held: [u16; 32],
    pub key: [u64; 256],
}

// A worker's call.
#[derive(Clone, Copy, Debug, PartialEq, Eq)]
pub enum Event {
    Take(usize),
    Bring(usize),
}

// What an event as a number counts its call in.
pub const CALL: u32 = 65_536;

// The call that a number asks for: a Take where it counts none, else a Bring.
impl From<u32> for Event {
    ghost from_gives = { λ number event. event ≡ event_of number };

    fn from(number: u32) -> Event {
        let worker = (number % CALL) as usize;
        if number / CALL == 0 {
            Event::Take(worker)
        } else {
            Event::Bring(worker)
        }
    }
}

#[derive(Clone, Copy, Debug, PartialEq, Eq)]
pub enum Reply {
    Opened,
    Took(u16),
    Brought(u32),
    Found(u32),
    NoPath,
    Wait(u16),
    Read(u16),
    Refused(Refusal),
    Done,
    Cut(u32),
}

// What a reply as a number counts its case in.
pub const CASE: u64 = 4_294_967_296;

// A refusal as a number, by its own number: one that no refusal of this desk has, too.
pub fn refused_code(number: u8) -> u64
    ensures { result ≡ refusal * 4294967296 + number }
{
    7 * CASE + u64::from(number)
}

// A reply as a number, for callers that keep it in a row: its case and the number that it carries.
impl From<Reply> for u64 {
    ghost from_gives = { λ reply number. number ≡ code_of reply };

    #[tactic(auto, unfolding(crate::specs::Reply::code_of))]
    fn from(reply: Reply) -> u64 {
        match reply {
            Reply::Opened => 0,
            Reply::Took(s) => CASE + u64::from(s),
            Reply::Brought(many) => 2 * CASE + u64::from(many),
            Reply::Found(cost) => 3 * CASE + u64::from(cost),
            Reply::NoPath => 4 * CASE,
            Reply::Wait(s) => 5 * CASE + u64::from(s),
            Reply::Read(many) => 6 * CASE + u64::from(many),
            Reply::Refused(refusal) => refused_code(u8::from(refusal)),
            Reply::Done => 8 * CASE,
            Reply::Cut(limit) => 9 * CASE + u64::from(limit),
        }
    }
}

// The machine that a call hands back, with its reply beside it.
#[derive(Clone, Copy)]
pub struct Answer {
    pub machine: Machine,
    pub reply: Reply,
}

// The answer of a limited Take, with the comparisons that it made.
#[derive(Clone, Copy)]
pub struct Counted {
    pub answer: Answer,
    pub comparisons: usize,
}
