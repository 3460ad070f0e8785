// The rule of a step on single numbers, and the readers of the two lent slices. Every comparison, key and label
// of the desk goes through here.
#![tactic(auto)]

ghost use Rattle.std.specs.Prelude.{◌≡◌, ◌+◌, ◌<◌, eqb};
ghost use Rattle.rule.specs.Marks.{is_live};
ghost use Rattle.rule.specs.Rule.{independent, key_of, lowers};

mod passage;
pub mod refusals;
mod table;

pub use passage::Passage;
pub use refusals::Refusal;
pub use table::Table;

// The marks. They are numbers and no enum: a caller may hand in a machine with any number for a mark, and one above these
// is refused with 8, which an enum could not be.
pub const UNSEEN: u8 = 0;

pub const OPEN: u8 = 1;

pub const OUT: u8 = 2;

pub const FINISHED: u8 = 3;

// The cost that marks a blocked passage. A number and no Option: the slices that are lent have it so.
pub const BLOCKED: u32 = 4_294_967_295;

// The most that a task has of each: states, workers, and passages.
pub const MOST_STATES: usize = 256;

pub const MOST_WORKERS: usize = 32;

pub const MOST_PASSAGES: usize = 4096;

// The most that a passage which isn't blocked costs.
pub const MOST_COST: u32 = 1_000_000;

// The most that a label or an estimate comes to.
pub const MOST_LABEL: u32 = 255_000_000;

// "No passage" and "holds nothing". A number and no Option: it stands in the rows of a machine, which C and whoever makes up a
// machine fill with any number.
pub const NONE: u16 = 65_535;

// The state with label_s is independent of the one with label_t, from which it is estimated h away.
pub fn independent(label_s: u32, label_t: u32, excess: u16, h: u32) -> bool
    ensures { result ≡ independent label_s label_t excess h }
{
    100 * (i64::from(label_s) - i64::from(label_t)) <= i64::from(excess) * i64::from(h)
}

// A state with this mark counts in comparisons: it is open or out.
pub fn is_live(mark: u8) -> bool
    ensures { result ≡ is_live mark }
{
    mark == OPEN || mark == OUT
}

// The key of a state with this label, from which the goal is estimated h away.
pub fn key(label: u32, pull: u16, h: u32) -> u64
    ensures { result ≡ key_of label pull h }
{
    100 * u64::from(label) + u64::from(pull) * u64::from(h)
}

// A far end with this mark and label gets the label `sum`.
#[tactic(auto, unfolding(crate::specs::Rule::lowers))]
pub fn lowers(mark: u8, label: u32, sum: u32) -> bool
    ensures { result ≡ lowers mark label sum }
{
    mark == UNSEEN || mark <= OPEN && sum < label
}

// A label is the label at the near end plus the passage's cost.
pub fn adds_up(label: u32, near_label: u32, cost: u32) -> bool
    ensures { result ≡ eqb label (near_label + cost) }
{
    u64::from(label) == u64::from(near_label) + u64::from(cost)
}
