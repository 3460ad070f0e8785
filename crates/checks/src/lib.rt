// Opening's checks 1 to 7, and the clauses of "Fits" over the rows that they read. No function here knows the machine,
// so a field more in it changes nothing here.
#![tactic(auto)]

mod detours;
mod fits;
mod opening;
mod task;

pub use fits::{held_once, keys_right, labels_right, marks_right, workers_right};
pub use task::Task;
