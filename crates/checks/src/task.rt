// A task as its caller tells it, and what opening finds wrong with it.
ghost use Rattle.std.specs.Prelude.{◌≡◌};
ghost use Rattle.checks.specs.Opening.{told, early_fault, fault};

use super::detours::BoundedTable;
use super::opening;
use rule::{Refusal, Table};

// The numbers of a task with the two slices that are lent beside them: nothing of it is known to be right.
#[derive(Clone, Copy)]
pub struct Task<'a> {
    pub n: usize,
    pub k: usize,
    pub start: usize,
    pub goal: usize,
    pub pull: u16,
    pub excess: u16,
    pub passages: &'a [u32],
    pub estimates: &'a [u32],
}

impl Task<'_> {
    // The first of 1 to 4 that applies. These are checked at each call.
    #[tactic(auto, unfolding(crate::specs::Opening::early_fault))]
    pub fn early_fault(&self) -> Result<(), Refusal>
        ensures { result ≡ early_fault (told self.now) }
    {
        if !opening::sizes_right(self.n, self.k, self.passages.len(), self.estimates.len()) {
            return Err(Refusal::BadSizes);
        }
        if !opening::ends_right(self.n, self.start, self.goal) {
            return Err(Refusal::BadEnds);
        }
        if !opening::weights_right(self.pull, self.excess) {
            return Err(Refusal::BadWeights);
        }
        if !opening::passages_right(self.passages, self.n) {
            return Err(Refusal::BadPassage);
        }
        Ok(())
    }

    // The first of 1 to 7 that applies. All are checked at opening alone.
    #[tactic(auto, using(crate::specs::Laws::fault_early, crate::specs::Laws::fault_late))]
    pub fn fault(&self) -> Result<(), Refusal>
        ensures { result ≡ fault (told self.now) }
    {
        self.early_fault()?;
        let table = Table {
            n: self.n,
            estimates: self.estimates,
        };
        if !opening::estimates_right(&table) {
            return Err(Refusal::BadEstimate);
        }
        if !opening::passages_bound(self.passages, &table) {
            return Err(Refusal::AbovePassage);
        }
        let table = BoundedTable { table };
        if !table.detours_bound() {
            return Err(Refusal::AboveDetour);
        }
        Ok(())
    }
}
