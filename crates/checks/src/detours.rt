// Check 7, over a table that passed check 5.
ghost use Rattle.std.specs.Prelude.{◌≡◌, true, ◌<◌};
ghost use Rattle.checks.specs.Opening.{estimates_right, detour_bounds, detours_by, detours_from, detours_bound};

use super::opening;
use rule::Table;

// Estimates none of which is too large, so that two of them can be added.
#[derive(Clone, Copy)]
pub struct BoundedTable<'a> {
    pub table: Table<'a>,
    pub ghost right: { estimates_right table.estimates.now table.n ≡ true },
}

impl BoundedTable<'_> {
    // The estimate from a to c isn't above the two by way of b.
    #[tactic(auto, using(crate::specs::Laws::sum_fits))]
    pub fn detour_bounds(&self, a: usize, b: usize, c: usize) -> bool
        requires { (a < self.now.table.n) × (b < self.now.table.n) × (c < self.now.table.n) }
        ensures { result ≡ detour_bounds self.now.table.estimates.now self.now.table.n a b c }
    {
        self.table.between(a, c) <= self.table.between(a, b) + self.table.between(b, c)
    }

    // All detours from a by b. The fold has no way out but its end, so that several places can be compared at a time.
    pub fn detours_by(&self, a: usize, b: usize) -> bool
        requires { (a < self.now.table.n) × (b < self.now.table.n) }
        ensures { result ≡ detours_by self.now.table.estimates.now self.now.table.n a b }
    {
        (0..self.table.n).fold(true, |right, c| right & self.detour_bounds(a, b, c))
    }

    // All detours from a. On its own, so that its loops have the registers to themselves.
    #[inline(never)]
    pub fn detours_from(&self, a: usize) -> bool
        requires { a < self.now.table.n }
        ensures { result ≡ detours_from self.now.table.estimates.now self.now.table.n a }
    {
        let most = opening::largest_from(&self.table, a);
        // No way round is too short by a itself, nor by a state that is as far from a as any.
        (0..self.table.n).all(|b| b == a
            || self.table.between(a, b) >= most
            || self.detours_by(a, b))
    }

    // All detours.
    pub fn detours_bound(&self) -> bool
        ensures { result ≡ detours_bound self.now.table.estimates.now self.now.table.n }
    {
        (0..self.table.n).all(|a| self.detours_from(a))
    }
}
