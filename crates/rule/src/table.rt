// The table of estimates that a caller lends, once it is known to be whole.
ghost use Rattle.std.specs.Prelude.{◌≡◌, ◌<◌};
ghost use Rattle.rule.specs.Task.{estimate};
ghost use Rattle.rule.specs.Laws.{WholeTable};

// Estimates from each of n states to each other, n numbers for each.
#[derive(Clone, Copy)]
pub struct Table<'a> {
    pub n: usize,
    pub estimates: &'a [u32],
    pub ghost whole: { WholeTable estimates.now n },
}

impl Table<'_> {
    // The estimate from a to b.
    pub fn between(&self, a: usize, b: usize) -> u32
        requires { (a < self.now.n) × (b < self.now.n) }
        ensures { result ≡ estimate self.now.estimates.now self.now.n a b }
    {
        self.estimates[a * self.n + b]
    }
}
