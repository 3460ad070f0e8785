// The passages that a caller lends, three numbers each, read one at a time.
ghost use Rattle.std.specs.Prelude.{◌≡◌, ◌<◌, eqb, not};
ghost use Rattle.rule.specs.Task.{passage_count, near, far, cost, blocked};

use super::BLOCKED;

// Where a passage comes from, where it leads to, and what it costs.
#[derive(Clone, Copy, Debug, PartialEq, Eq)]
pub struct Passage {
    pub near: usize,
    pub far: usize,
    pub cost: u32,
}

impl Passage {
    // Passage i of those that are lent.
    pub fn read(passages: &[u32], i: usize) -> Passage
        requires { i < passage_count passages.now }
        ensures near { result.near ≡ near passages.now i }
        ensures far { result.far ≡ far passages.now i }
        ensures cost { result.cost ≡ cost passages.now i }
    {
        Passage {
            near: passages[3 * i] as usize,
            far: passages[3 * i + 1] as usize,
            cost: passages[3 * i + 2],
        }
    }

    // It isn't blocked.
    pub fn is_clear(self) -> bool
        ensures { result ≡ not (eqb self.cost blocked) }
    {
        self.cost != BLOCKED
    }
}
