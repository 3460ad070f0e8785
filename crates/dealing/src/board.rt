// What states are compared by, and which state another depends on.
ghost use Rattle.std.specs.Prelude.{◌≡◌, ◌≤◌, ◌<◌, get_or};
ghost use Rattle.laws.specs.Chains.{below};
ghost use Rattle.dealing.specs.Board.{depends_on, first_dependence, safe, first_marked};
ghost use Rattle.dealing.specs.LimitedRowLaws.{holds_off};
ghost use Rattle.dealing.specs.Seen.{seen};

use rule::Table;

// Each state's mark and label, with the table and the weight that they are compared by.
#[derive(Clone, Copy)]
pub struct Board<'t, 'a> {
    pub table: Table<'t>,
    pub excess: u16,
    pub mark: &'a [u8; 256],
    pub label: &'a [u32; 256],
}

impl Board<'_, '_> {
    // t holds s off: s isn't independent of it. The label of s stands beside it: a loop over t reads it once.
    #[tactic(auto, unfolding(crate::specs::LimitedRowLaws::holds_off))]
    pub fn holds_off_by(&self, s: usize, label_s: u32, t: usize) -> bool
        requires { ((s < self.now.table.n) × (t < self.now.table.n)) × (label_s ≡ get_or self.now.label.now s 0) }
        ensures { result ≡ holds_off (seen self.now) s t }
    {
        let h = self.table.between(t, s);
        !rule::independent(label_s, self.label[t], self.excess, h)
    }

    pub fn holds_off(&self, s: usize, t: usize) -> bool
        requires { (s < self.now.table.n) × (t < self.now.table.n) }
        ensures { result ≡ holds_off (seen self.now) s t }
    {
        self.holds_off_by(s, self.label[s], t)
    }

    // s depends on t: t is another state, open or out, and s isn't independent of it. The label of s stands beside it.
    #[tactic(auto, unfolding(crate::specs::Board::depends_on, crate::specs::LimitedRowLaws::holds_off, rule::specs::Rule::holds_back))]
    pub fn depends_by(&self, s: usize, label_s: u32, t: usize) -> bool
        requires { ((s < self.now.table.n) × (t < self.now.table.n)) × (label_s ≡ get_or self.now.label.now s 0) }
        ensures { result ≡ depends_on (seen self.now) s t }
    {
        // The mark first: the estimates to s lie a row apart, and most are left unread where few states are open or out.
        rule::is_live(self.mark[t]) && t != s && self.holds_off_by(s, label_s, t)
    }

    pub fn depends_on(&self, s: usize, t: usize) -> bool
        requires { (s < self.now.table.n) × (t < self.now.table.n) }
        ensures { result ≡ depends_on (seen self.now) s t }
    {
        self.depends_by(s, self.label[s], t)
    }

    // The first state that s depends on.
    pub fn first_dependence(&self, s: usize) -> Option<usize>
        requires { s < self.now.table.n }
        ensures { result ≡ below self.now.table.n (first_dependence (seen self.now) s) }
    {
        // No `find`: its closure would lend the board, and the prover doesn't see then what was found.
        for t in 0..self.table.n {
            if self.depends_on(s, t) {
                return Some(t);
            }
        }
        None
    }

    // s is open, and independent of every other open or out state.
    pub fn is_safe(&self, s: usize) -> bool
        requires { s < self.now.table.n }
        ensures { result ≡ safe (seen self.now) s }
    {
        self.mark[s] == rule::OPEN && self.first_dependence(s).is_none()
    }
}

// The lowest state below n with this mark.
pub fn first_marked(mark: &[u8; 256], n: usize, wanted: u8) -> Option<usize>
    requires { n ≤ 256 }
    ensures { result ≡ below n (first_marked mark.now n wanted) }
{
    (0..n).find(|s| mark[*s] == wanted)
}
