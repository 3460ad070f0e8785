// The safety test, the choice, and which of its five steps a Take comes to. All of it reads the board, each state's
// mark, label and stored key with the table of estimates, and changes nothing. What a limited Take comes to stands in `limits`.
#![tactic(auto)]

ghost use Rattle.std.specs.Prelude.{◌≡◌, ◌<◌};
ghost use Rattle.dealing.specs.Seen.{seen};
ghost use Rattle.dealing.specs.Decision.{decision};
ghost use Rattle.dealing.specs.Laws.{Keyed, choose};
ghost use Rattle.dealing.specs.Places.{wins};

mod board;
mod limits;

pub use board::{Board, first_marked};

// The five steps of Take, in their order, with what each names.
#[derive(Clone, Copy, Debug, PartialEq, Eq)]
pub enum Decision {
    Found(u32),
    NoPath,
    Deal(usize),
    Stuck,
    Wait(usize),
}

// What going through the open states comes to: the safe one to deal; or none is safe, and the test of the one with the
// smallest key stopped at a state; or nothing is open.
#[derive(Clone, Copy, Debug, PartialEq, Eq)]
pub enum Choice {
    Safe(usize),
    Stopped(usize),
    NoneOpen,
}

// What a limited Take comes to where it isn't cut short: one of the steps, and how many comparisons it took.
#[derive(Clone, Copy, Debug, PartialEq, Eq)]
pub struct Decided {
    pub decision: Decision,
    pub comparisons: usize,
}

// A board with the key of each open state in a row. The pull isn't looked at: it says which keys these are.
#[derive(Clone, Copy)]
pub struct Ranked<'t, 'a> {
    pub board: Board<'t, 'a>,
    pub goal: usize,
    pub pull: u16,
    pub key: &'a [u64; 256],
    pub ghost keyed: { Keyed goal pull (seen board) key.now },
}

// A state with this key goes before the one that leads, if one does: its key stands beside it.
fn wins(key: u64, leader: Option<(usize, u64)>) -> bool
    ensures { result ≡ wins key leader }
{
    match leader {
        None => true,
        Some((_, least)) => key < least,
    }
}

impl Ranked<'_, '_> {
    // The safe state with the smallest key, the lowest number among equals. Where none is safe, the test of the open state
    // with the smallest key, the lowest number among equals, says where it stopped.
    // On its own: as a part of Take its inner loop had too few registers, and fetched the label of s and the row's step anew for each t.
    #[inline(never)]
    pub fn choose(&self) -> Choice
        ensures { result ≡ choose self.now.goal self.now.pull (seen self.now.board) }
    {
        let board = self.board;
        // The scope asks for this form: a labelled loop over candidates, and in it one over states that is left at a dependence.
        // The safe state that leads, and its key.
        let mut best: Option<(usize, u64)> = None;
        // While none is safe: where the test of the open state that leads stopped, and its key.
        let mut front: Option<(usize, u64)> = None;
        'candidates: for s in 0..board.table.n {
            if board.mark[s] != rule::OPEN {
                continue 'candidates;
            }
            let key_s = self.key[s];
            // A key that can't win spares the comparisons.
            if !wins(key_s, best) {
                continue 'candidates;
            }
            let label_s = board.label[s];
            for t in 0..board.table.n {
                if board.depends_by(s, label_s, t) {
                    if wins(key_s, front) {
                        front = Some((t, key_s));
                    }
                    continue 'candidates;
                }
            }
            best = Some((s, key_s));
        }
        match (best, front) {
            (Some((s, _)), _) => Choice::Safe(s),
            (None, Some((t, _))) => Choice::Stopped(t),
            (None, None) => Choice::NoneOpen,
        }
    }

    // Which of its steps a Take comes to.
    pub fn decide(&self) -> Decision
        requires { self.now.goal < self.now.board.table.n }
        ensures { result ≡ decision self.now.goal self.now.pull (seen self.now.board) }
    {
        let board = self.board;
        if board.is_safe(self.goal) {
            return Decision::Found(board.label[self.goal]);
        }
        let out = first_marked(board.mark, board.table.n, rule::OUT);
        match (self.choose(), out) {
            (Choice::NoneOpen, None) => Decision::NoPath,
            (Choice::Safe(s), _) => Decision::Deal(s),
            (Choice::Stopped(_), None) => Decision::Stuck,
            (Choice::Stopped(t), Some(_)) => Decision::Wait(t),
            (Choice::NoneOpen, Some(t)) => Decision::Wait(t),
        }
    }
}
