// The limited Take: which of Take's steps it comes to, with a test that compares a candidate only with states that are out
// or have a smaller key, and that stops where a limit on comparisons is spent. A comparison is one look at independence;
// looking at marks and keys is none. The keys stand in a row, so that no sweep works one out again; and each block of states
// has its lead, so that no sweep over all states is made for each candidate.
ghost use Rattle.std.specs.Prelude.{◌≡◌, ◌<◌};
ghost use Rattle.dealing.specs.Seen.{seen};
ghost use Rattle.dealing.specs.Limited.{limited};
ghost use Rattle.dealing.specs.LimitedRowLaws.{is_rival, comes_after, front_stop};
ghost use Rattle.dealing.specs.LimitedLeadLaws.{foremost_lead};
ghost use Rattle.dealing.specs.Standing.{test_at, lead_of, block_lead_of, leads_of};
ghost use Rattle.dealing.specs.LimitedStepLaws.{ToTry, tries_of};

use super::{Decided, Decision, Ranked, first_marked, wins};

// The states go by blocks: so many states to one, and so many blocks.
const BLOCK: usize = 16;

const BLOCKS: usize = 16;

// What the test of a candidate comes to: the state at which it stopped, none where it passed, and how many comparisons it made.
#[derive(Clone, Copy, Debug, PartialEq, Eq)]
pub struct Test {
    pub stop: Option<usize>,
    pub made: usize,
}

// What trying candidates one after the other comes to: the one that passed; or none passed, and the test of the first one,
// if there was one, stopped at a state. Both with how many comparisons were made so far.
#[derive(Clone, Copy, Debug, PartialEq, Eq)]
// No Result: that none passed is no failure, and it ends in NoPath or in a Wait.
pub enum Tries {
    Passed(usize, usize),
    Failed(Option<usize>, usize),
}

// A state with this mark and key is compared with a candidate that has key_s: it is out, or open with a smaller key.
pub fn is_rival(mark: u8, key: u64, key_s: u64) -> bool
    ensures { result ≡ is_rival mark key key_s }
{
    mark == rule::OUT || mark == rule::OPEN && key < key_s
}

// The state t with key_t comes after the last one that was tried, by key and number; after none come all.
pub fn comes_after(last: Option<(usize, u64)>, t: usize, key_t: u64) -> bool
    ensures { result ≡ comes_after last t key_t }
{
    match last {
        None => true,
        Some((s, key_s)) => (key_s, s) < (key_t, t),
    }
}

// Of the blocks' leads the first by key and number.
pub fn foremost_lead(leads: &[Option<(usize, u64)>; BLOCKS]) -> Option<(usize, u64)>
    ensures { result ≡ foremost_lead leads.now }
{
    let mut best: Option<(usize, u64)> = None;
    for lead in leads {
        if let Some((_, key_t)) = *lead {
            if wins(key_t, best) {
                best = *lead;
            }
        }
    }
    best
}

// Where the test of the open state with the smallest key stopped, the lowest number among equals: the goal's, at `held`, or
// that of the first other, which stands beside where its test stopped. With neither there the answer is `out`.
pub fn front_stop(
    goal: (usize, u64),
    held: Option<usize>,
    other: Option<((usize, u64), usize)>,
    out: usize,
) -> usize
    ensures { result ≡ front_stop goal held other out }
{
    match (held, other) {
        (None, None) => out,
        (Some(held), None) => held,
        (None, Some((_, stop))) => stop,
        (Some(held), Some(((s, key_s), stop))) => {
            if comes_after(Some(goal), s, key_s) {
                held
            } else {
                stop
            }
        }
    }
}

impl Ranked<'_, '_> {
    // The test of the candidate s, with what is left of the limit; none where it is cut short. It compares by rising number until
    // a dependence. A candidate is open and its key isn't smaller than itself, so it never meets itself.
    pub fn test_candidate(&self, s: usize, left: usize) -> Option<Test>
        requires { s < self.now.board.table.n }
        ensures { result ≡ test_at self.now s left }
    {
        let board = self.board;
        let key_s = self.key[s];
        let mut made: usize = 0;
        // By number: the mark, the key, the label and the table are read at it.
        for t in 0..board.table.n {
            if is_rival(board.mark[t], self.key[t], key_s) {
                if made == left {
                    return None;
                }
                made += 1;
                if board.holds_off(s, t) {
                    return Some(Test {
                        stop: Some(t),
                        made,
                    });
                }
            }
        }
        Some(Test { stop: None, made })
    }

    // The lead of the states from `from` on and before `end`: of the open ones other than the goal that come after the last one
    // that was tried, the first by key and number. It stands beside its key.
    pub fn lead(&self, last: Option<(usize, u64)>, from: usize, end: usize) -> Option<(usize, u64)>
        ensures { result ≡ lead_of self.now last from end }
    {
        let mut best: Option<(usize, u64)> = None;
        // By number: the mark and the key are read at it, and it is what is answered.
        for t in from..end.min(self.board.table.n) {
            if self.board.mark[t] != rule::OPEN {
                continue;
            }
            let key_t = self.key[t];
            // A key that can't win is passed over first: most are.
            if wins(key_t, best) && comes_after(last, t, key_t) && t != self.goal {
                best = Some((t, key_t));
            }
        }
        best
    }

    // The lead of block b.
    pub fn block_lead(&self, last: Option<(usize, u64)>, b: usize) -> Option<(usize, u64)>
        requires { b < 16 }
        ensures { result ≡ block_lead_of self.now last b }
    {
        self.lead(last, BLOCK * b, BLOCK * b + BLOCK)
    }

    // The lead of each block.
    pub fn block_leads(&self, last: Option<(usize, u64)>) -> [Option<(usize, u64)>; BLOCKS]
        ensures { result ≡ leads_of self.now last }
    {
        let mut leads = [None; BLOCKS];
        for (b, lead) in leads.iter_mut().enumerate() {
            *lead = self.block_lead(last, b);
        }
        leads
    }

    // Tries the open states other than the goal from `first` on, by key and number, until one passes; none where that is cut
    // short. So many comparisons were made before.
    pub fn try_others(
        &self,
        first: Option<(usize, u64)>,
        before: usize,
        limit: usize,
    ) -> Option<Tries>
        requires { ToTry self.now.goal (seen self.now.board) self.now.key.now first before limit }
        ensures { result ≡ tries_of self.now.goal self.now.pull (seen self.now.board) first before limit }
    {
        let mut candidate = first;
        // Where the test of the first one stopped.
        let mut stop: Option<usize> = None;
        let mut made = before;
        let mut leads = [None; BLOCKS];
        while let Some((s, _)) = candidate {
            let test = self.test_candidate(s, limit - made)?;
            made += test.made;
            let Some(t) = test.stop else {
                return Some(Tries::Passed(s, made));
            };
            // Mostly the first candidate passes, so the leads are looked for only now; later only the block of s has another.
            if stop.is_none() {
                stop = Some(t);
                leads = self.block_leads(candidate);
            } else {
                leads[s / BLOCK] = self.block_lead(candidate, s / BLOCK);
            }
            candidate = foremost_lead(&leads);
        }
        Some(Tries::Failed(stop, made))
    }

    // Which of its steps a limited Take comes to; none where it is cut short.
    pub fn decide_limited(&self, limit: usize) -> Option<Decided>
        requires { self.now.goal < self.now.board.table.n }
        ensures { result ≡ limited self.now.goal self.now.pull (seen self.now.board) limit }
    {
        let board = self.board;
        // Where the goal's test stopped, if it is open, and how many comparisons it made.
        let mut held: Option<usize> = None;
        let mut made: usize = 0;
        if board.mark[self.goal] == rule::OPEN {
            let test = self.test_candidate(self.goal, limit)?;
            if test.stop.is_none() {
                return Some(Decided {
                    decision: Decision::Found(board.label[self.goal]),
                    comparisons: test.made,
                });
            }
            held = test.stop;
            made = test.made;
        }
        let first = self.lead(None, 0, board.table.n);
        match self.try_others(first, made, limit)? {
            Tries::Passed(s, comparisons) => Some(Decided {
                decision: Decision::Deal(s),
                comparisons,
            }),
            Tries::Failed(stop, comparisons) => {
                let goal = (self.goal, self.key[self.goal]);
                // With nothing out the foremost open state passes, so nothing is open here.
                let decision = match first_marked(board.mark, board.table.n, rule::OUT) {
                    None => Decision::NoPath,
                    Some(out) => Decision::Wait(front_stop(goal, held, first.zip(stop), out)),
                };
                Some(Decided {
                    decision,
                    comparisons,
                })
            }
        }
    }
}
