// The checks of opening. Each goes over the whole input before the next begins.
ghost use Rattle.std.specs.Prelude.{◌≡◌, true, ◌<◌};
ghost use Rattle.laws.specs.LargestLaws.{largest};
ghost use Rattle.rule.specs.Task.{estimate};
ghost use Rattle.checks.specs.Opening.{
  sizes_right,
  ends_right,
  weights_right,
  passages_right,
  row_right,
  estimates_right,
  passages_bound,
};

use rule::{Passage, Table};

// The allowed excess, in hundredths.
const LEAST_EXCESS: u16 = 100;

const MOST_EXCESS: u16 = 10_000;

// 1: the sizes, of the task and of the two slices.
#[tactic(auto, unfolding(crate::specs::Opening::sizes_right))]
pub fn sizes_right(n: usize, k: usize, passages: usize, estimates: usize) -> bool
    ensures { result ≡ sizes_right n k passages estimates }
{
    (1..=rule::MOST_STATES).contains(&n)
        && (1..=rule::MOST_WORKERS).contains(&k)
        && passages % 3 == 0
        && passages <= 3 * rule::MOST_PASSAGES
        && estimates == n * n
}

// 2: start and goal are states.
#[tactic(auto, unfolding(crate::specs::Opening::ends_right))]
pub fn ends_right(n: usize, start: usize, goal: usize) -> bool
    ensures { result ≡ ends_right n start goal }
{
    start < n && goal < n
}

// 3: the weights.
#[tactic(auto, unfolding(crate::specs::Opening::weights_right))]
pub fn weights_right(pull: u16, excess: u16) -> bool
    ensures { result ≡ weights_right pull excess }
{
    (LEAST_EXCESS..=MOST_EXCESS).contains(&excess) && pull <= excess
}

// How many passages check 4 looks at before it asks whether one of them was wrong.
pub const SPAN: usize = 128;

// 4, of a span of passages: both ends of each are states, and no cost is too high, but for a blocked passage's. Of the ends the largest
// is compared, and neither pass has a way out but its end, so that several passages can be looked at at a time.
pub fn span_right(passages: &[u32], n: usize) -> bool
    ensures { result ≡ passages_right passages.now n }
{
    let count = passages.len() / 3;
    let end = (0..count).fold(0, |most: u32, i| {
        most.max(passages[3 * i].max(passages[3 * i + 1]))
    });
    let costs = (0..count).fold(true, |right, i| {
        let cost = passages[3 * i + 2];
        right & ((cost == rule::BLOCKED) | (cost <= rule::MOST_COST))
    });
    ((count == 0) | ((end as usize) < n)) & costs
}

// 4: span by span, so that a wrong passage ends it there.
pub fn passages_right(passages: &[u32], n: usize) -> bool
    ensures { result ≡ passages_right passages.now n }
{
    (0..passages.len() / (3 * SPAN) + 1).all(|b| {
        let from = 3 * SPAN * b;
        span_right(&passages[from..passages.len().min(from + 3 * SPAN)], n)
    })
}

// One row of 5: no estimate is too large, and the one on the diagonal is 0.
pub fn row_right(table: &Table, a: usize) -> bool
    requires { a < table.now.n }
    ensures { result ≡ row_right table.now.estimates.now table.now.n a }
{
    (0..table.n).all(|b| table.between(a, b) <= rule::MOST_LABEL) && table.between(a, a) == 0
}

// 5: every row.
pub fn estimates_right(table: &Table) -> bool
    ensures { result ≡ estimates_right table.now.estimates.now table.now.n }
{
    (0..table.n).all(|a| row_right(table, a))
}

// 6: no estimate is above the cost of a passage that isn't blocked. On its own, and with the table at hand: else the loop fetches from
// memory, for each passage, where the estimates are.
#[inline(never)]
pub fn passages_bound(passages: &[u32], table: &Table) -> bool
    requires { passages_right passages.now table.now.n ≡ true }
    ensures { result ≡ passages_bound passages.now table.now.estimates.now table.now.n }
{
    let table = *table;
    (0..passages.len() / 3).all(|i| {
        let passage = Passage::read(passages, i);
        !passage.is_clear() || table.between(passage.near, passage.far) <= passage.cost
    })
}

// The largest estimate from a.
pub fn largest_from(table: &Table, a: usize) -> u32
    requires { a < table.now.n }
    ensures { result ≡ largest (estimate table.now.estimates.now table.now.n a) table.now.n }
{
    (0..table.n).fold(0, |most, to| most.max(table.between(a, to)))
}
