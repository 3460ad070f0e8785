// The clauses of "Fits" on a machine's own numbers, each over the rows that it reads.
ghost use Rattle.std.specs.Prelude.{◌≡◌, ◌≤◌, ◌<◌};
ghost use Rattle.rule.specs.Task.{estimate};
ghost use Rattle.rule.specs.Rule.{stored_key};
ghost use Rattle.checks.specs.Fits.{marks_right, labels_right, keys_right, worker_right, workers_right, held_once};
ghost use Rattle.checks.specs.Laws.{Counted};

use rule::Table;

// The folds below have no way out but their end, so that several places can be compared at a time. That n is at most 256
// and k at most 32 is asked by each function, and is no struct's: it is the machine's to know, and none here knows that.

// Each state below n has one of the marks.
pub fn marks_right(mark: &[u8; 256], n: usize) -> bool
    requires { n ≤ 256 }
    ensures { result ≡ marks_right mark.now n }
{
    mark[..n]
        .iter()
        .fold(true, |right, &mark| right & (mark <= rule::FINISHED))
}

// No state below n has a label that is too high. One chain each is plainer than one function over rows of u8 and of u32.
pub fn labels_right(label: &[u32; 256], n: usize) -> bool
    requires { n ≤ 256 }
    ensures { result ≡ labels_right label.now n }
{
    label[..n]
        .iter()
        .fold(true, |right, &label| right & (label <= rule::MOST_LABEL))
}

// What is stored as the key of s, which has this mark and label. An unseen state's estimate is left unread: where most
// are unseen, most of the table is.
pub fn stored_key(mark: u8, label: u32, table: &Table, goal: usize, pull: u16, s: usize) -> u64
    requires { (goal < table.now.n) × (s < table.now.n) }
    ensures { result ≡ stored_key mark label pull (estimate table.now.estimates.now table.now.n s goal) }
{
    if mark == rule::UNSEEN {
        0
    } else {
        rule::key(label, pull, table.between(s, goal))
    }
}

// Each state below n has that stored.
pub fn keys_right<'a>(
    mark: &'a [u8; 256],
    label: &'a [u32; 256],
    key: &'a [u64; 256],
    table: &Table,
    goal: usize,
    pull: u16,
) -> bool
    requires { goal < table.now.n }
    ensures { result ≡ keys_right mark.now label.now key.now table.now.estimates.now table.now.n goal pull }
{
    (0..table.n).fold(true, |right, s| {
        right & (key[s] == stored_key(mark[s], label[s], table, goal, pull, s))
    })
}

// A worker that holds this holds nothing, or an out state. Nothing is 65,535 in the row, and no Option: the rows that C
// lends have it so.
pub fn worker_right(mark: &[u8; 256], n: usize, held: u16) -> bool
    requires { n ≤ 256 }
    ensures { result ≡ worker_right mark.now n held }
{
    let s = usize::from(held);
    held == rule::NONE || (s < n && mark[s] == rule::OUT)
}

// Each worker below k does.
pub fn workers_right<'a>(mark: &'a [u8; 256], held: &'a [u16; 32], n: usize, k: usize) -> bool
    requires { (n ≤ 256) × (k ≤ 32) }
    ensures { result ≡ workers_right mark.now held.now n k }
{
    (0..k).all(|w| worker_right(mark, n, held[w]))
}

// How many workers below k hold each state.
pub fn holder_counts(held: &[u16; 32], k: usize) -> [u8; 256]
    requires { k ≤ 32 }
    ensures { Counted held.now result k }
{
    let mut many = [0; 256];
    for &s in &held[..k] {
        let s = usize::from(s);
        if s < many.len() {
            many[s] += 1;
        }
    }
    many
}

// Each out state is held by exactly one worker below k.
pub fn held_once<'a>(mark: &'a [u8; 256], held: &'a [u16; 32], n: usize, k: usize) -> bool
    requires { (n ≤ 256) × (k ≤ 32) }
    ensures { result ≡ held_once mark.now held.now n k }
{
    // Counted once for all states, and not over all workers for each.
    let many = holder_counts(held, k);
    (0..n).all(|s| mark[s] != rule::OUT || many[s] == 1)
}
