// A machine as a row of 32-bit numbers: tested, unpacked, and written back.
ghost use Rattle.std.specs.Prelude.{◌≡◌, true, [], ◌∷◌, ℕ, ◌+◌, ◌*◌, ◌≤◌, ◌<◌, length, drop, flat_map};
ghost use Rattle.laws.specs.Part.{overlaid};
ghost use Rattle.laws.specs.Fill.{made};
ghost use Rattle.desk.specs.declared.Reply.TheVariants.{Took, Refused};
ghost use Rattle.rule.specs.declared.refusals.Refusal.TheVariants.{Unfit};
ghost use Rattle.desk.specs.Reply.{code_of};
ghost use Rattle.desk.specs.ToldLaws.{taken};
ghost use Rattle.deskc.specs.Row.{at_most, is_row, unpacked, changed};

use super::stored::Stored;
use desk::{Machine, Reply};
use rule::Refusal;
use std::array;

// How many numbers a row has, and where its parts begin: n, k, start and goal, a place each, come before the two weights.
pub const ROW: usize = 1319;

const WEIGHTS: usize = 4;

const PHASE: usize = 6;

const MARKS: usize = 7;

const LABELS: usize = 263;

const VIAS: usize = 519;

const HELD: usize = 775;

const KEYS: usize = 807;

// Refusal 8, as a number.
pub fn unfit() -> u64
    ensures { result ≡ code_of (Refused Unfit) }
{
    u64::from(Reply::Refused(Refusal::Unfit))
}

// No number of a part is larger.
pub fn at_most(part: &[u32], most: u32) -> bool
    ensures { result ≡ at_most most part.now }
{
    // It goes on to the end, so that several numbers are compared at a time.
    part.iter().fold(true, |fit, &x| fit & (x <= most))
}

// A row holds a machine. Its labels and keys need no test: a label has 32 bits, and so has each half of a key, as every number of a row has.
#[tactic(auto, unfolding(crate::specs::Row::is_row))]
pub fn is_row(row: &[u32]) -> bool
    ensures { result ≡ is_row row.now }
{
    row.len() == ROW
        && at_most(&row[WEIGHTS..PHASE], u32::from(u16::MAX))
        && at_most(&row[PHASE..MARKS], u32::from(u8::MAX))
        && at_most(&row[MARKS..LABELS], u32::from(u8::MAX))
        && at_most(&row[VIAS..HELD], u32::from(u16::MAX))
        && at_most(&row[HELD..KEYS], u32::from(u16::MAX))
}

// N numbers that stand one after the other, from the front on.
pub fn part<T: Stored, const N: usize>(row: &[u32]) -> [T; N]
    requires room { T.PLACES * N ≤ length row.now }
    requires stand { (i : ℕ) → i < N → T.stands (drop (T.PLACES * i) row.now) }
    ensures { result ≡ made (λ i. T.stored (drop (T.PLACES * i) row.now)) N }
{
    let places = T::PLACES;
    array::from_fn(|i| T::read(&row[places * i..]))
}

// The machine that a row holds.
#[tactic(auto, using(crate::specs::Laws::row_bounds, crate::specs::Laws::unpacked_parts))]
pub fn unpack(row: &[u32]) -> Machine
    requires { is_row row.now ≡ true }
    ensures { result ≡ unpacked row.now }
{
    Machine {
        n: row[0] as usize,
        k: row[1] as usize,
        start: row[2] as usize,
        goal: row[3] as usize,
        pull: row[4] as u16,
        excess: row[5] as u16,
        phase: row[PHASE] as u8,
        mark: part(&row[MARKS..]),
        label: part(&row[LABELS..]),
        via: part(&row[VIAS..]),
        held: part(&row[HELD..]),
        key: part(&row[KEYS..]),
    }
}

// A part, written from the front on.
pub fn put<T: Stored, const N: usize>(row: &mut [u32], part: &[T; N])
    requires { T.PLACES * N ≤ length row.old }
    ensures { row.new ≡ overlaid 0 (flat_map T.places part.now) row.old }
{
    for (i, x) in part.iter().enumerate() {
        x.write(&mut row[T::PLACES * i..]);
    }
}

// What a call can change: the phase and the numbers of states and workers.
pub fn put_changing(row: &mut [u32], m: &Machine)
    requires { length row.old ≡ 1319 }
    ensures { row.new ≡ changed row.old m.now }
{
    row[PHASE] = u32::from(m.phase);
    put(&mut row[MARKS..], &m.mark);
    put(&mut row[LABELS..], &m.label);
    put(&mut row[VIAS..], &m.via);
    put(&mut row[HELD..], &m.held);
    put(&mut row[KEYS..], &m.key);
}

// What a Take changes: the mark of the state that it deals and what the worker holds, or the phase. With any other reply nothing is written.
#[tactic(auto, using(crate::specs::Laws::row_bounds, crate::specs::Laws::put_phase, crate::specs::Laws::put_dealt, crate::specs::Laws::changed_unpacked))]
pub fn put_taken(row: &mut [u32], worker: usize, reply: Reply)
    requires { (is_row row.old ≡ true) × ((s : ℕ) → reply ≡ Took s → (s < 256) × (worker < 32)) }
    ensures { row.new ≡ changed row.old (taken (unpacked row.old) worker reply) }
{
    match reply {
        Reply::Took(s) => {
            row[MARKS + usize::from(s)] = u32::from(rule::OUT);
            row[HELD + worker] = u32::from(s);
        }
        Reply::Found(_) => row[PHASE] = u32::from(desk::FOUND),
        Reply::NoPath => row[PHASE] = u32::from(desk::NO_PATH),
        _ => {}
    }
}

// What a call can't change: the task's six numbers.
pub fn put_head(row: &mut [u32], m: &Machine)
    requires { (length row.old ≡ 1319) × (((m.now.n < 4294967296) × (m.now.k < 4294967296)) × ((m.now.start < 4294967296) × (m.now.goal < 4294967296))) }
    ensures { row.new ≡ overlaid 0 (m.now.n ∷ m.now.k ∷ m.now.start ∷ m.now.goal ∷ m.now.pull ∷ m.now.excess ∷ []) row.old }
{
    row[0] = m.n as u32;
    row[1] = m.k as u32;
    row[2] = m.start as u32;
    row[3] = m.goal as u32;
    row[4] = u32::from(m.pull);
    row[5] = u32::from(m.excess);
}
