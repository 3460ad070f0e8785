// What every call looks at before it does anything: whether the task and the machine fit, and whether the worker may call.
ghost use Rattle.std.specs.Prelude.{◌≡◌, ◌≤◌};
ghost use Rattle.desk.specs.Machine.{hands_of, held_by};
ghost use Rattle.desk.specs.Fits.{is_sound, rows_fit};
ghost use Rattle.desk.specs.Laws.{hands_if};
ghost use Rattle.desk.specs.StepLaws.{Bounded, fit_of, fault_of};

use super::{Machine, NO_PATH, SEARCHING};
use checks::Task;
use rule::{Refusal, Table};

impl Machine {
    // Conditions 1 to 4 hold of the machine's numbers and the lent slices, and the stored keys are right. Whether they do is handed on
    // beside the slices, and isn't kept in a struct with them: it is said of a machine that the calls change.
    // On its own: as a part of Bring it costs one more copy of the machine on the stack.
    #[inline(never)]
    pub fn is_sound(&self, passages: &[u32], estimates: &[u32]) -> bool
        ensures { result ≡ is_sound self.now passages.now estimates.now }
    {
        let task = Task {
            n: self.n,
            k: self.k,
            start: self.start,
            goal: self.goal,
            pull: self.pull,
            excess: self.excess,
            passages,
            estimates,
        };
        if task.early_fault().is_err() {
            return false;
        }
        let table = Table {
            n: self.n,
            estimates,
        };
        checks::keys_right(
            &self.mark,
            &self.label,
            &self.key,
            &table,
            self.goal,
            self.pull,
        )
    }

    // What a call can change is right: the phase, the marks and labels of the states, and what the workers hold.
    #[tactic(auto, unfolding(crate::specs::Fits::rows_fit))]
    pub fn rows_fit(&self) -> bool
        requires { (self.now.n ≤ 256) × (self.now.k ≤ 32) }
        ensures { result ≡ rows_fit self.now.n self.now.k self.now.phase self.now.mark self.now.label self.now.held }
    {
        self.phase <= NO_PATH
            && checks::marks_right(&self.mark, self.n)
            && checks::labels_right(&self.label, self.n)
            && checks::workers_right(&self.mark, &self.held, self.n, self.k)
            && checks::held_once(&self.mark, &self.held, self.n, self.k)
    }

    // Both: whether conditions 1 to 4 hold and the keys are right was looked at before, and is `sound`.
    pub fn fits(&self, sound: bool) -> bool
        requires { Bounded sound self.now }
        ensures { result ≡ fit_of sound self.now }
    {
        sound && self.rows_fit()
    }

    // The first of 8, 9 and 10 that applies to a worker's call.
    #[tactic(auto, unfolding(crate::specs::Laws::call_fault))]
    pub fn call_fault(&self, sound: bool, worker: usize) -> Result<(), Refusal>
        requires { Bounded sound self.now }
        ensures { result ≡ fault_of sound self.now worker }
    {
        if !self.fits(sound) {
            return Err(Refusal::Unfit);
        }
        if worker >= self.k {
            return Err(Refusal::NoWorker);
        }
        if self.phase != SEARCHING {
            return Err(Refusal::NotSearching);
        }
        Ok(())
    }

    // The state that the worker holds, if it holds one, where none of those applies.
    pub fn hands(&self, sound: bool, worker: usize) -> Result<Option<usize>, Refusal>
        requires { Bounded sound self.now }
        ensures { result ≡ hands_if (fault_of sound self.now worker) (held_by (hands_of self.now) worker) }
    {
        self.call_fault(sound, worker)?;
        let state = self.held[worker];
        Ok(if state == rule::NONE {
            None
        } else {
            Some(usize::from(state))
        })
    }
}
