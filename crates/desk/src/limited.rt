// The limited Take: Take's refusals and steps, by a test that compares fewer states and is cut short at a limit of comparisons.
ghost use Rattle.std.specs.Prelude.{◌≡◌, ◌<◌};
ghost use Rattle.rule.specs.Laws.{WholeTable};
ghost use Rattle.dealing.specs.Laws.{Keyed};
ghost use Rattle.desk.specs.declared.Reply.TheVariants.{Refused};
ghost use Rattle.desk.specs.Machine.{board_of};
ghost use Rattle.desk.specs.Fits.{is_sound};
ghost use Rattle.desk.specs.Limited.{limited_on, limited_of};
ghost use Rattle.desk.specs.StepLaws.{LeavesCounted};

use super::{Answer, Counted, Machine, Reply};
use dealing::{Board, Decided, Ranked};
use rule::{Refusal, Table};

// A refusal made no comparison.
pub fn refused(refusal: Refusal) -> (Reply, usize)
    ensures { result ≡ (Refused refusal, 0) }
{
    (Reply::Refused(refusal), 0)
}

impl Machine {
    // Which of its steps a limited Take comes to, and by how many comparisons; none where the limit cuts it short. What is compared
    // is put together here as for a Take: the contract of a function that lent it couldn't say which parts of the machine it lends,
    // and each contract here determines its answer.
    pub fn decide_limited<'a>(&'a self, estimates: &'a [u32], limit: usize) -> Option<Decided>
        requires { Keyed self.now.goal self.now.pull (board_of self.now estimates.now) self.now.key × WholeTable estimates.now self.now.n × (self.now.goal < self.now.n) }
        ensures { result ≡ limited_on self.now estimates.now limit }
    {
        let table = Table {
            n: self.n,
            estimates,
        };
        let board = Board {
            table,
            excess: self.excess,
            mark: &self.mark,
            label: &self.label,
        };
        let ranked = Ranked {
            board,
            goal: self.goal,
            pull: self.pull,
            key: &self.key,
        };
        ranked.decide_limited(limit)
    }

    // The limited Take, where conditions 1 to 4 and the keys were looked at before: the reply, and how many comparisons were made.
    pub fn limited_checked(
        &mut self,
        sound: bool,
        passages: &[u32],
        estimates: &[u32],
        worker: usize,
        limit: usize,
    ) -> Result<(Reply, usize), Refusal>
        requires { sound ≡ is_sound self.old passages.now estimates.now }
        ensures { LeavesCounted result self.new (limited_of self.old passages.now estimates.now worker limit) }
    {
        if self.hands(sound, worker)?.is_some() {
            return Err(Refusal::WrongHands);
        }
        match self.decide_limited(estimates, limit) {
            None => Ok((Reply::Cut(limit as u32), limit)),
            Some(decided) => Ok((self.act(worker, decided.decision)?, decided.comparisons)),
        }
    }

    pub fn take_limited(
        mut self,
        passages: &[u32],
        estimates: &[u32],
        worker: usize,
        limit: usize,
    ) -> Counted
        ensures { result ≡ limited_of self passages.now estimates.now worker limit }
    {
        let sound = self.is_sound(passages, estimates);
        let (reply, comparisons) = self
            .limited_checked(sound, passages, estimates, worker, limit)
            .unwrap_or_else(refused);
        Counted {
            answer: Answer {
                machine: self,
                reply,
            },
            comparisons,
        }
    }
}
