// Take: a worker asks for a state.
ghost use Rattle.std.specs.Prelude.{◌≡◌, ◌<◌};
ghost use Rattle.rule.specs.Laws.{WholeTable};
ghost use Rattle.dealing.specs.Laws.{Keyed};
ghost use Rattle.dealing.specs.Decision.{decision};
ghost use Rattle.desk.specs.Machine.{hands_of, board_of};
ghost use Rattle.desk.specs.Fits.{is_sound};
ghost use Rattle.desk.specs.Take.{act, take_of};
ghost use Rattle.desk.specs.Laws.{Placed};
ghost use Rattle.desk.specs.StepLaws.{Leaves};

use super::{Answer, FOUND, Machine, NO_PATH, Reply};
use dealing::{Board, Decision, Ranked};
use rule::{Refusal, Table};

impl Machine {
    // What each step does to the machine, which is written where it stands, and what is replied.
    pub fn act(&mut self, worker: usize, decision: Decision) -> Result<Reply, Refusal>
        requires { Placed decision × (worker < 32) }
        ensures { Leaves result self.new (act self.old (hands_of self.old) worker decision) }
    {
        match decision {
            Decision::Found(cost) => {
                self.phase = FOUND;
                Ok(Reply::Found(cost))
            }
            Decision::NoPath => {
                self.phase = NO_PATH;
                Ok(Reply::NoPath)
            }
            Decision::Deal(s) => {
                let number = s as u16;
                self.mark[s] = rule::OUT;
                self.held[worker] = number;
                Ok(Reply::Took(number))
            }
            Decision::Stuck => Err(Refusal::NothingOut),
            Decision::Wait(s) => Ok(Reply::Wait(s as u16)),
        }
    }

    // Which of its steps a Take comes to.
    pub fn decide<'a>(&'a self, estimates: &'a [u32]) -> Decision
        requires { Keyed self.now.goal self.now.pull (board_of self.now estimates.now) self.now.key × WholeTable estimates.now self.now.n × (self.now.goal < self.now.n) }
        ensures { result ≡ decision self.now.goal self.now.pull (board_of self.now estimates.now) }
    {
        let table = Table {
            n: self.n,
            estimates,
        };
        let board = Board {
            table,
            excess: self.excess,
            mark: &self.mark,
            label: &self.label,
        };
        let ranked = Ranked {
            board,
            goal: self.goal,
            pull: self.pull,
            key: &self.key,
        };
        ranked.decide()
    }

    // Take, where conditions 1 to 4 and the keys were looked at before: `sound` says whether they hold.
    pub fn take_checked(
        &mut self,
        sound: bool,
        passages: &[u32],
        estimates: &[u32],
        worker: usize,
    ) -> Result<Reply, Refusal>
        requires { sound ≡ is_sound self.old passages.now estimates.now }
        ensures { Leaves result self.new (take_of self.old passages.now estimates.now worker) }
    {
        if self.hands(sound, worker)?.is_some() {
            return Err(Refusal::WrongHands);
        }
        let decision = self.decide(estimates);
        self.act(worker, decision)
    }

    // As `bring`, but for the step: the two calls stand side by side in the scope, four lines each.
    pub fn take(mut self, passages: &[u32], estimates: &[u32], worker: usize) -> Answer
        ensures { result ≡ take_of self passages.now estimates.now worker }
    {
        let sound = self.is_sound(passages, estimates);
        let reply = self
            .take_checked(sound, passages, estimates, worker)
            .unwrap_or_else(Reply::Refused);
        Answer {
            machine: self,
            reply,
        }
    }
}
