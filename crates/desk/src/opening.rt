// Opening a task.
ghost use Rattle.std.specs.Prelude.{◌≡◌};
ghost use Rattle.checks.specs.Opening.{task};
ghost use Rattle.desk.specs.Opening.{opening_of, blank_machine};

use super::{Answer, Machine, Reply, SEARCHING};
use checks::Task;
use rule::Table;

impl Machine {
    // A machine whose numbers are all 0: what a refused opening hands back.
    #[tactic(auto, unfolding(crate::specs::Opening::blank_machine))]
    pub fn blank() -> Machine
        ensures { result ≡ blank_machine }
    {
        Machine {
            n: 0,
            k: 0,
            start: 0,
            goal: 0,
            pull: 0,
            excess: 0,
            phase: 0,
            mark: [0; 256],
            label: [0; 256],
            via: [0; 256],
            held: [0; 32],
            key: [0; 256],
        }
    }

    // The eight stand apart, as README, C and the bench hand them over.
    #[tactic(auto, unfolding(crate::specs::Opening::opening_of, crate::specs::Opening::opened_machine))]
    pub fn opening(
        n: usize,
        k: usize,
        start: usize,
        goal: usize,
        pull: u16,
        excess: u16,
        passages: &[u32],
        estimates: &[u32],
    ) -> Answer
        ensures { result ≡ opening_of (task n k start goal pull excess passages.now estimates.now) }
    {
        let task = Task {
            n,
            k,
            start,
            goal,
            pull,
            excess,
            passages,
            estimates,
        };
        if let Err(refusal) = task.fault() {
            return Answer {
                machine: Machine::blank(),
                reply: Reply::Refused(refusal),
            };
        }
        let mut machine = Machine {
            n,
            k,
            start,
            goal,
            pull,
            excess,
            phase: SEARCHING,
            mark: [rule::UNSEEN; 256],
            label: [0; 256],
            via: [rule::NONE; 256],
            held: [rule::NONE; 32],
            key: [0; 256],
        };
        let table = Table { n, estimates };
        machine.mark[start] = rule::OPEN;
        machine.key[start] = rule::key(0, pull, table.between(start, goal));
        Answer {
            machine,
            reply: Reply::Opened,
        }
    }
}
