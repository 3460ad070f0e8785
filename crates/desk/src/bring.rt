// Bring: a worker brings back what its state's passages lead to.
ghost use Rattle.std.specs.Prelude.{◌≡◌, ◌<◌, cond};
ghost use Rattle.rule.specs.Rule.{lowers};
ghost use Rattle.desk.specs.Machine.{mark_of, label_of};
ghost use Rattle.desk.specs.Fits.{is_sound};
ghost use Rattle.desk.specs.Bring.{labelled, bring_of};
ghost use Rattle.desk.specs.StepLaws.{Leaves};

use super::{Answer, Machine, Reply};
use rule::{Passage, Refusal, Table};

impl Machine {
    // Passage i leads to s with this sum: s gets it for its label where it is unseen, or open with a greater one. Whether it did.
    pub fn lower(&mut self, table: &Table, i: usize, s: usize, sum: u32) -> bool
        requires { (table.now.n ≡ self.old.n) × (self.old.goal < self.old.n) × (s < self.old.n) × (i < 65536) }
        ensures lowered { result ≡ lowers (mark_of self.old s) (label_of self.old s) sum }
        ensures machine { self.new ≡ cond (lowers (mark_of self.old s) (label_of self.old s) sum) (labelled self.old table.now.estimates.now s sum i) self.old }
    {
        let lowered = rule::lowers(self.mark[s], self.label[s], sum);
        if lowered {
            self.mark[s] = rule::OPEN;
            self.label[s] = sum;
            self.via[s] = i as u16;
            self.key[s] = rule::key(sum, self.pull, table.between(s, self.goal));
        }
        lowered
    }

    // Bring, where conditions 1 to 4 and the keys were looked at before: `sound` says whether they hold.
    pub fn bring_checked(
        &mut self,
        sound: bool,
        passages: &[u32],
        estimates: &[u32],
        worker: usize,
    ) -> Result<Reply, Refusal>
        requires { sound ≡ is_sound self.old passages.now estimates.now }
        ensures { Leaves result self.new (bring_of self.old passages.now estimates.now worker) }
    {
        let s = self.hands(sound, worker)?.ok_or(Refusal::WrongHands)?;
        let table = Table {
            n: self.n,
            estimates,
        };
        let label = self.label[s];
        let mut many = 0;
        // The passages of s in slice order. A blocked passage's cost is never added: the sum would not fit.
        // By number, since a passage's number is what is stored.
        for i in 0..passages.len() / 3 {
            // Most are another state's: of these the near end alone is read.
            if passages[3 * i] as usize == s {
                let passage = Passage::read(passages, i);
                if passage.is_clear() && self.lower(&table, i, passage.far, label + passage.cost) {
                    many += 1;
                }
            }
        }
        self.mark[s] = rule::FINISHED;
        self.held[worker] = rule::NONE;
        Ok(Reply::Brought(many))
    }

    // As `take`, but for the step.
    pub fn bring(mut self, passages: &[u32], estimates: &[u32], worker: usize) -> Answer
        ensures { result ≡ bring_of self passages.now estimates.now worker }
    {
        let sound = self.is_sound(passages, estimates);
        let reply = self
            .bring_checked(sound, passages, estimates, worker)
            .unwrap_or_else(Reply::Refused);
        Answer {
            machine: self,
            reply,
        }
    }
}
