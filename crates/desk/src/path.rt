// Path reading: the states from start to goal, into the caller's buffer from a named place on.
ghost use Rattle.std.specs.Prelude.{◌≡◌};
ghost use Rattle.desk.specs.Path.{path_of};
ghost use Rattle.desk.specs.StepLaws.{ReadsAs};

use super::{Answer, FOUND, Machine, Reply};
use rule::Refusal;
use trail::Trail;

impl Machine {
    // What is replied and written. Nothing of the machine changes.
    pub fn read_path(
        &self,
        passages: &[u32],
        estimates: &[u32],
        buffer: &mut [u16],
        at: usize,
    ) -> Result<Reply, Refusal>
        ensures { ReadsAs result self.now buffer.new (path_of self.now passages.now estimates.now buffer.old at) }
    {
        let sound = self.is_sound(passages, estimates);
        if !self.fits(sound) {
            return Err(Refusal::Unfit);
        }
        if self.phase != FOUND {
            return Err(Refusal::NotFound);
        }
        let trail = Trail {
            n: self.n,
            start: self.start,
            goal: self.goal,
            passages,
            label: &self.label,
            via: &self.via,
        };
        let count = trail.path_length().ok_or(Refusal::BrokenTrail)?;
        if at > buffer.len() || count > buffer.len() - at {
            return Err(Refusal::ShortBuffer);
        }
        trail.write_back(&mut buffer[at..], count);
        Ok(Reply::Read(count as u16))
    }

    pub fn path(self, passages: &[u32], estimates: &[u32], buffer: &mut [u16], at: usize) -> Answer
        ensures { (result ≡ (path_of self passages.now estimates.now buffer.old at).given) × (buffer.new ≡ (path_of self passages.now estimates.now buffer.old at).buffer) }
    {
        let reply = self
            .read_path(passages, estimates, buffer, at)
            .unwrap_or_else(Reply::Refused);
        Answer {
            machine: self,
            reply,
        }
    }
}
