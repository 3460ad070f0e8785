// A whole morning in one call: a list of events, and a reply for each in a lent row.
ghost use Rattle.std.specs.Prelude.{◌≡◌};
ghost use Rattle.desk.specs.Reply.{answer};
ghost use Rattle.desk.specs.Fits.{is_sound};
ghost use Rattle.desk.specs.Calls.{call};
ghost use Rattle.desk.specs.Morning.{event_of, events_right, morning_fault, morning_of};

use super::{Answer, CALL, Event, Machine, Reply};
use rule::Refusal;

// Each number is a Take or a Bring.
pub fn are_events(events: &[u32]) -> bool
    ensures { result ≡ events_right events.now }
{
    events.iter().all(|event| event / CALL <= 1)
}

// The first of 16 and 18 that applies.
#[tactic(auto, unfolding(crate::specs::Morning::morning_fault))]
pub fn morning_fault(events: &[u32], places: usize) -> Result<(), Refusal>
    ensures { result ≡ morning_fault events.now places }
{
    if places < events.len() {
        return Err(Refusal::ShortRow);
    }
    if !are_events(events) {
        return Err(Refusal::NoEvent);
    }
    Ok(())
}

// The call that an event asks for. Conditions 1 to 4 and the keys were looked at before, once for all events: `sound` says whether
// they hold.
pub fn called(
    mut m: Machine,
    sound: bool,
    passages: &[u32],
    estimates: &[u32],
    event: u32,
) -> Answer
    requires { sound ≡ is_sound m passages.now estimates.now }
    ensures { result ≡ call passages.now estimates.now m (event_of event) }
{
    let reply = m.call(sound, passages, estimates, Event::from(event));
    Answer { machine: m, reply }
}

impl Machine {
    // The same, where the machine stands.
    pub fn call(&mut self, sound: bool, passages: &[u32], estimates: &[u32], event: Event) -> Reply
        requires { sound ≡ is_sound self.old passages.now estimates.now }
        ensures { answer self.new result ≡ call passages.now estimates.now self.old event }
    {
        let outcome = match event {
            Event::Take(worker) => self.take_checked(sound, passages, estimates, worker),
            Event::Bring(worker) => self.bring_checked(sound, passages, estimates, worker),
        };
        outcome.unwrap_or_else(Reply::Refused)
    }

    #[tactic(auto, using(crate::specs::CallLaws::morning_room), unfolding(crate::specs::Morning::morning_of))]
    pub fn morning(
        mut self,
        passages: &[u32],
        estimates: &[u32],
        events: &[u32],
        row: &mut [u64],
    ) -> Answer
        ensures value { result ≡ (morning_of self passages.now estimates.now events.now row.old).given }
        ensures row_after { row.new ≡ (morning_of self passages.now estimates.now events.now row.old).row }
    {
        if let Err(refusal) = morning_fault(events, row.len()) {
            return Answer {
                machine: self,
                reply: Reply::Refused(refusal),
            };
        }
        let sound = self.is_sound(passages, estimates);
        // Each call on the machine that the last one left. A place is written by its number: of places that are lent one by one
        // beside the events, a proof would know nothing after the loop.
        for (i, &event) in events.iter().enumerate() {
            let reply = self.call(sound, passages, estimates, Event::from(event));
            row[i] = u64::from(reply);
        }
        Answer {
            machine: self,
            reply: Reply::Done,
        }
    }
}
