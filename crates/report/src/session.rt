// A session: a file read, a task opened, its calls made one after the other, and all of it said.
ghost use Rattle.std.specs.Prelude.{◌≡◌, true, [], ◌+◌, ◌*◌, ◌≤◌, length, take};
ghost use Rattle.desk.specs.Fits.{is_sound};
ghost use Rattle.desk.specs.Morning.{events_of};
ghost use Rattle.desk.specs.Reply.{when, found};
ghost use Rattle.report.specs.PageLaws.{Room, Written, WrittenIn};
ghost use Rattle.report.specs.Text.{opening_read, session, task_text, printed, report_length, report_buffer};
ghost use Rattle.report.specs.Laws.{path_text, reserve, spare, Said, Counts};

use super::page::Page;
use super::{ESTIMATES, EVENTS, PASSAGES};
use desk::{Answer, Machine, Reply};
use taskfile::Contents;

// The path of a machine, as a line; nothing where it has none to read.
pub fn put_path(page: &mut Page, m: Machine, passages: &[u32], estimates: &[u32])
    requires { Room 8192 page.old }
    ensures { WrittenIn 8192 (path_text m passages.now estimates.now) page.old page.new }
{
    let mut states = [0u16; 256];
    let read = m.path(passages, estimates, &mut states, 0);
    page.path(&states, read.reply);
}

// What comes after a reply's line: the path, after Found.
pub fn put_after(page: &mut Page, reply: Reply, m: Machine, passages: &[u32], estimates: &[u32])
    requires { Room (reserve reply) page.old }
    ensures { WrittenIn (reserve reply) (when found reply (λ _. path_text m passages.now estimates.now) []) page.old page.new }
{
    if let Reply::Found(_) = reply {
        put_path(page, m, passages, estimates);
    }
}

// One event: its call is made and said, and its machine comes back. Opening accepted the task, so that conditions 1 to 4 hold
// of every machine that its calls hand back and its keys are right, and none of these looks at them again.
pub fn tell(page: &mut Page, m: Machine, passages: &[u32], estimates: &[u32], event: u32) -> Machine
    requires { Room (50 + spare m) page.old × (is_sound m passages.now estimates.now ≡ true) }
    ensures { Said m passages.now estimates.now event page.old page.new result }
{
    let answer = desk::called(m, true, passages, estimates, event);
    page.reply(u64::from(event % desk::CALL), answer.reply);
    put_after(page, answer.reply, answer.machine, passages, estimates);
    answer.machine
}

// All events, in their order.
pub fn play(page: &mut Page, machine: Machine, passages: &[u32], estimates: &[u32], events: &[u32])
    requires { Room (50 * length events.now + 8192) page.old × (is_sound machine passages.now estimates.now ≡ true) }
    ensures { Written (session passages.now estimates.now machine (events_of events.now)) page.old page.new }
{
    let mut m = machine;
    for &event in events {
        m = tell(page, m, passages, estimates, event);
    }
}

// The opening of a task that was read into the front of two slices.
pub fn opened(c: Contents, passages: &[u32], estimates: &[u32]) -> Answer
    requires passages { 3 * c.passages ≤ length passages.now }
    requires estimates { c.n * c.n ≤ length estimates.now }
    ensures { result ≡ opening_read c (take (3 * c.passages) passages.now) (take (c.n * c.n) estimates.now) }
{
    let passages = &passages[..3 * c.passages];
    let estimates = &estimates[..c.n * c.n];
    Machine::opening(
        c.n, c.k, c.start, c.goal, c.pull, c.excess, passages, estimates,
    )
}

// A task that was read into the front of three slices: opened and played, or its refusal alone.
pub fn put_session(
    page: &mut Page,
    c: Contents,
    passages: &[u32],
    estimates: &[u32],
    events: &[u32],
)
    requires counts { Counts c (length passages.now) (length estimates.now) (length events.now) }
    requires room { Room (50 * c.calls + 8192) page.old }
    ensures { Written (task_text c (take (3 * c.passages) passages.now) (take (c.n * c.n) estimates.now) (take c.calls events.now)) page.old page.new }
{
    let answer = opened(c, passages, estimates);
    match answer.reply {
        Reply::Refused(refusal) => page.line(b"opening", &[u64::from(u8::from(refusal))]),
        _ => play(
            page,
            answer.machine,
            &passages[..3 * c.passages],
            &estimates[..c.n * c.n],
            &events[..c.calls],
        ),
    }
}

// A file: its task and calls, or its fault alone.
// The three arrays stand in `ending_of` too: a function that handed them out would copy 66 KB, and nothing here is on the heap.
pub fn put_file(page: &mut Page, file: &[u8])
    requires { Room 558592 page.old }
    ensures { Written (printed file.now) page.old page.new }
{
    let mut passages = [0u32; PASSAGES];
    let mut estimates = [0u32; ESTIMATES];
    let mut events = [0u32; EVENTS];
    match taskfile::read(file, &mut passages, &mut estimates, &mut events) {
        Ok(c) => put_session(page, c, &passages, &estimates, &events),
        // usize has no From into u64.
        Err(fault) => page.line(b"file", &[u64::from(u8::from(fault.kind)), fault.at as u64]),
    }
}

// The places that a buffer must have for any file's text.
pub const ROOM: usize = 589824;

// What `deskrun` prints for a file: the text goes to the front of `out`, and its length comes back. Where `out` has fewer
// than `ROOM` places nothing is written, and 0 comes back.
pub fn report(file: &[u8], out: &mut [u8]) -> usize
    ensures value { result ≡ report_length file.now out.old }
    ensures out_after { out.new ≡ report_buffer file.now out.old }
{
    if out.len() < ROOM {
        return 0;
    }
    let mut page = Page { out, at: 0 };
    put_file(&mut page, file);
    page.at
}
