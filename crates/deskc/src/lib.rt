// The desk for C: opening, Take, the limited Take, Bring, whole mornings, path reading, printing, maps and task files, over numbers and lent rows of numbers.
// include/route_desk.h declares each.
#![tactic(auto)]

ghost use Rattle.std.specs.Prelude.{◌≡◌};
ghost use Rattle.checks.specs.Opening.{task};
ghost use Rattle.gridmap.specs.Reading.{read_map, spot_of, state_at_spot};
ghost use Rattle.report.specs.Text.{report_length, report_buffer};
ghost use Rattle.taskfile.specs.Writing.{write_of};
ghost use Rattle.deskc.specs.Maps.{survey_code, spot_code, state_code};
ghost use Rattle.deskc.specs.Files.{filed_code, head_of, file_row};
ghost use Rattle.deskc.specs.Calls.{open_row, take_row, take_limited_row, bring_row, morning_row, path_row};

mod files;
mod maps;
mod row;
mod stored;
mod weights;

use desk::{Machine, Reply};
use taskfile::{Fault, FaultKind, Head};

// A comparison counts so much in the number that a limited Take returns: the reply's own number is smaller.
const COMPARISON: u64 = 1_099_511_627_776;

#[tactic(auto, using(crate::proofs::Rules::opens), unfolding(crate::specs::Calls::open_row))]
#[unsafe(no_mangle)]
pub extern "C" fn desk_open(
    n: usize,
    k: usize,
    start: usize,
    goal: usize,
    pull: usize,
    excess: usize,
    passages: &[u32],
    estimates: &[u32],
    machine: &mut [u32],
) -> u64
    ensures value { result ≡ (open_row (task n k start goal pull excess passages.now estimates.now) machine.old).code }
    ensures machine_after { machine.new ≡ (open_row (task n k start goal pull excess passages.now estimates.now) machine.old).row }
{
    if machine.len() != row::ROW {
        return row::unfit();
    }
    let w = weights::clamp(pull);
    let e = weights::clamp(excess);
    let answer = Machine::opening(n, k, start, goal, w, e, passages, estimates);
    row::put_head(machine, &answer.machine);
    row::put_changing(machine, &answer.machine);
    u64::from(answer.reply)
}

#[tactic(auto, using(desk::specs::ToldLaws::take_placed, crate::specs::Laws::turn_told), unfolding(crate::specs::Calls::turn_of))]
#[unsafe(no_mangle)]
pub extern "C" fn desk_take(
    machine: &mut [u32],
    passages: &[u32],
    estimates: &[u32],
    worker: usize,
) -> u64
    ensures value { result ≡ (take_row machine.old passages.now estimates.now worker).code }
    ensures machine_after { machine.new ≡ (take_row machine.old passages.now estimates.now worker).row }
{
    if !row::is_row(machine) {
        return row::unfit();
    }
    let answer = row::unpack(machine).take(passages, estimates, worker);
    row::put_taken(machine, worker, answer.reply);
    u64::from(answer.reply)
}

#[tactic(auto, using(crate::proofs::Rules::counts), unfolding(crate::specs::Calls::take_limited_row))]
#[unsafe(no_mangle)]
pub extern "C" fn desk_take_limited(
    machine: &mut [u32],
    passages: &[u32],
    estimates: &[u32],
    worker: usize,
    limit: usize,
) -> u64
    ensures value { result ≡ (take_limited_row machine.old passages.now estimates.now worker limit).code }
    ensures machine_after { machine.new ≡ (take_limited_row machine.old passages.now estimates.now worker limit).row }
{
    if !row::is_row(machine) {
        return row::unfit();
    }
    let counted = row::unpack(machine).take_limited(passages, estimates, worker, limit);
    row::put_taken(machine, worker, counted.answer.reply);
    counted.comparisons as u64 * COMPARISON + u64::from(counted.answer.reply)
}

#[tactic(auto, using(crate::specs::Laws::row_bounds), unfolding(crate::specs::Calls::turn_of))]
#[unsafe(no_mangle)]
pub extern "C" fn desk_bring(
    machine: &mut [u32],
    passages: &[u32],
    estimates: &[u32],
    worker: usize,
) -> u64
    ensures value { result ≡ (bring_row machine.old passages.now estimates.now worker).code }
    ensures machine_after { machine.new ≡ (bring_row machine.old passages.now estimates.now worker).row }
{
    if !row::is_row(machine) {
        return row::unfit();
    }
    let answer = row::unpack(machine).bring(passages, estimates, worker);
    if !matches!(answer.reply, Reply::Refused(_)) {
        row::put_changing(machine, &answer.machine);
    }
    u64::from(answer.reply)
}

#[tactic(auto, using(crate::specs::Laws::row_bounds), unfolding(crate::specs::Calls::morning_row))]
#[unsafe(no_mangle)]
pub extern "C" fn desk_morning(
    machine: &mut [u32],
    passages: &[u32],
    estimates: &[u32],
    events: &[u32],
    replies: &mut [u64],
) -> u64
    ensures value { result ≡ (morning_row machine.old passages.now estimates.now events.now replies.old).code }
    ensures machine_after { machine.new ≡ (morning_row machine.old passages.now estimates.now events.now replies.old).row }
    ensures replies_after { replies.new ≡ (morning_row machine.old passages.now estimates.now events.now replies.old).replies }
{
    if let Err(refusal) = desk::morning_fault(events, replies.len()) {
        return u64::from(Reply::Refused(refusal));
    }
    if !row::is_row(machine) {
        return row::unfit();
    }
    let answer = row::unpack(machine).morning(passages, estimates, events, replies);
    row::put_changing(machine, &answer.machine);
    u64::from(answer.reply)
}

#[tactic(auto, unfolding(crate::specs::Calls::path_row))]
#[unsafe(no_mangle)]
pub extern "C" fn desk_path(
    machine: &[u32],
    passages: &[u32],
    estimates: &[u32],
    buffer: &mut [u16],
    at: usize,
) -> u64
    ensures value { result ≡ (path_row machine.now passages.now estimates.now buffer.old at).code }
    ensures buffer_after { buffer.new ≡ (path_row machine.now passages.now estimates.now buffer.old at).buffer }
{
    if !row::is_row(machine) {
        return row::unfit();
    }
    let answer = row::unpack(machine).path(passages, estimates, buffer, at);
    u64::from(answer.reply)
}

#[unsafe(no_mangle)]
pub extern "C" fn desk_print(file: &[u8], text: &mut [u8]) -> usize
    ensures value { result ≡ report_length file.now text.old }
    ensures text_after { text.new ≡ report_buffer file.now text.old }
{
    report::report(file, text)
}

#[unsafe(no_mangle)]
pub extern "C" fn desk_map(text: &[u8], passages: &mut [u32], estimates: &mut [u32]) -> u64
    ensures value { result ≡ survey_code (read_map text.now passages.old estimates.old).reply }
    ensures passages_after { passages.new ≡ (read_map text.now passages.old estimates.old).passages }
    ensures estimates_after { estimates.new ≡ (read_map text.now passages.old estimates.old).estimates }
{
    maps::survey_code(gridmap::read_map(text, passages, estimates))
}

#[unsafe(no_mangle)]
pub extern "C" fn desk_map_spot(text: &[u8], state: usize) -> u32
    ensures { result ≡ spot_code (spot_of text.now state) }
{
    maps::spot_code(gridmap::spot_of(text, state))
}

#[unsafe(no_mangle)]
pub extern "C" fn desk_map_state(text: &[u8], row: usize, column: usize) -> u32
    ensures { result ≡ state_code (state_at_spot text.now row column) }
{
    maps::state_code(gridmap::state_at(text, row, column))
}

#[tactic(auto, using(taskfile::specs::Laws::read_small), unfolding(crate::specs::Files::file_row))]
#[unsafe(no_mangle)]
pub extern "C" fn desk_file_read(
    file: &[u8],
    numbers: &mut [u32],
    passages: &mut [u32],
    estimates: &mut [u32],
    events: &mut [u32],
) -> u64
    ensures value { result ≡ (file_row file.now numbers.old passages.old estimates.old events.old).code }
    ensures numbers_after { numbers.new ≡ (file_row file.now numbers.old passages.old estimates.old events.old).numbers }
    ensures passages_after { passages.new ≡ (file_row file.now numbers.old passages.old estimates.old events.old).passages }
    ensures estimates_after { estimates.new ≡ (file_row file.now numbers.old passages.old estimates.old events.old).estimates }
    ensures events_after { events.new ≡ (file_row file.now numbers.old passages.old estimates.old events.old).events }
{
    if numbers.len() < files::NUMBERS {
        return files::fault_code(Fault {
            kind: FaultKind::ShortSlice,
            at: 0,
        });
    }
    let outcome = taskfile::read(file, passages, estimates, events);
    files::put_numbers(numbers, outcome);
    files::read_code(outcome)
}

#[unsafe(no_mangle)]
pub extern "C" fn desk_file_write(
    n: usize,
    k: usize,
    start: usize,
    goal: usize,
    pull: usize,
    excess: usize,
    passages: &[u32],
    estimates: &[u32],
    events: &[u32],
    buffer: &mut [u8],
) -> u64
    ensures value { result ≡ filed_code (write_of (head_of n k start goal pull excess) passages.now estimates.now events.now buffer.old).reply }
    ensures buffer_after { buffer.new ≡ (write_of (head_of n k start goal pull excess) passages.now estimates.now events.now buffer.old).buffer }
{
    let head = Head {
        n,
        k,
        start,
        goal,
        pull,
        excess,
    };
    files::filed_code(taskfile::write(head, passages, estimates, events, buffer))
}
