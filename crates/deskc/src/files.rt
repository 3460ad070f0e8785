// What reading and writing a task file come to, as numbers. The types are the task file's, and numbers are what C takes, so these are
// functions and no `From`.
ghost use Rattle.std.specs.Prelude.{◌≡◌, ◌≤◌, length};
ghost use Rattle.laws.specs.Part.{overlaid};
ghost use Rattle.taskfile.specs.Laws.{Small, SmallOutcome};
ghost use Rattle.deskc.specs.Files.{fault_code, read_code, filed_code, numbers_of, numbers_after};

use taskfile::{Contents, Fault, Unwritable};

// How many numbers a reader of a file gets beside its rows: those of the head, and two counts.
pub const NUMBERS: usize = 8;

// The fault's number times 2^32, plus the offset.
pub fn fault_code(fault: Fault) -> u64
    requires { fault.at ≤ 65536 }
    ensures { result ≡ fault_code fault }
{
    (u64::from(u8::from(fault.kind)) << 32) + fault.at as u64
}

// 0 where the file was read; else the fault.
pub fn read_code(outcome: Result<Contents, Fault>) -> u64
    requires { SmallOutcome outcome }
    ensures { result ≡ read_code outcome }
{
    match outcome {
        Ok(_) => 0,
        Err(fault) => fault_code(fault),
    }
}

// The file's length; or the refusal's number times 2^32.
pub fn filed_code(filed: Result<usize, Unwritable>) -> u64
    ensures { result ≡ filed_code filed }
{
    match filed {
        Ok(many) => many as u64,
        Err(refusal) => u64::from(u8::from(refusal)) << 32,
    }
}

// The head's six numbers, and the counts of passages and events, written to the front of a row.
pub fn put_contents(numbers: &mut [u32], held: Contents)
    requires { (8 ≤ length numbers.old) × Small held }
    ensures { numbers.new ≡ overlaid 0 (numbers_of held) numbers.old }
{
    numbers[0] = held.n as u32;
    numbers[1] = held.k as u32;
    numbers[2] = held.start as u32;
    numbers[3] = held.goal as u32;
    numbers[4] = u32::from(held.pull);
    numbers[5] = u32::from(held.excess);
    numbers[6] = held.passages as u32;
    numbers[7] = held.calls as u32;
}

// The same where a file was read; a fault writes nothing.
pub fn put_numbers(numbers: &mut [u32], outcome: Result<Contents, Fault>)
    requires { (8 ≤ length numbers.old) × SmallOutcome outcome }
    ensures { numbers.new ≡ numbers_after outcome numbers.old }
{
    if let Ok(held) = outcome {
        put_contents(numbers, held);
    }
}
