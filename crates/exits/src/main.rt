// `deskrun` with an exit status, the program that ./deskrun runs: the proved function does all the work, and its number is the status. The
// buffers lie on the heap, so that the program needs little of the stack.
#![tactic(auto)]

ghost use Rattle.std.specs.Prelude.{◌<◌, IfOk};

use std::alloc::AllocError;
use std::process::ExitCode;

// The status where there is no memory to run in: EX_OSERR of <sysexits.h>.
const NO_MEMORY: u8 = 71;

// A run, over buffers of the right sizes: its status.
fn ended(rt: &HostRuntime) -> Result<u32, AllocError>
    ensures { IfOk result (λ status. status < 256) }
{
    let mut file = vec![in rt.alloc(); 0u8; filter::FILE_ROOM]?;
    let mut text = vec![in rt.alloc(); 0u8; filter::TEXT_ROOM]?;
    Ok(filter::run(rt, &mut file, &mut text))
}

fn main(rt: HostRuntime) -> ExitCode {
    match ended(&rt) {
        // `filter::run` promises a u32, and that it fits.
        Ok(status) => ExitCode::from(status as u8),
        Err(_) => {
            let _ = eprintln!(rt; "deskrun: there is no memory to run in");
            ExitCode::from(NO_MEMORY)
        }
    }
}
