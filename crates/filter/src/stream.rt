// Reading standard input to its end, and writing to standard output until all is written, with failures told apart from the end. A
// failure is said on standard error, with the error's name.
ghost use Rattle.std.specs.Prelude.{◌≤◌, length, IfOk};

use std::fs::OpenOptions;
use std::io::{ErrorKind, Read, Write};
use std::time::Duration;
use std::{fs, io, thread};

// The input could not be read to its end.
#[derive(Clone, Copy, Debug, PartialEq, Eq)]
pub struct Unread;

// Why not all was written: nobody reads any more, or the writing failed.
#[derive(Clone, Copy, Debug, PartialEq, Eq)]
pub enum Unwritten {
    Gone,
    Failed,
}

// Waits for about a millisecond.
fn pause(rt: &HostRuntime) {
    thread::sleep(rt, Duration::from_millis(1));
}

// Whether a call that failed so is to be made again: at once where a signal came between, after a pause where the
// descriptor is one that doesn't wait by itself.
fn passes(rt: &HostRuntime, error: &io::Error) -> bool {
    match error.kind() {
        ErrorKind::Interrupted => true,
        ErrorKind::WouldBlock => {
            pause(rt);
            true
        }
        _ => false,
    }
}

// Says on standard error what can't be done, with the error's name.
fn fail(rt: &HostRuntime, what: &str, error: &io::Error) {
    let _ = match format!(in rt.alloc(); "{error}") {
        // the name, without the number that std puts after it
        Ok(text) => match text.find(" (os error ") {
            Some(end) => eprintln!(rt; "deskrun: cannot {what}: {}", &text[..end]),
            None => eprintln!(rt; "deskrun: cannot {what}: {text}"),
        },
        Err(_) => eprintln!(rt; "deskrun: cannot {what}"),
    };
}

// Reads until buf is full or the input ends: how many bytes there were. A loop has to end, and nothing says that an input
// does, so the turns are counted to a number that no run uses up.
pub fn fill(rt: &HostRuntime, buf: &mut [u8]) -> Result<usize, Unread>
    ensures { IfOk result (λ got. got ≤ length buf.new) }
{
    let mut done: usize = 0;
    for _ in 0..u64::MAX {
        if done == buf.len() {
            return Ok(done);
        }
        match rt.stdin().read(&mut buf[done..]) {
            Ok(0) => return Ok(done),
            Ok(got) => done += got,
            Err(error) if passes(rt, &error) => {}
            Err(error) => {
                fail(rt, "read", &error);
                return Err(Unread);
            }
        }
    }
    let _ = eprintln!(rt; "deskrun: cannot read: too many tries");
    Err(Unread)
}

// Writes all of buf and, where that was something and goes to a file, has it carried there: some file systems say only then that a write
// has failed.
pub fn drain(rt: &HostRuntime, buf: &[u8]) -> Result<(), Unwritten> {
    let mut done: usize = 0;
    for _ in 0..u64::MAX {
        if done == buf.len() {
            return settle(rt, done);
        }
        match rt.stdout().write(&buf[done..]) {
            Ok(0) => {
                let _ = eprintln!(rt; "deskrun: cannot write: nothing was taken");
                return Err(Unwritten::Failed);
            }
            Ok(put) => done += put,
            Err(error) if error.kind() == ErrorKind::BrokenPipe => return Err(Unwritten::Gone),
            Err(error) if passes(rt, &error) => {}
            Err(error) => {
                fail(rt, "write", &error);
                return Err(Unwritten::Failed);
            }
        }
    }
    let _ = eprintln!(rt; "deskrun: cannot write: too many tries");
    Err(Unwritten::Failed)
}

// What writing came to, once so many bytes were taken.
fn settle(rt: &HostRuntime, written: usize) -> Result<(), Unwritten> {
    if written == 0 {
        return Ok(());
    }
    carried(rt).map_err(|error| {
        fail(rt, "write", &error);
        Unwritten::Failed
    })
}

// Has what was written to standard output carried to the file that it is. A pipe, a terminal or a connection keeps nothing, and what may
// not be opened once more can't be asked.
fn carried(rt: &HostRuntime) -> io::Result<()> {
    let place = "/dev/stdout";
    if !fs::metadata(rt, place).is_ok_and(|found| found.is_file()) {
        return Ok(());
    }
    match OpenOptions::new().append(true).open(rt, place) {
        Ok(file) => file.sync_all(),
        Err(_) => Ok(()),
    }
}
