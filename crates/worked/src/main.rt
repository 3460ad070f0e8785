// The worked runs that a program runs and compares: A1 with its path, the runs without a star, and odd input.
#![tactic(auto)]

use desk::{Answer, Event, Machine, Reply};
use std::{fmt, io};

// Task A.
const PASSAGES: [u32; 18] = [0, 1, 2, 0, 2, 5, 1, 2, 1, 2, 3, 2, 1, 4, 9, 3, 4, 1];

const ESTIMATES: [u32; 25] = [0; 25];

// The calls of A1.
const A1: [Event; 13] = [
    Event::Take(0),
    Event::Take(1),
    Event::Bring(0),
    Event::Take(0),
    Event::Take(1),
    Event::Bring(0),
    Event::Take(1),
    Event::Take(0),
    Event::Bring(1),
    Event::Take(0),
    Event::Take(1),
    Event::Bring(0),
    Event::Take(1),
];

// A reply to a worker, in deskrun's words.
#[derive(Clone, Copy)]
struct Line {
    worker: usize,
    reply: Reply,
}

impl fmt::Display for Line {
    fn fmt<W: fmt::Write>(&self, f: &mut fmt::Formatter<W>) -> fmt::Result {
        let worker = self.worker;
        match self.reply {
            Reply::Opened => write!(f, "opened {worker}"),
            Reply::Took(s) => write!(f, "took {worker} {s}"),
            Reply::Brought(many) => write!(f, "brought {worker} {many}"),
            Reply::Found(cost) => write!(f, "found {worker} {cost}"),
            Reply::NoPath => write!(f, "nopath {worker}"),
            Reply::Wait(s) => write!(f, "wait {worker} {s}"),
            Reply::Read(many) => write!(f, "read {worker} {many}"),
            Reply::Refused(refusal) => write!(f, "refused {worker} {}", u8::from(refusal)),
            Reply::Done => write!(f, "done {worker}"),
            Reply::Cut(limit) => write!(f, "cut {worker} {limit}"),
        }
    }
}

// The states of a path.
#[derive(Clone, Copy)]
struct Path([u16; 5]);

impl fmt::Display for Path {
    fn fmt<W: fmt::Write>(&self, f: &mut fmt::Formatter<W>) -> fmt::Result {
        f.write_str("path")?;
        for s in &self.0 {
            write!(f, " {s}")?;
        }
        Ok(())
    }
}

// The reply of an answer, said; and its machine.
fn said(rt: &HostRuntime, worker: usize, answer: Answer) -> io::Result<Machine> {
    let reply = answer.reply;
    println!(rt; "{}", Line { worker, reply })?;
    Ok(answer.machine)
}

// One call on task A.
fn step(rt: &HostRuntime, m: Machine, event: Event) -> io::Result<Machine> {
    match event {
        Event::Take(worker) => said(rt, worker, m.take(&PASSAGES, &ESTIMATES, worker)),
        Event::Bring(worker) => said(rt, worker, m.bring(&PASSAGES, &ESTIMATES, worker)),
    }
}

// Task A, with sizes, a goal and a cost for the last passage of its own: opened.
fn opened(n: usize, k: usize, goal: usize, cost: u32) -> Answer {
    let mut passages = PASSAGES;
    passages[17] = cost;
    Machine::opening(n, k, 0, goal, 100, 100, &passages, &ESTIMATES)
}

// Task A as it is, opened.
fn fresh() -> Machine {
    opened(5, 2, 4, 1).machine
}

// A machine of task A that has dealt the start to worker 0.
fn dealt() -> Machine {
    fresh().take(&PASSAGES, &ESTIMATES, 0).machine
}

// The calls of A1 on task A.
fn played(rt: &HostRuntime) -> io::Result<Machine> {
    let mut m = fresh();
    for &event in &A1 {
        m = step(rt, m, event)?;
    }
    Ok(m)
}

// Path reading on task A, into a buffer of five places from `at` on: the reply, and the buffer.
fn read(rt: &HostRuntime, m: Machine, at: usize) -> io::Result<()> {
    let mut states = [9u16; 5];
    said(rt, 0, m.path(&PASSAGES, &ESTIMATES, &mut states, at))?;
    println!(rt; "{}", Path(states))
}

// A1, and the path that it ends with.
fn run_a1(rt: &HostRuntime) -> io::Result<()> {
    read(rt, played(rt)?, 0)
}

// Cost 1,000,000 passes, 1,000,001 is 4; goal 5 of 5 is 2; worker 2 of 2 is 9.
fn run_bounds(rt: &HostRuntime) -> io::Result<()> {
    for (goal, cost) in [(4, 1000000), (4, 1000001), (5, 1)] {
        said(rt, 0, opened(5, 2, goal, cost))?;
    }
    step(rt, fresh(), Event::Take(2))?;
    Ok(())
}

// Sizes out of range: n of 0 and 257, k of 0 and 33.
fn run_sizes(rt: &HostRuntime) -> io::Result<()> {
    for (n, k) in [(0, 2), (257, 2), (5, 0), (5, 33)] {
        said(rt, 0, opened(n, k, 4, 1))?;
    }
    Ok(())
}

// Machines that fit no task: a label and a mark at their types' largest numbers, a held state that is finished, one state
// held twice, a phase of 3; and a worker at its type's largest number.
fn run_made_up(rt: &HostRuntime) -> io::Result<()> {
    let mut m = dealt();
    m.label[1] = u32::MAX;
    step(rt, m, Event::Take(1))?;
    m = dealt();
    m.mark[1] = u8::MAX;
    step(rt, m, Event::Take(1))?;
    m = dealt();
    m.mark[0] = 3;
    step(rt, m, Event::Take(1))?;
    m = dealt();
    m.held[1] = 0;
    step(rt, m, Event::Take(1))?;
    m = dealt();
    m.phase = 3;
    step(rt, m, Event::Take(1))?;
    said(rt, 1, dealt().take(&PASSAGES, &ESTIMATES, usize::MAX))?;
    Ok(())
}

// Path reading with no place, and from places past the end; and before the search has found.
fn run_reading(rt: &HostRuntime) -> io::Result<()> {
    let m = played(rt)?;
    said(rt, 0, m.path(&PASSAGES, &ESTIMATES, &mut [], 0))?;
    for at in [1, 5, usize::MAX] {
        read(rt, m, at)?;
    }
    read(rt, dealt(), 0)
}

fn main(rt: HostRuntime) -> io::Result<()> {
    run_a1(&rt)?;
    run_bounds(&rt)?;
    run_sizes(&rt)?;
    run_made_up(&rt)?;
    run_reading(&rt)
}
