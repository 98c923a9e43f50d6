//! A desk with deadlines. One client gives up and complains. The clerk, who tells the time, sends
//! the other client away, and once that has left the desk is freed. The first waits again, and is
//! served.
#![tactic(auto)]

use plan9::{
    Clock, Fault, FaultText, Job, Note, NoteSet, OpenedKernel, Pid, Plan, Proc, RealTime, Seat,
    Semaphore, Started, Team, Told, Watch, Worker, forks,
};
use std::alloc::Global;
use std::sync::Wait;
use std::thread::Threads;
use std::time::Clock as Now;

/// The hasty client is process 1. The first process has the desk, until the other client has left.
const OTHER: Pid = Pid(2);

const CLERK: Pid = Pid(3);

/// How a wait ended.
type Outcome = Result<(), Fault>;

/// A place at the desk.
#[derive(Drop)]
struct Party<'s> {
    desk: Seat<'s>,
    watch: Watch<'s>,
    time: &'s RealTime,
}

impl<'s> Party<'s> {
    /// Waits for five milliseconds from now, complains, and waits again for as long as it takes.
    fn ask_twice<R: Wait + Now>(&mut self, rt: &R, proc: &mut Proc<'_>) -> [Outcome; 2] {
        let (desk, now) = (&mut self.desk, self.time.now(rt));
        let gave_up = desk.acquire_within(rt, proc, &mut self.watch, now, 5);
        let complained = proc.postnote(CLERK, NoteSet::of(Note::Alarm));
        [gave_up, complained.and(desk.acquire(rt, proc))]
    }

    /// Tells the time until a client complains, and sends the other client away.
    fn serve<R: Wait + Now>(&mut self, rt: &R, proc: &mut Proc<'_>) -> Outcome {
        let _alarm = self.watch.run(rt, proc, &mut self.time.beat(rt));
        proc.postnote(OTHER, NoteSet::of(Note::Hangup))
    }
}

impl<'s, R: Wait + Now> Job<R> for Party<'s> {
    type Out = [Outcome; 2];

    fn run(mut self, rt: &R, proc: &mut Proc<'_>) -> [Outcome; 2] {
        match proc.pid() {
            OTHER => [self.desk.acquire(rt, proc), Ok(())],
            CLERK => [self.serve(rt, proc), Ok(())],
            _ => self.ask_twice(rt, proc),
        }
    }
}

/// The first process frees the desk when it is told that the second job, the other client, ended.
impl<'s, R: Wait> Told<R> for Party<'s> {
    fn told(&mut self, rt: &R, proc: &mut Proc<'_>, number: usize) {
        if number == 1 {
            let _free = self.desk.release(rt, proc, 1);
        }
    }
}

/// All are children of the first process, and start together.
fn run_all<R: Threads + Wait + Now + Sync>(
    rt: &R,
    alloc: Global,
    first: &mut Party<'_>,
    started: &mut Started<'_>,
) -> Result<[Outcome; 3], Fault> {
    let Started { roster, proc } = started;
    let mut team = Team::new(roster, 3)?;
    let mut workers = Vec::new(alloc);
    for child in forks(alloc, roster, proc, 3)? {
        let (desk, watch, time) = (first.desk.split(rt)?, first.watch.split(rt)?, first.time);
        let job = Party { desk, watch, time };
        workers.push(Worker { proc: child, job })?;
    }
    first.desk.acquire(rt, proc)?;
    let ended = team.run(alloc, rt, proc, workers, first)?;
    match ended.as_slice() {
        [hasty, other, clerk] => {
            let [[gave_up, served], [cancelled, _], [noted, _]] = [hasty.out, other.out, clerk.out];
            noted.map(|()| [gave_up, cancelled, served])
        }
        _ => Err(Fault::BadSize),
    }
}

/// What the processes share.
#[derive(Drop)]
struct Objects {
    desks: Semaphore,
    clock: Clock,
    time: RealTime,
}

/// The first process has the first place.
fn open<R: Threads + Wait + Now + Sync>(
    rt: &R,
    alloc: Global,
    objects: &mut Objects,
    started: &mut Started<'_>,
) -> Result<[Outcome; 3], Fault> {
    let Objects { desks, clock, time } = objects;
    let (desk, watch) = (desks.seat()?, clock.watch()?);
    let mut first = Party { desk, watch, time };
    run_all(rt, alloc, &mut first, started)
}

fn run<R: Threads + Wait + Now + Sync>(rt: &R, alloc: Global) -> Result<[Outcome; 3], Fault> {
    let OpenedKernel { kernel, start } = Plan::new().semaphore(4).team(3).build(alloc)?;
    let mut started = kernel.start(start);
    let mut objects = Objects {
        desks: Semaphore::new(alloc, &mut started.roster, 1, 4)?,
        clock: Clock::new(alloc, 4)?,
        time: RealTime::new(rt),
    };
    open(rt, alloc, &mut objects, &mut started)
}

fn main(rt: HostRuntime) -> anyhow::Result<()> {
    for outcome in run(&rt, rt.alloc())? {
        match outcome {
            Ok(()) => println!(rt; "served")?,
            Err(fault) => println!(rt; "{}", FaultText(fault))?,
        }
    }
    Ok(())
}
