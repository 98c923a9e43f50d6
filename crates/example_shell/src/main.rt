//! A shell of three jobs, each of four processes. One note stops one job and no other.
//!
//! A job is a note group: its first process is made with `RFPROC` and `RFNOTEG`, and the others are
//! its children, which are in its group. The shell has the roster, so nobody else makes processes
//! or posts to a group. On Plan 9 the kernel likewise does both for the process that asks it.
#![tactic(auto)]

use plan9::{
    Fault, Flags, Kernel, Note, NoteSet, OpenedKernel, Pid, Proc, RendezId, Roster, Started, forks,
};
use std::alloc::Global;
use std::sync::Wait;
use std::thread::{Threads, join, map_vec};

/// How many jobs there are, how many processes each has, and which job is stopped.
const JOBS: u64 = 3;

const PROCS: u64 = 4;

const STOPPED: u64 = 2;

/// A process of a job. It waits for its work in a Rendez of its own.
#[derive(Drop)]
struct Worker<'k> {
    job: u64,
    proc: Proc<'k>,
    door: RendezId,
}

/// How a process of a job ended: its work came, or a note.
#[derive(Clone, Copy)]
struct Ended {
    job: u64,
    by: Result<(), Fault>,
}

fn work<R: Wait>(rt: &R, worker: Worker<'_>) -> Ended {
    let (job, mut proc) = (worker.job, worker.proc);
    let by = proc.sleep(rt, worker.door, 0);
    Ended { job, by }
}

/// The shell: a process, with the roster, and what it knows of its jobs.
#[derive(Drop)]
struct Shell<'k> {
    roster: Roster<'k>,
    proc: Proc<'k>,
    /// The first process of the job that is stopped.
    stopped: Pid,
    /// Where the processes of the other jobs wait.
    doors: Vec<RendezId>,
}

impl<'k> Shell<'k> {
    /// A job: a process in a group of its own, and its children.
    fn begin(&mut self, alloc: Global, job: u64, all: &mut Vec<Worker<'k>>) -> Result<(), Fault> {
        let apart = Flags::RFPROC.join(Flags::RFNOTEG);
        let child = self.roster.rfork(&mut self.proc, apart)?;
        let mut first = child.ok_or(Fault::NoProc)?;
        if job == STOPPED {
            self.stopped = first.pid();
        }
        for child in forks(alloc, &mut self.roster, &mut first, PROCS - 1)? {
            self.join(job, child, all)?;
        }
        self.join(job, first, all)
    }

    /// A process of a job, with a door of its own.
    fn join(&mut self, job: u64, proc: Proc<'k>, all: &mut Vec<Worker<'k>>) -> Result<(), Fault> {
        let door = self.roster.rendez()?;
        if job != STOPPED {
            self.doors.push(door)?;
        }
        Ok(all.push(Worker { job, proc, door })?)
    }

    /// Stops one job by a note, and gives all others their work. Returns how many were sent the
    /// note.
    fn direct(&mut self) -> Result<u64, Fault> {
        let interrupt = NoteSet::of(Note::Interrupt);
        let noted = self
            .roster
            .postnote_group(&mut self.proc, self.stopped, interrupt);
        for door in self.doors.iter() {
            self.proc.wakeup(*door, 1)?;
        }
        noted
    }
}

/// What came of the jobs: how many processes were sent the note, and how each ended.
#[derive(Drop)]
struct Outcome {
    noted: u64,
    ended: Vec<Ended>,
}

/// The shell beside its jobs, each process on a thread of its own.
fn run_all<'k, R: Threads + Wait + Sync>(
    rt: &R,
    alloc: Global,
    started: Started<'k>,
) -> Result<Outcome, Fault> {
    let Started { roster, proc } = started;
    let (stopped, doors) = (proc.pid(), Vec::new(alloc));
    let mut shell = Shell {
        roster,
        proc,
        stopped,
        doors,
    };
    let mut workers = Vec::new(alloc);
    for job in 1..=JOBS {
        shell.begin(alloc, job, &mut workers)?;
    }
    let (noted, ended) = join(
        rt,
        || shell.direct(),
        || map_vec(rt, workers, &|worker: Worker| work(rt, worker)),
    );
    let (noted, ended) = (noted?, ended?);
    Ok(Outcome { noted, ended })
}

fn run<R: Threads + Wait + Sync>(rt: &R, alloc: Global) -> Result<Outcome, Fault> {
    let procs = JOBS * PROCS;
    let OpenedKernel { kernel, start } = Kernel::new(alloc, 1 + procs, procs)?;
    run_all(rt, alloc, kernel.start(start))
}

/// How many processes of the job had their work, or else were stopped.
fn count(ended: &[Ended], job: u64, had_work: bool) -> usize {
    let is_so = |it: &&Ended| -> bool { it.job == job && it.by.is_ok() == had_work };
    ended.iter().filter(is_so).count()
}

fn main(rt: HostRuntime) -> anyhow::Result<()> {
    let Outcome { noted, ended } = run(&rt, rt.alloc())?;
    println!(rt; "the note reached {noted} processes")?;
    for job in 1..=JOBS {
        let (stopped, served) = (count(&ended, job, false), count(&ended, job, true));
        println!(rt; "job {job}: {stopped} stopped, {served} had their work")?;
    }
    Ok(())
}
