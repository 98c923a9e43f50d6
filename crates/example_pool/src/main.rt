//! A pool of workers. Six of them share two machines, one at a time each, in the order of asking.
//! It names one crate, `plan9`: a worker is a process with a seat at the semaphore.
#![tactic(auto)]

use plan9::{Fault, Kernel, OpenedKernel, Proc, Seat, Semaphore, Started, forks};
use std::alloc::Global;
use std::sync::Wait;
use std::thread::{Threads, map_vec};

/// How many workers and machines there are, and how many pieces each worker makes.
const WORKERS: u64 = 6;

const MACHINES: u32 = 2;

const PIECES: u64 = 100;

/// A worker on its own thread.
#[derive(Drop)]
struct Worker<'s, 'k> {
    proc: Proc<'k>,
    seat: Seat<'s>,
}

/// Makes one piece after another, each on a machine that it hands back. Returns how many.
fn work<R: Wait>(rt: &R, worker: Worker<'_, '_>) -> Result<u64, Fault> {
    let Worker { mut proc, mut seat } = worker;
    let mut made = 0;
    for piece in 1..=PIECES {
        seat.acquire(rt, &mut proc)?;
        made = piece;
        seat.release(rt, &mut proc, 1)?;
    }
    Ok(made)
}

/// How many pieces were made in all.
fn sum(made: &[Result<u64, Fault>]) -> Result<u64, Fault> {
    let mut all = 0u64;
    for made in made {
        all = all.saturating_add((*made)?);
    }
    Ok(all)
}

/// All workers at once, each on a thread of its own: they are children of the first process.
fn work_all<R: Threads + Wait + Sync>(
    rt: &R,
    alloc: Global,
    machines: &mut Semaphore,
    started: Started<'_>,
) -> Result<u64, Fault> {
    let Started {
        mut roster,
        mut proc,
    } = started;
    let seats = machines.seats(alloc, rt, WORKERS)?;
    let procs = forks(alloc, &mut roster, &mut proc, WORKERS)?;
    let mut workers = Vec::new(alloc);
    for (proc, seat) in procs.into_iter().zip(seats) {
        workers.push(Worker { proc, seat })?;
    }
    let made = map_vec(rt, workers, &|worker: Worker| work(rt, worker))?;
    sum(&made)
}

fn run<R: Threads + Wait + Sync>(rt: &R, alloc: Global) -> Result<u64, Fault> {
    let OpenedKernel { kernel, start } = Kernel::new(alloc, WORKERS + 1, WORKERS)?;
    let mut started = kernel.start(start);
    let mut machines = Semaphore::new(alloc, &mut started.roster, MACHINES, WORKERS)?;
    work_all(rt, alloc, &mut machines, started)
}

fn main(rt: HostRuntime) -> anyhow::Result<()> {
    let pieces = run(&rt, rt.alloc())?;
    println!(rt; "{WORKERS} workers made {pieces} pieces")?;
    Ok(())
}
