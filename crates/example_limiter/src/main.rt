//! A rate limiter in real time: four requests at once, and then one a millisecond, whoever asks. A
//! unit of a semaphore is leave for a request. One process adds units as time goes by, and three
//! clients take them, in the order of asking.
#![tactic(auto)]

use plan9::{
    Fault, Note, NoteSet, OpenedKernel, Plan, Proc, RealTime, Seat, Semaphore, Started, TickSource,
    forks,
};
use std::alloc::{AllocError, Global};
use std::sync::Wait;
use std::thread::{Threads, map_vec, scope, scope_env};
use std::time::Clock;

/// How many requests may be made at once, and how many each client makes.
const BURST: u32 = 4;

const REQUESTS: u64 = 20;

const CLIENTS: u64 = 3;

/// A process with a seat: a client, or the one that adds units.
#[derive(Drop)]
struct Caller<'s, 'k> {
    proc: Proc<'k>,
    seat: Seat<'s>,
}

/// Adds a unit for each millisecond while there are fewer than may be made at once, until it is
/// sent a note. Where more milliseconds pass between two moments, the rest of them is lost.
fn pour<R: Wait + Clock>(rt: &R, time: &RealTime, bucket: Caller<'_, '_>) -> Result<(), Fault> {
    let Caller { mut proc, mut seat } = bucket;
    let (mut beat, mut last) = (time.beat(rt), 0u64);
    for _ in rt.forever() {
        if !proc.notes().is_empty() {
            break;
        }
        let moment = beat.next();
        let full = seat.release(rt, &mut proc, 0)?;
        let passed = moment.saturating_sub(last).min(u64::from(BURST)) as u32;
        let more = passed.min(BURST.saturating_sub(full));
        seat.release(rt, &mut proc, more)?;
        last = moment;
    }
    Ok(())
}

/// Makes requests, each with leave. Returns at which millisecond the last was made.
fn ask<R: Wait + Clock>(rt: &R, time: &RealTime, client: Caller<'_, '_>) -> Result<u64, Fault> {
    let Caller { mut proc, mut seat } = client;
    for _ in 0..REQUESTS {
        seat.acquire(rt, &mut proc)?;
    }
    Ok(time.now(rt))
}

/// At which millisecond the last request of all was made.
fn latest(asked: Result<Vec<Result<u64, Fault>>, AllocError>) -> Result<u64, Fault> {
    let mut latest = 0;
    for asked in asked?.iter() {
        latest = latest.max((*asked)?);
    }
    Ok(latest)
}

/// The clients beside the process that adds units: children of the first process.
fn run_all<R: Threads + Wait + Clock + Sync>(
    rt: &R,
    alloc: Global,
    units: &mut Semaphore,
    started: Started<'_>,
) -> Result<u64, Fault> {
    let Started {
        mut roster,
        mut proc,
    } = started;
    let seats = units.seats(alloc, rt, CLIENTS + 1)?;
    let procs = forks(alloc, &mut roster, &mut proc, CLIENTS + 1)?;
    let mut clients = Vec::new(alloc);
    for (proc, seat) in procs.into_iter().zip(seats) {
        clients.push(Caller { proc, seat })?;
    }
    let bucket = clients.pop().ok_or(Fault::NoProc)?;
    let (time, pid) = (&RealTime::new(rt), bucket.proc.pid());
    scope(scope_env(), rt, move |scope| {
        let Ok(pouring) = scope.spawn(move || pour(rt, time, bucket)) else {
            return Err(Fault::Device);
        };
        let asked = map_vec(rt, clients, &|client: Caller| ask(rt, time, client));
        let noted = proc.postnote(pid, NoteSet::of(Note::Interrupt));
        pouring.join(rt).and(noted).and(latest(asked))
    })
}

fn run<R: Threads + Wait + Clock + Sync>(rt: &R, alloc: Global) -> Result<u64, Fault> {
    let plan = Plan::new().processes(CLIENTS + 2).semaphore(CLIENTS + 1);
    let OpenedKernel { kernel, start } = plan.build(alloc)?;
    let mut started = kernel.start(start);
    let mut units = Semaphore::new(alloc, &mut started.roster, BURST, CLIENTS + 1)?;
    run_all(rt, alloc, &mut units, started)
}

fn main(rt: HostRuntime) -> anyhow::Result<()> {
    let (all, took) = (REQUESTS * CLIENTS, run(&rt, rt.alloc())?);
    let least = all - u64::from(BURST);
    let kept = if took >= least { "kept" } else { "not kept" };
    println!(rt; "{all} requests in {least} milliseconds or more: {kept}")?;
    Ok(())
}
