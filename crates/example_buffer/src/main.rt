//! A bounded buffer: a producer fills four places, and a consumer empties them, until no item is
//! left ten milliseconds after the producer is done. One semaphore counts the free places, another
//! the items.
#![tactic(auto)]

use plan9::{
    Beat, Clock, Fault, Note, NoteSet, OpenedKernel, Plan, Proc, Seat, Semaphore, Started, Watch,
    fork,
};
use std::alloc::Global;
use std::sync::Wait;
use std::sync::atomic::{AtomicU64, Ordering};
use std::thread::{Threads, scope, scope_env};
use std::time::Clock as Now;

type Places = [AtomicU64; 4];

/// A side of the buffer takes a unit of one semaphore, and gives one to the other.
#[derive(Drop)]
struct Side<'s, 'k> {
    proc: Proc<'k>,
    takes: Seat<'s>,
    gives: Seat<'s>,
    watch: Watch<'s>,
}

/// Puts ten items in.
fn fill<R: Wait>(rt: &R, side: &mut Side<'_, '_>, places: &Places) -> Result<(), Fault> {
    for item in 1..=10u64 {
        side.takes.acquire(rt, &mut side.proc)?;
        places[(item % 4) as usize].store(item, Ordering::SeqCst);
        side.gives.release(rt, &mut side.proc, 1)?;
    }
    Ok(())
}

/// Takes items out, until none is there at a tick of the moment 10 or later, and returns their sum.
fn empty<R: Wait>(rt: &R, side: &mut Side<'_, '_>, places: &Places) -> Result<u64, Fault> {
    let Side {
        proc,
        takes,
        gives,
        watch,
    } = side;
    let mut sum = 0u64;
    for item in 1..=u64::MAX {
        match takes.acquire_within(rt, proc, watch, 0, 10) {
            Err(Fault::TimedOut) => break,
            acquired => acquired?,
        }
        sum = sum.saturating_add(places[(item % 4) as usize].load(Ordering::SeqCst));
        gives.release(rt, proc, 1)?;
    }
    Ok(sum)
}

/// The producer fills the places, and then ticks until it is sent a note.
fn produce<R: Wait + Now>(rt: &R, mut side: Side<'_, '_>, places: &Places) -> Result<(), Fault> {
    let filled = fill(rt, &mut side, places);
    let Side {
        mut proc,
        takes: _,
        gives: _,
        mut watch,
    } = side;
    let _notes = watch.run(rt, &mut proc, &mut Beat::new(rt));
    filled
}

/// The producer has a thread of its own, and the consumer this one.
fn run_both<R: Threads + Wait + Now + Sync>(
    rt: &R,
    producer: Side<'_, '_>,
    consumer: &mut Side<'_, '_>,
) -> Result<u64, Fault> {
    let places = &[0; 4].map(AtomicU64::new);
    let pid = producer.proc.pid();
    scope(scope_env(), rt, move |scope| {
        let Ok(producing) = scope.spawn(move || produce(rt, producer, places)) else {
            return Err(Fault::Device);
        };
        let sum = empty(rt, consumer, places);
        let noted = consumer.proc.postnote(pid, NoteSet::of(Note::Interrupt));
        producing.join(rt).and(noted).and(sum)
    })
}

/// The producer is a child of the consumer. Each takes the units that the other gives.
fn seat<R: Threads + Wait + Now + Sync>(
    rt: &R,
    free: &mut Semaphore,
    items: &mut Semaphore,
    clock: &mut Clock,
    started: Started<'_>,
) -> Result<u64, Fault> {
    let Started {
        mut roster,
        mut proc,
    } = started;
    let child = fork(&mut roster, &mut proc)?;
    let (mut free, mut items, mut watch) = (free.seat()?, items.seat()?, clock.watch()?);
    let consumer = &mut Side {
        proc,
        takes: items.split(rt)?,
        gives: free.split(rt)?,
        watch: watch.split(rt)?,
    };
    let producer = Side {
        proc: child,
        takes: free,
        gives: items,
        watch,
    };
    run_both(rt, producer, consumer)
}

fn run<R: Threads + Wait + Now + Sync>(rt: &R, alloc: Global) -> Result<u64, Fault> {
    let OpenedKernel { kernel, start } = Plan::new().semaphore(2).semaphore(2).build(alloc)?;
    let mut started = kernel.start(start);
    let mut free = Semaphore::new(alloc, &mut started.roster, 4, 2)?;
    let mut items = Semaphore::new(alloc, &mut started.roster, 0, 2)?;
    let mut clock = Clock::new(alloc, 2)?;
    seat(rt, &mut free, &mut items, &mut clock, started)
}

fn main(rt: HostRuntime) -> anyhow::Result<()> {
    let sum = run(&rt, rt.alloc())?;
    println!(rt; "the sum of the items is {sum}")?;
    Ok(())
}
