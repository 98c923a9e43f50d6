//! Eight sleepers on a Rendez each, three wakers, and notes between; and two processes that wake
//! each other.
use crate::dice::{Dice, seed_of};
use crate::kernels::{forked, kernel_of, push};
use plan9::{Fault, Note, NoteSet, OpenedKernel, Pid, Proc, RendezId, Started};
use std::alloc::Global;
use std::process::Abort;
use std::sync::Wait;
use std::thread::{self, Threads};

const SLEEPERS: u64 = 8;

const WAKERS: u64 = 3;

/// How high each waker raises each level, one by one. All wakers raise to the same levels.
const LEVELS: u64 = 2_000;

/// A process of the crowd, the wakers first. They begin first, so that where a thread can't be
/// started the threads that run still end.
#[derive(Drop)]
struct Job<'k> {
    proc: Proc<'k>,
    number: u64,
}

/// The calls that were answered well, and those that were refused.
#[derive(Clone, Copy, PartialEq, Eq)]
struct Work {
    good: u64,
    refused: u64,
}

// Sleeps until the level is at its top, once for each level. Sleeps that notes end are begun again.
fn sleeps<R: Wait>(rt: &R, proc: &mut Proc, own: RendezId) -> Work {
    let mut work = Work {
        good: 0,
        refused: 0,
    };
    for _ in rt.forever() {
        if work.good >= LEVELS || work.refused > 0 {
            break;
        }
        match proc.sleep(rt, own, work.good) {
            Ok(()) => work.good += 1,
            Err(Fault::Interrupted(_)) => {}
            Err(_) => work.refused = 1,
        }
    }
    work
}

// A note to one of the sleepers now and then. Says whether it was refused.
fn note_is_refused(proc: &mut Proc, dice: &mut Dice) -> bool {
    let noted = dice.roll(64);
    let alarm = NoteSet::of(Note::Alarm);
    noted < SLEEPERS && proc.postnote(Pid(WAKERS + noted + 1), alarm).is_err()
}

// Raises every level of every sleeper, and posts notes between.
fn wakes(proc: &mut Proc, mut dice: Dice) -> Work {
    let mut work = Work {
        good: 0,
        refused: 0,
    };
    for level in 1..=LEVELS {
        for sleeper in 0..SLEEPERS {
            match proc.wakeup(RendezId(sleeper), level) {
                Ok(_) => work.good = work.good.saturating_add(1),
                Err(_) => work.refused = work.refused.saturating_add(1),
            }
        }
        if note_is_refused(proc, &mut dice) {
            work.refused = work.refused.saturating_add(1);
        }
    }
    work
}

// Whether all calls of a process of the crowd are answered well.
fn works<R: Wait>(rt: &R, job: &mut Job, seed: u64) -> bool {
    let number = job.number;
    let (work, good) = if number < WAKERS {
        (
            wakes(&mut job.proc, Dice::of(seed, number)),
            LEVELS * SLEEPERS,
        )
    } else {
        (sleeps(rt, &mut job.proc, RendezId(number - WAKERS)), LEVELS)
    };
    work == Work { good, refused: 0 }
}

// The crowd's processes, each with its number.
fn jobs_of<'k, R: Abort>(rt: &R, alloc: Global, started: &mut Started<'k>) -> Vec<Job<'k>> {
    let mut jobs = Vec::new(alloc);
    for number in 0..SLEEPERS + WAKERS {
        let proc = forked(rt, started);
        push(rt, &mut jobs, Job { proc, number });
    }
    jobs
}

// All of them do well.
fn are_good(rt: &impl Abort, done: &[bool], seed: u64) {
    for good in done {
        assert!(rt; *good, "seed {seed}");
    }
}

fn run_crowd<R: Threads + Wait + Abort + Sync>(rt: &R, jobs: Vec<Job<'_>>, seed: u64) {
    let done = thread::map_vec(
        rt,
        jobs,
        &|mut job: Job| -> bool { works(rt, &mut job, seed) },
    );
    let done = done.ok().expect(rt, "no memory for the answers");
    are_good(rt, done.as_slice(), seed);
}

#[test]
fn a_crowd_is_woken_to_the_last(rt: HostRuntime) {
    let OpenedKernel { kernel, start } = kernel_of(
        &rt,
        rt.alloc(),
        SLEEPERS + WAKERS + 1,
        SLEEPERS,
    );
    let jobs = jobs_of(&rt, rt.alloc(), &mut kernel.start(start));
    run_crowd(&rt, jobs, seed_of(&rt));
}

const ROUNDS: u64 = 1_000;

const INPUT: RendezId = RendezId(0);

const OUTPUT: RendezId = RendezId(1);

// Wakes the other and waits to be woken, so many times. Says whether each call answered well.
fn pings<R: Wait>(rt: &R, mut proc: Proc, own: RendezId, other: RendezId, first: bool) -> bool {
    let mut good = true;
    for round in 0..ROUNDS {
        if first {
            good = proc.wakeup(other, round + 1).is_ok() && good;
        }
        good = proc.sleep(rt, own, round).is_ok() && good;
        if !first {
            good = proc.wakeup(other, round + 1).is_ok() && good;
        }
    }
    good
}

// Both at once. Whether both say so.
fn ping_at_once<'k, R: Threads + Wait + Abort + Sync>(
    rt: &R,
    first: Proc<'k>,
    second: Proc<'k>,
) -> bool {
    let (one, other) = thread::join(
        rt,
        || pings(rt, first, INPUT, OUTPUT, true),
        || pings(rt, second, OUTPUT, INPUT, false),
    );
    one && other
}

#[test]
fn two_processes_pass_a_wakeup_to_and_fro(rt: HostRuntime) {
    let OpenedKernel { kernel, start } = kernel_of(&rt, rt.alloc(), 2, 2);
    let mut started = kernel.start(start);
    let second = forked(&rt, &mut started);
    assert!(rt; ping_at_once(&rt, started.proc, second));
}
