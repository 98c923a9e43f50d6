//! A release wakes a thread that surely sleeps for the lock, and wakes nobody else. Each test ends
//! by itself, also where a wake is lost, but for two that sleep by hand.
ghost use Rattle.kernel_lock.specs.Seats.{IsSeatOf};

use super::{Announced, Attempt, Looked, Taken, Waiters};
use crate::steps::FREE;
use crate::tests::{Counter, open};
use crate::{LockSeat, Locked, Opened};
use std::hint::spin_loop;
use std::sync::Wait;
use std::sync::atomic::AtomicU64;
use std::sync::atomic::Ordering::SeqCst;
use std::thread::{Threads, join, yield_now};

/// How often a thread looks for a sign of the other.
const LOOKS: u64 = 200_000;

/// How often a thread that is about to sleep is let go on: often enough for a busy machine, and no
/// oftener, since there each turn may take as long as the other processes like.
const TURNS: u64 = 100;

/// How long each turn is where nobody else wants the processor.
const PAUSES: u64 = 1_000;

/// How two threads signal to each other.
#[derive(Drop)]
struct Signs {
    announced: AtomicU64,
    woken: AtomicU64,
    over: AtomicU64,
}

fn is_seen(sign: &AtomicU64) -> bool {
    for _ in 0..LOOKS {
        if sign.load(SeqCst) > 0 {
            return true;
        }
        yield_now();
    }
    false
}

fn let_it_park() {
    for _ in 0..TURNS {
        for _ in 0..PAUSES {
            spin_loop();
        }
        yield_now();
    }
}

// As if the lock had been found free after the announcement.
fn found_free(announced: Announced) {
    let word = FREE;
    Looked { announced, word }.free();
}

// As if it had been found taken.
fn found_taken(announced: Announced) -> Taken {
    let word = 1;
    Looked { announced, word }.taken()
}

// Sleeps as a thread does that found the lock taken. Says whether it slept.
fn fall_asleep<R: Wait>(rt: &R, waiters: &Waiters, signs: &Signs) -> bool {
    let announced = waiters.announce();
    signs.announced.store(1, SeqCst);
    if signs.over.load(SeqCst) > 0 {
        found_free(announced);
        return false;
    }
    let attempt = waiters.sleep(rt, found_taken(announced), Attempt::new());
    signs.woken.store(1, SeqCst);
    waiters.pass_on(attempt).is_some()
}

// Makes a call once the other thread sleeps, and says whether that woke it. Else it wakes it.
fn call<R: Wait>(rt: &R, lock: &Locked<Counter>, mut seat: LockSeat<Counter>, signs: &Signs) -> bool
    requires { IsSeatOf lock.now seat }
{
    if is_seen(&signs.announced) {
        let_it_park();
        lock.apply(rt, &mut seat, 1);
        if is_seen(&signs.woken) {
            return true;
        }
    }
    signs.over.store(1, SeqCst);
    lock.waiters.mark.fetch_add(2, SeqCst);
    lock.waiters.mark.wake_all();
    false
}

fn call_and_sleep<R: Threads + Wait + Sync>(
    rt: &R,
    lock: &Locked<Counter>,
    seat: LockSeat<Counter>,
    signs: &Signs,
) -> (bool, bool)
    requires { IsSeatOf lock.now seat }
{
    let waiters = &lock.waiters;
    join(
        rt,
        || call(rt, lock, seat, signs),
        || fall_asleep(rt, waiters, signs),
    )
}

#[test]
fn a_sleeper_that_parked_is_woken_by_a_release(rt: HostRuntime) {
    let Opened { lock, seat } = open(&rt, rt.alloc());
    let signs = Signs {
        announced: AtomicU64::new(0),
        woken: AtomicU64::new(0),
        over: AtomicU64::new(0),
    };
    let (woken, slept) = call_and_sleep(&rt, &lock, seat, &signs);
    assert_eq!(rt; woken, slept);
}

// Two calls, and the mark after them.
fn mark_after_calls<R: Wait>(rt: &R, lock: &Locked<Counter>, seat: &mut LockSeat<Counter>) -> u64
    requires { IsSeatOf lock.now seat.old }
    ensures { IsSeatOf lock.now seat.new }
{
    lock.apply(rt, seat, 1);
    lock.apply(rt, seat, 1);
    lock.waiters.mark.load(SeqCst)
}

// A wake changes the mark for good: a lock that has the mark of a new one has made none. Where
// somebody waits the mark tells of the one wake.
#[test]
fn a_call_that_nobody_waits_for_wakes_nobody(rt: HostRuntime) {
    let Opened { lock, mut seat } = open(&rt, rt.alloc());
    assert_eq!(rt; mark_after_calls(&rt, &lock, &mut seat), 0);
    found_free(lock.waiters.announce());
    assert_eq!(rt; mark_after_calls(&rt, &lock, &mut seat), 2);
    assert_eq!(rt; lock.close(&rt, seat).sum, 4);
}

// The lock is given back after a thread's last look and before its mark, so no wake comes:
// a thread that did not look again would sleep for good.
#[test]
fn a_release_before_the_mark_is_seen(rt: HostRuntime) {
    let Opened { lock, mut seat } = open(&rt, rt.alloc());
    lock.apply(&rt, &mut seat, 1);
    let mut stepper = seat.take_token();
    let attempt = lock.sleep(&rt, &mut stepper, Attempt::new());
    assert!(rt; lock.waiters.pass_on(attempt).is_none());
    seat.put_token(stepper);
    assert_eq!(rt; lock.close(&rt, seat).sum, 1);
}

// Whether who announced itself twice before a release has slept, and the next mark is another.
fn sleeps_twice<R: Wait>(rt: &R, lock: &Locked<Counter>, seat: &mut LockSeat<Counter>) -> bool
    requires { IsSeatOf lock.now seat.old }
    ensures { IsSeatOf lock.now seat.new }
{
    let first = lock.waiters.announce();
    let second = lock.waiters.announce();
    lock.apply(rt, seat, 1);
    // This release was no answer to the next mark.
    let third = lock.waiters.announce();
    let is_another = third.mark != first.mark;
    found_free(third);
    let attempt = lock.waiters.sleep(rt, found_taken(first), Attempt::new());
    let attempt = lock.waiters.sleep(rt, found_taken(second), attempt);
    lock.waiters.pass_on(attempt).is_some() && is_another
}

// The lock is given back between the mark and the sleep: a release that left the mark as it was
// would let both threads sleep for good.
#[test]
fn a_release_after_the_mark_ends_the_sleep(rt: HostRuntime) {
    let Opened { lock, mut seat } = open(&rt, rt.alloc());
    assert!(rt; sleeps_twice(&rt, &lock, &mut seat));
    assert_eq!(rt; lock.close(&rt, seat).sum, 1);
}
