//! A counter under a lock, called by eight threads.
ghost use Rattle.std.specs.Prelude.{ℕ, ◌+◌, ◌%◌, ◌^◌, ◌<◌, None, All};
ghost use Rattle.kernel_lock.specs.Seats.{IsSeatOf};

use kernel_lock::{LockSeat, Locked, Object, Opened};
use std::alloc::{AllocFailed, Global};
use std::process::Abort;
use std::sync::Wait;
use std::sync::atomic::AtomicU64;
use std::sync::atomic::Ordering::SeqCst;
use std::thread::{self, Threads};
use sync_base::Fault;

/// The smallest object: a call adds its number, and answers the sum, which wraps at 2^64.
#[derive(Drop)]
struct Counter {
    sum: u64,
}

impl Object for Counter {
    type Call = u64;

    type Reply = u64;

    ghost State = { ℕ };

    ghost definition = { record {
      state = λ counter. counter.sum;
      answer = λ sum amount. (sum + amount) % 2 ^ 64;
      after = λ sum amount. (sum + amount) % 2 ^ 64;
      named = λ amount. None;
    } };

    fn caller(_amount: &u64) -> Option<u64> {
        None
    }

    fn run(&mut self, amount: u64) -> u64 {
        self.sum = self.sum.wrapping_add(amount);
        self.sum
    }
}

/// A lock over an object. Where memory is refused the object comes back, and is put under it again.
pub fn lock_of<O: Object>(rt: &impl Abort, alloc: Global, object: O, seats: u64) -> Opened<O>
    requires { 0 < seats }
    ensures { IsSeatOf result.lock result.seat }
{
    match Locked::new(alloc, object, seats) {
        Ok(opened) => opened,
        Err(AllocFailed { value: object }) => Locked::new(alloc, object, seats)
            .ok()
            .expect(rt, "no memory where none is refused"),
    }
}

/// Whether all answers are true.
pub fn are_all(answers: &[bool]) -> bool {
    for is_so in answers.iter() {
        if !*is_so {
            return false;
        }
    }
    true
}

/// This many further seats of a lock.
pub fn seats_of<O: Object, R: Wait + Abort>(
    rt: &R,
    alloc: Global,
    lock: &Locked<O>,
    seat: &mut LockSeat<O>,
    count: u64,
) -> Vec<LockSeat<O>>
    requires { IsSeatOf lock.now seat.old }
    ensures seat { IsSeatOf lock.now seat.new }
    ensures others { All (IsSeatOf lock.now) result.items }
{
    let mut seats = Vec::new(alloc);
    for _ in 0..count {
        let other = lock.split(rt, seat).expect(rt, "no seat is left");
        if seats.push(other).is_err() {
            panic!(rt; "no memory for a seat");
        }
    }
    seats
}

// Whether the seat has this number, and the lock none left to give.
fn is_last<R: Wait>(rt: &R, lock: &Locked<Counter>, by: &mut LockSeat<Counter>, number: u64) -> bool
    requires { IsSeatOf lock.now by.old }
    ensures { IsSeatOf lock.now by.new }
{
    let refused = matches!(lock.split(rt, by), Err(Fault::NoProc));
    refused && by.number() == number
}

#[test]
fn a_lock_gives_as_many_seats_as_it_may(rt: HostRuntime) {
    let Opened { lock, mut seat } = lock_of(&rt, rt.alloc(), Counter { sum: 5 }, 2);
    let mut other = lock.split(&rt, &mut seat).expect(&rt, "a second seat");
    assert!(rt; is_last(&rt, &lock, &mut seat, 0));
    assert!(rt; is_last(&rt, &lock, &mut other, 1));
    assert_eq!(rt; lock.apply(&rt, &mut other, 2), 7);
    assert_eq!(rt; lock.apply(&rt, &mut seat, u64::MAX), 6);
    let both = lock.join(other, seat);
    assert!(rt; both.number() == 1);
    assert_eq!(rt; lock.close(&rt, both).sum, 6);
}

// ---- eight threads

const CALLS: u64 = 2_000;

// Adds 1 again and again, and counts each sum that it is answered. Says whether they rose.
fn adds<R: Wait>(
    rt: &R,
    lock: &Locked<Counter>,
    counts: &Vec<AtomicU64>,
    mut seat: LockSeat<Counter>,
) -> bool
    requires { IsSeatOf lock.now seat }
{
    let mut last = 0;
    let mut rose = true;
    for _ in 0..CALLS {
        let sum = lock.apply(rt, &mut seat, 1);
        rose = rose && last < sum;
        last = sum;
        if let Some(count) = counts.get((sum as usize).wrapping_sub(1)) {
            count.fetch_add(1, SeqCst);
        }
    }
    rose
}

// Each seat on a thread of its own.
fn add_at_once<R: Threads + Wait + Abort + Sync>(
    rt: &R,
    lock: &Locked<Counter>,
    counts: &Vec<AtomicU64>,
    seats: Vec<LockSeat<Counter>>,
) -> bool
    requires { All (IsSeatOf lock.now) seats.items }
{
    let done = thread::map_vec(
        rt,
        seats,
        &|seat: LockSeat<Counter>| -> bool
            requires { IsSeatOf lock.now seat }
        { adds(rt, lock, counts, seat) },
    );
    match done {
        Ok(rose) => are_all(rose.as_slice()),
        Err(_) => panic!(rt; "no memory for the answers"),
    }
}

// So many counts of 0.
fn zeros(rt: &impl Abort, alloc: Global, count: u64) -> Vec<AtomicU64> {
    let mut counts = Vec::new(alloc);
    for _ in 0..count {
        if counts.push(AtomicU64::new(0)).is_err() {
            panic!(rt; "no memory for a count");
        }
    }
    counts
}

// Eight seats of a lock add at once. Whether the sums of each rose, and the sum at last.
fn sum_of_eight<R: Threads + Wait + Abort + Sync>(
    rt: &R,
    alloc: Global,
    counts: &Vec<AtomicU64>,
) -> (bool, u64) {
    let Opened { lock, mut seat } = lock_of(rt, alloc, Counter { sum: 0 }, 9);
    let others = seats_of(rt, alloc, &lock, &mut seat, 8);
    let rose = add_at_once(rt, &lock, counts, others);
    (rose, lock.close(rt, seat).sum)
}

// Each sum was answered once.
fn are_ones(rt: &impl Abort, counts: &[AtomicU64]) {
    for count in counts.iter() {
        assert_eq!(rt; count.load(SeqCst), 1);
    }
}

// The sums of each thread rise, and all threads together get each sum once.
#[test]
fn calls_of_eight_threads_stand_in_one_history(rt: HostRuntime) {
    let counts = zeros(&rt, rt.alloc(), 8 * CALLS);
    assert_eq!(rt; sum_of_eight(&rt, rt.alloc(), &counts), (true, 8 * CALLS));
    are_ones(&rt, counts.as_slice());
}
