//! Threads that sleep before the lock of a room, and are woken. The calls in the room stay inside
//! until the others sleep.
ghost use Rattle.std.specs.Prelude.{ℕ, ◌+◌, ◌%◌, ◌^◌, None, All};
ghost use Rattle.kernel_lock.specs.Seats.{IsSeatOf};

use crate::locks::{are_all, lock_of, seats_of};
use kernel_lock::{LockSeat, Locked, Object, Opened};
use std::alloc::Global;
use std::hint::spin_loop;
use std::process::Abort;
use std::sync::atomic::AtomicU64;
use std::sync::atomic::Ordering::SeqCst;
use std::sync::{Arc, Wait};
use std::thread::{self, Threads, yield_now};

/// How often a call looks which threads are outside, so that it ends in any case.
const LOOKS: u64 = 1_000_000;

/// How long a call stays after that: many times as long as a thread looks before it sleeps.
const STAY: u64 = 100_000;

/// How often threads are put to sleep and woken.
const ROUNDS: u64 = 20;

/// How the threads in the room and before it signal to each other.
#[derive(Drop)]
struct Door {
    inside: AtomicU64,
    outside: AtomicU64,
}

impl Door {
    // Waits until a thread stays inside, and says that one more is about to call.
    fn line_up<R: Wait>(&self, rt: &R) {
        for _ in rt.forever() {
            if self.inside.load(SeqCst) > 0 {
                break;
            }
            yield_now();
        }
        self.outside.fetch_add(1, SeqCst);
    }

    // Stays until so many threads are about to call, and then until they sleep.
    fn stay(&self, others: u64) {
        self.inside.store(1, SeqCst);
        for _ in 0..LOOKS {
            if self.outside.load(SeqCst) >= others {
                break;
            }
            yield_now();
        }
        for _ in 0..STAY {
            spin_loop();
        }
    }
}

/// A call names how many threads are to sleep before the room, and returns how many calls were
/// made.
#[derive(Drop)]
struct Room {
    calls: u64,
    door: Arc<Door>,
}

impl Object for Room {
    type Call = u64;

    type Reply = u64;

    ghost State = { ℕ };

    ghost definition = { record {
      state = λ room. room.calls;
      answer = λ calls others. (calls + 1) % 2 ^ 64;
      after = λ calls others. (calls + 1) % 2 ^ 64;
      named = λ others. None;
    } };

    fn caller(_others: &u64) -> Option<u64> {
        None
    }

    fn run(&mut self, others: u64) -> u64 {
        if others > 0 {
            self.door.stay(others);
        }
        self.calls = self.calls.wrapping_add(1);
        self.calls
    }
}

/// How often a thread makes a call that does not stay.
const CALLS: u64 = 2_000;

/// What a thread does: it stays in the room until `others` other threads sleep before it; or it is
/// one of those threads, or neither. Then it makes `calls` calls that do not stay.
#[derive(Clone, Copy)]
struct Part {
    others: u64,
    is_outside: bool,
    calls: u64,
}

// One thread's part, by the number of its seat. Says that it is over.
fn play<R: Wait>(
    rt: &R,
    lock: &Locked<Room>,
    door: &Door,
    mut seat: LockSeat<Room>,
    parts: &[Part],
) -> bool
    requires { IsSeatOf lock.now seat }
{
    let Some(part) = parts.get((seat.number() as usize).wrapping_sub(1)) else {
        return false;
    };
    if part.is_outside {
        door.line_up(rt);
    }
    if part.others > 0 {
        lock.apply(rt, &mut seat, part.others);
    }
    for _ in 0..part.calls {
        lock.apply(rt, &mut seat, 0);
    }
    true
}

// Each seat on a thread of its own.
fn play_at_once<R: Threads + Wait + Abort + Sync>(
    rt: &R,
    lock: &Locked<Room>,
    door: &Door,
    seats: Vec<LockSeat<Room>>,
    parts: &[Part],
)
    requires { All (IsSeatOf lock.now) seats.items }
{
    let done = thread::map_vec(
        rt,
        seats,
        &|seat: LockSeat<Room>| -> bool
            requires { IsSeatOf lock.now seat }
        { play(rt, lock, door, seat, parts) },
    );
    let over = done.ok().expect(rt, "no memory for the answers");
    assert!(rt; are_all(over.as_slice()));
}

fn door_of(rt: &impl Abort, alloc: Global) -> Arc<Door> {
    let inside = AtomicU64::new(0);
    let outside = AtomicU64::new(0);
    Arc::new(alloc, Door { inside, outside })
        .ok()
        .expect(rt, "no memory for a door")
}

fn room_of(rt: &impl Abort, door: &Arc<Door>) -> Room {
    match Arc::try_clone(door) {
        Ok(door) => Room { calls: 0, door },
        Err(_) => panic!(rt; "too many doors"),
    }
}

// A room for one round of four threads: how many calls were made. If all, each thread was woken
// that slept.
fn round<R: Threads + Wait + Abort + Sync>(rt: &R, alloc: Global, parts: &[Part]) -> u64 {
    let door = door_of(rt, alloc);
    let room = room_of(rt, &door);
    let Opened { lock, mut seat } = lock_of(rt, alloc, room, 5);
    let others = seats_of(rt, alloc, &lock, &mut seat, 4);
    play_at_once(rt, &lock, &door, others, parts);
    lock.close(rt, seat).calls
}

const OUTSIDE: Part = Part {
    others: 0,
    is_outside: true,
    calls: 1,
};

// Three threads sleep, and nobody comes after them: each that wakes has to wake the next.
#[test]
fn three_sleepers_are_woken_one_by_another(rt: HostRuntime) {
    let inside = Part {
        others: 3,
        is_outside: false,
        calls: 0,
    };
    for _ in 0..ROUNDS {
        let parts = [inside, OUTSIDE, OUTSIDE, OUTSIDE];
        assert_eq!(rt; round(&rt, rt.alloc(), &parts), 4);
    }
}

// One thread sleeps, and three make calls meanwhile.
#[test]
fn a_sleeper_is_woken_while_three_contend(rt: HostRuntime) {
    let inside = Part {
        others: 1,
        is_outside: false,
        calls: CALLS,
    };
    let contends = Part {
        others: 0,
        ..inside
    };
    for _ in 0..ROUNDS {
        let parts = [inside, OUTSIDE, contends, contends];
        assert_eq!(rt; round(&rt, rt.alloc(), &parts), 3 * CALLS + 2);
    }
}
