//! Calls of a semaphore with their answers, which come from semacquire(2) and the rules of the
//! library. Where memory is refused the semaphore is asked for once more.
ghost use Rattle.std.specs.Prelude.{◌≡◌, ◌≤◌};
ghost use Rattle.kernel_lock.specs.Seats.{IsSeatOf};
ghost use Rattle.sleep_core.specs.Limits.{IsProcCount};
ghost use Rattle.semaphore.specs.declared.limits.TheConstants.{LAST_GRANT, MAX_VALUE};

use kernel_lock::{Locked, Opened};
use semaphore::SemaCall::{Acquire, AcquireNow, Collect, Leave, NextWake, Release};
use semaphore::SemaReply::{Acquired, Granted, NoWake, NotNow, Value, Wait as Waits, Wake, Worn};
use semaphore::{SemaCall, SemaObject, SemaReply};
use std::alloc::Global;
use std::process::Abort;
use sync_base::Fault;

// A semaphore of this value, whose seats' grants are counted from here.
fn sema_of(rt: &impl Abort, alloc: Global, value: u32, procs: u64, count: u64) -> SemaObject
    requires value { value ≤ MAX_VALUE }
    requires procs { IsProcCount procs }
    requires count { count ≤ LAST_GRANT }
{
    let made = match SemaObject::new_from(alloc, value, procs, count) {
        Err(Fault::Memory) => SemaObject::new_from(alloc, value, procs, count),
        made => made,
    };
    made.expect(rt, "no semaphore")
}

fn sema_answers(rt: &impl Abort, sema: &mut SemaObject, rows: &[(SemaCall, SemaReply)]) {
    for (at, (call, reply)) in rows.iter().enumerate() {
        assert_eq!(rt; sema.run(*call), *reply, "call {at}");
    }
}

const ARRIVALS: [(SemaCall, SemaReply); 10] = [
    (Acquire { seat: 0 }, Waits(0)),
    (Acquire { seat: 1 }, Waits(0)),
    (Release { count: 3 }, Value(3)),
    (NextWake, Wake { seat: 0, grants: 1 }),
    (NextWake, Wake { seat: 1, grants: 1 }),
    (NextWake, NoWake),
    (Collect { seat: 0 }, Granted),
    (Leave { seat: 1 }, Granted),
    (Acquire { seat: 2 }, Acquired),
    (AcquireNow { seat: 2 }, NotNow),
];

#[test]
fn a_release_grants_units_in_the_order_of_arrival(rt: HostRuntime) {
    let mut sema = sema_of(&rt, rt.alloc(), 0, 3, 0);
    sema_answers(&rt, &mut sema, &ARRIVALS);
}

const WORN: [(SemaCall, SemaReply); 4] = [
    (Acquire { seat: 0 }, Worn),
    (AcquireNow { seat: 0 }, NotNow),
    (Release { count: 1 }, Value(1)),
    (Acquire { seat: 0 }, Acquired),
];

const LAST: [(SemaCall, SemaReply); 5] = [
    (Acquire { seat: 0 }, Waits(18_446_744_073_709_551_613)),
    (Release { count: 1 }, Value(1)),
    (
        NextWake,
        Wake {
            seat: 0,
            grants: 18_446_744_073_709_551_614,
        },
    ),
    (Collect { seat: 0 }, Granted),
    (Acquire { seat: 0 }, Worn),
];

#[test]
fn a_seat_whose_grants_are_worn_can_still_take_a_unit(rt: HostRuntime) {
    let mut worn = sema_of(&rt, rt.alloc(), 0, 1, 18_446_744_073_709_551_614);
    sema_answers(&rt, &mut worn, &WORN);
    let mut last = sema_of(&rt, rt.alloc(), 0, 1, 18_446_744_073_709_551_613);
    sema_answers(&rt, &mut last, &LAST);
}

// A semaphore under a lock.
fn lock_of(rt: &impl Abort, alloc: Global, sema: SemaObject) -> Opened<SemaObject>
    ensures { IsSeatOf result.lock result.seat }
{
    Locked::new(alloc, sema, 1).ok().expect(rt, "no lock")
}

#[test]
fn a_lock_stands_round_a_semaphore(rt: HostRuntime) {
    let sema = sema_of(&rt, rt.alloc(), 1, 3, 0);
    let Opened { lock, mut seat } = lock_of(&rt, rt.alloc(), sema);
    let number = seat.number();
    let reply = lock.apply(&rt, &mut seat, AcquireNow { seat: number });
    assert!(rt; number == 0 && reply == Acquired);
    let mut sema = lock.close(&rt, seat);
    sema_answers(&rt, &mut sema, &[(AcquireNow { seat: 0 }, NotNow)]);
}
