//! Calls of timers with their answers. Where memory is refused the timers are asked for once more.
ghost use Rattle.sleep_core.specs.Limits.{IsProcCount};

use std::alloc::Global;
use std::process::Abort;
use sync_base::{Fault, Pid};
use timer_list::TimerCall::{Add, Cancel, Expire};
use timer_list::TimerReply::{Absent, Added, Ended, Expired, NoneDue};
use timer_list::{TimerCall, TimerObject, TimerReply};

// Timers of which none is set.
fn timers_of(rt: &impl Abort, alloc: Global, procs: u64) -> TimerObject
    requires { IsProcCount procs }
{
    let made = match TimerObject::new(alloc, procs) {
        Err(Fault::Memory) => TimerObject::new(alloc, procs),
        made => made,
    };
    made.expect(rt, "no timers")
}

fn timers_answer(rt: &impl Abort, timers: &mut TimerObject, rows: &[(TimerCall, TimerReply)]) {
    for (at, (call, reply)) in rows.iter().enumerate() {
        assert_eq!(rt; timers.run(*call), *reply, "call {at}");
    }
}

const TIMER: TimerCall = Add {
    seat: 0,
    pid: Pid(4),
    deadline: 150,
};

#[test]
fn a_timer_expires_once(rt: HostRuntime) {
    let rows = [
        (TIMER, Added),
        (Expire { now: 149 }, NoneDue),
        (Expire { now: 150 }, Ended(Pid(4))),
        (Expire { now: 150 }, NoneDue),
        (Cancel { seat: 0 }, Expired),
        (Cancel { seat: 0 }, Absent),
    ];
    let mut timers = timers_of(&rt, rt.alloc(), 2);
    timers_answer(&rt, &mut timers, &rows);
}
