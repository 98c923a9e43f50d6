//! Timers on threads, and the seats of their processes.
use crate::{TimerCall, TimerObject, TimerReply};
use kernel_lock::{LockSeat, Locked, Opened};
use sleep_wakeup::{Proc, Steps};
use std::alloc::Global;
use std::sync::Wait;
use sync_base::Fault;
use sync_base::limits::MAX_PROCS;

/// Timers. Each of their processes has a seat, with one timer.
#[derive(Drop)]
pub struct Timers {
    pub(crate) lock: Locked<TimerObject>,
    pub(crate) procs: u64,
}

/// The seat of a process at timers. One thread has it at a time.
#[derive(Drop)]
pub struct TimerSeat {
    pub(crate) seat: LockSeat<TimerObject>,
    // Which steps its process had made when its timer was set last, and when it was cancelled last.
    // Contracts alone see them, and `ask` alone writes them.
    set: Steps,
    cancelled: Steps,
}

/// New timers, and their first seat.
#[derive(Drop)]
pub struct OpenedTimers {
    pub timers: Timers,
    pub seat: TimerSeat,
}

impl Timers {
    ghost use Rattle.std.specs.Prelude.{◌≡◌, Bool, IfOk, IfErr, OnOk, OnErr};
    ghost use Rattle.sync_base.specs.declared.fault.Fault.TheVariants.{NoProc};
    ghost use Rattle.kernel_lock.specs.Seats.{Splits, KnowsAllGiven, NamesOwn, number_of};
    ghost use Rattle.timer_list.specs.Asking.{AsksTimers, IsMarked, IsTimed};
    ghost use Rattle.timer_list.specs.Definitions.{timer_definition};
    ghost use Rattle.sleep_core.specs.Limits.{IsProcCount};
    ghost use Rattle.timer_list.specs.Seats.{IsSeatAtTimers, IsTimerSeatOf, AreNewTimers};
    ghost use Rattle.timer_list.specs.TimerHistory.{sets_after};
    ghost use Rattle.timer_list.specs.Timers.{WhyNoTimers};

    /// Timers for this many processes, none of which is set. Refuses, in this order, as `NoProc`
    /// where the processes are not from 1 to 1,024, and `Memory`. Doesn't wait.
    pub fn new(alloc: Global, procs: u64) -> Result<OpenedTimers, Fault>
        // Refused first.
        ensures in_range { OnOk result (IsProcCount procs) }
        ensures fault { IfErr result (WhyNoTimers procs) }

        // Otherwise nobody has called them.
        ensures opened { IfOk result (λ opened. AreNewTimers procs opened.timers opened.seat) }
    {
        if !(1..=MAX_PROCS).contains(&procs) {
            return Err(Fault::NoProc);
        }
        let object = TimerObject::new(alloc, procs)?;
        let Opened { lock, seat } = Locked::new(alloc, object, procs)?;
        Ok(OpenedTimers {
            timers: Timers { lock, procs },
            seat: TimerSeat::of(seat),
        })
    }

    /// Gives a seat for another process. Refuses as `NoProc` where as many seats were given as
    /// there are processes. It waits for the timers' lock. Takes no memory.
    pub fn split<R: Wait>(&self, rt: &R, seat: &mut TimerSeat) -> Result<TimerSeat, Fault>
        requires { IsTimerSeatOf self.now seat.old }
        ensures seat { IsTimerSeatOf self.now seat.new }

        // The child has the next number, and has made no call.
        ensures child { IfOk result (IsTimerSeatOf self.now) }
        ensures given { IfOk result (λ child.
            Splits self.now.lock seat.old.seat seat.new.seat child.seat) }

        // All seats were given.
        ensures fault { IfErr result (λ fault. fault ≡ NoProc) }
        ensures refused { OnErr result
            (KnowsAllGiven self.now.lock seat.old.seat seat.new.seat) }
    {
        let seat = self.lock.split(rt, &mut seat.seat)?;
        Ok(TimerSeat::of(seat))
    }

    // Asks the timers, in its turn, for this process.
    pub(crate) fn ask<R: Wait>(
        &self,
        rt: &R,
        proc: &Proc<'_>,
        seat: &mut TimerSeat,
        call: TimerCall,
    ) -> TimerReply
        requires seat { (set : Bool) × IsSeatAtTimers self.now set seat.old }
        requires named { NamesOwn timer_definition seat.old.seat call }
        ensures asked { (set : Bool) → IsSeatAtTimers self.now set seat.old →
            AsksTimers self.now (sets_after call result set) call result seat.old seat.new }
        ensures told { (set : Bool) → IsSeatAtTimers self.now set seat.old →
            IsTimed self.now.procs (number_of seat.old.seat) set call result }
        ensures marked { IsMarked call proc.now.process seat.old seat.new }
    {
        seat.mark(proc, &call);
        self.lock.apply(rt, &mut seat.seat, call)
    }
}

impl TimerSeat {
    ghost use Rattle.std.specs.Prelude.{◌≡◌};
    ghost use Rattle.timer_list.specs.Asking.{IsMarked};

    // A seat whose timer was never set.
    fn of(seat: LockSeat<TimerObject>) -> TimerSeat
        ensures { result.seat ≡ seat }
    {
        TimerSeat {
            seat,
            set: Steps::of_nobody(),
            cancelled: Steps::of_nobody(),
        }
    }

    // Notes which steps the process has made at this request.
    fn mark(&mut self, proc: &Proc<'_>, call: &TimerCall)
        ensures seat { self.new.seat ≡ self.old.seat }
        ensures marked { IsMarked call.now proc.now.process self.old self.new }
    {
        match call {
            TimerCall::Add { .. } => self.set = proc.steps(),
            TimerCall::Cancel { .. } => self.cancelled = proc.steps(),
            TimerCall::Expire { .. } => {}
        }
    }
}
