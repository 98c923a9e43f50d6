//! A semaphore on threads, and the seats of its processes.
ghost use Rattle.std.specs.Prelude.{◌+◌, ◌^◌, ◌<◌};

use crate::limits::MAX_VALUE;
use crate::{SemaCall, SemaObject, SemaReply};
use kernel_lock::object::{Answers, Follows};
use kernel_lock::{LockSeat, Locked, Opened};
use sleep_wakeup::Roster;
use std::alloc::Global;
use std::sync::Wait;
use sync_base::limits::MAX_PROCS;
use sync_base::{Fault, RendezId};

/// A semaphore. Each of its processes has a seat at it, and a Rendez of its own to sleep in.
#[derive(Drop)]
pub struct Sema {
    pub(crate) lock: Locked<SemaObject>,
    /// The Rendez of the seat with the number 0. The Rendez of the other seats follow.
    pub(crate) first: u64,
    pub(crate) procs: u64,
    ghost row: { first + procs < 2 ^ 64 },
}

/// The seat of a process at a semaphore. One thread has it at a time.
#[derive(Drop)]
pub struct SemaSeat {
    pub(crate) seat: LockSeat<SemaObject>,
}

/// What follows a release that was taken: the question which seat is to be woken.
pub(crate) struct WakeNext;

impl Follows<SemaCall, SemaReply> for WakeNext {
    ghost use Rattle.semaphore.specs.Asking.{AsksRelease, wake_next};

    ghost follower = { wake_next };

    fn next(reply: &SemaReply) -> Option<SemaCall> {
        match reply {
            SemaReply::Value(_) => Some(SemaCall::NextWake),
            _ => None,
        }
    }
}

/// A new semaphore, and its first seat.
#[derive(Drop)]
pub struct OpenedSema {
    pub sema: Sema,
    pub seat: SemaSeat,
}

impl Sema {
    ghost use Rattle.std.specs.Prelude.{◌≡◌, ◌≤◌, Bool, IfOk, IfErr, OnOk, OnErr};
    ghost use Rattle.sync_base.specs.declared.fault.Fault.TheVariants.{NoProc};
    ghost use Rattle.sleep_wakeup.specs.Kernel.{HasRendez, rendez_less};
    ghost use Rattle.kernel_lock.specs.Seats.{Splits, KnowsAllGiven, NamesOwn, number_of};
    ghost use Rattle.semaphore.specs.declared.limits.TheConstants.{MAX_VALUE};
    ghost use Rattle.semaphore.specs.Asking.{Asks, AsksRelease, IsTold};
    ghost use Rattle.semaphore.specs.Definitions.{sema_definition};
    ghost use Rattle.semaphore.specs.Opening.{WhyNotOpened};
    ghost use Rattle.sleep_core.specs.Limits.{IsProcCount};
    ghost use Rattle.semaphore.specs.Seats.{IsSeatAt, IsSemaSeatOf, IsNewSema, rendez_at};
    ghost use Rattle.semaphore.specs.Seats.{waits_after};

    /// A semaphore of this value for this many processes. It takes a row of as many Rendez.
    /// Refuses, in this order, as `BadArg` where the value is above 2,147,483,647, `NoProc` where
    /// the processes are not from 1 to 1,024, `NoRendez` and `Memory`. Doesn't wait.
    pub fn new(
        alloc: Global,
        roster: &mut Roster<'_>,
        value: u32,
        procs: u64,
    ) -> Result<OpenedSema, Fault>
        // Refused first, and then no Rendez is used up.
        ensures in_range { OnOk result ((value ≤ MAX_VALUE) × IsProcCount procs) }
        ensures room { OnOk result (HasRendez roster.old procs) }
        ensures fault { IfErr result (WhyNotOpened roster.old value procs) }
        ensures refused { OnErr result (roster.new ≡ roster.old) }

        // Otherwise nobody has called it.
        ensures opened { IfOk result (λ opened.
            IsNewSema roster.old value procs opened.sema opened.seat) }
        ensures given { OnOk result (roster.new ≡ rendez_less procs roster.old) }
    {
        if value > MAX_VALUE {
            return Err(Fault::BadArg);
        }
        if !(1..=MAX_PROCS).contains(&procs) {
            return Err(Fault::NoProc);
        }
        let (_, rendez) = roster.left();
        if rendez < procs {
            return Err(Fault::NoRendez);
        }
        let object = SemaObject::new(alloc, value, procs)?;
        let Opened { lock, seat } = Locked::new(alloc, object, procs)?;
        let RendezId(first) = roster.row(procs)?;
        Ok(OpenedSema {
            sema: Sema { lock, first, procs },
            seat: SemaSeat { seat },
        })
    }

    /// Gives a seat for another process. Refuses as `NoProc` where as many seats were given as the
    /// semaphore has processes. It waits for the semaphore's lock. Takes no memory.
    pub fn split<R: Wait>(&self, rt: &R, seat: &mut SemaSeat) -> Result<SemaSeat, Fault>
        requires { IsSemaSeatOf self.now seat.old }
        ensures seat { IsSemaSeatOf self.now seat.new }

        // The child has the next number, and has made no call.
        ensures child { IfOk result (IsSemaSeatOf self.now) }
        ensures given { IfOk result (λ child.
            Splits self.now.lock seat.old.seat seat.new.seat child.seat) }

        // All seats were given.
        ensures fault { IfErr result (λ fault. fault ≡ NoProc) }
        ensures refused { OnErr result
            (KnowsAllGiven self.now.lock seat.old.seat seat.new.seat) }
    {
        let seat = self.lock.split(rt, &mut seat.seat)?;
        Ok(SemaSeat { seat })
    }

    /// The Rendez in which the process of this seat sleeps. Takes no memory and doesn't wait.
    pub fn rendez(&self, seat: &SemaSeat) -> RendezId
        requires { (waits : Bool) × IsSeatAt self.now waits seat.now }
        ensures { result ≡ rendez_at self.now seat.now }
    {
        RendezId(self.first + seat.seat.number())
    }

    // Asks for a release and, where that was taken, who is to be woken, in one hold of the lock.
    pub(crate) fn ask_release<R: Wait>(
        &self,
        rt: &R,
        seat: &mut SemaSeat,
        count: u32,
    ) -> Answers<SemaReply>
        requires { IsSemaSeatOf self.now seat.old }
        ensures asked { AsksRelease self.now count result.first result.second
            seat.old seat.new }
    {
        self.lock
            .apply_then::<R, WakeNext>(rt, &mut seat.seat, SemaCall::Release { count })
    }

    // Asks the semaphore, in its turn.
    pub(crate) fn ask<R: Wait>(&self, rt: &R, seat: &mut SemaSeat, call: SemaCall) -> SemaReply
        requires seat { (waits : Bool) × IsSeatAt self.now waits seat.old }
        requires named { NamesOwn sema_definition seat.old.seat call }
        ensures asked { (waits : Bool) → IsSeatAt self.now waits seat.old →
            Asks self.now (waits_after call result waits) call result seat.old seat.new }
        ensures told { (waits : Bool) → IsSeatAt self.now waits seat.old →
            IsTold self.now.procs (number_of seat.old.seat) waits call result }
    {
        self.lock.apply(rt, &mut seat.seat, call)
    }
}
