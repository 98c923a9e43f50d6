//! How a process takes a unit, and what such a call asks of its semaphore while it waits.
ghost use Rattle.std.specs.Prelude.{◌≡◌, ⊤, true};
ghost use Rattle.kernel_lock.specs.Seats.{number_of};
ghost use Rattle.semaphore.specs.declared.sema.SemaSeat.{SemaSeat};
ghost use Rattle.semaphore.specs.Acquiring.{Semacquires, acquiring};
ghost use Rattle.semaphore.specs.Seats.{OwnsRow, IsSeatAt, IsSemaSeatOf};
ghost use Rattle.waiting.specs.Waiting.{point};

use crate::sema::{Sema, SemaSeat};
use crate::{SemaCall, SemaReply};
use sleep_wakeup::Proc;
use std::sync::Wait;
use sync_base::{Fault, NoProbe, Probe};
use waiting::{Reply, WaitingCall, wait_for};

/// The answer of `semacquire`.
#[derive(Clone, Copy, Debug, PartialEq, Eq)]
pub enum Semacquired {
    /// It has a unit.
    Acquired,
    /// There is no unit now, and it was not to wait.
    NotNow,
}

/// A call that takes a unit: what it asks of its semaphore.
#[derive(Drop)]
pub(crate) struct Acquire<'s> {
    pub(crate) sema: &'s Sema,
}

impl<'s> WaitingCall for Acquire<'s> {
    type Seat = SemaSeat;

    type Out = ();

    ghost ready = { λ call seat. IsSemaSeatOf call.sema.now seat };

    // Whoever grants a unit finds the seat in the line.
    ghost waits = { λ call seat. IsSeatAt call.sema.now true seat };

    ghost rests = { λ call seat. IsSemaSeatOf call.sema.now seat };

    // It wakes nobody.
    ghost knows = { λ call words. ⊤ };

    ghost Sight = { SemaSeat };

    ghost sight = { λ seat buffer. seat };

    ghost promise = { λ call. acquiring call.sema.now };

    fn begin<R: Wait>(
        &self,
        rt: &R,
        _proc: &mut Proc<'_>,
        seat: &mut SemaSeat,
        _buffer: &mut [u8],
    ) -> Reply<()> {
        let number = seat.seat.number();
        match self.sema.ask(rt, seat, SemaCall::Acquire { seat: number }) {
            SemaReply::Acquired => Reply::Done(()),
            SemaReply::Wait(count) => Reply::Wait(count),
            SemaReply::Worn => Reply::Refused(Fault::Worn),
            _ => unreachable!(),
        }
    }

    // Asks whether the wait was granted its unit. Where it waits on, it is told for which grant.
    fn ask<R: Wait>(
        &self,
        rt: &R,
        _proc: &mut Proc<'_>,
        seat: &mut SemaSeat,
        _buffer: &mut [u8],
    ) -> Reply<()> {
        let number = seat.seat.number();
        match self.sema.ask(rt, seat, SemaCall::Collect { seat: number }) {
            SemaReply::Granted => Reply::Done(()),
            SemaReply::Wait(again) => Reply::Wait(again),
            _ => unreachable!(),
        }
    }

    fn leave<R: Wait>(&self, rt: &R, seat: &mut SemaSeat) -> Option<()> {
        let number = seat.seat.number();
        match self.sema.ask(rt, seat, SemaCall::Leave { seat: number }) {
            SemaReply::Granted => Some(()),
            SemaReply::Gone => None,
            _ => unreachable!(),
        }
    }
}

impl Sema {
    /// Takes a unit. Where there is none it waits, or with `block` false answers `NotNow`.
    /// After semacquire(2).
    ///
    /// Refuses, in this order, as `Worn` where the seat's grants are worn out and it would wait,
    /// `DoubleSleep` where another process sleeps in the seat's Rendez, and `Interrupted` with the
    /// notes that ended the wait, which are no longer pending; a refused call has got no unit.
    /// Where a unit was granted before the notes came, the process has that unit, and the notes are
    /// pending again. Takes no memory.
    pub fn semacquire<R: Wait>(
        &self,
        rt: &R,
        proc: &mut Proc<'_>,
        seat: &mut SemaSeat,
        block: bool,
    ) -> Result<Semacquired, Fault>
        requires seat { IsSemaSeatOf self.now seat.old }
        requires row { OwnsRow self.now proc.old.words }
        ensures seat { IsSemaSeatOf self.now seat.new }
        ensures number { number_of seat.new.seat ≡ number_of seat.old.seat }
        ensures words { proc.new.words ≡ proc.old.words }
        ensures called { Semacquires block self.now
            (point seat.old proc.old) result (point seat.new proc.new) }
    {
        self.semacquire_probed(rt, proc, seat, block, &mut NoProbe)
    }

    /// As `semacquire`. The probe is called at its points: 1 before the semaphore is asked first, 2
    /// before and 3 after each sleep, and 4 at the end.
    pub fn semacquire_probed<R: Wait, P: Probe>(
        &self,
        rt: &R,
        proc: &mut Proc<'_>,
        seat: &mut SemaSeat,
        block: bool,
        probe: &mut P,
    ) -> Result<Semacquired, Fault>
        requires seat { IsSemaSeatOf self.now seat.old }
        requires row { OwnsRow self.now proc.old.words }
        ensures seat { IsSemaSeatOf self.now seat.new }
        ensures number { number_of seat.new.seat ≡ number_of seat.old.seat }
        ensures words { proc.new.words ≡ proc.old.words }
        ensures called { Semacquires block self.now
            (point seat.old proc.old) result (point seat.new proc.new) }
    {
        probe.at(1);
        let answer = self.take(rt, proc, seat, block, probe);
        probe.at(4);
        answer
    }

    fn take<R: Wait, P: Probe>(
        &self,
        rt: &R,
        proc: &mut Proc<'_>,
        seat: &mut SemaSeat,
        block: bool,
        probe: &mut P,
    ) -> Result<Semacquired, Fault>
        requires seat { IsSemaSeatOf self.now seat.old }
        requires row { OwnsRow self.now proc.old.words }
        ensures seat { IsSemaSeatOf self.now seat.new }
        ensures number { number_of seat.new.seat ≡ number_of seat.old.seat }
        ensures words { proc.new.words ≡ proc.old.words }
        ensures called { Semacquires block self.now
            (point seat.old proc.old) result (point seat.new proc.new) }
    {
        if !block {
            return Ok(self.acquire_now(rt, seat));
        }
        let rendez = self.rendez(seat);
        let call = Acquire { sema: self };
        match wait_for(rt, proc, rendez, &call, seat, &mut [], probe) {
            Ok(()) => Ok(Semacquired::Acquired),
            Err(why) => Err(why),
        }
    }
}
