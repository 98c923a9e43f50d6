//! How a process takes a unit by a moment.
ghost use Rattle.std.specs.Prelude.{◌≡◌};
ghost use Rattle.kernel_lock.specs.Seats.{number_of};
ghost use Rattle.semaphore.specs.Seats.{OwnsRow, IsSemaSeatOf};
ghost use Rattle.semaphore.specs.Timing.{AcquiresBy};
ghost use Rattle.timer_list.specs.Seats.{IsTimerSeatOf};
ghost use Rattle.timer_list.specs.Timers.{deadline_of};
ghost use Rattle.timer_list.specs.Timing.{timed_throughout};
ghost use Rattle.waiting.specs.Runners.{run_point};

use crate::acquiring::Acquire;
use crate::sema::{Sema, SemaSeat};
use sleep_wakeup::Proc;
use std::sync::Wait;
use sync_base::{Fault, NoProbe, Probe};
use timer_list::{Deadline, TimerSeat, Timers, wait_within};

impl Sema {
    /// Takes a unit. Where there is none it waits until a tick at the moment `now` + `ms` or later;
    /// that moment is at most `u64::MAX`. After tsemacquire in semacquire(2); the tick is the
    /// library's own.
    ///
    /// Refuses, in this order, as `Worn` and `DoubleSleep` as `semacquire` does, `Interrupted` with
    /// the notes that ended the wait, and `TimedOut` where a tick ended it and no other note came;
    /// a refused call has got no unit. With any other answer, other notes that came are pending
    /// again. Where a tick has taken its timer, it takes a note `expired` before it answers: so no
    /// late expiry reaches a later sleep, unless others post that note. Takes no memory.
    pub fn tsemacquire<R: Wait>(
        &self,
        rt: &R,
        proc: &mut Proc<'_>,
        seat: &mut SemaSeat,
        timers: &Timers,
        timer: &mut TimerSeat,
        now: u64,
        ms: u32,
    ) -> Result<(), Fault>
        requires seat { IsSemaSeatOf self.now seat.old }
        requires row { OwnsRow self.now proc.old.words }
        requires timer { IsTimerSeatOf timers.now timer.old }
        ensures seat { IsSemaSeatOf self.now seat.new }
        ensures number { number_of seat.new.seat ≡ number_of seat.old.seat }
        ensures words { proc.new.words ≡ proc.old.words }

        // When it returns, its timer is cancelled.
        ensures timer { IsTimerSeatOf timers.now timer.new }
        ensures timer_number { number_of timer.new.seat ≡ number_of timer.old.seat }
        ensures called { AcquiresBy (timed_throughout timers.now (deadline_of now ms)) self.now
            (run_point seat.old timer.old proc.old) result
            (run_point seat.new timer.new proc.new) }
    {
        self.tsemacquire_probed(rt, proc, seat, timers, timer, now, ms, &mut NoProbe)
    }

    /// As `tsemacquire`. The probe is called at its points: 2 before and 3 after each sleep for a
    /// unit.
    pub fn tsemacquire_probed<R: Wait, P: Probe>(
        &self,
        rt: &R,
        proc: &mut Proc<'_>,
        seat: &mut SemaSeat,
        timers: &Timers,
        timer: &mut TimerSeat,
        now: u64,
        ms: u32,
        probe: &mut P,
    ) -> Result<(), Fault>
        requires seat { IsSemaSeatOf self.now seat.old }
        requires row { OwnsRow self.now proc.old.words }
        requires timer { IsTimerSeatOf timers.now timer.old }
        ensures seat { IsSemaSeatOf self.now seat.new }
        ensures number { number_of seat.new.seat ≡ number_of seat.old.seat }
        ensures words { proc.new.words ≡ proc.old.words }

        // When it returns, its timer is cancelled.
        ensures timer { IsTimerSeatOf timers.now timer.new }
        ensures timer_number { number_of timer.new.seat ≡ number_of timer.old.seat }
        ensures called { AcquiresBy (timed_throughout timers.now (deadline_of now ms)) self.now
            (run_point seat.old timer.old proc.old) result
            (run_point seat.new timer.new proc.new) }
    {
        let rendez = self.rendez(seat);
        let call = Acquire { sema: self };
        let until = Deadline {
            timers,
            from: now,
            ms,
        };
        wait_within(rt, proc, rendez, &call, seat, &mut [], timer, until, probe)
    }
}
