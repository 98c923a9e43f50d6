//! How a process adds units, and wakes the processes that were granted one.
ghost use Rattle.std.specs.Prelude.{◌≡◌, ◌<◌, false, IfSome};
ghost use Rattle.histories.specs.History.{IsPast};
ghost use Rattle.kernel_lock.specs.Seats.{number_of, seen_of};
ghost use Rattle.semaphore.specs.declared.sema.SemaSeat.{SemaSeat};
ghost use Rattle.semaphore.specs.declared.sema_object.SemaCall.TheVariants.{NextWake};
ghost use Rattle.semaphore.specs.Asking.{Asks, wake_reply};
ghost use Rattle.semaphore.specs.Releasing.{HasWoken, Releases};
ghost use Rattle.semaphore.specs.Seats.{OwnsRow, IsSemaSeatOf};
ghost use Rattle.waiting.specs.Waiting.{point};

use crate::sema::{Sema, SemaSeat};
use crate::sema_asks::Grant;
use sleep_wakeup::Proc;
use std::sync::Wait;
use sync_base::{Fault, RendezId};

impl Sema {
    /// Adds `count` units, and returns the value after the addition, before units pass to the
    /// processes that wait, first come, first served. Each process that was granted a unit is
    /// woken. After semrelease in semacquire(2); its answer is the library's own.
    ///
    /// Refuses as `BadArg`, and adds nothing, where the value would be above 2,147,483,647.
    /// It waits for the semaphore's lock. Takes no memory.
    pub fn semrelease<R: Wait>(
        &self,
        rt: &R,
        proc: &mut Proc<'_>,
        seat: &mut SemaSeat,
        count: u32,
    ) -> Result<u32, Fault>
        requires seat { IsSemaSeatOf self.now seat.old }
        requires row { OwnsRow self.now proc.old.words }
        ensures seat { IsSemaSeatOf self.now seat.new }
        ensures number { number_of seat.new.seat ≡ number_of seat.old.seat }
        ensures words { proc.new.words ≡ proc.old.words }
        ensures called { Releases self.now count
            (point seat.old proc.old) result (point seat.new proc.new) }
    {
        match self.release(rt, seat, count) {
            None => Err(Fault::BadArg),
            Some(released) => {
                self.wake_granted(rt, proc, seat, released.next);
                Ok(released.sum)
            }
        }
    }

    // Wakes the seat that it was named, and each that was granted a unit and was not woken since.
    fn wake_granted<R: Wait>(
        &self,
        rt: &R,
        proc: &mut Proc<'_>,
        seat: &mut SemaSeat,
        next: Option<Grant>,
    )
        requires seat { IsSemaSeatOf self.now seat.old }
        requires row { OwnsRow self.now proc.old.words }
        requires there { IfSome next (λ grant. grant.seat < self.now.procs) }
        ensures seat { IsSemaSeatOf self.now seat.new }
        ensures number { number_of seat.new.seat ≡ number_of seat.old.seat }
        ensures words { proc.new.words ≡ proc.old.words }
        ensures woken { (before : SemaSeat) →
            Asks self.now false NextWake (wake_reply next) before seat.old →
            HasWoken self.now (point before proc.old) (point seat.new proc.new) }
        ensures later { IsPast (seen_of seat.old.seat) (seen_of seat.new.seat) }
    {
        let mut next = next;
        for _ in rt.forever() {
            let Some(grant) = next else {
                return;
            };
            match proc.wakeup(RendezId(self.first + grant.seat), grant.grants) {
                Ok(_) => {}
                Err(_) => unreachable!(),
            }
            next = self.next_wake(rt, seat);
        }
        unreachable!()
    }
}
