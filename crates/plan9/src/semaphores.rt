//! A semaphore, and seats at it: whoever calls by a seat lends it the process that makes the call.
ghost use Rattle.std.specs.Prelude.{◌≡◌};

use crate::clock::Watch;
use crate::known::has_row;
use crate::many::{Splits, room_for, split_into};
use semaphore::{OpenedSema, Sema, SemaSeat, Semacquired};
use sleep_wakeup::{Proc, Roster};
use std::alloc::Global;
use std::marker::Model;
use std::sync::Wait;
use sync_base::{Fault, NoProbe, Probe, RendezId};

/// A semaphore, and its first seat as long as nobody has it.
#[derive(Drop)]
pub struct Semaphore {
    sema: Sema,
    spare: Option<SemaSeat>,
    procs: u64,
    /// The Rendez behind its last one.
    beyond: u64,
}

impl Model for Semaphore {
    ghost use Rattle.std.specs.Prelude.{◌≡◌};
    ghost use Rattle.plan9.specs.Semaphores.{EndsBefore, IsSpareOf, Seating};

    ghost Value = { Seating };

    ghost view = { λ semaphore. record { sema = semaphore.sema; spare = semaphore.spare } };

    ghost invariant = { λ semaphore. record {
      procs_are : semaphore.sema.procs ≡ semaphore.procs;
      row : EndsBefore semaphore.sema semaphore.beyond;
      spare : IsSpareOf semaphore.sema semaphore.spare;
    } };
}

/// A seat at a semaphore, by which one process at a time calls. It holds no process, so a process
/// may call by seats of many semaphores. One thread has it at a time, and may hand it to another.
#[derive(Drop)]
pub struct Seat<'s> {
    sema: &'s Sema,
    beyond: u64,
    seat: SemaSeat,
}

impl<'s> Model for Seat<'s> {
    ghost use Rattle.semaphore.specs.Seats.{IsSemaSeatOf};
    ghost use Rattle.plan9.specs.Semaphores.{EndsBefore, Seated};

    ghost Value = { Seated };

    ghost view = { λ it. record { sema = it.sema.now; seat = it.seat } };

    ghost invariant = { λ it. record {
      row : EndsBefore it.sema.now it.beyond;
      seat_is : IsSemaSeatOf it.sema.now it.seat;
    } };
}

impl Semaphore {
    ghost use Rattle.std.specs.Prelude.{◌≡◌, ◌≤◌, ◌↔◌, true, None, IfOk, IfErr, OnOk, OnErr};
    ghost use Rattle.sync_base.specs.declared.fault.Fault.TheVariants.{NoProc};
    ghost use Rattle.sleep_core.specs.Limits.{IsProcCount};
    ghost use Rattle.sleep_wakeup.specs.Kernel.{HasRendez, rendez_less};
    ghost use Rattle.semaphore.specs.declared.limits.TheConstants.{MAX_VALUE};
    ghost use Rattle.semaphore.specs.Opening.{WhyNotOpened};
    ghost use Rattle.plan9.specs.Semaphores.{AreSeats, IsFirst, IsNew, MaySeat, WhyNoSeats};

    /// A semaphore of this many units for this many processes. It takes as many Rendez as there are
    /// processes. Refuses, in this order, as `BadArg` where the units are above 2,147,483,647,
    /// `NoProc` where the processes are not from 1 to 1,024, `NoRendez` and `Memory`. Doesn't wait.
    pub fn new(
        alloc: Global,
        roster: &mut Roster<'_>,
        value: u32,
        procs: u64,
    ) -> Result<Semaphore, Fault>
        // Refused first, and then no Rendez is used up.
        ensures in_range { OnOk result ((value ≤ MAX_VALUE) × IsProcCount procs) }
        ensures room { OnOk result (HasRendez roster.old procs) }
        ensures fault { IfErr result (WhyNotOpened roster.old value procs) }
        ensures refused { OnErr result (roster.new ≡ roster.old) }

        // Otherwise nobody has called it, and nobody has its first seat.
        ensures opened { IfOk result (IsNew roster.old value procs) }
        ensures given { OnOk result (roster.new ≡ rendez_less procs roster.old) }
    {
        let OpenedSema { sema, seat } = Sema::new(alloc, roster, value, procs)?;
        let RendezId(first) = sema.rendez(&seat);
        Ok(Semaphore {
            sema,
            spare: Some(seat),
            procs,
            beyond: first + procs,
        })
    }

    /// How many processes may call it.
    pub(crate) fn procs(&self) -> u64
        ensures { result ≡ self.now.sema.procs }
    {
        self.procs
    }

    /// Whether nobody has had the first seat. Takes no memory and doesn't wait.
    pub fn has_seat(&self) -> bool
        ensures { result ≡ true ↔ ¬ (self.now.spare ≡ None) }
    {
        self.spare.is_some()
    }

    /// The first seat. Refuses as `NoProc` where somebody had it before. Takes no memory and
    /// doesn't wait.
    pub fn seat<'s>(&'s mut self) -> Result<Seat<'s>, Fault>
        // Refused first, and then there was no seat to lose.
        ensures fault { IfErr result (λ fault. fault ≡ NoProc) }
        ensures taken { OnErr result (self.old.spare ≡ None) }

        // Otherwise it is the seat that nobody had.
        ensures first { IfOk result (IsFirst self.old) }
    {
        match self.spare.take() {
            None => Err(Fault::NoProc),
            Some(seat) => Ok(Seat {
                sema: &self.sema,
                beyond: self.beyond,
                seat,
            }),
        }
    }

    /// This many seats, in the order of their numbers: the first one, and each other split from the
    /// one before it. Refuses, in this order, as `NoProc` where the count is 0 or above the
    /// processes of the semaphore, as `Memory`, and as `NoProc` where somebody had the first seat
    /// before. Takes memory for the list, and waits for the semaphore's lock.
    pub fn seats<'s, R: Wait>(
        &'s mut self,
        alloc: Global,
        rt: &R,
        count: u64,
    ) -> Result<Vec<Seat<'s>>, Fault>
        // Refused, in this order.
        ensures in_range { OnOk result (MaySeat self.old count) }
        ensures fault { IfErr result (WhyNoSeats self.old count) }

        // Otherwise no other seat was given.
        ensures seats { IfOk result (λ seats. AreSeats self.old count seats.items) }
    {
        let seats = room_for(alloc, self.procs(), count)?;
        let first = self.seat()?;
        split_into(rt, first, seats, count)
    }
}

impl<'s> Splits for Seat<'s> {
    ghost use Rattle.plan9.specs.Semaphores.{GivesSeat, KnowsNoSeat};

    ghost gives = { GivesSeat };

    ghost knows_none = { KnowsNoSeat };

    fn further<R: Wait>(&mut self, rt: &R) -> Result<Seat<'s>, Fault> {
        self.split(rt)
    }
}

impl<'s> Seat<'s> {
    ghost use Rattle.std.specs.Prelude.{◌≡◌, true, false, IfOk, IfErr, OnErr};
    ghost use Rattle.sync_base.specs.declared.fault.Fault.TheVariants.{NoProc, NoRendez};
    ghost use Rattle.semaphore.specs.Acquiring.{Semacquires};
    ghost use Rattle.semaphore.specs.Releasing.{Releases};
    ghost use Rattle.semaphore.specs.Seats.{OwnsRow, rendez_at};
    ghost use Rattle.semaphore.specs.Timing.{AcquiresBy};
    ghost use Rattle.timer_list.specs.Timers.{deadline_of};
    ghost use Rattle.waiting.specs.Waiting.{point};
    ghost use Rattle.plan9.specs.Known.{IfKnown};
    ghost use Rattle.plan9.specs.Semaphores.{
      IsFurther,
      IsSameSeat,
      KnowsNoSeat,
      got,
      got_now,
      seat_point,
    };
    ghost use Rattle.plan9.specs.Watches.{IsSameWatch, until};

    /// A further seat, for another process. Refuses as `NoProc` where the semaphore has had all its
    /// processes. It waits for the semaphore's lock. Takes no memory.
    pub fn split<R: Wait>(&mut self, rt: &R) -> Result<Seat<'s>, Fault>
        ensures same { IsSameSeat self.old self.new }
        ensures fault { IfErr result (λ fault. fault ≡ NoProc) }
        ensures refused { OnErr result (KnowsNoSeat self.old self.new) }
        ensures further { IfOk result (IsFurther self.old self.new) }
    {
        let seat = self.sema.split(rt, &mut self.seat)?;
        Ok(Seat {
            sema: self.sema,
            beyond: self.beyond,
            seat,
        })
    }

    /// Takes a unit, and waits where there is none. After semacquire(2).
    ///
    /// Refuses, in this order, as `NoRendez` a process whose kernel has too few Rendez for the
    /// semaphore, `Worn` where the seat's grants are worn out and it would wait, `DoubleSleep`
    /// where another process sleeps in the seat's Rendez, and `Interrupted` with the notes that
    /// ended the wait, which are no longer pending; a refused call has got no unit. Where a unit
    /// was granted before the notes came, the process has that unit, and the notes are pending
    /// again. Takes no memory.
    #[inline(always)]
    #[tactic(auto, using(crate::proofs::SemaphoreLemmas::has_its_unit))]
    pub fn acquire<R: Wait>(&mut self, rt: &R, proc: &mut Proc<'_>) -> Result<(), Fault>
        ensures same { IsSameSeat self.old self.new }
        ensures words { proc.new.words ≡ proc.old.words }

        // It is the call of the semaphore where the process may make it; else nothing is done.
        ensures known { IfKnown (OwnsRow self.old.sema proc.old.words) result
            ((self.new ≡ self.old) × (proc.new ≡ proc.old))
            (Semacquires true self.old.sema (point self.old.seat proc.old) (got result)
            (point self.new.seat proc.new)) }
    {
        if !has_row(proc, self.beyond) {
            return Err(Fault::NoRendez);
        }
        let (sema, seat) = (self.sema, &mut self.seat);
        match sema.semacquire_probed(rt, proc, seat, true, &mut NoProbe) {
            Ok(_) => Ok(()),
            Err(fault) => Err(fault),
        }
    }

    /// An `acquire` that calls its probe at its points, as `Sema::semacquire_probed` does: 1 before
    /// the semaphore is asked first, 2 before and 3 after each sleep, 4 at the end.
    #[inline(always)]
    #[tactic(auto, using(crate::proofs::SemaphoreLemmas::has_its_unit))]
    pub fn acquire_probed<R: Wait, P: Probe>(
        &mut self,
        rt: &R,
        proc: &mut Proc<'_>,
        probe: &mut P,
    ) -> Result<(), Fault>
        ensures same { IsSameSeat self.old self.new }
        ensures words { proc.new.words ≡ proc.old.words }

        // It is the call of the semaphore where the process may make it; else nothing is done.
        ensures known { IfKnown (OwnsRow self.old.sema proc.old.words) result
            ((self.new ≡ self.old) × (proc.new ≡ proc.old))
            (Semacquires true self.old.sema (point self.old.seat proc.old) (got result)
            (point self.new.seat proc.new)) }
    {
        if !has_row(proc, self.beyond) {
            return Err(Fault::NoRendez);
        }
        let (sema, seat) = (self.sema, &mut self.seat);
        match sema.semacquire_probed(rt, proc, seat, true, probe) {
            Ok(_) => Ok(()),
            Err(fault) => Err(fault),
        }
    }

    /// Takes a unit if there is one now, and says whether it did. Refuses as `NoRendez`. It waits
    /// for the semaphore's lock. Takes no memory.
    #[inline(always)]
    pub fn try_acquire<R: Wait>(&mut self, rt: &R, proc: &mut Proc<'_>) -> Result<bool, Fault>
        ensures same { IsSameSeat self.old self.new }
        ensures words { proc.new.words ≡ proc.old.words }
        ensures fault { IfErr result (λ fault. fault ≡ NoRendez) }

        // It is the call of the semaphore where the process may make it; else nothing is done.
        ensures known { IfKnown (OwnsRow self.old.sema proc.old.words) result
            ((self.new ≡ self.old) × (proc.new ≡ proc.old))
            (IfOk result (λ now. Semacquires false self.old.sema (point self.old.seat proc.old)
            (got_now now) (point self.new.seat proc.new))) }
    {
        self.try_acquire_probed(rt, proc, &mut NoProbe)
    }

    /// A `try_acquire` that calls its probe at its points: 1 before the semaphore is asked, 4 at
    /// the end.
    #[inline(always)]
    pub fn try_acquire_probed<R: Wait, P: Probe>(
        &mut self,
        rt: &R,
        proc: &mut Proc<'_>,
        probe: &mut P,
    ) -> Result<bool, Fault>
        ensures same { IsSameSeat self.old self.new }
        ensures words { proc.new.words ≡ proc.old.words }
        ensures fault { IfErr result (λ fault. fault ≡ NoRendez) }

        // It is the call of the semaphore where the process may make it; else nothing is done.
        ensures known { IfKnown (OwnsRow self.old.sema proc.old.words) result
            ((self.new ≡ self.old) × (proc.new ≡ proc.old))
            (IfOk result (λ now. Semacquires false self.old.sema (point self.old.seat proc.old)
            (got_now now) (point self.new.seat proc.new))) }
    {
        if !has_row(proc, self.beyond) {
            return Err(Fault::NoRendez);
        }
        match self
            .sema
            .semacquire_probed(rt, proc, &mut self.seat, false, probe)
        {
            Ok(Semacquired::Acquired) => Ok(true),
            Ok(Semacquired::NotNow) => Ok(false),
            Err(_) => unreachable!(),
        }
    }

    /// Takes a unit. Where there is none it waits until a tick of the clock at the moment `now` +
    /// `ms` or later; that moment is at most `u64::MAX`. After tsemacquire in semacquire(2); the
    /// tick is the library's own.
    ///
    /// Refuses, in this order, as `NoRendez`, `Worn` and `DoubleSleep` as `acquire` does,
    /// `Interrupted` with the notes that ended the wait, and `TimedOut` where a tick ended it and
    /// no other note came; a refused call has got no unit. With any other answer, other notes that
    /// came are pending again. Where a tick has taken its timer, it takes a note `expired` before
    /// it answers: so no late expiry reaches a later sleep, unless others post that note. Takes no
    /// memory.
    pub fn acquire_within<R: Wait>(
        &mut self,
        rt: &R,
        proc: &mut Proc<'_>,
        watch: &mut Watch<'_>,
        now: u64,
        ms: u32,
    ) -> Result<(), Fault>
        ensures same { IsSameSeat self.old self.new }
        ensures words { proc.new.words ≡ proc.old.words }
        ensures watch { IsSameWatch watch.old watch.new }

        // It is the call of the semaphore where the process may make it; else nothing is done.
        ensures known { IfKnown (OwnsRow self.old.sema proc.old.words) result
            ((self.new ≡ self.old) × (proc.new ≡ proc.old) × (watch.new ≡ watch.old))
            (AcquiresBy (until watch.old (deadline_of now ms)) self.old.sema
            (seat_point self.old watch.old proc.old) result
            (seat_point self.new watch.new proc.new)) }
    {
        self.acquire_within_probed(rt, proc, watch, now, ms, &mut NoProbe)
    }

    /// An `acquire_within` that calls its probe at its points, as `Sema::tsemacquire_probed` does:
    /// 2 before and 3 after each sleep for a unit.
    pub fn acquire_within_probed<R: Wait, P: Probe>(
        &mut self,
        rt: &R,
        proc: &mut Proc<'_>,
        watch: &mut Watch<'_>,
        now: u64,
        ms: u32,
        probe: &mut P,
    ) -> Result<(), Fault>
        ensures same { IsSameSeat self.old self.new }
        ensures words { proc.new.words ≡ proc.old.words }
        ensures watch { IsSameWatch watch.old watch.new }

        // It is the call of the semaphore where the process may make it; else nothing is done.
        ensures known { IfKnown (OwnsRow self.old.sema proc.old.words) result
            ((self.new ≡ self.old) × (proc.new ≡ proc.old) × (watch.new ≡ watch.old))
            (AcquiresBy (until watch.old (deadline_of now ms)) self.old.sema
            (seat_point self.old watch.old proc.old) result
            (seat_point self.new watch.new proc.new)) }
    {
        if !has_row(proc, self.beyond) {
            return Err(Fault::NoRendez);
        }
        let (timers, timer) = (watch.timers, &mut watch.seat);
        self.sema
            .tsemacquire_probed(rt, proc, &mut self.seat, timers, timer, now, ms, probe)
    }

    /// Adds `count` units, and returns the value after the addition, before units pass to the
    /// processes that wait, first come, first served. Each process that was granted a unit is
    /// woken. After semrelease in semacquire(2).
    ///
    /// Refuses, in this order, as `NoRendez` a process whose kernel has too few Rendez for the
    /// semaphore, so that a process of another kernel can't give a unit back, and as `BadArg` where
    /// the value would be above 2,147,483,647; then it adds nothing. It waits for the semaphore's
    /// lock. Takes no memory.
    #[inline(always)]
    pub fn release<R: Wait>(
        &mut self,
        rt: &R,
        proc: &mut Proc<'_>,
        count: u32,
    ) -> Result<u32, Fault>
        ensures same { IsSameSeat self.old self.new }
        ensures words { proc.new.words ≡ proc.old.words }

        // It is the call of the semaphore where the process may make it; else nothing is done.
        ensures known { IfKnown (OwnsRow self.old.sema proc.old.words) result
            ((self.new ≡ self.old) × (proc.new ≡ proc.old))
            (Releases self.old.sema count (point self.old.seat proc.old) result
            (point self.new.seat proc.new)) }
    {
        if !has_row(proc, self.beyond) {
            return Err(Fault::NoRendez);
        }
        self.sema.semrelease(rt, proc, &mut self.seat, count)
    }

    /// The Rendez in which whoever calls by the seat waits for a unit: the first Rendez of its
    /// semaphore, plus the number of the seat. Takes no memory and doesn't wait.
    pub fn rendez(&self) -> RendezId
        ensures { result ≡ rendez_at self.now.sema self.now.seat }
    {
        self.sema.rendez(&self.seat)
    }
}
