//! A clock to which a process says the time, and seats at its timers: each has the timers with it.
use crate::many::{Splits, room_for, split_into};
use sleep_wakeup::Proc;
use std::alloc::Global;
use std::marker::Model;
use std::sync::Wait;
use sync_base::{Fault, RendezId};
use timer_list::{OpenedTimers, TimerSeat, Timers};

/// A clock: timers, and the first watch of them as long as nobody has it.
#[derive(Drop)]
pub struct Clock {
    timers: Timers,
    spare: Option<TimerSeat>,
    procs: u64,
}

impl Model for Clock {
    ghost use Rattle.plan9.specs.Watches.{Clocked, IsClock};

    ghost Value = { Clocked };

    ghost view = { λ clock. record { timers = clock.timers; spare = clock.spare } };

    ghost invariant = { λ clock. IsClock clock.timers clock.spare clock.procs };
}

/// A watch of a clock: a seat at its timers, with one timer. Each call with a deadline waits by
/// one, and a process that knows the time calls its `tick`. It holds no process. One thread has it
/// at a time, and may hand it to another.
#[derive(Drop)]
pub struct Watch<'t> {
    pub(crate) timers: &'t Timers,
    pub(crate) seat: TimerSeat,
}

impl<'t> Model for Watch<'t> {
    ghost use Rattle.timer_list.specs.Seats.{IsTimerSeatOf};
    ghost use Rattle.plan9.specs.Watches.{Watching};

    ghost Value = { Watching };

    ghost view = { λ watch. record { timers = watch.timers.now; seat = watch.seat } };

    ghost invariant = { λ watch. IsTimerSeatOf watch.timers.now watch.seat };
}

impl Clock {
    ghost use Rattle.std.specs.Prelude.{◌≡◌, ◌≤◌, ◌↔◌, true, None, IfOk, IfErr, OnOk, OnErr};
    ghost use Rattle.sync_base.specs.declared.fault.Fault.TheVariants.{NoProc};
    ghost use Rattle.sleep_core.specs.Limits.{IsProcCount};
    ghost use Rattle.timer_list.specs.Timers.{WhyNoTimers};
    ghost use Rattle.plan9.specs.Watches.{
      AreWatches,
      IsFirstWatch,
      IsNewClock,
      MayWatch,
      WhyNoWatches,
    };

    /// A clock for this many processes, including the process that ticks. Refuses, in this order,
    /// as `NoProc` where they are not from 1 to 1,024, and `Memory`. Doesn't wait.
    pub fn new(alloc: Global, procs: u64) -> Result<Clock, Fault>
        // Refused first.
        ensures in_range { OnOk result (IsProcCount procs) }
        ensures fault { IfErr result (WhyNoTimers procs) }

        // Otherwise nobody has called it, and nobody has its first watch.
        ensures opened { IfOk result (IsNewClock procs) }
    {
        let OpenedTimers { timers, seat } = Timers::new(alloc, procs)?;
        Ok(Clock {
            timers,
            spare: Some(seat),
            procs,
        })
    }

    // How many processes may have a watch of it.
    fn procs(&self) -> u64
        ensures { result ≡ self.now.timers.procs }
    {
        self.procs
    }

    /// Whether nobody has had the first watch. Takes no memory and doesn't wait.
    pub fn has_watch(&self) -> bool
        ensures { result ≡ true ↔ ¬ (self.now.spare ≡ None) }
    {
        self.spare.is_some()
    }

    /// The first watch. Refuses as `NoProc` where somebody had it before. Takes no memory and
    /// doesn't wait.
    pub fn watch<'t>(&'t mut self) -> Result<Watch<'t>, Fault>
        // Refused first, and then there was no watch to lose.
        ensures fault { IfErr result (λ fault. fault ≡ NoProc) }
        ensures taken { OnErr result (self.old.spare ≡ None) }

        // Otherwise it is the watch that nobody had.
        ensures first { IfOk result (IsFirstWatch self.old) }
    {
        match self.spare.take() {
            None => Err(Fault::NoProc),
            Some(seat) => Ok(Watch {
                timers: &self.timers,
                seat,
            }),
        }
    }

    /// This many watches, in the order of their numbers: the first one, and each other split from
    /// the one before it. Refuses, in this order, as `NoProc` where the count is 0 or above the
    /// processes of the clock, as `Memory`, and as `NoProc` where somebody had the first watch
    /// before. Takes memory for the list, and waits for the timers' lock.
    pub fn watches<'t, R: Wait>(
        &'t mut self,
        alloc: Global,
        rt: &R,
        count: u64,
    ) -> Result<Vec<Watch<'t>>, Fault>
        // Refused, in this order.
        ensures in_range { OnOk result (MayWatch self.old count) }
        ensures fault { IfErr result (WhyNoWatches self.old count) }

        // Otherwise no other watch was given.
        ensures watches { IfOk result (λ watches. AreWatches self.old count watches.items) }
    {
        let watches = room_for(alloc, self.procs(), count)?;
        let first = self.watch()?;
        split_into(rt, first, watches, count)
    }
}

impl<'t> Splits for Watch<'t> {
    ghost use Rattle.plan9.specs.Watches.{GivesWatch, KnowsNoWatch};

    ghost gives = { GivesWatch };

    ghost knows_none = { KnowsNoWatch };

    fn further<R: Wait>(&mut self, rt: &R) -> Result<Watch<'t>, Fault> {
        self.split(rt)
    }
}

impl<'t> Watch<'t> {
    ghost use Rattle.std.specs.Prelude.{◌≡◌, ◌<◌, ◌≤◌, IfOk, IfErr, OnErr, Err};
    ghost use Rattle.sync_base.specs.declared.fault.Fault.TheVariants.{BadLevel, NoProc, NoRendez};
    ghost use Rattle.sync_base.specs.declared.limits.TheConstants.{TOP_LEVEL};
    ghost use Rattle.rendez_words.specs.Words.{procs_of, rendez_of};
    ghost use Rattle.timer_list.specs.Sleeping.{sleeping};
    ghost use Rattle.timer_list.specs.Ticking.{Ticks};
    ghost use Rattle.timer_list.specs.Timers.{deadline_of};
    ghost use Rattle.timer_list.specs.Timing.{TimedThroughout};
    ghost use Rattle.waiting.specs.Waiting.{point};
    ghost use Rattle.plan9.specs.Watches.{
      IsFurtherWatch,
      IsSameWatch,
      KnowsNoWatch,
      watched_sleeper,
    };

    /// A further watch, for another process. Refuses as `NoProc` where the clock has had all its
    /// processes. It waits for the timers' lock. Takes no memory.
    pub fn split<R: Wait>(&mut self, rt: &R) -> Result<Watch<'t>, Fault>
        ensures same { IsSameWatch self.old self.new }
        ensures fault { IfErr result (λ fault. fault ≡ NoProc) }
        ensures refused { OnErr result (KnowsNoWatch self.old self.new) }
        ensures further { IfOk result (IsFurtherWatch self.old self.new) }
    {
        let seat = self.timers.split(rt, &mut self.seat)?;
        Ok(Watch {
            timers: self.timers,
            seat,
        })
    }

    /// Says that it is now this moment: timers whose deadline has come expire, and their processes
    /// are posted the note `expired`, until none is due or as many have expired as there are
    /// processes. Returns how many. Own; tsemacquire in semacquire(2) has a clock of its own. It
    /// waits for the timers' lock. Takes no memory.
    pub fn tick<R: Wait>(&mut self, rt: &R, proc: &mut Proc<'_>, now: u64) -> u64
        ensures same { IsSameWatch self.old self.new }
        ensures words { proc.new.words ≡ proc.old.words }
        ensures called { Ticks self.old.timers (procs_of proc.old.words) now result
            (point self.old.seat proc.old) (point self.new.seat proc.new) }
    {
        self.timers.tick(rt, proc, &mut self.seat, now)
    }

    /// Puts its process to sleep until the level of the Rendez is above the threshold, a wakeup
    /// takes it, notes come, or a tick comes at the moment `now` + `ms` or later; that moment is at
    /// most `u64::MAX`. After tsleep of the kernel; the tick is the library's own. As with a sleep
    /// that ends well, a good answer says that the condition held or a wakeup came, so a caller
    /// tests again.
    ///
    /// Refuses, in this order, as `NoRendez`, as `BadLevel` where no level is above the threshold,
    /// as `DoubleSleep` where another process sleeps there, as `Interrupted` with the notes that
    /// ended it, which are no longer pending, and as `TimedOut` where a tick ended it and no other
    /// note came. With any other answer, other notes that came are pending again. Where a tick has
    /// taken its timer, it takes a note `expired` before it answers: so no late expiry reaches a
    /// later sleep, unless others post that note. It waits for the timers' lock. Takes no memory.
    pub fn sleep_within<R: Wait>(
        &mut self,
        rt: &R,
        proc: &mut Proc<'_>,
        rendez: RendezId,
        threshold: u64,
        now: u64,
        ms: u32,
    ) -> Result<(), Fault>
        ensures same { IsSameWatch self.old self.new }
        ensures words { proc.new.words ≡ proc.old.words }

        // A Rendez that is not there is refused first, and then a threshold that no level is above;
        // its process does nothing then, and its timer is asked nothing.
        ensures no_rendez { rendez_of proc.old.words ≤ rendez.0 → result ≡ Err NoRendez }
        ensures bad_level { rendez.0 < rendez_of proc.old.words → TOP_LEVEL ≤ threshold
            → result ≡ Err BadLevel }
        ensures refused_there { rendez_of proc.old.words ≤ rendez.0 → proc.new ≡ proc.old }
        ensures refused_level { TOP_LEVEL ≤ threshold → proc.new ≡ proc.old }
        ensures watch_there { rendez_of proc.old.words ≤ rendez.0 → self.new ≡ self.old }
        ensures watch_level { TOP_LEVEL ≤ threshold → self.new ≡ self.old }

        // Else it did not have to wait, or it set its timer, slept, and cancelled the timer.
        ensures slept { rendez.0 < rendez_of proc.old.words → threshold < TOP_LEVEL
            → TimedThroughout (sleeping threshold) rendez self.old.timers (deadline_of now ms)
            (watched_sleeper proc.old self.old) result (watched_sleeper proc.new self.new) }
    {
        self.timers
            .sleep_within(rt, proc, &mut self.seat, rendez, threshold, now, ms)
    }
}
