//! How a process sleeps until a moment.
ghost use Rattle.std.specs.Prelude.{◌≡◌, ◌<◌, ◌≤◌, ⊤, Err};
ghost use Rattle.sync_base.specs.declared.fault.Fault.TheVariants.{BadLevel, NoRendez};
ghost use Rattle.sync_base.specs.declared.limits.TheConstants.{TOP_LEVEL};
ghost use Rattle.kernel_lock.specs.Seats.{number_of};
ghost use Rattle.rendez_words.specs.Words.{rendez_of};
ghost use Rattle.timer_list.specs.Seats.{IsTimerSeatOf};
ghost use Rattle.timer_list.specs.Sleeping.{sleeping};
ghost use Rattle.timer_list.specs.Timers.{deadline_of};
ghost use Rattle.timer_list.specs.Timing.{TimedThroughout};
ghost use Rattle.waiting.specs.Runners.{run_point};

use crate::timers::{TimerSeat, Timers};
use crate::within::{Deadline, wait_within};
use sleep_wakeup::Proc;
use std::sync::Wait;
use sync_base::limits::TOP_LEVEL;
use sync_base::{Fault, NoProbe, RendezId};
use waiting::{Reply, WaitingCall};

impl Timers {
    /// Sleeps until the level of the Rendez is above the threshold, a wakeup takes the process,
    /// notes come, or a tick comes at the moment `now` + `ms` or later; that moment is at most
    /// `u64::MAX`. After tsleep of the kernel; the tick is the library's own. As with a sleep that
    /// ends well, a good answer says that the condition held or a wakeup came, so a caller tests
    /// again.
    ///
    /// Refuses, in this order, as `NoRendez`, as `BadLevel` where no level is above the threshold,
    /// as `DoubleSleep` where another process sleeps there, as `Interrupted` with the notes that
    /// ended it, which are no longer pending, and as `TimedOut` where a tick ended it and no other
    /// note came. With any other answer, other notes that came are pending again. Where a tick has
    /// taken its timer, it takes a note `expired` before it answers: so no late expiry reaches a
    /// later sleep, unless others post that note. It waits for the timers' lock. Takes no memory.
    pub fn sleep_within<R: Wait>(
        &self,
        rt: &R,
        proc: &mut Proc<'_>,
        timer: &mut TimerSeat,
        rendez: RendezId,
        threshold: u64,
        now: u64,
        ms: u32,
    ) -> Result<(), Fault>
        requires timer { IsTimerSeatOf self.now timer.old }

        // A Rendez that is not there is refused first, and then a threshold that no level is above;
        // nothing is done then.
        ensures no_rendez { rendez_of proc.old.words ≤ rendez.0 → result ≡ Err NoRendez }
        ensures bad_level { rendez.0 < rendez_of proc.old.words → TOP_LEVEL ≤ threshold
            → result ≡ Err BadLevel }
        ensures refused_there { rendez_of proc.old.words ≤ rendez.0 → proc.new ≡ proc.old }
        ensures refused_level { TOP_LEVEL ≤ threshold → proc.new ≡ proc.old }
        ensures timer_there { rendez_of proc.old.words ≤ rendez.0 → timer.new ≡ timer.old }
        ensures timer_level { TOP_LEVEL ≤ threshold → timer.new ≡ timer.old }

        // Else it did not have to wait, or it set its timer, slept, and cancelled the timer.
        ensures slept { rendez.0 < rendez_of proc.old.words → threshold < TOP_LEVEL
            → TimedThroughout (sleeping threshold) rendez self.now (deadline_of now ms)
            (run_point tt timer.old proc.old) result (run_point tt timer.new proc.new) }
        ensures words { proc.new.words ≡ proc.old.words }

        // When it returns, its timer is cancelled.
        ensures timer { IsTimerSeatOf self.now timer.new }
        ensures number { number_of timer.new.seat ≡ number_of timer.old.seat }
    {
        if rendez.0 >= proc.rendez_count() {
            return Err(Fault::NoRendez);
        }
        if threshold >= TOP_LEVEL {
            return Err(Fault::BadLevel);
        }
        let call = Sleep { threshold };
        let until = Deadline {
            timers: self,
            from: now,
            ms,
        };
        wait_within(
            rt,
            proc,
            rendez,
            &call,
            &mut (),
            &mut [],
            timer,
            until,
            &mut NoProbe,
        )
    }
}

/// A sleep as a call, which asks no device.
#[derive(Drop)]
pub(crate) struct Sleep {
    threshold: u64,
}

impl WaitingCall for Sleep {
    type Seat = ();

    type Out = ();

    ghost ready = { λ call seat. call.threshold < TOP_LEVEL };

    ghost waits = { λ call seat. ⊤ };

    ghost rests = { λ call seat. ⊤ };

    ghost knows = { λ call words. ⊤ };

    ghost Sight = { ⊤ };

    ghost sight = { λ seat buffer. seat };

    ghost promise = { λ call. sleeping call.threshold };

    fn begin<R: Wait>(
        &self,
        _rt: &R,
        _proc: &mut Proc<'_>,
        _seat: &mut (),
        _buffer: &mut [u8],
    ) -> Reply<()> {
        Reply::Wait(self.threshold)
    }

    fn ask<R: Wait>(
        &self,
        _rt: &R,
        _proc: &mut Proc<'_>,
        _seat: &mut (),
        _buffer: &mut [u8],
    ) -> Reply<()> {
        Reply::Done(())
    }

    fn leave<R: Wait>(&self, _rt: &R, _seat: &mut ()) -> Option<()> {
        None
    }
}
