//! How a call is run: as long as it takes, or, by another crate, until a moment.
use crate::call::WaitingCall;
use crate::wait::wait_for;
use sleep_wakeup::Proc;
use std::sync::Wait;
use sync_base::{Fault, Probe, RendezId};

/// Runs calls that may have to wait. A device has one form of each call, over any runner.
pub trait Runner {
    ghost use Rattle.std.specs.Prelude.{◌≡◌, ◌<◌};
    ghost use Rattle.rendez_words.specs.Words.{rendez_of};
    ghost use Rattle.waiting.specs.Runners.{IsACall, Runs, run_point};
    ghost use Rattle.waiting.specs.Waiting.{point};

    /// What the runner is lent beside the seat of the call: a timer, or nothing.
    type Timer;

    /// A timer between two calls.
    ghost rests: { Self → Self.Timer → Type 0 };

    /// What each run keeps of a timer.
    ghost Kept: { Type 0 };

    ghost kept: { Self.Timer → Kept };

    /// What the runner does with a call.
    ghost runs: { Self → Runs Self.Timer };

    /// Runs the call, whose requests are lent this buffer, on this Rendez. The probe is called at
    /// its points: 2 before each sleep of the call, and 3 after it.
    fn run<R: Wait, C: WaitingCall, P: Probe>(
        &self,
        rt: &R,
        proc: &mut Proc<'_>,
        rendez: RendezId,
        call: &C,
        seat: &mut C::Seat,
        buffer: &mut [u8],
        timer: &mut Self::Timer,
        probe: &mut P,
    ) -> Result<C::Out, Fault>
        requires ready { C.ready call.now seat.old }
        requires row { C.knows call.now proc.old.words }
        requires fits { C.fits call.now buffer.old }
        requires rendez { rendez.0 < rendez_of proc.old.words }
        requires timer { rests self.now timer.old }
        ensures rests { C.rests call.now seat.new }
        ensures words { proc.new.words ≡ proc.old.words }
        ensures timer { rests self.now timer.new }
        ensures kept { kept timer.new ≡ kept timer.old }
        ensures ran { (runs self.now).ran (C.promise call.now) rendez
            (run_point (C.sight seat.old buffer.old) timer.old proc.old) result
            (run_point (C.sight seat.new buffer.new) timer.new proc.new) }

        // What holds of a call that waits as long as it takes holds of it.
        ensures is_call { IsACall (C.promise call.now) rendez
            (point (C.sight seat.old buffer.old) proc.old) result
            (point (C.sight seat.new buffer.new) proc.new) };
}

/// Runs a call as long as it takes.
#[derive(Clone, Copy, Drop)]
pub struct Forever;

impl Runner for Forever {
    ghost use Rattle.std.specs.Prelude.{⊤};
    ghost use Rattle.waiting.specs.Runners.{as_long_as_it_takes};

    type Timer = ();

    ghost rests = { λ forever timer. ⊤ };

    ghost Kept = { ⊤ };

    ghost kept = { λ timer. timer };

    ghost runs = { λ forever. as_long_as_it_takes };

    fn run<R: Wait, C: WaitingCall, P: Probe>(
        &self,
        rt: &R,
        proc: &mut Proc<'_>,
        rendez: RendezId,
        call: &C,
        seat: &mut C::Seat,
        buffer: &mut [u8],
        _timer: &mut (),
        probe: &mut P,
    ) -> Result<C::Out, Fault> {
        wait_for(rt, proc, rendez, call, seat, buffer, probe)
    }
}
