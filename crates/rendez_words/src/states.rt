//! The states between two steps: each names the calls that spend it. A seat may be dropped. The
//! other states can't be: a sleep and a wakeup are made to their end.
use crate::rule::Stepper;
use std::marker::Model;
use sync_base::{Fault, NoteSet, Pid, RendezId};

/// A process while it makes its steps: the seat that makes them, and its pid.
#[derive(Drop)]
pub(crate) struct Caller {
    pub(crate) stepper: Stepper,
    pub(crate) pid: u64,
}

impl Model for Caller {
    ghost use Rattle.rendez_words.specs.Process.{Process};

    ghost Value = { Process };

    ghost use Rattle.rendez_words.specs.States.{process_at, IsStepperOf};

    ghost view = { λ caller. process_at caller.stepper caller.pid };

    ghost invariant = { λ caller. IsStepperOf caller.stepper caller.pid };
}

impl Caller {
    ghost use Rattle.std.specs.Prelude.{◌≡◌};
    ghost use Rattle.rendez_words.specs.Process.{pid_in};

    pub(crate) fn pid(&self) -> Pid
        ensures { result ≡ pid_in self.now }
    {
        Pid(self.pid)
    }
}

/// A process in no sleep and in no wakeup. `post` begins a sleep, `raise` a wakeup.
#[derive(Drop)]
#[must_use]
pub struct Seat {
    pub(crate) caller: Caller,
}

impl Model for Seat {
    ghost use Rattle.std.specs.Prelude.{◌≡◌};
    ghost use Rattle.sleep_core.specs.declared.phase.Phase.TheVariants as phase;
    ghost use Rattle.rendez_words.specs.Process.{Process, phase_in};

    ghost Value = { Process };

    ghost view = { λ seat. seat.caller };

    ghost invariant = { λ seat. phase_in seat.caller ≡ phase.Idle };
}

/// A process that is posted and has yet to test. `test` spends it.
#[must_use]
pub struct Posted {
    pub(crate) caller: Caller,
    pub(crate) rendez: RendezId,
    pub(crate) threshold: u64,
}

impl Model for Posted {
    ghost use Rattle.std.specs.Prelude.{◌≡◌};
    ghost use Rattle.sleep_core.specs.declared.phase.Phase.TheVariants as phase;
    ghost use Rattle.rendez_words.specs.Process.{Process, phase_in};

    ghost Value = { Process };

    ghost view = { λ posted. posted.caller };

    ghost invariant = { λ posted.
        phase_in posted.caller ≡ phase.Posted posted.rendez posted.threshold };
}

/// A process that waits for a wakeup or for notes. `look` spends it.
#[must_use]
pub struct Asleep {
    pub(crate) caller: Caller,
    pub(crate) rendez: RendezId,
    pub(crate) threshold: u64,
}

impl Model for Asleep {
    ghost use Rattle.std.specs.Prelude.{◌≡◌};
    ghost use Rattle.sleep_core.specs.declared.phase.Phase.TheVariants as phase;
    ghost use Rattle.rendez_words.specs.Process.{Process, phase_in};

    ghost Value = { Process };

    ghost view = { λ asleep. asleep.caller };

    ghost invariant = { λ asleep.
        phase_in asleep.caller ≡ phase.Asleep asleep.rendez asleep.threshold };
}

/// A process that has no reason to wait any more. `withdraw` spends it.
#[must_use]
pub struct Leaving {
    pub(crate) caller: Caller,
    pub(crate) rendez: RendezId,
}

impl Model for Leaving {
    ghost use Rattle.std.specs.Prelude.{◌≡◌};
    ghost use Rattle.sleep_core.specs.declared.phase.Phase.TheVariants as phase;
    ghost use Rattle.rendez_words.specs.Process.{Process, phase_in};

    ghost Value = { Process };

    ghost view = { λ leaving. leaving.caller };

    ghost invariant = { λ leaving.
        phase_in leaving.caller ≡ phase.Leaving leaving.rendez };
}

/// A process that a wakeup has taken and not yet marked. `look_mark` spends it.
#[must_use]
pub struct Awaiting {
    pub(crate) caller: Caller,
}

impl Model for Awaiting {
    ghost use Rattle.std.specs.Prelude.{◌≡◌};
    ghost use Rattle.sleep_core.specs.declared.phase.Phase.TheVariants as phase;
    ghost use Rattle.rendez_words.specs.Process.{Process, phase_in};

    ghost Value = { Process };

    ghost view = { λ awaiting. awaiting.caller };

    ghost invariant = { λ awaiting.
        phase_in awaiting.caller ≡ phase.Awaiting };
}

/// A process that saw the mark of the wakeup that took it. `clear_woken` spends it.
#[must_use]
pub struct Woken {
    pub(crate) caller: Caller,
}

impl Model for Woken {
    ghost use Rattle.std.specs.Prelude.{◌≡◌};
    ghost use Rattle.sleep_core.specs.declared.phase.Phase.TheVariants as phase;
    ghost use Rattle.rendez_words.specs.Process.{Process, phase_in};

    ghost Value = { Process };

    ghost view = { λ woken. woken.caller };

    ghost invariant = { λ woken.
        phase_in woken.caller ≡ phase.Woken };
}

/// A process that took itself out of the Rendez. `clear_out` spends it.
#[must_use]
pub struct Out {
    pub(crate) caller: Caller,
}

impl Model for Out {
    ghost use Rattle.std.specs.Prelude.{◌≡◌};
    ghost use Rattle.sleep_core.specs.declared.phase.Phase.TheVariants as phase;
    ghost use Rattle.rendez_words.specs.Process.{Process, phase_in};

    ghost Value = { Process };

    ghost view = { λ out. out.caller };

    ghost invariant = { λ out.
        phase_in out.caller ≡ phase.Out };
}

/// A process that has raised a level and has yet to take the sleeper. `take` spends it.
#[must_use]
pub struct Owing {
    pub(crate) caller: Caller,
    pub(crate) rendez: RendezId,
    pub(crate) level: u64,
}

impl Model for Owing {
    ghost use Rattle.std.specs.Prelude.{◌≡◌};
    ghost use Rattle.sleep_core.specs.declared.phase.Phase.TheVariants as phase;
    ghost use Rattle.rendez_words.specs.Process.{Process, phase_in};

    ghost Value = { Process };

    ghost view = { λ owing. owing.caller };

    ghost invariant = { λ owing.
        phase_in owing.caller ≡ phase.Owing owing.rendez owing.level };
}

/// A process that took a sleeper and has yet to mark it. `mark` spends it.
#[must_use]
pub struct Holding {
    pub(crate) caller: Caller,
    pub(crate) sleeper: Pid,
    pub(crate) rendez: RendezId,
    pub(crate) level: u64,
}

impl Model for Holding {
    ghost use Rattle.std.specs.Prelude.{◌≡◌};
    ghost use Rattle.sleep_core.specs.declared.phase.Phase.TheVariants as phase;
    ghost use Rattle.rendez_words.specs.Process.{Process, phase_in};

    ghost Value = { Process };

    ghost view = { λ holding. holding.caller };

    ghost invariant = { λ holding.
        phase_in holding.caller ≡ phase.Holding holding.sleeper holding.rendez holding.level };
}

impl Holding {
    ghost use Rattle.std.specs.Prelude.{◌≡◌};
    ghost use Rattle.rendez_words.specs.Process.{sleeper_of};

    /// The process that was taken.
    pub fn sleeper(&self) -> Pid
        ensures { result ≡ sleeper_of self.now }
    {
        self.sleeper
    }
}

/// The receipt of a wakeup that has returned.
#[derive(Clone, Copy, Debug, PartialEq, Eq)]
pub struct Done {
    pub rendez: RendezId,
    pub level: u64,
}

/// A call was refused, and the seat comes back.
#[derive(Drop)]
pub struct Refused {
    pub seat: Seat,
    pub fault: Fault,
}

/// What a test found.
#[must_use]
pub enum TestAnswer {
    /// The level is not above the threshold.
    Asleep(Asleep),
    /// The level is above it.
    Leaving(Leaving),
}

/// What ended the wait of a sleeper.
#[must_use]
pub enum LookAnswer {
    /// The mark of a wakeup.
    Woken(Woken),
    /// Notes.
    Leaving(Leaving),
}

/// What a withdrawal found.
#[must_use]
pub enum WithdrawAnswer {
    /// The process was still posted, and took itself out.
    Out(Out),
    /// A wakeup had taken it, and its mark will come.
    Awaiting(Awaiting),
}

/// Whom a wakeup found.
#[must_use]
pub enum TakeAnswer {
    /// Nobody: the wakeup has returned.
    Nobody(Returned),
    /// A sleeper, who has yet to be marked.
    Holding(Holding),
}

/// A wakeup has returned: the seat of its process, and its receipt.
#[derive(Drop)]
pub struct Returned {
    pub seat: Seat,
    pub done: Done,
}

/// A sleep is over: the seat of its process, and the notes that were pending.
#[derive(Drop)]
pub struct Cleared {
    pub seat: Seat,
    pub notes: NoteSet,
}

/// A sleeper and the process that asked, as they were, and whether the sleeper was released.
#[must_use]
pub struct Checked {
    pub asleep: Asleep,
    pub seat: Seat,
    pub released: bool,
}

/// The pids not yet given. `split` gives the next one.
#[derive(Drop)]
pub struct Pids {
    pub(crate) stepper: Stepper,
    pub(crate) next: u64,
}

impl Model for Pids {
    ghost use Rattle.rendez_words.specs.Process.{PidsLeft};

    ghost Value = { PidsLeft };

    ghost use Rattle.rendez_words.specs.States.{pids_at, IsStepperOfPids};

    ghost view = { λ pids. pids_at pids.stepper };

    ghost invariant = { λ pids. IsStepperOfPids pids.stepper pids.next };
}
