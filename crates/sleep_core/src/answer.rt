//! What the table answers to an event.
ghost use Rattle.std.specs.Prelude.{◌≡◌};

use sync_base::{NoteSet, Pid};

/// The answer to an event.
#[derive(Clone, Copy, Debug, PartialEq, Eq)]
pub enum Answer {
    /// To `Post` and `Check`: the process is in the Rendez.
    Posted,
    /// To `Test` and `Look`: the level is above the process's threshold, or notes are pending.
    Leaving,
    /// To `Test`: the level is not above the process's threshold.
    Asleep,
    /// To `Look`: the mark is there.
    Woken,
    /// To `Look`: nothing is there, and the process waits.
    Parked,
    /// To `Withdraw`: the process was in the Rendez, and is no longer.
    Out,
    /// To `Withdraw`: a wakeup has taken the process.
    Awaiting,
    /// To `Clear`: the sleep is over, and no notes were pending.
    Cleared,
    /// To `Clear`: the sleep is over, and these notes were pending.
    Interrupted { notes: NoteSet },
    /// To `Raise`: the sleeper has yet to be taken.
    Owing,
    /// To `Take`: no process was in the Rendez, and the wakeup is over.
    Nobody,
    /// To `Take`: this process was in the Rendez, and has yet to be marked.
    Holding { sleeper: Pid },
    /// To `Mark`: this process is marked, and the wakeup is over.
    Marked { sleeper: Pid },
    /// To `Note`.
    Noted,
    /// To `Drain`: these notes were pending.
    Notes { notes: NoteSet },
    /// To `Check`: the process is no longer in the Rendez.
    Released,
    /// No process has this number.
    NoProc,
    /// The event can't come in the phase that the process is in.
    Refused,
    /// No Rendez has this number.
    NoRendez,
    /// No level is above this threshold.
    BadLevel,
    /// Another process is in the Rendez.
    DoubleSleep,
}
