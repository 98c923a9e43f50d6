//! What can happen to the words of sleep and wakeup: one event is one atomic step of one process.
ghost use Rattle.std.specs.Prelude.{◌≡◌};
ghost use Rattle.sleep_core.specs.Table.{pid_of};

use sync_base::{NoteSet, Pid, RendezId};

/// One step of one process. The names are those of the calls of a sleep and of a wakeup.
#[derive(Clone, Copy, Debug, PartialEq, Eq)]
pub enum Event {
    /// The process posts itself in a Rendez, to sleep until its level is above this threshold.
    Post {
        pid: Pid,
        rendez: RendezId,
        threshold: u64,
    },
    /// It compares the level of the Rendez with its threshold.
    Test {
        pid: Pid,
    },
    /// It looks whether it was woken, or has notes.
    Look {
        pid: Pid,
    },
    /// It takes itself out of the Rendez, if no wakeup has taken it.
    Withdraw {
        pid: Pid,
    },
    /// It ends the sleep, and takes its notes.
    Clear {
        pid: Pid,
    },
    /// It begins a wakeup: the level of the Rendez becomes at least this level.
    Raise {
        pid: Pid,
        rendez: RendezId,
        level: u64,
    },
    /// It takes the sleeper out of the Rendez, if there is one.
    Take {
        pid: Pid,
    },
    /// It marks the sleeper that it took as ready, which ends the wakeup.
    Mark {
        pid: Pid,
    },
    /// Notes come to the process, whatever it does.
    Note {
        pid: Pid,
        notes: NoteSet,
    },
    /// It takes its notes outside a sleep.
    Drain {
        pid: Pid,
    },
    /// Asleep, it reads whether it is still posted.
    Check {
        pid: Pid,
    },
}

impl Event {
    /// The process that the event names.
    pub fn pid(&self) -> Pid
        ensures { result ≡ pid_of self.now }
    {
        match *self {
            Event::Post { pid, .. } => pid,
            Event::Test { pid } => pid,
            Event::Look { pid } => pid,
            Event::Withdraw { pid } => pid,
            Event::Clear { pid } => pid,
            Event::Raise { pid, .. } => pid,
            Event::Take { pid } => pid,
            Event::Mark { pid } => pid,
            Event::Note { pid, .. } => pid,
            Event::Drain { pid } => pid,
            Event::Check { pid } => pid,
        }
    }
}
