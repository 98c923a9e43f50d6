//! Where a process is in its sleep or in its wakeup, and what others leave for it meanwhile. The
//! reader comes from `lib`.
ghost use Rattle.std.specs.Prelude.{◌≡◌};
ghost use Rattle.sleep_core.specs.State.{no_flags};

use sync_base::{NoteSet, Pid, RendezId};

/// Where a process is. A sleep goes from `Posted` to `Out` or `Woken`, a wakeup through `Owing`.
#[derive(Clone, Copy, Debug, PartialEq, Eq)]
pub enum Phase {
    /// In no sleep and in no wakeup.
    Idle,
    /// Posted in the Rendez, and has yet to test its level.
    Posted {
        rendez: RendezId,
        threshold: u64,
    },
    /// The level was not above this threshold. Somebody has to wake it, or it waits.
    Asleep {
        rendez: RendezId,
        threshold: u64,
    },
    /// Has no reason to wait any more, and has yet to take itself out of the Rendez.
    Leaving {
        rendez: RendezId,
    },
    /// Was taken out of the Rendez by a wakeup, whose mark will come.
    Awaiting,
    /// Saw the mark of the wakeup that took it.
    Woken,
    /// Took itself out of the Rendez: no mark will come.
    Out,
    /// Has raised the level, and has yet to take the sleeper.
    Owing {
        rendez: RendezId,
        level: u64,
    },
    /// Took a sleeper, and has yet to mark it.
    Holding {
        sleeper: Pid,
        rendez: RendezId,
        level: u64,
    },
}

/// What others leave for a process: one word, which the process empties at once.
#[derive(Clone, Copy, Debug, PartialEq, Eq)]
pub struct ProcFlags {
    /// A wakeup took the process out of its Rendez and is done with it.
    pub wake: bool,
    /// The notes that are pending.
    pub notes: NoteSet,
}

impl ProcFlags {
    /// No mark and no notes.
    pub fn none() -> Self
        ensures { result ≡ no_flags }
    {
        ProcFlags {
            wake: false,
            notes: NoteSet::empty(),
        }
    }
}
