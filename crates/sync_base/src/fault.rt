//! Every fault that a call of the library can answer.
ghost use Rattle.std.specs.Prelude.{◌≡◌};
ghost use Rattle.sync_base.specs.Fault.{fault_number};
ghost use Rattle.sync_base.specs.declared.fault.Fault.TheVariants.{Memory};

use crate::note::NoteSet;
use std::alloc::{AllocError, AllocFailed};
use thiserror::Error;

/// Why a call was refused. Each page of a call lists its faults in the order in which they are
/// tested.
#[derive(Clone, Copy, Debug, PartialEq, Eq, Error)]
pub enum Fault {
    /// A growth of memory was refused.
    #[error("out of memory")]
    Memory,
    /// These notes ended a sleep, and are no longer pending.
    #[error("interrupted")]
    Interrupted(NoteSet),
    /// A write came after the hangup of its direction.
    #[error("i/o on hungup channel")]
    Hungup,
    /// A write is longer than the atomic size.
    #[error("write too big")]
    TooBig,
    /// Another process sleeps on the Rendez.
    #[error("double sleep")]
    DoubleSleep,
    /// An argument is outside its limits.
    #[error("bad argument")]
    BadArg,
    /// No level is above the level that was asked for.
    #[error("bad level")]
    BadLevel,
    /// A read asked for no bytes.
    #[error("bad count")]
    BadCount,
    /// The size of a queue or a pipe is outside its limits.
    #[error("bad size")]
    BadSize,
    /// The last number of a write, a meeting or a grant was given.
    #[error("number worn out")]
    Worn,
    /// There is no such process, or no process is left.
    #[error("no such process")]
    NoProc,
    /// There is no such Rendez, or no Rendez is left.
    #[error("no such rendez")]
    NoRendez,
    /// A flag of rfork that the call does not take.
    #[error("bad flags")]
    BadFlags,
    /// The line with this number, counted from 1, is not in the grammar of the script.
    #[error("script fault at line {0}")]
    Script(u64),
    /// The deadline of a wait came before what it waited for.
    #[error("timed out")]
    TimedOut,
    /// A reader, a writer or the start of a thread failed.
    #[error("device fault")]
    Device,
}

impl Fault {
    /// The fault's number, from 1 to 16.
    pub fn number(&self) -> u64
        ensures { result ≡ fault_number self.now }
    {
        match self {
            Fault::Memory => 1,
            Fault::Interrupted(_) => 2,
            Fault::Hungup => 3,
            Fault::TooBig => 4,
            Fault::DoubleSleep => 5,
            Fault::BadArg => 6,
            Fault::BadLevel => 7,
            Fault::BadCount => 8,
            Fault::BadSize => 9,
            Fault::Worn => 10,
            Fault::NoProc => 11,
            Fault::NoRendez => 12,
            Fault::BadFlags => 13,
            Fault::Script(_) => 14,
            Fault::TimedOut => 15,
            Fault::Device => 16,
        }
    }
}

impl From<AllocError> for Fault {
    ghost from_gives = { λ _ fault. fault ≡ Memory };

    fn from(_refused: AllocError) -> Fault {
        Fault::Memory
    }
}

impl<T: Drop> From<AllocFailed<T>> for Fault {
    ghost from_gives = { λ _ fault. fault ≡ Memory };

    fn from(_refused: AllocFailed<T>) -> Fault {
        Fault::Memory
    }
}
