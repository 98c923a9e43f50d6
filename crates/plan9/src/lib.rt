//! All that a program names: the library's types and calls in one order. A thread is one process,
//! and lends it to each call: to the end of a pipe, to a sender or a receiver of a queue, to a seat
//! at a semaphore, to a member of a tag space, to a share of a read end, or to a watch of a clock.
//! Read the lists below from the top: what every call speaks of; a kernel and its processes, with
//! `plan` and `forking`; faults in words, with `texts`; pipes, with `pipes`, `ends`, `noting`,
//! `shares`, `place`, `alone` and `streams`; queues of values, with `queues`; semaphores, with
//! `semaphores`; clocks, with `clock` and `ticker`; tag spaces, with `spaces` and `rforking`;
//! `known`, by which these test who calls; `many`, by which each of them gives many at once; and
//! what else a caller may prove.
#![tactic(auto)]

mod alone;
pub mod clock;
pub mod ends;
pub mod forking;
mod known;
mod many;
pub mod noting;
pub mod pipes;
mod place;
pub mod plan;
pub mod queues;
pub mod rforking;
pub mod semaphores;
pub mod shares;
pub mod spaces;
pub mod streams;
pub mod texts;
pub mod ticker;

// What every call speaks of.
pub use sync_base::{Fault, Flags, Mode, Note, NoteSet, Pid, Piece, RendezId, Tag, Wants, limits};

// A kernel, counted from what will be made, and its processes: sleep, wakeup, notes and rfork.
pub use crate::forking::{fork, forks};
pub use crate::plan::Plan;
pub use sleep_wakeup::{Done, Kernel, Opened as OpenedKernel, Proc, Roster, Start, Started};

// Jobs that start together or not at all, each on a thread with its process.
pub use together::{Ended, Job, Refused, Team, Told, Worker};

// Who waits where, for a program that hangs.
pub use sleep_wakeup::{Look, ProcStatus, RendezStatus};

// Faults and notes in words.
pub use crate::texts::{FaultText, NoteTexts};

// Pipes, one or many, and the calls of their ends.
pub use crate::ends::{ReadCalls, ShortRead, WriteCalls};
pub use crate::noting::take_note;
pub use crate::pipes::{OpenedPipes, Pipes, PipesStart};
pub use crate::shares::{Share, SharedEnd, Unshared};
pub use crate::streams::{ReadStream, WriteStream};
pub use pipe_dev::{
    End, Ends, Held, Long, Opened as OpenedPipe, Parts, Pipe, PipeStart, ReadAnswer, ReadEnd,
    StoredBlock, TryAnswer, Unfinished, WriteEnd, finish,
};

// Queues of values, and handles by which processes send and receive.
pub use crate::queues::{ReceiveCalls, SendCalls};
pub use messages::{
    Ends as QueueEnds, Messages, Received, Receiver, Sender, TryReceived, TrySent, Unsent,
};

// Semaphores, and seats at them.
pub use crate::semaphores::{Seat, Semaphore};

// Clocks, for waits that end, and watches of them.
pub use crate::clock::{Clock, Watch};
pub use crate::ticker::{Beat, RealTime, TickSource};

// Tag spaces: rendezvous and rfork, and members of them.
pub use crate::rforking::{ForkedMember, UnforkedMember};
pub use crate::spaces::{Member, Space};
pub use tag_space::SpentMember;
pub use tag_space::meeting::INTERRUPTED;

// What a caller has beside: a pipe for one thread, and probes for tests of calls.
pub use sync_base::{
    NoProbe, PeekAnswer, PlainPipe, Probe, ReadAnswer as PlainReadAnswer, WriteAnswer,
};
