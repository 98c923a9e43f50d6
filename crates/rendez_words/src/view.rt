//! What the seats of the table know. No value of a trace, a part or a view is ever made: contracts
//! alone see them, and they take no memory.
use std::marker::Model;

/// How many processes and Rendez there are. It is fixed when the words are made.
#[derive(Clone, Copy, Debug, PartialEq, Eq)]
pub struct Sizes {
    pub procs: u64,
    pub rendez: u64,
}

/// The steps of one process with their answers, newest first.
pub struct Trace {}

impl Model for Trace {
    ghost use Rattle.std.specs.Prelude.{List, []};
    ghost use Rattle.sleep_core.specs.Runs.{Entry};

    ghost Value = { List Entry };

    ghost view = { λ _. [] };
}

/// What the seat of a process knows.
pub struct Part {
    pub pid: u64,
    pub trace: Trace,
}

/// What a seat knows.
pub enum View {
    /// The seat of one process.
    Process(Part),
    /// The pids not yet given: this pid and all above it.
    Pids(u64),
    /// The seats of two processes, joined: a process that is asleep, and a process that was given a
    /// receipt.
    Joined(Part, Part),
    /// A seat that was joined into another.
    Spent,
}
