//! The answers to callers of an end.
use sync_base::Fault;

/// The answer to a read. In stream mode its bytes may be of many writes.
#[derive(Clone, Copy, Debug, PartialEq, Eq, Drop)]
pub enum ReadAnswer {
    /// This many bytes are in the buffer.
    Got(usize),
    /// All is read and the direction is hung up, so no more will come.
    End,
}

/// The answer to a read that does not wait.
#[derive(Clone, Copy, Debug, PartialEq, Eq)]
pub enum TryAnswer {
    /// This many bytes are in the buffer.
    Got(usize),
    /// The next write is not there yet.
    NotYet,
    /// All is read and the direction is hung up, so no more will come.
    End,
}

/// The answer to a long write.
#[derive(Clone, Copy, Debug, PartialEq, Eq)]
pub struct Long {
    /// How many bytes were accepted.
    pub taken: u64,
    /// Why it ended before all were accepted.
    pub fault: Option<Fault>,
}
