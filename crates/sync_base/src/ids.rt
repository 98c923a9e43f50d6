//! The names of processes, Rendez and rendezvous tags.

/// A process, by its number. Processes of a kernel count from 0.
#[derive(Clone, Copy, Debug, PartialEq, Eq)]
pub struct Pid(pub u64);

/// A Rendez, the place where at most one process sleeps, by its number. Rendez of a kernel count
/// from 0.
#[derive(Clone, Copy, Debug, PartialEq, Eq)]
pub struct RendezId(pub u64);

/// The tag by which two calls of rendezvous(2) meet.
#[derive(Clone, Copy, Debug, PartialEq, Eq, PartialOrd, Ord)]
pub struct Tag(pub u64);
