//! The limit of a wait for the note of a tick.

/// The greatest threshold with which a process may sleep. Only the level of a hangup is above it.
pub const LAST_THRESHOLD: u64 = u64::MAX - 1;
