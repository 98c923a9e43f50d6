//! What a run of writers and a reader on threads is asked for.

/// How many writers there are, and what each of them writes.
#[derive(Clone, Copy, Debug, PartialEq, Eq)]
pub struct ThreadsOpts {
    /// How many writers, from 1 to 64.
    pub writers: u64,
    /// How many messages each of them writes, from 1 to 100,000.
    pub writes: u64,
    /// How many bytes each message has, from 16 to 8,192.
    pub size: u64,
}
