//! Each limit of the library, by name.

/// The most processes that a kernel or a world has. The least is 1.
pub const MAX_PROCS: u64 = 1_024;

/// The most Rendez that a kernel or a world has. The least is 1.
pub const MAX_RENDEZ: u64 = 8_192;

/// The most writes that a direction of a pipe holds before a read begins them. The least such limit
/// is 1.
pub const MAX_PIPE_LIMIT: u64 = 1_024;

/// The most writers of one direction of a pipe. The least is 1.
pub const MAX_WRITERS: u64 = 64;

/// The most bytes of one write.
pub const ATOMIC_SIZE: usize = 65_536;

/// The level of a hangup. No level is above it, so nobody sleeps with it as a threshold.
pub const TOP_LEVEL: u64 = u64::MAX;

/// The number of the last write of a queue.
pub const LAST_WRITE: u64 = 4_611_686_018_427_387_903;

/// The most messages of one writer in a run on threads. The least is 1.
pub const MAX_WRITES: u64 = 100_000;

/// The least bytes of such a message: its head, which names its writer and its number.
pub const LEAST_SIZE: u64 = 16;

/// The most bytes of such a message. It is below the atomic size, so that a message is one write.
pub const MOST_SIZE: u64 = 8_192;
