//! The limits of a queue of values.

/// The most values that a queue holds. The least is 1.
pub const MAX_CAPACITY: u64 = 1_048_576;

/// The fewest handles that a queue has: a sender and a receiver.
pub const MIN_HANDLES: u64 = 2;

/// The most handles that are opened in the life of a queue, those that have closed too.
pub const MAX_SEATS: u64 = u64::MAX;

/// The number of grants and of those who wait for one at which nobody waits any more.
pub const LAST_GRANT: u64 = u64::MAX - 1;
