//! The limits of a semaphore.

/// The greatest value of a semaphore. The least is 0.
pub const MAX_VALUE: u32 = 2_147_483_647;

/// The count of grants at which a seat can wait no more.
pub const LAST_GRANT: u64 = u64::MAX - 1;
