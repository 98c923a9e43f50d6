//! The limit of a tag space.

/// The last count of meetings. A member with this count can still find another member, but waits no
/// more.
pub const LAST_MEETING: u64 = u64::MAX - 1;
