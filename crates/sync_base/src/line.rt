//! The line of a processor's cache.

/// How many words a line has: 64 bytes, which a core takes from another at once. Where it pays,
/// words that threads use at the same time lie on lines of their own, so that no thread takes from
/// another a word that it does not want.
pub const LINE: u64 = 8;
