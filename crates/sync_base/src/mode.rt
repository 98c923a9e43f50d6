//! Whether a read stops at the end of a write.

/// How a direction of a pipe is read.
#[derive(Clone, Copy, Debug, PartialEq, Eq)]
pub enum Mode {
    /// Messages: a read stops at the end of a write.
    Message,
    /// A stream: a read goes on from write to write, and passes the empty ones that it meets.
    Stream,
}
