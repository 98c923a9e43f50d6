//! What a pipe answers to a write and to a read. Faults aside, a call gives one of these.
use crate::piece::Piece;

/// The answer to a write.
#[derive(Clone, Copy, Debug, PartialEq, Eq)]
pub enum WriteAnswer {
    /// It was accepted, and comes after all that was accepted before.
    Taken,
    /// The direction holds as many writes that no read has begun as the limit allows.
    Full,
    /// The direction is hung up.
    Hungup,
}

/// The answer to a read.
#[derive(Debug, Drop)]
pub enum ReadAnswer {
    /// The next bytes: in message mode of one write, where an empty write gives an empty piece.
    Got(Piece),
    /// Nothing is left to be read.
    Empty,
    /// Nothing is left to be read, and the direction is hung up, so no more will come.
    End,
}

/// The answer to a read whose bytes are lent, not given.
#[derive(Clone, Copy)]
pub enum PeekAnswer<'a> {
    /// The next bytes: in message mode of one write, where an empty write lends none.
    Got(&'a [u8]),
    /// Nothing is left to be read.
    Empty,
    /// Nothing is left to be read, and the direction is hung up, so no more will come.
    End,
}
