//! The answers of a queue to its callers.
use sync_base::Piece;

/// The answer to a put. A block that was not taken comes back.
#[derive(Drop)]
pub enum PutAnswer {
    /// It was accepted, with this number.
    Taken(u64),
    /// The queue has as many blocks as it has room for. The number is that of the last block taken
    /// out.
    Full(Piece, u64),
    /// The queue is hung up.
    Hungup(Piece),
    /// The last number was given.
    Worn(Piece),
}

/// The answer to a take.
#[derive(Drop)]
pub enum TakeAnswer {
    /// The next block, the number of its writer, and the number of the write.
    Block(Piece, u64, u64),
    /// There is no block to give yet. The number is that of the last block taken out.
    NotYet(u64),
    /// All blocks are taken out and the queue is hung up, so no more will come.
    End,
}
