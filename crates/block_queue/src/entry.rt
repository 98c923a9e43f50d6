//! The lines of a queue's history. No entry is ever made: contracts alone see them, and they take
//! no memory.
use sync_base::Piece;

/// What one call did, as an entry of a queue's history. The reader is seat 0, and writer w is seat
/// w + 1.
pub enum Entry {
    /// A put was accepted, and the write has this number.
    Taken {
        writer: u64,
        block: Piece,
        number: u64,
    },
    /// The put of the write with this number has returned.
    Stood {
        writer: u64,
        number: u64,
    },
    /// A put found no room, and the last block that was taken out had this number.
    Full {
        writer: u64,
        block: Piece,
        number: u64,
    },
    /// A put found the queue hung up.
    Hungup {
        writer: u64,
        block: Piece,
    },
    /// A put found that the last number was given.
    Worn {
        writer: u64,
        block: Piece,
    },
    /// A take gave the block of this writer, and the write has this number.
    Block {
        writer: u64,
        block: Piece,
        number: u64,
    },
    /// A take found no block to give, and the last block that was taken out had this number.
    NotYet {
        number: u64,
    },
    /// A take found that all blocks are taken out and no more will come.
    End,
    /// The queue was hung up.
    Hung {
        seat: u64,
    },
}
