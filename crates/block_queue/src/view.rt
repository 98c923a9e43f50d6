//! What a seat of a queue knows. No value of a stage or a view is ever made: contracts alone see
//! them, and they take no memory.
use crate::entry::Entry;
use histories::Account;
use std::collections::LinkedList;
use sync_base::Piece;

/// What is fixed when a queue is made.
#[derive(Clone, Copy, Drop)]
pub struct Key {
    /// How many blocks the queue may have.
    pub limit: u64,
    /// The first write has the number `first` + 1.
    pub first: u64,
    pub writers: u64,
}

/// Where a seat is between two steps.
pub enum Stage {
    Free,
    /// A put found the queue not hung up, with this many writes accepted.
    Counted(u64),
    /// It then found the place of the next write free.
    Placed(u64),
    /// Its write was accepted, after `count` others, and it has the slot of its place.
    Storing {
        count: u64,
        writer: u64,
        block: Piece,
    },
    /// A take found that the queue has not ended; and whether a block was left.
    Looking(bool),
    /// It has the slot of the next block.
    Moving {
        writer: u64,
        block: Piece,
    },
}

/// What a seat knows.
pub struct View {
    pub account: Account<Entry>,
    /// How many blocks the reader has taken out.
    pub taken: u64,
    pub stage: Stage,
    /// What each seat that was joined into this one had seen, and what this one had seen before
    /// each join.
    pub pasts: LinkedList<LinkedList<Entry>>,
}
