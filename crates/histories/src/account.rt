//! What a seat knows of the one history that all seats make together.
//! No value of an account or of a share is ever made: contracts alone see them,
//! and they take no memory.
use std::collections::LinkedList;

/// A number of a seat, with its entries.
pub struct Share<E> {
    pub number: u64,
    /// The entries by this number, newest first.
    pub mine: LinkedList<E>,
}

/// What a seat knows.
pub struct Account<E> {
    /// Its own number.
    pub number: u64,
    /// All its numbers.
    pub shares: LinkedList<Share<E>>,
    /// The history as far as it has seen it, newest first.
    pub seen: LinkedList<E>,
    /// The numbers that it gave.
    pub gave: LinkedList<u64>,
}
