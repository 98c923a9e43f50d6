//! What a seat knows, and what lies in the slot of the lock. No value of a served request, a stage
//! or a view is ever made: contracts alone see them, and they take no memory.
use histories::Account;
use std::collections::LinkedList;
use std::snapshot::Snapshot;

/// One request in the history of an object.
pub struct Operation<Q, R> {
    /// The number of the seat that made the request.
    pub by: u64,
    pub request: Q,
    pub reply: R,
}

/// Where a seat is between two steps.
pub enum Stage<Q, R> {
    Outside,
    /// It has taken the lock, and this is the history.
    Inside(LinkedList<Operation<Q, R>>),
    /// It was joined with a seat that had seen this history.
    Joining(LinkedList<Operation<Q, R>>),
}

/// What is fixed when a lock is made.
#[derive(Drop)]
pub struct Key<O> {
    pub opening: Snapshot<O>,
    /// How many seats the lock may give.
    pub limit: u64,
}

/// What a seat knows.
pub struct View<O, Q, R> {
    /// The key of its lock, or `None` where the seat was spent in a join.
    pub key: Option<Key<O>>,
    /// Its numbers with their requests, what it has seen, and the numbers that it gave.
    pub account: Account<Operation<Q, R>>,
    /// How many seats it knows to have been given: the numbers below this one.
    pub given: u64,
    pub stage: Stage<Q, R>,
}

/// What the lock guards, in the slot.
#[derive(Drop)]
pub struct Guarded<O> {
    pub object: O,
    /// The number of the next seat.
    pub next: u64,
}
