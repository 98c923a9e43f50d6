//! A block in the object and in the ring, and in what is left of a queue.
use std::marker::Model;
use sync_base::Piece;

/// A block in a queue, and the number of its writer.
#[derive(Drop)]
pub struct StoredBlock {
    /// The number of its writer, from 0 on.
    pub writer: u64,
    /// Its bytes, whole.
    pub block: Piece,
}

impl Model for StoredBlock {
    ghost use Rattle.sync_base.specs.Write.{Write};

    ghost Value = { Write };

    ghost view = { λ stored. record { writer = stored.writer; bytes = stored.block } };
}
