//! The ring.
ghost use Rattle.std.specs.Prelude.{◌≡◌, ◌<◌, ◌≤◌};
ghost use Rattle.sync_base.specs.declared.limits.TheConstants.{
  LAST_WRITE,
  MAX_PIPE_LIMIT,
  MAX_WRITERS,
};
ghost use Rattle.block_queue.specs.Places.{ring_words};

use crate::rule::QueueTable;
use crate::view::Key;

/// A bounded queue of blocks with hangup, without a lock. Writers put blocks, and one reader takes
/// them out, each with a seat of its own.
#[derive(Drop)]
pub struct Queue {
    pub(crate) table: QueueTable,
    pub(crate) key: Key,
    ghost keyed: { key ≡ table.shared.key },
    ghost words: { table.shared.table_id.words ≡ ring_words key.limit },
    ghost slots: { table.shared.table_id.slots ≡ key.limit },
    ghost some_room: { 0 < key.limit },
    ghost limited: { key.limit ≤ MAX_PIPE_LIMIT },
    ghost first: { key.first ≤ LAST_WRITE },
    ghost writers: { key.writers ≤ MAX_WRITERS },
}
