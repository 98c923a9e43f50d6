//! Memory that comes back, and the contents of a slot of the ring. A reader leaves the memory of a
//! block that it has read in a slot, where a writer finds it.
use crate::stored_block::StoredBlock;
use std::alloc::Global;
use std::marker::Model;
use sync_base::Piece;

/// The memory of a block that nobody needs, or none. No contract sees which.
#[derive(Drop)]
pub struct Spare {
    bytes: Option<Vec<u8>>,
}

impl Model for Spare {
    ghost use Rattle.std.specs.Prelude.{⊤};

    ghost Value = { ⊤ };

    ghost view = { λ _. tt };
}

impl Spare {
    ghost use Rattle.std.specs.Prelude.{◌≡◌, [], IfOk};

    /// No memory.
    pub fn none() -> Spare {
        Spare { bytes: None }
    }

    /// The memory of this block.
    pub fn of(block: Piece) -> Spare {
        Spare {
            bytes: Some(block.into_vec()),
        }
    }

    /// A block of these bytes, in this memory. It takes more memory only where this is too small,
    /// and then just as much as it needs. Where the system refuses, the memory comes back.
    pub fn filled(self, alloc: Global, bytes: &[u8]) -> Result<Piece, Spare>
        ensures { IfOk result (λ block. block ≡ bytes.now) }
    {
        let mut block = self.emptied(alloc);
        if block.reserve_exact(bytes.len()).is_ok() && block.extend_from_slice(bytes).is_ok() {
            Ok(Piece::of(block))
        } else {
            Err(Spare { bytes: Some(block) })
        }
    }

    // The memory, with no bytes in it.
    fn emptied(self, alloc: Global) -> Vec<u8>
        ensures { result.items ≡ [] }
    {
        match self.bytes {
            Some(mut bytes) => {
                bytes.clear();
                bytes
            }
            None => Vec::new(alloc),
        }
    }

    /// Takes the memory out.
    pub fn take(&mut self) -> Spare {
        Spare {
            bytes: self.bytes.take(),
        }
    }

    /// Keeps that memory, where there is some. Memory that was kept before is given back.
    pub fn keep(&mut self, spare: Spare) {
        if spare.bytes.is_some() {
            self.bytes = spare.bytes;
        }
    }

    /// Gives the memory back.
    pub(crate) fn free(self) {}
}

/// The contents of a slot: a block, or the memory of a block.
#[derive(Drop)]
pub struct Slot {
    kept: Payload,
}

// One of the two, so that as few bytes as can be change hands.
#[derive(Drop)]
pub(crate) enum Payload {
    Block(StoredBlock),
    Memory(Spare),
}

impl Model for Slot {
    ghost use Rattle.std.specs.Prelude.{Option};
    ghost use Rattle.sync_base.specs.Write.{Write};
    ghost use Rattle.block_queue.specs.Slots.{block_in};

    ghost Value = { Option Write };

    ghost view = { λ slot. block_in slot.kept };
}

impl Slot {
    ghost use Rattle.std.specs.Prelude.{◌≡◌, None, Some};

    /// A slot with a block.
    pub(crate) fn storing(block: StoredBlock) -> Slot
        ensures { result ≡ Some block }
    {
        Slot {
            kept: Payload::Block(block),
        }
    }

    /// A slot with no block, which keeps this memory.
    pub(crate) fn empty(spare: Spare) -> Slot
        ensures { result ≡ None }
    {
        Slot {
            kept: Payload::Memory(spare),
        }
    }

    /// Its block.
    pub(crate) fn into_stored(self) -> Option<StoredBlock>
        ensures { result ≡ self }
    {
        let Slot { kept } = self;
        match kept {
            Payload::Block(block) => Some(block),
            Payload::Memory(_) => None,
        }
    }

    /// The memory that it keeps.
    pub(crate) fn into_spare(self) -> Spare {
        let Slot { kept } = self;
        match kept {
            Payload::Block(_) => Spare::none(),
            Payload::Memory(spare) => spare,
        }
    }
}
