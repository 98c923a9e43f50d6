//! What is left of a write that was taken out of the queue.
use block_queue::Spare;
use std::alloc::{AllocError, Global};
use std::marker::Model;
use std::mem;
use sync_base::Piece;

/// A write that was taken out, of which a part may have been read.
#[derive(Drop)]
pub struct Remainder {
    block: Piece,
    /// How many of its bytes were read.
    at: usize,
    writer: u64,
    /// How many writes were accepted before it.
    place: u64,
}

impl Model for Remainder {
    ghost use Rattle.std.specs.Prelude.{◌≤◌, length, drop};
    ghost use Rattle.pipe_dev.specs.Parts.{Part};

    ghost Value = { Part };

    ghost view = { λ begun. record {
      place = begun.place;
      writer = begun.writer;
      bytes = drop begun.at begun.block;
    } };

    ghost invariant = { λ begun. begun.at ≤ length begun.block };
}

/// What a read gave of a write, what is left, and the memory of the block where nothing is left.
#[derive(Drop)]
pub(crate) struct Delivery {
    pub(crate) count: usize,
    pub(crate) left: Option<Remainder>,
    pub(crate) spare: Spare,
}

impl Remainder {
    ghost use Rattle.std.specs.Prelude.{◌≡◌, ◌≢◌, ◌≤◌, ◌<◌, [], length, IfOk};
    ghost use Rattle.pipe_dev.specs.Filling.{IsFilledBy};
    ghost use Rattle.pipe_dev.specs.Parts.{part_of, rest_of};

    /// A write of which nothing was read.
    pub(crate) fn whole(block: Piece, writer: u64, place: u64) -> Remainder
        ensures { result ≡ record { place = place; writer = writer; bytes = block } }
    {
        Remainder {
            block,
            at: 0,
            writer,
            place,
        }
    }

    /// Fills the buffer as far as there are bytes. Each byte is copied once.
    pub(crate) fn give(self, buffer: &mut [u8]) -> Delivery
        ensures filled { IsFilledBy (part_of (length buffer.old) self).bytes buffer.old buffer.new
            result.count }
        ensures left { result.left ≡ rest_of (length buffer.old) self }
    {
        let Remainder {
            block,
            at,
            writer,
            place,
        } = self;
        let left = block.as_slice().len() - at;
        if left <= buffer.len() {
            buffer[..left].copy_from_slice(&block.as_slice()[at..]);
            Delivery {
                count: left,
                left: None,
                spare: Spare::of(block),
            }
        } else {
            let count = buffer.len();
            buffer.copy_from_slice(&block.as_slice()[at..at + count]);
            Delivery {
                count,
                left: Some(Remainder {
                    block,
                    at: at + count,
                    writer,
                    place,
                }),
                spare: Spare::none(),
            }
        }
    }

    /// Turns the block into the bytes that are left, and returns its old memory. Where a part was
    /// read, the bytes move to the front of their memory; else no byte moves.
    #[inline(always)]
    pub(crate) fn hand_over(self, block: &mut Vec<u8>) -> Spare
        ensures { block.new.items ≡ self.bytes }
    {
        let Remainder {
            block: piece,
            at,
            ..
        } = self;
        let mut bytes = piece.into_vec();
        bytes.drain(..at);
        Spare::of(Piece::of(mem::replace(block, bytes)))
    }

    /// The bytes that are left, in memory of their own.
    pub(crate) fn left(&self, alloc: Global) -> Result<Vec<u8>, AllocError>
        ensures { IfOk result (λ bytes. bytes.items ≡ self.now.bytes) }
    {
        Vec::from_slice(alloc, &self.block.as_slice()[self.at..])
    }
}
