//! The steps of a put, a function each. The comment above each step has the seat before and after
//! it, and why the rule stays. All orderings are the table's.
ghost use Rattle.std.specs.Prelude.{◌≡◌, ◌+◌, ◌<◌, [], ◌∷◌, None, Some, IsTrue};
ghost use Rattle.std.specs.Bool.{OnTrue, OnFalse};
ghost use Rattle.histories.specs.Account.{has_number};
ghost use Rattle.block_queue.specs.declared.view.Stage.TheVariants.{
  Free,
  Counted,
  Placed,
  Storing,
};
ghost use Rattle.block_queue.specs.Places.{place_of, free_word};
ghost use Rattle.block_queue.specs.Seats.{IsStepperOf, IsSameStepper, asks};
ghost use Rattle.block_queue.specs.Steps.{HasPutTail, HasPutSequence, HasAccepted, HasStored};
ghost use Rattle.sync_base.specs.declared.limits.TheConstants.{LAST_WRITE};

use crate::places::{TAIL, place, sequence, stored};
use crate::plays::{Accept, Asks, PutSequence, PutTail, Store};
use crate::queue::Queue;
use crate::rule::Stepper;
use crate::spare::{Slot, Spare};
use crate::stored_block::StoredBlock;
use std::snapshot::Snapshot;
use sync_base::Piece;

impl Queue {
    /// Reads how many writes were accepted, with the mark of a hangup.
    // Step PutTail: load of the tail.
    // Seat: Free, then Free with the entry Hungup or Worn, or Counted.
    // Keeps the rule: the history gains at most a refusal, which changes no word.
    pub(crate) fn put_tail<M: Asks>(&self, seat: &mut Stepper, _writer: u64, _block: &Piece) -> u64
        requires seat { IsStepperOf self.now seat.old (_writer + 1) }
        requires asked { M.asked ≡ asks self.now 0
            (record { writer = _writer; bytes = _block.now }) }
        requires stage { seat.old.me.0.stage ≡ Free }
        ensures seat { IsSameStepper seat.old seat.new }
        ensures told { HasPutTail M.asked seat.old.me result seat.new.me }
    {
        self.table.shared.load::<PutTail<M>>(seat, TAIL)
    }

    /// Reads whether the place of the next write is free.
    // Step PutSequence: load of the sequence word of its place.
    // Seat: Counted, then Placed; or Free with the entry Full; or Free, to begin again.
    // Keeps the rule: the history gains at most a refusal, which changes no word.
    pub(crate) fn put_sequence<M: Asks>(
        &self,
        seat: &mut Stepper,
        _writer: u64,
        _block: &Piece,
        count: u64,
    ) -> u64
        requires seat { IsStepperOf self.now seat.old (_writer + 1) }
        requires asked { M.asked ≡ asks self.now count
            (record { writer = _writer; bytes = _block.now }) }
        requires stage { seat.old.me.0.stage ≡ Counted count }
        ensures seat { IsSameStepper seat.old seat.new }
        ensures told { HasPutSequence M.asked seat.old.me result seat.new.me }
    {
        let word = sequence(place(self.key.limit, count));
        self.table.shared.load::<PutSequence<M>>(seat, word)
    }

    /// Claims the place, and with it the number of the write. Returns what the tail was.
    // Step Accept: compare_exchange of the tail from the count to one more. Where it succeeds the
    // slot of the place is the seat's.
    // Seat: Placed, then Storing, with the entry Taken; or Free, to begin again.
    // Keeps the rule: the tail had no mark, so the queue is not hung up, and there is room.
    pub(crate) fn accept<M: Asks>(
        &self,
        seat: &mut Stepper,
        _writer: u64,
        _block: &Piece,
        count: u64,
    ) -> u64
        requires seat { IsStepperOf self.now seat.old (_writer + 1) }
        requires asked { M.asked ≡ asks self.now count
            (record { writer = _writer; bytes = _block.now }) }
        requires stage { seat.old.me.0.stage ≡ Placed count }
        requires small { count < LAST_WRITE }
        ensures seat { IsSameStepper seat.old seat.new }
        ensures told { HasAccepted M.asked seat.old.me result seat.new.me }
    {
        self.table
            .shared
            .compare_exchange::<Accept<M>>(seat, TAIL, count, count + 1)
    }

    /// Puts the block into the slot of its place, and takes out the memory that lay there.
    // Exchange of the slot, which is the seat's, as plain memory. Seat: as it was.
    pub(crate) fn move_in(&self, seat: &mut Stepper, count: u64, block: StoredBlock) -> Spare
        requires seat { seat.old.table_id ≡ self.now.table.shared.table_id }
        requires empty { seat.old.me.1 ≡ (place_of self.now.key.limit count, None) ∷ [] }
        ensures seat { IsSameStepper seat.old seat.new }
        ensures moved { seat.new.me ≡
            (seat.old.me.0, (place_of self.now.key.limit count, Some block) ∷ []) }
    {
        let slot = place(self.key.limit, count);
        self.table
            .shared
            .exchange(seat, slot, Slot::storing(block))
            .into_spare()
    }

    /// Writes into the sequence word of the place that the block stands.
    // Step Store: store of the sequence word of its place. The slot is at home again.
    // Seat: Storing, then Free with the entry Stood.
    // Keeps the rule: no read has begun the write, and its block lies in the slot.
    pub(crate) fn store<M: Asks>(
        &self,
        seat: &mut Stepper,
        _writer: u64,
        _block: &Snapshot<Piece>,
        count: u64,
    )
        requires seat { IsStepperOf self.now seat.old (_writer + 1) }
        requires asked { M.asked ≡ asks self.now count
            (record { writer = _writer; bytes = _block.now.value }) }
        requires stage { seat.old.me.0.stage ≡ Storing count _writer _block.now.value }
        requires small { count < LAST_WRITE }
        requires slot { seat.old.me.1 ≡ (
          place_of self.now.key.limit count,
          Some (record { writer = _writer; bytes = _block.now.value }),
        ) ∷ [] }
        ensures seat { IsSameStepper seat.old seat.new }
        ensures told { HasStored M.asked seat.old.me seat.new.me }
    {
        let word = sequence(place(self.key.limit, count));
        let full = stored(self.key.limit, count);
        self.table.shared.store::<Store<M>>(seat, word, full);
    }
}
