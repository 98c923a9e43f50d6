//! The steps of a take and of a hangup, a function each. The comment above each step has the seat
//! before and after it, and why the rule stays.
ghost use Rattle.std.specs.Prelude.{◌≡◌, ◌+◌, ◌<◌, ◌^◌, [], ◌∷◌, None, Some};
ghost use Rattle.block_queue.specs.declared.view.Stage.TheVariants.{Free, Moving};
ghost use Rattle.block_queue.specs.Places.{place_of};
ghost use Rattle.block_queue.specs.Rule.{IsStageLooking};
ghost use Rattle.block_queue.specs.Seats.{IsStepperOf, IsSameStepper, asks, no_write};
ghost use Rattle.block_queue.specs.Steps.{HasTakeReady, HasTakeTail, HasTakeSequence};
ghost use Rattle.block_queue.specs.Steps.{HasFreed, HasHung};

use crate::places::{MARK, TAIL, place, sequence, stored};
use crate::plays::{Asks, FreePlace, Hang, TakeReady, TakeSequence, TakeTail};
use crate::queue::Queue;
use crate::rule::Stepper;
use crate::spare::{Slot, Spare};
use crate::stored_block::StoredBlock;

impl Queue {
    /// Reads whether the next block stands, before the tail is asked why it does not.
    // Step TakeReady: load of the sequence word of its place. Where the block stands the slot is
    // the seat's.
    // Seat: Free, then Moving; or as it was.
    // Keeps the rule: no word changes, and the history gains nothing.
    pub(crate) fn take_ready<M: Asks>(&self, seat: &mut Stepper, taken: u64) -> u64
        requires seat { IsStepperOf self.now seat.old 0 }
        requires asked { M.asked ≡ asks self.now 0 no_write }
        requires stage { seat.old.me.0.stage ≡ Free }
        requires taken { taken ≡ seat.old.me.0.taken }
        ensures seat { IsSameStepper seat.old seat.new }
        ensures told { HasTakeReady self.now.key seat.old.me result seat.new.me }
    {
        let word = sequence(place(self.key.limit, taken));
        self.table.shared.load::<TakeReady<M>>(seat, word)
    }

    /// Reads whether the queue has ended.
    // Step TakeTail: load of the tail.
    // Seat: Free, then Free with the entry End, or Looking.
    // Keeps the rule: the history gains at most a refusal, which changes no word.
    pub(crate) fn take_tail<M: Asks>(&self, seat: &mut Stepper) -> u64
        requires seat { IsStepperOf self.now seat.old 0 }
        requires asked { M.asked ≡ asks self.now 0 no_write }
        requires stage { seat.old.me.0.stage ≡ Free }
        ensures seat { IsSameStepper seat.old seat.new }
        ensures told { HasTakeTail self.now.key seat.old.me result seat.new.me }
    {
        self.table.shared.load::<TakeTail<M>>(seat, TAIL)
    }

    /// Reads whether the next block stands.
    // Step TakeSequence: load of the sequence word of its place. Where the block stands the slot
    // is the seat's.
    // Seat: Looking, then Free with the entry NotYet, or Moving.
    // Keeps the rule: the history gains at most a refusal, which changes no word.
    pub(crate) fn take_sequence<M: Asks>(&self, seat: &mut Stepper, taken: u64) -> u64
        requires seat { IsStepperOf self.now seat.old 0 }
        requires asked { M.asked ≡ asks self.now 0 no_write }
        requires stage { IsStageLooking seat.old.me.0.stage }
        requires taken { taken ≡ seat.old.me.0.taken }
        ensures seat { IsSameStepper seat.old seat.new }
        ensures told { HasTakeSequence self.now.key seat.old.me result seat.new.me }
    {
        let word = sequence(place(self.key.limit, taken));
        self.table.shared.load::<TakeSequence<M>>(seat, word)
    }

    /// Takes the block out of the slot of its place, and leaves this memory there.
    // Exchange of the slot, which is the seat's, as plain memory. Seat: as it was.
    pub(crate) fn move_out(&self, seat: &mut Stepper, taken: u64, spare: Spare) -> StoredBlock
        requires seat { seat.old.table_id ≡ self.now.table.shared.table_id }
        requires full { (write : _) ×
            (seat.old.me.1 ≡ (place_of self.now.key.limit taken, Some write) ∷ []) }
        ensures seat { IsSameStepper seat.old seat.new }
        ensures value { seat.old.me.1 ≡ (place_of self.now.key.limit taken, Some result) ∷ [] }
        ensures moved { seat.new.me ≡
            (seat.old.me.0, (place_of self.now.key.limit taken, None) ∷ []) }
    {
        let slot = place(self.key.limit, taken);
        self.table
            .shared
            .exchange(seat, slot, Slot::empty(spare))
            .into_stored()
            .unwrap()
    }

    /// Frees the place for the next lap.
    // Step FreePlace: store of the sequence word of its place. The slot is at home again.
    // Seat: Moving, then Free with the entry Block.
    // Keeps the rule: the place is the one of the write a lap later, which no put has taken.
    pub(crate) fn free_place<M: Asks>(&self, seat: &mut Stepper, taken: u64, _block: &StoredBlock)
        requires seat { IsStepperOf self.now seat.old 0 }
        requires asked { M.asked ≡ asks self.now 0 _block.now }
        requires stage { seat.old.me.0.stage ≡ Moving _block.now.writer _block.now.bytes }
        requires taken { taken ≡ seat.old.me.0.taken }
        requires small { taken < 2 ^ 62 }
        requires slot { seat.old.me.1 ≡ (place_of self.now.key.limit taken, None) ∷ [] }
        ensures seat { IsSameStepper seat.old seat.new }
        ensures told { HasFreed self.now.key _block.now seat.old.me seat.new.me }
    {
        let word = sequence(place(self.key.limit, taken));
        let next = stored(self.key.limit, taken) + 1;
        self.table.shared.store::<FreePlace<M>>(seat, word, next);
    }

    /// Hangs the queue up.
    // Step Hang: fetch_or of the mark on the tail.
    // Seat: Free, then Free with the entry Hung.
    // Keeps the rule: the tail has the mark where the history has a hangup.
    pub(crate) fn hang_up<M: Asks>(&self, seat: &mut Stepper, _number: u64)
        requires seat { IsStepperOf self.now seat.old _number }
        requires number { _number ≡ seat.old.me.0.account.number }
        requires asked { M.asked ≡ asks self.now 0 no_write }
        requires stage { seat.old.me.0.stage ≡ Free }
        ensures seat { IsSameStepper seat.old seat.new }
        ensures told { HasHung self.now.key seat.old.me seat.new.me }
    {
        self.table.shared.fetch_or::<Hang<M>>(seat, TAIL, MARK);
    }
}
