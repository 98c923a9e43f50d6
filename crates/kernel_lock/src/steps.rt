//! The kinds of step on a lock's word and slot, a function each. All orderings are the table's. The
//! comment above each step has the seat before and after it, and why the rule stays.
ghost use Rattle.std.specs.Prelude.{◌≡◌, ◌<◌, [], ◌∷◌, None, Some};
ghost use Rattle.std.specs.Bool.{OnTrue, OnFalse};
ghost use Rattle.kernel_lock.specs.declared.view.Stage.TheVariants.{Inside};
ghost use Rattle.kernel_lock.specs.Seats.{limit_of};
ghost use Rattle.kernel_lock.specs.Steppers.{IsStepperOf, IsOutside, IsSameStepper};
ghost use Rattle.kernel_lock.specs.Steps.{TakesLock, HasDivided, IsDue, HasReleased};
ghost use Rattle.kernel_lock.specs.Steps.{HasMerged, HasOnly, HasEntered};
ghost use Rattle.kernel_lock.specs.View.{HasOwn};

use crate::locked::Locked;
use crate::object::Object;
use crate::plays::{Acquire, Divide, Enter, Made, Merge, Poll, Release, Settle};
use crate::rule::Stepper;
use crate::view::Guarded;
use crate::waiters::GivenBack;

const WORD: usize = 0;

/// The slot in which the object lies.
pub(crate) const SLOT: usize = 0;

pub(crate) const FREE: u64 = 0;

const TAKEN: u64 = 1;

impl<O: Object> Locked<O> {
    /// Takes the lock where it is free, and says whether it was.
    // Step Acquire: compare_exchange of the word from 0 to 1. The slot is then the seat's.
    // Seat: Outside, then Inside with the history; as it was where the word was not 0.
    // Keeps the rule: where the word is 0 no seat is inside.
    pub(crate) fn acquire(&self, stepper: &mut Stepper<O>) -> bool
        requires { IsStepperOf self.now stepper.old }
        ensures stepper { IsSameStepper stepper.old stepper.new }
        ensures free { OnTrue result (TakesLock O.definition stepper.old.me stepper.new.me) }
        ensures taken { OnFalse result (stepper.new.me ≡ stepper.old.me) }
    {
        let words = &self.table.shared;
        let found = words.compare_exchange::<Acquire<O>>(stepper, WORD, FREE, TAKEN);
        found == FREE
    }

    /// The word, which is `FREE` where the lock is.
    // Step Poll: load of the word. Seat: as it was. Keeps the rule: nothing changes.
    pub(crate) fn poll(&self, stepper: &mut Stepper<O>) -> u64
        requires { IsStepperOf self.now stepper.old }
        ensures stepper { IsSameStepper stepper.old stepper.new }
        ensures same { stepper.new.me ≡ stepper.old.me }
    {
        self.table.shared.load::<Poll>(stepper, WORD)
    }

    /// Takes the object out of the slot.
    // Step TakeOut: exchange of the slot, which is the seat's, as plain memory. Seat: as it was.
    // Keeps the rule: it speaks of the object only where it is at home.
    pub(crate) fn take_out(&self, stepper: &mut Stepper<O>) -> Guarded<O>
        requires stepper { IsStepperOf self.now stepper.old }
        requires full { HasOnly stepper.old.me }
        ensures stepper { IsSameStepper stepper.old stepper.new }
        ensures value { stepper.old.me.1 ≡ (0, Some result) ∷ [] }
        ensures seat { stepper.new.me ≡ (stepper.old.me.0, (0, None) ∷ []) }
    {
        self.table.shared.exchange(stepper, SLOT, None).unwrap()
    }

    /// Says which number the next seat gets.
    // Step ReadNext: read of the slot in its place, as plain memory. Seat: as it was.
    // Keeps the rule: nothing changes.
    pub(crate) fn read_next(&self, stepper: &mut Stepper<O>) -> u64
        requires stepper { IsStepperOf self.now stepper.old }
        requires full { HasOnly stepper.old.me }
        ensures stepper { IsSameStepper stepper.old stepper.new }
        ensures same { stepper.new.me ≡ stepper.old.me }
        ensures next { (guarded : _) → stepper.old.me.1 ≡ (0, Some guarded) ∷ [] →
            result ≡ guarded.next }
    {
        match stepper.slot_mut(&self.table.shared, SLOT) {
            Some(guarded) => guarded.next,
            None => unreachable!(),
        }
    }

    /// Writes down which number the next seat gets.
    // Step WriteNext: write of the slot in its place, as plain memory. Seat: as it was.
    // Keeps the rule: it speaks of the next number only where the object is at home.
    pub(crate) fn write_next(&self, stepper: &mut Stepper<O>, next: u64)
        requires stepper { IsStepperOf self.now stepper.old }
        requires full { HasOnly stepper.old.me }
        ensures stepper { IsSameStepper stepper.old stepper.new }
        ensures counted { (guarded : _) → stepper.old.me.1 ≡ (0, Some guarded) ∷ [] →
            stepper.new.me ≡ (
              stepper.old.me.0,
              (0, Some record { object = guarded.object; next = next }) ∷ [],
            ) }
    {
        match stepper.slot_mut(&self.table.shared, SLOT) {
            Some(guarded) => guarded.next = next,
            None => unreachable!(),
        }
    }

    /// Gives the lock back.
    // Step Release: store of 0 to the word. The slot is at home again.
    // Seat: Inside, then Outside; where a request was served, it has seen the history with that.
    // Keeps the rule: the object is what the history and that request leave,
    // and no other seat was inside.
    pub(crate) fn release<M: Made<O::Call, O::Reply>>(&self, stepper: &mut Stepper<O>) -> GivenBack
        requires stepper { IsStepperOf self.now stepper.old }
        requires due { IsDue O.definition self.now.table.shared.key M.served stepper.old.me }
        ensures stepper { IsSameStepper stepper.old stepper.new }
        ensures released { HasReleased M.served stepper.old.me stepper.new.me }
    {
        self.table.shared.store::<Release<M>>(stepper, WORD, FREE);
        GivenBack::by(stepper)
    }

    /// Writes the request that was served into the history, and keeps the lock.
    // Step Enter: load of the word. The slot is the seat's, before and after.
    // Seat: Inside, and after it Inside with the history and that request, which it has seen.
    // Keeps the rule: the request was answered right, the history is legal with it,
    // and no other seat is inside.
    pub(crate) fn enter<M: Made<O::Call, O::Reply>>(&self, stepper: &mut Stepper<O>)
        requires stepper { IsStepperOf self.now stepper.old }
        requires due { IsDue O.definition self.now.table.shared.key M.served stepper.old.me }
        ensures stepper { IsSameStepper stepper.old stepper.new }
        ensures entered { HasEntered O.definition M.served stepper.old.me stepper.new.me }
    {
        self.table.shared.load::<Enter<O, M>>(stepper, WORD);
    }

    /// Gives a seat with the next number.
    // Step Divide: split of a seat that is inside, a load of the word.
    // Seat: Inside, and it gave the next number. The new seat is Outside, with that number.
    // Keeps the rule: the number is the next one, which no seat has, its parent tells of it,
    // and the history has no request by it.
    pub(crate) fn divide(&self, stepper: &mut Stepper<O>) -> Stepper<O>
        requires stepper { IsStepperOf self.now stepper.old }
        requires inside { (history : _) × (stepper.old.me.0.stage ≡ Inside history) }
        requires room { stepper.old.me.0.given < limit_of self.now }
        requires own { HasOwn stepper.old.me.0 }
        ensures stepper { IsSameStepper stepper.old stepper.new }
        ensures divided { HasDivided stepper.old.me stepper.new.me result.me }
        ensures table { result.table_id ≡ stepper.old.table_id }
    {
        self.table.shared.split_seat::<Divide>(stepper)
    }

    /// Makes one seat of two.
    // Step Merge: join of two seats, a load of the word. Seat: Joining, with the numbers of both
    // and the longer of what they had seen. The other is spent.
    // Keeps the rule: both had seen a past of one history, so the shorter is a past of the longer.
    // Step Settle: load of the word. Seat: Outside, and it knows how the two compare.
    // Keeps the rule: nothing changes.
    pub(crate) fn merge(&self, stepper: &mut Stepper<O>, other: Stepper<O>)
        requires stepper { IsStepperOf self.now stepper.old }
        requires outside { IsOutside stepper.old }
        requires other { IsStepperOf self.now other }
        requires other_outside { IsOutside other }
        ensures stepper { IsSameStepper stepper.old stepper.new }
        ensures merged { HasMerged O.definition self.now.table.shared.key
            stepper.old.me.0 other.me.0 stepper.new.me.0 }
        ensures no_slot { stepper.new.me.1 ≡ [] }
    {
        let words = &self.table.shared;
        words.join_seat::<Merge>(stepper, other);
        words.load::<Settle<O>>(stepper, WORD);
    }
}
