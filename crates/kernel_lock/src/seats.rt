//! How a lock gives seats and joins them.
ghost use Rattle.std.specs.Prelude.{◌≡◌, ◌≤◌, IfSome, IfNone, IfOk, IfErr, OnErr};
ghost use Rattle.sync_base.specs.declared.fault.Fault.TheVariants.{NoProc};
ghost use Rattle.histories.specs.Account.{KnowsHistory};
ghost use Rattle.kernel_lock.specs.Calls.{GivesSeat, RefusesSeat};
ghost use Rattle.kernel_lock.specs.Definition.{meaning_of};
ghost use Rattle.kernel_lock.specs.Seats.{
  IsSeatOf,
  Splits,
  KnowsAllGiven,
  Joins,
  SeesHistory,
  limit_of,
  opening_of,
  view_of,
};
ghost use Rattle.kernel_lock.specs.Steppers.{IsChild, IsStepperOf, IsOutside, IsSameStepper};
ghost use Rattle.kernel_lock.specs.Steps.{KeepsObject, IsInsideWith};
ghost use Rattle.kernel_lock.specs.View.{HasOwn};

use crate::lock_seat::LockSeat;
use crate::locked::Locked;
use crate::object::Object;
use crate::rule::Stepper;
use std::marker::Brand;
use std::sync::Wait;
use sync_base::Fault;

impl<O: Object> Locked<O> {
    /// Gives a seat with the next number.
    /// It answers `NoProc` where the lock has given all its seats.
    pub fn split<R: Wait>(&self, rt: &R, seat: &mut LockSeat<O>) -> Result<LockSeat<O>, Fault>
        requires { IsSeatOf self.now seat.old }
        ensures seat { IsSeatOf self.now seat.new }
        ensures history { SeesHistory O.definition self.now seat.new }

        // The child has the next number, which its parent gave. It has seen what its parent has,
        // and has made no request.
        ensures child { IfOk result (IsSeatOf self.now) }
        ensures child_history { IfOk result (SeesHistory O.definition self.now) }
        ensures given { IfOk result (Splits self.now seat.old seat.new) }

        // The next number is the limit.
        ensures fault { IfErr result (λ fault. fault ≡ NoProc) }
        ensures refused { OnErr result (KnowsAllGiven self.now seat.old seat.new) }
    {
        let mut stepper = seat.take_token();
        let child = self.divide_in_turn(rt, &mut stepper);
        seat.put_token(stepper);
        child.ok_or(Fault::NoProc)
    }

    // Takes the lock, divides the seat where another one may be given, and gives the lock back.
    fn divide_in_turn<R: Wait>(&self, rt: &R, stepper: &mut Stepper<O>) -> Option<LockSeat<O>>
        requires stepper { IsStepperOf self.now stepper.old }
        requires outside { IsOutside stepper.old }
        requires own { HasOwn stepper.old.me.0 }
        ensures stepper { IsStepperOf self.now stepper.new }
        ensures outside { IsOutside stepper.new }
        ensures history { KnowsHistory (meaning_of O.definition) (opening_of O.definition self.now)
            (limit_of self.now) stepper.new.me.0.account }
        ensures child { IfSome result (IsSeatOf self.now) }
        ensures child_history { IfSome result (SeesHistory O.definition self.now) }
        ensures given { IfSome result (λ child.
            GivesSeat (limit_of self.now) stepper.old.me.0 stepper.new.me.0 (view_of child)) }
        ensures refused { IfNone result
            (RefusesSeat (limit_of self.now) stepper.old.me.0 stepper.new.me.0) }
    {
        self.take(rt, stepper);
        let child = self.next_seat(stepper);
        self.give::<Brand>(stepper);
        child
    }

    // Divides the seat that is inside, where another one may be given.
    fn next_seat(&self, stepper: &mut Stepper<O>) -> Option<LockSeat<O>>
        requires stepper { IsStepperOf self.now stepper.old }
        requires inside { IsInsideWith stepper.old.me }
        requires own { HasOwn stepper.old.me.0 }
        ensures stepper { IsSameStepper stepper.old stepper.new }
        ensures object { KeepsObject stepper.old.me stepper.new.me }
        ensures child { IfSome result
            (IsChild self.now stepper.old.me.0 stepper.new.me.0) }
        ensures full { IfNone result (limit_of self.now ≤ stepper.old.me.0.given) }
        ensures refused { IfNone result (stepper.new.me.0 ≡ stepper.old.me.0) }
    {
        let next = self.read_next(stepper);
        if next >= self.limit {
            return None;
        }
        let child = self.divide(stepper);
        self.write_next(stepper, next + 1);
        Some(LockSeat {
            badge: child.into_badge(),
            number: next,
        })
    }

    /// Makes one seat of two: it has the numbers of both, and the first seat's own number as its
    /// own.
    pub fn join(&self, first: LockSeat<O>, second: LockSeat<O>) -> LockSeat<O>
        requires first { IsSeatOf self.now first }
        requires second { IsSeatOf self.now second }
        ensures seat { IsSeatOf self.now result }
        ensures joined { Joins first second result }
        ensures history { SeesHistory O.definition self.now result }
    {
        let LockSeat { badge, number } = first;
        let LockSeat {
            badge: other,
            number: _,
        } = second;
        let mut stepper = badge.into_seat();
        self.merge(&mut stepper, other.into_seat());
        LockSeat {
            badge: stepper.into_badge(),
            number,
        }
    }
}
