//! A request to the object.
ghost use Rattle.std.specs.Prelude.{◌≡◌, IsTrue, IfSome};
ghost use Rattle.histories.specs.Account.{KnowsHistory, has_number};
ghost use Rattle.kernel_lock.specs.Calls.{Serves, ServesThen};
ghost use Rattle.kernel_lock.specs.Definition.{meaning_of};
ghost use Rattle.kernel_lock.specs.Seats.{IsSeatOf, NamesOwn, Applies, AppliesThen, SeesHistory};
ghost use Rattle.kernel_lock.specs.Seats.{limit_of, opening_of};
ghost use Rattle.kernel_lock.specs.Steppers.{IsStepperOf, IsOutside, IsSameStepper};
ghost use Rattle.kernel_lock.specs.Steps.{HasOnly, HasAnswered, IsDue, HasReleased, HasEntered};
ghost use Rattle.kernel_lock.specs.Steps.{Me, HasTaken, HasServed};

use crate::lock_seat::LockSeat;
use crate::locked::Locked;
use crate::object::{Answers, Follows, Object};
use crate::plays::Made;
use crate::rule::Stepper;
use crate::steps::SLOT;
use std::marker::Brand;
use std::snapshot::Snapshot;
use std::sync::Wait;

impl<O: Object> Locked<O> {
    /// Has the object answer the request, in its turn. The reply is what the object's definition
    /// gives in that state.
    pub fn apply<R: Wait>(&self, rt: &R, seat: &mut LockSeat<O>, request: O::Call) -> O::Reply
        requires seat { IsSeatOf self.now seat.old }
        requires named { NamesOwn O.definition seat.old request }
        ensures seat { IsSeatOf self.now seat.new }

        // The request ends what the seat has seen. All else that is new there is by other seats,
        // and where the seat has all numbers there is nothing else. No number is given.
        ensures served { Applies O.definition seat.old request result seat.new }

        // That is a legal history, so the reply is the definition's at its place.
        ensures history { SeesHistory O.definition self.now seat.new }
    {
        let by = O::caller(&request).unwrap_or(seat.number);
        let mut stepper = seat.take_token();
        let reply = self.serve(rt, &mut stepper, by, request);
        seat.put_token(stepper);
        reply
    }

    /// Has the object answer the request in its turn and, while it holds the lock, the request that
    /// follows that answer, if there is one. It takes the lock once.
    pub fn apply_then<R: Wait, F: Follows<O::Call, O::Reply>>(
        &self,
        rt: &R,
        seat: &mut LockSeat<O>,
        request: O::Call,
    ) -> Answers<O::Reply>
        requires seat { IsSeatOf self.now seat.old }
        requires named { NamesOwn O.definition seat.old request }
        requires next { (reply : _) → IfSome (F.follower reply) (NamesOwn O.definition seat.old) }
        ensures seat { IsSeatOf self.now seat.new }

        // Both are served as by two calls of apply, and no other request stands between them.
        ensures served { AppliesThen O.definition self.now seat.old request result.first
            (F.follower result.first) result.second seat.new }

        // What the seat has seen is a legal history.
        ensures history { SeesHistory O.definition self.now seat.new }
    {
        let own = seat.number;
        let by = O::caller(&request).unwrap_or(own);
        let mut stepper = seat.take_token();
        let answers = self.serve_then::<R, F>(rt, &mut stepper, own, by, request);
        seat.put_token(stepper);
        answers
    }

    // Takes the lock, has the request answered and gives the lock back.
    fn serve<R: Wait>(
        &self,
        rt: &R,
        stepper: &mut Stepper<O>,
        by: u64,
        request: O::Call,
    ) -> O::Reply
        requires stepper { IsStepperOf self.now stepper.old }
        requires outside { IsOutside stepper.old }
        requires own { IsTrue (has_number stepper.old.me.0.account.shares by) }
        requires named { IfSome (O.definition.named request) (λ number. number ≡ by) }
        ensures stepper { IsStepperOf self.now stepper.new }
        ensures outside { IsOutside stepper.new }
        ensures served { Serves record { by = by; request = request; reply = result }
            stepper.old.me.0 stepper.new.me.0 }
        ensures history { KnowsHistory (meaning_of O.definition) (opening_of O.definition self.now)
            (limit_of self.now) stepper.new.me.0.account }
    {
        self.take(rt, stepper);
        self.answer_last(stepper, by, request)
    }

    // Takes the lock, has the request answered and the one that follows, and gives the lock back.
    fn serve_then<R: Wait, F: Follows<O::Call, O::Reply>>(
        &self,
        rt: &R,
        stepper: &mut Stepper<O>,
        own: u64,
        by: u64,
        request: O::Call,
    ) -> Answers<O::Reply>
        requires stepper { IsStepperOf self.now stepper.old }
        requires outside { IsOutside stepper.old }
        requires by { IsTrue (has_number stepper.old.me.0.account.shares by) }
        requires named { IfSome (O.definition.named request) (λ number. number ≡ by) }
        requires own { IsTrue (has_number stepper.old.me.0.account.shares own) }
        requires next { (reply : _) → IfSome (F.follower reply) (λ next.
            IfSome (O.definition.named next) (λ number.
            IsTrue (has_number stepper.old.me.0.account.shares number))) }
        ensures stepper { IsStepperOf self.now stepper.new }
        ensures outside { IsOutside stepper.new }
        ensures served { ServesThen O.definition self.now.table.shared.key own
            record { by = by; request = request; reply = result.first }
            (F.follower result.first) result.second stepper.old.me.0 stepper.new.me.0 }
        ensures history { KnowsHistory (meaning_of O.definition) (opening_of O.definition self.now)
            (limit_of self.now) stepper.new.me.0.account }
    {
        self.take(rt, stepper);
        let asked = Snapshot::of(&request);
        let first = self.answer(stepper, request);
        match F::next(&first) {
            None => {
                self.give_served::<Brand>(stepper, by, &asked, &first);
                Answers {
                    first,
                    second: None,
                }
            }
            Some(next) => {
                self.enter_served::<Brand>(stepper, by, &asked, &first);
                let by_next = O::caller(&next).unwrap_or(own);
                let second = self.answer_last(stepper, by_next, next);
                Answers {
                    first,
                    second: Some(second),
                }
            }
        }
    }

    // Has the request answered by the thread that has taken the lock, and gives the lock back.
    fn answer_last(&self, stepper: &mut Stepper<O>, by: u64, request: O::Call) -> O::Reply
        requires stepper { IsStepperOf self.now stepper.old }
        requires taken { (before : Me O O.Call O.Reply) ×
            HasTaken O.definition self.now.table.shared.key by before stepper.old.me }
        requires named { IfSome (O.definition.named request) (λ number. number ≡ by) }
        ensures table { stepper.new.table_id ≡ stepper.old.table_id }
        ensures served { (before : Me O O.Call O.Reply) →
            (taken : HasTaken O.definition self.now.table.shared.key by before stepper.old.me) →
            HasServed O.definition self.now.table.shared.key taken.taken.history
            record { by = by; request = request; reply = result } before stepper.new.me }
    {
        let asked = Snapshot::of(&request);
        let reply = self.answer(stepper, request);
        self.give_served::<Brand>(stepper, by, &asked, &reply);
        reply
    }

    // Has the object answer the request, in its slot.
    // Step Answer: a run of the object in its place, as plain memory. Seat: as it was.
    // Keeps the rule: it speaks of the object only where it is at home.
    fn answer(&self, stepper: &mut Stepper<O>, request: O::Call) -> O::Reply
        requires stepper { IsStepperOf self.now stepper.old }
        requires full { HasOnly stepper.old.me }
        ensures stepper { IsSameStepper stepper.old stepper.new }
        ensures answered { HasAnswered O.definition request result stepper.old.me stepper.new.me }
    {
        match stepper.slot_mut(&self.table.shared, SLOT) {
            Some(guarded) => guarded.object.run(request),
            None => unreachable!(),
        }
    }

    // Gives the lock back. The request and its reply are there for the proof alone,
    // which picks them for the step.
    fn give_served<M: Made<O::Call, O::Reply>>(
        &self,
        stepper: &mut Stepper<O>,
        _by: u64,
        _request: &Snapshot<O::Call>,
        _reply: &O::Reply,
    )
        requires stepper { IsStepperOf self.now stepper.old }
        requires due { IsDue O.definition self.now.table.shared.key M.served stepper.old.me }
        ensures stepper { IsSameStepper stepper.old stepper.new }
        ensures released { HasReleased M.served stepper.old.me stepper.new.me }
    {
        self.give::<M>(stepper);
    }

    // Writes the request into the history, and keeps the lock. Its reply is there for the proof
    // alone, too.
    fn enter_served<M: Made<O::Call, O::Reply>>(
        &self,
        stepper: &mut Stepper<O>,
        _by: u64,
        _request: &Snapshot<O::Call>,
        _reply: &O::Reply,
    )
        requires stepper { IsStepperOf self.now stepper.old }
        requires due { IsDue O.definition self.now.table.shared.key M.served stepper.old.me }
        ensures stepper { IsSameStepper stepper.old stepper.new }
        ensures entered { HasEntered O.definition M.served stepper.old.me stepper.new.me }
    {
        self.enter::<M>(stepper);
    }
}
