//! What a seat asks of its semaphore without a wait.
ghost use Rattle.std.specs.Prelude.{◌<◌, false, IfSome, IfNone};
ghost use Rattle.kernel_lock.specs.Seats.{number_of};
ghost use Rattle.semaphore.specs.Asking.{Asks, FindsBoth, now_reply, wake_reply};
ghost use Rattle.semaphore.specs.Seats.{IsSemaSeatOf};

use crate::acquiring::Semacquired;
use crate::sema::{Sema, SemaSeat};
use crate::{SemaCall, SemaReply};
use kernel_lock::object::Answers;
use std::sync::Wait;

/// A seat that was granted a unit, and is to be woken with the number of its grants.
#[derive(Clone, Copy)]
pub(crate) struct Grant {
    pub(crate) seat: u64,
    pub(crate) grants: u64,
}

/// A release that was taken: the sum, and the seat that is to be woken first, if there is one.
#[derive(Clone, Copy)]
pub(crate) struct Released {
    pub(crate) sum: u32,
    pub(crate) next: Option<Grant>,
}

impl Sema {
    /// Takes a unit if there is one, and says whether it did.
    pub(crate) fn acquire_now<R: Wait>(&self, rt: &R, seat: &mut SemaSeat) -> Semacquired
        requires { IsSemaSeatOf self.now seat.old }
        ensures asks { Asks self.now false (SemaCall.AcquireNow (number_of seat.old.seat))
            (now_reply result) seat.old seat.new }
    {
        let number = seat.seat.number();
        match self.ask(rt, seat, SemaCall::AcquireNow { seat: number }) {
            SemaReply::Acquired => Semacquired::Acquired,
            SemaReply::NotNow => Semacquired::NotNow,
            _ => unreachable!(),
        }
    }

    /// Adds `count` units where the sum is within the limit, and asks in the same hold of the lock
    /// which seat is to be woken.
    pub(crate) fn release<R: Wait>(
        &self,
        rt: &R,
        seat: &mut SemaSeat,
        count: u32,
    ) -> Option<Released>
        requires { IsSemaSeatOf self.now seat.old }
        ensures refused { IfNone result
            (Asks self.now false (SemaCall.Release count) SemaReply.BadArg seat.old seat.new) }
        ensures released { IfSome result (λ released.
            FindsBoth self.now (SemaCall.Release count) (SemaReply.Value released.sum)
            (wake_reply released.next) seat.old seat.new) }
        ensures there { IfSome result (λ released.
            IfSome released.next (λ grant. grant.seat < self.now.procs)) }
    {
        let Answers { first, second } = self.ask_release(rt, seat, count);
        match first {
            SemaReply::Value(sum) => {
                let Some(told) = second else { unreachable!() };
                match told {
                    SemaReply::Wake { seat, grants } => Some(Released {
                        sum,
                        next: Some(Grant { seat, grants }),
                    }),
                    SemaReply::NoWake => Some(Released { sum, next: None }),
                    _ => unreachable!(),
                }
            }
            SemaReply::BadArg => None,
            _ => unreachable!(),
        }
    }

    /// The next seat that is to be woken.
    pub(crate) fn next_wake<R: Wait>(&self, rt: &R, seat: &mut SemaSeat) -> Option<Grant>
        requires { IsSemaSeatOf self.now seat.old }
        ensures asks { Asks self.now false SemaCall.NextWake (wake_reply result)
            seat.old seat.new }
        ensures there { IfSome result (λ grant. grant.seat < self.now.procs) }
    {
        match self.ask(rt, seat, SemaCall::NextWake) {
            SemaReply::Wake { seat, grants } => Some(Grant { seat, grants }),
            SemaReply::NoWake => None,
            _ => unreachable!(),
        }
    }
}
