//! A seat at a lock: what a thread calls the object with.
ghost use Rattle.std.specs.Prelude.{◌≡◌, [], ◌∷◌};

use crate::object::Object;
use crate::rule::{Knowledge, Stepper};
use atomic_table::Badge;
use std::mem;

/// A seat at a lock, with one number or, after a join, with several. A thread calls the object with
/// it. What it has seen is a past of the history, and has each of its own requests once.
#[derive(Drop)]
pub struct LockSeat<O: Object> {
    pub(crate) badge: Badge<Knowledge<O>>,
    pub(crate) number: u64,
}

impl<O: Object> LockSeat<O> {
    ghost use Rattle.kernel_lock.specs.Seats.{number_of, view_of};

    /// Its own number, under which it makes the requests that name no seat.
    pub fn number(&self) -> u64
        ensures { result ≡ number_of self.now }
    {
        self.number
    }

    /// The stepper with which the seat makes its steps. A blank badge stands in for what it knows
    /// until `put_token`.
    pub(crate) fn take_token(&mut self) -> Stepper<O>
        requires { self.old.badge.views ≡ view_of self.old ∷ [] }
        ensures table { result.table_id ≡ self.old.badge.table_id }
        ensures stepper { result.me ≡ (view_of self.old, []) }
        ensures number { self.new.number ≡ self.old.number }
    {
        mem::replace(&mut self.badge, Badge::blank()).into_seat()
    }

    pub(crate) fn put_token(&mut self, stepper: Stepper<O>)
        requires { stepper.me.1 ≡ [] }
        ensures table { self.new.badge.table_id ≡ stepper.table_id }
        ensures views { self.new.badge.views ≡ stepper.me.0 ∷ [] }
        ensures number { self.new.number ≡ self.old.number }
    {
        self.badge = stepper.into_badge();
    }
}
