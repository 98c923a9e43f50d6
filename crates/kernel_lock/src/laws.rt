//! What holds of every object under the lock.
//! A law is a function that does nothing: its contract is the law.
ghost use Rattle.kernel_lock.specs.Moments.{LocksAreLinearizable};

use crate::object::Object;

/// *Every object under the lock is linearizable* (Herlihy and Wing, "Linearizability: a correctness
/// condition for concurrent objects", 1990); time is the order of the table's steps. At each moment
/// there is one legal history, which has each request of each seat once, in the seat's order. In it
/// a request comes after all that any seat had seen when its call began, so after each call that
/// had returned then. The two requests of an `apply_then` are two calls.
pub fn calls_stand_in_the_order_of_time<O: Object>()
    ensures linearizable { LocksAreLinearizable O.definition }
{}
