//! The rule of the lock's table. The table has one word, which is 0 where the lock is free and else
//! 1, and one slot, in which the object lies.
ghost use Rattle.kernel_lock.specs.Rule.{IsOneHistory};
ghost use Rattle.kernel_lock.specs.View.{first_view};

use crate::object::Object;
use crate::view::{Guarded, Key, View};
use atomic_table::{Seat, Shared, Table, TableRule};
use std::alloc::Global;
use std::marker::PhantomData;

/// There is one legal history, newest first. Where the word is 0 the object is at home, as the
/// history leaves it, beside the next number. What each seat has seen is a past of the history, and
/// has each of its own requests once. The numbers of the seats differ. Each number but 0 was given
/// by the seat of a lower number, which knows that it gave it.
pub struct OneHistory<O> {
    object: PhantomData<O>,
}

pub type Slot<O> = Option<Guarded<O>>;

pub type Knowledge<O> = View<O, <O as Object>::Call, <O as Object>::Reply>;

pub type LockTable<O> = Table<Slot<O>, Knowledge<O>, Key<O>, OneHistory<O>, Global>;

/// A seat while it makes its steps.
pub type Stepper<O> = Seat<Slot<O>, Knowledge<O>>;

impl<O: Object> TableRule<Option<Guarded<O>>, View<O, O::Call, O::Reply>, Key<O>>
    for OneHistory<O> {
    ghost holds = { IsOneHistory O.definition };

    ghost first = { first_view };
}
