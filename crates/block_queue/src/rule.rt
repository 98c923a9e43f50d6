//! The rule of the ring's table.
ghost use Rattle.block_queue.specs.Rule.{IsOneQueue, first_view};

use crate::spare::Slot;
use crate::view::{Key, View};
use atomic_table::{Seat, Table, TableRule};
use std::alloc::Global;

/// There is one legal history. Each seat has seen a past of it, and it has each of the seat's own
/// entries once. The tail counts the writes that were accepted in it, with the mark where the queue
/// was hung up, and the places hold the blocks that are left.
pub struct OneQueue;

pub type QueueTable = Table<Slot, View, Key, OneQueue, Global>;

pub type Stepper = Seat<Slot, View>;

impl TableRule<Slot, View, Key> for OneQueue {
    ghost holds = { IsOneQueue };

    ghost first = { first_view };
}
