//! How a queue is made, with its seats.
ghost use Rattle.std.specs.Prelude.{◌≡◌, ◌⊎◌, ◌↔◌, ◌+◌, ◌<◌, ◌≤◌, [], replicate, None};
ghost use Rattle.std.specs.Prelude.{IfOk, IfErr, IsErrOf};
ghost use Rattle.std.specs.Vec.{vec_capacity};
ghost use Rattle.sync_base.specs.declared.fault.Fault.TheVariants.{BadSize, BadArg, Memory};
ghost use Rattle.sync_base.specs.declared.limits.TheConstants.{
  LAST_WRITE,
  MAX_PIPE_LIMIT,
  MAX_WRITERS,
};
ghost use Rattle.block_queue.specs.Gather.{AreAllSeats};
ghost use Rattle.block_queue.specs.Opening.{
  Opens,
  AreNewPutSeats,
  IsBadQueue,
  IsBadFirst,
  handing_view,
};
ghost use Rattle.block_queue.specs.Seats.{IsSameStepper};
ghost use Rattle.block_queue.specs.Steps.{HasToHand, keeper_view, handed_view};

use crate::places::ring_words;
use crate::plays::Hand;
use crate::queue::Queue;
use crate::rule::Stepper;
use crate::seats::{PutSeat, TakeSeat};
use crate::spare::{Slot, Spare};
use crate::view::Key;
use atomic_table::Table;
use std::alloc::{AllocError, Global};
use sync_base::Fault;
use sync_base::limits::{LAST_WRITE, MAX_PIPE_LIMIT, MAX_WRITERS};

/// A new queue, the seat of its reader, and the seats of its writers in order.
#[derive(Drop)]
pub struct Opened {
    pub queue: Queue,
    pub take: TakeSeat,
    pub puts: Vec<PutSeat>,
}

// The words of a new queue.
fn zeros(alloc: Global, count: usize) -> Result<Vec<u64>, AllocError>
    ensures { IfOk result (λ words. words.items ≡ replicate count 0) }
{
    vec![in alloc; 0; count]
}

// Its slots: no block, and no memory for one.
fn empty_slots(alloc: Global, count: usize) -> Result<Vec<Slot>, AllocError>
    ensures { IfOk result (λ slots. slots.items ≡ replicate count None) }
{
    let mut slots = Vec::with_capacity(alloc, count)?;
    'emptying: while slots.len() < count {
        slots.push_reserved(Slot::empty(Spare::none()));
    }
    Ok(slots)
}

impl Queue {
    /// An empty queue that holds at most `limit` blocks, and whose first write has the number 1.
    ///
    /// BadSize: the limit is not from 1 to 1,024, or the writers are not from 1 to 64.
    /// Memory: room for the places and the seats was refused.
    pub fn new(alloc: Global, limit: u64, writers: u64) -> Result<Opened, Fault>
        // Refused first.
        ensures bad_size { IsErrOf result BadSize ↔ IsBadQueue limit writers }
        ensures faults { IfErr result (λ fault. (fault ≡ BadSize) ⊎ (fault ≡ Memory)) }

        // Otherwise a queue in which nothing was called.
        ensures opened { IfOk result
            (Opens (record { limit = limit; first = 0; writers = writers })) }
        ensures all { IfOk result (λ opened. AreAllSeats opened.take opened.puts.items) }
    {
        Queue::new_from(alloc, limit, writers, 0)
    }

    /// The same, but its first write has the number `first` + 1.
    ///
    /// BadSize: the limit is not from 1 to 1,024, or the writers are not from 1 to 64.
    /// BadArg: `first` is above the number of the last write.
    /// Memory: room for the places and the seats was refused.
    pub fn new_from(alloc: Global, limit: u64, writers: u64, first: u64) -> Result<Opened, Fault>
        // Refused first, in this order.
        ensures bad_size { IsErrOf result BadSize ↔ IsBadQueue limit writers }
        ensures bad_arg { IsErrOf result BadArg ↔ IsBadFirst limit writers first }
        ensures faults { IfErr result (λ fault.
            (fault ≡ BadSize) ⊎ ((fault ≡ BadArg) ⊎ (fault ≡ Memory))) }

        // Otherwise a queue in which nothing was called.
        ensures first { IfOk result (λ _. first ≤ LAST_WRITE) }
        ensures opened { IfOk result
            (Opens (record { limit = limit; first = first; writers = writers })) }
        ensures all { IfOk result (λ opened. AreAllSeats opened.take opened.puts.items) }
    {
        if limit == 0 || limit > MAX_PIPE_LIMIT || writers == 0 || writers > MAX_WRITERS {
            return Err(Fault::BadSize);
        }
        if first > LAST_WRITE {
            return Err(Fault::BadArg);
        }
        let key = Key {
            limit,
            first,
            writers,
        };
        let mut puts = Vec::with_capacity(alloc, writers as usize)?;
        let words = zeros(alloc, ring_words(limit))?;
        let slots = empty_slots(alloc, limit as usize)?;
        let Ok((table, mut stepper)) = Table::new(alloc, words.as_slice(), slots, &key) else {
            return Err(Fault::Memory);
        };
        let queue = Queue { table, key };
        queue.hand_seats(&mut stepper, &mut puts);
        let take = TakeSeat {
            badge: stepper.into_badge(),
            taken: 0,
            spare: Spare::none(),
        };
        Ok(Opened { queue, take, puts })
    }

    // Gives each writer its seat.
    fn hand_seats(&self, stepper: &mut Stepper, puts: &mut Vec<PutSeat>)
        requires table { stepper.old.table_id ≡ self.now.table.shared.table_id }
        requires view { stepper.old.me ≡ (handing_view self.now.key.writers 0, []) }
        requires empty { puts.old.items ≡ [] }
        requires room { self.now.key.writers ≤ vec_capacity puts.old }
        ensures table { stepper.new.table_id ≡ stepper.old.table_id }
        ensures view { stepper.new.me ≡
            (handing_view self.now.key.writers self.now.key.writers, []) }
        ensures puts { AreNewPutSeats self.now self.now.key.writers puts.new.items }
    {
        for writer in 0..self.key.writers {
            let seat = self.hand(stepper);
            puts.push_reserved(PutSeat {
                badge: seat.into_badge(),
                writer,
                spare: Spare::none(),
            });
        }
    }

    /// Hands the reader's next number over to a new seat.
    // Step Hand: split of a seat, a load of the tail.
    // Seat: Free, without the number. The new seat is Free, with the number, and has made no call.
    // Keeps the rule: the number was the reader's, and no other seat's.
    fn hand(&self, stepper: &mut Stepper) -> Stepper
        requires table { stepper.old.table_id ≡ self.now.table.shared.table_id }
        requires next { HasToHand stepper.old.me.0 }
        ensures stepper { IsSameStepper stepper.old stepper.new }
        ensures keeper { stepper.new.me ≡ (keeper_view stepper.old.me.0, stepper.old.me.1) }
        ensures handed { result.me ≡ (handed_view stepper.old.me.0, []) }
        ensures table { result.table_id ≡ stepper.old.table_id }
    {
        self.table.shared.split_seat::<Hand>(stepper)
    }
}
