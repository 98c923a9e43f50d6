//! An object under its lock: how it is made, and how it is taken back.
ghost use Rattle.std.specs.Prelude.{◌≡◌, [], ◌∷◌, Some};

use crate::lock_seat::LockSeat;
use crate::object::Object;
use crate::rule::{LockTable, Slot};
use crate::view::{Guarded, Key};
use crate::waiters::Waiters;
use atomic_table::{Refused, Table};
use std::alloc::{AllocFailed, Global};
use std::snapshot::Snapshot;
use std::sync::Wait;

/// An object that many threads call, each with a seat of its own.
#[derive(Drop)]
pub struct Locked<O: Object> {
    pub(crate) table: LockTable<O>,
    pub(crate) limit: u64,
    pub(crate) waiters: Waiters,
    ghost one_word: { table.shared.table_id.words ≡ 1 },
    ghost one_slot: { table.shared.table_id.slots ≡ 1 },
    ghost limited: { limit ≡ table.shared.key.limit },
}

/// A new lock, and its first seat.
#[derive(Drop)]
pub struct Opened<O: Object> {
    pub lock: Locked<O>,
    pub seat: LockSeat<O>,
}

impl<O: Object> Locked<O> {
    ghost use Rattle.std.specs.Prelude.{◌≡◌, ◌<◌, [], ◌∷◌, IfOk, IfErr};
    ghost use Rattle.kernel_lock.specs.Calls.{IsNew};
    ghost use Rattle.kernel_lock.specs.Seats.{IsSeatOf, IsFirstSeat, SeesHistory};
    ghost use Rattle.kernel_lock.specs.Seats.{Closes, HasAll, limit_of, opening_of};

    /// Puts the object under a lock that may give this many seats, and gives the first seat. Where
    /// there is no memory, the object comes back.
    pub fn new(alloc: Global, object: O, seats: u64) -> Result<Opened<O>, AllocFailed<O>>
        requires { 0 < seats }
        ensures opening { IfOk result (λ opened.
            opening_of O.definition opened.lock ≡ O.definition.state object) }
        ensures limit { IfOk result (λ opened. limit_of opened.lock ≡ seats) }

        // The first seat: it has the number 0 and has given none.
        ensures seat { IfOk result (λ opened. IsSeatOf opened.lock opened.seat) }
        ensures first { IfOk result (λ opened. IsFirstSeat opened.seat) }
        ensures history { IfOk result (λ opened.
            SeesHistory O.definition opened.lock opened.seat) }

        ensures refused { IfErr result (λ refused. refused.value ≡ object) }
    {
        let Ok(mut slots) = Vec::with_capacity(alloc, 1) else {
            return Err(AllocFailed { value: object });
        };
        let key = Key {
            opening: Snapshot::of(&object),
            limit: seats,
        };
        slots.push_reserved(Some(Guarded { object, next: 1 }));
        match Table::new(alloc, &[0], slots, &key) {
            Ok((table, stepper)) => Ok(Opened {
                lock: Locked {
                    table,
                    limit: seats,
                    waiters: Waiters::new(),
                },
                seat: LockSeat {
                    badge: stepper.into_badge(),
                    number: 0,
                },
            }),
            Err(Refused { slots }) => Err(AllocFailed {
                value: object_in(slots),
            }),
        }
    }

    /// Takes the lock for the last time, and gives the object back. Tests alone call it.
    pub fn close<R: Wait>(self, rt: &R, seat: LockSeat<O>) -> O
        requires { IsSeatOf self seat }

        // The object is what a legal history leaves, of which all that the seat has seen is a past;
        // where the seat has all numbers, it has seen that history whole.
        ensures { Closes O.definition self seat result }
    {
        let LockSeat { badge, number: _ } = seat;
        let mut stepper = badge.into_seat();
        self.take(rt, &mut stepper);
        let Guarded { object, next: _ } = self.take_out(&mut stepper);
        object
    }
}

// The object that lies in the slot of a table for which there was no memory.
fn object_in<O: Object>(mut slots: Vec<Slot<O>>) -> O
    requires { (guarded : _) × (slots.items ≡ Some guarded ∷ []) }
    ensures { (guarded : _) → slots.items ≡ Some guarded ∷ [] → result ≡ guarded.object }
{
    let Some(slot) = slots.pop() else {
        unreachable!()
    };
    let Some(Guarded { object, next: _ }) = slot else {
        unreachable!()
    };
    object
}
