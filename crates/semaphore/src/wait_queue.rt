//! A queue that has each seat at most once, in the order in which they came. A seat joins at the
//! end, the first is taken, and any seat leaves, each in a fixed number of steps.
ghost use Rattle.std.specs.Prelude.{◌≡◌, ◌<◌, ◌^◌, ◌++◌, ◌∷◌, [], length, true, false, IfOk, IfErr};
ghost use Rattle.std.specs.Prelude.{IfSome};
ghost use Rattle.semaphore.specs.WaitQueue.{Queue, stands_in, with_seat, without, first_of};
ghost use Rattle.sync_base.specs.declared.fault.Fault.TheVariants.{Memory};

use std::alloc::{AllocError, Global};
use std::marker::Model;
use sync_base::Fault;

/// A ring of links through the seats in line and the end of the line.
#[derive(Debug, Drop)]
pub(crate) struct WaitQueue {
    /// What comes after each seat: a seat, or the end. After the end comes the first seat.
    next: Vec<usize>,
    /// What comes before each seat: a seat, or the end. Before the end comes the last seat.
    prev: Vec<usize>,
    /// Whether each seat is in line.
    stands: Vec<bool>,
    /// How many seats are in line.
    count: usize,
}

impl Model for WaitQueue {
    ghost use Rattle.semaphore.specs.WaitQueue.{Queue, IsRing, walk};
    ghost use Rattle.std.specs.Prelude.{length};

    ghost Value = { Queue };

    ghost view = { λ l. record {
      seats = length l.stands.items;
      order = walk l.next.items (length l.stands.items) l.count;
    } };

    ghost invariant = { λ l. IsRing l.next.items l.prev.items l.stands.items l.count
        (walk l.next.items (length l.stands.items) l.count) };
}

impl WaitQueue {
    /// An empty line for this many seats. It takes all its room.
    pub(crate) fn new(alloc: Global, seats: usize) -> Result<WaitQueue, Fault>
        requires { seats < 2 ^ 32 }
        ensures ok { IfOk result (λ line. line ≡ record { seats = seats; order = [] }) }
        ensures err { IfErr result (λ fault. fault ≡ Memory) }
    {
        Ok(WaitQueue {
            next: vec![in alloc; seats; seats + 1]?,
            prev: vec![in alloc; seats; seats + 1]?,
            stands: vec![in alloc; false; seats]?,
            count: 0,
        })
    }

    /// The seats in line, the first to come first.
    pub(crate) fn order(&self) -> Result<Vec<u64>, AllocError>
        ensures { IfOk result (λ order. order.items ≡ self.now.order) }
    {
        let (next, end, count) = (self.next.as_slice(), self.stands.len(), self.count);
        let mut order = Vec::with_capacity(*self.next.allocator(), count)?;
        let mut seat = end;
        'seats: while order.len() < count {
            seat = next.get(seat).copied().unwrap_or(0);
            order.push(seat as u64)?;
        }
        Ok(order)
    }

    /// Whether the seat is in line.
    pub(crate) fn contains(&self, seat: usize) -> bool
        requires { seat < self.now.seats }
        ensures { result ≡ stands_in self.now.order seat }
    {
        self.stands[seat]
    }

    /// The first seat in line.
    pub(crate) fn first(&self) -> Option<usize>
        ensures first { result ≡ first_of self.now.order }
        ensures seat { IfSome result (λ seat. seat < self.now.seats) }
    {
        if self.count == 0 {
            return None;
        }
        let end = self.stands.len();
        Some(self.next[end])
    }

    /// A seat that is not in line joins as the last.
    pub(crate) fn join(&mut self, seat: usize)
        requires within { seat < self.old.seats }
        requires new { stands_in self.old.order seat ≡ false }
        ensures { self.new ≡ record self.old { order = self.old.order ++ seat ∷ [] } }
    {
        let end = self.stands.len();
        let last = self.prev[end];
        self.next[last] = seat;
        self.next[seat] = end;
        self.prev[seat] = last;
        self.prev[end] = seat;
        self.stands[seat] = true;
        self.count += 1;
    }

    /// A seat that is in line keeps its place; any other joins as the last.
    pub(crate) fn join_once(&mut self, seat: usize)
        requires { seat < self.old.seats }
        ensures { self.new ≡ record self.old { order = with_seat seat self.old.order } }
    {
        if !self.contains(seat) {
            self.join(seat);
        }
    }

    /// A seat leaves the line, where it is in it. All others keep their order.
    pub(crate) fn leave(&mut self, seat: usize)
        requires within { seat < self.old.seats }
        requires there { stands_in self.old.order seat ≡ true }
        ensures { self.new ≡ record self.old { order = without seat self.old.order } }
    {
        let before = self.prev[seat];
        let after = self.next[seat];
        self.next[before] = after;
        self.prev[after] = before;
        self.stands[seat] = false;
        self.count -= 1;
    }
}
