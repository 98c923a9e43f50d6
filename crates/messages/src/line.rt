//! One side of a queue, its senders or its receivers: who is open, and who waits.
ghost use Rattle.std.specs.Prelude.{◌≡◌, ◌+◌, ◌<◌, ◌≤◌, ◌&&◌, [], false, length, nat_lt};
ghost use Rattle.std.specs.Prelude.{IfOk, IfErr};
ghost use Rattle.std.specs.VecDeque.{deque_capacity};
ghost use Rattle.sync_base.specs.declared.fault.Fault.TheVariants.{Memory};
ghost use Rattle.messages.specs.Lines.{
  Waiters,
  closed,
  first_of,
  gone,
  joined,
  place_of,
  served,
  stands_in,
  with_seat,
  without,
  without_seat,
};

use std::alloc::Global;
use std::collections::VecDeque;
use std::marker::Model;
use sync_base::Fault;

/// A seat that is open, and its place.
#[derive(Clone, Copy)]
pub(crate) struct OpenSeat {
    seat: u64,
    place: u64,
}

/// The seats that are open; the places in line, the first to come first; and the places that were
/// granted what they waited for and have yet to use it.
#[derive(Drop)]
pub(crate) struct Line {
    /// How many places there are.
    seats: u64,
    waiting: VecDeque<u64>,
    granted: VecDeque<u64>,
    opened: VecDeque<OpenSeat>,
}

impl Model for Line {
    ghost use Rattle.std.specs.Prelude.{◌+◌, ◌≤◌, length};
    ghost use Rattle.std.specs.VecDeque.{deque_capacity};
    ghost use Rattle.messages.specs.Lines.{Waiters};

    ghost Value = { Waiters };

    ghost view = { λ line. record {
      seats = line.seats;
      waiting = line.waiting.items;
      granted = line.granted.items;
      opened = line.opened.items;
    } };

    // There is room for each place in all lists.
    ghost invariant = { λ line. record {
      few : length line.waiting.items + length line.granted.items ≤ line.seats;
      waiting : line.seats ≤ deque_capacity line.waiting;
      granted : line.seats ≤ deque_capacity line.granted;
      opened : line.seats ≤ deque_capacity line.opened;
    } };
}

impl Line {
    /// Nobody is open and nobody waits, of this many places. It takes all its room.
    pub(crate) fn new(alloc: Global, seats: u64) -> Result<Line, Fault>
        requires { seats ≤ 1024 }
        ensures ok { IfOk result (λ line.
            line ≡ record { seats = seats; waiting = []; granted = []; opened = [] }) }
        ensures err { IfErr result (λ fault. fault ≡ Memory) }
    {
        let waiting = VecDeque::with_capacity(alloc, seats as usize)?;
        let granted = VecDeque::with_capacity(alloc, seats as usize)?;
        let opened = VecDeque::with_capacity(alloc, seats as usize)?;
        Ok(Line {
            seats,
            waiting,
            granted,
            opened,
        })
    }

    /// How many seats are open.
    pub(crate) fn opened(&self) -> u64
        ensures { result ≡ length self.now.opened }
    {
        self.opened.len() as u64
    }

    /// A seat opens at this place.
    pub(crate) fn add_seat(&mut self, seat: u64, place: u64)
        requires { length self.old.opened < self.old.seats }
        ensures { self.new ≡ with_seat seat place self.old }
    {
        self.opened.push_back_reserved(OpenSeat { seat, place });
    }

    /// A seat closes, and gives its place back. `None`: it is not open.
    pub(crate) fn close_seat(&mut self, seat: u64) -> Option<u64>
        ensures place { result ≡ place_of seat self.old.opened }
        ensures left { self.new ≡ without_seat seat self.old }
    {
        take_seat(&mut self.opened, seat)
    }

    /// How many are in line.
    pub(crate) fn waiting(&self) -> u64
        ensures { result ≡ length self.now.waiting }
    {
        self.waiting.len() as u64
    }

    /// How many were granted what they waited for, and have yet to use it.
    pub(crate) fn granted(&self) -> u64
        ensures { result ≡ length self.now.granted }
    {
        self.granted.len() as u64
    }

    /// Whether the place is in line.
    pub(crate) fn is_waiting(&self, place: u64) -> bool
        ensures { result ≡ stands_in self.now.waiting place }
    {
        self.waiting.contains(&place)
    }

    /// Whether the place was granted what it waited for, and has yet to use it.
    pub(crate) fn is_granted(&self, place: u64) -> bool
        ensures { result ≡ stands_in self.now.granted place }
    {
        self.granted.contains(&place)
    }

    /// Whether there is room in line for this place.
    pub(crate) fn has_room_for(&self, place: u64) -> bool
        ensures { result ≡ (nat_lt place self.now.seats
            && nat_lt (length self.now.waiting + length self.now.granted) self.now.seats) }
    {
        place < self.seats && self.waiting() + self.granted() < self.seats
    }

    /// A place joins the line as the last.
    pub(crate) fn join(&mut self, place: u64)
        requires room { length self.old.waiting + length self.old.granted < self.old.seats }
        requires new { stands_in self.old.waiting place ≡ false }
        ensures { self.new ≡ joined place self.old }
    {
        self.waiting.push_back_reserved(place);
    }

    /// The first in line is granted what it waits for.
    pub(crate) fn serve(&mut self) -> Option<u64>
        ensures first { result ≡ first_of self.old.waiting }
        ensures served { self.new ≡ served self.old }
    {
        let first = self.waiting.pop_front();
        if let Some(place) = first {
            self.granted.push_back_reserved(place);
        }
        first
    }

    /// A place waits no more, and has nothing granted.
    pub(crate) fn leave(&mut self, place: u64)
        ensures { self.new ≡ gone place self.old }
    {
        take_away(&mut self.waiting, place);
        take_away(&mut self.granted, place);
    }
}

// Takes a number out of the list.
fn take_away(seats: &mut VecDeque<u64>, seat: u64)
    ensures items { seats.new.items ≡ without seat seats.old.items }
    ensures capacity { deque_capacity seats.new ≡ deque_capacity seats.old }
{
    let mut place = 0;
    'seats: while let Some(other) = seats.get(place) {
        if *other == seat {
            let _seat = seats.remove(place);
            return;
        }
        place += 1;
    }
}

// Takes the seat out of those that are open, and tells its place.
fn take_seat(opened: &mut VecDeque<OpenSeat>, seat: u64) -> Option<u64>
    ensures place { result ≡ place_of seat opened.old.items }
    ensures items { opened.new.items ≡ closed seat opened.old.items }
    ensures capacity { deque_capacity opened.new ≡ deque_capacity opened.old }
{
    let mut at = 0;
    'seats: while let Some(one) = opened.get(at) {
        let OpenSeat { seat: other, place } = *one;
        if other == seat {
            let _one = opened.remove(at);
            return Some(place);
        }
        at += 1;
    }
    None
}
