//! The values of a queue, who is open and who waits, as an object that one thread at a time calls.
ghost use Rattle.std.specs.Prelude.{◌≡◌, ◌<◌, ◌+◌, ◌≤◌, ◌∷◌, ◌++◌, [], true, false, length, nat_lt};
ghost use Rattle.std.specs.Prelude.{IfOk, IfErr};
ghost use Rattle.std.specs.VecDeque.{deque_capacity};
ghost use Rattle.messages.specs.MessageObject.{
  accepted,
  after,
  after_close,
  after_hang,
  after_leave_receiver,
  after_leave_sender,
  after_open,
  after_put,
  after_take,
  answer_close,
  answer_count,
  answer_hang,
  answer_leave_receiver,
  answer_leave_sender,
  answer_open,
  answer_put,
  answer_take,
  answer_to,
  can_put,
  can_take,
  given,
  has_number,
  opening,
  places_below,
  receiver_gone,
  receiver_served,
  sender_gone,
  sender_served,
  wake_of,
};
ghost use Rattle.messages.specs.declared.limits.TheConstants.{LAST_GRANT, MAX_CAPACITY};
ghost use Rattle.messages.specs.declared.message_object.Side.TheVariants.{Senders, Receivers};

use crate::limits::LAST_GRANT;
use crate::line::Line;
use std::alloc::Global;
use std::collections::VecDeque;
use std::marker::Model;
use sync_base::Fault;

/// The two sides of a queue.
#[derive(Clone, Copy, Debug, PartialEq, Eq)]
pub enum Side {
    Senders,
    Receivers,
}

/// What a seat asks. Whoever may wait says its place.
#[derive(Drop)]
pub enum MessageCall<T> {
    /// Puts a value behind the others. Where there is no room, the place joins the line of senders,
    /// if it is to wait, or stays in it.
    Put {
        seat: u64,
        place: u64,
        value: T,
        wait: bool,
    },
    /// Takes the oldest value out. Where there is none, the place joins the line of receivers, if
    /// it is to wait, or stays in it.
    Take {
        seat: u64,
        place: u64,
        wait: bool,
    },
    /// Ends the wait of a sender: puts its value in if it was granted room.
    LeaveSender {
        seat: u64,
        place: u64,
        value: T,
    },
    /// Ends the wait of a receiver: takes a value out if it was granted one.
    LeaveReceiver {
        seat: u64,
        place: u64,
    },
    /// Hangs the queue up, for good.
    Hang,
    /// Opens the seat on this side.
    Open {
        side: Side,
        seat: u64,
    },
    /// Closes the seat on this side. The last one of a side hangs the queue up.
    Close {
        side: Side,
        seat: u64,
    },
    /// Counts the values, and the room that is left.
    Count,
}

/// Who is to be woken: whoever waits at this place was granted what it waits for, and this is the
/// number of the grant.
#[derive(Clone, Copy, Debug, PartialEq, Eq)]
pub struct Wake {
    pub place: u64,
    pub number: u64,
}

/// What it is answered. A value that is not accepted comes back.
#[derive(Drop)]
pub enum MessageReply<T> {
    /// The value is in the queue. The first receiver in line is granted a value, and is to be
    /// woken.
    Accepted(Option<Wake>),
    /// There is no room, or none was granted.
    NotNow(T),
    /// There is no room, and the place is in line. So many grants were made.
    Full(T, u64),
    /// The queue is hung up.
    Hungup(T),
    /// There is no room, and nobody may wait, since the numbers of grants are worn out.
    Worn(T),
    /// The oldest value. The first sender in line is granted room, and is to be woken.
    Value(T, Option<Wake>),
    /// There is no value, or none was granted.
    Empty,
    /// There is no value, and the place is in line. So many grants were made.
    Wait(u64),
    /// There is no value, and nobody may wait, since the numbers of grants are worn out.
    WornOut,
    /// The queue is hung up, and each value that it has was granted to a receiver.
    End,
    /// The queue is hung up, and was not before. All who wait are to be woken with this number.
    Hung(u64),
    /// The queue was hung up before.
    HungBefore,
    /// The seat is open, and has this place until it closes.
    Opened(u64),
    /// As many seats are open as there are places, or all of that side have closed.
    NoPlace,
    /// The seat is closed, and others of its side are open.
    Closed,
    /// There are so many values, and there is room for so many more that was granted to nobody.
    Counted(u64, u64),
}

/// A bounded queue of values with hangup, with who is open, and who waits for room and for values.
#[derive(Drop)]
pub struct MessageObject<T: Drop> {
    capacity: u64,
    values: VecDeque<T>,
    senders: Line,
    receivers: Line,
    /// The places that no open seat has.
    free: VecDeque<u64>,
    /// How many grants were made.
    grants: u64,
    hung: bool,
}

impl<T: Drop> Model for MessageObject<T> {
    ghost use Rattle.std.specs.Prelude.{◌≡◌, ◌+◌, ◌≤◌, length};
    ghost use Rattle.std.specs.VecDeque.{deque_capacity};
    ghost use Rattle.messages.specs.declared.limits.TheConstants.{LAST_GRANT, MAX_CAPACITY};
    ghost use Rattle.messages.specs.MessageObject.{Contents};

    ghost Value = { Contents T };

    ghost view = { λ queue. record {
      capacity = queue.capacity;
      values = queue.values.items;
      senders = queue.senders;
      receivers = queue.receivers;
      free = queue.free.items;
      grants = queue.grants;
      hung = queue.hung;
    } };

    // Each sender that was granted room finds it, there is a number for each grant to come, and
    // each
    // place is free or has an open seat.
    ghost invariant = { λ queue. record {
      room : length queue.values.items + length queue.senders.granted ≤ queue.capacity;
      numbers : queue.grants + (length queue.senders.waiting + length queue.receivers.waiting)
          ≤ LAST_GRANT;
      most : queue.capacity ≤ MAX_CAPACITY;
      deque : queue.capacity ≤ deque_capacity queue.values;
      senders : queue.senders.seats ≤ 1024;
      receivers : queue.receivers.seats ≡ queue.senders.seats;
      free : queue.senders.seats ≤ deque_capacity queue.free;
      places : length queue.free.items
          + (length queue.senders.opened + length queue.receivers.opened) ≡ queue.senders.seats;
    } };
}

impl<T: Drop> MessageObject<T> {
    /// An empty queue for this many values and handles. It takes all its room: no other call takes
    /// memory.
    ///
    /// Memory: room for the values or for those who wait was refused.
    pub fn new(alloc: Global, capacity: u64, handles: u64) -> Result<MessageObject<T>, Fault>
        requires capacity { capacity ≤ MAX_CAPACITY }
        requires handles { handles ≤ 1024 }
        ensures ok { IfOk result (λ queue. queue ≡ opening capacity handles) }
        ensures err { IfErr result (λ fault. fault ≡ Fault.Memory) }
    {
        let values = VecDeque::with_capacity(alloc, capacity as usize)?;
        let senders = Line::new(alloc, handles)?;
        let receivers = Line::new(alloc, handles)?;
        let free = all_places(alloc, handles)?;
        Ok(MessageObject {
            capacity,
            values,
            senders,
            receivers,
            free,
            grants: 0,
            hung: false,
        })
    }

    /// Answers a call, which never waits and takes no memory.
    pub fn run(&mut self, call: MessageCall<T>) -> MessageReply<T>
        ensures answer { result ≡ answer_to self.old call }
        ensures after { self.new ≡ after self.old call }
    {
        match call {
            MessageCall::Put {
                seat: _,
                place,
                value,
                wait,
            } => self.put(place, value, wait),
            MessageCall::Take {
                seat: _,
                place,
                wait,
            } => self.take(place, wait),
            MessageCall::LeaveSender {
                seat: _,
                place,
                value,
            } => self.leave_sender(place, value),
            MessageCall::LeaveReceiver { seat: _, place } => self.leave_receiver(place),
            MessageCall::Hang => self.hang(),
            MessageCall::Open { side, seat } => match side {
                Side::Senders => self.open_sender(seat),
                Side::Receivers => self.open_receiver(seat),
            },
            MessageCall::Close { side, seat } => match side {
                Side::Senders => self.close_sender(seat),
                Side::Receivers => self.close_receiver(seat),
            },
            MessageCall::Count => self.count(),
        }
    }

    // Puts the value behind the others, where it may.
    fn put(&mut self, place: u64, value: T, wait: bool) -> MessageReply<T>
        ensures answer { result ≡ answer_put self.old place value wait }
        ensures after { self.new ≡ after_put self.old place value result }
    {
        if self.hung {
            self.sender_leaves(place);
            return MessageReply::Hungup(value);
        }
        if self.has_room_for(place) {
            return MessageReply::Accepted(self.accept(place, value));
        }
        if !wait {
            return MessageReply::NotNow(value);
        }
        if self.senders.is_waiting(place) {
            return MessageReply::Full(value, self.grants);
        }
        if !self.senders.has_room_for(place) || !self.has_number() {
            return MessageReply::Worn(value);
        }
        self.senders.join(place);
        MessageReply::Full(value, self.grants)
    }

    // Takes the oldest value out, where it may.
    fn take(&mut self, place: u64, wait: bool) -> MessageReply<T>
        ensures answer { result ≡ answer_take self.old place wait }
        ensures after { self.new ≡ after_take self.old place result }
    {
        if self.has_value_for(place) {
            return self.give(place);
        }
        if self.hung {
            self.receiver_leaves(place);
            return MessageReply::End;
        }
        if !wait {
            return MessageReply::Empty;
        }
        if self.receivers.is_waiting(place) {
            return MessageReply::Wait(self.grants);
        }
        if !self.receivers.has_room_for(place) || !self.has_number() {
            return MessageReply::WornOut;
        }
        self.receivers.join(place);
        MessageReply::Wait(self.grants)
    }

    fn leave_sender(&mut self, place: u64, value: T) -> MessageReply<T>
        ensures answer { result ≡ answer_leave_sender self.old place value }
        ensures after { self.new ≡ after_leave_sender self.old place value result }
    {
        if !self.hung && self.senders.is_granted(place) {
            return MessageReply::Accepted(self.accept(place, value));
        }
        self.sender_leaves(place);
        MessageReply::NotNow(value)
    }

    fn leave_receiver(&mut self, place: u64) -> MessageReply<T>
        ensures answer { result ≡ answer_leave_receiver self.old place }
        ensures after { self.new ≡ after_leave_receiver self.old place result }
    {
        if self.receivers.is_granted(place) {
            return self.give(place);
        }
        self.receiver_leaves(place);
        MessageReply::Empty
    }

    fn hang(&mut self) -> MessageReply<T>
        ensures answer { result ≡ answer_hang self.old }
        ensures after { self.new ≡ after_hang self.old result }
    {
        if self.hung {
            return MessageReply::HungBefore;
        }
        self.hung = true;
        MessageReply::Hung(self.grants + 1)
    }

    fn count(&self) -> MessageReply<T>
        ensures { result ≡ answer_count self.now }
    {
        let values = self.values.len() as u64;
        MessageReply::Counted(values, self.capacity - (values + self.senders.granted()))
    }

    // Opens the seat at the first free place, unless all senders have closed.
    fn open_sender(&mut self, seat: u64) -> MessageReply<T>
        ensures answer { result ≡ answer_open self.old self.old.senders }
        ensures after { self.new ≡ after_open self.old Senders seat result }
    {
        if self.hung && self.senders.opened() == 0 {
            return MessageReply::NoPlace;
        }
        match self.free.pop_front() {
            Some(place) => {
                self.senders.add_seat(seat, place);
                MessageReply::Opened(place)
            }
            None => MessageReply::NoPlace,
        }
    }

    // Opens the seat at the first free place, unless all receivers have closed.
    fn open_receiver(&mut self, seat: u64) -> MessageReply<T>
        ensures answer { result ≡ answer_open self.old self.old.receivers }
        ensures after { self.new ≡ after_open self.old Receivers seat result }
    {
        if self.hung && self.receivers.opened() == 0 {
            return MessageReply::NoPlace;
        }
        match self.free.pop_front() {
            Some(place) => {
                self.receivers.add_seat(seat, place);
                MessageReply::Opened(place)
            }
            None => MessageReply::NoPlace,
        }
    }

    // Closes the seat, whose place is free again. The last sender hangs up.
    fn close_sender(&mut self, seat: u64) -> MessageReply<T>
        ensures answer { result ≡ answer_close self.old self.old.senders seat }
        ensures after { self.new ≡ after_close self.old Senders seat result }
    {
        let Some(place) = self.senders.close_seat(seat) else {
            return MessageReply::Closed;
        };
        self.free.push_back_reserved(place);
        if 0 < self.senders.opened() {
            return MessageReply::Closed;
        }
        self.hang()
    }

    // Closes the seat, whose place is free again. The last receiver hangs up.
    fn close_receiver(&mut self, seat: u64) -> MessageReply<T>
        ensures answer { result ≡ answer_close self.old self.old.receivers seat }
        ensures after { self.new ≡ after_close self.old Receivers seat result }
    {
        let Some(place) = self.receivers.close_seat(seat) else {
            return MessageReply::Closed;
        };
        self.free.push_back_reserved(place);
        if 0 < self.receivers.opened() {
            return MessageReply::Closed;
        }
        self.hang()
    }

    // Whether there is room that nobody has been granted, or some that this place has.
    fn has_room_for(&self, place: u64) -> bool
        ensures { result ≡ can_put self.now place }
    {
        self.values.len() as u64 + self.senders.granted() < self.capacity
            || self.senders.is_granted(place)
    }

    // Whether there is a value that nobody has been granted, or one that this place has.
    fn has_value_for(&self, place: u64) -> bool
        ensures { result ≡ can_take self.now place }
    {
        self.receivers.granted() < self.values.len() as u64 || self.receivers.is_granted(place)
    }

    // Whether there is a number for one more grant.
    fn has_number(&self) -> bool
        ensures { result ≡ has_number self.now }
    {
        self.grants + (self.senders.waiting() + self.receivers.waiting()) < LAST_GRANT
    }

    // Puts the value in from a place for which there is room, and grants it to the first receiver.
    fn accept(&mut self, place: u64, value: T) -> Option<Wake>
        requires { can_put self.old place ≡ true }
        ensures wake { result ≡ wake_of self.old.receivers self.old.grants }
        ensures after { self.new ≡ accepted self.old place value }
    {
        self.senders.leave(place);
        self.values.push_back_reserved(value);
        self.serve_receiver()
    }

    // Takes the oldest value out for a place for which there is one, and grants its room to the
    // first
    // sender.
    fn give(&mut self, place: u64) -> MessageReply<T>
        ensures answer { result ≡ given self.old self.old.values }
        ensures after { self.new ≡ after_leave_receiver self.old place result }
    {
        self.receivers.leave(place);
        match self.values.pop_front() {
            Some(value) => MessageReply::Value(value, self.serve_sender()),
            None => MessageReply::End,
        }
    }

    // Whoever has the place waits for room no more, and has none granted.
    fn sender_leaves(&mut self, place: u64)
        ensures { self.new ≡ sender_gone self.old place }
    {
        self.senders.leave(place);
    }

    // Whoever has the place waits for a value no more, and has none granted.
    fn receiver_leaves(&mut self, place: u64)
        ensures { self.new ≡ receiver_gone self.old place }
    {
        self.receivers.leave(place);
    }

    // Grants a value to the first receiver in line.
    fn serve_receiver(&mut self) -> Option<Wake>
        ensures wake { result ≡ wake_of self.old.receivers self.old.grants }
        ensures after { self.new ≡ receiver_served self.old }
    {
        match self.receivers.serve() {
            Some(place) => {
                self.grants += 1;
                Some(Wake {
                    place,
                    number: self.grants,
                })
            }
            None => None,
        }
    }

    // Grants room to the first sender in line.
    fn serve_sender(&mut self) -> Option<Wake>
        requires { length self.old.values + length self.old.senders.granted < self.old.capacity }
        ensures wake { result ≡ wake_of self.old.senders self.old.grants }
        ensures after { self.new ≡ sender_served self.old }
    {
        match self.senders.serve() {
            Some(place) => {
                self.grants += 1;
                Some(Wake {
                    place,
                    number: self.grants,
                })
            }
            None => None,
        }
    }
}

// All places from 0 on, this many.
fn all_places(alloc: Global, count: u64) -> Result<VecDeque<u64>, Fault>
    requires { count ≤ 1024 }
    ensures places { IfOk result (λ free. free.items ≡ places_below count) }
    ensures room { IfOk result (λ free. count ≤ deque_capacity free) }
    ensures err { IfErr result (λ fault. fault ≡ Fault.Memory) }
{
    let mut free = VecDeque::with_capacity(alloc, count as usize)?;
    'places: for place in 0..count {
        free.push_back_reserved(place);
    }
    Ok(free)
}
