//! How many values a queue has, and how much room.
use crate::channel::Channel;
use crate::messages::{Receiver, Sender};
use crate::{MessageCall, MessageObject, MessageReply};
use kernel_lock::LockSeat;
use std::sync::Wait;

/// How many values there are, and for how many there is room.
#[derive(Clone, Copy)]
pub(crate) struct Counted {
    values: u64,
    room: u64,
}

impl<'m, T: Drop> Sender<'m, T> {
    ghost use Rattle.std.specs.Prelude.{◌≡◌, ◌==◌, ℕ};
    ghost use Rattle.messages.specs.Counting.{Counts};
    ghost use Rattle.messages.specs.Handles.{IsSame};

    /// How many values the queue has now, those that were granted to receivers too. Others may
    /// change it before the caller looks. It waits for the queue's lock. Takes no memory.
    pub fn len<R: Wait>(&mut self, rt: &R) -> u64
        ensures same { IsSame self.old self.new }
        ensures counted { (room : ℕ) × Counts self.old result room self.new }
    {
        self.channel.count(rt, &mut self.state.seat).values
    }

    /// Whether the queue has no value now, as `len` counts.
    pub fn is_empty<R: Wait>(&mut self, rt: &R) -> bool
        ensures same { IsSame self.old self.new }
        ensures counted { (values room : ℕ) × (result ≡ (values == 0))
            × Counts self.old values room self.new }
    {
        self.len(rt) == 0
    }

    /// For how many values there is room now that was granted to nobody. Others may change it
    /// before the caller looks. It waits for the queue's lock. Takes no memory.
    pub fn room<R: Wait>(&mut self, rt: &R) -> u64
        ensures same { IsSame self.old self.new }
        ensures counted { (values : ℕ) × Counts self.old values result self.new }
    {
        self.channel.count(rt, &mut self.state.seat).room
    }

    /// Whether there is no room now, as `room` counts.
    pub fn is_full<R: Wait>(&mut self, rt: &R) -> bool
        ensures same { IsSame self.old self.new }
        ensures counted { (values room : ℕ) × (result ≡ (room == 0))
            × Counts self.old values room self.new }
    {
        self.room(rt) == 0
    }
}

impl<'m, T: Drop> Receiver<'m, T> {
    ghost use Rattle.std.specs.Prelude.{◌≡◌, ◌==◌, ℕ};
    ghost use Rattle.messages.specs.Counting.{Counts};
    ghost use Rattle.messages.specs.Handles.{IsSame};

    /// How many values the queue has now, those that were granted to receivers too. Others may
    /// change it before the caller looks. It waits for the queue's lock. Takes no memory.
    pub fn len<R: Wait>(&mut self, rt: &R) -> u64
        ensures same { IsSame self.old self.new }
        ensures counted { (room : ℕ) × Counts self.old result room self.new }
    {
        self.channel.count(rt, &mut self.seat).values
    }

    /// Whether the queue has no value now, as `len` counts.
    pub fn is_empty<R: Wait>(&mut self, rt: &R) -> bool
        ensures same { IsSame self.old self.new }
        ensures counted { (values room : ℕ) × (result ≡ (values == 0))
            × Counts self.old values room self.new }
    {
        self.len(rt) == 0
    }

    /// For how many values there is room now that was granted to nobody. Others may change it
    /// before the caller looks. It waits for the queue's lock. Takes no memory.
    pub fn room<R: Wait>(&mut self, rt: &R) -> u64
        ensures same { IsSame self.old self.new }
        ensures counted { (values : ℕ) × Counts self.old values result self.new }
    {
        self.channel.count(rt, &mut self.seat).room
    }

    /// Whether there is no room now, as `room` counts.
    pub fn is_full<R: Wait>(&mut self, rt: &R) -> bool
        ensures same { IsSame self.old self.new }
        ensures counted { (values room : ℕ) × (result ≡ (room == 0))
            × Counts self.old values room self.new }
    {
        self.room(rt) == 0
    }
}

impl<T: Drop> Channel<T> {
    ghost use Rattle.std.specs.Prelude.{◌≡◌};
    ghost use Rattle.kernel_lock.specs.Seats.{number_of};
    ghost use Rattle.messages.specs.Asking.{Asks, IsHandleSeatOf};
    ghost use Rattle.messages.specs.declared.message_object.MessageCall.TheVariants.{Count};

    fn count<R: Wait>(&self, rt: &R, seat: &mut LockSeat<MessageObject<T>>) -> Counted
        requires { IsHandleSeatOf self.now seat.old }
        ensures seat { IsHandleSeatOf self.now seat.new }
        ensures number { number_of seat.new ≡ number_of seat.old }
        ensures counted { Asks self.now Count (MessageReply.Counted result.values result.room)
            seat.old seat.new }
    {
        match self.ask(rt, seat, MessageCall::Count) {
            MessageReply::Counted(values, room) => Counted { values, room },
            _ => unreachable!(),
        }
    }
}
