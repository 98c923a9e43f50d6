//! A queue of values, and the handles by which processes send and receive.
ghost use Rattle.std.specs.Prelude.{◌≡◌, ◌<◌};
ghost use Rattle.messages.specs.Asking.{IsHandleSeatOf};

use crate::channel::{Channel, Seated};
use crate::limits::{MAX_CAPACITY, MAX_SEATS, MIN_HANDLES};
use crate::message_object::{MessageObject, Side};
use kernel_lock::{LockSeat, Locked, Opened};
use sleep_wakeup::Roster;
use std::alloc::Global;
use std::marker::Model;
use std::sync::Wait;
use sync_base::limits::MAX_PROCS;
use sync_base::{Fault, RendezId};

/// A bounded queue of values, and its first handle as long as nobody has it.
#[derive(Drop)]
pub struct Messages<T: Drop> {
    channel: Channel<T>,
    spare: Option<LockSeat<MessageObject<T>>>,
}

impl<T: Drop> Model for Messages<T> {
    ghost use Rattle.messages.specs.Handles.{Holding, IsSpareOf};

    ghost Value = { Holding T };

    ghost view = { λ messages. record { channel = messages.channel; spare = messages.spare } };

    ghost invariant = { λ messages. IsSpareOf messages.channel messages.spare };
}

/// The first sender and the first receiver of a queue.
#[derive(Drop)]
pub struct Ends<'m, T: Drop> {
    pub sender: Sender<'m, T>,
    pub receiver: Receiver<'m, T>,
}

/// The seat of a sender, and the value that it sends as long as the queue does not have it.
#[derive(Drop)]
pub(crate) struct Sending<T: Drop> {
    pub(crate) seat: LockSeat<MessageObject<T>>,
    pub(crate) value: Option<T>,
}

/// A handle by which one process at a time sends. It holds no process. One thread has it at a time,
/// and may hand it to another. A handle that is dropped has not closed: receivers go on waiting for
/// it.
#[derive(Drop)]
pub struct Sender<'m, T: Drop> {
    pub(crate) channel: &'m Channel<T>,
    pub(crate) place: u64,
    pub(crate) state: Sending<T>,
}

impl<'m, T: Drop> Model for Sender<'m, T> {
    ghost use Rattle.std.specs.Prelude.{◌≡◌, ◌<◌, None};
    ghost use Rattle.messages.specs.Asking.{IsHandleSeatOf};
    ghost use Rattle.messages.specs.Handles.{Handle};

    ghost Value = { Handle T };

    ghost view = { λ it. record {
      channel = it.channel.now;
      seat = it.state.seat;
      place = it.place;
    } };

    ghost invariant = { λ it. record {
      seat : IsHandleSeatOf it.channel.now it.state.seat;
      value : it.state.value ≡ None;
      place : it.place < it.channel.now.handles;
    } };
}

/// A handle by which one process at a time receives. It holds no process. One thread has it at a
/// time, and may hand it to another. A handle that is dropped has not closed: senders go on waiting
/// for it.
#[derive(Drop)]
pub struct Receiver<'m, T: Drop> {
    pub(crate) channel: &'m Channel<T>,
    pub(crate) place: u64,
    pub(crate) seat: LockSeat<MessageObject<T>>,
}

impl<'m, T: Drop> Model for Receiver<'m, T> {
    ghost use Rattle.std.specs.Prelude.{◌<◌};
    ghost use Rattle.messages.specs.Asking.{IsHandleSeatOf};
    ghost use Rattle.messages.specs.Handles.{Handle};

    ghost Value = { Handle T };

    ghost view = { λ it. record { channel = it.channel.now; seat = it.seat; place = it.place } };

    ghost invariant = { λ it. record {
      seat : IsHandleSeatOf it.channel.now it.seat;
      place : it.place < it.channel.now.handles;
    } };
}

impl<T: Drop> Messages<T> {
    ghost use Rattle.std.specs.Prelude.{◌≡◌, IfOk, IfErr, OnOk, OnErr};
    ghost use Rattle.sync_base.specs.declared.fault.Fault.TheVariants.{NoProc};
    ghost use Rattle.sleep_wakeup.specs.Kernel.{HasRendez, rendez_less};
    ghost use Rattle.messages.specs.Handles.{AreEnds, WhyNoEnds};
    ghost use Rattle.messages.specs.Opening.{IsNewMessages, IsQueueSize, WhyNoMessages};

    /// A queue that holds this many values, for this many senders and receivers together that are
    /// open at once. It takes a Rendez for each of them, and all its memory. After chancreate in
    /// thread(2).
    ///
    /// Refuses, in this order, as `BadSize` where the capacity is not from 1 to 1,048,576 or the
    /// handles are not from 2 to 1,024, `NoRendez`, and `Memory`. Doesn't wait.
    pub fn new(
        alloc: Global,
        roster: &mut Roster<'_>,
        capacity: u64,
        handles: u64,
    ) -> Result<Messages<T>, Fault>
        // Refused first, and then no Rendez is used up.
        ensures in_range { OnOk result (IsQueueSize capacity handles) }
        ensures room { OnOk result (HasRendez roster.old handles) }
        ensures fault { IfErr result (WhyNoMessages roster.old capacity handles) }
        ensures refused { OnErr result (roster.new ≡ roster.old) }

        // Otherwise it is empty, and nobody has its first handle.
        ensures opened { IfOk result (IsNewMessages roster.old capacity handles) }
        ensures given { OnOk result (roster.new ≡ rendez_less handles roster.old) }
    {
        if !(1..=MAX_CAPACITY).contains(&capacity)
            || !(MIN_HANDLES..=MAX_PROCS).contains(&handles)
        {
            return Err(Fault::BadSize);
        }
        let (_, rendez) = roster.left();
        if rendez < handles {
            return Err(Fault::NoRendez);
        }
        let object = MessageObject::new(alloc, capacity, handles)?;
        let Opened { lock, seat } = Locked::new(alloc, object, MAX_SEATS)?;
        let RendezId(first) = roster.row(handles)?;
        Ok(Messages {
            channel: Channel {
                lock,
                handles,
                first,
            },
            spare: Some(seat),
        })
    }

    /// The first sender and the first receiver, both open. Refuses as `NoProc` where somebody had
    /// them before. It waits for the queue's lock. Takes no memory.
    pub fn ends<'m, R: Wait>(&'m mut self, rt: &R) -> Result<Ends<'m, T>, Fault>
        ensures fault { IfErr result (λ fault. fault ≡ NoProc) }
        ensures refused { OnErr result (WhyNoEnds self.old) }
        ensures ends { IfOk result (λ ends. AreEnds self.old ends.sender ends.receiver) }
    {
        let Some(first) = self.spare.take() else {
            return Err(Fault::NoProc);
        };
        let channel = &self.channel;
        let mut sender = channel.open(rt, first, Side::Senders)?;
        let receiver = channel.split(rt, &mut sender.seat, Side::Receivers)?;
        Ok(Ends {
            sender: sender_of(channel, sender),
            receiver: receiver_of(channel, receiver),
        })
    }
}

// A sender by this seat, at its place.
fn sender_of<'m, T: Drop>(channel: &'m Channel<T>, opened: Seated<T>) -> Sender<'m, T>
    requires seat { IsHandleSeatOf channel.now opened.seat }
    requires place { opened.place < channel.now.handles }
    ensures channel { result.channel ≡ channel.now }
    ensures seat { result.seat ≡ opened.seat }
    ensures place { result.place ≡ opened.place }
{
    let Seated { seat, place } = opened;
    Sender {
        channel,
        place,
        state: Sending { seat, value: None },
    }
}

// A receiver by this seat, at its place.
fn receiver_of<'m, T: Drop>(channel: &'m Channel<T>, opened: Seated<T>) -> Receiver<'m, T>
    requires seat { IsHandleSeatOf channel.now opened.seat }
    requires place { opened.place < channel.now.handles }
    ensures channel { result.channel ≡ channel.now }
    ensures seat { result.seat ≡ opened.seat }
    ensures place { result.place ≡ opened.place }
{
    let Seated { seat, place } = opened;
    Receiver {
        channel,
        place,
        seat,
    }
}

impl<'m, T: Drop> Sender<'m, T> {
    ghost use Rattle.std.specs.Prelude.{◌≡◌, IfOk, IfErr, OnErr};
    ghost use Rattle.sync_base.specs.declared.fault.Fault.TheVariants.{NoProc};
    ghost use Rattle.messages.specs.Handles.{IsFurther, IsSame, WhyNotGiven, rendez_of_place};
    ghost use Rattle.messages.specs.declared.message_object.Side.TheVariants.{Senders};

    /// A further sender, which is open. Refuses as `NoProc` where as many handles are open as the
    /// queue has. It waits for the queue's lock. Takes no memory.
    pub fn split<R: Wait>(&mut self, rt: &R) -> Result<Sender<'m, T>, Fault>
        ensures same { IsSame self.old self.new }
        ensures fault { IfErr result (λ fault. fault ≡ NoProc) }
        ensures refused { OnErr result
            (WhyNotGiven self.old.channel Senders self.old.seat self.new.seat) }
        ensures further { IfOk result (IsFurther Senders self.old self.new) }
    {
        let child = self.channel.split(rt, &mut self.state.seat, Side::Senders)?;
        Ok(sender_of(self.channel, child))
    }

    /// The Rendez in which whoever sends by the handle waits for room. Takes no memory and doesn't
    /// wait.
    pub fn rendez(&self) -> RendezId
        ensures { result ≡ rendez_of_place self.now.channel self.now.place }
    {
        self.channel.rendez(self.place)
    }
}

impl<'m, T: Drop> Receiver<'m, T> {
    ghost use Rattle.std.specs.Prelude.{◌≡◌, IfOk, IfErr, OnErr};
    ghost use Rattle.sync_base.specs.declared.fault.Fault.TheVariants.{NoProc};
    ghost use Rattle.messages.specs.Handles.{IsFurther, IsSame, WhyNotGiven, rendez_of_place};
    ghost use Rattle.messages.specs.declared.message_object.Side.TheVariants.{Receivers};

    /// A further receiver, which is open. Refuses as `NoProc` where as many handles are open as the
    /// queue has. It waits for the queue's lock. Takes no memory.
    pub fn split<R: Wait>(&mut self, rt: &R) -> Result<Receiver<'m, T>, Fault>
        ensures same { IsSame self.old self.new }
        ensures fault { IfErr result (λ fault. fault ≡ NoProc) }
        ensures refused { OnErr result
            (WhyNotGiven self.old.channel Receivers self.old.seat self.new.seat) }
        ensures further { IfOk result (IsFurther Receivers self.old self.new) }
    {
        let child = self.channel.split(rt, &mut self.seat, Side::Receivers)?;
        Ok(receiver_of(self.channel, child))
    }

    /// The Rendez in which whoever receives by the handle waits for a value. Takes no memory and
    /// doesn't wait.
    pub fn rendez(&self) -> RendezId
        ensures { result ≡ rendez_of_place self.now.channel self.now.place }
    {
        self.channel.rendez(self.place)
    }
}
