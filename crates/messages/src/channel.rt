//! The lock of a queue, what a handle asks under it, and whom it wakes.
ghost use Rattle.std.specs.Prelude.{◌+◌, ◌^◌, ◌<◌};

use crate::known::has_row;
use crate::{MessageCall, MessageObject, MessageReply, Side, Wake};
use kernel_lock::{LockSeat, Locked};
use sleep_wakeup::Proc;
use std::sync::Wait;
use sync_base::{Fault, RendezId};

/// The values under their lock, and a Rendez for each place to wait in.
#[derive(Drop)]
pub(crate) struct Channel<T: Drop> {
    pub(crate) lock: Locked<MessageObject<T>>,
    /// How many places there are, and the Rendez of the first one. Those of the others follow.
    pub(crate) handles: u64,
    pub(crate) first: u64,
    ghost row: { first + handles < 2 ^ 64 },
}

/// The seat and the place of a handle that was opened.
#[derive(Drop)]
pub(crate) struct Seated<T: Drop> {
    pub(crate) seat: LockSeat<MessageObject<T>>,
    pub(crate) place: u64,
}

impl<T: Drop> Channel<T> {
    ghost use Rattle.std.specs.Prelude.{◌≡◌, ◌<◌, ◌↔◌, true, IfOk, IfErr, OnErr, IfSome};
    ghost use Rattle.kernel_lock.specs.Seats.{NamesOwn, number_of};
    ghost use Rattle.sync_base.specs.declared.fault.Fault.TheVariants.{NoProc};
    ghost use Rattle.messages.specs.Asking.{Asks, IsHandleSeatOf, IsTold};
    ghost use Rattle.messages.specs.Handles.{IsGiven, IsNotOpened, IsOpened, OwnsRow};
    ghost use Rattle.messages.specs.Handles.{WhyNotGiven, rendez_of_place};
    ghost use Rattle.sleep_wakeup.specs.Actions.{WakesOne};
    ghost use Rattle.messages.specs.MessageObject.{message_definition};
    ghost use Rattle.messages.specs.Waking.{WakesAll, WakesNext, IsOfRow};

    /// Whether the kernel of the process has the Rendez of the queue.
    pub(crate) fn is_known_to(&self, proc: &Proc<'_>) -> bool
        ensures { result ≡ true ↔ OwnsRow self.now proc.now.words }
    {
        has_row(proc, self.first, self.handles)
    }

    /// Opens the seat of a handle on this side. Refuses as `NoProc` where there is no place.
    pub(crate) fn open<R: Wait>(
        &self,
        rt: &R,
        seat: LockSeat<MessageObject<T>>,
        side: Side,
    ) -> Result<Seated<T>, Fault>
        requires { IsHandleSeatOf self.now seat }
        ensures seat { IfOk result (λ opened. IsHandleSeatOf self.now opened.seat) }
        ensures place { IfOk result (λ opened. opened.place < self.now.handles) }
        ensures opened { IfOk result (λ opened.
            IsOpened self.now side seat opened.place opened.seat) }
        ensures fault { IfErr result (λ fault. fault ≡ NoProc) }
        ensures refused { OnErr result (IsNotOpened self.now side seat) }
    {
        let mut seat = seat;
        let call = MessageCall::Open {
            side,
            seat: seat.number(),
        };
        match self.ask(rt, &mut seat, call) {
            MessageReply::Opened(place) => Ok(Seated { seat, place }),
            MessageReply::NoPlace => Err(Fault::NoProc),
            _ => unreachable!(),
        }
    }

    /// A further handle on this side. Refuses as `NoProc` where there is no place for it.
    pub(crate) fn split<R: Wait>(
        &self,
        rt: &R,
        seat: &mut LockSeat<MessageObject<T>>,
        side: Side,
    ) -> Result<Seated<T>, Fault>
        requires { IsHandleSeatOf self.now seat.old }
        ensures seat { IsHandleSeatOf self.now seat.new }
        ensures number { number_of seat.new ≡ number_of seat.old }

        // The child has a seat that no other has, and is open.
        ensures child { IfOk result (λ child. IsHandleSeatOf self.now child.seat) }
        ensures place { IfOk result (λ child. child.place < self.now.handles) }
        ensures given { IfOk result (λ child.
            IsGiven self.now side seat.old seat.new child.seat child.place) }

        // All places are taken, or all seats were given.
        ensures fault { IfErr result (λ fault. fault ≡ NoProc) }
        ensures refused { OnErr result (WhyNotGiven self.now side seat.old seat.new) }
    {
        let first = self.lock.split(rt, seat)?;
        self.open(rt, first, side)
    }

    /// The Rendez in which who calls from this place waits.
    pub(crate) fn rendez(&self, place: u64) -> RendezId
        requires { place < self.now.handles }
        ensures { result ≡ rendez_of_place self.now place }
    {
        RendezId(self.first + place)
    }

    /// Asks the queue, in its turn.
    pub(crate) fn ask<R: Wait>(
        &self,
        rt: &R,
        seat: &mut LockSeat<MessageObject<T>>,
        call: MessageCall<T>,
    ) -> MessageReply<T>
        requires seat { IsHandleSeatOf self.now seat.old }
        requires named { NamesOwn message_definition seat.old call }
        ensures asked { Asks self.now call result seat.old seat.new }
        ensures told { IsTold self.now.handles call result }
    {
        self.lock.apply(rt, seat, call)
    }

    /// Wakes who was granted what it waits for, if somebody was.
    pub(crate) fn wake_next(&self, proc: &mut Proc<'_>, wake: Option<Wake>)
        requires row { OwnsRow self.now proc.old.words }
        requires there { IfSome wake (IsOfRow self.now) }
        ensures woken { WakesNext self.now wake proc.old.process proc.new.process }
        ensures words { proc.new.words ≡ proc.old.words }
    {
        if let Some(Wake { place, number }) = wake {
            self.wake(proc, place, number);
        }
    }

    /// Wakes whoever waits at any place, with this number.
    pub(crate) fn wake_all(&self, proc: &mut Proc<'_>, number: u64)
        requires row { OwnsRow self.now proc.old.words }
        ensures woken { WakesAll self.now self.now.handles number
            proc.old.process proc.new.process }
        ensures words { proc.new.words ≡ proc.old.words }
    {
        'waking: for place in 0..self.handles {
            self.wake(proc, place, number);
        }
    }

    // Wakes who waits at this place.
    fn wake(&self, proc: &mut Proc<'_>, place: u64, number: u64)
        requires row { OwnsRow self.now proc.old.words }
        requires there { place < self.now.handles }
        ensures woken { WakesOne proc.old.process (rendez_of_place self.now place) number
            proc.new.process }
        ensures words { proc.new.words ≡ proc.old.words }
    {
        match proc.wakeup(RendezId(self.first + place), number) {
            Ok(_) => {}
            Err(_) => unreachable!(),
        }
    }
}
