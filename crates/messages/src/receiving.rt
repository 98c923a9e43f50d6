//! How values are received, and what such a call asks of the queue while it waits.
use crate::answers::{Received, TryReceived};
use crate::channel::Channel;
use crate::messages::Receiver;
use crate::{MessageCall, MessageObject, MessageReply, Wake};
use kernel_lock::LockSeat;
use sleep_wakeup::Proc;
use std::sync::Wait;
use sync_base::{Fault, NoProbe};
use waiting::{Forever, Reply, Runner, WaitingCall};

/// A call that receives a value: what it asks of its queue.
#[derive(Drop)]
pub(crate) struct Receive<'q, T: Drop> {
    pub(crate) channel: &'q Channel<T>,
    pub(crate) place: u64,
}

/// What a call received, and who is still to be woken.
#[derive(Drop)]
pub(crate) struct Got<T> {
    pub(crate) received: Received<T>,
    pub(crate) wake: Option<Wake>,
}

impl<'q, T: Drop> WaitingCall for Receive<'q, T> {
    ghost use Rattle.messages.specs.Asking.{HandleSeat, IsHandleSeatOf};
    ghost use Rattle.messages.specs.Handles.{OwnsRow};
    ghost use Rattle.messages.specs.Receiving.{receiving};

    type Seat = LockSeat<MessageObject<T>>;

    type Out = Got<T>;

    ghost ready = { λ call seat. IsHandleSeatOf call.channel.now seat };

    // The queue has its seat in line.
    ghost waits = { λ call seat. IsHandleSeatOf call.channel.now seat };

    ghost rests = { λ call seat. IsHandleSeatOf call.channel.now seat };

    ghost knows = { λ call words. OwnsRow call.channel.now words };

    ghost Sight = { HandleSeat T };

    ghost sight = { λ seat buffer. seat };

    ghost promise = { λ call. receiving call.channel.now call.place };

    fn begin<R: Wait>(
        &self,
        rt: &R,
        proc: &mut Proc<'_>,
        seat: &mut LockSeat<MessageObject<T>>,
        buffer: &mut [u8],
    ) -> Reply<Got<T>> {
        self.ask(rt, proc, seat, buffer)
    }

    // A take; where it got a value, the sender that was granted its room is woken.
    fn ask<R: Wait>(
        &self,
        rt: &R,
        proc: &mut Proc<'_>,
        seat: &mut LockSeat<MessageObject<T>>,
        _buffer: &mut [u8],
    ) -> Reply<Got<T>> {
        let call = MessageCall::Take {
            seat: seat.number(),
            place: self.place,
            wait: true,
        };
        match self.channel.ask(rt, seat, call) {
            MessageReply::Value(value, wake) => {
                self.channel.wake_next(proc, wake);
                Reply::Done(Got {
                    received: Received::Value(value),
                    wake: None,
                })
            }
            MessageReply::End => Reply::Done(Got {
                received: Received::End,
                wake: None,
            }),
            MessageReply::Wait(grants) => Reply::Wait(grants),
            MessageReply::WornOut => Reply::Refused(Fault::Worn),
            _ => unreachable!(),
        }
    }

    fn leave<R: Wait>(&self, rt: &R, seat: &mut LockSeat<MessageObject<T>>) -> Option<Got<T>> {
        let call = MessageCall::LeaveReceiver {
            seat: seat.number(),
            place: self.place,
        };
        match self.channel.ask(rt, seat, call) {
            MessageReply::Value(value, wake) => Some(Got {
                received: Received::Value(value),
                wake,
            }),
            MessageReply::End => Some(Got {
                received: Received::End,
                wake: None,
            }),
            MessageReply::Empty => None,
            _ => unreachable!(),
        }
    }
}

impl<'m, T: Drop> Receiver<'m, T> {
    ghost use Rattle.std.specs.Prelude.{◌≡◌, IfErr, IfOk};
    ghost use Rattle.sync_base.specs.declared.fault.Fault.TheVariants.{NoRendez};
    ghost use Rattle.waiting.specs.Runners.{run_point};
    ghost use Rattle.waiting.specs.Waiting.{point};
    ghost use Rattle.messages.specs.Handles.{IsSame, OwnsRow};
    ghost use Rattle.messages.specs.Known.{IfKnown, IfMay};
    ghost use Rattle.messages.specs.Receiving.{Receives, ReceivesBy, TriesToReceive};

    /// Receives the oldest value, and waits where there is none. `End` says that the queue is hung
    /// up or its senders have closed, and that each value which it accepted was received, or was
    /// granted to another receiver that comes for it. After recv in thread(2).
    ///
    /// Refuses, in this order, as `NoRendez` a process whose kernel has too few Rendez for the
    /// queue, `Worn` where the numbers of grants are worn out and it would wait, `DoubleSleep`
    /// where another process sleeps in the handle's Rendez, and `Interrupted` with the notes that
    /// ended the wait, which are no longer pending; a refused call has received no value. Where a
    /// value was granted before the notes came, it is received, and the notes are pending again.
    /// Takes no memory.
    pub fn receive<R: Wait>(&mut self, rt: &R, proc: &mut Proc<'_>) -> Result<Received<T>, Fault>
        ensures same { IsSame self.old self.new }
        ensures words { proc.new.words ≡ proc.old.words }

        // It received where the process may receive; else nothing is done.
        ensures known { IfMay (OwnsRow self.old.channel proc.old.words) result
            ((self.new ≡ self.old) × (proc.new ≡ proc.old))
            (Receives self.old.channel self.old.place (point self.old.seat proc.old) result
            (point self.new.seat proc.new)) }
    {
        self.receive_by(rt, proc, &Forever, &mut ())
    }

    /// A `receive` that waits as its runner does.
    ///
    /// Refuses, in this order, as `NoRendez` and `Worn` as `receive` does, and where it would wait
    /// as its runner does; a refused call has received no value. Takes no memory.
    pub fn receive_by<R: Wait, W: Runner>(
        &mut self,
        rt: &R,
        proc: &mut Proc<'_>,
        runner: &W,
        timer: &mut W::Timer,
    ) -> Result<Received<T>, Fault>
        requires timer { W.rests runner.now timer.old }
        ensures same { IsSame self.old self.new }
        ensures words { proc.new.words ≡ proc.old.words }
        ensures timer { W.rests runner.now timer.new }
        ensures kept { W.kept timer.new ≡ W.kept timer.old }

        // It received where the process may receive; else nothing is done.
        ensures known { IfMay (OwnsRow self.old.channel proc.old.words) result
            ((self.new ≡ self.old) × (proc.new ≡ proc.old) × (timer.new ≡ timer.old))
            (ReceivesBy self.old.channel self.old.place (W.runs runner.now)
            (run_point self.old.seat timer.old proc.old) result
            (run_point self.new.seat timer.new proc.new)) }
    {
        if !self.channel.is_known_to(proc) {
            return Err(Fault::NoRendez);
        }
        let call = Receive {
            channel: self.channel,
            place: self.place,
        };
        let seat = &mut self.seat;
        let rendez = self.channel.rendez(self.place);
        let got = match runner.run(rt, proc, rendez, &call, seat, &mut [], timer, &mut NoProbe) {
            Err(fault) => return Err(fault),
            Ok(got) => got,
        };
        self.channel.wake_next(proc, got.wake);
        Ok(got.received)
    }

    /// Receives the oldest value if there is one now. After nbrecv in thread(2).
    ///
    /// Refuses as `NoRendez` as `receive` does. It waits for the queue's lock. Takes no memory.
    pub fn try_receive<R: Wait>(
        &mut self,
        rt: &R,
        proc: &mut Proc<'_>,
    ) -> Result<TryReceived<T>, Fault>
        ensures same { IsSame self.old self.new }
        ensures words { proc.new.words ≡ proc.old.words }
        ensures fault { IfErr result (λ fault. fault ≡ NoRendez) }

        // It received, or found no value, where the process may receive; else nothing is done.
        ensures known { IfKnown (OwnsRow self.old.channel proc.old.words) result
            ((self.new ≡ self.old) × (proc.new ≡ proc.old))
            (IfOk result (λ tried. TriesToReceive self.old.channel self.old.place
            (point self.old.seat proc.old)
            tried (point self.new.seat proc.new))) }
    {
        if !self.channel.is_known_to(proc) {
            return Err(Fault::NoRendez);
        }
        Ok(self.channel.take_now(rt, proc, &mut self.seat, self.place))
    }
}

impl<T: Drop> Channel<T> {
    ghost use Rattle.std.specs.Prelude.{◌≡◌};
    ghost use Rattle.kernel_lock.specs.Seats.{number_of};
    ghost use Rattle.waiting.specs.Waiting.{point};
    ghost use Rattle.messages.specs.Asking.{IsHandleSeatOf};
    ghost use Rattle.messages.specs.Handles.{OwnsRow};
    ghost use Rattle.messages.specs.Receiving.{TriesToReceive};

    // Receives the oldest value if there is one now.
    fn take_now<R: Wait>(
        &self,
        rt: &R,
        proc: &mut Proc<'_>,
        seat: &mut LockSeat<MessageObject<T>>,
        place: u64,
    ) -> TryReceived<T>
        requires seat { IsHandleSeatOf self.now seat.old }
        requires row { OwnsRow self.now proc.old.words }
        ensures seat { IsHandleSeatOf self.now seat.new }
        ensures number { number_of seat.new ≡ number_of seat.old }
        ensures words { proc.new.words ≡ proc.old.words }
        ensures tried { TriesToReceive self.now place
            (point seat.old proc.old) result (point seat.new proc.new) }
    {
        let call = MessageCall::Take {
            seat: seat.number(),
            place,
            wait: false,
        };
        match self.ask(rt, seat, call) {
            MessageReply::Value(value, wake) => {
                self.wake_next(proc, wake);
                TryReceived::Value(value)
            }
            MessageReply::Empty => TryReceived::NotNow,
            MessageReply::End => TryReceived::End,
            _ => unreachable!(),
        }
    }
}
