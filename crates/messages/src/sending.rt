//! How values are sent, and what such a call asks of the queue while it waits.
use crate::answers::{TrySent, Unsent};
use crate::channel::Channel;
use crate::messages::{Sender, Sending};
use crate::{MessageCall, MessageObject, MessageReply, Wake};
use kernel_lock::LockSeat;
use sleep_wakeup::Proc;
use std::snapshot::Snapshot;
use std::sync::Wait;
use sync_base::{Fault, NoProbe};
use waiting::{Forever, Reply, Runner, WaitingCall};

/// A call that sends this value: what it asks of its queue. Its result is who is still to be woken.
#[derive(Drop)]
pub(crate) struct Send<'q, T: Drop> {
    pub(crate) channel: &'q Channel<T>,
    pub(crate) place: u64,
    pub(crate) value: Snapshot<T>,
}

impl<'q, T: Drop> WaitingCall for Send<'q, T> {
    ghost use Rattle.messages.specs.Handles.{OwnsRow};
    ghost use Rattle.messages.specs.Sending.{IsSending, IsSent, sending};
    ghost use Rattle.messages.specs.declared.messages.Sending.{Sending};

    type Seat = Sending<T>;

    type Out = Option<Wake>;

    ghost ready = { λ call state. IsSending call.channel.now call.place call.value.value state };

    // The queue has its seat in line, and the call has the value.
    ghost waits = { λ call state. IsSending call.channel.now call.place call.value.value state };

    ghost rests = { λ call state. IsSent call.channel.now state };

    ghost knows = { λ call words. OwnsRow call.channel.now words };

    ghost Sight = { Sending T };

    ghost sight = { λ state buffer. state };

    ghost promise = { λ call. sending call.channel.now call.place call.value.value };

    fn begin<R: Wait>(
        &self,
        rt: &R,
        proc: &mut Proc<'_>,
        state: &mut Sending<T>,
        buffer: &mut [u8],
    ) -> Reply<Option<Wake>> {
        self.ask(rt, proc, state, buffer)
    }

    // A put; where it was accepted, the receiver that was granted a value is woken.
    fn ask<R: Wait>(
        &self,
        rt: &R,
        proc: &mut Proc<'_>,
        state: &mut Sending<T>,
        _buffer: &mut [u8],
    ) -> Reply<Option<Wake>> {
        let Some(value) = state.value.take() else {
            unreachable!()
        };
        let call = MessageCall::Put {
            seat: state.seat.number(),
            place: self.place,
            value,
            wait: true,
        };
        match self.channel.ask(rt, &mut state.seat, call) {
            MessageReply::Accepted(wake) => {
                self.channel.wake_next(proc, wake);
                Reply::Done(None)
            }
            MessageReply::Full(back, grants) => {
                state.value = Some(back);
                Reply::Wait(grants)
            }
            MessageReply::Hungup(back) => {
                state.value = Some(back);
                Reply::Refused(Fault::Hungup)
            }
            MessageReply::Worn(back) => {
                state.value = Some(back);
                Reply::Refused(Fault::Worn)
            }
            _ => unreachable!(),
        }
    }

    fn leave<R: Wait>(&self, rt: &R, state: &mut Sending<T>) -> Option<Option<Wake>> {
        let Some(value) = state.value.take() else {
            unreachable!()
        };
        let call = MessageCall::LeaveSender {
            seat: state.seat.number(),
            place: self.place,
            value,
        };
        match self.channel.ask(rt, &mut state.seat, call) {
            MessageReply::Accepted(wake) => Some(wake),
            MessageReply::NotNow(back) => {
                state.value = Some(back);
                None
            }
            _ => unreachable!(),
        }
    }
}

impl<'m, T: Drop> Sender<'m, T> {
    ghost use Rattle.std.specs.Prelude.{◌≡◌, IfErr};
    ghost use Rattle.waiting.specs.Runners.{as_long_as_it_takes, run_point};
    ghost use Rattle.waiting.specs.Waiting.{point};
    ghost use Rattle.messages.specs.Handles.{IsSame, OwnsRow};
    ghost use Rattle.messages.specs.Known.{IfKnown, IfMay};
    ghost use Rattle.messages.specs.Sending.{GivesBackTried, Sends, SendsBy, TriesToSend};
    ghost use Rattle.messages.specs.Sending.{fault_of, may_of};

    /// Sends the value, and waits where there is no room. After send in thread(2).
    ///
    /// Refuses, in this order, as `NoRendez` a process whose kernel has too few Rendez for the
    /// queue, `Hungup` where the queue is hung up or its receivers have closed, `Worn` where the
    /// numbers of grants are worn out and it would wait, `DoubleSleep` where another process sleeps
    /// in the handle's Rendez, and `Interrupted` with the notes that ended the wait, which are no
    /// longer pending. The value comes back from each refusal. Where room was granted before the
    /// notes came, the value is sent, and the notes are pending again. Takes no memory.
    pub fn send<R: Wait>(&mut self, rt: &R, proc: &mut Proc<'_>, value: T) -> Result<(), Unsent<T>>
        ensures same { IsSame self.old self.new }
        ensures words { proc.new.words ≡ proc.old.words }

        // A value that is refused comes back.
        ensures back { IfErr result (λ unsent. unsent.value ≡ value) }

        // It sent where the process may send; else nothing is done.
        ensures known { IfMay (OwnsRow self.old.channel proc.old.words) (fault_of result)
            ((self.new ≡ self.old) × (proc.new ≡ proc.old))
            (Sends self.old.channel self.old.place value (point self.old.seat proc.old)
            (fault_of result)
            (point self.new.seat proc.new)) }
    {
        self.send_by(rt, proc, value, &Forever, &mut ())
    }

    /// A `send` that waits as its runner does.
    ///
    /// Refuses, in this order, as `NoRendez`, `Hungup` and `Worn` as `send` does, and where it
    /// would wait as its runner does. The value comes back from each refusal. Takes no memory.
    pub fn send_by<R: Wait, W: Runner>(
        &mut self,
        rt: &R,
        proc: &mut Proc<'_>,
        value: T,
        runner: &W,
        timer: &mut W::Timer,
    ) -> Result<(), Unsent<T>>
        requires timer { W.rests runner.now timer.old }
        ensures same { IsSame self.old self.new }
        ensures words { proc.new.words ≡ proc.old.words }
        ensures timer { W.rests runner.now timer.new }
        ensures kept { W.kept timer.new ≡ W.kept timer.old }

        // A value that is refused comes back.
        ensures back { IfErr result (λ unsent. unsent.value ≡ value) }

        // It sent where the process may send; else nothing is done. Whatever its runner is, it was
        // a send.
        ensures known { IfMay (OwnsRow self.old.channel proc.old.words) (fault_of result)
            ((self.new ≡ self.old) × (proc.new ≡ proc.old) × (timer.new ≡ timer.old))
            (SendsBy self.old.channel self.old.place value (W.runs runner.now)
            (run_point self.old.seat timer.old proc.old) (fault_of result)
            (run_point self.new.seat timer.new proc.new)) }
    {
        if !self.channel.is_known_to(proc) {
            return Err(Unsent {
                value,
                fault: Fault::NoRendez,
            });
        }
        let call = Send {
            channel: self.channel,
            place: self.place,
            value: Snapshot::of(&value),
        };
        let state = &mut self.state;
        state.value = Some(value);
        let rendez = self.channel.rendez(self.place);
        match runner.run(rt, proc, rendez, &call, state, &mut [], timer, &mut NoProbe) {
            Ok(wake) => {
                self.channel.wake_next(proc, wake);
                Ok(())
            }
            Err(fault) => match self.state.value.take() {
                Some(value) => Err(Unsent { value, fault }),
                None => unreachable!(),
            },
        }
    }

    /// Sends the value if there is room now; else the value comes back. After nbsend in thread(2).
    /// It waits for the queue's lock. Takes no memory.
    pub fn try_send<R: Wait>(&mut self, rt: &R, proc: &mut Proc<'_>, value: T) -> TrySent<T>
        ensures same { IsSame self.old self.new }
        ensures words { proc.new.words ≡ proc.old.words }

        // A value that was not sent comes back.
        ensures back { GivesBackTried value result }

        // It sent, or found no room or the end, where the process may send; else nothing is done.
        ensures known { IfKnown (OwnsRow self.old.channel proc.old.words) (may_of result)
            ((self.new ≡ self.old) × (proc.new ≡ proc.old))
            (TriesToSend self.old.channel self.old.place value (point self.old.seat proc.old) result
            (point self.new.seat proc.new)) }
    {
        if !self.channel.is_known_to(proc) {
            return TrySent::NoRendez(value);
        }
        let place = self.place;
        self.channel
            .put_now(rt, proc, &mut self.state.seat, place, value)
    }
}

impl<T: Drop> Channel<T> {
    ghost use Rattle.std.specs.Prelude.{◌≡◌};
    ghost use Rattle.kernel_lock.specs.Seats.{number_of};
    ghost use Rattle.waiting.specs.Waiting.{point};
    ghost use Rattle.messages.specs.Asking.{IsHandleSeatOf};
    ghost use Rattle.messages.specs.Handles.{OwnsRow};
    ghost use Rattle.messages.specs.Sending.{GivesBackTried, TriesToSend};

    // Sends the value if there is room now.
    fn put_now<R: Wait>(
        &self,
        rt: &R,
        proc: &mut Proc<'_>,
        seat: &mut LockSeat<MessageObject<T>>,
        place: u64,
        value: T,
    ) -> TrySent<T>
        requires seat { IsHandleSeatOf self.now seat.old }
        requires row { OwnsRow self.now proc.old.words }
        ensures seat { IsHandleSeatOf self.now seat.new }
        ensures number { number_of seat.new ≡ number_of seat.old }
        ensures words { proc.new.words ≡ proc.old.words }
        ensures back { GivesBackTried value result }
        ensures tried { TriesToSend self.now place value
            (point seat.old proc.old) result (point seat.new proc.new) }
    {
        let call = MessageCall::Put {
            seat: seat.number(),
            place,
            value,
            wait: false,
        };
        match self.ask(rt, seat, call) {
            MessageReply::Accepted(wake) => {
                self.wake_next(proc, wake);
                TrySent::Sent
            }
            MessageReply::NotNow(back) => TrySent::Full(back),
            MessageReply::Hungup(back) => TrySent::Over(back),
            _ => unreachable!(),
        }
    }
}
