//! How a queue ends: it is hung up, or its senders or its receivers close.
use crate::channel::Channel;
use crate::messages::{Receiver, Sender, Sending};
use crate::{MessageCall, MessageObject, MessageReply, Side};
use kernel_lock::LockSeat;
use sleep_wakeup::Proc;
use std::sync::Wait;
use sync_base::Fault;

impl<'m, T: Drop> Sender<'m, T> {
    ghost use Rattle.std.specs.Prelude.{◌≡◌, IfErr};
    ghost use Rattle.sync_base.specs.declared.fault.Fault.TheVariants.{NoRendez};
    ghost use Rattle.waiting.specs.Waiting.{point};
    ghost use Rattle.messages.specs.HangingUp.{Closes, HangsUp};
    ghost use Rattle.messages.specs.declared.message_object.Side.TheVariants.{Senders};
    ghost use Rattle.messages.specs.Handles.{IsSame, OwnsRow};
    ghost use Rattle.messages.specs.Known.{IfKnown};

    /// Hangs the queue up, for all and for good. What was accepted is received, and then the end;
    /// no value is accepted any more. Whoever waits is woken. A second hangup does nothing. Own;
    /// the hangup of a pipe(2).
    ///
    /// Refuses as `NoRendez` a process whose kernel has too few Rendez for the queue. It waits for
    /// the queue's lock. Takes no memory.
    pub fn hangup<R: Wait>(&mut self, rt: &R, proc: &mut Proc<'_>) -> Result<(), Fault>
        ensures same { IsSame self.old self.new }
        ensures words { proc.new.words ≡ proc.old.words }
        ensures fault { IfErr result (λ fault. fault ≡ NoRendez) }

        // It hung up where the process may; else nothing is done.
        ensures known { IfKnown (OwnsRow self.old.channel proc.old.words) result
            ((self.new ≡ self.old) × (proc.new ≡ proc.old))
            (HangsUp self.old.channel
            (point self.old.seat proc.old) (point self.new.seat proc.new)) }
    {
        if !self.channel.is_known_to(proc) {
            return Err(Fault::NoRendez);
        }
        self.channel.hang_up(rt, proc, &mut self.state.seat);
        Ok(())
    }

    /// Closes the sender, whose place another handle may have. Once the last open sender has
    /// closed, receivers receive what was accepted, and then the end, and whoever waits is woken.
    /// After the senders of std and the close of Go's channels.
    ///
    /// Refuses as `NoRendez` a process whose kernel has too few Rendez for the queue; then the
    /// sender is gone, and counts as open for good. It waits for the queue's lock. Takes no memory.
    pub fn close<R: Wait>(self, rt: &R, proc: &mut Proc<'_>) -> Result<(), Fault>
        ensures words { proc.new.words ≡ proc.old.words }
        ensures fault { IfErr result (λ fault. fault ≡ NoRendez) }

        // It closed where the process may; else nothing is done.
        ensures known { IfKnown (OwnsRow self.entry.channel proc.old.words) result
            (proc.new ≡ proc.old)
            (Closes self.entry.channel Senders (point self.entry.seat proc.old) proc.new.process) }
    {
        if !self.channel.is_known_to(proc) {
            return Err(Fault::NoRendez);
        }
        let Sender {
            channel,
            place: _,
            state: Sending { seat, value: _ },
        } = self;
        channel.close(rt, proc, seat, Side::Senders);
        Ok(())
    }
}

impl<'m, T: Drop> Receiver<'m, T> {
    ghost use Rattle.std.specs.Prelude.{◌≡◌, IfErr};
    ghost use Rattle.sync_base.specs.declared.fault.Fault.TheVariants.{NoRendez};
    ghost use Rattle.waiting.specs.Waiting.{point};
    ghost use Rattle.messages.specs.HangingUp.{Closes, HangsUp};
    ghost use Rattle.messages.specs.declared.message_object.Side.TheVariants.{Receivers};
    ghost use Rattle.messages.specs.Handles.{IsSame, OwnsRow};
    ghost use Rattle.messages.specs.Known.{IfKnown};

    /// Hangs the queue up, for all and for good. What was accepted is received, and then the end;
    /// no value is accepted any more. Whoever waits is woken. A second hangup does nothing. Own;
    /// the hangup of a pipe(2).
    ///
    /// Refuses as `NoRendez` a process whose kernel has too few Rendez for the queue. It waits for
    /// the queue's lock. Takes no memory.
    pub fn hangup<R: Wait>(&mut self, rt: &R, proc: &mut Proc<'_>) -> Result<(), Fault>
        ensures same { IsSame self.old self.new }
        ensures words { proc.new.words ≡ proc.old.words }
        ensures fault { IfErr result (λ fault. fault ≡ NoRendez) }

        // It hung up where the process may; else nothing is done.
        ensures known { IfKnown (OwnsRow self.old.channel proc.old.words) result
            ((self.new ≡ self.old) × (proc.new ≡ proc.old))
            (HangsUp self.old.channel
            (point self.old.seat proc.old) (point self.new.seat proc.new)) }
    {
        if !self.channel.is_known_to(proc) {
            return Err(Fault::NoRendez);
        }
        self.channel.hang_up(rt, proc, &mut self.seat);
        Ok(())
    }

    /// Closes the receiver, whose place another handle may have. Once the last open receiver has
    /// closed, senders are refused as after a hangup, and whoever waits is woken. After the
    /// receivers of std.
    ///
    /// Refuses as `NoRendez` a process whose kernel has too few Rendez for the queue; then the
    /// receiver is gone, and counts as open for good. It waits for the queue's lock. Takes no
    /// memory.
    pub fn close<R: Wait>(self, rt: &R, proc: &mut Proc<'_>) -> Result<(), Fault>
        ensures words { proc.new.words ≡ proc.old.words }
        ensures fault { IfErr result (λ fault. fault ≡ NoRendez) }

        // It closed where the process may; else nothing is done.
        ensures known { IfKnown (OwnsRow self.entry.channel proc.old.words) result
            (proc.new ≡ proc.old)
            (Closes self.entry.channel Receivers (point self.entry.seat proc.old)
            proc.new.process) }
    {
        if !self.channel.is_known_to(proc) {
            return Err(Fault::NoRendez);
        }
        let Receiver {
            channel,
            place: _,
            seat,
        } = self;
        channel.close(rt, proc, seat, Side::Receivers);
        Ok(())
    }
}

impl<T: Drop> Channel<T> {
    ghost use Rattle.std.specs.Prelude.{◌≡◌};
    ghost use Rattle.kernel_lock.specs.Seats.{number_of};
    ghost use Rattle.waiting.specs.Waiting.{point};
    ghost use Rattle.messages.specs.Asking.{IsHandleSeatOf};
    ghost use Rattle.messages.specs.HangingUp.{Closes, HangsUp};
    ghost use Rattle.messages.specs.Handles.{OwnsRow};

    // The first hangup wakes all who wait, with a number above all that they were told.
    fn hang_up<R: Wait>(&self, rt: &R, proc: &mut Proc<'_>, seat: &mut LockSeat<MessageObject<T>>)
        requires seat { IsHandleSeatOf self.now seat.old }
        requires row { OwnsRow self.now proc.old.words }
        ensures seat { IsHandleSeatOf self.now seat.new }
        ensures number { number_of seat.new ≡ number_of seat.old }
        ensures words { proc.new.words ≡ proc.old.words }
        ensures hung { HangsUp self.now
            (point seat.old proc.old) (point seat.new proc.new) }
    {
        match self.ask(rt, seat, MessageCall::Hang) {
            MessageReply::Hung(number) => self.wake_all(proc, number),
            MessageReply::HungBefore => {}
            _ => unreachable!(),
        }
    }

    // The last one of its side hangs the queue up, and wakes all who wait.
    fn close<R: Wait>(
        &self,
        rt: &R,
        proc: &mut Proc<'_>,
        seat: LockSeat<MessageObject<T>>,
        side: Side,
    )
        requires seat { IsHandleSeatOf self.now seat }
        requires row { OwnsRow self.now proc.old.words }
        ensures words { proc.new.words ≡ proc.old.words }
        ensures closed { Closes self.now side (point seat proc.old) proc.new.process }
    {
        let mut seat = seat;
        let call = MessageCall::Close {
            side,
            seat: seat.number(),
        };
        match self.ask(rt, &mut seat, call) {
            MessageReply::Hung(number) => self.wake_all(proc, number),
            MessageReply::HungBefore | MessageReply::Closed => {}
            _ => unreachable!(),
        }
    }
}
