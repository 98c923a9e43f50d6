//! Calls of a queue of values that wait until a moment.
use crate::clock::Watch;
use messages::{Received, Receiver, Sender, Unsent};
use sleep_wakeup::Proc;
use std::sync::Wait;
use sync_base::Fault;
use timer_list::Deadline;

/// What a sender is called for, beside its own calls.
pub trait SendCalls<T> {
    /// A `send` that waits until a tick of the clock at the moment `now` + `ms` or later; that
    /// moment is at most `u64::MAX`. Own; send in thread(2) waits as long as it takes.
    ///
    /// Refuses, in this order, as `NoRendez`, `Hungup`, `Worn` and `DoubleSleep` as `send` does, as
    /// `Interrupted` with the notes that ended the wait, and as `TimedOut` where a tick ended it
    /// and no other note came. The value comes back from each refusal. With any other answer, other
    /// notes that came are pending again. Where a tick has taken its timer, it takes a note
    /// `expired` before it answers: so no late expiry reaches a later sleep, unless others post it.
    /// Takes no memory.
    fn send_within<R: Wait>(
        &mut self,
        rt: &R,
        proc: &mut Proc<'_>,
        watch: &mut Watch<'_>,
        now: u64,
        ms: u32,
        value: T,
    ) -> Result<(), Unsent<T>>;
}

/// What a receiver is called for, beside its own calls.
pub trait ReceiveCalls<T> {
    /// A `receive` that waits until a tick of the clock at the moment `now` + `ms` or later; that
    /// moment is at most `u64::MAX`. Own; recv in thread(2) waits as long as it takes.
    ///
    /// Refuses, in this order, as `NoRendez`, `Worn` and `DoubleSleep` as `receive` does, as
    /// `Interrupted` with the notes that ended the wait, and as `TimedOut` where a tick ended it
    /// and no other note came; a refused call has received no value. What becomes of other notes,
    /// and of the note of a tick, is as with `send_within`. Takes no memory.
    fn receive_within<R: Wait>(
        &mut self,
        rt: &R,
        proc: &mut Proc<'_>,
        watch: &mut Watch<'_>,
        now: u64,
        ms: u32,
    ) -> Result<Received<T>, Fault>;
}

impl<'m, T: Drop> SendCalls<T> for Sender<'m, T> {
    ghost use Rattle.std.specs.Prelude.{◌≡◌, IfErr};
    ghost use Rattle.messages.specs.Handles.{IsSame};
    ghost use Rattle.timer_list.specs.Timers.{deadline_of};
    ghost use Rattle.plan9.specs.Queues.{SendsWithin, watched_handle};
    ghost use Rattle.plan9.specs.Watches.{IsSameWatch};

    fn send_within<R: Wait>(
        &mut self,
        rt: &R,
        proc: &mut Proc<'_>,
        watch: &mut Watch<'_>,
        now: u64,
        ms: u32,
        value: T,
    ) -> Result<(), Unsent<T>>
        ensures sent { SendsWithin (deadline_of now ms) value
            (watched_handle self.old proc.old watch.old) result
            (watched_handle self.new proc.new watch.new) }
        ensures back { IfErr result (λ unsent. unsent.value ≡ value) }
        ensures same { IsSame self.old self.new }
        ensures words { proc.new.words ≡ proc.old.words }
        ensures watch { IsSameWatch watch.old watch.new }
    {
        let until = Deadline {
            timers: watch.timers,
            from: now,
            ms,
        };
        self.send_by(rt, proc, value, &until, &mut watch.seat)
    }
}

impl<'m, T: Drop> ReceiveCalls<T> for Receiver<'m, T> {
    ghost use Rattle.std.specs.Prelude.{◌≡◌};
    ghost use Rattle.messages.specs.Handles.{IsSame};
    ghost use Rattle.timer_list.specs.Timers.{deadline_of};
    ghost use Rattle.plan9.specs.Queues.{ReceivesWithin, watched_handle};
    ghost use Rattle.plan9.specs.Watches.{IsSameWatch};

    fn receive_within<R: Wait>(
        &mut self,
        rt: &R,
        proc: &mut Proc<'_>,
        watch: &mut Watch<'_>,
        now: u64,
        ms: u32,
    ) -> Result<Received<T>, Fault>
        ensures received { ReceivesWithin (deadline_of now ms)
            (watched_handle self.old proc.old watch.old) result
            (watched_handle self.new proc.new watch.new) }
        ensures same { IsSame self.old self.new }
        ensures words { proc.new.words ≡ proc.old.words }
        ensures watch { IsSameWatch watch.old watch.new }
    {
        let until = Deadline {
            timers: watch.timers,
            from: now,
            ms,
        };
        self.receive_by(rt, proc, &until, &mut watch.seat)
    }
}
