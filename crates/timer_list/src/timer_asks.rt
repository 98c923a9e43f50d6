//! What a seat asks of its timers.
ghost use Rattle.std.specs.Prelude.{◌≡◌, Some, true, false};
ghost use Rattle.kernel_lock.specs.Seats.{number_of};
ghost use Rattle.timer_list.specs.Asking.{AsksTimers, cancel_reply, expire_reply};
ghost use Rattle.timer_list.specs.Seats.{IsSeatAtTimers, IsTimerSeatOf, cancelled_at, set_at};

use crate::timers::{TimerSeat, Timers};
use crate::{TimerCall, TimerReply};
use sleep_wakeup::Proc;
use std::sync::Wait;
use sync_base::Pid;

impl Timers {
    /// Sets the seat's timer: only a tick at this moment or later expires it, and posts the note
    /// `expired` to the process of this pid. The seat notes where `proc` is. The last timer of the
    /// seat was cancelled, so it is never refused. It waits for the timers' lock. Takes no memory.
    pub fn add<R: Wait>(
        &self,
        rt: &R,
        proc: &Proc<'_>,
        seat: &mut TimerSeat,
        pid: Pid,
        deadline: u64,
    )
        requires { IsTimerSeatOf self.now seat.old }
        ensures asks { AsksTimers self.now true
            (TimerCall.Add (number_of seat.old.seat) pid deadline) TimerReply.Added
            seat.old seat.new }

        // Its process has made these steps when the timer is set.
        ensures set { set_at seat.new ≡ Some proc.now.process }
    {
        let number = seat.seat.number();
        let call = TimerCall::Add {
            seat: number,
            pid,
            deadline,
        };
        match self.ask(rt, proc, seat, call) {
            TimerReply::Added => {}
            _ => unreachable!(),
        }
    }

    /// Takes the seat's timer away, and says whether it had expired: then a tick has posted its
    /// note, or is about to. The seat notes where `proc` is. It has set its timer, so it is never
    /// refused. It waits for the timers' lock. Takes no memory.
    pub fn cancel<R: Wait>(&self, rt: &R, proc: &Proc<'_>, seat: &mut TimerSeat) -> bool
        requires { IsSeatAtTimers self.now true seat.old }
        ensures asks { AsksTimers self.now false (TimerCall.Cancel (number_of seat.old.seat))
            (cancel_reply result) seat.old seat.new }

        // Its process has made these steps when the timer is cancelled.
        ensures cancelled { cancelled_at seat.new ≡ Some proc.now.process }
        ensures set { set_at seat.new ≡ set_at seat.old }
    {
        let number = seat.seat.number();
        match self.ask(rt, proc, seat, TimerCall::Cancel { seat: number }) {
            TimerReply::Removed => false,
            TimerReply::Expired => true,
            _ => unreachable!(),
        }
    }

    /// Ends the first timer whose deadline has come, and returns its process.
    pub(crate) fn expire<R: Wait>(
        &self,
        rt: &R,
        proc: &Proc<'_>,
        seat: &mut TimerSeat,
        now: u64,
    ) -> Option<Pid>
        requires { IsTimerSeatOf self.now seat.old }
        ensures asks { AsksTimers self.now false (TimerCall.Expire now) (expire_reply result)
            seat.old seat.new }
    {
        match self.ask(rt, proc, seat, TimerCall::Expire { now }) {
            TimerReply::Ended(pid) => Some(pid),
            TimerReply::NoneDue => None,
            _ => unreachable!(),
        }
    }
}
