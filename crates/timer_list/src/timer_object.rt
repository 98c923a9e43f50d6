//! Timers, one for each seat, as an object that one thread at a time calls.
ghost use Rattle.std.specs.Prelude.{◌≡◌, ◌<◌, length, IfOk, IfErr, replicate};
ghost use Rattle.sleep_core.specs.Limits.{IsProcCount};
ghost use Rattle.timer_list.specs.Timers.{answer_to, after, deadline_of};
ghost use Rattle.timer_list.specs.declared.timer_object.Timer.TheVariants.{Unset};

use crate::due::Due;
use crate::tournament::Tournament;
use std::alloc::Global;
use std::marker::Model;
use sync_base::{Fault, Pid};

/// The state of a seat's timer.
#[derive(Clone, Copy, Debug, PartialEq, Eq)]
pub enum Timer {
    /// The seat has no timer, or its last timer was cancelled.
    Unset,
    /// Only a tick from the deadline on expires it: then the note is posted to the process.
    Set { pid: Pid, deadline: u64 },
    /// It expired, and was not cancelled since.
    Expired,
}

#[derive(Clone, Copy, Debug, PartialEq, Eq)]
pub enum TimerCall {
    /// Sets the timer of a seat.
    Add { seat: u64, pid: Pid, deadline: u64 },
    /// It is now this moment: ends the first timer whose deadline has come.
    Expire { now: u64 },
    /// Takes the timer of a seat away, and asks what became of it.
    Cancel { seat: u64 },
}

#[derive(Clone, Copy, Debug, PartialEq, Eq)]
pub enum TimerReply {
    Added,
    /// A timer expired; this is the process that it was for.
    Ended(Pid),
    /// No deadline has come.
    NoneDue,
    /// The timer was still to come.
    Removed,
    /// The timer had expired. This is answered once.
    Expired,
    /// There was no timer.
    Absent,
    /// There is no such seat, or its last timer was not cancelled. Nothing changes.
    Busy,
}

/// The moment `ms` milliseconds after `now`, and at most the last moment.
pub fn deadline(now: u64, ms: u32) -> u64
    ensures { result ≡ deadline_of now ms }
{
    now.saturating_add(ms as u64)
}

/// Timers, one for each seat.
#[derive(Debug, Drop)]
pub struct TimerObject {
    timers: Vec<Timer>,
    dues: Tournament,
}

impl Model for TimerObject {
    ghost use Rattle.std.specs.Prelude.{◌≡◌, List};
    ghost use Rattle.timer_list.specs.declared.timer_object.Timer.{Timer};

    ghost Value = { List Timer };

    ghost use Rattle.timer_list.specs.Timers.{dues_from};

    ghost view = { λ t. t.timers.items };

    // Those that are set are the ones that play.
    ghost invariant = { λ t. t.dues ≡ dues_from 0 t.timers.items };
}

impl TimerObject {
    /// No timer is set. It takes all its room: no other call takes memory.
    ///
    /// Memory: room for the timers was refused.
    pub fn new(alloc: Global, procs: u64) -> Result<TimerObject, Fault>
        requires { IsProcCount procs }
        ensures ok { IfOk result (λ t. t ≡ replicate procs Unset) }
        ensures err { IfErr result (λ fault. fault ≡ Fault.Memory) }
    {
        Ok(TimerObject {
            timers: vec![in alloc; Timer::Unset; procs as usize]?,
            dues: Tournament::new(alloc, procs as usize)?,
        })
    }

    /// Answers a call, which never waits and takes no memory.
    pub fn run(&mut self, call: TimerCall) -> TimerReply
        ensures answer { result ≡ answer_to self.old call }
        ensures after { self.new ≡ after self.old call }
    {
        match call {
            TimerCall::Add {
                seat,
                pid,
                deadline,
            } => self.add(seat, pid, deadline),
            TimerCall::Expire { now } => self.expire(now),
            TimerCall::Cancel { seat } => self.cancel(seat),
        }
    }

    fn add(&mut self, seat: u64, pid: Pid, deadline: u64) -> TimerReply
        ensures answer { result ≡ answer_to self.old (TimerCall.Add seat pid deadline) }
        ensures after { self.new ≡ after self.old (TimerCall.Add seat pid deadline) }
    {
        if seat >= self.timers.len() as u64 {
            return TimerReply::Busy;
        }
        let place = seat as usize;
        match self.timers[place] {
            Timer::Unset => {
                self.timers[place] = Timer::Set { pid, deadline };
                self.dues.enter(place, Some(Due { deadline, seat }));
                TimerReply::Added
            }
            Timer::Set { .. } | Timer::Expired => TimerReply::Busy,
        }
    }

    fn expire(&mut self, now: u64) -> TimerReply
        ensures answer { result ≡ answer_to self.old (TimerCall.Expire now) }
        ensures after { self.new ≡ after self.old (TimerCall.Expire now) }
    {
        let Some(due) = self.dues.earliest() else {
            return TimerReply::NoneDue;
        };
        if due.deadline > now {
            return TimerReply::NoneDue;
        }
        let place = due.seat as usize;
        let Timer::Set { pid, deadline: _ } = self.timers[place] else {
            unreachable!();
        };
        self.timers[place] = Timer::Expired;
        self.dues.enter(place, None);
        TimerReply::Ended(pid)
    }

    fn cancel(&mut self, seat: u64) -> TimerReply
        ensures answer { result ≡ answer_to self.old (TimerCall.Cancel seat) }
        ensures after { self.new ≡ after self.old (TimerCall.Cancel seat) }
    {
        if seat >= self.timers.len() as u64 {
            return TimerReply::Busy;
        }
        let place = seat as usize;
        match self.timers[place] {
            Timer::Unset => TimerReply::Absent,
            Timer::Expired => {
                self.timers[place] = Timer::Unset;
                TimerReply::Expired
            }
            Timer::Set { .. } => {
                self.timers[place] = Timer::Unset;
                self.dues.enter(place, None);
                TimerReply::Removed
            }
        }
    }
}
