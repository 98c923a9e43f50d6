//! How a tick says which moment it is, and timers expire.
ghost use Rattle.std.specs.Prelude.{◌≡◌, false, nat_lt, IsTrue};
ghost use Rattle.sync_base.specs.declared.note.Note.TheVariants.{Expired};
ghost use Rattle.sync_base.specs.NoteSet.{only};
ghost use Rattle.rendez_words.specs.Steps.{notes};
ghost use Rattle.rendez_words.specs.Words.{procs_of};
ghost use Rattle.kernel_lock.specs.Seats.{number_of};
ghost use Rattle.timer_list.specs.Seats.{IsTimerSeatOf};
ghost use Rattle.timer_list.specs.Ticking.{Ticks};
ghost use Rattle.waiting.specs.Waiting.{point};

use crate::timers::{TimerSeat, Timers};
use sleep_wakeup::Proc;
use std::sync::Wait;
use sync_base::{Note, NoteSet, Pid};

impl Timers {
    /// Says that it is now this moment: timers whose deadline has come expire, and their processes
    /// are posted the note `expired`, until none is due or as many have expired as there are
    /// processes. Returns how many. Own; tsemacquire in semacquire(2) has a clock of its own. It
    /// waits for the timers' lock. Takes no memory.
    pub fn tick<R: Wait>(&self, rt: &R, proc: &mut Proc<'_>, timer: &mut TimerSeat, now: u64) -> u64
        requires { IsTimerSeatOf self.now timer.old }
        ensures seat { IsTimerSeatOf self.now timer.new }
        ensures number { number_of timer.new.seat ≡ number_of timer.old.seat }
        ensures words { proc.new.words ≡ proc.old.words }
        ensures called { Ticks self.now (procs_of proc.old.words) now result
            (point timer.old proc.old) (point timer.new proc.new) }
    {
        for expired in 0..self.procs {
            match self.expire(rt, proc, timer, now) {
                None => return expired,
                Some(pid) => tell(proc, pid),
            }
        }
        self.procs
    }
}

// Posts the note of a tick, where the kernel of the caller has a process of this pid.
fn tell(proc: &mut Proc<'_>, pid: Pid)
    ensures words { proc.new.words ≡ proc.old.words }
    ensures told { IsTrue (nat_lt pid.0 (procs_of proc.old.words)) →
        proc.new.process ≡ notes proc.old.process pid (only Expired) }
    ensures other { nat_lt pid.0 (procs_of proc.old.words) ≡ false →
        proc.new.process ≡ proc.old.process }
{
    match proc.postnote(pid, NoteSet::of(Note::Expired)) {
        Ok(()) | Err(_) => {}
    }
}
