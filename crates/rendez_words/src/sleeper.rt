//! The steps of a sleep. The comment above each step has its operation, the seat before and after,
//! and why the rule stays: its event is the core's, so the words and the process's own steps are
//! those of a run that is one event longer.
ghost use Rattle.std.specs.Prelude.{◌≡◌, IfOk, IfErr, OnOk, MatchResult};
ghost use Rattle.sleep_core.specs.declared.answer.Answer.TheVariants as answer;
ghost use Rattle.rendez_words.specs.Answers.{IfTested, IfLooked, IfWithdrawn};
ghost use Rattle.rendez_words.specs.Process.{phase_in};
ghost use Rattle.rendez_words.specs.States.{IsPosted};
ghost use Rattle.rendez_words.specs.Steps.{posts, tests, looks, withdraws, clears};
ghost use Rattle.rendez_words.specs.Words.{IsProcessOf, MayPost, WhyNotPosted};

use crate::states::{
    Asleep, Awaiting, Cleared, Leaving, LookAnswer, Out, Posted, Refused, Seat, TestAnswer,
    WithdrawAnswer, Woken,
};
use crate::waiting::Awaited;
use crate::words::Words;
use sleep_core::Event;
use std::marker::Brand;
use std::sync::Wait;
use sync_base::limits::TOP_LEVEL;
use sync_base::{Fault, RendezId};

/// No process is posted.
pub(crate) const NOBODY: u64 = 0;

impl Words {
    /// Begins a sleep: posts the process in the Rendez, until its level is above the threshold.
    /// Refuses, in this order, as `NoRendez`, `BadLevel` where no level is above the threshold, and
    /// `DoubleSleep` where another process is posted. Takes no memory and doesn't wait.
    // Step Post: compare_exchange of the posted word from 0 to pid + 1.
    // Seat: Idle, then Posted; Idle still where another process is posted.
    // It comes before the step Test: a wakeup that comes after it finds the process.
    pub fn post(&self, seat: Seat, rendez: RendezId, threshold: u64) -> Result<Posted, Refused>
        requires seat { IsProcessOf self.now seat }

        // Refused first, and then nothing changes, but that a double sleep is remembered.
        ensures allowed { OnOk result (MayPost self.now rendez threshold) }
        ensures refused { IfErr result (λ refused.
            WhyNotPosted self.now seat rendez threshold refused.seat refused.fault) }

        // Otherwise the process is posted.
        ensures posted { IfOk result (λ posted.
            posted ≡ posts seat rendez threshold answer.Posted) }
        ensures phase { IfOk result (λ posted. IsPosted posted rendez threshold) }
        ensures words { MatchResult result (IsProcessOf self.now)
            (λ refused. IsProcessOf self.now refused.seat) }
    {
        if rendez.0 >= self.sizes.rendez {
            let fault = Fault::NoRendez;
            return Err(Refused { seat, fault });
        }
        if threshold == TOP_LEVEL {
            let fault = Fault::BadLevel;
            return Err(Refused { seat, fault });
        }
        let Seat { mut caller } = seat;
        let pid = caller.pid();
        let event = Event::Post {
            pid,
            rendez,
            threshold,
        };
        let word = self.posted_word(rendez);
        let found = self.compare_exchange::<Brand>(&mut caller, word, NOBODY, pid.0 + 1, &event);
        if found == NOBODY {
            Ok(Posted {
                caller,
                rendez,
                threshold,
            })
        } else {
            let fault = Fault::DoubleSleep;
            let seat = Seat { caller };
            Err(Refused { seat, fault })
        }
    }

    /// Compares the level of the Rendez with the threshold. Takes no memory and doesn't wait.
    // Step Test: load of the level. Seat: Posted, then Asleep, or Leaving where the level is above.
    // It comes after the step Post, and a wakeup raises before it takes: so a level that this step
    // doesn't see is of a wakeup that finds the process.
    pub fn test(&self, posted: Posted) -> TestAnswer
        requires posted { IsProcessOf self.now posted }
        ensures tested { IfTested result
            (λ asleep. asleep ≡ tests posted answer.Asleep)
            (λ leaving. leaving ≡ tests posted answer.Leaving) }
        ensures words { IfTested result (IsProcessOf self.now) (IsProcessOf self.now) }
    {
        let Posted {
            mut caller,
            rendez,
            threshold,
        } = posted;
        let pid = caller.pid();
        let event = Event::Test { pid };
        let word = self.level_word(rendez);
        let level = self.load::<Brand>(&mut caller, word, &event);
        if level > threshold {
            TestAnswer::Leaving(Leaving { caller, rendez })
        } else {
            TestAnswer::Asleep(Asleep {
                caller,
                rendez,
                threshold,
            })
        }
    }

    /// Waits until a wakeup has marked the process, or notes are pending. Takes no memory.
    // Step Look: load of the flags. Seat: Asleep, then Woken or Leaving; as it was where the flags
    // are empty, and then the process looks again.
    pub fn look<R: Wait>(&self, rt: &R, asleep: Asleep) -> LookAnswer
        requires asleep { IsProcessOf self.now asleep }
        ensures looked { IfLooked result
            (λ woken. woken ≡ looks asleep answer.Woken)
            (λ leaving. leaving ≡ looks asleep answer.Leaving) }
        ensures words { IfLooked result (IsProcessOf self.now) (IsProcessOf self.now) }
    {
        let Asleep {
            caller,
            rendez,
            threshold: _,
        } = asleep;
        let Awaited { caller, flags } = self.await_flags(rt, caller, true);
        if flags.wake {
            LookAnswer::Woken(Woken { caller })
        } else {
            LookAnswer::Leaving(Leaving { caller, rendez })
        }
    }

    /// Takes the process out of the Rendez, unless a wakeup has taken it. Takes no memory and
    /// doesn't wait.
    // Step Withdraw: compare_exchange of the posted word from pid + 1 to 0.
    // Seat: Leaving, then Out, or Awaiting where a wakeup has taken the process.
    pub fn withdraw(&self, leaving: Leaving) -> WithdrawAnswer
        requires leaving { IsProcessOf self.now leaving }
        ensures withdrawn { IfWithdrawn result
            (λ out. out ≡ withdraws leaving answer.Out)
            (λ awaiting. awaiting ≡ withdraws leaving answer.Awaiting) }
        ensures words { IfWithdrawn result (IsProcessOf self.now) (IsProcessOf self.now) }
    {
        let Leaving { mut caller, rendez } = leaving;
        let pid = caller.pid();
        let event = Event::Withdraw { pid };
        let word = self.posted_word(rendez);
        let posted_as = pid.0 + 1;
        let found = self.compare_exchange::<Brand>(&mut caller, word, posted_as, NOBODY, &event);
        if found == posted_as {
            WithdrawAnswer::Out(Out { caller })
        } else {
            WithdrawAnswer::Awaiting(Awaiting { caller })
        }
    }

    /// Waits for the mark of the wakeup that took the process; notes don't end this wait.
    /// Takes no memory.
    // Step Look: load of the flags. Seat: Awaiting, then Woken; as it was where the mark isn't
    // there, and then the process looks again.
    pub fn look_mark<R: Wait>(&self, rt: &R, awaiting: Awaiting) -> Woken
        requires awaiting { IsProcessOf self.now awaiting }
        ensures looked { result ≡ looks awaiting answer.Woken }
        ensures words { IsProcessOf self.now result }
    {
        let Awaiting { caller } = awaiting;
        let Awaited { caller, flags: _ } = self.await_flags(rt, caller, false);
        Woken { caller }
    }

    /// Ends the sleep of a process that took itself out, and takes its notes.
    /// Takes no memory and doesn't wait.
    // Step Clear: swap of the flags to 0. Seat: Out, then Idle.
    pub fn clear_out(&self, out: Out) -> Cleared
        requires out { IsProcessOf self.now out }
        ensures cleared { result.seat ≡ clears out result.notes }
        ensures words { IsProcessOf self.now result.seat }
    {
        let Out { mut caller } = out;
        let notes = self.clear(&mut caller);
        let seat = Seat { caller };
        Cleared { seat, notes }
    }

    /// Ends the sleep of a process that was marked, and takes its mark and its notes.
    /// Takes no memory and doesn't wait.
    // Step Clear: swap of the flags to 0. Seat: Woken, then Idle.
    pub fn clear_woken(&self, woken: Woken) -> Cleared
        requires woken { IsProcessOf self.now woken }
        ensures cleared { result.seat ≡ clears woken result.notes }
        ensures words { IsProcessOf self.now result.seat }
    {
        let Woken { mut caller } = woken;
        let notes = self.clear(&mut caller);
        let seat = Seat { caller };
        Cleared { seat, notes }
    }
}
