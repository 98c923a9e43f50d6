//! The steps of a wakeup, none of which waits. The comment above each step has its operation, the
//! seat before and after, and what the order rests on.
ghost use Rattle.std.specs.Prelude.{◌≡◌, ◌<◌, ⊤, IfOk, IfErr, OnOk, MatchResult};
ghost use Rattle.rendez_words.specs.Answers.{IfTaken};
ghost use Rattle.rendez_words.specs.Process.{phase_in, sleeper_of};
ghost use Rattle.rendez_words.specs.States.{IsOwing};
ghost use Rattle.rendez_words.specs.Steps.{raises, finds_nobody, takes, marks};
ghost use Rattle.rendez_words.specs.Words.{IsProcessOf, WhyNotRaised, HasReceipt, IsOfWakeup};
ghost use Rattle.rendez_words.specs.Words.{rendez_of};

use crate::flags_word::word_from;
use crate::sleeper::NOBODY;
use crate::states::{Done, Holding, Owing, Refused, Returned, Seat, TakeAnswer};
use crate::words::Words;
use sleep_core::{Event, ProcFlags};
use std::marker::Brand;
use sync_base::{Fault, NoteSet, Pid, RendezId};

impl Words {
    /// Begins a wakeup: raises the level of the Rendez to at least `level`. Refuses as `NoRendez`.
    /// Takes no memory and doesn't wait.
    // Step Raise: fetch_max of the level. Seat: Idle, then Owing.
    // It comes before the step Take: a process that posts itself after that take tests after this
    // step, and sees the level.
    pub fn raise(&self, seat: Seat, rendez: RendezId, level: u64) -> Result<Owing, Refused>
        requires seat { IsProcessOf self.now seat }

        // Refused first, and then nothing changes.
        ensures allowed { OnOk result (rendez.0 < rendez_of self.now) }
        ensures refused { IfErr result (λ refused.
            WhyNotRaised self.now seat rendez refused.seat refused.fault) }

        // Otherwise the level is raised.
        ensures raised { IfOk result (λ owing. owing ≡ raises seat rendez level) }
        ensures phase { IfOk result (λ owing. IsOwing owing rendez level) }
        ensures words { MatchResult result (IsProcessOf self.now)
            (λ refused. IsProcessOf self.now refused.seat) }
    {
        if rendez.0 >= self.sizes.rendez {
            let fault = Fault::NoRendez;
            return Err(Refused { seat, fault });
        }
        let Seat { mut caller } = seat;
        let pid = caller.pid();
        let event = Event::Raise { pid, rendez, level };
        let word = self.level_word(rendez);
        self.fetch_max::<Brand>(&mut caller, word, level, &event);
        Ok(Owing {
            caller,
            rendez,
            level,
        })
    }

    /// Takes the sleeper out of the Rendez, if there is one, whether or not its condition holds.
    /// Where nobody is there, the wakeup has returned, with its receipt. Takes no memory and
    /// doesn't wait.
    // Step Take: load of the posted word that finds nobody, or else a swap of it to 0.
    // Seat: Owing, then Idle, or Holding the sleeper.
    // A load that finds somebody is no step: the swap tells who it was, or that nobody is left.
    pub fn take(&self, owing: Owing) -> TakeAnswer
        requires owing { IsProcessOf self.now owing }
        ensures taken { IfTaken result
            (λ returned. returned.seat ≡ finds_nobody owing)
            (λ holding. holding ≡ takes owing (sleeper_of holding)) }

        // The receipt is that of the wakeup.
        ensures done { IfTaken result
            (λ returned. IsOfWakeup (phase_in owing) returned.done) (λ _. ⊤) }
        ensures receipt { IfTaken result
            (λ returned. HasReceipt returned.seat returned.done) (λ _. ⊤) }
        ensures words { IfTaken result
            (λ returned. IsProcessOf self.now returned.seat) (IsProcessOf self.now) }
    {
        let Owing {
            mut caller,
            rendez,
            level,
        } = owing;
        let pid = caller.pid();
        let event = Event::Take { pid };
        let word = self.posted_word(rendez);
        let found = self.empty_word(&mut caller, word, event);
        if found == NOBODY {
            let seat = Seat { caller };
            let done = Done { rendez, level };
            TakeAnswer::Nobody(Returned { seat, done })
        } else {
            TakeAnswer::Holding(Holding {
                caller,
                sleeper: Pid(found - 1),
                rendez,
                level,
            })
        }
    }

    /// Marks the sleeper that was taken as ready, and wakes it where it parks. The wakeup has then
    /// returned, with its receipt. Takes no memory and doesn't wait.
    // Step Mark: fetch_or of the mark in the flags of the one held. Seat: Holding, then Idle.
    pub fn mark(&self, holding: Holding) -> Returned
        requires holding { IsProcessOf self.now holding }
        ensures marked { result.seat ≡ marks holding }

        // The receipt is that of the wakeup.
        ensures done { IsOfWakeup (phase_in holding) result.done }
        ensures receipt { HasReceipt result.seat result.done }
        ensures words { IsProcessOf self.now result.seat }
    {
        let Holding {
            mut caller,
            sleeper,
            rendez,
            level,
        } = holding;
        let pid = caller.pid();
        let event = Event::Mark { pid };
        let mark = word_from(ProcFlags {
            wake: true,
            notes: NoteSet::empty(),
        });
        let unwoken = self.set_flags(&mut caller, sleeper, mark, event);
        self.wake(unwoken, &caller);
        let seat = Seat { caller };
        let done = Done { rendez, level };
        Returned { seat, done }
    }
}
