//! Whether a sleeper was released, asked by a process whose wakeup has returned.
ghost use Rattle.std.specs.Prelude.{◌≡◌, ◌<◌, ℕ, IsTrue, []};
ghost use Rattle.rendez_words.specs.Plays.{IsStep, HasChecked};
ghost use Rattle.rendez_words.specs.States.{IsAsleep, IsStepperOf, IsJoined, IsUnkept};
ghost use Rattle.rendez_words.specs.View.{part_in, sleeper_in, joined_view};
ghost use Rattle.rendez_words.specs.View.{sleeper_view, raiser_view};
ghost use Rattle.rendez_words.specs.Words.{IsProcessOf, HasReceipt, IsChecked};
ghost use Rattle.rendez_words.specs.Words.{table_of, sizes_of};

use crate::plays::{CheckPosted, CutParts, JoinParts, Making};
use crate::rule::Stepper;
use crate::states::{Asleep, Caller, Checked, Done, Seat};
use crate::words::Words;
use sleep_core::Event;
use std::marker::Brand;
use sync_base::Pid;

impl Words {
    /// Whether the sleeper is no longer posted. The receipt was given with this seat. Both states
    /// come back as they were. Takes no memory and doesn't wait.
    ///
    /// It is there for the specification: tests alone call it.
    ///
    /// It does not say who took the sleeper: a third process may have, whose wakeup has not
    /// returned and whose steps neither of the two has seen. So a sleeper that is released, by a
    /// receipt that alone would not do it, need not have its mark yet.
    pub fn released(&self, asleep: Asleep, seat: Seat, done: &Done) -> Checked
        requires asleep { IsProcessOf self.now asleep }
        requires seat { IsProcessOf self.now seat }
        requires done { HasReceipt seat done.now }

        // The answer is what the posted word says, after the steps of the two and such steps of
        // other processes as were made.
        ensures checked { IsChecked self.now asleep seat result.released }

        // After a wakeup of the sleeper's Rendez with a level above its threshold it is always yes.
        ensures released { (threshold : ℕ) → IsAsleep asleep done.now.rendez threshold
            → threshold < done.now.level → IsTrue result.released }

        // Nothing changes.
        ensures asleep { result.asleep ≡ asleep }
        ensures seat { result.seat ≡ seat }
    {
        let Asleep {
            caller,
            rendez,
            threshold,
        } = asleep;
        let Caller { mut stepper, pid } = caller;
        let Seat { caller: raiser } = seat;
        let Caller {
            stepper: other,
            pid: other_pid,
        } = raiser;
        self.join(&mut stepper, other);
        let event = Event::Check { pid: Pid(pid) };
        let found = self.check::<Brand>(&mut stepper, self.posted_word(rendez), &event);
        let other = self.cut(&mut stepper);
        let caller = Caller { stepper, pid };
        let raiser = Caller {
            stepper: other,
            pid: other_pid,
        };
        Checked {
            asleep: Asleep {
                caller,
                rendez,
                threshold,
            },
            seat: Seat { caller: raiser },
            released: found != pid + 1,
        }
    }

    // Step Join: join of the sleeper's and the raiser's seats, a load of word 0.
    // Seat: the sleeper's, then joined, with what both knew. The other is spent.
    fn join(&self, stepper: &mut Stepper, other: Stepper)
        requires stepper { stepper.old.table_id ≡ table_of self.now }
        requires other { other.table_id ≡ table_of self.now }
        requires first { IsStepperOf stepper.old (part_in stepper.old.me.0).pid }
        requires second { IsStepperOf other (part_in other.me.0).pid }
        ensures table { stepper.new.table_id ≡ stepper.old.table_id }
        ensures joined { stepper.new.me ≡ (joined_view stepper.old.me.0 other.me.0, []) }
    {
        self.table.shared.join_seat::<JoinParts>(stepper, other);
    }

    // Step Check: load of the posted word. Seat: joined, and as it was.
    fn check<M: Making>(&self, stepper: &mut Stepper, word: usize, _event: &Event) -> u64
        requires sizes { M.sizes ≡ sizes_of self.now }
        requires stepper { stepper.old.table_id ≡ table_of self.now }
        requires joined { IsJoined stepper.old.me }
        requires step { IsStep M.sizes M.event (sleeper_in stepper.old.me.0) word (λ n. n) }
        requires unkept { IsUnkept M.event }
        ensures table { stepper.new.table_id ≡ stepper.old.table_id }
        ensures checked { HasChecked M.sizes M.event stepper.old.me result stepper.new.me }
    {
        self.table.shared.load::<CheckPosted<M>>(stepper, word)
    }

    // Step Cut: split of the joined seat, a load of word 0.
    // Seat: joined, then the sleeper's as it was. The new seat is the raiser's as it was.
    fn cut(&self, stepper: &mut Stepper) -> Stepper
        requires stepper { stepper.old.table_id ≡ table_of self.now }
        requires joined { IsJoined stepper.old.me }
        ensures table { stepper.new.table_id ≡ stepper.old.table_id }
        ensures other_table { result.table_id ≡ stepper.old.table_id }
        ensures sleeper { stepper.new.me ≡ (sleeper_view stepper.old.me.0, []) }
        ensures raiser { result.me ≡ (raiser_view stepper.old.me.0, []) }
    {
        self.table.shared.split_seat::<CutParts>(stepper)
    }
}
