//! How a thread waits for the lock, and how the next one is woken.
ghost use Rattle.std.specs.Prelude.{◌≡◌, true};
ghost use Rattle.kernel_lock.specs.Steppers.{IsStepperOf, IsSameStepper};
ghost use Rattle.kernel_lock.specs.Steps.{TakesLock, IsDue, HasReleased};

use crate::locked::Locked;
use crate::object::Object;
use crate::plays::Made;
use crate::rule::Stepper;
use crate::steps::FREE;
use crate::waiters::{Attempt, GivenBack, Marked};
use std::hint::spin_loop;
use std::sync::Wait;

/// How often a thread looks at a taken word again before it sleeps.
const LOOKS: u64 = 20;

/// How long a thread pauses before each look.
/// A look takes the word's cache line from the thread that has the lock, so looks are few.
const PAUSES: u64 = 64;

fn pause() {
    for _ in 0..PAUSES {
        spin_loop();
    }
}

impl<O: Object> Locked<O> {
    /// Takes the lock, and waits where it is taken.
    pub(crate) fn take<R: Wait>(&self, rt: &R, stepper: &mut Stepper<O>)
        requires { IsStepperOf self.now stepper.old }
        ensures stepper { IsSameStepper stepper.old stepper.new }
        ensures taken { TakesLock O.definition stepper.old.me stepper.new.me }
    {
        if self.acquire(stepper) {
            return;
        }
        let mut attempt = Attempt::new();
        for _ in rt.forever() {
            attempt = self.wait(rt, stepper, attempt);
            if self.acquire(stepper) {
                break;
            }
        }
        self.waiters.pass_on(attempt);
    }

    // Looks at the word for a while, and then sleeps until a release.
    fn wait<R: Wait>(&self, rt: &R, stepper: &mut Stepper<O>, attempt: Attempt) -> Attempt
        requires { IsStepperOf self.now stepper.old }
        ensures stepper { IsSameStepper stepper.old stepper.new }
        ensures same { stepper.new.me ≡ stepper.old.me }
        ensures slept { attempt.slept ≡ true → result.slept ≡ true }
    {
        for _ in 0..LOOKS {
            pause();
            if self.poll(stepper) == FREE {
                return attempt;
            }
        }
        self.sleep(rt, stepper, attempt)
    }

    /// Sleeps until a release, where the lock is still taken.
    // A release before the mark woke nobody. The look after the mark finds that one.
    pub(crate) fn sleep<R: Wait>(
        &self,
        rt: &R,
        stepper: &mut Stepper<O>,
        attempt: Attempt,
    ) -> Attempt
        requires { IsStepperOf self.now stepper.old }
        ensures stepper { IsSameStepper stepper.old stepper.new }
        ensures same { stepper.new.me ≡ stepper.old.me }
        ensures slept { attempt.slept ≡ true → result.slept ≡ true }
    {
        let looked = self.waiters.announce().look(self, stepper);
        if looked.is_free() {
            looked.free();
            return attempt;
        }
        self.waiters.sleep(rt, looked.taken(), attempt)
    }

    /// Gives the lock back, and wakes a thread that waits for it.
    pub(crate) fn give<M: Made<O::Call, O::Reply>>(&self, stepper: &mut Stepper<O>)
        requires stepper { IsStepperOf self.now stepper.old }
        requires due { IsDue O.definition self.now.table.shared.key M.served stepper.old.me }
        ensures stepper { IsSameStepper stepper.old stepper.new }
        ensures released { HasReleased M.served stepper.old.me stepper.new.me }
    {
        let given_back = self.release::<M>(stepper);
        self.wake(given_back);
    }

    // Wakes one thread, if any has announced itself. Otherwise it is a load, and calls no system.
    fn wake(&self, given_back: GivenBack) {
        let found = self.waiters.look(given_back);
        if found.is_odd() {
            self.wake_marked(found.marked());
        } else {
            found.pass();
        }
    }

    // Wakes one thread, unless another release has cleared the mark and does.
    fn wake_marked(&self, marked: Marked) {
        let change = self.waiters.clear(marked);
        if change.is_made() {
            self.waiters.wake_one(change.cleared());
        } else {
            change.pass();
        }
    }
}
