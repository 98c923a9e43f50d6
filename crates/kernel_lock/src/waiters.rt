//! Who waits for a lock. The mark is no word of the table, and no clause says what it holds. It
//! keeps waiters from burning the processor, and releases from system calls where nobody sleeps.
//! What has to be done for sleepers is a value that only the next act spends: after a release the
//! mark is looked at, a mark that is set is cleared, and then one thread is woken. A thread that
//! has slept sets the mark again. None of these values can be dropped. `announce`, `look`,
//! `exchange`, `park` and `wake_one` alone touch the mark, and tell what they found.
ghost use Rattle.std.specs.Prelude.{◌≡◌, ◌≢◌, ◌==◌, ◌+◌, ◌%◌, ◌^◌, true, false, IfSome, IfNone};
ghost use Rattle.kernel_lock.specs.declared.view.Stage.TheVariants.{Outside};

use crate::locked::Locked;
use crate::object::Object;
use crate::rule::Stepper;
use crate::steps::FREE;
use std::sync::Wait;
use std::sync::atomic::AtomicU64;
use std::sync::atomic::Ordering::SeqCst;

#[cfg(test)]
mod tests;

/// A thread sleeps while the mark has the low 32 bits that it announced.
const LOW: u64 = 0x1_0000_0000;

/// An odd number says that a thread sleeps, or is about to.
/// Each wake makes it even, so it also counts the wakes.
#[derive(Drop)]
pub struct Waiters {
    mark: AtomicU64,
}

/// The mark was set, and this is what it then was: the thread is about to sleep, or others may.
#[must_use]
pub(crate) struct Announced {
    mark: u32,
    ghost odd: { mark % 2 ≡ 1 },
}

impl Announced {
    ghost use Rattle.kernel_lock.specs.Steppers.{IsStepperOf, IsSameStepper};

    /// Looks at the lock, after the announcement.
    pub(crate) fn look<O: Object>(self, lock: &Locked<O>, stepper: &mut Stepper<O>) -> Looked
        requires { IsStepperOf lock.now stepper.old }
        ensures stepper { IsSameStepper stepper.old stepper.new }
        ensures same { stepper.new.me ≡ stepper.old.me }
    {
        let word = lock.poll(stepper);
        Looked {
            announced: self,
            word,
        }
    }

    // The thread has slept, so the mark is for others. That it has the lock is read in `take`.
    fn again(self, attempt: Attempt) -> Again
        requires { attempt.slept ≡ true }
    {
        let Announced { mark: _ } = self;
        let Attempt { slept: _ } = attempt;
        Again { marker: () }
    }
}

/// The word of the lock, as it was found after the announcement. `free` spends it where the lock
/// was free, and else `taken`.
#[must_use]
pub(crate) struct Looked {
    announced: Announced,
    word: u64,
}

impl Looked {
    pub(crate) fn is_free(&self) -> bool
        ensures { result ≡ (self.now.word == 0) }
    {
        self.word == FREE
    }

    /// The thread doesn't sleep. The mark stays, and may cost a release a system call.
    pub(crate) fn free(self)
        requires { self.word ≡ 0 }
    {
        let Looked { announced, word: _ } = self;
        let Announced { mark: _ } = announced;
    }

    pub(crate) fn taken(self) -> Taken
        requires { self.word ≢ 0 }
    {
        let Looked { announced, word: _ } = self;
        Taken { announced }
    }
}

/// The lock was found taken after the announcement. `sleep` spends it.
#[must_use]
pub(crate) struct Taken {
    announced: Announced,
}

/// A thread that has slept has set the mark again. No clause says that it has the lock by then.
#[derive(Drop)]
pub(crate) struct Again {
    marker: (),
}

/// An attempt at the lock: whether the thread that makes it has slept for it. It can't be dropped:
/// `pass_on` spends it.
#[must_use]
pub(crate) struct Attempt {
    slept: bool,
}

impl Attempt {
    pub(crate) fn new() -> Attempt
        ensures { result.slept ≡ false }
    {
        Attempt { slept: false }
    }
}

/// The lock was given back, and nobody was woken yet. It can't be dropped: `look` spends it.
#[must_use]
pub(crate) struct GivenBack {
    marker: (),
}

impl GivenBack {
    /// The caller has given the lock back. A thread that is woken before that may find the lock
    /// taken and sleep again, and then nobody would wake it.
    pub(crate) fn by<O: Object>(_outside: &Stepper<O>) -> GivenBack
        requires { _outside.now.me.0.stage ≡ Outside }
    {
        GivenBack { marker: () }
    }
}

/// The mark, as a release found it. `marked` spends one that is odd, `pass` any other.
#[must_use]
pub(crate) struct Found {
    mark: u64,
}

impl Found {
    /// Whether a thread sleeps, or is about to.
    pub(crate) fn is_odd(&self) -> bool
        ensures { result ≡ (self.now.mark % 2 == 1) }
    {
        self.mark % 2 == 1
    }

    pub(crate) fn marked(self) -> Marked
        requires { self.mark % 2 ≡ 1 }
        ensures { result.mark ≡ self.mark }
    {
        let Found { mark } = self;
        Marked { mark }
    }

    /// Nobody sleeps, so nobody is woken.
    pub(crate) fn pass(self)
        requires { self.mark % 2 ≢ 1 }
    {
        let Found { mark: _ } = self;
    }
}

/// A mark that says that somebody sleeps. It can't be dropped: `clear` spends it.
#[must_use]
pub(crate) struct Marked {
    mark: u64,
    ghost odd: { mark % 2 ≡ 1 },
}

/// The mark that was to be cleared, and what it was found to be. `cleared` spends it where they are
/// one, and else `pass`.
#[must_use]
pub(crate) struct Change {
    mark: u64,
    found: u64,
}

impl Change {
    /// Whether the mark was cleared.
    pub(crate) fn is_made(&self) -> bool
        ensures { result ≡ (self.now.found == self.now.mark) }
    {
        self.found == self.mark
    }

    pub(crate) fn cleared(self) -> Cleared
        requires { self.found ≡ self.mark }
    {
        let Change { mark: _, found: _ } = self;
        Cleared { marker: () }
    }

    /// Another release has cleared the mark, and wakes a thread.
    pub(crate) fn pass(self)
        requires { self.found ≢ self.mark }
    {
        let Change { mark: _, found: _ } = self;
    }
}

/// A mark that was cleared, and its sleeper is not yet woken. It can't be dropped: `wake_one`
/// spends it.
#[must_use]
pub(crate) struct Cleared {
    marker: (),
}

impl Waiters {
    pub(crate) fn new() -> Waiters {
        Waiters {
            mark: AtomicU64::new(0),
        }
    }

    /// Says that a thread is about to sleep.
    // A release that finds no mark comes before this step, so a look at the lock after it finds it
    // free, or taken by another thread, whose release finds the mark.
    pub(crate) fn announce(&self) -> Announced {
        let found = self.mark.fetch_or(1, SeqCst);
        let mark = if found % 2 == 1 { found } else { found + 1 };
        Announced {
            mark: (mark % LOW) as u32,
        }
    }

    /// Sleeps until the next wake, if there was none since the announcement.
    pub(crate) fn sleep<R: Wait>(&self, rt: &R, taken: Taken, attempt: Attempt) -> Attempt
        ensures slept { result.slept ≡ true }
    {
        let Attempt { slept: _ } = attempt;
        let expected = taken.announced.mark;
        self.park(rt, taken, expected);
        Attempt { slept: true }
    }

    // Sleeps while the mark is what was announced.
    fn park<R: Wait>(&self, rt: &R, taken: Taken, expected: u32)
        requires { expected ≡ taken.announced.mark }
    {
        let Taken { announced } = taken;
        let Announced { mark: _ } = announced;
        self.mark.park(rt, expected);
    }

    /// Ends the attempt of a thread that has the lock, and says whether it set the mark again. A
    /// thread that slept was woken in place of others, who may sleep still: its release wakes one
    /// of them.
    pub(crate) fn pass_on(&self, attempt: Attempt) -> Option<Again>
        ensures slept { IfNone result (attempt.slept ≡ false) }
        ensures again { IfSome result (λ _. attempt.slept ≡ true) }
    {
        if attempt.slept {
            Some(self.announce().again(attempt))
        } else {
            let Attempt { slept: _ } = attempt;
            None
        }
    }

    /// Looks after a release whether a thread has announced itself.
    pub(crate) fn look(&self, given_back: GivenBack) -> Found {
        let GivenBack { marker: () } = given_back;
        let mark = self.mark.load(SeqCst);
        Found { mark }
    }

    /// Clears the mark, if no other release did.
    pub(crate) fn clear(&self, marked: Marked) -> Change
        ensures { result.mark ≡ marked.mark }
    {
        let Marked { mark } = marked;
        self.exchange(mark, mark.wrapping_add(1))
    }

    // Compare-exchange of the mark.
    fn exchange(&self, mark: u64, next: u64) -> Change
        requires { next ≡ (mark + 1) % 2 ^ 64 }
        ensures { result.mark ≡ mark }
    {
        match self.mark.compare_exchange(mark, next, SeqCst, SeqCst) {
            Ok(found) => Change { mark, found },
            Err(found) => Change { mark, found },
        }
    }

    /// Wakes one thread that sleeps.
    // It announces itself again with the lock, and so wakes the next.
    pub(crate) fn wake_one(&self, cleared: Cleared) {
        let Cleared { marker: () } = cleared;
        self.mark.wake_one();
    }
}
