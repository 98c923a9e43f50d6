//! Who parks. What a process announces here is no word of the table, and decides nothing: it keeps
//! a mark and a note from a system call where the process does not park. Each step of parking and
//! of waking gives a value that the next step spends, and that can't be dropped. `put` and `get`
//! alone touch the words, and return what they wrote and found. A process alone announces what it
//! does: `put` takes its caller, which nobody else has, and keeps it until the process says again
//! that it doesn't park.
ghost use Rattle.std.specs.Prelude.{◌≡◌, ◌≢◌, ◌==◌, ◌<◌, ◌^◌, IfOk};
ghost use Rattle.rendez_words.specs.declared.parking.TheConstants.{AWAKE, PARKS};

use crate::states::Caller;
use crate::words::Words;
use sleep_core::ProcFlags;
use std::alloc::{AllocError, Global};
use std::marker::Model;
use std::sync::atomic::AtomicU64;
use std::sync::atomic::Ordering::SeqCst;
use sync_base::Pid;
use sync_base::line::LINE;

/// The word of a process that doesn't park.
const AWAKE: u64 = 0;

/// The word of a process that parks, or is about to.
const PARKS: u64 = 1;

/// What each process announces: the first word of its line. The other words are never used.
#[derive(Drop)]
pub struct Parking {
    parks: Vec<AtomicU64>,
}

impl Model for Parking {
    ghost use Rattle.std.specs.Prelude.{ℕ, length, ◌/◌};
    ghost use Rattle.sync_base.specs.declared.line.TheConstants.{LINE};

    ghost Value = { ℕ };

    ghost view = { λ parking. length parking.parks.items / LINE };
}

/// A process, and the word that it announced last. `back` spends it where that says that the
/// process doesn't park.
#[must_use]
pub(crate) struct Said {
    caller: Caller,
    word: u64,
}

/// A process that has announced that it parks. `leave` spends it, and gives the process back: it
/// can announce nothing in between.
#[must_use]
pub(crate) struct Announced {
    said: Said,
}

impl Model for Announced {
    ghost use Rattle.std.specs.Prelude.{◌≡◌};
    ghost use Rattle.rendez_words.specs.Process.{Process};
    ghost use Rattle.rendez_words.specs.declared.parking.TheConstants.{PARKS};

    ghost Value = { Process };

    ghost view = { λ announced. announced.said.caller };

    ghost invariant = { λ announced. announced.said.word ≡ PARKS };
}

/// The flags of a process were set, and it has yet to be woken. `wake` spends it.
#[must_use]
pub(crate) struct Unwoken {
    pid: u64,
    found: u64,
}

/// What a process that is to be woken has announced. `rouse` is for a process that parks, `pass`
/// for any other.
#[must_use]
pub(crate) struct Found {
    pid: u64,
    word: u64,
}

impl Parking {
    pub(crate) fn new(alloc: Global, procs: u64) -> Result<Parking, AllocError>
        requires { procs < 2 ^ 32 }
        ensures { IfOk result (λ parking. parking ≡ procs) }
    {
        let mut parks = Vec::with_capacity(alloc, (LINE * procs) as usize)?;
        for _ in 0..LINE * procs {
            parks.push(AtomicU64::new(AWAKE))?;
        }
        Ok(Parking { parks })
    }

    /// Announces that the process is about to park. It has to look at its flags again before it
    /// does.
    // A mark that finds it awake comes before this step, so that look finds the mark.
    pub(crate) fn announce(&self, caller: Caller) -> Announced
        requires { caller.pid < self.now }
        ensures { result ≡ caller }
    {
        let said = self.put(caller, PARKS);
        Announced { said }
    }

    /// Announces that the process doesn't park.
    pub(crate) fn leave(&self, announced: Announced) -> Caller
        requires { announced.pid < self.now }
        ensures { result ≡ announced }
    {
        let Announced { said } = announced;
        let Said { caller, word: _ } = said;
        self.put(caller, AWAKE).back()
    }

    /// Finds what the process has announced that is to be woken.
    pub(crate) fn find(&self, unwoken: Unwoken) -> Found
        requires { unwoken.pid < self.now }
        ensures { result.pid ≡ unwoken.pid }
    {
        let Unwoken { pid, found: _ } = unwoken;
        self.get(pid)
    }

    // Store of what the process says.
    fn put(&self, caller: Caller, word: u64) -> Said
        requires { caller.pid < self.now }
        ensures caller { result.caller ≡ caller }
        ensures word { result.word ≡ word }
    {
        self.parks[(LINE * caller.pid().0) as usize].store(word, SeqCst);
        Said { caller, word }
    }

    // Load of what the process says.
    fn get(&self, pid: u64) -> Found
        requires { pid < self.now }
        ensures { result.pid ≡ pid }
    {
        let word = self.parks[(LINE * pid) as usize].load(SeqCst);
        Found { pid, word }
    }
}

impl Said {
    // The process goes on: it has said that it doesn't park.
    fn back(self) -> Caller
        requires { self.word ≡ AWAKE }
        ensures { result ≡ self.caller }
    {
        let Said { caller, word: _ } = self;
        caller
    }
}

impl Announced {
    ghost use Rattle.std.specs.Prelude.{OnErr, IfOk, MatchResult};
    ghost use Rattle.sleep_core.specs.declared.event.Event.TheVariants.{Look};
    ghost use Rattle.rendez_words.specs.FlagsWord.{flags_word};
    ghost use Rattle.rendez_words.specs.Plays.{HasMade, part_of};
    ghost use Rattle.rendez_words.specs.Process.{phase_in, pid_in};
    ghost use Rattle.rendez_words.specs.States.{IsLooking, EndsWait};
    ghost use Rattle.rendez_words.specs.Words.{IsProcessOf, sizes_of};

    /// The process that made the announcement.
    pub(crate) fn pid(&self) -> Pid
        ensures { result ≡ pid_in self.now }
    {
        self.said.caller.pid()
    }

    /// Looks at the flags of the process, as `Words::look_at` does, while its announcement stands.
    pub(crate) fn look(&mut self, words: &Words, notes_end: bool) -> Result<ProcFlags, u64>
        requires process { IsProcessOf words.now self.old }
        requires looking { IsLooking notes_end (phase_in self.old) }
        ensures table { self.new.table ≡ self.old.table }
        ensures made { MatchResult result
            (λ flags. HasMade (sizes_of words.now) (Look (pid_in self.old))
            (part_of self.old) (flags_word flags) (part_of self.new))
            (λ word. HasMade (sizes_of words.now) (Look (pid_in self.old))
            (part_of self.old) word (part_of self.new)) }
        ensures ends { IfOk result (EndsWait notes_end) }
        ensures same { OnErr result (self.new ≡ self.old) }
    {
        words.look_at(&mut self.said.caller, notes_end)
    }
}

impl Unwoken {
    /// The step that found this value in the flags of the process has set them.
    pub(crate) fn new(pid: Pid, found: u64) -> Unwoken
        ensures pid { result.pid ≡ pid.0 }
        ensures found { result.found ≡ found }
    {
        Unwoken { pid: pid.0, found }
    }
}

impl Found {
    /// The process that is to be woken.
    pub(crate) fn pid(&self) -> Pid
        ensures { result.0 ≡ self.now.pid }
    {
        Pid(self.pid)
    }

    /// Whether it parks, or is about to.
    pub(crate) fn parks(&self) -> bool
        ensures { result ≡ (self.now.word == PARKS) }
    {
        self.word == PARKS
    }

    /// The process is woken by a system call.
    pub(crate) fn rouse(self)
        requires { self.word ≡ PARKS }
    {
        let Found { pid: _, word: _ } = self;
    }

    /// The process doesn't park, so it needs no system call: it looks at its flags again before it
    /// does.
    pub(crate) fn pass(self)
        requires { self.word ≢ PARKS }
    {
        let Found { pid: _, word: _ } = self;
    }
}
