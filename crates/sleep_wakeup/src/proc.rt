//! A process.
use crate::steps::Steps;
use rendez_words::{Seat, Words};
use std::marker::Model;
use sync_base::Pid;

/// A process of a kernel. One thread has it at a time, and may hand it to another.
#[derive(Drop)]
pub struct Proc<'k> {
    pub(crate) words: &'k Words,
    // It is away while a call makes its steps.
    pub(crate) seat: Option<Seat>,
    pub(crate) pid: Pid,
}

impl<'k> Model for Proc<'k> {
    ghost use Rattle.sleep_wakeup.specs.Kernel.{Running, IsSeated, process_in};

    ghost Value = { Running };

    ghost view = { λ proc. record {
      words = proc.words.now;
      process = process_in proc.words.now proc.seat;
    } };

    ghost invariant = { λ proc. IsSeated proc.words.now proc.pid proc.seat };
}

impl<'k> Proc<'k> {
    ghost use Rattle.std.specs.Prelude.{◌≡◌, Some};
    ghost use Rattle.rendez_words.specs.Words.{IsProcessOf, procs_of, rendez_of};

    pub(crate) fn new(words: &'k Words, seat: Seat, pid: Pid) -> Proc<'k>
        requires seat { IsProcessOf words.now seat }
        requires pid { seat.pid ≡ pid.0 }
        ensures words { result.words ≡ words.entry.now }
        ensures process { result.process ≡ seat }
    {
        Proc {
            words,
            seat: Some(seat),
            pid,
        }
    }

    /// Its pid. Takes no memory and doesn't wait.
    pub fn pid(&self) -> Pid
        ensures { result.0 ≡ self.now.process.pid }
    {
        self.pid
    }

    // How many processes its kernel has.
    pub(crate) fn proc_count(&self) -> u64
        ensures { result ≡ procs_of self.now.words }
    {
        self.words.proc_count()
    }

    /// How many Rendez its kernel has: each is named by a number below that. Takes no memory and
    /// doesn't wait.
    pub fn rendez_count(&self) -> u64
        ensures { result ≡ rendez_of self.now.words }
    {
        self.words.rendez_count()
    }

    /// Its steps up to now. This function is there for the specification, and does nothing.
    pub fn steps(&self) -> Steps
        ensures { result.process ≡ Some self.now.process }
    {
        Steps::of(&self.seat)
    }

    /// Its steps are those of a process in a run of the core, so the laws of the core hold of them.
    /// This function is there for the specification, and does nothing.
    pub fn is_in_a_run(&self)
        ensures { IsProcessOf self.now.words self.now.process }
    {
        let _seat = &self.seat;
    }
}
