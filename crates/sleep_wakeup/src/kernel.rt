//! A kernel: how it is made, and what it begins with.
ghost use Rattle.std.specs.Prelude.{◌≡◌, []};

use crate::groups::Groups;
use crate::proc::Proc;
use crate::roster::Roster;
use rendez_words::{Pids, Seat, Words};
use std::alloc::Global;
use std::marker::Model;
use sync_base::{Fault, Pid};

/// Rendez, and processes that sleep in them and wake each other.
#[derive(Drop)]
pub struct Kernel {
    words: Words,
    procs: u64,
    rendez: u64,
}

impl Model for Kernel {
    ghost use Rattle.rendez_words.specs.declared.words.Words.{Words};
    ghost use Rattle.sleep_wakeup.specs.Kernel.{HasSizes};

    ghost Value = { Words };

    ghost view = { λ kernel. kernel.words };

    ghost invariant = { λ kernel. HasSizes kernel.words kernel.procs kernel.rendez };
}

/// What a kernel begins with. `Kernel::start` spends it.
#[derive(Drop)]
#[must_use]
pub struct Start {
    seat: Seat,
    pids: Pids,
    groups: Groups,
}

/// A new kernel, and what it begins with.
#[derive(Drop)]
pub struct Opened {
    pub kernel: Kernel,
    pub start: Start,
}

/// A kernel that runs: who gives out its pids and Rendez, and its first process.
#[derive(Drop)]
pub struct Started<'k> {
    pub roster: Roster<'k>,
    pub proc: Proc<'k>,
}

impl Kernel {
    ghost use Rattle.std.specs.Prelude.{◌≡◌, IfOk, IfErr, OnOk};
    ghost use Rattle.sleep_core.specs.Limits.{IsWorldSize, WhyNoWorld};
    ghost use Rattle.rendez_words.specs.Words.{procs_of, rendez_of};
    ghost use Rattle.sleep_wakeup.specs.Starts.{IsStartOf, IsFirst, HasAllLeft};

    /// A kernel with this many processes and Rendez. Nobody sleeps, and no level was raised.
    /// Refuses, in this order, as `NoProc`, `NoRendez` and `Memory`. Doesn't wait.
    pub fn new(alloc: Global, procs: u64, rendez: u64) -> Result<Opened, Fault>
        // Refused first.
        ensures in_range { OnOk result (IsWorldSize procs rendez) }
        ensures fault { IfErr result (WhyNoWorld procs rendez) }

        // Otherwise the kernel has these sizes, and can be started.
        ensures procs { IfOk result (λ opened. procs_of opened.kernel ≡ procs) }
        ensures rendez { IfOk result (λ opened. rendez_of opened.kernel ≡ rendez) }
        ensures start { IfOk result (λ opened. IsStartOf opened.kernel opened.start) }
    {
        let rendez_words::Opened { words, seat, pids } = Words::new(alloc, procs, rendez)?;
        let groups = Groups::new(alloc, procs)?;
        Ok(Opened {
            kernel: Kernel {
                words,
                procs,
                rendez,
            },
            start: Start { seat, pids, groups },
        })
    }

    /// Starts the kernel with the start that was made with it. The process has the pid 0; all other
    /// pids and all Rendez are left. Takes no memory and doesn't wait.
    pub fn start(&self, start: Start) -> Started<'_>
        requires { IsStartOf self.now start }
        ensures proc { IsFirst self.now result.proc }
        ensures roster { HasAllLeft self.now result.roster }
    {
        let Start { seat, pids, groups } = start;
        let words = &self.words;
        Started {
            roster: Roster::new(words, self.procs, self.rendez, pids, groups),
            proc: Proc::new(words, seat, Pid(0)),
        }
    }

    /// How many processes there are. Takes no memory and doesn't wait.
    pub fn proc_count(&self) -> u64
        ensures { result ≡ procs_of self.now }
    {
        self.procs
    }

    /// How many Rendez there are. Takes no memory and doesn't wait.
    pub fn rendez_count(&self) -> u64
        ensures { result ≡ rendez_of self.now }
    {
        self.rendez
    }

    pub(crate) fn words(&self) -> &Words
        ensures { result.now ≡ self.now }
    {
        &self.words
    }
}
