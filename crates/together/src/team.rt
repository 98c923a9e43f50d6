//! A team: jobs that start together or not at all.
ghost use Rattle.std.specs.Prelude.{◌≡◌, ◌<◌, ◌+◌, ◌^◌, true, false, length, All};
ghost use Rattle.rendez_words.specs.Words.{rendez_of};

use crate::board::Board;
use crate::caller::Caller;
use crate::gate::Gate;
use crate::job::{Ended, Job, Refused, Told, Worker};
use crate::running::{CalledOff, run_with};
use sleep_wakeup::{Proc, Roster};
use std::alloc::Global;
use std::sync::Wait;
use std::thread::Threads;
use sync_base::limits::TOP_LEVEL;
use sync_base::{Fault, RendezId};

/// Where jobs wait until they start together: a Rendez for each, and one for the caller.
#[derive(Drop)]
pub struct Team {
    pub(crate) first: RendezId,
    pub(crate) most: u64,
    /// How many jobs of this team have ended: the level of the caller's Rendez.
    pub(crate) ended: u64,
    pub(crate) ghost numbered: { first.0 + most < 2 ^ 64 },
}

impl Team {
    ghost use Rattle.std.specs.Prelude.{◌≡◌, ◌<◌, ◌+◌, length, IfOk, IfErr, OnOk, OnErr};
    ghost use Rattle.std.specs.List.{AllZip};
    ghost use Rattle.sync_base.specs.declared.fault.Fault.TheVariants.{NoRendez};
    ghost use Rattle.sync_base.specs.declared.limits.TheConstants.{TOP_LEVEL};
    ghost use Rattle.sleep_wakeup.specs.Kernel.{HasRendez, rendez_less};
    ghost use Rattle.together.specs.Teams.{HasRoom, IsBack, IsOfJob, WhyNotTogether};

    /// A team of at most this many jobs: it has one Rendez more than that. Refuses as `NoRendez`
    /// where the roster has fewer left. Takes no memory and doesn't wait.
    pub fn new(roster: &mut Roster<'_>, most: u64) -> Result<Team, Fault>
        // Refused first, and then nothing changes.
        ensures allowed { OnOk result (HasRendez roster.old (most + 1)) }
        ensures fault { IfErr result (λ fault. (fault ≡ NoRendez)
            × (¬ HasRendez roster.old (most + 1))) }
        ensures refused { OnErr result (roster.new ≡ roster.old) }

        // Otherwise it has the next Rendez.
        ensures first { IfOk result (λ team. team.first.0 ≡ roster.old.rendez) }
        ensures most { IfOk result (λ team. team.most ≡ most) }
        ensures ended { IfOk result (λ team. team.ended ≡ 0) }
        ensures given { OnOk result (roster.new ≡ rendez_less (most + 1) roster.old) }
    {
        let (_, left) = roster.left();
        if most >= left {
            return Err(Fault::NoRendez);
        }
        let first = roster.row(most + 1)?;
        Ok(Team {
            first,
            most,
            ended: 0,
        })
    }

    /// Does all jobs, each on a thread and by its process, or none. No job makes its first step
    /// before all threads stand. It waits until all jobs have ended, and returns what they came to,
    /// in the order of the workers. Meanwhile it tells of each job that has ended, once, and lends
    /// the caller's process to who is told.
    ///
    /// Refuses, in this order, as `NoRendez` where the team has fewer Rendez than there are jobs or
    /// the kernel of a process doesn't have them, as `Worn` where no level is left, as `Memory`,
    /// as `Device` where a thread can't be started, and as `DoubleSleep` where another process
    /// sleeps in the Rendez of a thread. Then all threads have been joined, no job has made a step,
    /// and the workers come back.
    ///
    /// Notes end no wait of the call: they are pending again when a job starts, or when the call
    /// returns. All memory is taken before the first thread starts.
    #[tactic(auto, using(crate::proofs::TeamLemmas::workers_back))]
    pub fn run<'k, R: Threads + Wait + Sync, J: Job<R> + Send + Drop, T: Told<R>>(
        &mut self,
        alloc: Global,
        rt: &R,
        proc: &mut Proc<'_>,
        workers: Vec<Worker<'k, J>>,
        told: &mut T,
    ) -> Result<Vec<Ended<'k, J::Out>>, Refused<'k, J>>
    where
        J::Out: Send,
        // Refused first.
        ensures allowed { OnOk result
            (HasRoom self.old.first.0 self.old.most proc.old workers.entry.items) }
        ensures fault { IfErr result (λ refused. WhyNotTogether self.old.first.0 self.old.most
            self.old.ended proc.old workers.entry.items refused.fault) }

        // Then each worker comes back, in its place.
        ensures back { IfErr result (λ refused.
            AllZip IsBack workers.entry.items refused.workers.items) }

        // Otherwise each job was run, and what it came to is in its place.
        ensures jobs { IfOk result (λ ended.
            AllZip (IsOfJob J.gives) workers.entry.items ended.items) }

        // The team may run again.
        ensures first { self.new.first ≡ self.old.first }
        ensures most { self.new.most ≡ self.old.most }
        ensures ended { OnOk result
            (self.new.ended ≡ self.old.ended + length workers.entry.items) }
    {
        if let Err(fault) = self.admit(proc, &workers) {
            return Err(Refused { fault, workers });
        }
        let desk = Gate {
            rendez: self.first,
            level: self.ended,
        };
        let Ok(board) = Board::new(alloc, workers.len(), desk) else {
            return Err(Refused {
                fault: Fault::Memory,
                workers,
            });
        };
        self.ended += workers.len() as u64;
        match run_with(alloc, rt, &board, workers, Caller { proc, told }) {
            Ok(ended) => Ok(ended),
            Err(CalledOff { fault, members }) => Err(Refused {
                fault,
                workers: members,
            }),
        }
    }

    // Whether these workers may run.
    fn admit<J>(&self, proc: &Proc<'_>, workers: &[Worker<'_, J>]) -> Result<(), Fault>
        ensures allowed { OnOk result
            (HasRoom self.now.first.0 self.now.most proc.now workers.now) }
        ensures left { OnOk result (self.now.ended + length workers.now < TOP_LEVEL) }
        ensures fault { IfErr result (WhyNotTogether self.now.first.0 self.now.most
            self.now.ended proc.now workers.now) }
    {
        let last = self.first.0 + self.most;
        let jobs = workers.len() as u64;
        if jobs > self.most {
            return Err(Fault::NoRendez);
        }
        if proc.rendez_count() <= last {
            return Err(Fault::NoRendez);
        }
        if !all_have(last, workers) {
            return Err(Fault::NoRendez);
        }
        if jobs >= TOP_LEVEL - self.ended {
            return Err(Fault::Worn);
        }
        Ok(())
    }
}

// Whether the kernel of each worker's process has this Rendez.
fn all_have<J>(last: u64, workers: &[Worker<'_, J>]) -> bool
    ensures yes { result ≡ true
        → All (λ worker. last < rendez_of worker.proc.words) workers.now }
    ensures no { result ≡ false
        → ¬ All (λ worker. last < rendez_of worker.proc.words) workers.now }
{
    for worker in workers {
        if worker.proc.rendez_count() <= last {
            return false;
        }
    }
    true
}
