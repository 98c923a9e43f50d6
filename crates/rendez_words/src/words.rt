//! The words themselves: how they are made, and where each lies.
ghost use Rattle.std.specs.Prelude.{◌≡◌, ◌<◌};
ghost use Rattle.sleep_core.specs.Limits.{IsWorldSize};
ghost use Rattle.rendez_words.specs.View.{word_count};

use crate::parking::Parking;
use crate::plays::GivePid;
use crate::rule::WordTable;
use crate::states::{Caller, Pids, Seat};
use crate::view::Sizes;
use atomic_table::Table;
use std::alloc::Global;
use sync_base::Fault;
use sync_base::limits::{MAX_PROCS, MAX_RENDEZ};
use sync_base::line::LINE;

/// Rendez and processes that sleep and wake each other, each process on a thread.
#[derive(Drop)]
pub struct Words {
    pub(crate) table: WordTable,
    pub(crate) sizes: Sizes,
    pub(crate) parking: Parking,
    ghost sizes_are: { sizes ≡ table.shared.key },
    ghost in_range: { IsWorldSize table.shared.key.procs table.shared.key.rendez },
    ghost word_count: { table.shared.table_id.words ≡ word_count table.shared.key },
    ghost parking_count: { parking ≡ table.shared.key.procs },
}

/// New words, the seat of process 0, and the pids not yet given.
#[derive(Drop)]
pub struct Opened {
    pub words: Words,
    pub seat: Seat,
    pub pids: Pids,
}

impl Words {
    ghost use Rattle.std.specs.Prelude.{◌≡◌, ◌≤◌, [], IfOk, IfErr, OnOk, OnErr};
    ghost use Rattle.sync_base.specs.declared.fault.Fault.TheVariants.{NoProc};
    ghost use Rattle.sleep_core.specs.Limits.{IsWorldSize, WhyNoWorld};
    ghost use Rattle.rendez_words.specs.States.{IsStepperOfPids};
    ghost use Rattle.rendez_words.specs.View.{next_in, one_less_view, given_view};
    ghost use Rattle.rendez_words.specs.Words.{
      IsProcessOf,
      ArePidsOf,
      given_from,
      one_less,
      table_of,
      procs_of,
      rendez_of,
    };

    /// Words on which nobody sleeps and no level was raised, with the seat of process 0.
    /// Refuses, in this order, as `NoProc`, `NoRendez` and `Memory`. Doesn't wait.
    pub fn new(alloc: Global, procs: u64, rendez: u64) -> Result<Opened, Fault>
        // Refused first.
        ensures in_range { OnOk result (IsWorldSize procs rendez) }
        ensures fault { IfErr result (WhyNoWorld procs rendez) }

        // Otherwise the words have these sizes, and nobody has made a step.
        ensures procs { IfOk result (λ opened. procs_of opened.words ≡ procs) }
        ensures rendez { IfOk result (λ opened. rendez_of opened.words ≡ rendez) }
        ensures words { IfOk result (λ opened. IsProcessOf opened.words opened.seat) }
        ensures first { IfOk result (λ opened. opened.seat.pid ≡ 0) }
        ensures unused { IfOk result (λ opened. opened.seat.trace ≡ []) }
        ensures pids { IfOk result (λ opened. ArePidsOf opened.words opened.pids) }
        ensures next { IfOk result (λ opened. opened.pids.next ≡ 1) }
    {
        if !(1..=MAX_PROCS).contains(&procs) {
            return Err(Fault::NoProc);
        }
        if !(1..=MAX_RENDEZ).contains(&rendez) {
            return Err(Fault::NoRendez);
        }
        let sizes = Sizes { procs, rendez };
        let parking = Parking::new(alloc, procs)?;
        let zeros = vec![in alloc; 0; (LINE * (rendez + procs)) as usize]?;
        let (table, stepper) = Table::of_words(alloc, zeros.as_slice(), &sizes)?;
        let words = Words {
            table,
            sizes,
            parking,
        };
        let mut pids = Pids { stepper, next: 0 };
        let seat = words.give(&mut pids);
        Ok(Opened { words, seat, pids })
    }

    /// The seat of the next pid. Refuses as `NoProc` where no pid is left. Takes no memory and
    /// doesn't wait.
    pub fn split(&self, pids: &mut Pids) -> Result<Seat, Fault>
        requires pids { ArePidsOf self.now pids.old }

        // Refused first, and then nothing changes.
        ensures fault { IfErr result (λ fault. fault ≡ NoProc) }
        ensures refused { OnErr result (procs_of self.now ≤ pids.old.next) }
        ensures same { OnErr result (pids.new ≡ pids.old) }

        // Otherwise the process has made no step, and one pid less is left.
        ensures seat { IfOk result (λ seat. seat ≡ given_from pids.old) }
        ensures one_less { OnOk result (pids.new ≡ one_less pids.old) }
        ensures words { IfOk result (IsProcessOf self.now) }
        ensures pids { ArePidsOf self.now pids.new }
    {
        if pids.next >= self.sizes.procs {
            return Err(Fault::NoProc);
        }
        Ok(self.give(pids))
    }

    /// How many processes there are. Takes no memory and doesn't wait.
    pub fn proc_count(&self) -> u64
        ensures { result ≡ procs_of self.now }
    {
        self.sizes.procs
    }

    /// How many Rendez there are. Takes no memory and doesn't wait.
    pub fn rendez_count(&self) -> u64
        ensures { result ≡ rendez_of self.now }
    {
        self.sizes.rendez
    }

    // Step GivePid: split of the seat of the pids, a load of word 0.
    // Seat of the pids: one pid less. The new seat is Idle, and no step was made by its pid.
    // Keeps the rule: the run has no step by a pid that was not given.
    fn give(&self, pids: &mut Pids) -> Seat
        requires table { pids.old.table ≡ table_of self.now }
        requires left { pids.old.next < procs_of self.now }
        ensures seat { result ≡ given_from pids.old }
        ensures one_less { pids.new ≡ one_less pids.old }
    {
        let pid = pids.next;
        let stepper = self.table.shared.split_seat::<GivePid>(&mut pids.stepper);
        pids.next = pid + 1;
        let caller = Caller { stepper, pid };
        Seat { caller }
    }
}
