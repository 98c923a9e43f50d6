//! Who gives out the pids and the Rendez of a kernel, and knows its note groups.
use crate::groups::Groups;
use crate::proc::Proc;
use rendez_words::{Pids, Words};
use std::marker::Model;
use sync_base::{Fault, Flags, NoteSet, Pid, RendezId};

/// The pids and the Rendez of a kernel that were not given out yet, each of which is given once,
/// and the note groups of its processes.
#[derive(Drop)]
pub struct Roster<'k> {
    words: &'k Words,
    pids: Pids,
    groups: Groups,
    procs: u64,
    rendez: u64,
    next_pid: u64,
    next_rendez: u64,
}

impl<'k> Model for Roster<'k> {
    ghost use Rattle.sleep_wakeup.specs.Kernel.{Unused, IsRoster};

    ghost Value = { Unused };

    ghost view = { λ roster. record {
      words = roster.words.now;
      pids = roster.pids;
      rendez = roster.next_rendez;
      groups = roster.groups.groups;
    } };

    ghost invariant = { λ roster. IsRoster roster.words.now roster.pids roster.groups (record {
      procs = roster.procs;
      rendez = roster.rendez;
      next_pid = roster.next_pid;
      next_rendez = roster.next_rendez;
    }) };
}

impl<'k> Roster<'k> {
    ghost use Rattle.std.specs.Prelude.{◌≡◌, ◌+◌, ◌^◌, ◌<◌, ◌≤◌, ◌⊎◌, length};
    ghost use Rattle.std.specs.Prelude.{IfOk, IfErr, OnOk, OnErr, true};
    ghost use Rattle.sync_base.specs.declared.fault.Fault.TheVariants.{NoProc, NoRendez};
    ghost use Rattle.rendez_words.specs.Words.{ArePidsOf, procs_of, rendez_of};
    ghost use Rattle.sleep_wakeup.specs.Forks.{HasPid, MayFork, WhyNotForked, Forks};
    ghost use Rattle.sleep_wakeup.specs.Kernel.{HasSizes, HasGroup, HasRendez, rendez_less};
    ghost use Rattle.sleep_wakeup.specs.Kernel.{next_process, one_pid_less, regrouped};
    ghost use Rattle.sleep_wakeup.specs.Groups.{AreGroups, group_of, notes_each};

    // The pids from 1 on and all Rendez.
    pub(crate) fn new(
        words: &'k Words,
        procs: u64,
        rendez: u64,
        pids: Pids,
        groups: Groups,
    ) -> Roster<'k>
        requires sizes { HasSizes words.now procs rendez }
        requires pids { ArePidsOf words.now pids }
        requires next { pids.next ≡ 1 }
        requires given { groups.given ≡ 1 }
        requires room { groups.room ≡ procs }
        ensures words { result.words ≡ words.entry.now }
        ensures pids { result.pids ≡ pids }
        ensures rendez { result.rendez ≡ 0 }
        ensures groups { result.groups ≡ groups.groups }
    {
        Roster {
            words,
            pids,
            groups,
            procs,
            rendez,
            next_pid: 1,
            next_rendez: 0,
        }
    }

    /// After fork(2): makes a child with the next pid where RFPROC is set, else nobody. A child is
    /// in its parent's note group. With RFNOTEG the child is the first of a new group; with RFNOTEG
    /// alone the caller is. Refuses, in this order, as `BadFlags` for any other flag, and as
    /// `NoProc` where no pid is left. Takes no memory and doesn't wait.
    pub fn rfork(&mut self, parent: &mut Proc<'k>, flags: Flags) -> Result<Option<Proc<'k>>, Fault>
        // Refused first, and then no pid is used up.
        ensures allowed { OnOk result (MayFork self.old flags) }
        ensures fault { IfErr result (WhyNotForked self.old flags) }
        ensures refused { OnErr result (self.new ≡ self.old) }

        // Otherwise the child has made no step, and the flags say who is in which group.
        ensures forked { IfOk result (λ child.
            Forks parent.old.process.pid self.old flags child self.new) }

        // The parent is as it was.
        ensures parent { parent.new ≡ parent.old }
    {
        let Some(wants) = flags.wants() else {
            return Err(Fault::BadFlags);
        };
        if wants.space {
            return Err(Fault::BadFlags);
        }
        if wants.process {
            return Ok(Some(self.make_child(parent, wants.note_group)?));
        }
        if wants.note_group {
            self.leave_group(parent);
        }
        Ok(None)
    }

    /// The child that `rfork` makes with RFPROC. It is in its parent's note group or, where `apart`
    /// is set, as with RFNOTEG too, in a new group. Refuses as `NoProc` where no pid is left. Takes
    /// no memory and doesn't wait.
    pub fn make_child(&mut self, parent: &Proc<'k>, apart: bool) -> Result<Proc<'k>, Fault>
        // Refused first, and then no pid is used up.
        ensures allowed { OnOk result (HasPid self.old) }
        ensures fault { IfErr result (λ fault. (fault ≡ NoProc) × (¬ HasPid self.old)) }
        ensures refused { OnErr result (self.new ≡ self.old) }

        // Otherwise the child has the next pid, and has made no step.
        ensures child { IfOk result (λ child. child ≡ next_process self.old) }
        ensures left { OnOk result
            (self.new ≡ one_pid_less parent.now.process.pid apart self.old) }
    {
        let seat = self.words.split(&mut self.pids)?;
        let pid = Pid(self.next_pid);
        self.next_pid += 1;
        if apart {
            self.groups.begin();
        } else {
            self.groups.follow(parent.pid());
        }
        Ok(Proc::new(self.words, seat, pid))
    }

    /// Takes the caller out of its note group, as the first of a new group: what `rfork` does with
    /// RFNOTEG alone. Takes no memory and doesn't wait.
    pub fn leave_group(&mut self, caller: &Proc<'k>)
        ensures { self.new ≡ regrouped caller.now.process.pid true self.old }
    {
        self.groups.leave(caller.pid());
    }

    /// Posts notes to each process of the note group of `pid`, pids rising, also to the caller
    /// where it is in the group, and returns how many processes they are. After postnote(2).
    /// Refuses as `NoProc` a pid that was not given, and a caller of another kernel that has fewer
    /// processes. Takes no memory and doesn't wait.
    pub fn postnote_group(
        &self,
        poster: &mut Proc<'k>,
        pid: Pid,
        set: NoteSet,
    ) -> Result<u64, Fault>
        // Refused first, and then nothing changes.
        ensures allowed { OnOk result (HasGroup self.now pid.0) }
        ensures fault { IfErr result (λ fault. fault ≡ NoProc) }
        ensures refused { OnErr result
            ((procs_of poster.old.words < procs_of self.now.words) ⊎ ¬ HasGroup self.now pid.0) }
        ensures same { OnErr result (poster.new ≡ poster.old) }

        // Otherwise the notes are pending at each process of the group.
        ensures noted { OnOk result (poster.new.process
            ≡ notes_each poster.old.process (group_of pid.0 self.now.groups) set) }
        ensures count { IfOk result (λ count. count ≡ length (group_of pid.0 self.now.groups)) }
        ensures words { poster.new.words ≡ poster.old.words }
    {
        if poster.proc_count() < self.procs || !self.groups.has(pid) {
            return Err(Fault::NoProc);
        }
        Ok(self.groups.post(poster, pid, set))
    }

    /// Each process that was made is in one note group, once.
    pub fn are_groups(&self)
        ensures { AreGroups self.now.groups self.now.pids.next }
    {
        self.groups.are_groups();
    }

    /// The next Rendez. Refuses as `NoRendez` where no Rendez is left. Takes no memory and doesn't
    /// wait.
    pub fn rendez(&mut self) -> Result<RendezId, Fault>
        // Refused first, and then nothing changes.
        ensures allowed { OnOk result (HasRendez self.old 1) }
        ensures fault { IfErr result (λ fault. (fault ≡ NoRendez) × (¬ HasRendez self.old 1)) }
        ensures refused { OnErr result (self.new ≡ self.old) }

        // Otherwise it is the next one, and one less is left.
        ensures next { IfOk result (λ rendez. rendez.0 ≡ self.old.rendez) }
        ensures given { OnOk result (self.new ≡ rendez_less 1 self.old) }
    {
        self.row(1)
    }

    /// The first of `count` Rendez in a row. Refuses as `NoRendez` where fewer are left or the
    /// count is 0. Takes no memory and doesn't wait.
    pub fn row(&mut self, count: u64) -> Result<RendezId, Fault>
        // Refused first, and then nothing changes.
        ensures allowed { OnOk result (HasRendez self.old count) }
        ensures some { OnOk result (1 ≤ count) }
        ensures fault { IfErr result (λ fault.
            (fault ≡ NoRendez) × ((count ≡ 0) ⊎ (¬ HasRendez self.old count))) }
        ensures refused { OnErr result (self.new ≡ self.old) }

        // Otherwise they are the next ones, and so many less are left.
        ensures next { IfOk result (λ rendez. rendez.0 ≡ self.old.rendez) }
        ensures numbered { IfOk result (λ rendez. rendez.0 + count < 2 ^ 64) }
        ensures given { OnOk result (self.new ≡ rendez_less count self.old) }
    {
        let first = self.next_rendez;
        if count == 0 || count > self.rendez - first {
            return Err(Fault::NoRendez);
        }
        self.next_rendez = first + count;
        Ok(RendezId(first))
    }

    /// How many Rendez its kernel has: each is named by a number below that. Takes no memory and
    /// doesn't wait.
    pub fn rendez_count(&self) -> u64
        ensures { result ≡ rendez_of self.now.words }
    {
        self.rendez
    }

    /// How many pids are left, and how many Rendez. Takes no memory and doesn't wait.
    pub fn left(&self) -> (u64, u64)
        ensures pids { self.now.pids.next + result.0 ≡ procs_of self.now.words }
        ensures rendez { self.now.rendez + result.1 ≡ rendez_of self.now.words }
    {
        (self.procs - self.next_pid, self.rendez - self.next_rendez)
    }
}
