//! The note groups of a kernel: which process is in which group.
ghost use Rattle.std.specs.Prelude.{◌≡◌, ◌≤◌, length};
ghost use Rattle.rendez_words.specs.Words.{procs_of};
ghost use Rattle.sleep_wakeup.specs.Groups.{members_from, notes_each};

use crate::proc::Proc;
use std::alloc::Global;
use std::marker::Model;
use sync_base::{Fault, NoteSet, Pid};

/// The groups by their numbers, which count from 1.
#[derive(Drop)]
pub(crate) struct Groups {
    // The number of the group of each pid; 0 for a pid that was not given.
    numbers: Vec<u64>,
    count: u64,
    given: u64,
}

impl Model for Groups {
    ghost use Rattle.std.specs.Prelude.{length};
    ghost use Rattle.sleep_wakeup.specs.Groups.{Membership, AreNumbers, groups_by};

    ghost Value = { Membership };

    ghost view = { λ own. record {
      groups = groups_by own.count own.numbers.items;
      given = own.given;
      room = length own.numbers.items;
    } };

    ghost invariant = { λ own. AreNumbers own.numbers.items own.count own.given };
}

impl Groups {
    ghost use Rattle.std.specs.Prelude.{◌≡◌, ◌<◌, ◌≤◌, ◌+◌, length, nat_lt, IsTrue, IfOk, IfErr};
    ghost use Rattle.sync_base.specs.declared.fault.Fault.TheVariants.{Memory};
    ghost use Rattle.sleep_wakeup.specs.Groups.{AreGroups, first_group, begins, follows, leaves};
    ghost use Rattle.sleep_wakeup.specs.Groups.{group_of, notes_each};
    ghost use Rattle.rendez_words.specs.Words.{procs_of};

    // One group, of the first process, and room for so many pids.
    pub(crate) fn new(alloc: Global, procs: u64) -> Result<Groups, Fault>
        requires { 1 ≤ procs }
        ensures groups { IfOk result (λ own. own.groups ≡ first_group) }
        ensures given { IfOk result (λ own. own.given ≡ 1) }
        ensures room { IfOk result (λ own. own.room ≡ procs) }
        ensures fault { IfErr result (λ fault. fault ≡ Memory) }
    {
        let mut numbers = vec![in alloc; 0u64; procs as usize]?;
        numbers[0] = 1;
        Ok(Groups {
            numbers,
            count: 1,
            given: 1,
        })
    }

    // They are disjoint, and hold the pids that were given.
    pub(crate) fn are_groups(&self)
        ensures { AreGroups self.now.groups self.now.given }
    {
        let _numbers = &self.numbers;
    }

    // The next pid in a new group.
    pub(crate) fn begin(&mut self)
        requires { self.old.given < self.old.room }
        ensures groups { self.new.groups ≡ begins self.old.given self.old.groups }
        ensures given { self.new.given ≡ self.old.given + 1 }
        ensures room { self.new.room ≡ self.old.room }
    {
        self.count += 1;
        self.numbers[self.given as usize] = self.count;
        self.given += 1;
    }

    // The next pid in the group of its parent, which may be none.
    pub(crate) fn follow(&mut self, parent: Pid)
        requires { self.old.given < self.old.room }
        ensures groups { self.new.groups ≡ follows parent.0 self.old.given self.old.groups }
        ensures given { self.new.given ≡ self.old.given + 1 }
        ensures room { self.new.room ≡ self.old.room }
    {
        if parent.0 >= self.given {
            self.begin();
        } else {
            self.numbers[self.given as usize] = self.numbers[parent.0 as usize];
            self.given += 1;
        }
    }

    // The process in a group of its own.
    pub(crate) fn leave(&mut self, pid: Pid)
        ensures groups { self.new.groups ≡ leaves pid.0 self.old.groups }
        ensures given { self.new.given ≡ self.old.given }
        ensures room { self.new.room ≡ self.old.room }
    {
        if pid.0 < self.given && size_of(&self.numbers, self.numbers[pid.0 as usize]) > 1 {
            self.count += 1;
            self.numbers[pid.0 as usize] = self.count;
        }
    }

    // Whether a group holds the pid.
    pub(crate) fn has(&self, pid: Pid) -> bool
        ensures group { result ≡ nat_lt 0 (length (group_of pid.0 self.now.groups)) }
        ensures given { IsTrue result → pid.0 < self.now.given }
    {
        pid.0 < self.given
    }

    // Posts the notes to each process of the group of this pid, and says how many they are.
    pub(crate) fn post(&self, poster: &mut Proc, pid: Pid, set: NoteSet) -> u64
        requires room { self.now.room ≤ procs_of poster.old.words }
        requires held { pid.0 < self.now.given }
        ensures noted { poster.new.process
            ≡ notes_each poster.old.process (group_of pid.0 self.now.groups) set }
        ensures words { poster.new.words ≡ poster.old.words }
        ensures count { result ≡ length (group_of pid.0 self.now.groups) }
    {
        post_to(&self.numbers, self.numbers[pid.0 as usize], poster, set)
    }
}

// How many pids have this number.
fn size_of(numbers: &[u64], number: u64) -> u64
    ensures { result ≡ length (members_from 0 number numbers.now) }
{
    let mut size = 0u64;
    for pid in 0..numbers.len() {
        if numbers[pid] == number {
            size += 1;
        }
    }
    size
}

// Posts the notes to each pid that has this number, pids rising, and says how many they are.
fn post_to(numbers: &[u64], group: u64, poster: &mut Proc, set: NoteSet) -> u64
    requires { length numbers.now ≤ procs_of poster.old.words }
    ensures noted { poster.new.process
        ≡ notes_each poster.old.process (members_from 0 group numbers.now) set }
    ensures words { poster.new.words ≡ poster.old.words }
    ensures count { result ≡ length (members_from 0 group numbers.now) }
{
    let mut posted = 0u64;
    for pid in 0..numbers.len() {
        if numbers[pid] == group {
            match poster.postnote(Pid(pid as u64), set) {
                Ok(()) => {}
                Err(_) => unreachable!(),
            }
            posted += 1;
        }
    }
    posted
}
