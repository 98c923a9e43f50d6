//! One function for each atomic operation, which makes an event of the core; and one function that
//! swaps only where a load finds something. All orderings are the table's. Each asks that the
//! operation does to its word what the event does to its cell, and ensures what the table answers
//! to the event from what was found there. The caller passes `Brand`, and the proof picks the event
//! that it stands for.
ghost use Rattle.std.specs.Prelude.{◌≡◌, ◌==◌, ◌+◌, ◌<◌, max, bit_or};
ghost use Rattle.std.specs.Bool.{OnTrue, OnFalse};
ghost use prog.Atomic.{either};
ghost use Rattle.sleep_core.specs.Table.Cell.{PostedOf, LevelOf, FlagsOf};
ghost use Rattle.rendez_words.specs.Plays.{IsStep, HasMade, part_of};
ghost use Rattle.rendez_words.specs.Rule.{index_of};
ghost use Rattle.rendez_words.specs.Words.{table_of, sizes_of, procs_of, rendez_of};

use crate::parking::Unwoken;
use crate::plays::{Make, MakeWhereEmpty, Making};
use crate::states::Caller;
use crate::words::Words;
use sleep_core::Event;
use std::marker::Brand;
use sync_base::line::LINE;
use sync_base::{Pid, RendezId};

impl Words {
    /// Where the posted word of the Rendez lies.
    pub(crate) fn posted_word(&self, rendez: RendezId) -> usize
        requires { rendez.0 < rendez_of self.now }
        ensures { result ≡ index_of (sizes_of self.now) (PostedOf rendez.0) }
    {
        (LINE * rendez.0) as usize
    }

    /// Where the level of the Rendez lies.
    pub(crate) fn level_word(&self, rendez: RendezId) -> usize
        requires { rendez.0 < rendez_of self.now }
        ensures { result ≡ index_of (sizes_of self.now) (LevelOf rendez.0) }
    {
        (LINE * rendez.0 + 1) as usize
    }

    /// Where the flags of the process lie.
    pub(crate) fn flags_word(&self, pid: Pid) -> usize
        requires { pid.0 < procs_of self.now }
        ensures { result ≡ index_of (sizes_of self.now) (FlagsOf pid.0) }
    {
        (LINE * (self.sizes.rendez + pid.0)) as usize
    }

    /// Reads the word.
    pub(crate) fn load<M: Making>(&self, caller: &mut Caller, word: usize, _event: &Event) -> u64
        requires sizes { M.sizes ≡ sizes_of self.now }
        requires table { caller.old.table ≡ table_of self.now }
        requires step { IsStep M.sizes M.event (part_of caller.old) word (λ n. n) }
        ensures table { caller.new.table ≡ caller.old.table }
        ensures made { HasMade M.sizes M.event (part_of caller.old) result (part_of caller.new) }
    {
        self.table.shared.load::<Make<M>>(&mut caller.stepper, word)
    }

    /// Writes the word, and returns what it was.
    pub(crate) fn swap<M: Making>(
        &self,
        caller: &mut Caller,
        word: usize,
        new: u64,
        _event: &Event,
    ) -> u64
        requires sizes { M.sizes ≡ sizes_of self.now }
        requires table { caller.old.table ≡ table_of self.now }
        requires step { IsStep M.sizes M.event (part_of caller.old) word (λ _. new) }
        ensures table { caller.new.table ≡ caller.old.table }
        ensures made { HasMade M.sizes M.event (part_of caller.old) result (part_of caller.new) }
    {
        self.table
            .shared
            .swap::<Make<M>>(&mut caller.stepper, word, new)
    }

    /// Empties the word, and returns what it was. Where a load finds the word empty, the load is
    /// the step, and the word's line stays with the processes that look at it; else the step is a
    /// swap.
    pub(crate) fn empty_word(&self, caller: &mut Caller, word: usize, event: Event) -> u64
        requires table { caller.old.table ≡ table_of self.now }
        requires step { IsStep (sizes_of self.now) event (part_of caller.old) word (λ _. 0) }
        ensures table { caller.new.table ≡ caller.old.table }
        ensures made { HasMade (sizes_of self.now) event
            (part_of caller.old) result (part_of caller.new) }
    {
        if self.load_empty::<Brand>(caller, word, &event) {
            return 0;
        }
        self.swap::<Brand>(caller, word, 0, &event)
    }

    // Whether the word is empty, and then this load has made the event.
    fn load_empty<M: Making>(&self, caller: &mut Caller, word: usize, _event: &Event) -> bool
        requires sizes { M.sizes ≡ sizes_of self.now }
        requires table { caller.old.table ≡ table_of self.now }
        requires step { IsStep M.sizes M.event (part_of caller.old) word (λ _. 0) }
        ensures table { caller.new.table ≡ caller.old.table }
        ensures made { OnTrue result
            (HasMade M.sizes M.event (part_of caller.old) 0 (part_of caller.new)) }
        ensures same { OnFalse result (caller.new ≡ caller.old) }
    {
        let found = self
            .table
            .shared
            .load::<MakeWhereEmpty<M>>(&mut caller.stepper, word);
        found == 0
    }

    /// Writes the word where it is `old`, and returns what it was.
    pub(crate) fn compare_exchange<M: Making>(
        &self,
        caller: &mut Caller,
        word: usize,
        old: u64,
        new: u64,
        _event: &Event,
    ) -> u64
        requires sizes { M.sizes ≡ sizes_of self.now }
        requires table { caller.old.table ≡ table_of self.now }
        requires step { IsStep M.sizes M.event (part_of caller.old) word
            (λ n. either (n == old) new n) }
        ensures table { caller.new.table ≡ caller.old.table }
        ensures made { HasMade M.sizes M.event (part_of caller.old) result (part_of caller.new) }
    {
        self.table
            .shared
            .compare_exchange::<Make<M>>(&mut caller.stepper, word, old, new)
    }

    /// Raises the word to `least`, and returns what it was.
    pub(crate) fn fetch_max<M: Making>(
        &self,
        caller: &mut Caller,
        word: usize,
        least: u64,
        _event: &Event,
    ) -> u64
        requires sizes { M.sizes ≡ sizes_of self.now }
        requires table { caller.old.table ≡ table_of self.now }
        requires step { IsStep M.sizes M.event (part_of caller.old) word (λ n. max n least) }
        ensures table { caller.new.table ≡ caller.old.table }
        ensures made { HasMade M.sizes M.event (part_of caller.old) result (part_of caller.new) }
    {
        self.table
            .shared
            .fetch_max::<Make<M>>(&mut caller.stepper, word, least)
    }

    /// Sets bits of the flags of the process, which then has yet to be woken.
    pub(crate) fn set_flags(
        &self,
        caller: &mut Caller,
        pid: Pid,
        bits: u64,
        event: Event,
    ) -> Unwoken
        requires pid { pid.0 < procs_of self.now }
        requires table { caller.old.table ≡ table_of self.now }
        requires step { IsStep (sizes_of self.now) event (part_of caller.old)
            (index_of (sizes_of self.now) (FlagsOf pid.0)) (λ n. bit_or n bits) }
        ensures table { caller.new.table ≡ caller.old.table }
        ensures made { HasMade (sizes_of self.now) event
            (part_of caller.old) result.found (part_of caller.new) }
        ensures pid { result.pid ≡ pid.0 }
    {
        let word = self.flags_word(pid);
        let found = self.fetch_or::<Brand>(caller, word, bits, &event);
        Unwoken::new(pid, found)
    }

    fn fetch_or<M: Making>(
        &self,
        caller: &mut Caller,
        word: usize,
        bits: u64,
        _event: &Event,
    ) -> u64
        requires sizes { M.sizes ≡ sizes_of self.now }
        requires table { caller.old.table ≡ table_of self.now }
        requires step { IsStep M.sizes M.event (part_of caller.old) word (λ n. bit_or n bits) }
        ensures table { caller.new.table ≡ caller.old.table }
        ensures made { HasMade M.sizes M.event (part_of caller.old) result (part_of caller.new) }
    {
        self.table
            .shared
            .fetch_or::<Make<M>>(&mut caller.stepper, word, bits)
    }
}
