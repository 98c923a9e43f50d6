//! A tournament of timers, in which the earliest one wins. Each game is one step up the tree, so
//! that a change and the search for the winner take O(log n).
ghost use Rattle.std.specs.Prelude.{◌≡◌, ◌<◌, ◌≤◌, ◌^◌, length, IfOk, IfErr, replicate, None};
ghost use Rattle.std.specs.Prelude.{slice_set};
ghost use Rattle.timer_list.specs.Due.{earliest};
ghost use Rattle.sync_base.specs.declared.fault.Fault.TheVariants.{Memory};

use crate::due::Due;
use std::alloc::Global;
use std::marker::Model;
use sync_base::Fault;

/// The timers by seats. Contracts see them as a list.
#[derive(Debug, Drop)]
pub(crate) struct Tournament {
    entrants: usize,
    /// Place 1 has the winner of all; below place i are places 2 i and 2 i + 1; a seat enters at
    /// place `entrants` + its number.
    nodes: Vec<Option<Due>>,
}

impl Model for Tournament {
    ghost use Rattle.std.specs.Prelude.{List, Option, drop};
    ghost use Rattle.timer_list.specs.declared.due.Due.{Due};
    ghost use Rattle.timer_list.specs.Tournament.{IsTournament};

    ghost Value = { List (Option Due) };

    ghost view = { λ t. drop t.entrants t.nodes.items };

    ghost invariant = { λ t. IsTournament t.entrants t.nodes.items };
}

impl Tournament {
    /// Nobody has entered. It takes all its room.
    pub(crate) fn new(alloc: Global, seats: usize) -> Result<Tournament, Fault>
        requires some { 1 ≤ seats }
        requires few { seats < 2 ^ 32 }
        ensures ok { IfOk result (λ t. t ≡ replicate seats None) }
        ensures err { IfErr result (λ fault. fault ≡ Memory) }
    {
        Ok(Tournament {
            entrants: seats,
            nodes: vec![in alloc; None; 2 * seats]?,
        })
    }

    /// The timer that expires first.
    pub(crate) fn earliest(&self) -> Option<Due>
        ensures { result ≡ earliest self.now }
    {
        self.nodes[1]
    }

    /// Puts the timer of a seat, or takes it out, and plays the games above it again.
    pub(crate) fn enter(&mut self, seat: usize, due: Option<Due>)
        requires { seat < length self.old }
        ensures { self.new ≡ slice_set self.old seat due }
    {
        let mut place = self.entrants + seat;
        self.nodes[place] = due;
        while place > 1 {
            place /= 2;
            self.nodes[place] = Due::earlier(self.nodes[2 * place], self.nodes[2 * place + 1]);
        }
    }
}
