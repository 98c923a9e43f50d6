//! What each thread of a team does, whatever its process borrows.
ghost use Rattle.std.specs.Prelude.{◌≡◌};
ghost use Rattle.together.specs.Teams.{Brings, IsBack, IsOfJob};

use crate::board::Board;
use crate::gate::{Decision, await_decision};
use crate::job::{Ended, Job, Worker};
use std::sync::{OnceToken, Wait};

/// What comes back from a thread, with what it saw decided: what the member came to, or the member,
/// whose job has made no step.
#[derive(Drop)]
pub(crate) enum Came<'d, M, E> {
    Ran(E, OnceToken<'d, Decision>),
    Back(M, OnceToken<'d, Decision>),
}

/// A member of a team: a job with its process. Threads are started over any member, so that the
/// types of what they share name no lifetime but that of the board.
pub(crate) trait Member<R> {
    ghost use Rattle.std.specs.Prelude.{◌≡◌};
    ghost use Rattle.together.specs.Teams.{Brings};

    /// What it comes to.
    type End: Drop;

    /// What one run of its job may come to.
    ghost ends: { Self → Self.End → Type 0 };

    /// How it comes back if it did not run.
    ghost comes_back: { Self → Self → Type 0 };

    /// It may come back as it was.
    ghost same: { (member : Self) → comes_back member member };

    /// Waits for the decision, and does the job or comes back.
    fn take_part<'d>(self, rt: &R, board: &'d Board, number: usize) -> Came<'d, Self, Self::End>
        ensures { Brings ends comes_back self board.now.decision.id result };
}

impl<'k, R: Wait, J: Job<R>> Member<R> for Worker<'k, J> {
    ghost use Rattle.std.specs.Prelude.{refl, []};
    ghost use Rattle.together.specs.Teams.{IsBack, IsOfJob};

    type End = Ended<'k, J::Out>;

    ghost ends = { IsOfJob J.gives };

    ghost comes_back = { IsBack };

    ghost same = { λ member. record {
      job = refl;
      words = refl;
      waited = record {
        table = refl;
        pid = refl;
        steps = [];
        of_gate = tt;
        trace_is = refl;
      };
    } };

    fn take_part<'d>(
        self,
        rt: &R,
        board: &'d Board,
        number: usize,
    ) -> Came<'d, Worker<'k, J>, Ended<'k, J::Out>> {
        let Worker { mut proc, job } = self;
        let decision = &board.decision;
        let token = await_decision(rt, &mut proc, board.gate(number), decision);
        match *decision.value(&token) {
            Ok(()) => {
                let out = job.run(rt, &mut proc);
                board.roll.sign(&mut proc, board.desk, number);
                Came::Ran(Ended { proc, out }, token)
            }
            Err(_) => Came::Back(Worker { proc, job }, token),
        }
    }
}
