//! All members of a team on threads: they start, it is decided whether the team does, and they are
//! joined.
ghost use Rattle.std.specs.Prelude.{◌≡◌, ◌≤◌, ◌+◌, [], length, MatchOption};
ghost use Rattle.std.specs.List.{AllZip};
ghost use Rattle.std.specs.Vec.{vec_capacity};
ghost use Rattle.sync_base.specs.declared.fault.Fault.TheVariants.{Memory};
ghost use Rattle.together.specs.Teams.{EndsTogether, IsCalledOffBy, LinesUp};

use crate::board::Board;
use crate::caller::Supervisor;
use crate::joining::{decide, join_all, take_back};
use crate::member::Member;
use crate::starting::{Lineup, start_all};
use std::alloc::Global;
use std::snapshot::Snapshot;
use std::sync::Wait;
use std::thread::{Scope, Threads, scope, scope_env};
use sync_base::Fault;

/// A team that did not start: why, and all its members, in their order.
#[derive(Drop)]
pub(crate) struct CalledOff<M> {
    pub(crate) fault: Fault,
    pub(crate) members: Vec<M>,
}

/// Runs all members, each on a thread, or none.
pub(crate) fn run_with<
    R: Threads + Wait + Sync,
    M: Member<R> + Send + Drop,
    S: Supervisor<R> + Drop,
>(
    alloc: Global,
    rt: &R,
    board: &Board,
    members: Vec<M>,
    supervisor: S,
) -> Result<Vec<M::End>, CalledOff<M>>
where
    M::End: Send,
    ensures { EndsTogether M.ends M.comes_back members.items result }
{
    scope(
        scope_env(),
        rt,
        move |scope| -> Result<Vec<M::End>, CalledOff<M>>
            ensures { EndsTogether M.ends M.comes_back members.items result }
        { run_started(scope, alloc, rt, board, members, supervisor) },
    )
}

// Takes the memory, and runs all members on threads of this scope.
fn run_started<
    's,
    E,
    R: Threads + Wait + Sync,
    M: Member<R> + Send + Drop + 's,
    S: Supervisor<R> + Drop,
>(
    scope: &Scope<'s, E>,
    alloc: Global,
    rt: &'s R,
    board: &'s Board,
    members: Vec<M>,
    supervisor: S,
) -> Result<Vec<M::End>, CalledOff<M>>
where
    M::End: Send,
    ensures { EndsTogether M.ends M.comes_back members.items result }
{
    let Ok(handles) = Vec::with_capacity(alloc, members.len()) else {
        return Err(out_of_memory(members));
    };
    let Ok(room) = Vec::with_capacity(alloc, members.len()) else {
        return Err(out_of_memory(members));
    };
    let all = Snapshot::of(&members);
    let lineup = start_all(scope, rt, board, members, handles);
    conclude(rt, board, all, lineup, room, supervisor)
}

// The members come back, since there was no memory.
#[tactic(auto, using(crate::proofs::TeamLemmas::back_all))]
fn out_of_memory<R, M: Member<R>>(members: Vec<M>) -> CalledOff<M>
    ensures back { AllZip M.comes_back members.items result.members.items }
    ensures fault { result.fault ≡ Memory }
{
    CalledOff {
        fault: Fault::Memory,
        members,
    }
}

// Decides whether the team starts, lets its threads go on, and joins them.
#[tactic(auto, using(crate::proofs::TeamLemmas::lines_all, crate::proofs::TeamLemmas::lines_at))]
fn conclude<'d, R: Threads + Wait, M: Member<R> + Drop, S: Supervisor<R> + Drop>(
    rt: &R,
    board: &'d Board,
    all: Snapshot<Vec<M>>,
    lineup: Lineup<'d, R, M>,
    room: Vec<M::End>,
    supervisor: S,
) -> Result<Vec<M::End>, CalledOff<M>>
    requires lined { LinesUp M.comes_back board.now.decision.id all.value.items
        lineup.waiting.items lineup.standing.items }
    requires off { MatchOption lineup.off (lineup.waiting.items ≡ [])
        (IsCalledOffBy board.now.decision.id) }
    requires back { length lineup.waiting.items + length lineup.standing.items
        ≤ vec_capacity lineup.waiting }
    requires none { room.items ≡ [] }
    requires room { length lineup.standing.items ≤ vec_capacity room }
    ensures { EndsTogether M.ends M.comes_back all.value.items result }
{
    let token = decide(rt, board, &lineup);
    let Lineup {
        waiting,
        standing,
        off: _,
    } = lineup;
    let jobs = waiting.len().saturating_add(standing.len());
    let decision = *board.decision.value(&token);
    supervisor.attend(rt, board, waiting.len(), jobs, decision.is_ok());
    match decision {
        Ok(()) => Ok(join_all(rt, all, standing, room, &token)),
        Err(off) => Err(CalledOff {
            fault: off.fault(),
            members: take_back(rt, all, standing, waiting, &token),
        }),
    }
}
