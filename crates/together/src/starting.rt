//! How the threads of a team start.
ghost use Rattle.std.specs.Prelude.{◌≡◌, ◌≤◌, ◌+◌, [], length, IfOk, IfErr, IsErr, MatchOption};
ghost use Rattle.std.specs.Vec.{vec_capacity};
ghost use Rattle.together.specs.declared.member.Came.TheVariants.{Back};
ghost use Rattle.together.specs.Teams.{Brings, IsCalledOffBy, IsFor, LinesUp};

use crate::board::Board;
use crate::gate::{Decision, Off};
use crate::member::{Came, Member};
use std::marker::PhantomData;
use std::snapshot::Snapshot;
use std::sync::{OnceToken, Wait};
use std::thread::{Promise, PromisedHandle, Scope, yield_now};

/// That a thread brings back what came of this member.
#[derive(Drop)]
pub(crate) struct Kept<'d, R, M> {
    pub(crate) member: Snapshot<M>,
    pub(crate) board: &'d Board,
    pub(crate) of: PhantomData<R>,
}

impl<'d, R, M: Member<R>> Promise<Came<'d, M, M::End>> for Kept<'d, R, M> {
    ghost use Rattle.together.specs.Teams.{Brings};

    ghost kept_by = { λ kept came.
        Brings M.ends M.comes_back kept.member.value kept.board.now.decision.id came };
}

/// A thread that has started.
pub(crate) type Handle<'d, R, M, E> = PromisedHandle<Came<'d, M, E>, Kept<'d, R, M>>;

/// A member for which no thread could be started, and what shows that the team is called off.
#[derive(Drop)]
pub(crate) struct Left<'d, M> {
    pub(crate) member: M,
    pub(crate) token: OnceToken<'d, Decision>,
}

/// The members that wait for a thread, and the threads that stand, the last member's first. Where
/// one could not be started, what shows that the team is called off.
#[derive(Drop)]
pub(crate) struct Lineup<'d, R, M: Member<R>> {
    pub(crate) waiting: Vec<M>,
    pub(crate) standing: Vec<Handle<'d, R, M, M::End>>,
    pub(crate) off: Option<OnceToken<'d, Decision>>,
}

/// Starts a thread for each member, the last one first, up to one that can't be started.
pub(crate) fn start_all<'s, E, R: Wait + Sync, M: Member<R> + Send + Drop + 's>(
    scope: &Scope<'s, E>,
    rt: &'s R,
    board: &'s Board,
    members: Vec<M>,
    handles: Vec<Handle<'s, R, M, M::End>>,
) -> Lineup<'s, R, M>
where
    M::End: Send,
    requires none { handles.items ≡ [] }
    requires room { length members.items ≤ vec_capacity handles }
    ensures lined { LinesUp M.comes_back board.now.decision.id members.items result.waiting.items
        result.standing.items }
    ensures off { MatchOption result.off (result.waiting.items ≡ [])
        (IsCalledOffBy board.now.decision.id) }
    ensures back { length result.waiting.items + length result.standing.items
        ≤ vec_capacity result.waiting }
    ensures count { length result.waiting.items + length result.standing.items
        ≡ length members.items }
{
    let (mut waiting, mut standing) = (members, handles);
    'starting: while let Some(member) = waiting.pop() {
        match start_one(scope, rt, board, waiting.len(), member) {
            Ok(handle) => standing.push_reserved(handle),
            Err(left) => {
                let Left { member, token } = left;
                waiting.push_reserved(member);
                return Lineup {
                    waiting,
                    standing,
                    off: Some(token),
                };
            }
        }
    }
    Lineup {
        waiting,
        standing,
        off: None,
    }
}

// Starts a thread for a member. Where that can't be it calls the team off, and the member is back.
fn start_one<'s, E, R: Wait + Sync, M: Member<R> + Send + Drop + 's>(
    scope: &Scope<'s, E>,
    rt: &'s R,
    board: &'s Board,
    number: usize,
    member: M,
) -> Result<Handle<'s, R, M, M::End>, Left<'s, M>>
where
    M::End: Send,
    ensures stands { IfOk result (IsFor board.now.decision.id member) }
    ensures back { IfErr result (λ left. M.comes_back member left.member) }
    ensures off { IfErr result (λ left. IsCalledOffBy board.now.decision.id left.token) }
{
    let kept = Kept {
        member: Snapshot::of(&member),
        board,
        of: PhantomData,
    };
    let started = scope.spawn_with(
        kept,
        move || -> Came<M, M::End>
            ensures { Brings M.ends M.comes_back member board.entry.now.decision.id result }
        { member.take_part(rt, board, number) },
    );
    match started {
        Ok(handle) => Ok(handle),
        Err(refused) => {
            let _decided = board.decision.set(rt, Err(Off::NoThread));
            Err(left_of(rt, (refused.value)()))
        }
    }
}

// What comes back where a thread could not be started and the team is called off. It does not
// return for a team that started before all its threads stand: `decide` alone starts a team, once
// they do.
fn left_of<'d, R: Wait, M: Member<R> + Drop>(rt: &R, came: Came<'d, M, M::End>) -> Left<'d, M>
    ensures { came.entry ≡ Back result.member result.token }
{
    match came {
        Came::Back(member, token) => Left { member, token },
        Came::Ran(_, _) => {
            for _ in rt.forever() {
                yield_now();
            }
            unreachable!()
        }
    }
}
