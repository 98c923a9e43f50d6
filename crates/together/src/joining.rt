//! How it is decided whether a team starts, and how its threads are joined.
ghost use Rattle.std.specs.Prelude.{◌≡◌, ◌≤◌, ◌+◌, [], length, IsOk, IsErr, MatchOption};
ghost use Rattle.std.specs.List.{AllZip};
ghost use Rattle.std.specs.Vec.{vec_capacity};
ghost use Rattle.together.specs.Teams.{IsCalledOffBy, LinesUp};

use crate::board::Board;
use crate::gate::Decision;
use crate::member::{Came, Member};
use crate::starting::{Handle, Lineup};
use std::snapshot::Snapshot;
use std::sync::{OnceToken, Wait};
use std::thread::Threads;

/// Decides that the team starts, unless it is called off.
pub(crate) fn decide<'d, R: Wait, M: Member<R>>(
    rt: &R,
    board: &'d Board,
    lineup: &Lineup<'d, R, M>,
) -> OnceToken<'d, Decision>
    requires off { MatchOption lineup.now.off (lineup.now.waiting.items ≡ [])
        (IsCalledOffBy board.now.decision.id) }
    ensures of { result.of ≡ board.now.decision.id }
    ensures all { IsOk result.value → lineup.now.waiting.items ≡ [] }
{
    if let Some(token) = &lineup.off {
        return token.again();
    }
    match board.decision.try_insert(rt, Ok(())) {
        Ok(token) => token,
        Err((token, _)) => token,
    }
}

/// Joins each thread of a team that started, the first member's first: what each came to.
pub(crate) fn join_all<'d, R: Threads, M: Member<R> + Drop>(
    rt: &R,
    members: Snapshot<Vec<M>>,
    standing: Vec<Handle<'d, R, M, M::End>>,
    room: Vec<M::End>,
    decided: &OnceToken<'d, Decision>,
) -> Vec<M::End>
    requires lined { LinesUp M.comes_back decided.now.of members.value.items [] standing.items }
    requires started { IsOk decided.now.value }
    requires none { room.items ≡ [] }
    requires room { length standing.items ≤ vec_capacity room }
    ensures { AllZip M.ends members.value.items result.items }
{
    let (mut standing, mut ended) = (standing, room);
    'joining: while let Some(handle) = standing.pop() {
        match handle.join(rt) {
            Came::Ran(end, _) => ended.push_reserved(end),
            Came::Back(_, token) => {
                token.agrees(decided);
                unreachable!()
            }
        }
    }
    ended
}

/// Joins each thread of a team that is called off: all members are back, in their order.
pub(crate) fn take_back<'d, R: Threads, M: Member<R> + Drop>(
    rt: &R,
    members: Snapshot<Vec<M>>,
    standing: Vec<Handle<'d, R, M, M::End>>,
    waiting: Vec<M>,
    decided: &OnceToken<'d, Decision>,
) -> Vec<M>
    requires lined { LinesUp M.comes_back decided.now.of members.value.items waiting.items
        standing.items }
    requires off { IsErr decided.now.value }
    requires room { length waiting.items + length standing.items ≤ vec_capacity waiting }
    ensures { AllZip M.comes_back members.value.items result.items }
{
    let (mut standing, mut back) = (standing, waiting);
    'joining: while let Some(handle) = standing.pop() {
        match handle.join(rt) {
            Came::Back(member, _) => back.push_reserved(member),
            Came::Ran(_, token) => {
                token.agrees(decided);
                unreachable!()
            }
        }
    }
    back
}
