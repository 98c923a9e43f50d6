//! How rfork(2) makes a child in a tag space, or gives it or the caller a new one.
ghost use Rattle.std.specs.Prelude.{◌≡◌, ◌<◌, IfOk, IfErr, OnOk, OnErr, IfSome, None};
ghost use Rattle.sleep_wakeup.specs.Forks.{HasPid};
ghost use Rattle.sync_base.specs.Flags.{AreKnown};
ghost use Rattle.sleep_wakeup.specs.Kernel.{next_process, one_pid_less, rendez_less, regrouped};
ghost use Rattle.tag_space.specs.Members.{IsMemberOf, IsSameMember};
ghost use Rattle.tag_space.specs.Forks.{
  WhyNotForked,
  HasSpace,
  HasChild,
  callers_space,
  childs_space,
  left_by,
  rfork_of,
  IsFirstThere,
  KeepsMember,
  ComesBack,
  IsUntouched,
  GivesMember,
  HasSpent,
};

use crate::member::Member;
use crate::space::{Opened, TagSpace};
use sleep_wakeup::{Proc, Roster};
use std::alloc::Global;
use std::sync::Wait;
use sync_base::{Fault, Flags};

/// The member that a caller had in the space that it left. Nothing is called with it any more.
#[derive(Drop)]
pub struct SpentMember {
    pub(crate) member: Member,
}

/// What rfork made.
#[derive(Drop)]
pub struct Forked<'k> {
    /// The caller's member. With RFREND alone it is the first of the new space.
    pub member: Member,
    /// The new space, with RFREND.
    pub space: Option<TagSpace>,
    /// The child and its member, with RFPROC. With RFREND too, the member is the first of the new
    /// space.
    pub child: Option<(Proc<'k>, Member)>,
    /// With RFREND alone, the member that the caller had in its old space.
    pub spent: Option<SpentMember>,
}

/// Why rfork made nothing. The member comes back as it was.
#[derive(Drop)]
pub struct NotForked {
    pub member: Member,
    pub fault: Fault,
}

/// After fork(2): makes a child with RFPROC, and a new tag space with RFREND. A child is in its
/// parent's space or, with RFREND, the first in a new one. With RFREND alone the caller is the
/// first in the new space, and its old member is spent. A new space has as many members as the old
/// one. With RFNOTEG a child or, without RFPROC, the caller is the first of a new note group.
///
/// Refuses, in this order, as `BadFlags` for any other flag, `NoProc` where no pid is left,
/// `NoRendez` where no row for a new space is left, `NoProc` where the old space has had all its
/// members, and `Memory`. A refusal uses up no pid, no Rendez and no member, and hands the member
/// back. Waits for other callers of the space.
pub fn rfork<'k, R: Wait>(
    alloc: Global,
    rt: &R,
    roster: &mut Roster<'k>,
    parent: &mut Proc<'k>,
    space: &TagSpace,
    member: Member,
    flags: Flags,
) -> Result<Forked<'k>, NotForked>
    requires { IsMemberOf space.now member }

    // Refused first, and then nothing is used up.
    ensures known { OnOk result (AreKnown flags) }
    ensures fault { IfErr result (λ refused.
        WhyNotForked (rfork_of roster.old space.now flags) member refused.member refused.fault) }
    ensures back { IfErr result (λ refused. IsMemberOf space.now refused.member) }
    ensures same { IfErr result (λ refused. IsSameMember member refused.member) }
    ensures as_it_was { IfErr result (λ refused.
        ComesBack (rfork_of roster.old space.now flags) member refused.member) }
    ensures refused { OnErr result (roster.new ≡ roster.old) }

    // Otherwise the flags say who is in which space.
    ensures space { IfOk result (λ forked. HasSpace roster.old space.now flags forked.space) }
    ensures child { IfOk result (λ forked.
        HasChild roster.old (childs_space space.now forked.space) flags forked.child) }
    ensures member { IfOk result (λ forked.
        IsMemberOf (callers_space flags space.now forked.space) forked.member) }
    ensures kept { IfOk result (λ forked. KeepsMember flags member forked.member) }
    ensures first { IfOk result (λ forked.
        IsFirstThere forked.space forked.member forked.child) }
    ensures left { OnOk result
        (roster.new ≡ left_by parent.old.process.pid roster.old space.now flags) }

    // The caller's member makes no call, and gives no other but the child's.
    ensures untouched { IfOk result (λ forked. IsUntouched flags member forked.member) }
    ensures gives { IfOk result (λ forked.
        GivesMember space.now flags member forked.member forked.child) }
    ensures spent { IfOk result (λ forked. HasSpent flags member forked.spent) }

    // The parent is as it was.
    ensures parent { parent.new ≡ parent.old }
{
    let mut member = member;
    let Some(wants) = flags.wants() else {
        return Err(refused(member, Fault::BadFlags));
    };
    let (pids, _) = roster.left();
    if wants.process && pids == 0 {
        return Err(refused(member, Fault::NoProc));
    }
    match (wants.process, wants.space) {
        (false, false) => {
            leave_group(roster, parent, wants.note_group);
            Ok(of_parts(member, None, None, None))
        }
        (true, false) => match space.fork_member(rt, &mut member) {
            Ok(childs) => {
                let child = next_child(roster, parent, wants.note_group);
                Ok(of_parts(member, None, Some((child, childs)), None))
            }
            Err(fault) => Err(refused(member, fault)),
        },
        (false, true) => match space.new_group(alloc, roster) {
            Ok(Opened { space, member: own }) => {
                leave_group(roster, parent, wants.note_group);
                Ok(of_parts(own, Some(space), None, Some(SpentMember { member })))
            }
            Err(fault) => Err(refused(member, fault)),
        },
        (true, true) => match space.new_group(alloc, roster) {
            Ok(Opened { space, member: own }) => {
                let child = next_child(roster, parent, wants.note_group);
                Ok(of_parts(member, Some(space), Some((child, own)), None))
            }
            Err(fault) => Err(refused(member, fault)),
        },
    }
}

// What was made, of these.
fn of_parts<'k>(
    member: Member,
    space: Option<TagSpace>,
    child: Option<(Proc<'k>, Member)>,
    spent: Option<SpentMember>,
) -> Forked<'k>
    ensures { result ≡
        record { member = member; space = space; child = child.entry; spent = spent } }
{
    Forked {
        member,
        space,
        child,
        spent,
    }
}

// The member, with the reason.
fn refused(member: Member, fault: Fault) -> NotForked
    ensures { result ≡ record { member = member; fault = fault } }
{
    NotForked { member, fault }
}

// The next process, in its parent's note group or in one of its own.
fn next_child<'k>(roster: &mut Roster<'k>, parent: &Proc<'k>, apart: bool) -> Proc<'k>
    requires { HasPid roster.old }
    ensures child { result ≡ next_process roster.old }
    ensures left { roster.new ≡ one_pid_less parent.now.process.pid apart roster.old }
{
    match roster.make_child(parent, apart) {
        Ok(child) => child,
        Err(_) => unreachable!(),
    }
}

// The caller in a note group of its own, where one is asked for.
fn leave_group<'k>(roster: &mut Roster<'k>, caller: &Proc<'k>, apart: bool)
    ensures { roster.new ≡ regrouped caller.now.process.pid apart roster.old }
{
    if apart {
        roster.leave_group(caller);
    }
}
