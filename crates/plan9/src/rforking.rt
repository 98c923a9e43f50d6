//! A member whose process calls rfork(2): its child is in the same space or in a new one, or the
//! caller itself moves to a new one.
use crate::spaces::{Member, Space, member_of, space_of};
use sleep_wakeup::{Proc, Roster};
use std::alloc::Global;
use std::sync::Wait;
use sync_base::{Fault, Flags};
use tag_space::{Forked, NotForked, SpentMember, rfork};

/// What `Member::rfork` made.
#[derive(Drop)]
pub enum ForkedMember<'s, 'k> {
    /// Without RFPROC and RFREND: the member.
    Alone {
        member: Member<'s>,
    },
    /// With RFPROC: the member, the child, and the child's member of the same space.
    Child {
        member: Member<'s>,
        child: Proc<'k>,
        childs: Member<'s>,
    },
    /// With RFREND: a new space, whose first member is the caller's, and the member that the caller
    /// had in its old space.
    Apart {
        space: Space,
        spent: SpentMember,
    },
    /// With both: the member, the child, and a new space, whose first member is the child's.
    ChildApart {
        member: Member<'s>,
        child: Proc<'k>,
        space: Space,
    },
}

/// Why `Member::rfork` made nothing. The member comes back as it was.
#[derive(Drop)]
pub struct UnforkedMember<'s> {
    pub member: Member<'s>,
    pub fault: Fault,
}

impl<'s> From<UnforkedMember<'s>> for Fault {
    ghost use Rattle.std.specs.Prelude.{◌≡◌};

    ghost from_gives = { λ refused fault. fault ≡ refused.fault };

    /// The member is dropped. Takes no memory and doesn't wait.
    fn from(refused: UnforkedMember<'s>) -> Fault {
        let UnforkedMember { member: _, fault } = refused;
        fault
    }
}

impl<'s> Member<'s> {
    ghost use Rattle.std.specs.Prelude.{◌≡◌, IfOk, IfErr, OnOk, OnErr};
    ghost use Rattle.sync_base.specs.Flags.{AreKnown};
    ghost use Rattle.tag_space.specs.Forks.{left_by};
    ghost use Rattle.plan9.specs.MemberForks.{ForksMember, IsUnforked, member_fork};

    /// After fork(2): a child with RFPROC, and a new space with RFREND, for as many processes as
    /// this one. A child has a member of its parent's space; with RFREND the first of the new one
    /// is the child's instead. With RFREND alone that is the caller's, and its old member is spent.
    /// With RFNOTEG a child or, without RFPROC, the caller is the first of a new note group.
    ///
    /// Refuses, in this order, as `BadFlags` for any other flag, `NoProc` where no pid is left,
    /// `NoRendez` where no row for a new space is left, `NoProc` where the space has had all its
    /// members, and `Memory`. A refusal uses up no pid, no Rendez and no member, and hands the
    /// member back. It waits for the space's lock. With RFREND it takes memory. It asks for no
    /// Rendez of the space, so any process may be the caller.
    pub fn rfork<'k, R: Wait>(
        self,
        alloc: Global,
        rt: &R,
        roster: &mut Roster<'k>,
        proc: &mut Proc<'k>,
        flags: Flags,
    ) -> Result<ForkedMember<'s, 'k>, UnforkedMember<'s>>
        // Refused first, and then nothing is used up, and the member is as it was.
        ensures known { OnOk result (AreKnown flags) }
        ensures fault { IfErr result (IsUnforked (member_fork roster.old self.entry flags)) }
        ensures refused { OnErr result (roster.new ≡ roster.old) }

        // Otherwise the flags say who is in which space.
        ensures forked { IfOk result (ForksMember (member_fork roster.old self.entry flags)) }
        ensures left { OnOk result (roster.new
            ≡ left_by proc.old.process.pid roster.old self.entry.space flags) }

        // The caller is as it was.
        ensures parent { proc.new ≡ proc.old }
    {
        let Member {
            space,
            procs,
            beyond,
            member,
        } = self;
        let forked = match rfork(alloc, rt, roster, proc, space, member, flags) {
            Err(NotForked { member, fault }) => {
                let member = member_of(space, procs, beyond, member);
                return Err(UnforkedMember { member, fault });
            }
            Ok(forked) => forked,
        };
        let Forked {
            member,
            space: new,
            child,
            spent,
        } = forked;
        match (new, child, spent) {
            (None, None, _) => {
                let member = member_of(space, procs, beyond, member);
                Ok(ForkedMember::Alone { member })
            }
            (None, Some((child, childs)), _) => {
                let member = member_of(space, procs, beyond, member);
                let childs = member_of(space, procs, beyond, childs);
                Ok(ForkedMember::Child {
                    member,
                    child,
                    childs,
                })
            }
            (Some(new), None, Some(spent)) => {
                let space = space_of(new, member, procs);
                Ok(ForkedMember::Apart { space, spent })
            }
            (Some(new), Some((child, childs)), _) => {
                let member = member_of(space, procs, beyond, member);
                let space = space_of(new, childs, procs);
                Ok(ForkedMember::ChildApart {
                    member,
                    child,
                    space,
                })
            }
            (Some(_), None, None) => unreachable!(),
        }
    }
}
