//! Tag spaces, and how they are made and joined.
ghost use Rattle.std.specs.Prelude.{◌≡◌, ◌+◌, ◌<◌, ◌^◌};
ghost use Rattle.kernel_lock.specs.Seats.{limit_of, opening_of};
ghost use Rattle.tag_space.specs.GroupObject.{group, opening};

use crate::group_object::GroupObject;
use crate::member::Member;
use kernel_lock::Locked;
use sleep_wakeup::Roster;
use std::alloc::Global;
use std::sync::Wait;
use sync_base::limits::MAX_PROCS;
use sync_base::{Fault, RendezId};

/// A place where processes meet by tags, after rendezvous(2). Calls of two spaces never meet.
#[derive(Drop)]
pub struct TagSpace {
    pub(crate) lock: Locked<GroupObject>,
    /// The first Rendez of the row in which its members sleep.
    pub(crate) first: RendezId,
    /// How many members it may have.
    pub(crate) procs: u64,
    ghost some: { 0 < procs },
    ghost limited: { limit_of lock ≡ procs },
    ghost opened: { opening_of group lock ≡ opening procs 0 },
    ghost numbered: { first.0 + procs < 2 ^ 64 },
}

/// A new tag space, and its first member.
#[derive(Drop)]
pub struct Opened {
    pub space: TagSpace,
    pub member: Member,
}

impl TagSpace {
    ghost use Rattle.std.specs.Prelude.{◌≡◌, IfOk, IfErr, OnOk, OnErr};
    ghost use Rattle.sleep_core.specs.Limits.{IsProcCount};
    ghost use Rattle.sleep_wakeup.specs.Kernel.{HasRendez, rendez_less};
    ghost use Rattle.tag_space.specs.Spaces.{IsNewSpace, IsFirstMember, WhyNoSpace, WhyNoGroup};

    /// A space of this many members, with a row of as many Rendez, and its first member. Refuses,
    /// in this order, as `NoProc`, `NoRendez` and `Memory`. Doesn't wait.
    pub fn new(alloc: Global, roster: &mut Roster, procs: u64) -> Result<Opened, Fault>
        // Refused first, and then no Rendez is used up.
        ensures in_range { OnOk result (IsProcCount procs) }
        ensures fault { IfErr result (WhyNoSpace roster.old procs) }
        ensures refused { OnErr result (roster.new ≡ roster.old) }

        // Otherwise the row is the next one, and the space has one member.
        ensures row { OnOk result (roster.new ≡ rendez_less procs roster.old) }
        ensures space { IfOk result (λ opened. IsNewSpace roster.old procs opened.space) }
        ensures member { IfOk result (λ opened. IsFirstMember opened.space opened.member) }
    {
        if procs == 0 || procs > MAX_PROCS {
            return Err(Fault::NoProc);
        }
        TagSpace::open(alloc, roster, procs)
    }

    /// A new space of the same size, with a row of its own, and its first member.
    /// Refuses, in this order, as `NoRendez` and `Memory`. Doesn't wait.
    pub fn new_group(&self, alloc: Global, roster: &mut Roster) -> Result<Opened, Fault>
        // Refused first, and then no Rendez is used up.
        ensures fault { IfErr result (WhyNoGroup roster.old self.now.procs) }
        ensures refused { OnErr result (roster.new ≡ roster.old) }

        // Otherwise the row is the next one, and the space has one member.
        ensures row { OnOk result (roster.new ≡ rendez_less self.now.procs roster.old) }
        ensures space { IfOk result (λ opened. IsNewSpace roster.old self.now.procs opened.space) }
        ensures member { IfOk result (λ opened. IsFirstMember opened.space opened.member) }
    {
        TagSpace::open(alloc, roster, self.procs)
    }

    // Memory is asked for before the row is taken, so that no row is lost where there is none.
    fn open(alloc: Global, roster: &mut Roster, procs: u64) -> Result<Opened, Fault>
        requires { 0 < procs }
        ensures fault { IfErr result (WhyNoGroup roster.old procs) }
        ensures refused { OnErr result (roster.new ≡ roster.old) }
        ensures row { OnOk result (roster.new ≡ rendez_less procs roster.old) }
        ensures space { IfOk result (λ opened. IsNewSpace roster.old procs opened.space) }
        ensures member { IfOk result (λ opened. IsFirstMember opened.space opened.member) }
    {
        let (_, rendez) = roster.left();
        if rendez < procs {
            return Err(Fault::NoRendez);
        }
        let object = GroupObject::new(alloc, procs)?;
        let kernel_lock::Opened { lock, seat } = Locked::new(alloc, object, procs)?;
        let first = match roster.row(procs) {
            Ok(first) => first,
            Err(_) => unreachable!(),
        };
        Ok(Opened {
            space: TagSpace { lock, first, procs },
            member: Member {
                seat,
                rendez: first,
            },
        })
    }
}

impl TagSpace {
    ghost use Rattle.std.specs.Prelude.{◌≡◌, IfOk, IfErr, OnErr};
    ghost use Rattle.kernel_lock.specs.Seats.{Splits, KnowsAllGiven};
    ghost use Rattle.sync_base.specs.declared.fault.Fault.TheVariants.{NoProc};
    ghost use Rattle.tag_space.specs.Members.{IsMemberOf, IsSameMember};
    ghost use Rattle.tag_space.specs.Spaces.{IsFurtherMember, JoinsMembers};

    /// Another member of the space, for a child of the process that has this one. Refuses as
    /// `NoProc` where the space has had all its members. Waits for other callers of the space.
    /// Takes no memory.
    pub fn fork_member<R: Wait>(&self, rt: &R, member: &mut Member) -> Result<Member, Fault>
        requires member { IsMemberOf self.now member.old }

        // The member is as it was, and its space has one more.
        ensures member { IsMemberOf self.now member.new }
        ensures same { IsSameMember member.old member.new }
        ensures child { IfOk result (IsMemberOf self.now) }
        ensures given { IfOk result (λ child.
            Splits self.now.lock member.old.seat member.new.seat child.seat) }
        ensures further { IfOk result (IsFurtherMember self.now member.old member.new) }

        // Or all members were given.
        ensures fault { IfErr result (λ fault. fault ≡ NoProc) }
        ensures refused { OnErr result
            (KnowsAllGiven self.now.lock member.old.seat member.new.seat) }
    {
        let seat = self.lock.split(rt, &mut member.seat)?;
        let rendez = RendezId(self.first.0 + seat.number());
        Ok(Member { seat, rendez })
    }

    /// Makes one member of two, each between two calls. It calls as the first, and has seen what
    /// both have seen. Tests alone call it, to see which members met. Takes no memory and doesn't
    /// wait.
    pub fn join_members(&self, first: Member, second: Member) -> Member
        requires first { IsMemberOf self.now first }
        requires second { IsMemberOf self.now second }
        ensures member { IsMemberOf self.now result }
        ensures same { IsSameMember first result }

        // What both had seen are pasts of one history, in which their calls stand once each.
        ensures joined { JoinsMembers first second result }
    {
        let Member { seat, rendez } = first;
        let Member {
            seat: other,
            rendez: _,
        } = second;
        Member {
            seat: self.lock.join(seat, other),
            rendez,
        }
    }
}
