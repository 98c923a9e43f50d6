//! A tag space, and members of it: whoever calls by a member lends it the process that makes the
//! call.
ghost use Rattle.std.specs.Prelude.{◌≡◌, Some};
ghost use Rattle.tag_space.specs.Members.{IsMemberOf};
ghost use Rattle.tag_space.specs.Spaces.{IsFirstMember};
ghost use Rattle.plan9.specs.Memberships.{SpaceEndsBefore};

use crate::clock::Watch;
use crate::known::has_row;
use crate::many::{Splits, room_for, split_into};
use sleep_wakeup::{Proc, Roster};
use std::alloc::Global;
use std::marker::Model;
use std::sync::Wait;
use sync_base::{Fault, NoProbe, Probe, RendezId, Tag};
use tag_space::{Opened, TagSpace};
use timer_list::Deadline;

/// A tag space, and its first member as long as nobody has it. Calls of two spaces never meet.
#[derive(Drop)]
pub struct Space {
    space: TagSpace,
    spare: Option<tag_space::Member>,
    procs: u64,
    /// The Rendez behind its last one.
    beyond: u64,
}

impl Model for Space {
    ghost use Rattle.std.specs.Prelude.{◌≡◌};
    ghost use Rattle.plan9.specs.Memberships.{Hosting, IsSpareMember, SpaceEndsBefore};

    ghost Value = { Hosting };

    ghost view = { λ it. record { space = it.space; spare = it.spare } };

    ghost invariant = { λ it. record {
      procs_are : it.space.procs ≡ it.procs;
      row : SpaceEndsBefore it.space it.beyond;
      spare : IsSpareMember it.space it.spare;
    } };
}

/// A member of a tag space, by which one process at a time calls. It holds no process, so a process
/// may call by members of many spaces. One thread has it at a time, and may hand it to another.
#[derive(Drop)]
pub struct Member<'s> {
    pub(crate) space: &'s TagSpace,
    pub(crate) procs: u64,
    pub(crate) beyond: u64,
    pub(crate) member: tag_space::Member,
}

impl<'s> Model for Member<'s> {
    ghost use Rattle.std.specs.Prelude.{◌≡◌};
    ghost use Rattle.tag_space.specs.Members.{IsMemberOf};
    ghost use Rattle.plan9.specs.Memberships.{Membered, SpaceEndsBefore};

    ghost Value = { Membered };

    ghost view = { λ it. record { space = it.space.now; member = it.member } };

    ghost invariant = { λ it. record {
      procs_are : it.space.now.procs ≡ it.procs;
      row : SpaceEndsBefore it.space.now it.beyond;
      member_is : IsMemberOf it.space.now it.member;
    } };
}

// A new space for so many processes, whose first member nobody has.
pub(crate) fn space_of(space: TagSpace, member: tag_space::Member, procs: u64) -> Space
    requires procs { space.procs ≡ procs }
    requires first { IsFirstMember space member }
    ensures { result ≡ record { space = space; spare = Some member } }
{
    let RendezId(first) = member.rendez();
    Space {
        space,
        spare: Some(member),
        procs,
        beyond: first + procs,
    }
}

// A member of a space of so many processes, which has the Rendez below this one.
pub(crate) fn member_of<'s>(
    space: &'s TagSpace,
    procs: u64,
    beyond: u64,
    member: tag_space::Member,
) -> Member<'s>
    requires procs { space.now.procs ≡ procs }
    requires row { SpaceEndsBefore space.now beyond }
    requires member { IsMemberOf space.now member }
    ensures { result ≡ record { space = space.now; member = member } }
{
    Member {
        space,
        procs,
        beyond,
        member,
    }
}

impl Space {
    ghost use Rattle.std.specs.Prelude.{◌≡◌, ◌≤◌, ◌↔◌, true, None, IfOk, IfErr, OnOk, OnErr};
    ghost use Rattle.sync_base.specs.declared.fault.Fault.TheVariants.{NoProc};
    ghost use Rattle.sleep_core.specs.Limits.{IsProcCount};
    ghost use Rattle.sleep_wakeup.specs.Kernel.{rendez_less};
    ghost use Rattle.tag_space.specs.Spaces.{WhyNoGroup, WhyNoSpace};
    ghost use Rattle.plan9.specs.Memberships.{
      AreMembers,
      IsFirstOf,
      IsNewSpaceFor,
      MayGive,
      WhyNoMembers,
    };

    /// A space for this many processes. It takes as many Rendez. Refuses, in this order, as
    /// `NoProc` where the processes are not from 1 to 1,024, `NoRendez` and `Memory`. Doesn't wait.
    pub fn new(alloc: Global, roster: &mut Roster<'_>, procs: u64) -> Result<Space, Fault>
        // Refused first, and then no Rendez is used up.
        ensures in_range { OnOk result (IsProcCount procs) }
        ensures fault { IfErr result (WhyNoSpace roster.old procs) }
        ensures refused { OnErr result (roster.new ≡ roster.old) }

        // Otherwise the row is the next one, and nobody has the first member.
        ensures row { OnOk result (roster.new ≡ rendez_less procs roster.old) }
        ensures opened { IfOk result (IsNewSpaceFor roster.old procs) }
    {
        let Opened { space, member } = TagSpace::new(alloc, roster, procs)?;
        Ok(space_of(space, member, procs))
    }

    /// Another space, for as many processes: calls of the two never meet. It takes as many Rendez.
    /// Refuses, in this order, as `NoRendez` and `Memory`. Doesn't wait.
    pub fn new_group(&self, alloc: Global, roster: &mut Roster<'_>) -> Result<Space, Fault>
        // Refused first, and then no Rendez is used up.
        ensures fault { IfErr result (WhyNoGroup roster.old self.now.space.procs) }
        ensures refused { OnErr result (roster.new ≡ roster.old) }

        // Otherwise the row is the next one, and nobody has the first member.
        ensures row { OnOk result
            (roster.new ≡ rendez_less self.now.space.procs roster.old) }
        ensures opened { IfOk result (IsNewSpaceFor roster.old self.now.space.procs) }
    {
        let Opened { space, member } = self.space.new_group(alloc, roster)?;
        Ok(space_of(space, member, self.procs))
    }

    // How many processes may call in it.
    fn procs(&self) -> u64
        ensures { result ≡ self.now.space.procs }
    {
        self.procs
    }

    /// Whether nobody has had the first member. Takes no memory and doesn't wait.
    pub fn has_member(&self) -> bool
        ensures { result ≡ true ↔ ¬ (self.now.spare ≡ None) }
    {
        self.spare.is_some()
    }

    /// The first member. Refuses as `NoProc` where somebody had it before. Takes no memory and
    /// doesn't wait.
    pub fn member<'s>(&'s mut self) -> Result<Member<'s>, Fault>
        // Refused first, and then there was no member to lose.
        ensures fault { IfErr result (λ fault. fault ≡ NoProc) }
        ensures taken { OnErr result (self.old.spare ≡ None) }

        // Otherwise it is the member that nobody had.
        ensures first { IfOk result (IsFirstOf self.old) }
    {
        match self.spare.take() {
            None => Err(Fault::NoProc),
            Some(member) => Ok(Member {
                space: &self.space,
                procs: self.procs,
                beyond: self.beyond,
                member,
            }),
        }
    }

    /// This many members: the first one, and members that are split off one by one. Refuses, in
    /// this order, as `NoProc` where the count is 0 or above the processes of the space, as
    /// `Memory`, and as `NoProc` where somebody had the first member before. Takes memory for the
    /// list, and waits for the space's lock.
    pub fn members<'s, R: Wait>(
        &'s mut self,
        alloc: Global,
        rt: &R,
        count: u64,
    ) -> Result<Vec<Member<'s>>, Fault>
        // Refused, in this order.
        ensures in_range { OnOk result (MayGive self.old count) }
        ensures fault { IfErr result (WhyNoMembers self.old count) }

        // Otherwise no other member was given.
        ensures members { IfOk result (λ members. AreMembers self.old count members.items) }
    {
        let members = room_for(alloc, self.procs(), count)?;
        let first = self.member()?;
        split_into(rt, first, members, count)
    }
}

impl<'s> Splits for Member<'s> {
    ghost use Rattle.plan9.specs.Memberships.{GivesAnother, KnowsNoMember};

    ghost gives = { GivesAnother };

    ghost knows_none = { KnowsNoMember };

    fn further<R: Wait>(&mut self, rt: &R) -> Result<Member<'s>, Fault> {
        self.split(rt)
    }
}

impl<'s> Member<'s> {
    ghost use Rattle.std.specs.Prelude.{◌≡◌, IfOk, IfErr, OnErr};
    ghost use Rattle.sync_base.specs.declared.fault.Fault.TheVariants.{NoProc};
    ghost use Rattle.tag_space.specs.Asking.{meeting};
    ghost use Rattle.tag_space.specs.Members.{OwnsRow, number_of, rendez_of_member};
    ghost use Rattle.timer_list.specs.Timers.{deadline_of};
    ghost use Rattle.plan9.specs.Known.{IfKnown};
    ghost use Rattle.plan9.specs.Memberships.{
      IsFurtherMemberOf,
      IsSame,
      KnowsNoMember,
      MeetsOnce,
      MeetsUntil,
      MeetsInWords,
      calls,
      calls_with,
    };
    ghost use Rattle.plan9.specs.Watches.{IsSameWatch};

    /// A further member, for another process. Refuses as `NoProc` where the space has had all its
    /// members. It waits for the space's lock. Takes no memory.
    pub fn split<R: Wait>(&mut self, rt: &R) -> Result<Member<'s>, Fault>
        ensures same { IsSame self.old self.new }
        ensures fault { IfErr result (λ fault. fault ≡ NoProc) }
        ensures refused { OnErr result (KnowsNoMember self.old self.new) }
        ensures further { IfOk result (IsFurtherMemberOf self.old self.new) }
    {
        let member = self.space.fork_member(rt, &mut self.member)?;
        Ok(Member {
            space: self.space,
            procs: self.procs,
            beyond: self.beyond,
            member,
        })
    }

    /// Meets another process that calls in the space with the same tag, and returns its value; the
    /// other gets this one. The first of the two waits for the second. After rendezvous(2).
    ///
    /// Refuses, in this order, as `NoRendez` a process whose kernel has too few Rendez for the
    /// space, `Worn` where it would wait and no more meetings of the member can be counted,
    /// `DoubleSleep` where another process sleeps in the member's Rendez, and `Interrupted` with
    /// the notes that ended the wait, which are no longer pending. Where the partner came before
    /// that, the exchange stands, and the notes are pending again. Takes no memory.
    pub fn rendezvous<R: Wait>(
        &mut self,
        rt: &R,
        proc: &mut Proc<'_>,
        tag: Tag,
        value: u64,
    ) -> Result<u64, Fault>
        ensures same { IsSame self.old self.new }
        ensures words { proc.new.words ≡ proc.old.words }

        // It is the call of the space where the process may make it; else nothing is done.
        ensures known { IfKnown (OwnsRow self.old.space proc.old.words) result
            ((self.new ≡ self.old) × (proc.new ≡ proc.old))
            (MeetsOnce (record { tag = tag; value = value }) (calls self.old proc.old) result
            (calls self.new proc.new)) }
    {
        self.rendezvous_probed(rt, proc, tag, value, &mut NoProbe)
    }

    /// A `rendezvous` that calls its probe at its points, as `TagSpace::rendezvous_probed` does: 1
    /// before it calls, 2 before and 3 after each sleep, 4 at the end.
    pub fn rendezvous_probed<R: Wait, P: Probe>(
        &mut self,
        rt: &R,
        proc: &mut Proc<'_>,
        tag: Tag,
        value: u64,
        probe: &mut P,
    ) -> Result<u64, Fault>
        ensures same { IsSame self.old self.new }
        ensures words { proc.new.words ≡ proc.old.words }

        // It is the call of the space where the process may make it; else nothing is done.
        ensures known { IfKnown (OwnsRow self.old.space proc.old.words) result
            ((self.new ≡ self.old) × (proc.new ≡ proc.old))
            (MeetsOnce (record { tag = tag; value = value }) (calls self.old proc.old) result
            (calls self.new proc.new)) }
    {
        if !has_row(proc, self.beyond) {
            return Err(Fault::NoRendez);
        }
        self.space
            .rendezvous_probed(rt, proc, &mut self.member, tag, value, probe)
    }

    /// A `rendezvous` that answers `Ok(INTERRUPTED)` in place of `Interrupted`, after
    /// rendezvous(2). A caller can't distinguish a partner that gives this value from an
    /// interruption.
    pub fn rendezvous_word<R: Wait>(
        &mut self,
        rt: &R,
        proc: &mut Proc<'_>,
        tag: Tag,
        value: u64,
    ) -> Result<u64, Fault>
        ensures same { IsSame self.old self.new }
        ensures words { proc.new.words ≡ proc.old.words }

        // It is the word for the answer of a rendezvous.
        ensures known { IfKnown (OwnsRow self.old.space proc.old.words) result
            ((self.new ≡ self.old) × (proc.new ≡ proc.old))
            (MeetsInWords (record { tag = tag; value = value }) (calls self.old proc.old) result
            (calls self.new proc.new)) }
    {
        if !has_row(proc, self.beyond) {
            return Err(Fault::NoRendez);
        }
        self.space
            .rendezvous_word(rt, proc, &mut self.member, tag, value)
    }

    /// A `rendezvous` that waits until a tick of the clock at the moment `now` + `ms` or later;
    /// that moment is at most `u64::MAX`. Own; rendezvous(2) waits as long as it takes.
    ///
    /// Refuses, in this order, as `NoRendez`, `Worn` and `DoubleSleep` as `rendezvous` does,
    /// `Interrupted` with the notes that ended the wait, and `TimedOut` where a tick ended it and
    /// no other note came; a refused call is in no exchange, and nobody meets it later. With any
    /// other answer, other notes that came are pending again. Where a tick has taken its timer, it
    /// takes a note `expired` before it answers: so no late expiry reaches a later sleep, unless
    /// others post that note. Takes no memory.
    pub fn rendezvous_within<R: Wait>(
        &mut self,
        rt: &R,
        proc: &mut Proc<'_>,
        watch: &mut Watch<'_>,
        now: u64,
        ms: u32,
        tag: Tag,
        value: u64,
    ) -> Result<u64, Fault>
        ensures same { IsSame self.old self.new }
        ensures words { proc.new.words ≡ proc.old.words }
        ensures watch { IsSameWatch watch.old watch.new }

        // It is the call of the space where the process may make it; else nothing is done.
        ensures known { IfKnown (OwnsRow self.old.space proc.old.words) result
            ((self.new ≡ self.old) × (proc.new ≡ proc.old) × (watch.new ≡ watch.old))
            (MeetsUntil (record { tag = tag; value = value }) (deadline_of now ms)
            (calls_with self.old proc.old watch.old) result
            (calls_with self.new proc.new watch.new)) }
    {
        self.rendezvous_within_probed(rt, proc, watch, now, ms, tag, value, &mut NoProbe)
    }

    /// A `rendezvous_within` that calls its probe at its points: 2 before and 3 after each sleep
    /// for a partner.
    pub fn rendezvous_within_probed<R: Wait, P: Probe>(
        &mut self,
        rt: &R,
        proc: &mut Proc<'_>,
        watch: &mut Watch<'_>,
        now: u64,
        ms: u32,
        tag: Tag,
        value: u64,
        probe: &mut P,
    ) -> Result<u64, Fault>
        ensures same { IsSame self.old self.new }
        ensures words { proc.new.words ≡ proc.old.words }
        ensures watch { IsSameWatch watch.old watch.new }

        // It is the call of the space where the process may make it; else nothing is done.
        ensures known { IfKnown (OwnsRow self.old.space proc.old.words) result
            ((self.new ≡ self.old) × (proc.new ≡ proc.old) × (watch.new ≡ watch.old))
            (MeetsUntil (record { tag = tag; value = value }) (deadline_of now ms)
            (calls_with self.old proc.old watch.old) result
            (calls_with self.new proc.new watch.new)) }
    {
        if !has_row(proc, self.beyond) {
            return Err(Fault::NoRendez);
        }
        let until = Deadline {
            timers: watch.timers,
            from: now,
            ms,
        };
        let (member, timer) = (&mut self.member, &mut watch.seat);
        self.space
            .rendezvous_by(rt, proc, member, tag, value, &until, timer, probe)
    }

    /// The Rendez in which whoever calls by the member waits for a partner: the first Rendez of its
    /// space, plus the number of the member. Takes no memory and doesn't wait.
    pub fn rendez(&self) -> RendezId
        ensures { result ≡ rendez_of_member self.now.space (number_of self.now.member) }
    {
        self.member.rendez()
    }
}
