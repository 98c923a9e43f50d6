//! What a member asks of its space, one request at a time.
ghost use Rattle.std.specs.Prelude.{◌≡◌, ◌<◌};
ghost use Rattle.sleep_wakeup.specs.Actions.{WakesOne};
ghost use Rattle.tag_space.specs.declared.calls.GroupCall.TheVariants.{Call, Collect, Leave};
ghost use Rattle.tag_space.specs.declared.member.Member.{Member};
ghost use Rattle.tag_space.specs.Asking.{Asks, Requests, IsCalled, IsCollected, IsLeft, meeting};
ghost use Rattle.tag_space.specs.GroupObject.{member_of};
ghost use Rattle.tag_space.specs.Members.{OwnsRow, IsMemberOf, IsOneOf, IsSameMember};
ghost use Rattle.tag_space.specs.Members.{IsWaitingMember, account_of, number_of, rendez_of_member};

use crate::calls::{GroupCall, GroupReply};
use crate::member::Member;
use crate::space::TagSpace;
use sleep_wakeup::Proc;
use std::sync::Wait;
use sync_base::{Fault, RendezId, Tag};
use waiting::{Reply, WaitingCall};

impl TagSpace {
    // Has the space answer a request of the member.
    fn ask<R: Wait>(&self, rt: &R, member: &mut Member, request: GroupCall) -> GroupReply
        requires member { IsOneOf self.now member.old }
        requires own { member_of request ≡ number_of member.old }
        ensures member { IsOneOf self.now member.new }
        ensures same { IsSameMember member.old member.new }
        ensures asked { Asks request result (account_of member.old) (account_of member.new) }
    {
        self.lock.apply(rt, &mut member.seat, request)
    }

    // Gives the value under the tag.
    pub(crate) fn call<R: Wait>(
        &self,
        rt: &R,
        member: &mut Member,
        tag: Tag,
        value: u64,
    ) -> GroupReply
        requires { IsMemberOf self.now member.old }
        ensures requested { Requests self.now (Call (number_of member.old) tag value) result
            member.old member.new }
        ensures called { IsCalled self.now member.new result }
    {
        let request = GroupCall::Call {
            member: member.seat.number(),
            tag,
            value,
        };
        self.ask(rt, member, request)
    }

    // Asks whether the call was met.
    fn collect<R: Wait>(&self, rt: &R, member: &mut Member) -> GroupReply
        requires { IsWaitingMember self.now member.old }
        ensures requested { Requests self.now (Collect (number_of member.old)) result
            member.old member.new }
        ensures collected { IsCollected self.now member.new result }
    {
        let request = GroupCall::Collect {
            member: member.seat.number(),
        };
        self.ask(rt, member, request)
    }

    // Asks the same, and waits no longer.
    pub(crate) fn leave<R: Wait>(&self, rt: &R, member: &mut Member) -> GroupReply
        requires { IsWaitingMember self.now member.old }
        ensures requested { Requests self.now (Leave (number_of member.old)) result
            member.old member.new }
        ensures left { IsLeft self.now member.new result }
    {
        let request = GroupCall::Leave {
            member: member.seat.number(),
        };
        self.ask(rt, member, request)
    }

    // Wakes the partner that was met so often.
    fn wake(&self, proc: &mut Proc, partner: u64, count: u64)
        requires partner { partner < self.now.procs }
        requires row { OwnsRow self.now proc.old.words }
        ensures woken { WakesOne proc.old.process (rendez_of_member self.now partner) count
            proc.new.process }
        ensures words { proc.new.words ≡ proc.old.words }
    {
        match proc.wakeup(RendezId(self.first.0 + partner), count) {
            Ok(_) => {}
            Err(_) => unreachable!(),
        }
    }
}

/// A call of rendezvous(2): what it asks of its space.
#[derive(Drop)]
pub(crate) struct Rendezvous<'s> {
    pub(crate) space: &'s TagSpace,
    pub(crate) tag: Tag,
    pub(crate) value: u64,
}

impl<'s> WaitingCall for Rendezvous<'s> {
    type Seat = Member;

    type Out = u64;

    ghost ready = { λ call member. IsMemberOf call.space.now member };

    ghost waits = { λ call member. IsWaitingMember call.space.now member };

    ghost rests = { λ call member. IsMemberOf call.space.now member };

    ghost knows = { λ call words. OwnsRow call.space.now words };

    ghost Sight = { Member };

    ghost sight = { λ member buffer. member };

    ghost promise = { λ call. meeting call.space.now
        (record { tag = call.tag; value = call.value }) };

    // Calls, and wakes the partner that it finds.
    fn begin<R: Wait>(
        &self,
        rt: &R,
        proc: &mut Proc<'_>,
        member: &mut Member,
        _buffer: &mut [u8],
    ) -> Reply<u64> {
        match self.space.call(rt, member, self.tag, self.value) {
            GroupReply::Met {
                value,
                member: partner,
                count,
            } => {
                self.space.wake(proc, partner, count);
                Reply::Done(value)
            }
            GroupReply::Wait { count } => Reply::Wait(count),
            GroupReply::Worn => Reply::Refused(Fault::Worn),
            GroupReply::WasMet { value: _ } | GroupReply::Gone | GroupReply::Busy => {
                unreachable!()
            }
        }
    }

    // Whoever met the call has woken the process.
    fn ask<R: Wait>(
        &self,
        rt: &R,
        _proc: &mut Proc<'_>,
        member: &mut Member,
        _buffer: &mut [u8],
    ) -> Reply<u64> {
        match self.space.collect(rt, member) {
            GroupReply::WasMet { value } => Reply::Done(value),
            GroupReply::Wait { count } => Reply::Wait(count),
            GroupReply::Met { .. } | GroupReply::Worn | GroupReply::Gone | GroupReply::Busy => {
                unreachable!()
            }
        }
    }

    fn leave<R: Wait>(&self, rt: &R, member: &mut Member) -> Option<u64> {
        match self.space.leave(rt, member) {
            GroupReply::WasMet { value } => Some(value),
            GroupReply::Gone => None,
            GroupReply::Met { .. }
            | GroupReply::Wait { count: _ }
            | GroupReply::Worn
            | GroupReply::Busy => unreachable!(),
        }
    }
}
