//! The call of rendezvous(2).
ghost use Rattle.std.specs.Prelude.{◌≡◌};
ghost use Rattle.tag_space.specs.Asking.{Meets, MeetsBy, RendezvousesInWords, meeting};
ghost use Rattle.tag_space.specs.Members.{IsMemberOf, IsSameMember, OwnsRow, party_of, seen_of};
ghost use Rattle.tag_space.specs.Outcome.{Exchange};
ghost use Rattle.waiting.specs.Runners.{IsACall, run_point};
ghost use Rattle.waiting.specs.Waiting.{point};

use crate::asking::Rendezvous;
use crate::member::Member;
use crate::space::TagSpace;
use sleep_wakeup::Proc;
use std::sync::Wait;
use sync_base::{Fault, NoProbe, Probe, Tag};
use waiting::{Forever, Runner};

/// The answer of `rendezvous_word` where notes ended the wait. rendezvous(2) answers ~0.
pub const INTERRUPTED: u64 = u64::MAX;

impl TagSpace {
    /// Meets another process of the space that calls with the same tag, and answers its value; the
    /// other gets this one. The first of the two waits for the second. After rendezvous(2).
    ///
    /// Refuses, in this order, as `Worn` where it would wait and no more meetings of the member
    /// can be counted, `DoubleSleep` where another process sleeps in the member's Rendez, and
    /// `Interrupted` with the notes that ended the wait, which are no longer pending. Where the
    /// partner came before that, the exchange stands, and the notes are pending again.
    /// Takes no memory.
    pub fn rendezvous<R: Wait>(
        &self,
        rt: &R,
        proc: &mut Proc,
        member: &mut Member,
        tag: Tag,
        value: u64,
    ) -> Result<u64, Fault>
        requires member { IsMemberOf self.now member.old }
        requires row { OwnsRow self.now proc.old.words }
        ensures member { IsMemberOf self.now member.new }
        ensures same { IsSameMember member.old member.new }
        ensures words { proc.new.words ≡ proc.old.words }

        // The member made one call, which is in a pair exactly where a value is answered.
        ensures exchange { Exchange (party_of self.now member.old)
            (record { tag = tag; value = value }) (seen_of member.old) (seen_of member.new) result }

        // What the member asked, and how its process slept and woke its partner.
        ensures waited { Meets self.now (record { tag = tag; value = value })
            (point member.old proc.old) result (point member.new proc.new) }
    {
        self.rendezvous_probed(rt, proc, member, tag, value, &mut NoProbe)
    }

    /// A `rendezvous` that calls its probe at its points: 1 before it calls, 2 before each sleep, 3
    /// after each sleep, 4 at the end.
    pub fn rendezvous_probed<R: Wait, P: Probe>(
        &self,
        rt: &R,
        proc: &mut Proc,
        member: &mut Member,
        tag: Tag,
        value: u64,
        probe: &mut P,
    ) -> Result<u64, Fault>
        requires member { IsMemberOf self.now member.old }
        requires row { OwnsRow self.now proc.old.words }
        ensures member { IsMemberOf self.now member.new }
        ensures same { IsSameMember member.old member.new }
        ensures words { proc.new.words ≡ proc.old.words }

        // The member made one call, which is in a pair exactly where a value is answered.
        ensures exchange { Exchange (party_of self.now member.old)
            (record { tag = tag; value = value }) (seen_of member.old) (seen_of member.new) result }

        // What the member asked, and how its process slept and woke its partner.
        ensures waited { Meets self.now (record { tag = tag; value = value })
            (point member.old proc.old) result (point member.new proc.new) }
    {
        probe.at(1);
        let answer = self.rendezvous_by(rt, proc, member, tag, value, &Forever, &mut (), probe);
        probe.at(4);
        answer
    }

    /// A `rendezvous` that waits as its runner does. The probe is called at its points: 2 before
    /// and 3 after each sleep for a partner. Takes no memory. Own; rendezvous(2) waits as long as
    /// it takes.
    ///
    /// Refuses as `Worn` as `rendezvous` does, and then as its runner does where it waits; a
    /// refused call is in no exchange, and nobody meets it later.
    pub fn rendezvous_by<R: Wait, W: Runner, P: Probe>(
        &self,
        rt: &R,
        proc: &mut Proc<'_>,
        member: &mut Member,
        tag: Tag,
        value: u64,
        runner: &W,
        timer: &mut W::Timer,
        probe: &mut P,
    ) -> Result<u64, Fault>
        requires member { IsMemberOf self.now member.old }
        requires row { OwnsRow self.now proc.old.words }
        requires timer { W.rests runner.now timer.old }
        ensures member { IsMemberOf self.now member.new }
        ensures same { IsSameMember member.old member.new }
        ensures words { proc.new.words ≡ proc.old.words }
        ensures timer { W.rests runner.now timer.new }
        ensures kept { W.kept timer.new ≡ W.kept timer.old }

        // The member made one call, which is in a pair exactly where a value is answered.
        ensures exchange { Exchange (party_of self.now member.old)
            (record { tag = tag; value = value }) (seen_of member.old) (seen_of member.new) result }

        // It was run so; and whatever its runner is, it was a call.
        ensures waited { MeetsBy (W.runs runner.now) self.now (record { tag = tag; value = value })
            (run_point member.old timer.old proc.old) result
            (run_point member.new timer.new proc.new) }
        ensures is_call { IsACall (meeting self.now (record { tag = tag; value = value }))
            member.old.rendez (point member.old proc.old) result (point member.new proc.new) }
    {
        let rendez = member.rendez;
        let call = Rendezvous {
            space: self,
            tag,
            value,
        };
        runner.run(rt, proc, rendez, &call, member, &mut [], timer, probe)
    }

    /// A `rendezvous` that answers `Ok(INTERRUPTED)` in place of `Interrupted`, after
    /// rendezvous(2). A caller can't distinguish a partner that gives this value from an
    /// interruption.
    pub fn rendezvous_word<R: Wait>(
        &self,
        rt: &R,
        proc: &mut Proc,
        member: &mut Member,
        tag: Tag,
        value: u64,
    ) -> Result<u64, Fault>
        requires member { IsMemberOf self.now member.old }
        requires row { OwnsRow self.now proc.old.words }
        ensures member { IsMemberOf self.now member.new }
        ensures same { IsSameMember member.old member.new }
        ensures words { proc.new.words ≡ proc.old.words }

        // It is the word for the answer of a rendezvous.
        ensures word { RendezvousesInWords self.now (record { tag = tag; value = value })
            (point member.old proc.old) result (point member.new proc.new) }
    {
        match self.rendezvous(rt, proc, member, tag, value) {
            Err(Fault::Interrupted(_)) => Ok(INTERRUPTED),
            answer => answer,
        }
    }
}
