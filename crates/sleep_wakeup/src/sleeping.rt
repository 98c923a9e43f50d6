//! How a process sleeps.
ghost use Rattle.std.specs.Prelude.{◌≡◌, ◌⊎◌, IfOk, IfErr, OnOk};
ghost use Rattle.sync_base.specs.NoteSet.{no_notes};
ghost use Rattle.rendez_words.specs.Words.{IsProcessOf};
ghost use Rattle.sleep_wakeup.specs.Calls.{Sleeps, Leaves, EndsSleep, WhyNotSlept};

use crate::proc::Proc;
use rendez_words::{
    Asleep, Cleared, Leaving, LookAnswer, Posted, Refused, Seat, TestAnswer, WithdrawAnswer, Words,
};
use std::sync::Wait;
use sync_base::{Fault, NoProbe, Probe, RendezId};

impl<'k> Proc<'k> {
    /// Sleeps until the level of the Rendez is above the threshold, a wakeup takes the process, or
    /// notes come. It waits. Pending notes end it even if the condition holds. Where it ends well,
    /// the condition held or a wakeup came, so a caller tests again.
    ///
    /// Refuses, in this order, as `NoRendez`, `BadLevel` where no level is above the threshold, and
    /// `DoubleSleep` where another process sleeps there; `Interrupted` has the notes that ended it,
    /// which are no longer pending. Takes no memory.
    pub fn sleep<R: Wait>(&mut self, rt: &R, rendez: RendezId, threshold: u64) -> Result<(), Fault>
        ensures fault { IfErr result (WhyNotSlept
            self.old.words self.old.process rendez threshold self.new.process) }
        ensures slept { OnOk result (Sleeps
            self.old.process rendez threshold no_notes self.new.process) }
        ensures words { self.new.words ≡ self.old.words }
    {
        self.sleep_probed(rt, rendez, threshold, &mut NoProbe)
    }

    /// `sleep`, with a probe that is called at its points: 1 before the process posts itself, 2
    /// before it tests, 3 before it looks, for a mark or notes or for a mark alone, 4 before it
    /// withdraws, 5 before it clears its flags, and 6 after that.
    pub fn sleep_probed<R: Wait, P: Probe>(
        &mut self,
        rt: &R,
        rendez: RendezId,
        threshold: u64,
        probe: &mut P,
    ) -> Result<(), Fault>
        ensures fault { IfErr result (WhyNotSlept
            self.old.words self.old.process rendez threshold self.new.process) }
        ensures slept { OnOk result (Sleeps
            self.old.process rendez threshold no_notes self.new.process) }
        ensures words { self.new.words ≡ self.old.words }
    {
        let Some(seat) = self.seat.take() else {
            unreachable!()
        };
        let Slept { seat, answer } = sleep_with(self.words, rt, seat, rendez, threshold, probe);
        self.seat = Some(seat);
        answer
    }
}

// A sleep is over or was refused: the seat of its process, and the answer.
#[derive(Drop)]
struct Slept {
    seat: Seat,
    answer: Result<(), Fault>,
}

fn sleep_with<R: Wait, P: Probe>(
    words: &Words,
    rt: &R,
    seat: Seat,
    rendez: RendezId,
    threshold: u64,
    probe: &mut P,
) -> Slept
    requires { IsProcessOf words.now seat }
    ensures fault { IfErr result.answer (WhyNotSlept words.now seat rendez threshold result.seat) }
    ensures slept { OnOk result.answer (Sleeps seat rendez threshold no_notes result.seat) }
    ensures words { IsProcessOf words.now result.seat }
    ensures pid { result.seat.pid ≡ seat.pid }
{
    probe.at(1);
    match words.post(seat, rendez, threshold) {
        Ok(posted) => {
            let Cleared { seat, notes } = end_posted(words, rt, posted, probe);
            probe.at(6);
            let answer = if notes.is_empty() {
                Ok(())
            } else {
                Err(Fault::Interrupted(notes))
            };
            Slept { seat, answer }
        }
        Err(Refused { seat, fault }) => Slept {
            seat,
            answer: Err(fault),
        },
    }
}

// The sleep of a process that has posted itself, to its end.
fn end_posted<R: Wait, P: Probe>(words: &Words, rt: &R, posted: Posted, probe: &mut P) -> Cleared
    requires { IsProcessOf words.now posted }
    ensures slept { EndsSleep posted result.notes result.seat }
    ensures words { IsProcessOf words.now result.seat }
{
    probe.at(2);
    match words.test(posted) {
        TestAnswer::Asleep(asleep) => end_asleep(words, rt, asleep, probe),
        TestAnswer::Leaving(leaving) => end_leaving(words, rt, leaving, probe),
    }
}

// The sleep of a process that is asleep.
fn end_asleep<R: Wait, P: Probe>(words: &Words, rt: &R, asleep: Asleep, probe: &mut P) -> Cleared
    requires { IsProcessOf words.now asleep }
    ensures left { Leaves asleep result.notes result.seat }
    ensures words { IsProcessOf words.now result.seat }
{
    probe.at(3);
    match words.look(rt, asleep) {
        LookAnswer::Woken(woken) => {
            probe.at(5);
            words.clear_woken(woken)
        }
        LookAnswer::Leaving(leaving) => end_leaving(words, rt, leaving, probe),
    }
}

// The sleep of a process that has no reason to wait any more.
fn end_leaving<R: Wait, P: Probe>(words: &Words, rt: &R, leaving: Leaving, probe: &mut P) -> Cleared
    requires { IsProcessOf words.now leaving }
    ensures left { Leaves leaving result.notes result.seat }
    ensures words { IsProcessOf words.now result.seat }
{
    probe.at(4);
    match words.withdraw(leaving) {
        WithdrawAnswer::Out(out) => {
            probe.at(5);
            words.clear_out(out)
        }
        WithdrawAnswer::Awaiting(awaiting) => {
            probe.at(3);
            let woken = words.look_mark(rt, awaiting);
            probe.at(5);
            words.clear_woken(woken)
        }
    }
}
