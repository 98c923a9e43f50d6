//! The wait of a call.
ghost use Rattle.std.specs.Prelude.{◌≡◌, ◌<◌, IfErr, OnOk};
ghost use Rattle.sync_base.specs.declared.limits.TheConstants.{TOP_LEVEL};
ghost use Rattle.rendez_words.specs.Words.{rendez_of};
ghost use Rattle.sleep_wakeup.specs.Actions.{SleepsWell, FailsAsleep, PutsBack};
ghost use Rattle.waiting.specs.Waiting.{Returns, SleepsOn, Waited, answer_of, point, told};

use crate::call::{Reply, WaitingCall};
use sleep_wakeup::Proc;
use std::sync::Wait;
use sync_base::{Fault, Probe, RendezId};

/// Makes a call, whose requests are lent this buffer. It asks. While the answer is `Wait`, it
/// sleeps on this Rendez with the number of the last answer, and asks again. A sleep that notes
/// ended, or that found another process on the Rendez, is the call's last: it leaves, and is
/// refused with that fault. Where it had come to a result by then, it returns that result, and the
/// notes are pending again. The probe is called at its points: 2 before each sleep, and 3 after it.
/// Takes no memory of its own.
pub fn wait_for<R: Wait, C: WaitingCall, P: Probe>(
    rt: &R,
    proc: &mut Proc<'_>,
    rendez: RendezId,
    call: &C,
    seat: &mut C::Seat,
    buffer: &mut [u8],
    probe: &mut P,
) -> Result<C::Out, Fault>
    requires ready { C.ready call.now seat.old }
    requires row { C.knows call.now proc.old.words }
    requires fits { C.fits call.now buffer.old }
    requires rendez { rendez.0 < rendez_of proc.old.words }
    ensures rests { C.rests call.now seat.new }
    ensures words { proc.new.words ≡ proc.old.words }
    ensures waited { Waited (C.promise call.now) rendez
        (point (C.sight seat.old buffer.old) proc.old) result
        (point (C.sight seat.new buffer.new) proc.new) }
{
    match call.begin(rt, proc, seat, buffer) {
        Reply::Done(out) => Ok(out),
        Reply::Refused(why) => Err(why),
        Reply::Wait(number) => {
            let ending = sleep_for(rt, proc, rendez, call, seat, buffer, number, probe);
            end_wait(proc, ending)
        }
    }
}

// What a call answers whose sleeps ended so. Where it had come to something by then, the notes that
// ended its last sleep are pending again.
fn end_wait<T: Drop>(proc: &mut Proc<'_>, ending: WaitEnd<T>) -> Result<T, Fault>
    ensures answer { result ≡ answer_of ending }
    ensures returned { Returns ending proc.old.process proc.new.process }
    ensures words { proc.new.words ≡ proc.old.words }
{
    match ending {
        WaitEnd::Answered(answer) => answer,
        WaitEnd::Stopped(why, Some(out)) => {
            put_back(proc, why);
            Ok(out)
        }
        WaitEnd::Stopped(why, None) => Err(why),
    }
}

/// How the sleeps of a call ended.
#[derive(Drop)]
pub enum WaitEnd<T> {
    /// A request was answered with a result or a fault.
    Answered(Result<T, Fault>),
    /// A sleep failed with this fault, and the call left: the result that it had come to by then,
    /// if it had one.
    Stopped(Fault, Option<T>),
}

/// The sleeps of a call that has to wait with this number, and its requests after them. The notes
/// that a failed sleep took are the caller's.
pub fn sleep_for<R: Wait, C: WaitingCall, P: Probe>(
    rt: &R,
    proc: &mut Proc<'_>,
    rendez: RendezId,
    call: &C,
    seat: &mut C::Seat,
    buffer: &mut [u8],
    number: u64,
    probe: &mut P,
) -> WaitEnd<C::Out>
    requires waits { C.waits call.now seat.old }
    requires row { C.knows call.now proc.old.words }
    requires fits { C.fits call.now buffer.old }
    requires rendez { rendez.0 < rendez_of proc.old.words }
    requires low { number < TOP_LEVEL }
    ensures rests { C.rests call.now seat.new }
    ensures words { proc.new.words ≡ proc.old.words }
    ensures slept { SleepsOn (C.promise call.now) rendez
        (told (C.sight seat.old buffer.old) proc.old number) result
        (point (C.sight seat.new buffer.new) proc.new) }
{
    let mut number = number;
    for _ in rt.forever() {
        probe.at(2);
        let slept = sleep_waiting(rt, proc, rendez, call, seat, number);
        probe.at(3);
        match slept {
            Err(why) => {
                let left = call.leave(rt, seat);
                return WaitEnd::Stopped(why, left);
            }
            Ok(()) => match call.ask(rt, proc, seat, buffer) {
                Reply::Done(out) => return WaitEnd::Answered(Ok(out)),
                Reply::Refused(why) => return WaitEnd::Answered(Err(why)),
                Reply::Wait(again) => number = again,
            },
        }
    }
    unreachable!()
}

// Sleeps once while the call waits: whoever ends its wait finds its seat, and wakes its process. A
// call that was answered or has left may not sleep, since nobody would look for it.
fn sleep_waiting<R: Wait, C: WaitingCall>(
    rt: &R,
    proc: &mut Proc<'_>,
    rendez: RendezId,
    call: &C,
    seat: &C::Seat,
    number: u64,
) -> Result<(), Fault>
    requires waits { C.waits call.now seat.now }
    requires rendez { rendez.0 < rendez_of proc.old.words }
    requires low { number < TOP_LEVEL }
    ensures failed { IfErr result (FailsAsleep proc.old.process rendez number proc.new.process) }
    ensures slept { OnOk result (SleepsWell proc.old.process rendez number proc.new.process) }
    ensures words { proc.new.words ≡ proc.old.words }
{
    proc.sleep(rt, rendez, number)
}

// Puts the notes back that ended a sleep.
fn put_back(proc: &mut Proc<'_>, why: Fault)
    ensures back { PutsBack why proc.old.process proc.new.process }
    ensures words { proc.new.words ≡ proc.old.words }
{
    if let Fault::Interrupted(notes) = why {
        proc.put_back(notes);
    }
}
