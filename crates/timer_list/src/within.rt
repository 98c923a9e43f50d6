//! How a call waits until a moment.
ghost use Rattle.std.specs.Prelude.{◌≡◌, ◌<◌, ℕ, Some, true};
ghost use Rattle.sync_base.specs.declared.note.Note.TheVariants.{Expired};
ghost use Rattle.sync_base.specs.NoteSet.{holds};
ghost use Rattle.kernel_lock.specs.Seats.{number_of};
ghost use Rattle.rendez_words.specs.Words.{rendez_of};
ghost use Rattle.timer_list.specs.Seats.{IsSeatAtTimers, IsTimerSeatOf, cancelled_at, set_at};
ghost use Rattle.timer_list.specs.Timers.{deadline_of};
ghost use Rattle.timer_list.specs.Timing.{
  TimedEnd,
  Keeps,
  Looks,
  LooksForTick,
  PutsBackAny,
  TimedThroughout,
  awaiting,
  notes_of,
  without_expired,
};
ghost use Rattle.waiting.specs.Runners.{IsACall, run_point};
ghost use Rattle.waiting.specs.Waiting.{point};

use crate::limits::LAST_THRESHOLD;
use crate::timer_object::deadline;
use crate::timers::{TimerSeat, Timers};
use sleep_wakeup::Proc;
use std::sync::Wait;
use std::thread::yield_now;
use sync_base::{Fault, Note, NoteSet, Probe, RendezId};
use waiting::{Reply, Runner, WaitEnd, WaitingCall, sleep_for};

/// When a wait ends at these timers: by a tick at the moment `from` + `ms` or later. That moment is
/// at most `u64::MAX`.
#[derive(Clone, Copy, Drop)]
pub struct Deadline<'t> {
    pub timers: &'t Timers,
    pub from: u64,
    pub ms: u32,
}

/// This runner runs a call by `wait_within`.
impl<'t> Runner for Deadline<'t> {
    ghost use Rattle.std.specs.Prelude.{ℕ};
    ghost use Rattle.kernel_lock.specs.Seats.{number_of};
    ghost use Rattle.timer_list.specs.Seats.{IsTimerSeatOf};
    ghost use Rattle.timer_list.specs.Timers.{deadline_of};
    ghost use Rattle.timer_list.specs.Timing.{timed_throughout};

    type Timer = TimerSeat;

    ghost rests = { λ until timer. IsTimerSeatOf until.timers.now timer };

    ghost Kept = { ℕ };

    ghost kept = { λ timer. number_of timer.seat };

    ghost runs = { λ until. timed_throughout until.timers.now (deadline_of until.from until.ms) };

    fn run<R: Wait, C: WaitingCall, P: Probe>(
        &self,
        rt: &R,
        proc: &mut Proc<'_>,
        rendez: RendezId,
        call: &C,
        seat: &mut C::Seat,
        buffer: &mut [u8],
        timer: &mut TimerSeat,
        probe: &mut P,
    ) -> Result<C::Out, Fault> {
        wait_within(rt, proc, rendez, call, seat, buffer, timer, *self, probe)
    }
}

/// Makes a call, as `wait_for` of `waiting` does, with a deadline for its wait. After tsemacquire
/// in semacquire(2) and tsleep of the kernel; the tick is the library's own.
///
/// A call that has to wait sets its timer before its first sleep for its device, and cancels it
/// after the last one; a tick may take it in between. Where notes end its wait, and it has come to
/// no result by then, it is refused as `TimedOut` where a tick took its timer and no other note
/// came, and else as `Interrupted` with the other notes. With any other answer, other notes that
/// came are pending again. Where a tick has taken its timer, it takes a note `expired` before it
/// answers: so no late expiry reaches a later sleep, unless others post that note. It may sleep for
/// that note, after the cancel, and no timer ends these sleeps. The probe is called at its points:
/// 2 before each sleep for the device, and 3 after it. It waits for the timers' lock. Takes no
/// memory of its own.
pub fn wait_within<R: Wait, C: WaitingCall, P: Probe>(
    rt: &R,
    proc: &mut Proc<'_>,
    rendez: RendezId,
    call: &C,
    seat: &mut C::Seat,
    buffer: &mut [u8],
    timer: &mut TimerSeat,
    until: Deadline<'_>,
    probe: &mut P,
) -> Result<C::Out, Fault>
    requires ready { C.ready call.now seat.old }
    requires row { C.knows call.now proc.old.words }
    requires fits { C.fits call.now buffer.old }
    requires rendez { rendez.0 < rendez_of proc.old.words }
    requires timer { IsTimerSeatOf until.timers.now timer.old }
    ensures rests { C.rests call.now seat.new }
    ensures words { proc.new.words ≡ proc.old.words }

    // When it returns, its timer is cancelled.
    ensures timer { IsTimerSeatOf until.entry.timers.now timer.new }
    ensures timer_number { number_of timer.new.seat ≡ number_of timer.old.seat }
    ensures waited { TimedThroughout (C.promise call.now) rendez until.entry.timers.now
        (deadline_of until.entry.from until.entry.ms)
        (run_point (C.sight seat.old buffer.old) timer.old proc.old) result
        (run_point (C.sight seat.new buffer.new) timer.new proc.new) }

    // So what holds of a call without a deadline holds of it.
    ensures is_call { IsACall (C.promise call.now) rendez
        (point (C.sight seat.old buffer.old) proc.old) result
        (point (C.sight seat.new buffer.new) proc.new) }
{
    let Deadline {
        timers,
        from: now,
        ms,
    } = until;
    let pid = proc.pid();
    match call.begin(rt, proc, seat, buffer) {
        Reply::Done(out) => Ok(out),
        Reply::Refused(why) => Err(why),
        Reply::Wait(number) => {
            timers.add(rt, proc, timer, pid, deadline(now, ms));
            let ending = sleep_for(rt, proc, rendez, call, seat, buffer, number, probe);
            end_within(rt, proc, rendez, timers, timer, ending)
        }
    }
}

// The rest of a call with a deadline, after its sleeps: it cancels its timer, awaits a note
// `expired` if a tick has taken it, and answers.
fn end_within<R: Wait, T: Drop>(
    rt: &R,
    proc: &mut Proc<'_>,
    rendez: RendezId,
    timers: &Timers,
    timer: &mut TimerSeat,
    ending: WaitEnd<T>,
) -> Result<T, Fault>
    requires rendez { rendez.0 < rendez_of proc.old.words }
    requires set { IsSeatAtTimers timers.now true timer.old }
    ensures words { proc.new.words ≡ proc.old.words }
    ensures timer { IsTimerSeatOf timers.now timer.new }
    ensures timer_number { number_of timer.new.seat ≡ number_of timer.old.seat }
    ensures cancelled { cancelled_at timer.new ≡ Some proc.old.process }
    ensures set { set_at timer.new ≡ set_at timer.old }
    ensures ended { TimedEnd rendez timers.now timer.old ending proc.old.process result
        timer.new proc.new.process }
{
    let expired = timers.cancel(rt, proc, timer);
    let came = await_tick(rt, proc, rendez, expired, taken_by(&ending));
    answer_timed(proc, ending, expired, came)
}

// The notes that ended the sleeps.
fn taken_by<T>(ending: &WaitEnd<T>) -> NoteSet
    ensures { result ≡ notes_of ending.now }
{
    match ending {
        WaitEnd::Stopped(Fault::Interrupted(notes), _) => *notes,
        _ => NoteSet::empty(),
    }
}

// Where a tick has taken the timer, looks until a note `expired` has come. Answers which notes came
// in all.
fn await_tick<R: Wait>(
    rt: &R,
    proc: &mut Proc<'_>,
    rendez: RendezId,
    expired: bool,
    taken: NoteSet,
) -> NoteSet
    requires { rendez.0 < rendez_of proc.old.words }
    ensures words { proc.new.words ≡ proc.old.words }
    ensures looks { (times : ℕ) ×
        Looks rendez expired times (awaiting proc.old taken) (awaiting proc.new result) }
    ensures came { expired ≡ true → holds result Expired ≡ true }
{
    let mut notes = taken;
    for _ in rt.forever() {
        if !expired || notes.has(Note::Expired) {
            return notes;
        }
        let set = look_for_tick(rt, proc, rendez);
        notes = notes.join(set);
    }
    unreachable!()
}

// Sleeps with the last threshold, so that notes end it. Where a hangup has passed that, or another
// process sleeps in the Rendez, it takes notes as they come and lets others go on meanwhile.
fn look_for_tick<R: Wait>(rt: &R, proc: &mut Proc<'_>, rendez: RendezId) -> NoteSet
    requires { rendez.0 < rendez_of proc.old.words }
    ensures words { proc.new.words ≡ proc.old.words }
    ensures looked { LooksForTick rendez proc.old.process result proc.new.process }
{
    match proc.sleep(rt, rendez, LAST_THRESHOLD) {
        Ok(()) => {
            yield_now();
            NoteSet::empty()
        }
        Err(Fault::Interrupted(set)) => set,
        Err(_) => {
            let set = proc.notes();
            yield_now();
            set
        }
    }
}

// Puts notes back, if there are any.
fn keep(proc: &mut Proc<'_>, set: NoteSet)
    ensures words { proc.new.words ≡ proc.old.words }
    ensures kept { PutsBackAny set proc.old.process proc.new.process }
{
    if !set.is_empty() {
        proc.put_back(set);
    }
}

// All of these notes but the one that a tick posts.
fn others(notes: NoteSet) -> NoteSet
    ensures { result ≡ without_expired notes }
{
    notes.without(NoteSet::of(Note::Expired))
}

// What the call answers: how its sleeps ended, whether a tick took its timer, and which notes came.
fn answer_timed<T: Drop>(
    proc: &mut Proc<'_>,
    ending: WaitEnd<T>,
    expired: bool,
    came: NoteSet,
) -> Result<T, Fault>
    ensures words { proc.new.words ≡ proc.old.words }
    ensures kept { Keeps expired (without_expired came) ending result
        proc.old.process proc.new.process }
{
    let others = others(came);
    match ending {
        WaitEnd::Answered(answer) => {
            keep(proc, others);
            answer
        }
        WaitEnd::Stopped(_, Some(out)) => {
            keep(proc, others);
            Ok(out)
        }
        WaitEnd::Stopped(Fault::Interrupted(_), None) => {
            if expired && others.is_empty() {
                Err(Fault::TimedOut)
            } else {
                Err(Fault::Interrupted(others))
            }
        }
        WaitEnd::Stopped(why, None) => {
            keep(proc, others);
            Err(why)
        }
    }
}
