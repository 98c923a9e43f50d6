//! Sleepers that are surely parked when they are woken: the waker has seen their announcement, and
//! then lets turns pass. Where the wake is lost, the sleeper is roused by hand, so each test ends
//! by itself, and fails.
ghost use Rattle.std.specs.Prelude.{◌<◌};
ghost use Rattle.rendez_words.specs.Words.{IsProcessOf, procs_of};

use crate::parking::Unwoken;
use crate::tests::{FIRST, next, open, sleep, wakeup};
use crate::{Leaving, LookAnswer, Opened, Seat, TakeAnswer, TestAnswer, WithdrawAnswer, Words};
use std::alloc::Global;
use std::process::Abort;
use std::sync::Wait;
use std::sync::atomic::AtomicU64;
use std::sync::atomic::Ordering::SeqCst;
use std::thread::{Threads, join, yield_now};
use sync_base::line::LINE;
use sync_base::{Note, NoteSet, Pid};

/// How often a waker yields once the sleeper has announced that it parks, so that it does.
const TURNS: u64 = 200;

/// For how many turns a wakeup that has taken the sleeper holds it before it marks it.
const HELD: u64 = 10_000;

/// How often a waker yields before it takes the event that it waits for as lost.
const LATE: u64 = 2_000_000;

const SLEEPER: Pid = Pid(0);

// Whether the process says that it parks.
fn says_parks(words: &Words, pid: Pid) -> bool
    requires { pid.0 < procs_of words.now }
{
    let found = words.parking.find(Unwoken::new(pid, 0));
    if found.parks() {
        found.rouse();
        true
    } else {
        found.pass();
        false
    }
}

// Waits until the sleeper parks. Says whether it has announced that.
fn await_park(words: &Words) -> bool
    requires { 0 < procs_of words.now }
{
    for _ in 0..LATE {
        if says_parks(words, SLEEPER) {
            for _ in 0..TURNS {
                yield_now();
            }
            return true;
        }
        yield_now();
    }
    false
}

// Waits until the sleeper is awake. Says whether it woke; if not, it is roused by hand.
fn await_wake(words: &Words, awake: &AtomicU64) -> bool
    requires { 0 < procs_of words.now }
{
    for _ in 0..LATE {
        if awake.load(SeqCst) == 1 {
            return true;
        }
        yield_now();
    }
    rouse(words, awake);
    false
}

// Rouses whoever parks on any word of the table, until the sleeper is awake.
fn rouse(words: &Words, awake: &AtomicU64) {
    for _ in 0..LATE {
        if awake.load(SeqCst) == 1 {
            return;
        }
        for word in 0..LINE * (words.sizes.rendez + words.sizes.procs) {
            words.table.shared.wake_one(word as usize);
        }
        yield_now();
    }
}

// A whole sleep, after which the sleeper is awake.
fn sleeps<R: Wait>(rt: &R, words: &Words, seat: Seat, awake: &AtomicU64) -> NoteSet
    requires { IsProcessOf words.now seat }
{
    let notes = sleep(rt, words, seat);
    awake.store(1, SeqCst);
    notes
}

// Wakes the sleeper once it parks.
fn wakes(words: &Words, seat: Seat, awake: &AtomicU64) -> bool
    requires seat { IsProcessOf words.now seat }
    requires sleeper { 0 < procs_of words.now }
{
    let parked = await_park(words);
    let woken = wakeup(words, seat);
    await_wake(words, awake) && parked && woken
}

// Posts a note to the sleeper once it parks.
fn posts(words: &Words, mut seat: Seat, awake: &AtomicU64) -> bool
    requires seat { IsProcessOf words.now seat }
    requires sleeper { 0 < procs_of words.now }
{
    let parked = await_park(words);
    let noted = words
        .note(&mut seat, SLEEPER, NoteSet::of(Note::Hangup))
        .is_ok();
    await_wake(words, awake) && parked && noted
}

fn sleep_and_wake<R: Threads + Wait + Sync>(
    rt: &R,
    words: &Words,
    sleeper: Seat,
    waker: Seat,
) -> (bool, NoteSet)
    requires sleeper { IsProcessOf words.now sleeper }
    requires waker { IsProcessOf words.now waker }
    requires count { 0 < procs_of words.now }
{
    let awake = AtomicU64::new(0);
    join(
        rt,
        || wakes(words, waker, &awake),
        || sleeps(rt, words, sleeper, &awake),
    )
}

fn sleep_and_note<R: Threads + Wait + Sync>(
    rt: &R,
    words: &Words,
    sleeper: Seat,
    poster: Seat,
) -> (bool, NoteSet)
    requires sleeper { IsProcessOf words.now sleeper }
    requires poster { IsProcessOf words.now poster }
    requires count { 0 < procs_of words.now }
{
    let awake = AtomicU64::new(0);
    join(
        rt,
        || posts(words, poster, &awake),
        || sleeps(rt, words, sleeper, &awake),
    )
}

/// What the sleeper and the waker have done: each word is 1 once its act is done.
#[derive(Drop)]
struct Done {
    posted: AtomicU64,
    taken: AtomicU64,
    /// For how many turns the sleeper was held.
    held: AtomicU64,
    marked: AtomicU64,
    awake: AtomicU64,
}

// Waits until this is done. Says whether it was, before the turns ran out.
fn await_done(what: &AtomicU64) -> bool {
    for _ in 0..LATE {
        if what.load(SeqCst) == 1 {
            return true;
        }
        yield_now();
    }
    false
}

// A sleep in which a wakeup takes the process before it tests. Says whether the mark had come when
// its wait for it was over, and which notes there were then.
fn awaits_mark<R: Wait>(rt: &R, words: &Words, seat: Seat, done: &Done) -> (bool, NoteSet)
    requires { IsProcessOf words.now seat }
{
    let Ok(posted) = words.post(seat, FIRST, 0) else {
        return (false, NoteSet::empty());
    };
    done.posted.store(1, SeqCst);
    let taken = await_done(&done.taken);
    let leaving = match words.test(posted) {
        TestAnswer::Leaving(leaving) => leaving,
        TestAnswer::Asleep(asleep) => match words.look(rt, asleep) {
            LookAnswer::Leaving(leaving) => leaving,
            LookAnswer::Woken(woken) => return (false, words.clear_woken(woken).notes),
        },
    };
    let (marked, notes) = leaves(rt, words, leaving, done);
    done.awake.store(1, SeqCst);
    (taken && marked, notes)
}

// The rest of that sleep.
fn leaves<R: Wait>(rt: &R, words: &Words, leaving: Leaving, done: &Done) -> (bool, NoteSet)
    requires { IsProcessOf words.now leaving }
{
    match words.withdraw(leaving) {
        WithdrawAnswer::Out(out) => (false, words.clear_out(out).notes),
        WithdrawAnswer::Awaiting(awaiting) => {
            let woken = words.look_mark(rt, awaiting);
            let marked = done.marked.load(SeqCst) == 1 && done.held.load(SeqCst) == HELD;
            (marked, words.clear_woken(woken).notes)
        }
    }
}

// Lets turns pass, in which who was sent a note looks and parks again, and then counts others.
fn hold(held: &AtomicU64) {
    for _ in 0..TURNS {
        yield_now();
    }
    for _ in 0..HELD {
        held.fetch_add(1, SeqCst);
    }
}

// Takes the sleeper, sends it a note once it parks, holds it, and then says that it marks it, and
// does.
fn holds_and_marks(words: &Words, waker: Seat, mut poster: Seat, note: NoteSet, done: &Done) -> bool
    requires waker { IsProcessOf words.now waker }
    requires poster { IsProcessOf words.now poster }
    requires sleeper { 0 < procs_of words.now }
{
    let posted = await_done(&done.posted);
    let Ok(owing) = words.raise(waker, FIRST, 1) else {
        return false;
    };
    let holding = match words.take(owing) {
        TakeAnswer::Holding(holding) => holding,
        TakeAnswer::Nobody(_) => return false,
    };
    done.taken.store(1, SeqCst);
    let parked = await_park(words);
    let noted = note.is_empty() || words.note(&mut poster, SLEEPER, note).is_ok();
    hold(&done.held);
    done.marked.store(1, SeqCst);
    words.mark(holding);
    await_wake(words, &done.awake) && posted && parked && noted
}

fn await_and_mark<R: Threads + Wait + Sync>(
    rt: &R,
    words: &Words,
    sleeper: Seat,
    waker: Seat,
    poster: Seat,
    note: NoteSet,
) -> (bool, (bool, NoteSet))
    requires sleeper { IsProcessOf words.now sleeper }
    requires waker { IsProcessOf words.now waker }
    requires poster { IsProcessOf words.now poster }
    requires count { 0 < procs_of words.now }
{
    let done = Done {
        posted: AtomicU64::new(0),
        taken: AtomicU64::new(0),
        held: AtomicU64::new(0),
        marked: AtomicU64::new(0),
        awake: AtomicU64::new(0),
    };
    join(
        rt,
        || holds_and_marks(words, waker, poster, note, &done),
        || awaits_mark(rt, words, sleeper, &done),
    )
}

// A wakeup has taken the sleeper, and marks it after some turns, with this note before that.
fn check_wait<R: Threads + Wait + Sync + Abort>(rt: &R, alloc: Global, note: NoteSet) {
    let Opened {
        words,
        seat,
        mut pids,
    } = open(rt, alloc, 3);
    let waker = next(rt, &words, &mut pids);
    let poster = next(rt, &words, &mut pids);
    let (woken, (marked, notes)) = await_and_mark(rt, &words, seat, waker, poster, note);
    assert!(rt; woken, "the sleeper parks, and the mark wakes it");
    assert!(rt;
        marked && notes == note,
        "nothing but the mark ends this wait"
    );
}

#[test]
fn a_mark_wakes_who_parks(rt: HostRuntime) {
    let Opened {
        words,
        seat,
        mut pids,
    } = open(&rt, rt.alloc(), 2);
    let waker = next(&rt, &words, &mut pids);
    let woken = sleep_and_wake(&rt, &words, seat, waker);
    assert!(rt; woken == (true, NoteSet::empty()));
}

#[test]
fn a_note_wakes_who_parks(rt: HostRuntime) {
    let Opened {
        words,
        seat,
        mut pids,
    } = open(&rt, rt.alloc(), 2);
    let poster = next(&rt, &words, &mut pids);
    let woken = sleep_and_note(&rt, &words, seat, poster);
    assert!(rt; woken == (true, NoteSet::of(Note::Hangup)));
}

#[test]
fn a_note_leaves_who_awaits_a_mark_to_its_mark(rt: HostRuntime) {
    check_wait(&rt, rt.alloc(), NoteSet::of(Note::Hangup));
}

#[test]
fn who_awaits_a_mark_is_held_until_it_comes(rt: HostRuntime) {
    check_wait(&rt, rt.alloc(), NoteSet::empty());
}
