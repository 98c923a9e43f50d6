//! Sleeps and wakeups by steps on shared words, and what the receipt of a wakeup proves of a
//! sleeper.
ghost use Rattle.std.specs.Prelude.{◌≡◌};
ghost use Rattle.sleep_core.specs.Limits.{IsWorldSize};
ghost use Rattle.rendez_words.specs.Words.{IsProcessOf, ArePidsOf, HasReceipt};

use rendez_words::{
    Asleep, Checked, Cleared, Done, Holding, Leaving, LookAnswer, Opened, Owing, Pids, Posted,
    Refused, Returned, Seat, TakeAnswer, TestAnswer, WithdrawAnswer, Words,
};
use std::alloc::Global;
use std::process::Abort;
use std::sync::Wait;
use sync_base::limits::TOP_LEVEL;
use sync_base::{Fault, NoteSet, Pid, RendezId};

const FIRST: RendezId = RendezId(0);

const SECOND: RendezId = RendezId(1);

// New words, asked for once more where memory is refused.
fn words_of(rt: &impl Abort, alloc: Global, procs: u64, rendez: u64) -> Opened
    ensures words { IsProcessOf result.words result.seat }
    ensures pids { ArePidsOf result.words result.pids }
{
    let made = match Words::new(alloc, procs, rendez) {
        Err(Fault::Memory) => Words::new(alloc, procs, rendez),
        made => made,
    };
    made.expect(rt, "no words")
}

fn next(rt: &impl Abort, words: &Words, pids: &mut Pids) -> Seat
    requires { ArePidsOf words.now pids.old }
    ensures seat { IsProcessOf words.now result }
    ensures pids { ArePidsOf words.now pids.new }
{
    words.split(pids).expect(rt, "no pid is left")
}

// The rest of a wakeup.
fn end_owing(words: &Words, owing: Owing) -> Returned
    requires { IsProcessOf words.now owing }
    ensures seat { IsProcessOf words.now result.seat }
    ensures receipt { HasReceipt result.seat result.done }
{
    match words.take(owing) {
        TakeAnswer::Nobody(returned) => returned,
        TakeAnswer::Holding(holding) => words.mark(holding),
    }
}

// A whole wakeup.
fn woke(rt: &impl Abort, words: &Words, seat: Seat, rendez: RendezId, level: u64) -> Returned
    requires { IsProcessOf words.now seat }
    ensures seat { IsProcessOf words.now result.seat }
    ensures receipt { HasReceipt result.seat result.done }
{
    let owing = words.raise(seat, rendez, level).ok();
    end_owing(words, owing.expect(rt, "no such Rendez"))
}

// A wakeup up to the point at which it has taken the first process and not marked it.
fn taken(rt: &impl Abort, words: &Words, seat: Seat, rendez: RendezId, level: u64) -> Holding
    requires { IsProcessOf words.now seat }
    ensures { IsProcessOf words.now result }
{
    let owing = words.raise(seat, rendez, level).ok();
    let answer = words.take(owing.expect(rt, "no such Rendez"));
    let TakeAnswer::Holding(holding) = answer else {
        panic!(rt; "nobody is posted")
    };
    assert!(rt; holding.sleeper() == Pid(0));
    holding
}

// The rest of a sleep that has no reason to wait.
fn left<R: Wait>(rt: &R, words: &Words, leaving: Leaving) -> Cleared
    requires { IsProcessOf words.now leaving }
    ensures { IsProcessOf words.now result.seat }
{
    match words.withdraw(leaving) {
        WithdrawAnswer::Out(out) => words.clear_out(out),
        WithdrawAnswer::Awaiting(awaiting) => {
            let woken = words.look_mark(rt, awaiting);
            words.clear_woken(woken)
        }
    }
}

// The rest of a sleep that a mark ends, with no notes.
fn woken<R: Wait + Abort>(rt: &R, words: &Words, asleep: Asleep) -> Seat
    requires { IsProcessOf words.now asleep }
    ensures { IsProcessOf words.now result }
{
    match words.look(rt, asleep) {
        LookAnswer::Woken(woken) => seat_of(rt, words.clear_woken(woken)),
        LookAnswer::Leaving(leaving) => {
            left(rt, words, leaving);
            panic!(rt; "the mark is looked for first")
        }
    }
}

fn seat_of(rt: &impl Abort, cleared: Cleared) -> Seat
    ensures { result ≡ cleared.seat }
{
    let Cleared { seat, notes } = cleared;
    assert_eq!(rt; notes, NoteSet::empty());
    seat
}

// A sleep above no level, up to the point at which it waits.
fn fallen<R: Wait + Abort>(rt: &R, words: &Words, seat: Seat, rendez: RendezId) -> Asleep
    requires { IsProcessOf words.now seat }
    ensures { IsProcessOf words.now result }
{
    match words.post(seat, rendez, 0) {
        Ok(posted) => match words.test(posted) {
            TestAnswer::Asleep(asleep) => asleep,
            TestAnswer::Leaving(leaving) => {
                left(rt, words, leaving);
                panic!(rt; "a level is above 0")
            }
        },
        Err(_) => panic!(rt; "somebody is posted"),
    }
}

// A sleep whose test sees a level above 0, so that it takes itself out.
fn slept<R: Wait + Abort>(rt: &R, words: &Words, seat: Seat, rendez: RendezId) -> Seat
    requires { IsProcessOf words.now seat }
    ensures { IsProcessOf words.now result }
{
    match words.post(seat, rendez, 0) {
        Ok(posted) => match words.test(posted) {
            TestAnswer::Leaving(leaving) => match words.withdraw(leaving) {
                WithdrawAnswer::Out(out) => seat_of(rt, words.clear_out(out)),
                WithdrawAnswer::Awaiting(awaiting) => {
                    let woken = words.look_mark(rt, awaiting);
                    words.clear_woken(woken);
                    panic!(rt; "a wakeup took the process")
                }
            },
            TestAnswer::Asleep(asleep) => {
                let _ = woken(rt, words, asleep);
                panic!(rt; "no level is above 0")
            }
        },
        Err(_) => panic!(rt; "somebody is posted"),
    }
}

// The rest of a sleep, whatever it comes to.
fn end_posted<R: Wait>(rt: &R, words: &Words, posted: Posted) -> Cleared
    requires { IsProcessOf words.now posted }
    ensures { IsProcessOf words.now result.seat }
{
    match words.test(posted) {
        TestAnswer::Leaving(leaving) => left(rt, words, leaving),
        TestAnswer::Asleep(asleep) => match words.look(rt, asleep) {
            LookAnswer::Leaving(leaving) => left(rt, words, leaving),
            LookAnswer::Woken(woken) => words.clear_woken(woken),
        },
    }
}

// A post that is refused hands the seat back.
fn not_posted<R: Wait + Abort>(
    rt: &R,
    words: &Words,
    seat: Seat,
    rendez: RendezId,
    threshold: u64,
    wanted: Fault,
) -> Seat
    requires { IsProcessOf words.now seat }
    ensures { IsProcessOf words.now result }
{
    match words.post(seat, rendez, threshold) {
        Err(Refused { seat, fault }) => {
            assert_eq!(rt; fault, wanted);
            seat
        }
        Ok(posted) => {
            end_posted(rt, words, posted);
            panic!(rt; "it is posted")
        }
    }
}

// Whether a receipt says that the sleeper is not posted. Both come back.
fn check(
    rt: &impl Abort,
    words: &Words,
    asleep: Asleep,
    returned: Returned,
    wanted: bool,
) -> (Asleep, Seat)
    requires asleep { IsProcessOf words.now asleep }
    requires seat { IsProcessOf words.now returned.seat }
    requires done { HasReceipt returned.seat returned.done }
    ensures asleep { IsProcessOf words.now result.0 }
    ensures seat { IsProcessOf words.now result.1 }
{
    let Returned { seat, done } = returned;
    let Checked {
        asleep,
        seat,
        released,
    } = words.released(asleep, seat, &done);
    assert_eq!(rt; released, wanted);
    (asleep, seat)
}

// It is of a wakeup of the first Rendez at the level 1.
fn is_first(rt: &impl Abort, done: &Done) {
    assert_eq!(rt; (done.rendez, done.level), (FIRST, 1));
}

// Whether no pid is left.
fn are_all_given(words: &Words, left: &mut Pids) -> bool
    requires { ArePidsOf words.now left.old }
{
    matches!(words.split(left), Err(Fault::NoProc))
}

#[test]
fn a_wakeup_that_has_returned_releases_the_sleeper(rt: HostRuntime) {
    let Opened {
        words,
        seat,
        mut pids,
    } = words_of(&rt, rt.alloc(), 2, 1);
    let other = next(&rt, &words, &mut pids);
    let asleep = fallen(&rt, &words, seat, FIRST);
    let returned = words.mark(taken(&rt, &words, other, FIRST, 1));
    is_first(&rt, &returned.done);
    let (asleep, _) = check(&rt, &words, asleep, returned, true);
    let seat = woken(&rt, &words, asleep);
    // The level is there before the next post, so its test sees it.
    let seat = slept(&rt, &words, seat, FIRST);
    let _ = not_posted(&rt, &words, seat, SECOND, 0, Fault::NoRendez);
}

#[test]
fn a_wakeup_before_the_post_is_seen(rt: HostRuntime) {
    let Opened {
        words,
        seat,
        mut pids,
    } = words_of(&rt, rt.alloc(), 1, 1);
    let Returned { seat, done } = woke(&rt, &words, seat, FIRST, 1);
    is_first(&rt, &done);
    let seat = slept(&rt, &words, seat, FIRST);
    let seat = not_posted(&rt, &words, seat, FIRST, TOP_LEVEL, Fault::BadLevel);
    let _ = not_posted(&rt, &words, seat, SECOND, 0, Fault::NoRendez);
    assert!(rt; are_all_given(&words, &mut pids));
}

// Why there are no words of these sizes.
fn why_no_words(alloc: Global, procs: u64, rendez: u64) -> Option<Fault> {
    Words::new(alloc, procs, rendez).err()
}

// A raise of the second Rendez is refused where there is one, and hands the seat back.
fn not_raised(rt: &impl Abort, words: &Words, caller: Seat) -> Seat
    requires { IsProcessOf words.now caller }
    ensures { IsProcessOf words.now result }
{
    match words.raise(caller, SECOND, 1) {
        Err(Refused { seat, fault }) => {
            assert_eq!(rt; fault, Fault::NoRendez);
            seat
        }
        Ok(owing) => {
            end_owing(words, owing);
            panic!(rt; "there is one Rendez")
        }
    }
}

#[test]
fn refusals_hand_the_seat_back(rt: HostRuntime) {
    assert_eq!(rt; why_no_words(rt.alloc(), 0, 1), Some(Fault::NoProc));
    assert_eq!(rt; why_no_words(rt.alloc(), 1, 8_193), Some(Fault::NoRendez));
    let Opened {
        words,
        seat,
        pids: _,
    } = words_of(&rt, rt.alloc(), 1, 1);
    let seat = not_posted(&rt, &words, seat, SECOND, TOP_LEVEL, Fault::NoRendez);
    let mut seat = not_raised(&rt, &words, seat);
    let noted = words.note(&mut seat, Pid(1), NoteSet::empty());
    assert!(rt; noted == Err(Fault::NoProc));
}

// A receipt of another Rendez, or one that is not above the threshold, releases nobody: the sleeper
// is still posted until a wakeup takes it.
#[test]
fn other_receipts_leave_the_sleeper_posted(rt: HostRuntime) {
    let Opened {
        words,
        seat,
        mut pids,
    } = words_of(&rt, rt.alloc(), 2, 2);
    let other = next(&rt, &words, &mut pids);
    let low = woke(&rt, &words, other, FIRST, 0);
    let asleep = fallen(&rt, &words, seat, FIRST);
    let (asleep, other) = check(&rt, &words, asleep, low, false);
    let elsewhere = woke(&rt, &words, other, SECOND, 9);
    let (asleep, other) = check(&rt, &words, asleep, elsewhere, false);
    // Whoever is there is taken, whatever the level.
    let low = woke(&rt, &words, other, FIRST, 0);
    let (asleep, _) = check(&rt, &words, asleep, low, true);
    let _ = woken(&rt, &words, asleep);
}

// A third process has taken the sleeper and not marked it yet, and the one who asks has a receipt
// that would not do it. The sleeper is released all the same, and its mark comes later.
#[test]
fn a_third_process_may_have_taken_the_sleeper(rt: HostRuntime) {
    let Opened {
        words,
        seat,
        mut pids,
    } = words_of(&rt, rt.alloc(), 3, 1);
    let other = next(&rt, &words, &mut pids);
    let third = next(&rt, &words, &mut pids);
    let low = woke(&rt, &words, other, FIRST, 0);
    let asleep = fallen(&rt, &words, seat, FIRST);
    let holding = taken(&rt, &words, third, FIRST, 1);
    let (asleep, _) = check(&rt, &words, asleep, low, true);
    words.mark(holding);
    let _ = woken(&rt, &words, asleep);
}

// The sleeper was taken, and another process is posted in its place: it is released all the same.
#[test]
fn another_may_be_posted_in_the_place_of_the_sleeper(rt: HostRuntime) {
    let Opened {
        words,
        seat,
        mut pids,
    } = words_of(&rt, rt.alloc(), 3, 1);
    let sleeper = next(&rt, &words, &mut pids);
    let third = next(&rt, &words, &mut pids);
    let low = woke(&rt, &words, seat, FIRST, 0);
    let asleep = fallen(&rt, &words, sleeper, FIRST);
    let (asleep, seat) = check(&rt, &words, asleep, low, false);
    let low = woke(&rt, &words, seat, FIRST, 0);
    let Ok(posted) = words.post(third, FIRST, 0) else {
        panic!(rt; "nobody is posted")
    };
    let (asleep, seat) = check(&rt, &words, asleep, low, true);
    let _ = woken(&rt, &words, asleep);
    woke(&rt, &words, seat, FIRST, 1);
    end_posted(&rt, &words, posted);
}
