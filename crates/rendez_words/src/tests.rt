//! Sleepers that surely park. All other tests of the words are in `tests_objects`.
ghost use Rattle.std.specs.Prelude.{◌≡◌};
ghost use Rattle.rendez_words.specs.Words.{IsProcessOf, ArePidsOf, procs_of};

use crate::{
    Cleared, Leaving, LookAnswer, Opened, Pids, Returned, Seat, TakeAnswer, TestAnswer,
    WithdrawAnswer, Words,
};
use std::alloc::Global;
use std::process::Abort;
use std::sync::Wait;
use sync_base::{NoteSet, RendezId};

mod parked;

const FIRST: RendezId = RendezId(0);

// Words of so many processes and one Rendez.
fn open(rt: &impl Abort, alloc: Global, procs: u64) -> Opened
    ensures procs { procs_of result.words ≡ procs }
    ensures words { IsProcessOf result.words result.seat }
    ensures pids { ArePidsOf result.words result.pids }
{
    match Words::new(alloc, procs, 1) {
        Ok(opened) => opened,
        Err(_) => panic!(rt; "no memory for words"),
    }
}

fn next(rt: &impl Abort, words: &Words, pids: &mut Pids) -> Seat
    requires { ArePidsOf words.now pids.old }
    ensures seat { IsProcessOf words.now result }
    ensures pids { ArePidsOf words.now pids.new }
{
    match words.split(pids) {
        Ok(seat) => seat,
        Err(_) => panic!(rt; "no pid is left"),
    }
}

// The rest of a sleep whose process has no reason to wait any more.
fn end_leaving<R: Wait>(rt: &R, words: &Words, leaving: Leaving) -> Cleared
    requires { IsProcessOf words.now leaving }
{
    match words.withdraw(leaving) {
        WithdrawAnswer::Out(out) => words.clear_out(out),
        WithdrawAnswer::Awaiting(awaiting) => {
            let woken = words.look_mark(rt, awaiting);
            words.clear_woken(woken)
        }
    }
}

// A whole sleep above no level, and the notes that it was told.
fn sleep<R: Wait>(rt: &R, words: &Words, seat: Seat) -> NoteSet
    requires { IsProcessOf words.now seat }
{
    let Ok(posted) = words.post(seat, FIRST, 0) else {
        return NoteSet::empty();
    };
    let leaving = match words.test(posted) {
        TestAnswer::Leaving(leaving) => leaving,
        TestAnswer::Asleep(asleep) => match words.look(rt, asleep) {
            LookAnswer::Leaving(leaving) => leaving,
            LookAnswer::Woken(woken) => return words.clear_woken(woken).notes,
        },
    };
    end_leaving(rt, words, leaving).notes
}

// A whole wakeup. Says whether there was a Rendez to wake.
fn wakeup(words: &Words, seat: Seat) -> bool
    requires { IsProcessOf words.now seat }
{
    let Ok(owing) = words.raise(seat, FIRST, 1) else {
        return false;
    };
    let Returned { seat: _, done: _ } = match words.take(owing) {
        TakeAnswer::Nobody(returned) => returned,
        TakeAnswer::Holding(holding) => words.mark(holding),
    };
    true
}
