//! How a process waits for its flags. A process looks some times, then yields between its looks,
//! and then parks. A step that sets the flags of a process wakes it only where it parks, and else
//! makes no system call.
ghost use Rattle.std.specs.Prelude.{◌≡◌, IfSome, IfNone};
ghost use Rattle.sleep_core.specs.declared.event.Event.TheVariants.{Look};
ghost use Rattle.rendez_words.specs.FlagsWord.{flags_word};
ghost use Rattle.rendez_words.specs.Plays.{HasMade, part_of};
ghost use Rattle.rendez_words.specs.Process.{phase_in, pid_in};
ghost use Rattle.rendez_words.specs.States.{IsLooking, IsEnding, EndsWait};
ghost use Rattle.rendez_words.specs.Steps.{clears};
ghost use Rattle.rendez_words.specs.Words.{IsProcessOf, sizes_of};

use crate::flags_word::flags_in;
use crate::looking::Ended;
use crate::states::Caller;
use crate::words::Words;
use sleep_core::{Event, ProcFlags};
use std::hint::spin_loop;
use std::marker::Brand;
use std::sync::Wait;
use std::thread::yield_now;
use sync_base::NoteSet;

/// How often a process looks before it yields.
const LOOKS: u64 = 50;

/// How often it yields before it parks.
const YIELDS: u64 = 100;

/// How long it pauses between two looks.
const PAUSES: u64 = 8;

/// A process whose wait is over, and the flags that ended it.
#[derive(Drop)]
pub(crate) struct Awaited {
    pub(crate) caller: Caller,
    pub(crate) flags: ProcFlags,
}

impl Words {
    /// Looks at the flags of the process until they end its wait: with the mark of a wakeup, or,
    /// where `notes_end` says so, with notes.
    pub(crate) fn await_flags<R: Wait>(
        &self,
        rt: &R,
        mut caller: Caller,
        notes_end: bool,
    ) -> Awaited
        requires process { IsProcessOf self.now caller }
        requires looking { IsLooking notes_end (phase_in caller) }
        ensures table { result.caller.table ≡ caller.table }
        ensures made { HasMade (sizes_of self.now) (Look (pid_in caller))
            (part_of caller) (flags_word result.flags) (part_of result.caller) }
        ensures ends { EndsWait notes_end result.flags }
    {
        match self.poll(&mut caller, notes_end) {
            Some(flags) => Awaited { caller, flags },
            None => self.rest(rt, caller, notes_end),
        }
    }

    // Looks for a while, with pauses and then yields between the looks.
    fn poll(&self, caller: &mut Caller, notes_end: bool) -> Option<ProcFlags>
        requires process { IsProcessOf self.now caller.old }
        requires looking { IsLooking notes_end (phase_in caller.old) }
        ensures table { caller.new.table ≡ caller.old.table }
        ensures made { IfSome result (λ flags. HasMade (sizes_of self.now)
            (Look (pid_in caller.old)) (part_of caller.old) (flags_word flags)
            (part_of caller.new)) }
        ensures ends { IfSome result (EndsWait notes_end) }
        ensures same { IfNone result (caller.new ≡ caller.old) }
    {
        for looks in 0..LOOKS + YIELDS {
            if let Ok(flags) = self.look_at(caller, notes_end) {
                return Some(flags);
            }
            pause(looks);
        }
        None
    }

    // Says that the process parks, and then looks and parks in turn.
    fn rest<R: Wait>(&self, rt: &R, caller: Caller, notes_end: bool) -> Awaited
        requires process { IsProcessOf self.now caller }
        requires looking { IsLooking notes_end (phase_in caller) }
        ensures table { result.caller.table ≡ caller.table }
        ensures made { HasMade (sizes_of self.now) (Look (pid_in caller))
            (part_of caller) (flags_word result.flags) (part_of result.caller) }
        ensures ends { EndsWait notes_end result.flags }
    {
        let mut announced = self.parking.announce(caller);
        for _ in rt.forever() {
            announced = match self.look_announced(announced, notes_end) {
                Ok(Ended { announced, flags }) => {
                    let caller = self.parking.leave(announced);
                    return Awaited { caller, flags };
                }
                Err(seen) => self.park(rt, seen),
            };
        }
        unreachable!()
    }

    /// Ends a sleep, and takes the notes.
    // Step Clear: swap of the flags to 0. Seat: Out or Woken, then Idle.
    pub(crate) fn clear(&self, caller: &mut Caller) -> NoteSet
        requires process { IsProcessOf self.now caller.old }
        requires ending { IsEnding (phase_in caller.old) }
        ensures cleared { caller.new ≡ clears caller.old result }
        ensures words { IsProcessOf self.now caller.new }
    {
        let pid = caller.pid();
        let word = self.flags_word(pid);
        let found = self.swap::<Brand>(caller, word, 0, &Event::Clear { pid });
        flags_in(found).notes
    }
}

// What a process does after a look that found nothing, by how often it has looked.
fn pause(looks: u64) {
    if looks < LOOKS {
        for _ in 0..PAUSES {
            spin_loop();
        }
    } else {
        yield_now();
    }
}
