//! How notes come to a process, and how it takes them outside a sleep.
ghost use Rattle.std.specs.Prelude.{◌≡◌, ◌<◌, ◌≤◌, OnOk, OnErr, IfErr};
ghost use Rattle.sync_base.specs.declared.fault.Fault.TheVariants.{NoProc};
ghost use Rattle.rendez_words.specs.Steps.{notes, drains};
ghost use Rattle.rendez_words.specs.Words.{IsProcessOf, procs_of};

use crate::flags_word::{flags_in, word_from};
use crate::states::Seat;
use crate::words::Words;
use sleep_core::{Event, ProcFlags};
use std::marker::Brand;
use sync_base::{Fault, NoteSet, Pid};

impl Words {
    /// Posts notes to a process, whatever it does, and wakes it where it parks. Its pid need not
    /// have been given yet. Refuses as `NoProc`. Takes no memory and doesn't wait.
    // Step Note: fetch_or of the notes' bits in the flags. Seat of the poster: as it was.
    pub fn note(&self, seat: &mut Seat, pid: Pid, set: NoteSet) -> Result<(), Fault>
        requires seat { IsProcessOf self.now seat.old }

        // Refused first, and then nothing changes.
        ensures fault { IfErr result (λ fault. fault ≡ NoProc) }
        ensures refused { OnErr result (procs_of self.now ≤ pid.0) }
        ensures same { OnErr result (seat.new ≡ seat.old) }

        // Otherwise the notes are pending.
        ensures allowed { OnOk result (pid.0 < procs_of self.now) }
        ensures noted { OnOk result (seat.new ≡ notes seat.old pid set) }
        ensures words { IsProcessOf self.now seat.new }
    {
        if pid.0 >= self.sizes.procs {
            return Err(Fault::NoProc);
        }
        let event = Event::Note { pid, notes: set };
        let bits = word_from(ProcFlags {
            wake: false,
            notes: set,
        });
        let unwoken = self.set_flags(&mut seat.caller, pid, bits, event);
        self.wake(unwoken, &seat.caller);
        Ok(())
    }

    /// Takes the notes that are pending. Takes no memory and doesn't wait.
    // Step Drain: swap of the flags to 0. Seat: Idle, and Idle again.
    pub fn drain(&self, seat: &mut Seat) -> NoteSet
        requires seat { IsProcessOf self.now seat.old }
        ensures drained { seat.new ≡ drains seat.old result }
        ensures words { IsProcessOf self.now seat.new }
    {
        let pid = seat.caller.pid();
        let event = Event::Drain { pid };
        let word = self.flags_word(pid);
        let found = self.swap::<Brand>(&mut seat.caller, word, 0, &event);
        flags_in(found).notes
    }
}
