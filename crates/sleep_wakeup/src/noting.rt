//! How notes are posted and taken.
use crate::proc::Proc;
use sync_base::{Fault, NoteSet, Pid};

impl<'k> Proc<'k> {
    ghost use Rattle.std.specs.Prelude.{◌≡◌, ◌≤◌, ◌<◌, IfErr, OnOk, OnErr};
    ghost use Rattle.sync_base.specs.declared.fault.Fault.TheVariants.{NoProc};
    ghost use Rattle.rendez_words.specs.Process.{pid_in};
    ghost use Rattle.rendez_words.specs.Steps.{notes, drains};
    ghost use Rattle.rendez_words.specs.Words.{procs_of};

    /// Posts notes to a process: they end its sleep, or are pending until its next one. `rfork`
    /// need not have made the process yet. After postnote(2). Refuses as `NoProc`. Takes no memory
    /// and doesn't wait.
    pub fn postnote(&mut self, pid: Pid, set: NoteSet) -> Result<(), Fault>
        // Refused first, and then nothing changes.
        ensures allowed { OnOk result (pid.0 < procs_of self.old.words) }
        ensures fault { IfErr result (λ fault. fault ≡ NoProc) }
        ensures refused { OnErr result (procs_of self.old.words ≤ pid.0) }
        ensures same { OnErr result (self.new ≡ self.old) }

        // Otherwise the notes are pending.
        ensures noted { OnOk result (self.new.process ≡ notes self.old.process pid set) }
        ensures words { self.new.words ≡ self.old.words }
    {
        let Some(mut seat) = self.seat.take() else {
            unreachable!()
        };
        let posted = self.words.note(&mut seat, pid, set);
        self.seat = Some(seat);
        posted
    }

    /// Takes the notes that are pending. Takes no memory and doesn't wait.
    pub fn notes(&mut self) -> NoteSet
        ensures taken { self.new.process ≡ drains self.old.process result }
        ensures words { self.new.words ≡ self.old.words }
    {
        let Some(mut seat) = self.seat.take() else {
            unreachable!()
        };
        let set = self.words.drain(&mut seat);
        self.seat = Some(seat);
        set
    }

    /// Puts back notes that were taken: they are pending again. Takes no memory and doesn't wait.
    pub fn put_back(&mut self, set: NoteSet)
        ensures noted { self.new.process ≡ notes self.old.process (pid_in self.old.process) set }
        ensures words { self.new.words ≡ self.old.words }
    {
        let Some(mut seat) = self.seat.take() else {
            unreachable!()
        };
        match self.words.note(&mut seat, self.pid, set) {
            Ok(()) => {}
            Err(_) => unreachable!(),
        }
        self.seat = Some(seat);
    }
}
