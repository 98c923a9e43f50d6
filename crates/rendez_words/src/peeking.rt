//! What a thread that is no process sees of the words: who is posted in a Rendez, its level, and
//! the flags of a process. A peek is a load of one word, with no seat. It is no step: it is in no
//! trace, and no contract says what it finds. The reader comes from `released`, which asks with two
//! seats what a posted word says.
ghost use Rattle.std.specs.Prelude.{◌<◌};
ghost use Rattle.rendez_words.specs.Words.{procs_of, rendez_of};

use crate::flags_word::flags_in;
use crate::words::Words;
use sleep_core::ProcFlags;
use sync_base::{Pid, RendezId};

impl Words {
    /// Who is posted in the Rendez at the moment of this load. Takes no memory and doesn't wait.
    pub fn peek_posted(&self, rendez: RendezId) -> Option<Pid>
        requires { rendez.0 < rendez_of self.now }
    {
        let found = self.table.shared.peek(self.posted_word(rendez));
        found.checked_sub(1).map(Pid)
    }

    /// The level of the Rendez at the moment of this load. Takes no memory and doesn't wait.
    pub fn peek_level(&self, rendez: RendezId) -> u64
        requires { rendez.0 < rendez_of self.now }
    {
        self.table.shared.peek(self.level_word(rendez))
    }

    /// The mark and the notes that are pending for the process at the moment of this load: they
    /// stay pending. Takes no memory and doesn't wait.
    pub fn peek_flags(&self, pid: Pid) -> ProcFlags
        requires { pid.0 < procs_of self.now }
    {
        flags_in(self.table.shared.peek(self.flags_word(pid)))
    }
}
