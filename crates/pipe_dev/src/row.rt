//! The Rendez of a direction, and how it is read.
ghost use Rattle.std.specs.Prelude.{◌≡◌, ◌+◌, ◌<◌, ◌^◌};

use sleep_wakeup::Proc;
use sync_base::{Mode, RendezId};

/// The Rendez of a direction: the reader's, and then one for each writer, in order; and whether a
/// read of the direction stops at the end of a write.
#[derive(Clone, Copy, Drop)]
pub struct Row {
    pub(crate) first: u64,
    pub(crate) writers: u64,
    pub(crate) mode: Mode,
    ghost small: { first + 1 + writers < 2 ^ 64 },
}

impl Row {
    ghost use Rattle.std.specs.Prelude.{◌≡◌, ◌+◌, ◌<◌, ◌↔◌, true};
    ghost use Rattle.pipe_dev.specs.Rendezes.{reader_rendez, writer_rendez, OwnsRow};

    /// Whether these Rendez are among those of the process's kernel.
    pub(crate) fn is_known_to(&self, proc: &Proc<'_>) -> bool
        ensures { (result ≡ true) ↔ OwnsRow proc.now.words self.now }
    {
        self.first + 1 + self.writers <= proc.rendez_count()
    }

    /// The Rendez in which the reader waits for a write.
    pub(crate) fn reader(&self) -> RendezId
        ensures { result ≡ reader_rendez self.now }
    {
        RendezId(self.first)
    }

    /// The Rendez in which this writer waits for room.
    pub(crate) fn writer(&self, writer: u64) -> RendezId
        requires { writer < self.now.writers }
        ensures { result ≡ writer_rendez self.now writer }
    {
        RendezId(self.first + 1 + writer)
    }
}
