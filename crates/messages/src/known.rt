//! Whether a process may call an object: its kernel has the Rendez of that object.
ghost use Rattle.std.specs.Prelude.{◌≡◌, ◌↔◌, ◌+◌, ◌≤◌, true};
ghost use Rattle.rendez_words.specs.Words.{rendez_of};

use sleep_wakeup::Proc;

// Whether the kernel of the process has so many Rendez from this one on.
pub(crate) fn has_row(proc: &Proc<'_>, first: u64, procs: u64) -> bool
    ensures { result ≡ true ↔ first + procs ≤ rendez_of proc.now.words }
{
    let count = proc.rendez_count();
    first <= count && procs <= count - first
}
