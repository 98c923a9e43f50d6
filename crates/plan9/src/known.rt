//! Whether a process may call an object: its kernel has the Rendez of that object.
ghost use Rattle.std.specs.Prelude.{◌≡◌, ◌↔◌, ◌≤◌, true};
ghost use Rattle.rendez_words.specs.Words.{rendez_of};

use sleep_wakeup::Proc;

// Whether the kernel of the process has all Rendez below this one.
#[inline(always)]
pub(crate) fn has_row(proc: &Proc<'_>, beyond: u64) -> bool
    ensures { result ≡ true ↔ beyond ≤ rendez_of proc.now.words }
{
    beyond <= proc.rendez_count()
}
