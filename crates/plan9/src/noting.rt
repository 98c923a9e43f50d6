//! Notes taken one kind at a time.
ghost use Rattle.plan9.specs.Notings.{Keeps, TakesNote};

use sleep_wakeup::Proc;
use sync_base::{Note, NoteSet};

/// Takes only the note of this kind, and says whether it was pending: other notes that were pending
/// are pending again. Own; notify(2) gives a handler one note after the other. Takes no memory and
/// doesn't wait.
pub fn take_note(proc: &mut Proc<'_>, note: Note) -> bool
    ensures { TakesNote note proc.old result proc.new }
{
    let came = proc.notes();
    let left = came.without(NoteSet::of(note));
    keep(proc, left);
    came.has(note)
}

// Makes notes pending again, if there are any.
fn keep(proc: &mut Proc<'_>, left: NoteSet)
    ensures { Keeps left proc.old proc.new }
{
    if !left.is_empty() {
        proc.put_back(left);
    }
}
