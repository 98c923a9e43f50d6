//! Who wakes whom on the Rendez of a direction.
ghost use Rattle.std.specs.Prelude.{◌≡◌, ◌<◌};
ghost use Rattle.rendez_words.specs.Words.{rendez_of};
ghost use Rattle.sleep_wakeup.specs.Actions.{WakesOne};
ghost use Rattle.block_queue.specs.Seats.{put_account, take_account};
ghost use Rattle.pipe_dev.specs.Rendezes.{OwnsRow, WakesWriters, WakesIfKnown};
ghost use Rattle.pipe_dev.specs.WriteCalls.{HasHang};

use crate::row::Row;
use block_queue::{PutSeat, TakeSeat};
use sleep_wakeup::Proc;
use sync_base::RendezId;
use sync_base::limits::TOP_LEVEL;

/// Wakes the process that sleeps on the Rendez, if there is one. The Rendez is the kernel's.
pub(crate) fn wake(proc: &mut Proc<'_>, rendez: RendezId, level: u64)
    requires rendez { rendez.0 < rendez_of proc.old.words }
    ensures woken { WakesOne proc.old.process rendez level proc.new.process }
    ensures words { proc.new.words ≡ proc.old.words }
{
    match proc.wakeup(rendez, level) {
        Ok(_) => {}
        Err(_) => unreachable!(),
    }
}

/// Wakes each writer, from the first one on.
pub(crate) fn wake_writers(proc: &mut Proc<'_>, row: &Row, level: u64)
    requires row { OwnsRow proc.old.words row.now }
    ensures woken { WakesWriters row.now row.now.writers level proc.old.process proc.new.process }
    ensures words { proc.new.words ≡ proc.old.words }
{
    'waking: for writer in 0..row.writers {
        wake(proc, row.writer(writer), level);
    }
}

/// Wakes both sides, after a hangup that the reader's seat has seen.
pub(crate) fn wake_after_take(proc: &mut Proc<'_>, row: &Row, seat: &TakeSeat)
    requires hung { HasHang (take_account seat.now).seen }
    ensures woken { WakesIfKnown row.now proc.old proc.new.process }
    ensures words { proc.new.words ≡ proc.old.words }
{
    let _ = seat;
    wake_all(proc, row);
}

/// Wakes both sides, after a hangup that the writer's seat has seen.
pub(crate) fn wake_after_put(proc: &mut Proc<'_>, row: &Row, seat: &PutSeat)
    requires hung { HasHang (put_account seat.now).seen }
    ensures woken { WakesIfKnown row.now proc.old proc.new.process }
    ensures words { proc.new.words ≡ proc.old.words }
{
    let _ = seat;
    wake_all(proc, row);
}

// Wakes both sides, where the process is of their kernel. No file but this can call it, so it comes
// after a hangup alone.
fn wake_all(proc: &mut Proc<'_>, row: &Row)
    ensures woken { WakesIfKnown row.now proc.old proc.new.process }
    ensures words { proc.new.words ≡ proc.old.words }
{
    if !row.is_known_to(proc) {
        return;
    }
    wake(proc, row.reader(), TOP_LEVEL);
    wake_writers(proc, row, TOP_LEVEL);
}
