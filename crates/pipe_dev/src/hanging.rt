//! How a direction is hung up, from either side.
use crate::read_end::ReadEnd;
use crate::waking::{wake_after_put, wake_after_take};
use crate::write_end::WriteEnd;
use sleep_wakeup::Proc;

impl<'p> ReadEnd<'p> {
    ghost use Rattle.std.specs.Prelude.{◌≡◌};
    ghost use Rattle.block_queue.specs.declared.entry.Entry.TheVariants.{Hung};
    ghost use Rattle.block_queue.specs.Meaning.{Enters};
    ghost use Rattle.block_queue.specs.Seats.{key_of};
    ghost use Rattle.pipe_dev.specs.Ends.{IsSameReadEnd};
    ghost use Rattle.pipe_dev.specs.Rendezes.{WakesIfKnown};

    /// Hangs its direction up, for all writers and for good, and wakes both sides. What was
    /// accepted stays readable. A second hangup wakes again. A process whose kernel has too few
    /// Rendez for the direction hangs it up and wakes nobody. Takes no memory and doesn't wait.
    /// After pipe(2).
    #[tactic(auto, using(crate::proofs::WrittenLemmas::sees_hang))]
    pub fn hangup(&mut self, proc: &mut Proc<'_>)
        ensures hung { Enters (key_of self.old.queue) (Hung 0) self.old.account self.new.account }
        ensures rest { self.new.rest ≡ self.old.rest }
        ensures woken { WakesIfKnown self.old.row proc.old proc.new.process }
        ensures end { IsSameReadEnd self.old self.new }
        ensures words { proc.new.words ≡ proc.old.words }
    {
        self.queue.hang_take(&mut self.state.seat);
        wake_after_take(proc, &self.row, &self.state.seat);
    }
}

impl<'p> WriteEnd<'p> {
    ghost use Rattle.std.specs.Prelude.{◌≡◌, ◌+◌};
    ghost use Rattle.block_queue.specs.declared.entry.Entry.TheVariants.{Hung};
    ghost use Rattle.block_queue.specs.Meaning.{Enters};
    ghost use Rattle.block_queue.specs.Seats.{key_of};
    ghost use Rattle.pipe_dev.specs.Ends.{IsSameWriteEnd};
    ghost use Rattle.pipe_dev.specs.Rendezes.{WakesIfKnown};

    /// Hangs its direction up, for all writers and for good, and wakes both sides. What was
    /// accepted stays readable. A second hangup wakes again. A process whose kernel has too few
    /// Rendez for the direction hangs it up and wakes nobody. Takes no memory and doesn't wait.
    /// After pipe(2).
    #[tactic(auto, using(crate::proofs::WrittenLemmas::sees_hang))]
    pub fn hangup(&mut self, proc: &mut Proc<'_>)
        ensures hung { Enters (key_of self.old.queue) (Hung (self.old.writer + 1))
            self.old.account self.new.account }
        ensures woken { WakesIfKnown self.old.row proc.old proc.new.process }
        ensures end { IsSameWriteEnd self.old self.new }
        ensures words { proc.new.words ≡ proc.old.words }
    {
        self.queue.hang_put(&mut self.state.seat);
        wake_after_put(proc, &self.row, &self.state.seat);
    }
}
