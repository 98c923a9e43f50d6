//! How the bytes of more than one write are written.
use crate::answers::Long;
use crate::write_end::WriteEnd;
use sleep_wakeup::Proc;
use std::alloc::Global;
use std::sync::Wait;
use sync_base::Fault;
use sync_base::limits::ATOMIC_SIZE;
use waiting::{Forever, Runner};

impl<'p> WriteEnd<'p> {
    ghost use Rattle.std.specs.Prelude.{◌≡◌, ◌≢◌, ◌↔◌, Some};
    ghost use Rattle.sync_base.specs.declared.fault.Fault.TheVariants.{TooBig, NoRendez};
    ghost use Rattle.pipe_dev.specs.Ends.{IsSameWriteEnd};
    ghost use Rattle.pipe_dev.specs.Rendezes.{OwnsRow};
    ghost use Rattle.pipe_dev.specs.WriteCalls.{IsLongRefusedAs, WritesLong, WritesLongBy};
    ghost use Rattle.pipe_dev.specs.WriteCalls.{call_of, run_writer, writer_of};

    /// Writes these bytes as writes of the atomic size, and one write of the rest; no bytes are one
    /// empty write. It waits as `write` does, and stops at the first fault. No fault is `TooBig`,
    /// and `NoRendez` comes before any byte is taken.
    pub fn write_long<R: Wait>(
        &mut self,
        alloc: Global,
        rt: &R,
        proc: &mut Proc<'_>,
        bytes: &[u8],
    ) -> Long
        // None of its writes is above the atomic size, and it is refused as `NoRendez` just where
        // the process is of a kernel that has too few Rendez for the direction: then before its
        // first write.
        ensures too_big { result.fault ≢ Some TooBig }
        ensures no_rendez { (result.fault ≡ Some NoRendez)
            ↔ ¬ OwnsRow proc.old.words self.old.row }
        ensures refused { ¬ OwnsRow proc.old.words self.old.row → IsLongRefusedAs NoRendez
            (writer_of self.old proc.old) result (writer_of self.new proc.new) }

        // It wrote so, up to the first write that was not accepted.
        ensures wrote { WritesLong (call_of self.old bytes.now)
            (writer_of self.old proc.old) result (writer_of self.new proc.new) }
        ensures end { IsSameWriteEnd self.old self.new }
        ensures words { proc.new.words ≡ proc.old.words }
    {
        self.write_long_by(alloc, rt, proc, bytes, &Forever, &mut ())
    }

    /// A `write_long` each of whose writes waits as the runner does. It stops at the first fault: a
    /// runner that waits until a moment ends the whole call then. Memory is taken for the bytes.
    /// Own; write(2) waits as long as it takes.
    ///
    /// Refuses, in this order, as `NoRendez` before any byte is taken, and then as the first of its
    /// writes that is refused does; that write took nothing, and `taken` is what those before it
    /// took.
    pub fn write_long_by<R: Wait, W: Runner>(
        &mut self,
        alloc: Global,
        rt: &R,
        proc: &mut Proc<'_>,
        bytes: &[u8],
        runner: &W,
        timer: &mut W::Timer,
    ) -> Long
        requires timer { W.rests runner.now timer.old }

        // A process of a kernel that has too few Rendez for the direction is refused at once.
        ensures no_rendez { ¬ OwnsRow proc.old.words self.old.row → IsLongRefusedAs NoRendez
            (run_writer self.old timer.old proc.old) result
            (run_writer self.new timer.new proc.new) }

        // Else each write was run so, up to the first that was not accepted.
        ensures wrote { OwnsRow proc.old.words self.old.row
            → WritesLongBy (W.runs runner.now) (call_of self.old bytes.now)
            (run_writer self.old timer.old proc.old) result
            (run_writer self.new timer.new proc.new) }
        ensures end { IsSameWriteEnd self.old self.new }
        ensures words { proc.new.words ≡ proc.old.words }
        ensures timer { W.rests runner.now timer.new }
        ensures kept { W.kept timer.new ≡ W.kept timer.old }
    {
        if !self.row.is_known_to(proc) {
            return Long {
                taken: 0,
                fault: Some(Fault::NoRendez),
            };
        }
        let mut taken = 0;
        let mut left = bytes;
        'writing: while left.len() > ATOMIC_SIZE {
            let (next, others) = left.split_at(ATOMIC_SIZE);
            if let Err(fault) = self.write_by(alloc, rt, proc, next, runner, timer) {
                return Long {
                    taken,
                    fault: Some(fault),
                };
            }
            taken += ATOMIC_SIZE as u64;
            left = others;
        }
        match self.write_by(alloc, rt, proc, left, runner, timer) {
            Ok(_) => Long {
                taken: taken + left.len() as u64,
                fault: None,
            },
            Err(fault) => Long {
                taken,
                fault: Some(fault),
            },
        }
    }
}
