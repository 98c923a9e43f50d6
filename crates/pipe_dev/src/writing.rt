//! How a direction is written.
ghost use Rattle.std.specs.Prelude.{None, Some};
ghost use Rattle.histories.specs.declared.account.Account.{Account};
ghost use Rattle.block_queue.specs.declared.entry.Entry.{Entry};
ghost use Rattle.block_queue.specs.Seats.{key_of, put_account};
ghost use Rattle.pipe_dev.specs.Ends.{IsWriteState};
ghost use Rattle.pipe_dev.specs.Rendezes.{OwnsRow};
ghost use Rattle.pipe_dev.specs.WriteCalls.{writing};

use crate::row::Row;
use crate::state::WriteState;
use crate::waking::wake;
use crate::write_end::WriteEnd;
use block_queue::{PutAnswer, Queue, Spare};
use sleep_wakeup::Proc;
use std::alloc::Global;
use std::sync::Wait;
use sync_base::limits::ATOMIC_SIZE;
use sync_base::{Fault, NoProbe, Note, NoteSet};
use waiting::{Forever, Reply, Runner, WaitingCall};

impl<'p> WriteEnd<'p> {
    ghost use Rattle.std.specs.Prelude.{◌≡◌, ◌<◌, ◌≤◌, ◌↔◌, length, IsErrOf};
    ghost use Rattle.sync_base.specs.declared.fault.Fault.TheVariants.{TooBig, NoRendez};
    ghost use Rattle.sync_base.specs.declared.limits.TheConstants.{ATOMIC_SIZE};
    ghost use Rattle.pipe_dev.specs.Ends.{IsSameWriteEnd};
    ghost use Rattle.pipe_dev.specs.Rendezes.{OwnsRow};
    ghost use Rattle.pipe_dev.specs.WriteCalls.{IsRefusedAs, RunsAWrite, Writes, WritesBy};
    ghost use Rattle.pipe_dev.specs.WriteCalls.{call_of, run_writer, writer_of};

    /// Writes these bytes as one write, which is read whole and in one piece, and returns its
    /// number. Where there is no room it waits. Memory is taken for the bytes.
    ///
    /// Refuses, in this order, as `TooBig` above the atomic size, as `NoRendez` where the kernel of
    /// the process has too few Rendez for the direction, as `Memory`, as `Hungup` where the
    /// direction is hung up, with the note of a write on a closed pipe posted to the process, as
    /// `Worn` where the last number was given, and where it would wait as `DoubleSleep` and
    /// `Interrupted`. A write that was accepted wakes the reader with its number. After pipe(3) and
    /// write(2).
    pub fn write<R: Wait>(
        &mut self,
        alloc: Global,
        rt: &R,
        proc: &mut Proc<'_>,
        bytes: &[u8],
    ) -> Result<u64, Fault>
        // A write above the atomic size is refused first, and then a process of a kernel that has
        // too few Rendez for the direction.
        ensures too_big { IsErrOf result TooBig ↔ (ATOMIC_SIZE < length bytes.now) }
        ensures no_rendez { length bytes.now ≤ ATOMIC_SIZE
            → (IsErrOf result NoRendez ↔ ¬ OwnsRow proc.old.words self.old.row) }

        // It wrote, slept and woke so, or did nothing.
        ensures wrote { Writes (call_of self.old bytes.now)
            (writer_of self.old proc.old) result (writer_of self.new proc.new) }
        ensures end { IsSameWriteEnd self.old self.new }
        ensures words { proc.new.words ≡ proc.old.words }
    {
        self.write_by(alloc, rt, proc, bytes, &Forever, &mut ())
    }

    /// A `write` that waits as its runner does. Memory is taken for the bytes. Own; write(2) waits
    /// as long as it takes.
    ///
    /// Refuses, in this order, as `TooBig`, `NoRendez`, `Memory`, `Hungup` and `Worn` as `write`
    /// does, and where it would wait as its runner does; a refused write took nothing.
    pub fn write_by<R: Wait, W: Runner>(
        &mut self,
        alloc: Global,
        rt: &R,
        proc: &mut Proc<'_>,
        bytes: &[u8],
        runner: &W,
        timer: &mut W::Timer,
    ) -> Result<u64, Fault>
        requires timer { W.rests runner.now timer.old }

        // A write above the atomic size is refused first, and then a process of a kernel that has
        // too few Rendez for the direction.
        ensures too_big { ATOMIC_SIZE < length bytes.now
            → IsRefusedAs TooBig (run_writer self.old timer.old proc.old) result
            (run_writer self.new timer.new proc.new) }
        ensures no_rendez { length bytes.now ≤ ATOMIC_SIZE → ¬ OwnsRow proc.old.words self.old.row
            → IsRefusedAs NoRendez (run_writer self.old timer.old proc.old) result
            (run_writer self.new timer.new proc.new) }

        // Else it was run so, or wanted memory; and whatever its runner is, it was a write.
        ensures wrote { length bytes.now ≤ ATOMIC_SIZE → OwnsRow proc.old.words self.old.row
            → WritesBy (W.runs runner.now) (call_of self.old bytes.now)
            (run_writer self.old timer.old proc.old) result
            (run_writer self.new timer.new proc.new) }
        ensures is_write { length bytes.now ≤ ATOMIC_SIZE → OwnsRow proc.old.words self.old.row
            → RunsAWrite (call_of self.old bytes.now)
            (writer_of self.old proc.old) result (writer_of self.new proc.new) }
        ensures end { IsSameWriteEnd self.old self.new }
        ensures words { proc.new.words ≡ proc.old.words }
        ensures timer { W.rests runner.now timer.new }
        ensures kept { W.kept timer.new ≡ W.kept timer.old }
    {
        if bytes.len() > ATOMIC_SIZE {
            return Err(Fault::TooBig);
        }
        if !self.row.is_known_to(proc) {
            return Err(Fault::NoRendez);
        }
        let (queue, row, state) = (self.queue, &self.row, &mut self.state);
        match state.seat.spare.take().filled(alloc, bytes) {
            Ok(block) => state.block = Some(block),
            Err(spare) => {
                state.seat.spare.keep(spare);
                return Err(Fault::Memory);
            }
        }
        let writer = state.seat.writer();
        let call = Write {
            queue,
            row,
            writer,
            bytes,
        };
        let rendez = row.writer(writer);
        runner.run(rt, proc, rendez, &call, state, &mut [], timer, &mut NoProbe)
    }
}

/// A call of write: what it asks of its queue.
#[derive(Drop)]
pub(crate) struct Write<'q> {
    pub(crate) queue: &'q Queue,
    pub(crate) row: &'q Row,
    pub(crate) writer: u64,
    pub(crate) bytes: &'q [u8],
}

impl<'q> WaitingCall for Write<'q> {
    type Seat = WriteState;

    type Out = u64;

    ghost ready = { λ call state.
        IsWriteState call.queue.now call.row.now call.writer (Some call.bytes.now) state };

    ghost waits = { λ call state.
        IsWriteState call.queue.now call.row.now call.writer (Some call.bytes.now) state };

    ghost rests = { λ call state.
        IsWriteState call.queue.now call.row.now call.writer None state };

    ghost knows = { λ call words. OwnsRow words call.row.now };

    ghost Sight = { Account Entry };

    ghost sight = { λ state buffer. put_account state.seat };

    ghost promise = { λ call. writing (record {
      key = key_of call.queue.now;
      row = call.row.now;
      writer = call.writer;
      bytes = call.bytes.now;
    }) };

    fn begin<R: Wait>(
        &self,
        rt: &R,
        proc: &mut Proc<'_>,
        state: &mut WriteState,
        buffer: &mut [u8],
    ) -> Reply<u64> {
        self.ask(rt, proc, state, buffer)
    }

    // A put; where it was accepted the reader is woken with its number.
    #[inline(always)]
    fn ask<R: Wait>(
        &self,
        rt: &R,
        proc: &mut Proc<'_>,
        state: &mut WriteState,
        _buffer: &mut [u8],
    ) -> Reply<u64> {
        let Some(block) = state.block.take() else {
            unreachable!()
        };
        match self.queue.put(rt, &mut state.seat, block) {
            PutAnswer::Taken(number) => {
                wake(proc, self.row.reader(), number);
                Reply::Done(number)
            }
            PutAnswer::Full(back, number) => {
                state.block = Some(back);
                Reply::Wait(number)
            }
            PutAnswer::Hungup(back) => {
                state.seat.spare.keep(Spare::of(back));
                proc.put_back(NoteSet::of(Note::ClosedPipe));
                Reply::Refused(Fault::Hungup)
            }
            PutAnswer::Worn(back) => {
                state.seat.spare.keep(Spare::of(back));
                Reply::Refused(Fault::Worn)
            }
        }
    }

    // Nothing was accepted, and the memory of the block is kept.
    fn leave<R: Wait>(&self, _rt: &R, state: &mut WriteState) -> Option<u64> {
        if let Some(block) = state.block.take() {
            state.seat.spare.keep(Spare::of(block));
        }
        None
    }
}
