//! How a direction is read block by block. A block changes hands, and no byte is copied to another.
ghost use Rattle.block_queue.specs.Seats.{key_of};
ghost use Rattle.pipe_dev.specs.BlockReads.{block_reading};
ghost use Rattle.pipe_dev.specs.Ends.{IsReadState};
ghost use Rattle.pipe_dev.specs.Filling.{Lending};
ghost use Rattle.pipe_dev.specs.FillSteps.{block_lending};
ghost use Rattle.pipe_dev.specs.Rendezes.{OwnsRow};

use crate::answers::ReadAnswer;
use crate::read_end::ReadEnd;
use crate::remainder::Remainder;
use crate::row::Row;
use crate::state::ReadState;
use crate::waking::wake_writers;
use block_queue::{Queue, TakeAnswer};
use sleep_wakeup::Proc;
use std::mem;
use std::sync::Wait;
use sync_base::{Fault, NoProbe};
use waiting::{Forever, Reply, Runner, WaitingCall};

impl<'p> ReadEnd<'p> {
    ghost use Rattle.std.specs.Prelude.{◌≡◌, ◌↔◌, IsErrOf};
    ghost use Rattle.sync_base.specs.declared.fault.Fault.TheVariants.{NoRendez};
    ghost use Rattle.block_queue.specs.Seats.{key_of};
    ghost use Rattle.pipe_dev.specs.BlockReads.{ReadsBlock, ReadsBlockBy, RunsABlockRead};
    ghost use Rattle.pipe_dev.specs.Ends.{IsSameReadEnd};
    ghost use Rattle.pipe_dev.specs.ReadCalls.{calling, run_call};
    ghost use Rattle.pipe_dev.specs.Rendezes.{OwnsRow};
    ghost use Rattle.pipe_dev.specs.WriteCalls.{IsRefusedAs};

    /// Reads all that is left of the write that was begun, or else the next write. No byte is
    /// copied to another block: this block becomes the block that was written, so its length is
    /// what was read, and what is left of a begun write moves to its front. Its old memory goes to
    /// the writers, who fill it again: call with the block of the last call. In stream mode too it
    /// reads one write, and reads an empty write as no bytes. Where nothing is there yet it waits.
    /// Takes no memory.
    ///
    /// `End` where the direction is hung up and all is read. Refuses, in this order, as `NoRendez`
    /// where the kernel of the process has too few Rendez for the direction, and where it would
    /// wait as `DoubleSleep` and `Interrupted`. At the end, and where it is refused, the block is
    /// as it was. A read that took a write out wakes each writer with its number. After pipe(3) and
    /// bread of the kernel's devices.
    pub fn read_block<R: Wait>(
        &mut self,
        rt: &R,
        proc: &mut Proc<'_>,
        block: &mut Vec<u8>,
    ) -> Result<ReadAnswer, Fault>
        // A process of a kernel that has too few Rendez for the direction is refused.
        ensures no_rendez { IsErrOf result NoRendez ↔ ¬ OwnsRow proc.old.words self.old.row }

        // It read, slept and woke so, or did nothing.
        ensures read { ReadsBlock (key_of self.old.queue) self.old.row
            (calling self.old proc.old block.old.items) result
            (calling self.new proc.new block.new.items) }
        ensures end { IsSameReadEnd self.old self.new }
        ensures words { proc.new.words ≡ proc.old.words }
    {
        self.read_block_by(rt, proc, block, &Forever, &mut ())
    }

    /// A `read_block` that waits as its runner does. Takes no memory. Own; bread of the kernel's
    /// devices waits as long as it takes.
    ///
    /// Refuses, in this order, as `NoRendez` as `read_block` does, and where it would wait as its
    /// runner does; a refused read got nothing, and the block is as it was.
    pub fn read_block_by<R: Wait, W: Runner>(
        &mut self,
        rt: &R,
        proc: &mut Proc<'_>,
        block: &mut Vec<u8>,
        runner: &W,
        timer: &mut W::Timer,
    ) -> Result<ReadAnswer, Fault>
        requires timer { W.rests runner.now timer.old }

        // A process of a kernel that has too few Rendez for the direction is refused.
        ensures no_rendez { ¬ OwnsRow proc.old.words self.old.row → IsRefusedAs NoRendez
            (run_call (calling self.old proc.old block.old.items) timer.old) result
            (run_call (calling self.new proc.new block.new.items) timer.new) }

        // Else it was run so; and whatever its runner is, it was a read of a block.
        ensures read { OwnsRow proc.old.words self.old.row
            → ReadsBlockBy (W.runs runner.now) (key_of self.old.queue) self.old.row
            (run_call (calling self.old proc.old block.old.items) timer.old) result
            (run_call (calling self.new proc.new block.new.items) timer.new) }
        ensures is_read { OwnsRow proc.old.words self.old.row
            → RunsABlockRead (key_of self.old.queue) self.old.row
            (calling self.old proc.old block.old.items) result
            (calling self.new proc.new block.new.items) }
        ensures end { IsSameReadEnd self.old self.new }
        ensures words { proc.new.words ≡ proc.old.words }
        ensures timer { W.rests runner.now timer.new }
        ensures kept { W.kept timer.new ≡ W.kept timer.old }
    {
        if !self.row.is_known_to(proc) {
            return Err(Fault::NoRendez);
        }
        let (queue, row, state) = (self.queue, &self.row, &mut self.state);
        let call = BlockRead { queue, row };
        let rendez = row.reader();
        mem::swap(&mut state.block, block);
        let answer = runner.run(rt, proc, rendez, &call, state, &mut [], timer, &mut NoProbe);
        mem::swap(&mut state.block, block);
        answer
    }
}

/// A call of read_block: what it asks of its queue.
#[derive(Drop)]
pub(crate) struct BlockRead<'q> {
    pub(crate) queue: &'q Queue,
    pub(crate) row: &'q Row,
}

impl<'q> WaitingCall for BlockRead<'q> {
    type Seat = ReadState;

    type Out = ReadAnswer;

    ghost ready = { λ call state. IsReadState call.queue.now call.row.now state };

    ghost waits = { λ call state. IsReadState call.queue.now call.row.now state };

    ghost rests = { λ call state. IsReadState call.queue.now call.row.now state };

    ghost knows = { λ call words. OwnsRow words call.row.now };

    ghost Sight = { Lending };

    ghost sight = { λ state buffer. block_lending state };

    ghost promise = { λ call. block_reading (key_of call.queue.now) call.row.now };

    fn begin<R: Wait>(
        &self,
        rt: &R,
        proc: &mut Proc<'_>,
        state: &mut ReadState,
        buffer: &mut [u8],
    ) -> Reply<ReadAnswer> {
        self.ask(rt, proc, state, buffer)
    }

    // What is left of a write that was begun, or else the next write, whose writers are woken.
    #[inline(always)]
    fn ask<R: Wait>(
        &self,
        _rt: &R,
        proc: &mut Proc<'_>,
        state: &mut ReadState,
        _buffer: &mut [u8],
    ) -> Reply<ReadAnswer> {
        if let Some(begun) = state.rest.take() {
            let spare = begun.hand_over(&mut state.block);
            state.seat.spare.keep(spare);
            return Reply::Done(ReadAnswer::Got(state.block.len()));
        }
        match self.queue.take(&mut state.seat) {
            TakeAnswer::Block(bytes, writer, number) => {
                let whole = Remainder::whole(bytes, writer, number - 1);
                let spare = whole.hand_over(&mut state.block);
                state.seat.spare.keep(spare);
                wake_writers(proc, self.row, number);
                Reply::Done(ReadAnswer::Got(state.block.len()))
            }
            TakeAnswer::NotYet(number) => Reply::Wait(number),
            TakeAnswer::End => Reply::Done(ReadAnswer::End),
        }
    }

    // It reads nothing more.
    fn leave<R: Wait>(&self, _rt: &R, _state: &mut ReadState) -> Option<ReadAnswer> {
        None
    }
}
