//! How a direction is read.
ghost use Rattle.std.specs.Prelude.{◌≡◌, ◌≢◌, []};
ghost use Rattle.block_queue.specs.Seats.{key_of};
ghost use Rattle.pipe_dev.specs.Ends.{IsReadState};
ghost use Rattle.pipe_dev.specs.Filling.{Lending};
ghost use Rattle.pipe_dev.specs.FillSteps.{lending_with};
ghost use Rattle.pipe_dev.specs.ReadCalls.{AsksForBytes, Tries, reading};
ghost use Rattle.pipe_dev.specs.ReadSteps.{found_of};
ghost use Rattle.pipe_dev.specs.Rendezes.{OwnsRow};
ghost use Rattle.waiting.specs.Waiting.{IsLow, point};

use crate::answers::{ReadAnswer, TryAnswer};
use crate::filling::{FillResult, ReadOutcome, Stop, fill};
use crate::read_end::ReadEnd;
use crate::row::Row;
use crate::state::ReadState;
use crate::waking::wake_writers;
use block_queue::Queue;
use sleep_wakeup::Proc;
use std::sync::Wait;
use sync_base::{Fault, NoProbe};
use waiting::{Forever, Reply, Runner, WaitingCall};

impl<'p> ReadEnd<'p> {
    ghost use Rattle.std.specs.Prelude.{◌≡◌, ◌≢◌, ◌↔◌, ◌⊎◌, [], IsErrOf, IfOk, IfErr, OnErr};
    ghost use Rattle.sync_base.specs.declared.fault.Fault.TheVariants.{BadCount, NoRendez};
    ghost use Rattle.block_queue.specs.Seats.{key_of};
    ghost use Rattle.pipe_dev.specs.Ends.{IsSameReadEnd};
    ghost use Rattle.pipe_dev.specs.ReadCalls.{Reads, ReadsBy, RunsARead, Tries};
    ghost use Rattle.pipe_dev.specs.ReadCalls.{calling, run_call};
    ghost use Rattle.pipe_dev.specs.Rendezes.{OwnsRow};
    ghost use Rattle.pipe_dev.specs.WriteCalls.{IsRefusedAs};

    /// Reads what is next: fills the buffer, up to its end or to the end of one write, whichever
    /// comes first. In stream mode it goes on from write to write while its buffer has room, and
    /// passes the empty ones. Where nothing is there yet it waits. Takes no memory.
    ///
    /// `End` where the direction is hung up and all is read. Refuses, in this order, as `BadCount`
    /// for a buffer of no bytes, as `NoRendez` where the kernel of the process has too few Rendez
    /// for the direction, and where it would wait as `DoubleSleep` and `Interrupted`. A read that
    /// took a write out wakes each writer with the number of that write, in stream mode of the last
    /// one. After pipe(3) and read(2).
    pub fn read<R: Wait>(
        &mut self,
        rt: &R,
        proc: &mut Proc<'_>,
        buffer: &mut [u8],
    ) -> Result<ReadAnswer, Fault>
        // A buffer of no bytes is refused first, and then a process of a kernel that has too few
        // Rendez for the direction.
        ensures bad_count { IsErrOf result BadCount ↔ (buffer.old ≡ []) }
        ensures no_rendez { buffer.old ≢ []
            → (IsErrOf result NoRendez ↔ ¬ OwnsRow proc.old.words self.old.row) }

        // It read, slept and woke so, or did nothing.
        ensures read { Reads (key_of self.old.queue) self.old.row
            (calling self.old proc.old buffer.old) result
            (calling self.new proc.new buffer.new) }
        ensures end { IsSameReadEnd self.old self.new }
        ensures words { proc.new.words ≡ proc.old.words }
    {
        self.read_by(rt, proc, buffer, &Forever, &mut ())
    }

    /// A `read` that waits as its runner does. Takes no memory. Own; read(2) waits as long as it
    /// takes.
    ///
    /// Refuses, in this order, as `BadCount` and `NoRendez` as `read` does, and where it would wait
    /// as its runner does; a refused read got nothing.
    pub fn read_by<R: Wait, W: Runner>(
        &mut self,
        rt: &R,
        proc: &mut Proc<'_>,
        buffer: &mut [u8],
        runner: &W,
        timer: &mut W::Timer,
    ) -> Result<ReadAnswer, Fault>
        requires timer { W.rests runner.now timer.old }

        // A buffer of no bytes is refused first, and then a process of a kernel that has too few
        // Rendez for the direction.
        ensures bad_count { buffer.old ≡ [] → IsRefusedAs BadCount
            (run_call (calling self.old proc.old buffer.old) timer.old) result
            (run_call (calling self.new proc.new buffer.new) timer.new) }
        ensures no_rendez { buffer.old ≢ [] → ¬ OwnsRow proc.old.words self.old.row
            → IsRefusedAs NoRendez
            (run_call (calling self.old proc.old buffer.old) timer.old) result
            (run_call (calling self.new proc.new buffer.new) timer.new) }

        // Else it was run so; and whatever its runner is, it was a read.
        ensures read { buffer.old ≢ [] → OwnsRow proc.old.words self.old.row
            → ReadsBy (W.runs runner.now) (key_of self.old.queue) self.old.row
            (run_call (calling self.old proc.old buffer.old) timer.old) result
            (run_call (calling self.new proc.new buffer.new) timer.new) }
        ensures is_read { buffer.old ≢ [] → OwnsRow proc.old.words self.old.row
            → RunsARead (key_of self.old.queue) self.old.row
            (calling self.old proc.old buffer.old) result
            (calling self.new proc.new buffer.new) }
        ensures end { IsSameReadEnd self.old self.new }
        ensures words { proc.new.words ≡ proc.old.words }
        ensures timer { W.rests runner.now timer.new }
        ensures kept { W.kept timer.new ≡ W.kept timer.old }
    {
        if buffer.is_empty() {
            return Err(Fault::BadCount);
        }
        if !self.row.is_known_to(proc) {
            return Err(Fault::NoRendez);
        }
        let (queue, row, state) = (self.queue, &self.row, &mut self.state);
        let call = Read { queue, row };
        let rendez = row.reader();
        runner.run(rt, proc, rendez, &call, state, buffer, timer, &mut NoProbe)
    }

    /// A `read` that does not wait: `NotYet` where nothing is there yet. Takes no memory.
    ///
    /// Refuses, in this order, as `BadCount` for a buffer of no bytes and as `NoRendez` where the
    /// kernel of the process has too few Rendez for the direction.
    pub fn try_read(&mut self, proc: &mut Proc<'_>, buffer: &mut [u8]) -> Result<TryAnswer, Fault>
        // A buffer of no bytes is refused first, and then a process of a kernel that has too few
        // Rendez for the direction; nothing is done then.
        ensures bad_count { IsErrOf result BadCount ↔ (buffer.old ≡ []) }
        ensures no_rendez { buffer.old ≢ []
            → (IsErrOf result NoRendez ↔ ¬ OwnsRow proc.old.words self.old.row) }
        ensures fault { IfErr result (λ fault. (fault ≡ BadCount) ⊎ (fault ≡ NoRendez)) }
        ensures refused { OnErr result
            (calling self.new proc.new buffer.new ≡ calling self.old proc.old buffer.old) }

        // Otherwise it read and woke so.
        ensures tried { IfOk result (λ answer. Tries (key_of self.old.queue) self.old.row
            (calling self.old proc.old buffer.old) answer
            (calling self.new proc.new buffer.new)) }

        ensures end { IsSameReadEnd self.old self.new }
        ensures words { proc.new.words ≡ proc.old.words }
    {
        if buffer.is_empty() {
            return Err(Fault::BadCount);
        }
        if !self.row.is_known_to(proc) {
            return Err(Fault::NoRendez);
        }
        match ask_for_bytes(self.queue, &self.row, &mut self.state, proc, buffer) {
            Reply::Done(ReadAnswer::Got(count)) => Ok(TryAnswer::Got(count)),
            Reply::Done(ReadAnswer::End) => Ok(TryAnswer::End),
            Reply::Wait(_) => Ok(TryAnswer::NotYet),
            Reply::Refused(_) => unreachable!(),
        }
    }
}

/// A call of read: what it asks of its queue.
#[derive(Drop)]
pub(crate) struct Read<'q> {
    pub(crate) queue: &'q Queue,
    pub(crate) row: &'q Row,
}

impl<'q> WaitingCall for Read<'q> {
    type Seat = ReadState;

    type Out = ReadAnswer;

    ghost ready = { λ call state. IsReadState call.queue.now call.row.now state };

    ghost waits = { λ call state. IsReadState call.queue.now call.row.now state };

    ghost rests = { λ call state. IsReadState call.queue.now call.row.now state };

    ghost fits = { λ call buffer. buffer ≢ [] };

    ghost knows = { λ call words. OwnsRow words call.row.now };

    ghost Sight = { Lending };

    ghost sight = { λ state buffer. lending_with state buffer };

    ghost promise = { λ call. reading (key_of call.queue.now) call.row.now };

    fn begin<R: Wait>(
        &self,
        rt: &R,
        proc: &mut Proc<'_>,
        state: &mut ReadState,
        buffer: &mut [u8],
    ) -> Reply<ReadAnswer> {
        self.ask(rt, proc, state, buffer)
    }

    // A try. Where it took writes out, it wakes each writer.
    #[inline(always)]
    fn ask<R: Wait>(
        &self,
        _rt: &R,
        proc: &mut Proc<'_>,
        state: &mut ReadState,
        buffer: &mut [u8],
    ) -> Reply<ReadAnswer> {
        ask_for_bytes(self.queue, self.row, state, proc, buffer)
    }

    // It reads nothing more.
    fn leave<R: Wait>(&self, _rt: &R, _cursor: &mut ReadState) -> Option<ReadAnswer> {
        None
    }
}

// One request, a try: what is left of a write that was begun, or else the next write, and so on as
// far as it goes. Then it wakes each writer with the number of the last write that it took out.
#[inline(always)]
fn ask_for_bytes(
    queue: &Queue,
    row: &Row,
    state: &mut ReadState,
    proc: &mut Proc<'_>,
    buffer: &mut [u8],
) -> Reply<ReadAnswer>
    requires state { IsReadState queue.now row.now state.old }
    requires kernel { OwnsRow proc.old.words row.now }
    requires room { buffer.old ≢ [] }
    ensures state { IsReadState queue.now row.now state.new }
    ensures words { proc.new.words ≡ proc.old.words }
    ensures room { buffer.new ≢ [] }
    ensures low { IsLow result }
    ensures asked { AsksForBytes (key_of queue.now) row.now
        (point (lending_with state.old buffer.old) proc.old) result
        (point (lending_with state.new buffer.new) proc.new) }
{
    let FillResult { took, came } = fill(queue, row, state, buffer);
    if let Some(number) = took {
        wake_writers(proc, row, number);
    }
    found_by(came)
}

// What a try that came so far found: it got what it has read, and if that is nothing it is told why
// it went no further.
fn found_by(came: ReadOutcome) -> Reply<ReadAnswer>
    ensures { result ≡ found_of came }
{
    match came.stop {
        Stop::NotYet(number) if came.count == 0 => Reply::Wait(number),
        Stop::End if came.count == 0 => Reply::Done(ReadAnswer::End),
        _ => Reply::Done(ReadAnswer::Got(came.count)),
    }
}
