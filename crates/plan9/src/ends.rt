//! More calls of the ends of a pipe: piece by piece, until a buffer is full, and until a moment.
use crate::clock::Watch;
use crate::noting::take_note;
use pipe_dev::{Long, ReadAnswer, ReadEnd, WriteEnd};
use sleep_wakeup::Proc;
use std::alloc::Global;
use std::sync::Wait;
use sync_base::{Fault, Note};
use timer_list::Deadline;

/// How far a `read_exact` came that did not fill its buffer: how many bytes were read into it,
/// before the end of the pipe or this fault.
#[derive(Clone, Copy, Debug, PartialEq, Eq)]
pub struct ShortRead {
    pub count: usize,
    pub fault: Option<Fault>,
}

/// What a read end is called for, beside its own calls.
pub trait ReadCalls {
    /// Reads the next piece into the buffer, as `read` does, and returns how many bytes it has;
    /// `None` where the direction is hung up and all is read. So `while let Some(count) =
    /// end.next_piece(rt, &mut proc, &mut buffer)? {..}` is a loop to the end. It waits. Takes no
    /// memory. Refuses as `read` does.
    fn next_piece<R: Wait>(
        &mut self,
        rt: &R,
        proc: &mut Proc<'_>,
        buffer: &mut [u8],
    ) -> Result<Option<usize>, Fault>;

    /// Reads until the buffer is full, from write to write, also in message mode. Where the pipe
    /// ends before that, or a read is refused, it returns how many bytes came: they are in the
    /// buffer, and the next read goes on after them. It waits. Takes no memory. A buffer of no
    /// bytes is full. After readn in read(2).
    fn read_exact<R: Wait>(
        &mut self,
        rt: &R,
        proc: &mut Proc<'_>,
        buffer: &mut [u8],
    ) -> Result<(), ShortRead>;

    /// A `read` that waits until a tick of the clock at the moment `now` + `ms` or later; that
    /// moment is at most `u64::MAX`. Own; read(2) waits as long as it takes.
    ///
    /// Refuses, in this order, as `BadCount`, `NoRendez` and `DoubleSleep` as `read` does, as
    /// `Interrupted` with the notes that ended the wait, and as `TimedOut` where a tick ended it
    /// and no other note came; a refused read got nothing. With any other answer, other notes that
    /// came are pending again. Where a tick has taken its timer, it takes a note `expired` before
    /// it answers: so no late expiry reaches a later sleep, unless others post that note. Takes no
    /// memory.
    fn read_within<R: Wait>(
        &mut self,
        rt: &R,
        proc: &mut Proc<'_>,
        watch: &mut Watch<'_>,
        now: u64,
        ms: u32,
        buffer: &mut [u8],
    ) -> Result<ReadAnswer, Fault>;

    /// A `read_block` that waits until a tick of the clock at the moment `now` + `ms` or later;
    /// that moment is at most `u64::MAX`. Own; bread of the kernel's devices waits as long as it
    /// takes.
    ///
    /// Refuses, in this order, as `NoRendez` and `DoubleSleep` as `read_block` does, as
    /// `Interrupted` with the notes that ended the wait, and as `TimedOut` where a tick ended it
    /// and no other note came; a refused read got nothing, and the block is as it was. What becomes
    /// of other notes, and of the note of a tick, is as with `read_within`. Takes no memory.
    fn read_block_within<R: Wait>(
        &mut self,
        rt: &R,
        proc: &mut Proc<'_>,
        watch: &mut Watch<'_>,
        now: u64,
        ms: u32,
        block: &mut Vec<u8>,
    ) -> Result<ReadAnswer, Fault>;
}

/// What a write end is called for, beside its own calls.
pub trait WriteCalls {
    /// A `write` that leaves no note where the direction is hung up, so that this note ends no
    /// later wait of the process. It waits, and takes memory, as `write` does.
    ///
    /// Refuses as `write` does. If hung up it takes the note of a write on a closed pipe back, also
    /// a note that was pending before, since a process has at most one of a kind; other notes that
    /// were pending are pending again. After write(2) and notify(2). Own: that a writer takes its
    /// note back.
    fn write_unnoted<R: Wait>(
        &mut self,
        alloc: Global,
        rt: &R,
        proc: &mut Proc<'_>,
        bytes: &[u8],
    ) -> Result<u64, Fault>;

    /// A `write` that waits until a tick of the clock at the moment `now` + `ms` or later; that
    /// moment is at most `u64::MAX`. Memory is taken for the bytes. Own; write(2) waits as long as
    /// it takes.
    ///
    /// Refuses, in this order, as `TooBig`, `NoRendez`, `Memory`, `Hungup`, `Worn` and
    /// `DoubleSleep` as `write` does, as `Interrupted` with the notes that ended the wait, and as
    /// `TimedOut` where a tick ended it and no other note came; a refused write took nothing. With
    /// any other answer, other notes that came are pending again. Where a tick has taken its timer,
    /// it takes a note `expired` before it answers: so no late expiry reaches a later sleep, unless
    /// others post that note.
    fn write_within<R: Wait>(
        &mut self,
        alloc: Global,
        rt: &R,
        proc: &mut Proc<'_>,
        watch: &mut Watch<'_>,
        now: u64,
        ms: u32,
        bytes: &[u8],
    ) -> Result<u64, Fault>;

    /// A `write_long` all of whose writes wait until a tick of the clock at the moment `now` + `ms`
    /// or later; that moment is at most `u64::MAX`. Memory is taken for the bytes. Own; write(2)
    /// waits as long as it takes.
    ///
    /// Refuses, in this order, as `NoRendez` as `write_long` does, before any byte is taken, and
    /// then as the first of its writes that is refused, for which see `write_within`; no write
    /// follows that one, which took nothing. `taken` is how many bytes the writes before it took.
    fn write_long_within<R: Wait>(
        &mut self,
        alloc: Global,
        rt: &R,
        proc: &mut Proc<'_>,
        watch: &mut Watch<'_>,
        now: u64,
        ms: u32,
        bytes: &[u8],
    ) -> Long;
}

impl<'p> ReadCalls for ReadEnd<'p> {
    ghost use Rattle.std.specs.Prelude.{◌≡◌};
    ghost use Rattle.pipe_dev.specs.Ends.{IsSameReadEnd};
    ghost use Rattle.plan9.specs.Callers.{reader};
    ghost use Rattle.plan9.specs.Readings.{FillsUp, ReadsPiece};
    ghost use Rattle.timer_list.specs.Timers.{deadline_of};
    ghost use Rattle.plan9.specs.Within.{ReadsBlockWithin, ReadsWithin, watched_read};
    ghost use Rattle.plan9.specs.Watches.{IsSameWatch};

    #[tactic(auto, using(crate::proofs::ReadingLemmas::piece_lies))]
    #[inline(always)]
    fn next_piece<R: Wait>(
        &mut self,
        rt: &R,
        proc: &mut Proc<'_>,
        buffer: &mut [u8],
    ) -> Result<Option<usize>, Fault>
        ensures { ReadsPiece (reader self.old proc.old) buffer.old result
            (reader self.new proc.new) buffer.new }
    {
        match self.read(rt, proc, buffer) {
            Ok(ReadAnswer::Got(count)) => Ok(Some(count)),
            Ok(ReadAnswer::End) => Ok(None),
            Err(fault) => Err(fault),
        }
    }

    fn read_exact<R: Wait>(
        &mut self,
        rt: &R,
        proc: &mut Proc<'_>,
        buffer: &mut [u8],
    ) -> Result<(), ShortRead>
        ensures { FillsUp (reader self.old proc.old) buffer.old result
            (reader self.new proc.new) buffer.new }
    {
        let mut count = 0;
        'reading: for _ in rt.forever() {
            if count == buffer.len() {
                return Ok(());
            }
            match self.next_piece(rt, proc, &mut buffer[count..]) {
                Ok(Some(more)) => count += more,
                Ok(None) => return Err(ShortRead { count, fault: None }),
                Err(fault) => {
                    return Err(ShortRead {
                        count,
                        fault: Some(fault),
                    });
                }
            }
        }
        unreachable!()
    }

    fn read_within<R: Wait>(
        &mut self,
        rt: &R,
        proc: &mut Proc<'_>,
        watch: &mut Watch<'_>,
        now: u64,
        ms: u32,
        buffer: &mut [u8],
    ) -> Result<ReadAnswer, Fault>
        ensures read { ReadsWithin (deadline_of now ms)
            (watched_read (reader self.old proc.old) buffer.old watch.old) result
            (watched_read (reader self.new proc.new) buffer.new watch.new) }
        ensures end { IsSameReadEnd self.old self.new }
        ensures words { proc.new.words ≡ proc.old.words }
        ensures watch { IsSameWatch watch.old watch.new }
    {
        let until = Deadline {
            timers: watch.timers,
            from: now,
            ms,
        };
        self.read_by(rt, proc, buffer, &until, &mut watch.seat)
    }

    fn read_block_within<R: Wait>(
        &mut self,
        rt: &R,
        proc: &mut Proc<'_>,
        watch: &mut Watch<'_>,
        now: u64,
        ms: u32,
        block: &mut Vec<u8>,
    ) -> Result<ReadAnswer, Fault>
        ensures read { ReadsBlockWithin (deadline_of now ms)
            (watched_read (reader self.old proc.old) block.old.items watch.old) result
            (watched_read (reader self.new proc.new) block.new.items watch.new) }
        ensures end { IsSameReadEnd self.old self.new }
        ensures words { proc.new.words ≡ proc.old.words }
        ensures watch { IsSameWatch watch.old watch.new }
    {
        let until = Deadline {
            timers: watch.timers,
            from: now,
            ms,
        };
        self.read_block_by(rt, proc, block, &until, &mut watch.seat)
    }
}

impl<'p> WriteCalls for WriteEnd<'p> {
    ghost use Rattle.std.specs.Prelude.{◌≡◌};
    ghost use Rattle.pipe_dev.specs.Ends.{IsSameWriteEnd};
    ghost use Rattle.plan9.specs.Callers.{writer};
    ghost use Rattle.plan9.specs.Notings.{WritesUnnoted};
    ghost use Rattle.timer_list.specs.Timers.{deadline_of};
    ghost use Rattle.plan9.specs.Within.{WritesLongWithin, WritesWithin, watched_write};
    ghost use Rattle.plan9.specs.Watches.{IsSameWatch};

    #[inline(always)]
    fn write_unnoted<R: Wait>(
        &mut self,
        alloc: Global,
        rt: &R,
        proc: &mut Proc<'_>,
        bytes: &[u8],
    ) -> Result<u64, Fault>
        ensures { WritesUnnoted (writer self.old proc.old) bytes.now result
            (writer self.new proc.new) }
    {
        match self.write(alloc, rt, proc, bytes) {
            Err(Fault::Hungup) => {
                take_note(proc, Note::ClosedPipe);
                Err(Fault::Hungup)
            }
            answer => answer,
        }
    }

    fn write_within<R: Wait>(
        &mut self,
        alloc: Global,
        rt: &R,
        proc: &mut Proc<'_>,
        watch: &mut Watch<'_>,
        now: u64,
        ms: u32,
        bytes: &[u8],
    ) -> Result<u64, Fault>
        ensures wrote { WritesWithin (deadline_of now ms)
            (watched_write (writer self.old proc.old) watch.old) bytes.now result
            (watched_write (writer self.new proc.new) watch.new) }
        ensures end { IsSameWriteEnd self.old self.new }
        ensures words { proc.new.words ≡ proc.old.words }
        ensures watch { IsSameWatch watch.old watch.new }
    {
        let until = Deadline {
            timers: watch.timers,
            from: now,
            ms,
        };
        self.write_by(alloc, rt, proc, bytes, &until, &mut watch.seat)
    }

    fn write_long_within<R: Wait>(
        &mut self,
        alloc: Global,
        rt: &R,
        proc: &mut Proc<'_>,
        watch: &mut Watch<'_>,
        now: u64,
        ms: u32,
        bytes: &[u8],
    ) -> Long
        ensures wrote { WritesLongWithin (deadline_of now ms)
            (watched_write (writer self.old proc.old) watch.old) bytes.now result
            (watched_write (writer self.new proc.new) watch.new) }
        ensures end { IsSameWriteEnd self.old self.new }
        ensures words { proc.new.words ≡ proc.old.words }
        ensures watch { IsSameWatch watch.old watch.new }
    {
        let until = Deadline {
            timers: watch.timers,
            from: now,
            ms,
        };
        self.write_long_by(alloc, rt, proc, bytes, &until, &mut watch.seat)
    }
}
