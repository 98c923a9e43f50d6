//! The ends of a pipe as std's `Read` and `Write`, for code that knows no pipes. Those calls have
//! no room for a process, so a stream holds one beside its end.
ghost use Rattle.std.specs.Prelude.{◌≡◌, None};
ghost use Rattle.plan9.specs.Streams.{kind_of as kind};

use crate::ends::ReadCalls;
use pipe_dev::{ReadEnd, WriteEnd};
use sleep_wakeup::Proc;
use std::alloc::Global;
use std::io::{self, ErrorKind, Read, Write};
use std::sync::Wait;
use sync_base::Fault;
use sync_base::limits::ATOMIC_SIZE;

/// A read end as std's `Read`, with the process that reads. Both may be taken out again.
#[derive(Drop)]
pub struct ReadStream<'r, 'p, 'k, R> {
    pub rt: &'r R,
    pub end: ReadEnd<'p>,
    pub proc: Proc<'k>,
    /// The fault of the last call that failed: an `io::Error` has only its kind.
    pub fault: Option<Fault>,
}

/// A write end as std's `Write`, with the process that writes. Both may be taken out again.
#[derive(Drop)]
pub struct WriteStream<'r, 'p, 'k, R> {
    pub alloc: Global,
    pub rt: &'r R,
    pub end: WriteEnd<'p>,
    pub proc: Proc<'k>,
    /// The fault of the last call that failed: an `io::Error` has only its kind.
    pub fault: Option<Fault>,
}

impl<'r, 'p, 'k, R> ReadStream<'r, 'p, 'k, R> {
    /// A stream from this end, read by this process. Takes no memory and doesn't wait.
    pub fn new(rt: &'r R, end: ReadEnd<'p>, proc: Proc<'k>) -> ReadStream<'r, 'p, 'k, R>
        ensures end { result.end ≡ end.entry }
        ensures proc { result.proc ≡ proc.entry }
        ensures fault { result.fault ≡ None }
    {
        ReadStream {
            rt,
            end,
            proc,
            fault: None,
        }
    }
}

impl<'r, 'p, 'k, R> WriteStream<'r, 'p, 'k, R> {
    /// A stream into this end, written by this process. Takes no memory and doesn't wait.
    pub fn new(
        alloc: Global,
        rt: &'r R,
        end: WriteEnd<'p>,
        proc: Proc<'k>,
    ) -> WriteStream<'r, 'p, 'k, R>
        ensures end { result.end ≡ end.entry }
        ensures proc { result.proc ≡ proc.entry }
        ensures fault { result.fault ≡ None }
    {
        WriteStream {
            alloc,
            rt,
            end,
            proc,
            fault: None,
        }
    }
}

// The kind of error that a fault is. Notes are of the kind `Other`: std's calls pass over an
// `Interrupted` and try again, and so the notes would be lost.
fn kind_of(fault: Fault) -> ErrorKind
    ensures { result ≡ kind fault }
{
    match fault {
        Fault::Memory => ErrorKind::OutOfMemory,
        Fault::Hungup => ErrorKind::BrokenPipe,
        Fault::DoubleSleep => ErrorKind::ResourceBusy,
        _ => ErrorKind::Other,
    }
}

impl<'r, 'p, 'k, R: Wait> Read for ReadStream<'r, 'p, 'k, R> {
    ghost use Rattle.std.specs.Prelude.{◌≡◌, None, OnOk};
    ghost use Rattle.std.specs.Io.{ReadsAtMost};
    ghost use Rattle.std.specs.Io.KnownBytes.{ReadConsumes};
    ghost use Rattle.plan9.specs.Streams.{Streams, lent};

    /// Reads as `ReadCalls::next_piece`, and returns no bytes at the end alone: empty writes are
    /// passed. A buffer of no bytes gets none, and nothing is read. It waits. Takes no memory. A
    /// fault is in `fault`, which a read that succeeds leaves as it was. The error then is
    /// `OutOfMemory`, `BrokenPipe` for `Hungup`, `ResourceBusy` for `DoubleSleep`, and else
    /// `Other`, also where notes ended the wait.
    fn read(&mut self, buf: &mut [u8]) -> io::Result<usize>
        ensures bound { ReadsAtMost result buf.new }
        ensures bytes { ReadConsumes None None result buf.new }
        ensures reads { Streams (lent self.old.end self.old.proc buf.old) result self.new.fault
            (lent self.new.end self.new.proc buf.new) }
        ensures kept { OnOk result (self.new.fault ≡ self.old.fault) }
    {
        if buf.is_empty() {
            return Ok(0);
        }
        'reading: for _ in self.rt.forever() {
            match self.end.next_piece(self.rt, &mut self.proc, buf) {
                Ok(Some(0)) => {}
                Ok(Some(count)) => return Ok(count),
                Ok(None) => return Ok(0),
                Err(fault) => {
                    self.fault = Some(fault);
                    return Err(io::Error::from(kind_of(fault)));
                }
            }
        }
        unreachable!()
    }
}

impl<'r, 'p, 'k, R: Wait> Write for WriteStream<'r, 'p, 'k, R> {
    ghost use Rattle.std.specs.Prelude.{◌≡◌, None, OnOk, OnErr};
    ghost use Rattle.std.specs.Io.{WritesAtMost};
    ghost use Rattle.std.specs.Io.KnownBytes.{WriteAppends};
    ghost use Rattle.plan9.specs.Callers.{writer};
    ghost use Rattle.plan9.specs.Streams.{StreamsOut};

    /// Writes the first 65,536 bytes, or all where there are fewer, as one write, and returns how
    /// many; no bytes are no write. It waits, and takes memory, as `WriteEnd::write`. A fault is
    /// kept, and the error chosen, as in `ReadStream`.
    #[tactic(auto, using(crate::proofs::StreamLemmas::writes_front))]
    fn write(&mut self, buf: &[u8]) -> io::Result<usize>
        ensures bound { WritesAtMost result buf.now }
        ensures bytes { WriteAppends None None result buf.now }
        ensures writes { StreamsOut (writer self.old.end self.old.proc) buf.now result
            self.new.fault (writer self.new.end self.new.proc) }
        ensures kept { OnOk result (self.new.fault ≡ self.old.fault) }
    {
        let count = buf.len().min(ATOMIC_SIZE as usize);
        if count == 0 {
            return Ok(0);
        }
        match self
            .end
            .write(self.alloc, self.rt, &mut self.proc, &buf[..count])
        {
            Ok(_) => Ok(count),
            Err(fault) => {
                self.fault = Some(fault);
                Err(io::Error::from(kind_of(fault)))
            }
        }
    }

    /// Nothing is held back, so this does nothing. Takes no memory and doesn't wait.
    fn flush(&mut self) -> io::Result<()>
        ensures same { self.new ≡ self.old }
        ensures done { OnErr result ⊥ }
    {
        Ok(())
    }
}
