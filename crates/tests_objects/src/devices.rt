//! Scripts on streams that fail as those of the system can't: with each kind of error, also in a
//! flush. `tests/programs/devices` tries on the program what the system can do.
use scripts::device::write_whole;
use scripts::{run_pipe, run_replay};
use std::alloc::Global;
use std::io;
use std::io::{Error, ErrorKind, Read, Write};
use std::process::Abort;
use sync_base::Fault;

#[derive(Clone, Copy, PartialEq, Eq)]
enum Call {
    Read,
    Write,
    Flush,
}

/// What is played, and which calls fail: `times` calls in a row, from the one with the number
/// `first` on, counted from 1. A read gives at most 20 bytes, a write takes at most `takes`.
#[derive(Clone, Copy)]
struct Run<'a> {
    text: &'a [u8],
    takes: usize,
    call: Call,
    first: usize,
    times: usize,
    kind: ErrorKind,
    /// The write that takes nothing, counted from 1; 0 where each write takes some bytes.
    nothing_at: usize,
}

impl<'a> Run<'a> {
    fn new(text: &'a [u8], takes: usize, call: Call, first: usize, kind: ErrorKind) -> Run<'a> {
        Run {
            text,
            takes,
            call,
            first,
            times: 1,
            kind,
            nothing_at: 0,
        }
    }

    // Counts a call, which may fail.
    fn count(&self, call: Call, made: &mut usize) -> io::Result<()> {
        *made = made.saturating_add(1);
        if call == self.call && self.first <= *made && *made - self.first < self.times {
            return Err(Error::from(self.kind));
        }
        Ok(())
    }
}

#[derive(Drop)]
struct Reader<'a> {
    run: Run<'a>,
    reads: usize,
}

impl Read for Reader<'_> {
    fn read(&mut self, buf: &mut [u8]) -> io::Result<usize> {
        self.run.count(Call::Read, &mut self.reads)?;
        let count = self.run.text.len().min(20).min(buf.len());
        let (given, rest) = self.run.text.split_at(count);
        buf[..count].copy_from_slice(given);
        self.run.text = rest;
        Ok(count)
    }
}

/// Keeps what it took.
#[derive(Drop)]
struct Writer<'a> {
    run: Run<'a>,
    held: Vec<u8>,
    writes: usize,
    flushes: usize,
    /// Whether nothing was written since the last flush that went well.
    is_flushed: bool,
}

impl Write for Writer<'_> {
    fn write(&mut self, buf: &[u8]) -> io::Result<usize> {
        self.run.count(Call::Write, &mut self.writes)?;
        let takes_some = self.writes != self.run.nothing_at;
        let count = if takes_some {
            buf.len().min(self.run.takes)
        } else {
            0
        };
        if self.held.extend_from_slice(&buf[..count]).is_err() {
            return Err(Error::from(ErrorKind::OutOfMemory));
        }
        self.is_flushed = self.is_flushed && count == 0;
        Ok(count)
    }

    fn flush(&mut self) -> io::Result<()> {
        self.run.count(Call::Flush, &mut self.flushes)?;
        self.is_flushed = true;
        Ok(())
    }
}

/// How a run ended; how often it read, wrote and flushed; how many bytes of its answers it wrote.
#[derive(Clone, Copy, Debug, PartialEq, Eq)]
struct Came {
    outcome: Result<(), Fault>,
    calls: [usize; 3],
    front: usize,
    is_flushed: bool,
}

// Plays a run, which writes nothing but a front of its answers. A report is written as it is.
fn play(rt: &impl Abort, alloc: Global, run: Run<'_>, answers: &[u8]) -> Came {
    let mut from = Reader { run, reads: 0 };
    let mut out = Writer {
        run,
        held: Vec::new(alloc),
        writes: 0,
        flushes: 0,
        is_flushed: true,
    };
    let outcome = match run.text {
        [b'l', ..] => run_pipe(alloc, &mut from, &mut out),
        [b'w', b'o', ..] => run_replay(alloc, &mut from, &mut out),
        report => write_whole(&mut out, report),
    };
    assert!(rt; answers.starts_with(out.held.as_slice()));
    Came {
        outcome,
        calls: [from.reads, out.writes, out.flushes],
        front: out.held.len(),
        is_flushed: out.is_flushed,
    }
}

// What comes of a run of which a call failed. What it wrote was not flushed.
fn fallen(calls: [usize; 3], front: usize) -> Came {
    Came {
        outcome: Err(Fault::Device),
        calls,
        front,
        is_flushed: front == 0,
    }
}

const SCRIPT: &[u8] = b"limit 2\nwrite 0 616263\nread 8\nfrob\n";

const ANSWERS: &[u8] = b"taken\ngot 616263\n";

fn is_so(rt: &impl Abort, came: Came, wanted: Came) {
    assert_eq!(rt; came, wanted);
}

// Plays a run, and this comes of it.
fn comes_to(rt: &impl Abort, alloc: Global, run: Run<'_>, answers: &[u8], wanted: Came) {
    is_so(rt, play(rt, alloc, run, answers), wanted);
}

// The reads of the script give 20 bytes, 15, and none at the end. Its answers take four writes of
// 5 bytes. A fault of the device hides the script's.
fn fail_each_call(rt: &impl Abort, alloc: Global, kind: ErrorKind) {
    for call in 1..4 {
        let run = Run::new(SCRIPT, 64, Call::Read, call, kind);
        comes_to(rt, alloc, run, b"", fallen([call, 0, 0], 0));
    }
    for call in 1..5 {
        let run = Run::new(SCRIPT, 5, Call::Write, call, kind);
        let wanted = fallen([3, call, 0], 5 * (call - 1));
        comes_to(rt, alloc, run, ANSWERS, wanted);
    }
    let run = Run::new(SCRIPT, 64, Call::Flush, 1, kind);
    comes_to(rt, alloc, run, ANSWERS, fallen([3, 1, 1], 17));
}

// The kinds of the system's numbers, and those that have none.
fn kind_at(number: i32) -> ErrorKind {
    match number {
        134 => ErrorKind::InvalidData,
        135 => ErrorKind::WriteZero,
        136 => ErrorKind::UnexpectedEof,
        137 => ErrorKind::Other,
        _ => Error::from_raw_os_error(number).kind(),
    }
}

#[test]
fn a_failed_call_is_a_fault_whichever_its_kind(rt: HostRuntime) {
    for number in 1..138 {
        let kind = kind_at(number);
        if kind != ErrorKind::Interrupted {
            fail_each_call(&rt, rt.alloc(), kind);
        }
    }
}

// Where this many flushes in a row are interrupted all answers are written and flushed.
fn interrupt_flushes(rt: &impl Abort, alloc: Global, takes: usize, times: usize) {
    let run = Run {
        times,
        ..Run::new(SCRIPT, takes, Call::Flush, 1, ErrorKind::Interrupted)
    };
    let came = play(rt, alloc, run, ANSWERS);
    let [_, _, flushes] = came.calls;
    assert_eq!(rt;
        (came.outcome, flushes),
        (Err(Fault::Script(4)), times.saturating_add(1))
    );
    assert!(rt; came.front == 17 && came.is_flushed);
}

#[test]
fn an_interrupted_flush_is_tried_again(rt: HostRuntime) {
    for takes in [1, 6, 16] {
        for times in [0, 1, 5] {
            interrupt_flushes(&rt, rt.alloc(), takes, times);
        }
    }
}

#[test]
fn nothing_to_write_needs_no_writer(rt: HostRuntime) {
    for call in [Call::Write, Call::Flush] {
        let run = Run::new(b"limit 2\nfrob\n", 0, call, 1, ErrorKind::Other);
        let wanted = Came {
            outcome: Err(Fault::Script(2)),
            ..fallen([2, 0, 0], 0)
        };
        comes_to(&rt, rt.alloc(), run, b"", wanted);
    }
}

// Fails each flush in turn, of so many pieces: its piece was written whole, and nothing after it
// is; of what is taken byte by byte the same is written.
fn fail_each_flush(rt: &impl Abort, alloc: Global, text: &[u8], answers: &[u8], pieces: usize) {
    for flush in 1..=pieces {
        let run = Run::new(text, usize::MAX, Call::Flush, flush, ErrorKind::StorageFull);
        let came = play(rt, alloc, run, answers);
        let [reads, _, _] = came.calls;
        let is_last = flush == pieces;
        is_so(rt, came, fallen([reads, flush, flush], came.front));
        assert_eq!(rt; came.front == answers.len(), is_last);
        assert!(rt; is_last || came.front >= flush.saturating_mul(65_536));
        let by_bytes = Run { takes: 1, ..run };
        comes_to(
            rt,
            alloc,
            by_bytes,
            answers,
            fallen([reads, came.front, flush], came.front),
        );
    }
}

// Parts after one another, so many times.
fn push(rt: &impl Abort, all: &mut Vec<u8>, parts: &[&[u8]], times: usize) {
    for _ in 0..times {
        for part in parts {
            if all.extend_from_slice(part).is_err() {
                panic!(rt; "no memory for a script");
            }
        }
    }
}

// 400 messages of 250 bytes are written and read back: 204,400 bytes of answers.
#[test]
fn a_pipe_with_long_answers_fails_at_each_flush(rt: HostRuntime) {
    let mut script = Vec::new(rt.alloc());
    let mut answers = Vec::new(rt.alloc());
    let message = [b'5'; 500];
    push(&rt, &mut script, &[b"limit 1\n"], 1);
    push(
        &rt,
        &mut script,
        &[b"write 0 ", &message, b"\nread 250\n"],
        400,
    );
    push(&rt, &mut answers, &[b"taken\ngot ", &message, b"\n"], 400);
    assert_eq!(rt; answers.len(), 204_400);
    fail_each_flush(&rt, rt.alloc(), &script, &answers, 4);
}

// 8,000 notes are sent and taken up: 200,008 bytes of answers.
#[test]
fn a_schedule_with_long_answers_fails_at_each_flush(rt: HostRuntime) {
    let mut script = Vec::new(rt.alloc());
    let mut answers = Vec::new(rt.alloc());
    push(&rt, &mut script, &[b"world 1 1\n"], 1);
    push(
        &rt,
        &mut script,
        &[b"note 0 hangup,alarm\ndrain 0\n"],
        8_000,
    );
    push(&rt, &mut answers, &[b"noted\nnotes hangup,alarm\n"], 8_000);
    push(&rt, &mut answers, &[b"lost no\n"], 1);
    assert_eq!(rt; answers.len(), 200_008);
    fail_each_flush(&rt, rt.alloc(), &script, &answers, 4);
}

// Of what is written the device takes nothing of the last byte, once.
fn take_no_last_byte(rt: &impl Abort, alloc: Global, report: &[u8]) {
    let front = report.len().saturating_sub(1);
    let run = Run {
        nothing_at: if front == 0 { 1 } else { 2 },
        ..Run::new(report, front.max(1), Call::Read, 1, ErrorKind::Other)
    };
    let wanted = fallen([0, run.nothing_at, 0], front);
    comes_to(rt, alloc, run, report, wanted);
}

#[test]
fn a_report_of_each_length_fails_at_its_end(rt: HostRuntime) {
    let report = b"writers 2 writes 6 bytes 96 in order\n";
    for length in 1..=report.len() {
        fail_each_flush(&rt, rt.alloc(), &report[..length], &report[..length], 1);
        take_no_last_byte(&rt, rt.alloc(), &report[..length]);
    }
}
