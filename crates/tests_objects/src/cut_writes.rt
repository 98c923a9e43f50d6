//! A long write and the hangup that cuts it, each on a thread of its own, at one direction of a
//! pipe: what is read then, and what the direction still holds.
ghost use Rattle.std.specs.Prelude.{◌≡◌, ◌∷◌, []};
ghost use Rattle.pipe_dev.specs.Ends.{IsSameReadEnd, IsSameWriteEnd};

use crate::finishes::{Left, Line, is_left, line_of, pipe_of};
use pipe_dev::{Held, Opened as OpenedPipe, ReadAnswer, ReadEnd, WriteEnd};
use sleep_wakeup::{Kernel, Opened, Proc, Started};
use std::alloc::Global;
use std::process::Abort;
use std::sync::Wait;
use std::thread::{Threads, join_mut};
use sync_base::{Fault, Flags, Mode, Note, NoteSet};

/// How many bytes are written, and how many of them at a time.
const LONG: usize = 140_000;

const AT_A_TIME: usize = 65_536;

/// The reader, and whether each of its calls was answered as it is to be.
#[derive(Drop)]
struct Reader<'p> {
    end: ReadEnd<'p>,
    proc: Proc<'p>,
    room: Vec<u8>,
    good: bool,
}

impl Reader<'_> {
    // Sleeps until bytes are taken, hangs up, and only then reads: what was taken, and then the end
    // twice.
    #[tactic(auto, using(crate::proofs::EndLemmas::read_on))]
    fn cuts<R: Wait>(&mut self, rt: &R)
        ensures end { IsSameReadEnd self.old.end self.new.end }
    {
        let rendez = self.end.rendez();
        let is_woken = self.proc.sleep(rt, rendez, 0) == Ok(());
        self.end.hangup(&mut self.proc);
        let got = reads(rt, &mut self.end, &mut self.proc, &mut self.room);
        let ended = reads(rt, &mut self.end, &mut self.proc, &mut self.room);
        let again = reads(rt, &mut self.end, &mut self.proc, &mut self.room);
        let end = Ok(ReadAnswer::End);
        self.good = is_woken
            && got == Ok(ReadAnswer::Got(AT_A_TIME))
            && ended == end
            && again == end;
        self.good = self.good && are_long(self.room.as_slice());
    }
}

// A read with room for as many bytes as are written at a time.
fn reads<R: Wait>(
    rt: &R,
    end: &mut ReadEnd<'_>,
    proc: &mut Proc<'_>,
    room: &mut Vec<u8>,
) -> Result<ReadAnswer, Fault>
    ensures end { IsSameReadEnd end.old end.new }
{
    end.read(rt, proc, room.as_mut_slice())
}

/// The writer, and whether its call was answered as it is to be.
#[derive(Drop)]
struct Writer<'p> {
    end: WriteEnd<'p>,
    proc: Proc<'p>,
    bytes: Vec<u8>,
    good: bool,
}

impl Writer<'_> {
    // A long write whose first piece alone is taken, and the note of a closed pipe.
    fn is_cut<R: Wait>(&mut self, rt: &R, alloc: Global)
        ensures end { IsSameWriteEnd self.old.end self.new.end }
    {
        let bytes = self.bytes.as_slice();
        let long = self.end.write_long(alloc, rt, &mut self.proc, bytes);
        let is_first = long.taken == AT_A_TIME as u64 && long.fault == Some(Fault::Hungup);
        self.good = is_first && self.proc.notes() == NoteSet::of(Note::ClosedPipe);
    }
}

// Whether all are bytes of the long write.
fn are_long(bytes: &[u8]) -> bool {
    bytes.iter().all(|byte| *byte == b'g')
}

// So many bytes.
fn bytes_of(rt: &impl Abort, alloc: Global, byte: u8, count: usize) -> Vec<u8> {
    vec![in alloc; byte; count]
        .ok()
        .expect(rt, "no memory for bytes")
}

/// Both of a direction.
#[derive(Drop)]
struct Both<'p> {
    reader: Reader<'p>,
    writer: Writer<'p>,
}

// Both at once. The ends are lent to the threads.
fn cut_at_once<'p, R: Threads + Wait + Sync>(rt: &R, alloc: Global, both: Both<'p>) -> Both<'p>
    ensures read { IsSameReadEnd both.entry.reader.end result.reader.end }
    ensures write { IsSameWriteEnd both.entry.writer.end result.writer.end }
{
    let Both {
        mut reader,
        mut writer,
    } = both;
    join_mut(
        rt,
        &mut ||
            ensures end { IsSameReadEnd reader.entry.end reader.exit.end }
        { reader.cuts(rt) },
        &mut ||
            ensures end { IsSameWriteEnd writer.entry.end writer.exit.end }
        { writer.is_cut(rt, alloc) },
    );
    Both { reader, writer }
}

// The ends afterwards, if each call was answered as it is to be. They are those of one direction
// still.
#[tactic(auto, using(crate::proofs::EndLemmas::still_both))]
fn cut<'p, R: Threads + Wait + Abort + Sync>(
    rt: &R,
    alloc: Global,
    line: Line<'p, 'p>,
    other: Proc<'p>,
) -> Option<Line<'p, 'p>> {
    let Line { read, write, proc } = line;
    let reader = Reader {
        end: read,
        proc,
        room: bytes_of(rt, alloc, 0, AT_A_TIME),
        good: false,
    };
    let writer = Writer {
        end: write,
        proc: other,
        bytes: bytes_of(rt, alloc, b'g', LONG),
        good: false,
    };
    let Both { reader, writer } = cut_at_once(rt, alloc, Both { reader, writer });
    let good = reader.good && writer.good;
    let line = Line {
        read: reader.end,
        write: writer.end,
        proc: reader.proc,
    };
    if good { Some(line) } else { None }
}

// What the direction of a pipe for one write holds after the cut, if each call was answered as it
// is to be.
fn held_at<R: Threads + Wait + Abort + Sync>(
    rt: &R,
    alloc: Global,
    started: Started<'_>,
) -> Option<Held> {
    let Started {
        mut roster,
        mut proc,
    } = started;
    let Ok(Some(other)) = roster.rfork(&mut proc, Flags::RFPROC) else {
        return None;
    };
    let Ok(OpenedPipe { pipe, start }) = pipe_of(alloc, &mut roster, Mode::Message, 1) else {
        return None;
    };
    match line_of(&pipe, start, proc) {
        Some(line) => held_of(rt, alloc, line, other),
        None => None,
    }
}

fn held_of<'p, R: Threads + Wait + Abort + Sync>(
    rt: &R,
    alloc: Global,
    line: Line<'p, 'p>,
    other: Proc<'p>,
) -> Option<Held> {
    match cut(rt, alloc, line, other) {
        Some(line) => line.finish(alloc),
        None => None,
    }
}

fn held_after_a_cut<R: Threads + Wait + Abort + Sync>(rt: &R, alloc: Global) -> Option<Held> {
    match Kernel::new(alloc, 2, 4) {
        Ok(Opened { kernel, start }) => held_at(rt, alloc, kernel.start(start)),
        Err(_) => None,
    }
}

const NOTHING: Left = Left {
    hung: true,
    rest: b"",
    writes: &[],
};

#[test]
fn a_hangup_cuts_a_long_write_and_nothing_is_held(rt: HostRuntime) {
    match held_after_a_cut(&rt, rt.alloc()) {
        Some(held) => assert!(rt; is_left(&held, &NOTHING)),
        None => panic!(rt; "a call was not answered so"),
    }
}
