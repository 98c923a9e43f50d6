//! The ends of a direction that are given back: what was written and read before, in whose memory,
//! and what the direction still held then. Where memory is refused it is asked for once more.
ghost use Rattle.std.specs.Prelude.{◌∷◌, [], IfOk};
ghost use Rattle.pipe_dev.specs.Ends.{AreAllEnds};
ghost use Rattle.pipe_dev.specs.Openings.{IsStartOf as IsPipeStart};
ghost use Rattle.sleep_wakeup.specs.Starts.{IsStartOf};

use crate::lone_rings::room_for_one;
use pipe_dev::{
    Ends, Held, Opened as OpenedPipe, Parts, Pipe, PipeStart, ReadAnswer, ReadEnd, TryAnswer,
    Unfinished, WriteEnd, finish,
};
use sleep_wakeup::{Kernel, Opened, Proc, Roster, Started};
use std::alloc::Global;
use std::process::Abort;
use std::sync::Wait;
use sync_base::limits::MAX_PIPE_LIMIT;
use sync_base::{Fault, Mode};

/// Bytes: these, or so many of one.
#[derive(Clone, Copy)]
enum Bytes {
    These(&'static [u8]),
    Run(usize, u8),
}

impl Bytes {
    // A vector of them.
    fn to_vec(self, alloc: Global) -> Option<Vec<u8>> {
        match self {
            These(bytes) => bytes.to_vec(alloc).ok(),
            Run(count, byte) => vec![in alloc; byte; count].ok(),
        }
    }

    // Whether these are they.
    fn are(self, bytes: &[u8]) -> bool {
        match self {
            These(wanted) => bytes == wanted,
            Run(count, byte) => bytes.len() == count && bytes.iter().all(|it| *it == byte),
        }
    }
}

/// What is done at a direction with one writer.
#[derive(Clone, Copy)]
enum Deed {
    /// A write that is taken, and its number.
    Writes(Bytes, u64),
    /// A write that is refused, because the direction is hung up.
    IsRefused(Bytes),
    /// A read with room for so many bytes, and what it gets.
    Reads(usize, Bytes),
    /// A read of a block with a block that has room for so many bytes: what it gets, and how many
    /// bytes the block has room for that it gets. The numbers tell the blocks apart.
    ReadsBlock(usize, Bytes, usize),
    /// A read that finds nothing yet, and one that finds the end.
    FindsNothing,
    Ends,
    ReaderHangsUp,
    WriterHangsUp,
}

use Bytes::{Run, These};
use Deed::{FindsNothing, IsRefused, ReaderHangsUp, Reads, ReadsBlock, WriterHangsUp, Writes};

/// What a direction still held: whether it was hung up, what was left of a write that was begun,
/// and each write that no read had begun, with its writer.
#[derive(Clone, Copy)]
pub struct Left {
    pub hung: bool,
    pub rest: &'static [u8],
    pub writes: &'static [(u64, &'static [u8])],
}

/// A direction with one writer, what is done at it, and what it holds at last.
#[derive(Clone, Copy)]
struct Life {
    mode: Mode,
    limit: u64,
    deeds: &'static [Deed],
    left: Left,
}

/// All ends of a direction with one writer, and the process that calls at them.
#[derive(Drop)]
pub struct Line<'p, 'k> {
    pub read: ReadEnd<'p>,
    pub write: WriteEnd<'p>,
    pub proc: Proc<'k>,
    ghost all: { AreAllEnds read (write ∷ []) },
}

impl Line<'_, '_> {
    // Whether it comes to what it is to.
    fn does<R: Wait>(&mut self, rt: &R, alloc: Global, deed: Deed) -> bool {
        match deed {
            Writes(bytes, number) => self.writes(rt, alloc, bytes) == Some(Ok(number)),
            IsRefused(bytes) => self.writes(rt, alloc, bytes) == Some(Err(Fault::Hungup)),
            Reads(room, bytes) => self.gets(rt, alloc, room, bytes),
            ReadsBlock(room, bytes, had) => self.gets_block(rt, alloc, room, bytes, had),
            FindsNothing => matches!(self.tries(), Ok(TryAnswer::NotYet)),
            Deed::Ends => matches!(self.tries(), Ok(TryAnswer::End)),
            ReaderHangsUp => {
                self.hang_read();
                true
            }
            WriterHangsUp => {
                self.hang_write();
                true
            }
        }
    }

    // The answer of a write of these bytes, if there is memory for them.
    fn writes<R: Wait>(
        &mut self,
        rt: &R,
        alloc: Global,
        bytes: Bytes,
    ) -> Option<Result<u64, Fault>> {
        let bytes = match bytes.to_vec(alloc) {
            None => bytes.to_vec(alloc)?,
            Some(bytes) => bytes,
        };
        match self.write_once(rt, alloc, bytes.as_slice()) {
            Err(Fault::Memory) => Some(self.write_once(rt, alloc, bytes.as_slice())),
            answer => Some(answer),
        }
    }

    // A write, whose bytes may be refused memory.
    #[tactic(auto, using(crate::proofs::EndLemmas::still_written))]
    fn write_once<R: Wait>(&mut self, rt: &R, alloc: Global, bytes: &[u8]) -> Result<u64, Fault> {
        self.write.write(alloc, rt, &mut self.proc, bytes)
    }

    // Whether a read with so much room gets just these bytes.
    fn gets<R: Wait>(&mut self, rt: &R, alloc: Global, room: usize, bytes: Bytes) -> bool {
        let made = match Run(room, 0).to_vec(alloc) {
            None => Run(room, 0).to_vec(alloc),
            made => made,
        };
        let Some(mut buffer) = made else {
            return false;
        };
        match self.read_once(rt, buffer.as_mut_slice()) {
            Ok(ReadAnswer::Got(count)) => match buffer.get(..count) {
                Some(got) => bytes.are(got),
                None => false,
            },
            _ => false,
        }
    }

    // A read, which takes no memory.
    #[tactic(auto, using(crate::proofs::EndLemmas::still_read))]
    fn read_once<R: Wait>(&mut self, rt: &R, buffer: &mut [u8]) -> Result<ReadAnswer, Fault> {
        self.read.read(rt, &mut self.proc, buffer)
    }

    // Whether a read with a block of so much room gets just these bytes, in a block that has room
    // for so many.
    fn gets_block<R: Wait>(
        &mut self,
        rt: &R,
        alloc: Global,
        room: usize,
        bytes: Bytes,
        had: usize,
    ) -> bool {
        let made = match Vec::with_capacity(alloc, room) {
            Err(_) => Vec::with_capacity(alloc, room),
            made => made,
        };
        let Ok(mut block) = made else {
            return false;
        };
        let is_got = self.read_block_once(rt, &mut block);
        is_got && bytes.are(block.as_slice()) && block.capacity() == had
    }

    // A read of a block, which takes no memory. Whether it got one.
    #[tactic(auto, using(crate::proofs::EndLemmas::still_read))]
    fn read_block_once<R: Wait>(&mut self, rt: &R, block: &mut Vec<u8>) -> bool {
        match self.read.read_block(rt, &mut self.proc, block) {
            Ok(ReadAnswer::Got(count)) => count == block.len(),
            _ => false,
        }
    }

    // A read of one byte that doesn't wait.
    #[tactic(auto, using(crate::proofs::EndLemmas::still_read))]
    fn tries(&mut self) -> Result<TryAnswer, Fault> {
        self.read.try_read(&mut self.proc, &mut [0])
    }

    // The reader hangs the direction up.
    #[tactic(auto, using(crate::proofs::EndLemmas::still_read))]
    fn hang_read(&mut self) {
        self.read.hangup(&mut self.proc);
    }

    // The writer hangs the direction up.
    #[tactic(auto, using(crate::proofs::EndLemmas::still_written))]
    fn hang_write(&mut self) {
        self.write.hangup(&mut self.proc);
    }

    /// What it holds when all its ends are given back. Where memory is refused the ends that come
    /// back are given back again.
    pub fn finish(self, alloc: Global) -> Option<Held> {
        let Line { read, write, .. } = self;
        let mut writes = room_for_one(alloc)?;
        writes.push_reserved(write);
        match finish(alloc, read, writes) {
            Ok(held) => Some(held),
            Err(Unfinished { read, writes }) => finish(alloc, read, writes).ok(),
        }
    }
}

/// Whether it is just this.
pub fn is_left(held: &Held, left: &Left) -> bool {
    let mut is_so = held.hung == left.hung && held.rest.as_slice() == left.rest;
    is_so = is_so && held.writes.len() == left.writes.len();
    for (stored, (writer, bytes)) in held.writes.iter().zip(left.writes.iter()) {
        is_so = is_so && stored.writer == *writer && stored.block.as_slice() == *bytes;
    }
    is_so
}

/// A pipe with one writer.
pub fn pipe_of<'p>(
    alloc: Global,
    roster: &mut Roster<'_>,
    mode: Mode,
    limit: u64,
) -> Result<OpenedPipe<'p>, Fault>
    ensures { IfOk result (λ opened. IsPipeStart opened.pipe opened.start) }
{
    match mode {
        Mode::Message => match Pipe::new(alloc, roster, limit, 1) {
            Err(Fault::Memory) => Pipe::new(alloc, roster, limit, 1),
            opened => opened,
        },
        Mode::Stream => match Pipe::new_stream(alloc, roster, limit, 1) {
            Err(Fault::Memory) => Pipe::new_stream(alloc, roster, limit, 1),
            opened => opened,
        },
    }
}

/// All ends of a direction of a pipe with one writer.
#[tactic(auto, using(crate::proofs::EndLemmas::only_one))]
pub fn line_of<'p, 'k>(pipe: &'p Pipe, start: PipeStart<'p>, proc: Proc<'k>) -> Option<Line<'p, 'k>>
    requires { IsPipeStart pipe.now start }
{
    let Ends { first, second } = pipe.ends(start);
    let Parts { read, .. } = first.parts();
    let Parts { mut writes, .. } = second.parts();
    let write = writes.pop()?;
    if writes.len() > 0 {
        return None;
    }
    Some(Line { read, write, proc })
}

// Does each of these. Whether each came to what it was to.
fn do_each<R: Wait>(rt: &R, alloc: Global, line: &mut Line<'_, '_>, deeds: &[Deed]) -> bool {
    for deed in deeds.iter() {
        if !line.does(rt, alloc, *deed) {
            return false;
        }
    }
    true
}

// What a direction of a new pipe holds after these, if each came to what it was to.
fn held_at<R: Wait>(
    rt: &R,
    alloc: Global,
    started: Started<'_>,
    mode: Mode,
    limit: u64,
    deeds: &[Deed],
) -> Option<Held> {
    let Started { mut roster, proc } = started;
    let Ok(OpenedPipe { pipe, start }) = pipe_of(alloc, &mut roster, mode, limit) else {
        return None;
    };
    let mut line = line_of(&pipe, start, proc)?;
    if do_each(rt, alloc, &mut line, deeds) {
        line.finish(alloc)
    } else {
        None
    }
}

// The same, on a kernel of its own.
fn held_after<R: Wait>(
    rt: &R,
    alloc: Global,
    mode: Mode,
    limit: u64,
    deeds: &[Deed],
) -> Option<Held> {
    let opened = match Kernel::new(alloc, 1, 4) {
        Err(Fault::Memory) => Kernel::new(alloc, 1, 4),
        opened => opened,
    };
    let Opened { kernel, start } = opened.ok()?;
    held_at(rt, alloc, kernel.start(start), mode, limit, deeds)
}

// Whether it holds at last what it is to.
fn is_lived<R: Wait>(rt: &R, alloc: Global, life: &Life) -> bool {
    match held_after(rt, alloc, life.mode, life.limit, life.deeds) {
        Some(held) => is_left(&held, &life.left),
        None => false,
    }
}

// ---- what was written and read, and what is held

const READ_IN_PARTS: Life = Life {
    mode: Mode::Message,
    limit: 2,
    deeds: &[
        FindsNothing,
        Writes(These(b"abc"), 1),
        Writes(These(b""), 2),
        Reads(2, These(b"ab")),
        Reads(8, These(b"c")),
        Reads(8, These(b"")),
        Writes(These(b"def"), 3),
        WriterHangsUp,
        IsRefused(These(b"g")),
        Reads(2, These(b"de")),
    ],
    left: Left {
        hung: true,
        rest: b"f",
        writes: &[],
    },
};

const REST_AND_WRITE: Life = Life {
    mode: Mode::Message,
    limit: 2,
    deeds: &[
        Writes(These(b"abc"), 1),
        Writes(These(b"de"), 2),
        Reads(2, These(b"ab")),
    ],
    left: Left {
        hung: false,
        rest: b"c",
        writes: &[(0, b"de")],
    },
};

const REST_ALONE: Life = Life {
    mode: Mode::Message,
    limit: 1,
    deeds: &[Writes(These(b"abc"), 1), Reads(2, These(b"ab"))],
    left: Left {
        hung: false,
        rest: b"c",
        writes: &[],
    },
};

const READ_AFTER_A_HANGUP: Life = Life {
    mode: Mode::Message,
    limit: 1,
    deeds: &[
        Writes(Run(65_536, b'g'), 1),
        ReaderHangsUp,
        IsRefused(These(b"d")),
        Reads(65_536, Run(65_536, b'g')),
        Deed::Ends,
        Deed::Ends,
    ],
    left: Left {
        hung: true,
        rest: b"",
        writes: &[],
    },
};

const STREAM_READ_WHOLE: Life = Life {
    mode: Mode::Stream,
    limit: 4,
    deeds: &[
        Writes(These(b"abc"), 1),
        Writes(These(b""), 2),
        Writes(These(b"de"), 3),
        Reads(8, These(b"abcde")),
        Writes(These(b""), 4),
        FindsNothing,
    ],
    left: Left {
        hung: false,
        rest: b"",
        writes: &[],
    },
};

const EMPTY_WRITE_LEFT: Life = Life {
    mode: Mode::Stream,
    limit: 3,
    deeds: &[
        Writes(These(b""), 1),
        Writes(These(b"a"), 2),
        Writes(These(b""), 3),
        Reads(1, These(b"a")),
        Writes(These(b"b"), 4),
    ],
    left: Left {
        hung: false,
        rest: b"",
        writes: &[(0, b""), (0, b"b")],
    },
};

const LONG_RUNS: Life = Life {
    mode: Mode::Stream,
    limit: 3,
    deeds: &[
        Writes(Run(33, b'x'), 1),
        Writes(Run(32, b'x'), 2),
        Reads(33, Run(33, b'x')),
        Reads(33, Run(32, b'x')),
        Writes(Run(33, b'y'), 3),
    ],
    left: Left {
        hung: false,
        rest: b"",
        writes: &[(0, b"yyyyyyyyyyyyyyyyyyyyyyyyyyyyyyyyy")],
    },
};

// Each block that is read is the one that was written: it has just the room that its write took,
// and not that of the reader's. What the reader's had is filled again two writes later.
const BLOCKS: Life = Life {
    mode: Mode::Message,
    limit: 1,
    deeds: &[
        Writes(These(b"abcdef"), 1),
        ReadsBlock(100, These(b"abcdef"), 6),
        Writes(Run(50, b'x'), 2),
        ReadsBlock(200, Run(50, b'x'), 50),
        Writes(These(b"g"), 3),
        ReadsBlock(0, These(b"g"), 1),
        Writes(These(b"h"), 4),
        ReadsBlock(0, These(b"h"), 100),
        Writes(Run(65_536, b'i'), 5),
        ReadsBlock(7, Run(65_536, b'i'), 65_536),
    ],
    left: Left {
        hung: false,
        rest: b"",
        writes: &[],
    },
};

// The rest of a write is read in the write's own block too.
const RESTS_OF_BLOCKS: Life = Life {
    mode: Mode::Stream,
    limit: 2,
    deeds: &[
        Writes(These(b"abcdef"), 1),
        Writes(These(b"gh"), 2),
        Reads(2, These(b"ab")),
        ReadsBlock(100, These(b"cdef"), 6),
        ReadsBlock(0, These(b"gh"), 2),
    ],
    left: Left {
        hung: false,
        rest: b"",
        writes: &[],
    },
};

const BLOCK_LIVES: [&Life; 2] = [&BLOCKS, &RESTS_OF_BLOCKS];

#[test]
fn a_block_that_is_read_is_the_one_that_was_written(rt: HostRuntime) {
    for (at, life) in BLOCK_LIVES.iter().enumerate() {
        assert!(rt; is_lived(&rt, rt.alloc(), *life), "life {at}");
    }
}

const LIVES: [&Life; 7] = [
    &READ_IN_PARTS,
    &REST_AND_WRITE,
    &REST_ALONE,
    &READ_AFTER_A_HANGUP,
    &STREAM_READ_WHOLE,
    &EMPTY_WRITE_LEFT,
    &LONG_RUNS,
];

#[test]
fn a_finish_gives_what_the_direction_still_held(rt: HostRuntime) {
    for (at, life) in LIVES.iter().enumerate() {
        assert!(rt; is_lived(&rt, rt.alloc(), *life), "life {at}");
    }
}

#[test]
fn an_open_direction_holds_the_rest_of_its_write(rt: HostRuntime) {
    assert!(rt; is_lived(&rt, rt.alloc(), &REST_ALONE));
}

#[test]
fn a_finish_that_is_refused_memory_gives_all_ends_back(rt: HostRuntime) {
    assert!(rt; is_lived(&rt, rt.alloc(), &REST_AND_WRITE));
}

// ---- sizes

// A write of one byte for each number, in order.
fn numbered(rt: &impl Abort, alloc: Global, count: u64) -> Vec<Deed> {
    let mut deeds = Vec::new(alloc);
    for number in 1..=count {
        if deeds.push(Writes(These(b"x"), number)).is_err() {
            panic!(rt; "no memory for deeds");
        }
    }
    deeds
}

// Whether just these writes of one byte are held, where there is room for no more.
fn are_held<R: Wait>(rt: &R, alloc: Global, writes: &[Deed]) -> bool {
    let limit = writes.len().max(1) as u64;
    let Some(held) = held_after(rt, alloc, Mode::Message, limit, writes) else {
        return false;
    };
    let are_so = held.writes.iter().all(|it| it.writer == 0
        && it.block.as_slice() == b"x".as_slice());
    are_so && held.writes.len() == writes.len() && held.rest.as_slice().is_empty() && !held.hung
}

// Tries each count of these writes, from none to all.
fn hold_each_count<R: Wait + Abort>(rt: &R, alloc: Global, writes: &[Deed]) {
    for count in 0..=writes.len() {
        assert!(rt; are_held(rt, alloc, &writes[..count]), "{count} writes");
    }
}

#[test]
fn each_count_of_writes_is_held_and_given_back(rt: HostRuntime) {
    let writes = numbered(&rt, rt.alloc(), MAX_PIPE_LIMIT);
    hold_each_count(&rt, rt.alloc(), writes.as_slice());
}
