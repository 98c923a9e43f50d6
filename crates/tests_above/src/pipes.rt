//! Crowds at one direction of a pipe: writers and a reader, each on a thread of its own, with
//! hangups and notes between. Each message repeats one byte, which has its writer and its number.
ghost use Rattle.std.specs.Prelude.{⊤};
ghost use Rattle.pipe_dev.specs.Openings.{IsStartOf as IsPipeStart};

use crate::dice::{Dice, seed_of};
use crate::kernels::{forked, kernel_of, push};
use plan9::{
    Ends, Fault, Note, NoteSet, OpenedKernel, OpenedPipe, Pid, Pipe, Proc, ReadAnswer, ReadEnd,
    Roster, Started, WriteEnd,
};
use std::alloc::Global;
use std::process::Abort;
use std::sync::Wait;
use std::sync::atomic::Ordering::SeqCst;
use std::sync::atomic::{AtomicBool, AtomicU64};
use std::thread::{self, Threads, yield_now};

/// A pipe of this limit, with this many writers in each direction; it is asked for once more where
/// it was refused, for want of memory.
pub fn pipe_of<'p>(
    rt: &impl Abort,
    alloc: Global,
    roster: &mut Roster<'_>,
    limit: u64,
    writers: u64,
) -> OpenedPipe<'p>
    ensures start { IsPipeStart result.pipe result.start }
{
    if let Ok(opened) = Pipe::new(alloc, roster, limit, writers) {
        return opened;
    }
    Pipe::new(alloc, roster, limit, writers).expect(rt, "no pipe")
}

/// A process with a read end.
#[derive(Drop)]
pub struct Reader<'p, 'k> {
    pub end: ReadEnd<'p>,
    pub proc: Proc<'k>,
}

/// A process with a write end.
#[derive(Drop)]
pub struct Writer<'p, 'k> {
    pub end: WriteEnd<'p>,
    pub proc: Proc<'k>,
}

/// What is to be done.
#[derive(Clone, Copy, Debug)]
struct Plan {
    seed: u64,
    limit: u64,
    writers: u64,
    /// How many bytes each message has.
    size: usize,
    /// How many messages each writer writes.
    writes: u64,
    /// After this many of its messages writer 0 hangs up.
    writer_hangs: u64,
    /// After this many messages the reader hangs up.
    reader_hangs: u64,
    /// Whether another process posts notes to them.
    notes: bool,
}

/// What a thread does.
#[derive(Drop)]
enum Job<'p, 'k> {
    Read(Reader<'p, 'k>),
    Write(Writer<'p, 'k>),
    Post(Proc<'k>),
}

/// What came of a thread, or of all threads.
#[derive(Clone, Copy)]
struct Tally {
    /// How many messages were read, and how many were accepted.
    read: u64,
    wrote: u64,
    /// How many messages of each writer. Messages of no bytes do not say whose they are.
    read_of: [u64; 64],
    wrote_of: [u64; 64],
    /// How many calls a note ended, which then took and gave nothing and were made again.
    noted: u64,
    /// How many notes were posted.
    posted: u64,
    /// Whether nothing came that must not come.
    good: bool,
}

/// What the threads share outside the pipe.
#[derive(Drop)]
struct Board {
    /// How many writers have ended.
    wrote: AtomicU64,
    /// Whether the reader has ended.
    read: AtomicBool,
}

// The byte of a message.
fn byte_of(writer: u64, number: u64) -> u8 {
    let [low, _, _, _, _, _, _, _] = (writer % 64 + number % 4 * 64).to_le_bytes();
    low
}

impl Tally {
    fn new() -> Tally {
        Tally {
            read: 0,
            wrote: 0,
            read_of: [0; 64],
            wrote_of: [0; 64],
            noted: 0,
            posted: 0,
            good: true,
        }
    }

    // One message: it is whole, and the next of its writer.
    fn count(&mut self, piece: &[u8], size: usize) {
        self.read = self.read.saturating_add(1);
        self.good = self.good && piece.len() == size;
        if let [byte, ..] = piece {
            let writer = (*byte % 64) as usize;
            let next = byte_of(writer as u64, self.read_of[writer]);
            self.good = self.good && are_all(piece, next);
            self.read_of[writer] = self.read_of[writer].saturating_add(1);
        }
    }

    fn count_note(&mut self) {
        self.noted = self.noted.saturating_add(1);
    }

    fn add(&mut self, other: &Tally) {
        self.read = self.read.saturating_add(other.read);
        self.wrote = self.wrote.saturating_add(other.wrote);
        add_each(&mut self.read_of, &other.read_of);
        add_each(&mut self.wrote_of, &other.wrote_of);
        self.noted = self.noted.saturating_add(other.noted);
        self.posted = self.posted.saturating_add(other.posted);
        self.good = self.good && other.good;
    }

    // What was read is what was accepted. Notes of one kind join while they are pending, so a call
    // that was interrupted took one.
    fn is_whole(&self) -> bool {
        self.good
            && self.read == self.wrote
            && self.read_of == self.wrote_of
            && self.noted <= self.posted
    }
}

// Whether all bytes are this one.
fn are_all(bytes: &[u8], wanted: u8) -> bool {
    for byte in bytes {
        if *byte != wanted {
            return false;
        }
    }
    true
}

fn add_each(sums: &mut [u64; 64], counts: &[u64; 64]) {
    for at in 0..64 {
        sums[at] = sums[at].saturating_add(counts[at]);
    }
}

// Reads to the end.
fn reads<R: Wait>(
    rt: &R,
    alloc: Global,
    board: &Board,
    reader: &mut Reader<'_, '_>,
    plan: Plan,
) -> Tally {
    let Reader { end, proc } = reader;
    let mut tally = Tally::new();
    let mut block = Vec::new(alloc);
    for _ in rt.forever() {
        if tally.read == plan.reader_hangs {
            end.hangup(proc);
        }
        match end.read_block(rt, proc, &mut block) {
            Ok(ReadAnswer::Got(_)) => tally.count(block.as_slice(), plan.size),
            Ok(ReadAnswer::End) => break,
            Err(Fault::Interrupted(_)) => tally.count_note(),
            Err(_) => {
                tally.good = false;
                break;
            }
        }
    }
    end.hangup(proc);
    board.read.store(true, SeqCst);
    tally
}

// Its next message.
fn write_next<R: Wait>(
    rt: &R,
    alloc: Global,
    writer: &mut Writer<'_, '_>,
    number: u64,
    size: usize,
) -> Result<u64, Fault> {
    let bytes = vec![in alloc; byte_of(writer.end.writer(), number); size]?;
    writer
        .end
        .write(alloc, rt, &mut writer.proc, bytes.as_slice())
}

// Writes all its messages, up to a hangup, with rising numbers. Says whether it was hung up.
fn write_all<R: Wait>(
    rt: &R,
    alloc: Global,
    writer: &mut Writer<'_, '_>,
    plan: Plan,
    tally: &mut Tally,
) -> bool {
    let number = writer.end.writer();
    let mut last = 0;
    for _ in rt.forever() {
        if tally.wrote >= plan.writes || !tally.good {
            break;
        }
        if number == 0 && tally.wrote == plan.writer_hangs {
            writer.end.hangup(&mut writer.proc);
        }
        match write_next(rt, alloc, writer, tally.wrote, plan.size) {
            Ok(next) => {
                tally.good = next > last;
                last = next;
                tally.wrote = tally.wrote.saturating_add(1);
            }
            Err(Fault::Interrupted(_)) => tally.count_note(),
            Err(Fault::Hungup) => return true,
            Err(_) => tally.good = false,
        }
    }
    false
}

// The note of a closed pipe comes just with a hangup. The writer that ends last hangs up.
fn writes<R: Wait>(
    rt: &R,
    alloc: Global,
    board: &Board,
    writer: &mut Writer<'_, '_>,
    plan: Plan,
) -> Tally {
    let mut tally = Tally::new();
    let hungup = write_all(rt, alloc, writer, plan, &mut tally);
    tally.good = tally.good && writer.proc.notes().has(Note::ClosedPipe) == hungup;
    if plan.size > 0 {
        tally.wrote_of[(writer.end.writer() % 64) as usize] = tally.wrote;
    }
    if board.wrote.fetch_add(1, SeqCst).saturating_add(1) >= plan.writers {
        writer.end.hangup(&mut writer.proc);
    }
    tally
}

// Posts notes to all others, the reader with the pid 1 and the writers after it, until the reader
// has ended.
fn posts<R: Wait>(rt: &R, board: &Board, proc: &mut Proc<'_>, plan: Plan) -> Tally {
    let mut tally = Tally::new();
    let mut dice = Dice::of(plan.seed, 0);
    for _ in rt.forever() {
        if board.read.load(SeqCst) {
            break;
        }
        let pid = Pid(dice.roll(plan.writers.saturating_add(1)).saturating_add(1));
        if proc.postnote(pid, NoteSet::of(Note::Alarm)).is_ok() {
            tally.posted = tally.posted.saturating_add(1);
        }
        yield_now();
    }
    tally
}

fn works<R: Wait>(rt: &R, alloc: Global, board: &Board, job: &mut Job, plan: Plan) -> Tally {
    match job {
        Job::Read(reader) => reads(rt, alloc, board, reader, plan),
        Job::Write(writer) => writes(rt, alloc, board, writer, plan),
        Job::Post(proc) => posts(rt, board, proc, plan),
    }
}

fn push_writers<'p, 'k, R: Abort>(
    rt: &R,
    jobs: &mut Vec<Job<'p, 'k>>,
    started: &mut Started<'k>,
    ends: Vec<WriteEnd<'p>>,
) {
    for end in ends {
        let proc = forked(rt, started);
        push(rt, jobs, Job::Write(Writer { end, proc }));
    }
}

// The reader and the writers of a direction.
fn jobs_at<'p, 'k, R: Abort>(
    rt: &R,
    alloc: Global,
    started: &mut Started<'k>,
    read: ReadEnd<'p>,
    writes: Vec<WriteEnd<'p>>,
) -> Vec<Job<'p, 'k>> {
    let mut jobs = Vec::new(alloc);
    let proc = forked(rt, started);
    push(rt, &mut jobs, Job::Read(Reader { end: read, proc }));
    push_writers(rt, &mut jobs, started, writes);
    jobs
}

// The direction from the second end to the first, and who posts notes.
fn jobs_of<'p, 'k, R: Abort>(
    rt: &R,
    alloc: Global,
    mut started: Started<'k>,
    ends: Ends<'p>,
    notes: bool,
) -> Vec<Job<'p, 'k>> {
    let Ends { first, second } = ends;
    let read = first.parts().read;
    let mut jobs = jobs_at(rt, alloc, &mut started, read, second.parts().writes);
    let Started { roster: _, proc } = started;
    if notes {
        push(rt, &mut jobs, Job::Post(proc));
    }
    jobs
}

// Each job on a thread of its own.
fn run_all<R: Threads + Wait + Abort + Sync>(
    rt: &R,
    alloc: Global,
    jobs: Vec<Job<'_, '_>>,
    plan: Plan,
) -> Tally {
    let board = Board {
        wrote: AtomicU64::new(0),
        read: AtomicBool::new(false),
    };
    let tallies = thread::map_vec(
        rt,
        jobs,
        &|mut job: Job| -> Tally
            ensures { ⊤ }
        { works(rt, alloc, &board, &mut job, plan) },
    );
    let tallies = tallies.ok().expect(rt, "no memory for what came of it");
    sum_of(tallies.as_slice())
}

fn sum_of(tallies: &[Tally]) -> Tally {
    let mut all = Tally::new();
    for tally in tallies {
        all.add(tally);
    }
    all
}

// Opens the pipe of the plan, and runs it.
fn run_in<R: Threads + Wait + Abort + Sync>(
    rt: &R,
    alloc: Global,
    mut started: Started<'_>,
    plan: Plan,
) -> Tally {
    let roster = &mut started.roster;
    let OpenedPipe { pipe, start } = pipe_of(rt, alloc, roster, plan.limit, plan.writers);
    let jobs = jobs_of(rt, alloc, started, pipe.ends(start), plan.notes);
    run_all(rt, alloc, jobs, plan)
}

// Runs the plan: each writer's messages are read whole, once and in its order, and no other.
// Answers how many.
fn run<R: Threads + Wait + Abort + Sync>(rt: &R, alloc: Global, plan: Plan) -> u64 {
    let procs = plan.writers.saturating_add(2);
    let OpenedKernel { kernel, start } = kernel_of(rt, alloc, procs, procs.saturating_mul(2));
    let all = run_in(rt, alloc, kernel.start(start), plan);
    assert!(rt; all.is_whole(), "{plan:?}");
    all.read
}

const QUIET: Plan = Plan {
    seed: 0,
    limit: 2,
    writers: 3,
    size: 20,
    writes: 20,
    writer_hangs: u64::MAX,
    reader_hangs: u64::MAX,
    notes: false,
};

// So many writers with so many writes each, with each limit and size.
fn run_each<R: Threads + Wait + Abort + Sync>(rt: &R, alloc: Global, writers: u64, writes: u64) {
    for limit in [1, 2, 16] {
        for size in [0, 1, 16, 8_192] {
            let plan = Plan {
                limit,
                writers,
                size,
                writes,
                ..QUIET
            };
            read_all(rt, alloc, plan);
        }
    }
}

// Runs a plan without hangups: all is read that it has to write.
fn read_all<R: Threads + Wait + Abort + Sync>(rt: &R, alloc: Global, plan: Plan) {
    let wanted = plan.writers.saturating_mul(plan.writes);
    assert_eq!(rt; run(rt, alloc, plan), wanted);
}

#[test]
fn writes_of_four_writers_are_read_in_order(rt: HostRuntime) {
    for (writers, writes) in [(1, 40), (2, 20), (4, 10)] {
        run_each(&rt, rt.alloc(), writers, writes);
    }
}

#[test]
fn writes_of_all_writers_are_read_in_order(rt: HostRuntime) {
    run_each(&rt, rt.alloc(), 64, 2);
}

#[test]
fn hangups_at_scattered_moments_lose_nothing(rt: HostRuntime) {
    let seed = seed_of(&rt);
    let mut dice = Dice::of(seed, 0);
    for turn in 0..40u64 {
        let by_writer = dice.roll(QUIET.writes);
        let by_reader = dice.roll(2 * QUIET.writes);
        for (writer_hangs, reader_hangs) in [
            (by_writer, u64::MAX),
            (u64::MAX, by_reader),
            (by_writer, by_reader),
        ] {
            let plan = Plan {
                seed,
                limit: [1, 2, 3, 16, 64][(turn % 5) as usize],
                writers: turn % 8 + 1,
                writer_hangs,
                reader_hangs,
                ..QUIET
            };
            run(&rt, rt.alloc(), plan);
        }
    }
}

#[test]
fn notes_at_scattered_moments_lose_nothing(rt: HostRuntime) {
    for limit in [1, 2] {
        let plan = Plan {
            seed: seed_of(&rt),
            limit,
            size: 24,
            writes: 200,
            notes: true,
            ..QUIET
        };
        assert_eq!(rt; run(&rt, rt.alloc(), plan), 600);
    }
}
