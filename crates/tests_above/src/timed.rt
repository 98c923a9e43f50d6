//! Writers, a reader and sleepers that wait until a moment, while another process ticks and posts
//! notes. A call that a moment or a note ended has taken and given nothing, and is made again.
//! After all that each sleeps once more, with no deadline: nothing that was late reaches that
//! sleep.
ghost use Rattle.std.specs.Prelude.{⊤};

use crate::dice::{Dice, seed_of};
use crate::kernels::{forked, kernel_of, push};
use crate::pipes::{Reader, Writer, pipe_of};
use plan9::{
    Clock, Ends, Fault, Note, NoteSet, OpenedKernel, OpenedPipe, Pid, Proc, ReadAnswer, ReadCalls,
    RendezId, Started, Watch, WriteCalls,
};
use std::alloc::Global;
use std::process::Abort;
use std::sync::Wait;
use std::sync::atomic::AtomicU64;
use std::sync::atomic::Ordering::SeqCst;
use std::thread::{self, Threads, join, yield_now};

const WRITERS: u64 = 3;

/// How many messages each writer writes, and how many bytes each message has.
const MESSAGES: u64 = 400;

const SIZE: usize = 8;

/// A byte that no message has.
const UNREAD: u8 = 0xff;

const SLEEPERS: u64 = 4;

/// How high the level of each sleeper is raised, one by one, but for the last sleep.
const LEVELS: u64 = 1_000;

/// What the crowd share outside the kernel.
#[derive(Drop)]
struct Board {
    seed: u64,
    /// The first of the Rendez in which they sleep, each in one of its own.
    own: u64,
    /// The moment of the last tick.
    now: AtomicU64,
    /// How many notes were posted, and how many waits the ticks have ended.
    posted: AtomicU64,
    expired: AtomicU64,
    /// How many calls a moment stopped, and how many a note.
    hindered: AtomicU64,
    /// How many writers have written all.
    written: AtomicU64,
    /// How many have ended; whether no note is posted any more; and how many have seen that.
    ended: AtomicU64,
    quiet: AtomicU64,
    settled: AtomicU64,
    /// How many calls got an answer that no call may get. Nobody goes on then.
    wrong: AtomicU64,
}

impl Board {
    fn new(seed: u64, own: u64) -> Board {
        Board {
            seed,
            own,
            now: AtomicU64::new(0),
            posted: AtomicU64::new(0),
            expired: AtomicU64::new(0),
            hindered: AtomicU64::new(0),
            written: AtomicU64::new(0),
            ended: AtomicU64::new(0),
            quiet: AtomicU64::new(0),
            settled: AtomicU64::new(0),
            wrong: AtomicU64::new(0),
        }
    }

    fn is_wrong(&self) -> bool {
        self.wrong.load(SeqCst) > 0
    }

    // Counts what may not be.
    fn expect(&self, is_well: bool) {
        if !is_well {
            self.wrong.fetch_add(1, SeqCst);
        }
    }

    // The Rendez of this one of the crowd.
    fn rendez(&self, number: u64) -> RendezId {
        RendezId(self.own.wrapping_add(number))
    }

    // Waits till one of its counts is so high.
    fn awaits<R: Wait>(&self, rt: &R, count: &AtomicU64, wanted: u64) {
        for _ in rt.forever() {
            if self.is_wrong() || count.load(SeqCst) >= wanted {
                return;
            }
            yield_now();
        }
    }
}

/// What a process of the crowd does.
#[derive(Drop)]
enum Role<'p, 'k> {
    Write(Writer<'p, 'k>),
    Read(Reader<'p, 'k>),
    Sleep(Proc<'k>),
}

impl<'p, 'k> Role<'p, 'k> {
    fn proc(&mut self) -> &mut Proc<'k> {
        match self {
            Role::Write(writer) => &mut writer.proc,
            Role::Read(reader) => &mut reader.proc,
            Role::Sleep(proc) => proc,
        }
    }
}

/// A process of the crowd, with its watch.
#[derive(Drop)]
struct Job<'p, 't, 'k> {
    role: Role<'p, 'k>,
    watch: Watch<'t>,
    number: u64,
}

/// What came of a process: how many calls went well, and how many were ended by a moment and by
/// notes.
#[derive(Clone, Copy, Debug, PartialEq, Eq)]
struct Work {
    good: u64,
    timed_out: u64,
    noted: u64,
}

impl Work {
    fn new() -> Work {
        Work {
            good: 0,
            timed_out: 0,
            noted: 0,
        }
    }

    // Counts a call. The one note that may end it is an alarm.
    fn count(&mut self, board: &Board, came: Result<(), Fault>) {
        let was_hindered = self.is_hindered();
        match came {
            Ok(()) => self.good = self.good.saturating_add(1),
            Err(Fault::TimedOut) => self.timed_out = self.timed_out.saturating_add(1),
            Err(Fault::Interrupted(notes)) => {
                board.expect(notes == NoteSet::of(Note::Alarm));
                self.noted = self.noted.saturating_add(1);
            }
            Err(_) => board.expect(false),
        }
        if self.is_hindered() && !was_hindered {
            board.hindered.fetch_add(1, SeqCst);
        }
    }

    // Whether a moment and a note have ended a call each.
    fn is_hindered(&self) -> bool {
        self.timed_out > 0 && self.noted > 0
    }
}

// Writes all its messages, each until a moment that is near, and again where it was stopped. The
// queue is full till all writers were stopped.
fn writes<R: Wait>(
    rt: &R,
    alloc: Global,
    writer: &mut Writer<'_, '_>,
    watch: &mut Watch<'_>,
    board: &Board,
    dice: &mut Dice,
) -> Work {
    let mut work = Work::new();
    for _ in rt.forever() {
        if board.is_wrong() || work.good >= MESSAGES {
            break;
        }
        let message = work
            .good
            .wrapping_mul(WRITERS)
            .wrapping_add(writer.end.writer());
        let ms = dice.moments();
        let now = board.now.load(SeqCst);
        let bytes = message.to_be_bytes();
        let proc = &mut writer.proc;
        let came = writer
            .end
            .write_within(alloc, rt, proc, watch, now, ms, &bytes);
        work.count(board, came.map(|_| ()));
    }
    hang_up(rt, writer, board);
    work
}

// The writer that ends last hangs up, once the reader was stopped as well.
fn hang_up<R: Wait>(rt: &R, writer: &mut Writer<'_, '_>, board: &Board) {
    if board.written.fetch_add(1, SeqCst).saturating_add(1) >= WRITERS {
        board.awaits(rt, &board.hindered, WRITERS + 1);
        writer.end.hangup(&mut writer.proc);
    }
}

/// What was read: how many messages of each writer, and how many bytes of one more.
#[derive(Clone, Copy)]
struct Account {
    messages: [u64; WRITERS as usize],
    begun: u64,
    bytes: usize,
}

impl Account {
    fn new() -> Account {
        Account {
            messages: [0; WRITERS as usize],
            begun: 0,
            bytes: 0,
        }
    }

    // A piece: the rest of a message or a part of it, and never of two. Whether it may come.
    fn add(&mut self, piece: &[u8]) -> bool {
        self.bytes = self.bytes.saturating_add(piece.len());
        for byte in piece.iter() {
            self.begun = self.begun.wrapping_mul(256).wrapping_add(u64::from(*byte));
        }
        self.bytes < SIZE || (self.bytes == SIZE && self.is_next())
    }

    // Whether a message that is whole is the next one of its writer. It is counted then.
    fn is_next(&mut self) -> bool {
        let writer = (self.begun % WRITERS) as usize;
        let is_next = self.messages[writer] == self.begun / WRITERS;
        self.messages[writer] = self.messages[writer].saturating_add(1);
        self.begun = 0;
        self.bytes = 0;
        is_next
    }

    // Whether it is all that was written.
    fn is_whole(&self) -> bool {
        self.bytes == 0 && self.messages == [MESSAGES; WRITERS as usize]
    }
}

// Reads until a moment that is near, with room for a message or for a part of it. Whether that is
// the end. A read that is stopped leaves its buffer as it was.
fn read_some<R: Wait>(
    rt: &R,
    reader: &mut Reader<'_, '_>,
    watch: &mut Watch<'_>,
    board: &Board,
    dice: &mut Dice,
    account: &mut Account,
) -> Result<bool, Fault> {
    let mut buffer = [UNREAD; SIZE];
    let room = if dice.roll(2) == 0 { 3 } else { SIZE };
    let ms = dice.moments();
    let now = board.now.load(SeqCst);
    let Reader { end, proc } = reader;
    let came = end.read_within(rt, proc, watch, now, ms, &mut buffer[..room]);
    match came {
        Ok(ReadAnswer::Got(count)) => {
            board.expect(count > 0 && account.add(&buffer[..count.min(SIZE)]));
            Ok(false)
        }
        Ok(ReadAnswer::End) => Ok(true),
        Err(fault) => {
            board.expect(buffer == [UNREAD; SIZE]);
            Err(fault)
        }
    }
}

// Reads to the end: each message whole, once and next of its writer.
fn reads<R: Wait>(
    rt: &R,
    reader: &mut Reader<'_, '_>,
    watch: &mut Watch<'_>,
    board: &Board,
    dice: &mut Dice,
) -> Work {
    let mut work = Work::new();
    let mut account = Account::new();
    board.awaits(rt, &board.hindered, WRITERS);
    for _ in rt.forever() {
        let came = read_some(rt, reader, watch, board, dice, &mut account);
        work.count(board, came.map(|_| ()));
        if board.is_wrong() || came == Ok(true) {
            break;
        }
    }
    board.expect(account.is_whole());
    work
}

// Sleeps until its level is at its top, once for each level, and then till it was stopped. A wakeup
// that finds the sleeper asleep again takes it out whatever its threshold: so a sleep may end well
// before its level is raised, at most once for each wakeup, and is made again.
fn sleeps<R: Wait>(
    rt: &R,
    proc: &mut Proc<'_>,
    own: RendezId,
    watch: &mut Watch<'_>,
    board: &Board,
    dice: &mut Dice,
) -> Work {
    let mut work = Work::new();
    let mut early = 0u64;
    for _ in rt.forever() {
        if board.is_wrong() || (work.good >= LEVELS && work.is_hindered()) {
            break;
        }
        let level = work.good;
        let ms = dice.moments();
        let now = board.now.load(SeqCst);
        let came = watch.sleep_within(rt, proc, own, level.min(LEVELS), now, ms);
        let now = board.now.load(SeqCst);
        if came.is_ok() && (level >= LEVELS || level >= now) {
            early = early.saturating_add(1);
            board.expect(early <= now);
        } else {
            work.count(board, came);
        }
    }
    work
}

// Takes the notes that are left, of which none is of a tick, and sleeps till it is woken.
fn settles<R: Wait>(rt: &R, proc: &mut Proc<'_>, own: RendezId, board: &Board) {
    board.ended.fetch_add(1, SeqCst);
    board.awaits(rt, &board.quiet, 1);
    if board.is_wrong() {
        return;
    }
    board.expect(!proc.notes().has(Note::Expired));
    board.settled.fetch_add(1, SeqCst);
    board.expect(proc.sleep(rt, own, LEVELS).is_ok());
}

fn works<R: Wait>(rt: &R, alloc: Global, job: &mut Job, board: &Board) -> Work {
    let Job {
        role,
        watch,
        number,
    } = job;
    let own = board.rendez(*number);
    let mut dice = Dice::of(board.seed, *number);
    let work = match role {
        Role::Write(writer) => writes(rt, alloc, writer, watch, board, &mut dice),
        Role::Read(reader) => reads(rt, reader, watch, board, &mut dice),
        Role::Sleep(proc) => sleeps(rt, proc, own, watch, board, &mut dice),
    };
    settles(rt, role.proc(), own, board);
    work
}

// Raises the levels of all that sleep.
fn raises(proc: &mut Proc, board: &Board, crowd: u64, level: u64) {
    for number in 0..crowd {
        board.expect(proc.wakeup(board.rendez(number), level).is_ok());
    }
}

// Ticks, raises the levels and posts notes till all have ended. Then no timer is left, and the
// sleeps that begin are woken.
fn ticks<R: Wait>(rt: &R, proc: &mut Proc, watch: &mut Watch, board: &Board, crowd: u64) {
    let mut dice = Dice::of(board.seed, crowd);
    for _ in rt.forever() {
        if board.ended.load(SeqCst) >= crowd {
            break;
        }
        let to = Pid(dice.roll(crowd).wrapping_add(1));
        board.posted.fetch_add(1, SeqCst);
        board.expect(proc.postnote(to, NoteSet::of(Note::Alarm)).is_ok());
        let now = board.now.fetch_add(1, SeqCst).wrapping_add(1);
        board.expired.fetch_add(watch.tick(rt, proc, now), SeqCst);
        raises(proc, board, crowd, now.min(LEVELS));
        yield_now();
    }
    board.quiet.store(1, SeqCst);
    board.awaits(rt, &board.settled, crowd);
    board.expect(watch.tick(rt, proc, u64::MAX) == 0);
    raises(proc, board, crowd, LEVELS + 1);
}

// No more calls were ended by notes and by moments than notes were posted and timers expired.
fn are_ended_so(board: &Board, done: &[Work]) -> bool {
    let mut noted = 0u64;
    let mut timed_out = 0u64;
    for work in done.iter() {
        noted = noted.saturating_add(work.noted);
        timed_out = timed_out.saturating_add(work.timed_out);
    }
    noted <= board.posted.load(SeqCst) && timed_out <= board.expired.load(SeqCst)
}

// Runs the crowd, beside one that ticks.
fn run_crowd<R: Threads + Wait + Abort + Sync>(
    rt: &R,
    alloc: Global,
    jobs: Vec<Job<'_, '_, '_>>,
    mut ticker: Proc<'_>,
    mut watch: Watch<'_>,
    board: &Board,
) -> Vec<Work> {
    let crowd = jobs.len() as u64;
    let (done, ()) = join(
        rt,
        || thread::map_vec(
            rt,
            jobs,
            &|mut job: Job| -> Work
                ensures { ⊤ }
            { works(rt, alloc, &mut job, board) },
        ),
        || ticks(rt, &mut ticker, &mut watch, board, crowd),
    );
    let done = done.ok().expect(rt, "no memory for the answers");
    board.expect(are_ended_so(board, done.as_slice()));
    done
}

// One more of the crowd.
fn join_in<'p, 't, 'k, R: Wait + Abort>(
    rt: &R,
    jobs: &mut Vec<Job<'p, 't, 'k>>,
    watch: &mut Watch<'t>,
    role: Role<'p, 'k>,
) {
    let watch = watch.split(rt).expect(rt, "no watch is left");
    let number = jobs.len() as u64;
    let job = Job {
        role,
        watch,
        number,
    };
    push(rt, jobs, job);
}

// The writers of one end and the reader of the other.
fn talkers_of<'p, 't, 'k, R: Wait + Abort>(
    rt: &R,
    alloc: Global,
    started: &mut Started<'k>,
    ends: Ends<'p>,
    watch: &mut Watch<'t>,
) -> Vec<Job<'p, 't, 'k>> {
    let mut jobs = Vec::new(alloc);
    let read = ends.first.parts().read;
    for end in ends.second.parts().writes {
        let proc = forked(rt, started);
        join_in(rt, &mut jobs, watch, Role::Write(Writer { end, proc }));
    }
    let proc = forked(rt, started);
    let role = Role::Read(Reader { end: read, proc });
    join_in(rt, &mut jobs, watch, role);
    jobs
}

fn sleepers_of<'t, 'k, R: Wait + Abort>(
    rt: &R,
    alloc: Global,
    started: &mut Started<'k>,
    watch: &mut Watch<'t>,
) -> Vec<Job<'k, 't, 'k>> {
    let mut jobs = Vec::new(alloc);
    for _ in 0..SLEEPERS {
        let role = Role::Sleep(forked(rt, started));
        join_in(rt, &mut jobs, watch, role);
    }
    jobs
}

// Runs the crowd, in which nothing is answered that may not be.
fn run_well<R: Threads + Wait + Abort + Sync>(
    rt: &R,
    alloc: Global,
    jobs: Vec<Job<'_, '_, '_>>,
    ticker: Proc<'_>,
    watch: Watch<'_>,
    board: &Board,
) {
    let done = run_crowd(rt, alloc, jobs, ticker, watch, board);
    assert!(rt; !board.is_wrong(), "seed {}: {done:?}", board.seed);
}

// Runs the writers and the reader of a pipe.
fn talk<R: Threads + Wait + Abort + Sync>(
    rt: &R,
    alloc: Global,
    mut started: Started<'_>,
    ends: Ends<'_>,
    seed: u64,
) {
    let mut clock = Clock::new(alloc, WRITERS + 2).expect(rt, "no clock");
    let mut watch = clock.watch().expect(rt, "nobody had the first watch");
    let jobs = talkers_of(rt, alloc, &mut started, ends, &mut watch);
    let board = Board::new(seed, 2 * WRITERS + 2);
    run_well(rt, alloc, jobs, started.proc, watch, &board);
}

#[test]
fn reads_and_writes_until_a_moment_lose_nothing(rt: HostRuntime) {
    let alloc = rt.alloc();
    let OpenedKernel { kernel, start } = kernel_of(&rt, alloc, WRITERS + 2, 3 * WRITERS + 3);
    let mut started = kernel.start(start);
    let OpenedPipe { pipe, start } = pipe_of(&rt, alloc, &mut started.roster, 1, WRITERS);
    talk(&rt, alloc, started, pipe.ends(start), seed_of(&rt));
}

// Runs those that sleep.
fn sleep_all<R: Threads + Wait + Abort + Sync>(
    rt: &R,
    alloc: Global,
    mut started: Started<'_>,
    seed: u64,
) {
    let mut clock = Clock::new(alloc, SLEEPERS + 1).expect(rt, "no clock");
    let mut watch = clock.watch().expect(rt, "nobody had the first watch");
    let jobs = sleepers_of(rt, alloc, &mut started, &mut watch);
    let board = Board::new(seed, 0);
    run_well(rt, alloc, jobs, started.proc, watch, &board);
}

#[test]
fn sleeps_until_a_moment_are_woken_to_the_last(rt: HostRuntime) {
    let OpenedKernel { kernel, start } = kernel_of(&rt, rt.alloc(), SLEEPERS + 1, SLEEPERS);
    sleep_all(&rt, rt.alloc(), kernel.start(start), seed_of(&rt));
}
