//! Eight processes that acquire and release units, with notes, time-outs and ticks between;
//! semaphores of each size, and one whose list of seats is refused memory; calls by a process of
//! another kernel; and the example of semacquire(2).
ghost use Rattle.sleep_wakeup.specs.Starts.{IsStartOf};
ghost use Rattle.semaphore.specs.Seats.{OwnsRow, IsSemaSeatOf};
ghost use Rattle.timer_list.specs.Seats.{IsTimerSeatOf};

use crate::dice::{Dice, seed_of};
use crate::kernels::{forked, kernel_of, push};
use plan9::{
    Clock, Fault, Kernel, Note, NoteSet, OpenedKernel, Pid, Proc, Roster, Seat, Semaphore, Start,
    Started, Watch, forks,
};
use semaphore::{OpenedSema, Sema, SemaSeat, Semacquired};
use std::alloc::Global;
use std::process::Abort;
use std::sync::Wait;
use std::sync::atomic::AtomicU64;
use std::sync::atomic::Ordering::SeqCst;
use std::thread::{self, Threads, join, yield_now};
use timer_list::{OpenedTimers, TimerSeat, Timers};

const HOLDERS: u64 = 8;

/// How many units each of them acquires.
const UNITS: u64 = 1_000;

/// The units at first: fewer than processes.
const OPENING: u32 = 3;

/// What the processes share outside the semaphore.
#[derive(Drop)]
struct Board {
    seed: u64,
    /// The moment of the last tick.
    now: AtomicU64,
    /// How many have acquired all their units.
    ended: AtomicU64,
}

/// A process of the crowd.
#[derive(Drop)]
struct Job<'s, 't, 'k> {
    proc: Proc<'k>,
    seat: Seat<'s>,
    watch: Watch<'t>,
    number: u64,
}

/// How many units it acquired and released, and how many calls got an answer that no call may get.
#[derive(Clone, Copy, PartialEq, Eq)]
struct Work {
    acquired: u64,
    released: u64,
    wrong: u64,
}

// One acquire of one of the three kinds. Says whether it got a unit.
fn acquire<R: Wait>(rt: &R, job: &mut Job, board: &Board, kind: u64) -> Result<bool, Fault> {
    let Job {
        proc,
        seat,
        watch,
        number: _,
    } = job;
    let waited = match kind {
        0 => seat.acquire(rt, proc),
        1 => return seat.try_acquire(rt, proc),
        _ => seat.acquire_within(rt, proc, watch, board.now.load(SeqCst), 3),
    };
    match waited {
        Ok(()) => Ok(true),
        Err(Fault::Interrupted(_)) | Err(Fault::TimedOut) => Ok(false),
        Err(fault) => Err(fault),
    }
}

// An acquire, the release of its unit, and a note to one of the crowd now and then.
fn turn<R: Wait>(rt: &R, job: &mut Job, board: &Board, dice: &mut Dice, work: &mut Work) {
    match acquire(rt, job, board, dice.roll(3)) {
        Ok(true) => {
            work.acquired = work.acquired.saturating_add(1);
            match job.seat.release(rt, &mut job.proc, 1) {
                Ok(_) => work.released = work.released.saturating_add(1),
                Err(_) => work.wrong = work.wrong.saturating_add(1),
            }
        }
        Ok(false) => {}
        Err(_) => work.wrong = work.wrong.saturating_add(1),
    }
    let noted = dice.roll(64);
    let interrupt = NoteSet::of(Note::Interrupt);
    if noted < HOLDERS && job.proc.postnote(Pid(noted + 1), interrupt).is_err() {
        work.wrong = work.wrong.saturating_add(1);
    }
}

fn works<R: Wait>(rt: &R, job: &mut Job, board: &Board) -> Work {
    let mut work = Work {
        acquired: 0,
        released: 0,
        wrong: 0,
    };
    let mut dice = Dice::of(board.seed, job.number);
    for _ in rt.forever() {
        if work.acquired >= UNITS {
            break;
        }
        turn(rt, job, board, &mut dice, &mut work);
    }
    board.ended.fetch_add(1, SeqCst);
    work
}

// Ticks until all have ended. Says whether no tick ended more waits than there may be.
fn ticks<R: Wait>(rt: &R, watch: &mut Watch, proc: &mut Proc, board: &Board) -> bool {
    let mut good = true;
    for _ in rt.forever() {
        if board.ended.load(SeqCst) >= HOLDERS {
            break;
        }
        let now = board.now.fetch_add(1, SeqCst).wrapping_add(1);
        good = watch.tick(rt, proc, now) <= HOLDERS && good;
        yield_now();
    }
    good
}

// The crowd's processes, each with a seat and a watch.
fn jobs_of<'s, 't, 'k, R: Wait + Abort>(
    rt: &R,
    alloc: Global,
    procs: Vec<Proc<'k>>,
    seats: Vec<Seat<'s>>,
    watch: &mut Watch<'t>,
) -> Vec<Job<'s, 't, 'k>> {
    let mut jobs = Vec::new(alloc);
    for (proc, seat) in procs.into_iter().zip(seats) {
        let number = jobs.len() as u64;
        let watch = watch.split(rt).expect(rt, "no watch is left");
        let job = Job {
            proc,
            seat,
            watch,
            number,
        };
        push(rt, &mut jobs, job);
    }
    jobs
}

// How many units are there.
fn units_left<R: Wait>(rt: &R, proc: &mut Proc<'_>, last: &mut Seat<'_>) -> u64 {
    let mut count = 0u64;
    for _ in 0..2 * HOLDERS {
        if last.try_acquire(rt, proc) == Ok(true) {
            count = count.saturating_add(1);
        }
    }
    count
}

// Each acquired what it wanted, and the units that are left are those that nobody has.
fn count_units(rt: &impl Abort, done: &[Work], left: u64, seed: u64) {
    let mut wanted = OPENING as u64;
    for work in done.iter() {
        assert!(rt; (work.wrong, work.acquired) == (0, UNITS), "seed {seed}");
        wanted = wanted
            .saturating_add(work.released)
            .saturating_sub(work.acquired);
    }
    assert_eq!(rt; left, wanted, "seed {seed}");
}

// Runs the crowd, beside one that ticks.
fn run_crowd<'s, 't, 'k, R: Threads + Wait + Abort + Sync>(
    rt: &R,
    jobs: Vec<Job<'s, 't, 'k>>,
    mut watch: Watch<'t>,
    ticker: &mut Proc<'k>,
    seed: u64,
) -> Vec<Work> {
    let board = Board {
        seed,
        now: AtomicU64::new(0),
        ended: AtomicU64::new(0),
    };
    let (done, good) = join(
        rt,
        || thread::map_vec(
            rt,
            jobs,
            &|mut job: Job| -> Work { works(rt, &mut job, &board) },
        ),
        || ticks(rt, &mut watch, ticker, &board),
    );
    assert!(rt; good);
    done.ok().expect(rt, "no memory for the answers")
}

// Runs the crowd by all seats but one, by which the process that ticked counts what is left.
fn hold<'t, 'k, R: Threads + Wait + Abort + Sync>(
    rt: &R,
    alloc: Global,
    mut seats: Vec<Seat<'_>>,
    mut watch: Watch<'t>,
    started: Started<'k>,
    seed: u64,
) {
    let Started {
        mut roster,
        mut proc,
    } = started;
    let mut last = seats.pop().expect(rt, "no seat was given");
    let procs = forks(alloc, &mut roster, &mut proc, HOLDERS).expect(rt, "no processes");
    let jobs = jobs_of(rt, alloc, procs, seats, &mut watch);
    let done = run_crowd(rt, jobs, watch, &mut proc, seed);
    let left = units_left(rt, &mut proc, &mut last);
    count_units(rt, done.as_slice(), left, seed);
}

// Makes the semaphore and the clock of the crowd.
fn hold_at_a_clock<R: Threads + Wait + Abort + Sync>(
    rt: &R,
    alloc: Global,
    mut started: Started<'_>,
    seed: u64,
) {
    let mut semaphore = semaphore_of(rt, alloc, &mut started.roster, OPENING, HOLDERS + 1);
    let mut clock = Clock::new(alloc, HOLDERS + 1).expect(rt, "no clock");
    let watch = clock.watch().expect(rt, "nobody had the first watch");
    let seats = seats_of(rt, alloc, &mut semaphore, HOLDERS + 1);
    hold(rt, alloc, seats, watch, started, seed);
}

#[test]
fn no_unit_is_lost_and_none_is_given_twice(rt: HostRuntime) {
    let OpenedKernel { kernel, start } = kernel_of(&rt, rt.alloc(), HOLDERS + 1, HOLDERS + 1);
    hold_at_a_clock(&rt, rt.alloc(), kernel.start(start), seed_of(&rt));
}

// A semaphore of so many units for so many. Where memory is refused it is asked for once more.
fn semaphore_of(
    rt: &impl Abort,
    alloc: Global,
    roster: &mut Roster<'_>,
    units: u32,
    procs: u64,
) -> Semaphore {
    let made = match Semaphore::new(alloc, roster, units, procs) {
        Err(Fault::Memory) => Semaphore::new(alloc, roster, units, procs),
        made => made,
    };
    made.expect(rt, "no semaphore")
}

fn seats_of<'s, R: Wait + Abort>(
    rt: &R,
    alloc: Global,
    semaphore: &'s mut Semaphore,
    count: u64,
) -> Vec<Seat<'s>> {
    let seats = semaphore.seats(alloc, rt, count);
    seats.expect(rt, "no seats")
}

// By each seat it takes the unit, which is not there then, and hands it back.
fn hold_in_turn<R: Wait + Abort>(rt: &R, proc: &mut Proc<'_>, seats: &mut [Seat<'_>]) {
    assert_eq!(rt; seats.len(), 2);
    for seat in seats.iter_mut() {
        assert_eq!(rt; seat.acquire(rt, proc), Ok(()));
        assert_eq!(rt; seat.try_acquire(rt, proc), Ok(false));
        assert_eq!(rt; seat.release(rt, proc, 1), Ok(1));
    }
}

// Holds by two seats in turn. Says whether there was memory for their list.
fn holds_by_two<R: Wait + Abort>(
    rt: &R,
    alloc: Global,
    semaphore: &mut Semaphore,
    proc: &mut Proc<'_>,
) -> bool {
    match semaphore.seats(alloc, rt, 2) {
        Ok(mut seats) => {
            hold_in_turn(rt, proc, seats.as_mut_slice());
            true
        }
        Err(fault) => {
            assert_eq!(rt; fault, Fault::Memory);
            false
        }
    }
}

// A semaphore by two seats of which a process holds, once more where that was refused memory. What
// is left then.
fn left_of_two<R: Wait + Abort>(rt: &R, alloc: Global, started: Started<'_>) -> (u64, u64) {
    let Started {
        mut roster,
        mut proc,
    } = started;
    let mut semaphore = semaphore_of(rt, alloc, &mut roster, 1, 2);
    if !holds_by_two(rt, alloc, &mut semaphore, &mut proc) {
        assert!(rt; semaphore.has_seat());
        assert!(rt; holds_by_two(rt, alloc, &mut semaphore, &mut proc));
    }
    assert!(rt; !semaphore.has_seat());
    assert_eq!(rt; semaphore.seat().err(), Some(Fault::NoProc));
    roster.left()
}

// No pid, no Rendez and no seat is used up where memory is refused.
#[test]
fn a_semaphore_that_is_refused_memory_has_all_its_seats(rt: HostRuntime) {
    let OpenedKernel { kernel, start } = kernel_of(&rt, rt.alloc(), 2, 3);
    assert_eq!(rt; left_of_two(&rt, rt.alloc(), kernel.start(start)), (1, 1));
}

// Refused at 0 and above the processes, with the first seat still there; then all are given, and
// none is left.
fn give_all<R: Wait + Abort>(rt: &R, alloc: Global, started: &mut Started<'_>, count: u64) {
    let mut semaphore = semaphore_of(rt, alloc, &mut started.roster, 0, count);
    assert_eq!(rt; semaphore.seats(alloc, rt, 0).err(), Some(Fault::NoProc));
    assert_eq!(rt;
        semaphore.seats(alloc, rt, count.saturating_add(1)).err(),
        Some(Fault::NoProc)
    );
    assert!(rt; semaphore.has_seat());
    let mut seats = seats_of(rt, alloc, &mut semaphore, count);
    assert_eq!(rt; seats.len() as u64, count);
    for seat in seats.iter_mut() {
        assert_eq!(rt; seat.split(rt).err(), Some(Fault::NoProc));
    }
}

#[test]
fn all_seats_are_given_at_each_size(rt: HostRuntime) {
    for count in 1..=1_024 {
        let OpenedKernel { kernel, start } = kernel_of(&rt, rt.alloc(), 1, count);
        give_all(&rt, rt.alloc(), &mut kernel.start(start), count);
    }
}

// Each call by a process of a kernel with fewer Rendez is refused, and its notes are still pending;
// the seat then serves a process that may call.
fn refuses_strangers<R: Wait + Abort>(
    rt: &R,
    alloc: Global,
    mut own: Started<'_>,
    mut stranger: Proc<'_>,
) {
    let mut semaphore = semaphore_of(rt, alloc, &mut own.roster, 1, 2);
    let mut clock = Clock::new(alloc, 1).expect(rt, "no clock");
    let mut watch = clock.watch().expect(rt, "nobody had the first watch");
    let mut seat = semaphore.seat().expect(rt, "nobody had the first seat");
    let alarm = NoteSet::of(Note::Alarm);
    assert_eq!(rt; stranger.postnote(Pid(0), alarm), Ok(()));
    assert_eq!(rt; seat.acquire(rt, &mut stranger), Err(Fault::NoRendez));
    assert_eq!(rt; seat.try_acquire(rt, &mut stranger), Err(Fault::NoRendez));
    assert_eq!(rt;
        seat.acquire_within(rt, &mut stranger, &mut watch, 0, 1),
        Err(Fault::NoRendez)
    );
    assert_eq!(rt; seat.release(rt, &mut stranger, 1), Err(Fault::NoRendez));
    assert_eq!(rt; stranger.notes(), alarm);
    assert_eq!(rt; seat.acquire(rt, &mut own.proc), Ok(()));
    assert_eq!(rt; seat.release(rt, &mut own.proc, 1), Ok(1));
}

#[test]
fn a_process_of_another_kernel_calls_by_no_seat(rt: HostRuntime) {
    let OpenedKernel { kernel, start } = kernel_of(&rt, rt.alloc(), 1, 2);
    let OpenedKernel {
        kernel: other,
        start: others,
    } = kernel_of(&rt, rt.alloc(), 1, 1);
    let stranger = other.start(others).proc;
    refuses_strangers(&rt, rt.alloc(), kernel.start(start), stranger);
}

/// A process, a semaphore of one unit, and timers.
#[derive(Drop)]
struct Alone<'k> {
    proc: Proc<'k>,
    opened: OpenedSema,
    timed: OpenedTimers,
}

fn open_one<'k>(rt: &impl Abort, alloc: Global, kernel: &'k Kernel, start: Start) -> Alone<'k>
    requires { IsStartOf kernel.now start }
    ensures seat { IsSemaSeatOf result.opened.sema result.opened.seat }
    ensures row { OwnsRow result.opened.sema result.proc.words }
    ensures timer { IsTimerSeatOf result.timed.timers result.timed.seat }
{
    let Started { mut roster, proc } = kernel.start(start);
    Alone {
        proc,
        opened: Sema::new(alloc, &mut roster, 1, 1).expect(rt, "no semaphore"),
        timed: Timers::new(alloc, 1).expect(rt, "no timers"),
    }
}

// The example of semacquire(2), line for line.
fn semacquire_lines<R: Wait + Abort>(
    rt: &R,
    sema: &Sema,
    timers: &Timers,
    mut proc: Proc<'_>,
    mut seat: SemaSeat,
    mut timer: TimerSeat,
)
    requires seat { IsSemaSeatOf sema.now seat }
    requires row { OwnsRow sema.now proc.words }
    requires timer { IsTimerSeatOf timers.now timer }
{
    assert_eq!(rt;
        sema.semacquire(&rt, &mut proc, &mut seat, true),
        Ok(Semacquired::Acquired)
    );
    assert_eq!(rt;
        sema.semacquire(&rt, &mut proc, &mut seat, false),
        Ok(Semacquired::NotNow)
    );
    assert_eq!(rt; sema.semrelease(&rt, &mut proc, &mut seat, 2), Ok(2));
    assert_eq!(rt;
        sema.tsemacquire(&rt, &mut proc, &mut seat, &timers, &mut timer, 100, 50),
        Ok(())
    );
    assert_eq!(rt; timers.tick(&rt, &mut proc, &mut timer, 150), 0);
}

#[test]
fn semacquire_page(rt: HostRuntime) {
    let OpenedKernel { kernel, start } = kernel_of(&rt, rt.alloc(), 1, 1);
    let Alone {
        proc,
        opened: OpenedSema { sema, seat },
        timed: OpenedTimers {
            timers,
            seat: timer,
        },
    } = open_one(&rt, rt.alloc(), &kernel, start);
    semacquire_lines(&rt, &sema, &timers, proc, seat, timer);
}
