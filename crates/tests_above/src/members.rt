//! Eight processes that meet at random tags, every other time until a moment, while a ninth ticks
//! and posts notes at random. Both sides of each exchange report it, once each, with the other's
//! value. After all that each meets its neighbour: nothing that was late reaches that wait.
use crate::dice::{Dice, seed_of};
use crate::kernels::{forked, kernel_of, push};
use plan9::{
    Clock, Fault, Member, Note, NoteSet, OpenedKernel, Pid, Proc, Space, Started, Tag, Watch,
};
use std::alloc::Global;
use std::process::Abort;
use std::sync::Wait;
use std::sync::atomic::AtomicU64;
use std::sync::atomic::Ordering::SeqCst;
use std::thread::{self, Threads, join, yield_now};

const CALLERS: u64 = 8;

/// How many tags the callers choose from.
const TAGS: u64 = 4;

/// How many meetings there are, at least.
const MEETINGS: u64 = 2_000;

/// The number of the last call of each process, which has no deadline and comes after all others.
const LAST: u64 = 1 << 38;

/// How many moments a call with a deadline waits.
const MOMENTS: u32 = 8;

/// What the callers and the poster share outside the space.
#[derive(Drop)]
struct Board {
    seed: u64,
    /// The moment of the last tick.
    now: AtomicU64,
    /// How many calls were answered with a value.
    told: AtomicU64,
    /// How many callers have ended, and whether no note is posted any more.
    ended: AtomicU64,
    quiet: AtomicU64,
}

/// The value of a caller and the value that it got for it.
#[derive(Clone, Copy, Debug, PartialEq, Eq, PartialOrd, Ord)]
struct Exchange {
    given: u64,
    got: u64,
}

/// What came of a caller: its exchanges, and how many calls were ended by notes, ended by ticks,
/// and refused.
#[derive(Drop)]
struct Work {
    exchanges: Vec<Exchange>,
    interrupted: u64,
    timed_out: u64,
    refused: u64,
}

/// A caller of the crowd.
#[derive(Drop)]
struct Job<'s, 't, 'k> {
    proc: Proc<'k>,
    member: Member<'s>,
    watch: Watch<'t>,
    number: u64,
}

// A value that says whose it is, which of its calls, and under which tag.
fn value_of(number: u64, call: u64, tag: u64) -> u64 {
    number
        .wrapping_shl(48)
        .wrapping_add(call.wrapping_shl(8))
        .wrapping_add(tag)
}

// Calls once under the tag of this value, with a deadline or without.
fn rendezvous<R: Wait>(rt: &R, job: &mut Job, board: &Board, given: u64) -> Result<u64, Fault> {
    let Job {
        proc,
        member,
        watch,
        number: _,
    } = job;
    let tag = Tag(given % 256);
    if given % 512 < 256 {
        return member.rendezvous(rt, proc, tag, given);
    }
    let now = board.now.load(SeqCst);
    member.rendezvous_within(rt, proc, watch, now, MOMENTS, tag, given)
}

// The same, and what comes of it.
fn calls<R: Wait + Abort>(rt: &R, job: &mut Job, board: &Board, work: &mut Work, given: u64) {
    match rendezvous(rt, job, board, given) {
        Ok(got) => {
            board.told.fetch_add(1, SeqCst);
            if work.exchanges.push(Exchange { given, got }).is_err() {
                panic!(rt; "no memory for an exchange");
            }
        }
        Err(Fault::Interrupted(_)) => work.interrupted = work.interrupted.saturating_add(1),
        Err(Fault::TimedOut) => work.timed_out = work.timed_out.saturating_add(1),
        Err(_) => work.refused = work.refused.saturating_add(1),
    }
}

// Meets its neighbour with no deadline, once no note is posted any more. None is left of a tick,
// and none ends this wait.
fn meets_neighbour<R: Wait + Abort>(rt: &R, job: &mut Job, board: &Board, work: &mut Work) {
    for _ in rt.forever() {
        if board.quiet.load(SeqCst) > 0 {
            break;
        }
        yield_now();
    }
    let interrupted = work.interrupted;
    let is_late = job.proc.notes().has(Note::Expired);
    let tag = (TAGS + CALLERS).wrapping_add(job.number / 2);
    calls(rt, job, board, work, value_of(job.number, LAST, tag));
    if is_late || work.interrupted > interrupted {
        work.refused = work.refused.saturating_add(1);
    }
}

// Calls at random tags until there were meetings enough, and then at a tag of its own, under which
// it meets nobody, until notes and a tick have ended a wait of it.
fn works<R: Wait + Abort>(rt: &R, alloc: Global, job: &mut Job, board: &Board) -> Work {
    let mut work = Work {
        exchanges: Vec::new(alloc),
        interrupted: 0,
        timed_out: 0,
        refused: 0,
    };
    let number = job.number;
    let mut dice = Dice::of(board.seed, number);
    for call in 0..u64::MAX {
        let are_enough = board.told.load(SeqCst) >= 2 * MEETINGS;
        if are_enough && work.interrupted > 0 && work.timed_out > 0 {
            break;
        }
        let tag = if are_enough {
            TAGS.wrapping_add(number)
        } else {
            dice.roll(TAGS)
        };
        let given = value_of(number, call, tag);
        calls(rt, job, board, &mut work, given);
    }
    board.ended.fetch_add(1, SeqCst);
    meets_neighbour(rt, job, board, &mut work);
    work
}

// Posts notes at random and ticks until all callers have ended. Says whether no note was refused,
// no tick ended more waits than there may be, and no timer is left then.
fn posts<R: Wait>(rt: &R, proc: &mut Proc, watch: &mut Watch, board: &Board) -> bool {
    let mut good = true;
    let mut dice = Dice::of(board.seed, CALLERS);
    for _ in rt.forever() {
        if board.ended.load(SeqCst) >= CALLERS {
            break;
        }
        let to = Pid(dice.roll(CALLERS).wrapping_add(1));
        good = proc.postnote(to, NoteSet::of(Note::Alarm)).is_ok() && good;
        let now = board.now.fetch_add(1, SeqCst).wrapping_add(1);
        good = watch.tick(rt, proc, now) <= CALLERS && good;
        yield_now();
    }
    board.quiet.store(1, SeqCst);
    watch.tick(rt, proc, u64::MAX) == 0 && good
}

// One more of the crowd, with a watch and this number.
fn join_in<'s, 't, 'k, R: Wait + Abort>(
    rt: &R,
    jobs: &mut Vec<Job<'s, 't, 'k>>,
    watch: &mut Watch<'t>,
    proc: Proc<'k>,
    member: Member<'s>,
    number: u64,
) {
    let watch = watch.split(rt).expect(rt, "no watch is left");
    let job = Job {
        proc,
        member,
        watch,
        number,
    };
    push(rt, jobs, job);
}

// The crowd's callers: the first of them is the next process, and has the first member.
fn jobs_of<'s, 't, 'k, R: Wait + Abort>(
    rt: &R,
    alloc: Global,
    started: &mut Started<'k>,
    mut first: Member<'s>,
    watch: &mut Watch<'t>,
) -> Vec<Job<'s, 't, 'k>> {
    let mut jobs = Vec::new(alloc);
    let caller = forked(rt, started);
    for number in 1..CALLERS {
        let member = first.split(rt).expect(rt, "no member is left");
        join_in(rt, &mut jobs, watch, forked(rt, started), member, number);
    }
    join_in(rt, &mut jobs, watch, caller, first, 0);
    jobs
}

// No value was given twice, and each exchange has its other half, under the same tag.
fn are_halves(rt: &impl Abort, all: &[Exchange], seed: u64) {
    let mut last = None;
    for exchange in all.iter() {
        let half = Exchange {
            given: exchange.got,
            got: exchange.given,
        };
        assert!(rt;
            last != Some(exchange.given),
            "seed {seed}: {exchange:?} stands once"
        );
        assert!(rt;
            all.binary_search(&half).is_ok(),
            "seed {seed}: {exchange:?} has its other half"
        );
        assert_eq!(rt; exchange.given % 256, exchange.got % 256, "seed {seed}");
        last = Some(exchange.given);
    }
}

// Nothing was refused, and some notes and some ticks ended a wait.
fn are_ended_so(rt: &impl Abort, done: &[Work], seed: u64) {
    let mut interrupted = 0u64;
    let mut timed_out = 0u64;
    for work in done.iter() {
        assert_eq!(rt; work.refused, 0, "seed {seed}");
        interrupted = interrupted.saturating_add(work.interrupted);
        timed_out = timed_out.saturating_add(work.timed_out);
    }
    assert!(rt; interrupted > 0, "seed {seed}: some notes came in time");
    assert!(rt; timed_out > 0, "seed {seed}: some ticks came in time");
}

// They ended so, and each exchange has its other half.
fn meet_in_pairs(rt: &impl Abort, alloc: Global, done: &[Work], seed: u64) {
    are_ended_so(rt, done, seed);
    let mut all = Vec::new(alloc);
    for work in done.iter() {
        if all.extend_from_slice(work.exchanges.as_slice()).is_err() {
            panic!(rt; "no memory for the exchanges");
        }
    }
    all.sort_unstable();
    assert!(rt; all.len() as u64 >= 2 * MEETINGS, "seed {seed}");
    are_halves(rt, all.as_slice(), seed);
}

// Runs the crowd, beside one that posts notes and ticks.
fn run_crowd<'s, 't, 'k, R: Threads + Wait + Abort + Sync>(
    rt: &R,
    alloc: Global,
    jobs: Vec<Job<'s, 't, 'k>>,
    mut poster: Proc<'k>,
    mut watch: Watch<'t>,
    seed: u64,
) -> Vec<Work> {
    let board = Board {
        seed,
        now: AtomicU64::new(0),
        told: AtomicU64::new(0),
        ended: AtomicU64::new(0),
        quiet: AtomicU64::new(0),
    };
    let (done, good) = join(
        rt,
        || thread::map_vec(
            rt,
            jobs,
            &|mut job: Job| -> Work { works(rt, alloc, &mut job, &board) },
        ),
        || posts(rt, &mut poster, &mut watch, &board),
    );
    assert!(rt; good, "seed {seed}");
    done.ok().expect(rt, "no memory for the answers")
}

// The crowd meets, with this first member, beside the first process.
fn meet<'s, 't, 'k, R: Threads + Wait + Abort + Sync>(
    rt: &R,
    alloc: Global,
    first: Member<'s>,
    mut watch: Watch<'t>,
    mut started: Started<'k>,
    seed: u64,
) {
    let jobs = jobs_of(rt, alloc, &mut started, first, &mut watch);
    let done = run_crowd(rt, alloc, jobs, started.proc, watch, seed);
    meet_in_pairs(rt, alloc, done.as_slice(), seed);
}

// Makes the space and the clock of the crowd.
fn meet_in_a_space<R: Threads + Wait + Abort + Sync>(
    rt: &R,
    alloc: Global,
    mut started: Started<'_>,
    seed: u64,
) {
    let mut space = Space::new(alloc, &mut started.roster, CALLERS).expect(rt, "no space");
    let mut clock = Clock::new(alloc, CALLERS + 1).expect(rt, "no clock");
    let watch = clock.watch().expect(rt, "nobody had the first watch");
    let first = space.member().expect(rt, "nobody had the first member");
    meet(rt, alloc, first, watch, started, seed);
}

#[test]
fn a_crowd_meets_in_pairs(rt: HostRuntime) {
    let OpenedKernel { kernel, start } = kernel_of(&rt, rt.alloc(), CALLERS + 1, CALLERS);
    meet_in_a_space(&rt, rt.alloc(), kernel.start(start), seed_of(&rt));
}

// Each call by a process of a kernel with fewer Rendez is refused, and its notes are still pending;
// the member then serves a process that may call.
fn refuses_strangers<R: Wait + Abort>(
    rt: &R,
    alloc: Global,
    mut own: Started<'_>,
    mut stranger: Proc<'_>,
) {
    let mut space = Space::new(alloc, &mut own.roster, 2).expect(rt, "no space");
    let mut clock = Clock::new(alloc, 1).expect(rt, "no clock");
    let mut watch = clock.watch().expect(rt, "nobody had the first watch");
    let mut member = space.member().expect(rt, "nobody had the first member");
    let alarm = NoteSet::of(Note::Alarm);
    assert_eq!(rt; stranger.postnote(Pid(0), alarm), Ok(()));
    assert_eq!(rt;
        member.rendezvous(rt, &mut stranger, Tag(1), 2),
        Err(Fault::NoRendez)
    );
    assert_eq!(rt;
        member.rendezvous_word(rt, &mut stranger, Tag(1), 2),
        Err(Fault::NoRendez)
    );
    assert_eq!(rt;
        member.rendezvous_within(rt, &mut stranger, &mut watch, 0, 1, Tag(1), 2),
        Err(Fault::NoRendez)
    );
    assert_eq!(rt; stranger.notes(), alarm);
    assert_eq!(rt; own.proc.postnote(Pid(0), alarm), Ok(()));
    assert_eq!(rt;
        member.rendezvous(rt, &mut own.proc, Tag(1), 2),
        Err(Fault::Interrupted(alarm))
    );
}

#[test]
fn a_process_of_another_kernel_calls_by_no_member(rt: HostRuntime) {
    let OpenedKernel { kernel, start } = kernel_of(&rt, rt.alloc(), 1, 2);
    let OpenedKernel {
        kernel: other,
        start: others,
    } = kernel_of(&rt, rt.alloc(), 1, 1);
    let stranger = other.start(others).proc;
    refuses_strangers(&rt, rt.alloc(), kernel.start(start), stranger);
}

// Refused at 0 and above the members, and where memory is refused, with the first member still
// there; then all are given, and none is left.
fn give_all<R: Wait + Abort>(rt: &R, alloc: Global, space: &mut Space, count: u64) {
    assert_eq!(rt; space.members(alloc, rt, 0).err(), Some(Fault::NoProc));
    assert_eq!(rt;
        space.members(alloc, rt, count.saturating_add(1)).err(),
        Some(Fault::NoProc)
    );
    assert!(rt; space.has_member());
    let mut members = match space.members(alloc, rt, count) {
        Ok(members) => members,
        Err(fault) => {
            assert_eq!(rt; fault, Fault::Memory);
            return;
        }
    };
    assert_eq!(rt; members.len() as u64, count);
    for member in members.iter_mut() {
        assert_eq!(rt; member.split(rt).err(), Some(Fault::NoProc));
    }
}

// Why no member is given, once more where memory was refused.
fn why_none<R: Wait>(rt: &R, alloc: Global, space: &mut Space) -> Option<Fault> {
    let why = space.members(alloc, rt, 1).err();
    match why {
        Some(Fault::Memory) => space.members(alloc, rt, 1).err(),
        why => why,
    }
}

// Gives all, once more where memory was refused.
fn give_all_of<R: Wait + Abort>(rt: &R, alloc: Global, mut space: Space, count: u64) {
    give_all(rt, alloc, &mut space, count);
    if space.has_member() {
        give_all(rt, alloc, &mut space, count);
    }
    assert!(rt; !space.has_member());
    assert_eq!(rt; space.member().err(), Some(Fault::NoProc));
    assert_eq!(rt; why_none(rt, alloc, &mut space), Some(Fault::NoProc));
}

#[test]
fn all_members_are_given_or_none(rt: HostRuntime) {
    for count in [1, 2, 5, 1_024] {
        let OpenedKernel { kernel, start } = kernel_of(&rt, rt.alloc(), 1, count);
        let mut roster = kernel.start(start).roster;
        let space = match Space::new(rt.alloc(), &mut roster, count) {
            Err(Fault::Memory) => Space::new(rt.alloc(), &mut roster, count),
            made => made,
        };
        give_all_of(&rt, rt.alloc(), space.expect(&rt, "no space"), count);
    }
}
