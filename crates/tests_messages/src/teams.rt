//! Teams on threads. Every run ends by itself.
ghost use Rattle.sleep_wakeup.specs.Starts.{IsStartOf};

use sleep_wakeup::{Kernel, Opened, Proc, Roster, Started};
use std::alloc::Global;
use std::process::Abort;
use std::sync::Wait;
use std::sync::atomic::AtomicU64;
use std::sync::atomic::Ordering::SeqCst;
use std::thread::Threads;
use sync_base::{Fault, Flags, Note, NoteSet, Pid, RendezId};
use together::{Ended, Job, Refused, Team, Told, Worker};

/// What a job of the tests does.
#[derive(Drop)]
enum Deed<'a> {
    /// Adds one to the number of steps, and returns this number.
    Counts(&'a AtomicU64, u64),
    /// Wakes the next in a ring, by this Rendez, and sleeps in its own until it is woken.
    Meets { own: RendezId, next: RendezId },
    /// Sleeps in this Rendez until notes come, which it returns.
    Listens(RendezId),
}

/// What came of it: a number, or the notes that ended a sleep.
#[derive(Clone, Copy, PartialEq, Eq, Debug)]
enum Found {
    Number(u64),
    Notes(NoteSet),
    Failed,
}

impl<'a, R: Wait> Job<R> for Deed<'a> {
    type Out = Found;

    fn run(self, rt: &R, proc: &mut Proc<'_>) -> Found {
        match self {
            Deed::Counts(steps, number) => {
                steps.fetch_add(1, SeqCst);
                Found::Number(number)
            }
            Deed::Meets { own, next } => {
                let woke = proc.wakeup(next, 1);
                let slept = proc.sleep(rt, own, 0);
                if woke.is_ok() && slept.is_ok() {
                    Found::Number(own.0)
                } else {
                    Found::Failed
                }
            }
            Deed::Listens(rendez) => match proc.sleep(rt, rendez, 0) {
                Err(Fault::Interrupted(notes)) => Found::Notes(notes),
                _ => Found::Failed,
            },
        }
    }
}

/// A kernel with processes, and what is left of it.
fn kernel_of(rt: &impl Abort, alloc: Global, procs: u64, rendez: u64) -> Opened
    ensures start { IsStartOf result.kernel result.start }
{
    let made = match Kernel::new(alloc, procs, rendez) {
        Err(Fault::Memory) => Kernel::new(alloc, procs, rendez),
        made => made,
    };
    made.expect(rt, "no kernel")
}

fn forked<'k>(rt: &impl Abort, roster: &mut Roster<'k>, parent: &mut Proc<'k>) -> Proc<'k> {
    match roster.rfork(parent, Flags::RFPROC) {
        Ok(Some(child)) => child,
        _ => panic!(rt; "no pid is left"),
    }
}

/// Room for this many, asked for twice.
fn room<T: Drop>(rt: &impl Abort, alloc: Global, many: usize) -> Vec<T> {
    match Vec::with_capacity(alloc, many) {
        Ok(room) => room,
        Err(_) => Vec::with_capacity(alloc, many).expect(rt, "no memory"),
    }
}

fn push<T: Drop>(rt: &impl Abort, all: &mut Vec<T>, one: T) {
    if all.push(one).is_err() {
        panic!(rt; "no memory");
    }
}

/// Adds up the numbers of the jobs that have ended, counted from 1.
#[derive(Drop)]
struct Sums<'e>(&'e AtomicU64);

impl<'e, R> Told<R> for Sums<'e> {
    fn told(&mut self, _rt: &R, _proc: &mut Proc<'_>, number: usize) {
        self.0.fetch_add((number as u64).saturating_add(1), SeqCst);
    }
}

/// Posts a note to process 3 once the first job has ended.
#[derive(Drop)]
struct Alarms(NoteSet);

impl<R> Told<R> for Alarms {
    fn told(&mut self, _rt: &R, proc: &mut Proc<'_>, number: usize) {
        if number == 0 {
            let _posted = proc.postnote(Pid(3), self.0);
        }
    }
}

// Runs the workers of a team, and adds up the numbers of which the caller was told, counted from 1.
fn run_counted<'a, 'k, R: Threads + Wait + Sync>(
    rt: &R,
    alloc: Global,
    team: &mut Team,
    proc: &mut Proc<'k>,
    workers: Vec<Worker<'k, Deed<'a>>>,
    ends: &AtomicU64,
) -> Result<Vec<Ended<'k, Found>>, Refused<'k, Deed<'a>>> {
    team.run(alloc, rt, proc, workers, &mut Sums(ends))
}

// Runs the workers of a team that was refused once more: all are back, and none has made a step.
fn run_again<'a, 'k, R: Threads + Wait + Sync + Abort>(
    rt: &R,
    alloc: Global,
    team: &mut Team,
    proc: &mut Proc<'k>,
    refused: Refused<'k, Deed<'a>>,
    ends: &AtomicU64,
) -> Vec<Ended<'k, Found>> {
    assert!(rt; matches!(refused.fault, Fault::Memory | Fault::Device));
    assert_eq!(rt; ends.load(SeqCst), 0);
    assert_eq!(rt; refused.workers.len(), RING as usize);
    for (number, worker) in (0..).zip(refused.workers.iter()) {
        assert!(rt;
            matches!(worker.job, Deed::Meets { own, .. } if own.0 % RING == (number + 1) % RING)
        );
        assert_eq!(rt; worker.proc.pid().0 % RING, (number + 1) % RING);
    }
    match run_counted(rt, alloc, team, proc, refused.workers, ends) {
        Ok(ended) => ended,
        Err(_) => panic!(rt; "the ring did not start"),
    }
}

const RING: u64 = 7;
/// The numbers of the ring, counted from 1, in all.
const ALL: u64 = 28;

// Each of a ring waits for the one before it, so the jobs end only if all run at once.
fn ring<R: Threads + Wait + Sync + Abort>(rt: &R, alloc: Global, started: Started<'_>, runs: u64) {
    let Started {
        mut roster,
        mut proc,
    } = started;
    let mut team = Team::new(&mut roster, RING).expect(rt, "no team");
    for _ in 0..runs {
        let first = roster.row(RING).expect(rt, "no Rendez");
        let mut workers = room(rt, alloc, RING as usize);
        for number in 0..RING {
            let own = RendezId(first.0.saturating_add(number));
            let next = RendezId(first.0.saturating_add((number + 1) % RING));
            let worker = Worker {
                proc: forked(rt, &mut roster, &mut proc),
                job: Deed::Meets { own, next },
            };
            push(rt, &mut workers, worker);
        }
        let ends = AtomicU64::new(0);
        let ended = match run_counted(rt, alloc, &mut team, &mut proc, workers, &ends) {
            Ok(ended) => ended,
            Err(refused) => run_again(rt, alloc, &mut team, &mut proc, refused, &ends),
        };
        assert_eq!(rt; ends.load(SeqCst), ALL);
        for (number, one) in (0..).zip(ended.iter()) {
            assert_eq!(rt; one.out, Found::Number(first.0.saturating_add(number)));
            assert_eq!(rt; one.proc.pid().0 % RING, (number + 1) % RING);
        }
        assert_eq!(rt; ended.len(), RING as usize);
    }
}

#[test]
fn jobs_that_wait_for_each_other_end_in_order(rt: HostRuntime) {
    let runs = 20;
    let Opened { kernel, start } = kernel_of(&rt, rt.alloc(), 1 + runs * RING, 8 + runs * RING);
    ring(&rt, rt.alloc(), kernel.start(start), runs);
}

// The first job ends at once; the caller is told, and ends the others by notes.
fn stopped<R: Threads + Wait + Sync + Abort>(rt: &R, alloc: Global, started: Started<'_>) {
    let Started {
        mut roster,
        mut proc,
    } = started;
    let mut team = Team::new(&mut roster, 3).expect(rt, "no team");
    let steps = AtomicU64::new(0);
    let alarm = NoteSet::of(Note::Alarm);
    let mut workers = room(rt, alloc, 3);
    for number in 0..3u64 {
        let job = if number == 0 {
            Deed::Counts(&steps, 5)
        } else {
            Deed::Listens(roster.rendez().expect(rt, "no Rendez"))
        };
        let proc = forked(rt, &mut roster, &mut proc);
        push(rt, &mut workers, Worker { proc, job });
    }
    // A note that comes before the start is for the job.
    let hangup = NoteSet::of(Note::Hangup);
    assert_eq!(rt; proc.postnote(Pid(2), hangup), Ok(()));
    // A note to the caller does not end its wait, and is pending after it.
    proc.put_back(alarm);
    let Ok(ended) = team.run(alloc, rt, &mut proc, workers, &mut Alarms(alarm)) else {
        panic!(rt; "the team did not start");
    };
    let wanted = [Found::Number(5), Found::Notes(hangup), Found::Notes(alarm)];
    assert_eq!(rt; ended.len(), 3);
    for (one, wanted) in ended.iter().zip(wanted.iter()) {
        assert_eq!(rt; one.out, *wanted);
    }
    assert_eq!(rt; proc.notes(), alarm);
}

#[test]
fn caller_is_told_who_ended(rt: HostRuntime) {
    let Opened { kernel, start } = kernel_of(&rt, rt.alloc(), 4, 6);
    stopped(&rt, rt.alloc(), kernel.start(start));
}

// A team of two refuses three jobs, and each comes back in its place.
fn refused<R: Threads + Wait + Sync + Abort>(rt: &R, alloc: Global, started: Started<'_>) {
    let Started {
        mut roster,
        mut proc,
    } = started;
    let mut team = Team::new(&mut roster, 2).expect(rt, "no team");
    assert!(rt; Team::new(&mut roster, 2).is_err());
    let steps = AtomicU64::new(0);
    let mut workers = room(rt, alloc, 3);
    for number in 0..3u64 {
        let job = Deed::Counts(&steps, number);
        let proc = forked(rt, &mut roster, &mut proc);
        push(rt, &mut workers, Worker { proc, job });
    }
    let Err(refused) = team.run(alloc, rt, &mut proc, workers, &mut ()) else {
        panic!(rt; "three jobs ran in a team of two");
    };
    assert_eq!(rt; refused.fault, Fault::NoRendez);
    assert_eq!(rt; refused.workers.len(), 3);
    for (number, worker) in (0..).zip(refused.workers.iter()) {
        assert!(rt; matches!(worker.job, Deed::Counts(_, own) if own == number));
        assert_eq!(rt; worker.proc.pid().0, number + 1);
    }
    assert_eq!(rt; steps.load(SeqCst), 0);
}

#[test]
fn team_that_is_too_small_hands_the_jobs_back(rt: HostRuntime) {
    let Opened { kernel, start } = kernel_of(&rt, rt.alloc(), 4, 5);
    refused(&rt, rt.alloc(), kernel.start(start));
}
