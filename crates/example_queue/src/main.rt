//! A queue of values: two producers send jobs, while there is room for four, and two consumers
//! receive them until the end, which comes once both producers have closed. All of them start
//! together.
#![tactic(auto)]

use plan9::{
    Ended, Fault, Job, Messages, OpenedKernel, Plan, Proc, QueueEnds, Received, Receiver, Sender,
    Started, Team, Worker, forks,
};
use std::alloc::Global;
use std::sync::Wait;
use std::thread::Threads;

/// How many jobs each producer makes.
const JOBS: u64 = 20;

/// How many producers there are, and how many of them and of the consumers.
const PRODUCERS: u64 = 2;

const PARTIES: u64 = 2 * PRODUCERS;

#[derive(Clone, Copy)]
struct JobNumber(u64);

#[derive(Drop)]
enum Party<'m> {
    Producer(Sender<'m, JobNumber>),
    Consumer(Receiver<'m, JobNumber>),
}

impl<'m, R: Wait> Job<R> for Party<'m> {
    type Out = Result<u64, Fault>;

    fn run(self, rt: &R, proc: &mut Proc<'_>) -> Result<u64, Fault> {
        match self {
            Party::Producer(mut jobs) => {
                let made = produce(rt, proc, &mut jobs);
                jobs.close(rt, proc).and(made)
            }
            Party::Consumer(mut jobs) => {
                let sum = consume(rt, proc, &mut jobs);
                jobs.close(rt, proc).and(sum)
            }
        }
    }
}

fn produce<R: Wait>(
    rt: &R,
    proc: &mut Proc<'_>,
    jobs: &mut Sender<'_, JobNumber>,
) -> Result<u64, Fault> {
    for number in 1..=JOBS {
        jobs.send(rt, proc, JobNumber(number))?;
    }
    Ok(0)
}

/// Adds up the numbers of the jobs, until the end.
fn consume<R: Wait>(
    rt: &R,
    proc: &mut Proc<'_>,
    jobs: &mut Receiver<'_, JobNumber>,
) -> Result<u64, Fault> {
    let mut sum = 0u64;
    for _ in rt.forever() {
        let Received::Value(JobNumber(number)) = jobs.receive(rt, proc)? else {
            break;
        };
        sum = sum.saturating_add(number);
    }
    Ok(sum)
}

fn add_up(ended: &[Ended<'_, Result<u64, Fault>>]) -> Result<u64, Fault> {
    let mut sum = 0u64;
    for one in ended {
        sum = sum.saturating_add(one.out?);
    }
    Ok(sum)
}

/// Closes the handles that all others were split from.
fn close_ends<R: Wait>(
    rt: &R,
    proc: &mut Proc<'_>,
    ends: QueueEnds<'_, JobNumber>,
) -> Result<(), Fault> {
    let QueueEnds { sender, receiver } = ends;
    sender.close(rt, proc).and(receiver.close(rt, proc))
}

/// A handle for each party, the producers first.
fn parties<'m, R: Wait>(
    rt: &R,
    alloc: Global,
    ends: &mut QueueEnds<'m, JobNumber>,
) -> Result<Vec<Party<'m>>, Fault> {
    let mut parties = Vec::new(alloc);
    for number in 0..PARTIES {
        parties.push(if number < PRODUCERS {
            Party::Producer(ends.sender.split(rt)?)
        } else {
            Party::Consumer(ends.receiver.split(rt)?)
        })?;
    }
    Ok(parties)
}

fn run_all<R: Threads + Wait + Sync>(
    rt: &R,
    alloc: Global,
    ends: QueueEnds<'_, JobNumber>,
    started: &mut Started<'_>,
) -> Result<u64, Fault> {
    let Started { roster, proc } = started;
    let mut ends = ends;
    let parties = parties(rt, alloc, &mut ends)?;
    close_ends(rt, proc, ends)?;
    let mut team = Team::new(roster, PARTIES)?;
    let mut workers = Vec::new(alloc);
    for (proc, job) in forks(alloc, roster, proc, PARTIES)?
        .into_iter()
        .zip(parties)
    {
        workers.push(Worker { proc, job })?;
    }
    add_up(&team.run(alloc, rt, proc, workers, &mut ())?)
}

fn run<R: Threads + Wait + Sync>(rt: &R, alloc: Global) -> Result<u64, Fault> {
    let plan = Plan::new().queue(PARTIES + 2).team(PARTIES);
    let OpenedKernel { kernel, start } = plan.build(alloc)?;
    let mut started = kernel.start(start);
    let mut jobs = Messages::new(alloc, &mut started.roster, 4, PARTIES + 2)?;
    let ends = jobs.ends(rt)?;
    run_all(rt, alloc, ends, &mut started)
}

fn main(rt: HostRuntime) -> anyhow::Result<()> {
    let sum = run(&rt, rt.alloc())?;
    println!(rt; "the numbers of the jobs add up to {sum}")?;
    Ok(())
}
