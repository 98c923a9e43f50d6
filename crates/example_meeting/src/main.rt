//! Clients meet a window system by tags: each asks for columns under a tag of its own, and is
//! answered there. Nobody meets the last client. A note ends its wait, and it leaves with the note.
#![tactic(auto)]

use plan9::{
    Fault, Job, Member, Note, NoteSet, OpenedKernel, Pid, Plan, Proc, Space, Started, Tag, Team,
    Worker, forks,
};
use std::alloc::Global;
use std::sync::Wait;
use std::thread::Threads;

/// The clients are the processes from 1 to this number, and the window system is the next.
const LAST: u64 = 4;

/// How many columns a client was granted.
type Granted = Result<u64, Fault>;

/// A client, or the window system.
#[derive(Drop)]
struct Caller<'s>(Member<'s>);

impl<'s> Caller<'s> {
    /// Asks for 20 columns more than the client before it, and returns how many were granted: none
    /// to a client that was sent away.
    fn ask<R: Wait>(&mut self, rt: &R, proc: &mut Proc<'_>) -> Granted {
        let (Pid(number), Caller(member)) = (proc.pid(), self);
        let wanted = number.saturating_mul(20).saturating_add(20);
        match member.rendezvous(rt, proc, Tag(number), wanted) {
            Ok(_) => member.rendezvous(rt, proc, Tag(number), 0),
            Err(Fault::Interrupted(notes)) if notes.has(Note::Hangup) => Ok(0),
            Err(fault) => Err(fault),
        }
    }

    /// Grants all clients but the last at most 70 columns, and sends the last away.
    fn serve<R: Wait>(&mut self, rt: &R, proc: &mut Proc<'_>) -> Result<(), Fault> {
        let Caller(member) = self;
        for client in 1..LAST {
            let wanted = member.rendezvous(rt, proc, Tag(client), 0)?;
            member.rendezvous(rt, proc, Tag(client), wanted.min(70))?;
        }
        proc.postnote(Pid(LAST), NoteSet::of(Note::Hangup))
    }
}

impl<'s, R: Wait> Job<R> for Caller<'s> {
    type Out = Granted;

    fn run(mut self, rt: &R, proc: &mut Proc<'_>) -> Granted {
        if proc.pid().0 > LAST {
            self.serve(rt, proc).map(|()| 0)
        } else {
            self.ask(rt, proc)
        }
    }
}

/// All are children of the first process, and start together.
fn run_all<R: Threads + Wait + Sync>(
    rt: &R,
    alloc: Global,
    space: &mut Space,
    started: &mut Started<'_>,
) -> Result<Vec<Granted>, Fault> {
    let Started { roster, proc } = started;
    let mut team = Team::new(roster, LAST + 1)?;
    let members = space.members(alloc, rt, LAST + 1)?;
    let mut workers = Vec::new(alloc);
    for (child, member) in forks(alloc, roster, proc, LAST + 1)?
        .into_iter()
        .zip(members)
    {
        let job = Caller(member);
        workers.push(Worker { proc: child, job })?;
    }
    let mut granted = Vec::new(alloc);
    for ended in team.run(alloc, rt, proc, workers, &mut ())? {
        granted.push(ended.out)?;
    }
    granted.pop().ok_or(Fault::NoProc)??;
    Ok(granted)
}

fn run<R: Threads + Wait + Sync>(rt: &R, alloc: Global) -> Result<Vec<Granted>, Fault> {
    let plan = Plan::new().space(LAST + 1).team(LAST + 1);
    let OpenedKernel { kernel, start } = plan.build(alloc)?;
    let mut started = kernel.start(start);
    let mut space = Space::new(alloc, &mut started.roster, LAST + 1)?;
    run_all(rt, alloc, &mut space, &mut started)
}

fn main(rt: HostRuntime) -> anyhow::Result<()> {
    let granted = run(&rt, rt.alloc())?;
    println!(rt; "columns granted: {granted:?}")?;
    Ok(())
}
