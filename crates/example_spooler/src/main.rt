//! A print spooler. Six clients submit documents by a queue, with a deadline for each. A spooler
//! hands them on by a second queue to two printers, under a semaphore that counts the free ones,
//! and a printer meets the client whose document it has printed. One document is held back, and an
//! operator cancels its client by a note. All of them start together, and each is one process.
#![tactic(auto)]

use plan9::{
    Clock, Ended, Fault, Job, Member, Messages, Note, NoteSet, OpenedKernel, Pid, Plan, Proc,
    QueueEnds, RealTime, Received, RendezId, Roster, Seat, Semaphore, SendCalls, Space, Started,
    Tag, Team, Told, Watch, Worker, forks,
};
use std::alloc::Global;
use std::sync::Wait;
use std::thread::Threads;
use std::time::Clock as Now;

/// Who is who, by pid: the supervisor is 0, and the printers come before the operator.
const CLIENTS: u64 = 6;

const SPOOLER: u64 = CLIENTS + 1;

const PRINTERS: u64 = 2;

const OPERATOR: u64 = SPOOLER + PRINTERS + 1;

const TICKER: u64 = OPERATOR + 1;

/// How many there are, the supervisor too: each has a place at each object.
const SEATS: u64 = TICKER + 1;

/// How many documents a client has. Its first has one page, and each one more.
const DOCUMENTS: u64 = 20;

/// How many milliseconds a client waits for each document, and a printer for its client.
const PATIENCE: u32 = 60_000;

#[derive(Clone, Copy, PartialEq, Eq)]
struct Document {
    client: Pid,
    pages: u64,
}

const HELD: Document = Document {
    client: Pid(3),
    pages: 11,
};

/// How many documents a process was done with, and of how many pages.
#[derive(Clone, Copy, Default)]
struct Count {
    documents: u64,
    pages: u64,
}

impl Count {
    fn add(&mut self, documents: u64, pages: u64) {
        self.documents = self.documents.saturating_add(documents);
        self.pages = self.pages.saturating_add(pages);
    }
}

type Outcome = Result<Count, Fault>;

/// One of each: the objects, or a place at each.
#[derive(Drop)]
struct Each<Q: Drop, S: Drop, M: Drop, W: Drop> {
    jobs: Q,
    printing: Q,
    free: S,
    window: M,
    clock: W,
}

/// All of them, or the first fault.
fn all<Q: Drop, S: Drop, M: Drop, W: Drop>(
    jobs: Result<Q, Fault>,
    printing: Result<Q, Fault>,
    free: Result<S, Fault>,
    window: Result<M, Fault>,
    clock: Result<W, Fault>,
) -> Result<Each<Q, S, M, W>, Fault> {
    Ok(Each {
        jobs: jobs?,
        printing: printing?,
        free: free?,
        window: window?,
        clock: clock?,
    })
}

type Objects = Each<Messages<Document>, Semaphore, Space, Clock>;

fn objects(alloc: Global, roster: &mut Roster<'_>) -> Result<Objects, Fault> {
    all(
        Messages::new(alloc, roster, 4, 2 * SEATS),
        Messages::new(alloc, roster, 1, 2 * SEATS),
        Semaphore::new(alloc, roster, PRINTERS as u32, SEATS),
        Space::new(alloc, roster, SEATS),
        Clock::new(alloc, SEATS),
    )
}

type Ends<'o> = QueueEnds<'o, Document>;

fn split<'o, R: Wait>(rt: &R, ends: &mut Ends<'o>) -> Result<Ends<'o>, Fault> {
    let sender = ends.sender.split(rt)?;
    let receiver = ends.receiver.split(rt)?;
    Ok(QueueEnds { sender, receiver })
}

/// A place at each object, the time, and where the operator is called.
#[derive(Drop)]
struct Places<'o> {
    at: Each<Ends<'o>, Seat<'o>, Member<'o>, Watch<'o>>,
    time: &'o RealTime,
    desk: RendezId,
}

impl<'o> Places<'o> {
    fn new<R: Wait>(
        rt: &R,
        objects: &'o mut Objects,
        time: &'o RealTime,
        desk: RendezId,
    ) -> Result<Places<'o>, Fault> {
        let at = all(
            objects.jobs.ends(rt),
            objects.printing.ends(rt),
            objects.free.seat(),
            objects.window.member(),
            objects.clock.watch(),
        )?;
        Ok(Places { at, time, desk })
    }

    fn split<R: Wait>(&mut self, rt: &R) -> Result<Places<'o>, Fault> {
        let at = all(
            split(rt, &mut self.at.jobs),
            split(rt, &mut self.at.printing),
            self.at.free.split(rt),
            self.at.window.split(rt),
            self.at.clock.split(rt),
        )?;
        Ok(Places {
            at,
            time: self.time,
            desk: self.desk,
        })
    }

    /// A client submits all its documents, one after the other, and waits for each, until it is
    /// cancelled. Both waits for a document have one deadline.
    fn submit<R: Wait + Now>(&mut self, rt: &R, proc: &mut Proc<'_>) -> Outcome {
        let at = &mut self.at;
        let client = proc.pid();
        let tag = Tag(client.0);
        let mut count = Count::default();
        for pages in 1..=DOCUMENTS {
            let now = self.time.now(rt);
            let document = Document { client, pages };
            let sender = &mut at.jobs.sender;
            sender.send_within(rt, proc, &mut at.clock, now, PATIENCE, document)?;
            match at
                .window
                .rendezvous_within(rt, proc, &mut at.clock, now, PATIENCE, tag, 0)
            {
                Ok(printed) => count.add(1, printed),
                Err(Fault::Interrupted(notes)) if notes.has(Note::Interrupt) => break,
                Err(fault) => return Err(fault),
            }
        }
        Ok(count)
    }

    /// The spooler hands each document on once a printer is free, until the hangup. It reports the
    /// document that it holds back at the operator's desk.
    fn spool<R: Wait>(&mut self, rt: &R, proc: &mut Proc<'_>) -> Outcome {
        let mut count = Count::default();
        for _ in rt.forever() {
            let Received::Value(document) = self.at.jobs.receiver.receive(rt, proc)? else {
                break;
            };
            if document == HELD {
                proc.wakeup(self.desk, 1)?;
                continue;
            }
            self.at.free.acquire(rt, proc)?;
            self.at.printing.sender.send(rt, proc, document)?;
            count.add(1, document.pages);
        }
        Ok(count)
    }

    /// A printer prints each document, meets its client, and is free again, until the hangup. It
    /// waits no longer than a client does, so it goes on if the client has left.
    fn print<R: Wait + Now>(&mut self, rt: &R, proc: &mut Proc<'_>) -> Outcome {
        let at = &mut self.at;
        let mut count = Count::default();
        for _ in rt.forever() {
            let Received::Value(document) = at.printing.receiver.receive(rt, proc)? else {
                break;
            };
            let (tag, pages) = (Tag(document.client.0), document.pages);
            let now = self.time.now(rt);
            let (window, clock) = (&mut at.window, &mut at.clock);
            let _met = window.rendezvous_within(rt, proc, clock, now, PATIENCE, tag, pages);
            count.add(1, pages);
            at.free.release(rt, proc, 1)?;
        }
        Ok(count)
    }

    /// The operator waits for word of the document that is held back, and cancels its client.
    fn operate<R: Wait>(&mut self, rt: &R, proc: &mut Proc<'_>) -> Outcome {
        let mut count = Count::default();
        proc.sleep(rt, self.desk, 0)?;
        proc.postnote(HELD.client, NoteSet::of(Note::Interrupt))?;
        count.add(1, HELD.pages);
        Ok(count)
    }

    /// Each does what it is for. The ticker tells the time, until a note.
    fn work<R: Wait + Now>(&mut self, rt: &R, proc: &mut Proc<'_>) -> Outcome {
        match proc.pid().0 {
            SPOOLER => self.spool(rt, proc),
            OPERATOR => self.operate(rt, proc),
            TICKER => {
                let _notes = self.at.clock.run(rt, proc, &mut self.time.beat(rt));
                Ok(Count::default())
            }
            pid if pid < SPOOLER => self.submit(rt, proc),
            _ => self.print(rt, proc),
        }
    }
}

impl<'o, R: Wait + Now> Job<R> for Places<'o> {
    type Out = Outcome;

    fn run(mut self, rt: &R, proc: &mut Proc<'_>) -> Outcome {
        self.work(rt, proc)
    }
}

/// The supervisor has the first place at each object, and counts who has ended before the operator.
#[derive(Drop)]
struct Supervisor<'s, 'o> {
    places: &'s mut Places<'o>,
    ended: u64,
}

/// After the clients the spooler is to end. After it the printers are, and after a printer it is,
/// so that nobody waits for who has gone. After all these the operator and the ticker are to end.
impl<'s, 'o, R: Wait> Told<R> for Supervisor<'s, 'o> {
    fn told(&mut self, rt: &R, proc: &mut Proc<'_>, number: usize) {
        let pid = (number as u64).saturating_add(1);
        if pid >= OPERATOR {
            return;
        }
        self.ended = self.ended.saturating_add(1);
        if self.ended == CLIENTS {
            let _hung = self.places.at.jobs.sender.hangup(rt, proc);
        }
        if pid >= SPOOLER {
            let _hung = self.places.at.printing.sender.hangup(rt, proc);
            let _free = self.places.at.free.release(rt, proc, 1);
        }
        if self.ended == OPERATOR - 1 {
            let _woken = proc.wakeup(self.places.desk, 1);
            let _noted = proc.postnote(Pid(TICKER), NoteSet::of(Note::Interrupt));
        }
    }
}

/// What the clients, the spooler, the printers and the operator counted.
type Totals = Result<[Count; 4], Fault>;

fn sum(ended: &[Ended<'_, Outcome>]) -> Totals {
    let [mut clients, mut spooler, mut printers, mut others] = [Count::default(); 4];
    for (pid, one) in (1..).zip(ended) {
        let Count { documents, pages } = one.out?;
        match pid {
            SPOOLER => spooler.add(documents, pages),
            _ if pid < SPOOLER => clients.add(documents, pages),
            _ if pid < OPERATOR => printers.add(documents, pages),
            _ => others.add(documents, pages),
        }
    }
    Ok([clients, spooler, printers, others])
}

fn push<T: Drop>(list: &mut Vec<T>, value: T) -> Result<(), Fault> {
    Ok(list.push(value)?)
}

/// Each child, with its places.
fn workers_of<'o, 'k, R: Wait>(
    rt: &R,
    alloc: Global,
    places: &mut Places<'o>,
    children: Vec<Proc<'k>>,
) -> Result<Vec<Worker<'k, Places<'o>>>, Fault> {
    let mut workers = Vec::new(alloc);
    for proc in children {
        let job = places.split(rt)?;
        push(&mut workers, Worker { proc, job })?;
    }
    Ok(workers)
}

/// Starts a team of all children of the first process.
fn run_all<R: Threads + Wait + Now + Sync>(
    rt: &R,
    alloc: Global,
    places: &mut Places<'_>,
    started: &mut Started<'_>,
) -> Totals {
    let Started { roster, proc } = started;
    let mut team = Team::new(roster, TICKER)?;
    let children = forks(alloc, roster, proc, TICKER)?;
    let workers = workers_of(rt, alloc, places, children)?;
    let mut supervisor = Supervisor { places, ended: 0 };
    sum(&team.run(alloc, rt, proc, workers, &mut supervisor)?)
}

/// Takes the first places, and lends them on.
fn take_places<R: Threads + Wait + Now + Sync>(
    rt: &R,
    alloc: Global,
    objects: &mut Objects,
    started: &mut Started<'_>,
) -> Totals {
    let time = RealTime::new(rt);
    let desk = started.roster.rendez()?;
    let mut places = Places::new(rt, objects, &time, desk)?;
    run_all(rt, alloc, &mut places, started)
}

/// Makes the objects, and lends them on.
fn open<R: Threads + Wait + Now + Sync>(
    rt: &R,
    alloc: Global,
    started: &mut Started<'_>,
) -> Totals {
    let mut objects = objects(alloc, &mut started.roster)?;
    take_places(rt, alloc, &mut objects, started)
}

fn plan() -> Plan {
    let plan = Plan::new().queue(2 * SEATS).queue(2 * SEATS).rendez(1);
    plan.semaphore(SEATS).space(SEATS).team(TICKER)
}

fn run<R: Threads + Wait + Now + Sync>(rt: &R, alloc: Global) -> Totals {
    let OpenedKernel { kernel, start } = plan().build(alloc)?;
    open(rt, alloc, &mut kernel.start(start))
}

fn main(rt: HostRuntime) -> anyhow::Result<()> {
    let counts = run(&rt, rt.alloc())?;
    let did = ["answered", "handed on", "printed", "cancelled"];
    for (did, Count { documents, pages }) in did.iter().zip(counts) {
        println!(rt; "documents {did}: {documents}, of {pages} pages")?;
    }
    Ok(())
}
