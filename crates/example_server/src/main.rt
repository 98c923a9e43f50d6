//! A server's request loop. It shows a queue with many senders, and a pipe back to each of them.
//!
//! Four clients send requests by one queue, and one server receives them in the order in which they
//! come. It answers each client on a pipe of its own. One client leaves in the middle, and the
//! server goes on with the others. A hangup of the queue ends it.
#![tactic(auto)]

use plan9::{
    Ended, Ends, Fault, Job, Messages, OpenedKernel, OpenedPipes, Pipes, Plan, Proc, ReadAnswer,
    ReadEnd, Received, Receiver, Sender, Started, Team, Told, Worker, WriteCalls, WriteEnd, fork,
    forks,
};
use std::alloc::Global;
use std::sync::Wait;
use std::thread::Threads;

/// How many clients there are, and which of them leaves in the middle.
const CLIENTS: u64 = 4;

const LEAVES: usize = 2;

/// A client asks for the square of this number.
#[derive(Clone, Copy)]
struct Request {
    client: usize,
    wanted: u8,
}

/// A client asks by the queue and is answered at a pipe.
#[derive(Drop)]
struct Client<'o> {
    number: usize,
    asks: Sender<'o, Request>,
    answers: ReadEnd<'o>,
}

impl<'o> Client<'o> {
    /// Asks for the squares of 1 to 5, and returns their sum. A client that leaves hangs its
    /// answers up, with a request unanswered, and has no sum.
    fn ask<R: Wait>(&mut self, rt: &R, proc: &mut Proc<'_>) -> Result<Option<u64>, Fault> {
        let (mut sum, client) = (0u64, self.number);
        for wanted in 1..=5 {
            let leaves = client == LEAVES && wanted == 3;
            if leaves {
                self.answers.hangup(proc);
            }
            self.asks.send(rt, proc, Request { client, wanted })?;
            if leaves {
                return Ok(None);
            }
            let mut square = [0];
            if self.answers.read(rt, proc, &mut square)? == ReadAnswer::End {
                return Err(Fault::Hungup);
            }
            sum = sum.wrapping_add(u64::from(square[0]));
        }
        Ok(Some(sum))
    }
}

/// The server answers each client at a pipe, by its number.
#[derive(Drop)]
struct Server<'o> {
    alloc: Global,
    requests: Receiver<'o, Request>,
    answers: Vec<WriteEnd<'o>>,
}

impl<'o> Server<'o> {
    /// The request loop. A client that is gone has hung its answers up: the write there is refused,
    /// and leaves no note that would end the next receive. The pipe of a client that can't be
    /// answered is hung up, so that the client doesn't wait.
    fn serve<R: Wait>(&mut self, rt: &R, proc: &mut Proc<'_>) -> Result<(), Fault> {
        for _ in rt.forever() {
            let Received::Value(request) = self.requests.receive(rt, proc)? else {
                break;
            };
            let square = [request.wanted.saturating_mul(request.wanted)];
            let end = self.answers.get_mut(request.client).ok_or(Fault::BadArg)?;
            if end.write_unnoted(self.alloc, rt, proc, &square).is_err() {
                end.hangup(proc);
            }
        }
        Ok(())
    }
}

#[derive(Drop)]
enum Party<'o> {
    Asks(Client<'o>),
    Serves(Server<'o>),
}

/// The sum of a client that stayed.
type Sum = Result<Option<u64>, Fault>;

impl<'o, R: Wait> Job<R> for Party<'o> {
    type Out = Sum;

    fn run(self, rt: &R, proc: &mut Proc<'_>) -> Sum {
        match self {
            Party::Asks(mut client) => client.ask(rt, proc),
            Party::Serves(mut server) => server.serve(rt, proc).map(|()| None),
        }
    }
}

fn sums(alloc: Global, ended: &[Ended<'_, Sum>]) -> Result<Vec<u64>, Fault> {
    let mut sums = Vec::new(alloc);
    for ended in ended {
        if let Some(sum) = ended.out? {
            sums.push(sum)?;
        }
    }
    Ok(sums)
}

/// The clients, each with a pipe back, whose other ends are the answers.
fn clients_of<'o, 'k, R: Wait>(
    rt: &R,
    procs: Vec<Proc<'k>>,
    asks: &mut Sender<'o, Request>,
    backs: Vec<Ends<'o>>,
    answers: &mut Vec<WriteEnd<'o>>,
    workers: &mut Vec<Worker<'k, Party<'o>>>,
) -> Result<(), Fault> {
    for (number, (proc, back)) in (0..).zip(procs.into_iter().zip(backs)) {
        answers.extend(back.first.parts().writes)?;
        let job = Party::Asks(Client {
            number,
            asks: asks.split(rt)?,
            answers: back.second.parts().read,
        });
        workers.push(Worker { proc, job })?;
    }
    Ok(())
}

/// The first process, which counts how many have ended. Once all clients have, it hangs the queue
/// up; the server ends last.
#[derive(Drop)]
struct First<'o> {
    sender: Sender<'o, Request>,
    ended: u64,
}

impl<'o, R: Wait> Told<R> for First<'o> {
    fn told(&mut self, rt: &R, proc: &mut Proc<'_>, _number: usize) {
        self.ended = self.ended.saturating_add(1);
        if self.ended == CLIENTS {
            let _hung = self.sender.hangup(rt, proc);
        }
    }
}

/// All of them are children of the first process, and start together.
fn open<'o, R: Threads + Wait + Sync>(
    rt: &R,
    alloc: Global,
    queue: &'o mut Messages<Request>,
    backs: Vec<Ends<'o>>,
    started: &mut Started<'_>,
) -> Result<Vec<u64>, Fault> {
    let Started { roster, proc } = started;
    let ends = queue.ends(rt)?;
    let (mut sender, requests) = (ends.sender, ends.receiver);
    let (mut answers, mut workers) = (Vec::new(alloc), Vec::new(alloc));
    let procs = forks(alloc, roster, proc, CLIENTS)?;
    clients_of(rt, procs, &mut sender, backs, &mut answers, &mut workers)?;
    let job = Party::Serves(Server {
        alloc,
        requests,
        answers,
    });
    let server = fork(roster, proc)?;
    workers.push(Worker { proc: server, job })?;
    let mut team = Team::new(roster, CLIENTS + 1)?;
    let mut first = First { sender, ended: 0 };
    sums(alloc, &team.run(alloc, rt, proc, workers, &mut first)?)
}

/// A pipe goes both ways; here one way of each is used.
fn run<R: Threads + Wait + Sync>(rt: &R, alloc: Global) -> Result<Vec<u64>, Fault> {
    let plan = Plan::new().queue(CLIENTS + 2).team(CLIENTS + 1);
    let OpenedKernel { kernel, start } = plan.rendez(4 * CLIENTS).build(alloc)?;
    let mut started = kernel.start(start);
    let roster = &mut started.roster;
    let mut queue = Messages::new(alloc, roster, 2, CLIENTS + 2)?;
    let OpenedPipes { pipes, start } = Pipes::new(alloc, roster, CLIENTS, 1, 1)?;
    open(rt, alloc, &mut queue, pipes.ends(start), &mut started)
}

fn main(rt: HostRuntime) -> anyhow::Result<()> {
    let sums = run(&rt, rt.alloc())?;
    println!(rt; "the sums of the clients that stayed are {sums:?}")?;
    Ok(())
}
