//! Hangups that come while others send, and while all wait: what was accepted is received, and
//! nobody stays asleep. A hangup that leaves a process asleep ends the test by its time.
use crate::scenes::{
    Letter, ReceiveJob, SendJob, ends_of, kernel_of, queue_of, receivers_of, senders_of,
};
use messages::{Ends, Received, Receiver, Sender};
use sleep_wakeup::{Opened, Proc, Started};
use std::alloc::Global;
use std::process::Abort;
use std::sync::Wait;
use std::thread::{self, Threads, join, yield_now};
use sync_base::{Fault, NoteSet};

/// How often each hangup is tried.
const ROUNDS: u64 = 50;

/// How many wait, or send, at each.
const PARTIES: u64 = 3;

/// What a process did: how many letters were accepted or received, and how many answers no call may
/// give.
#[derive(Clone, Copy)]
struct Work {
    sent: u64,
    received: u64,
    wrong: u64,
}

// Sends until the queue is hung up, which it is told once with the letter back, and without a note.
fn send_on<R: Wait>(
    rt: &R,
    sender: &mut Sender<'_, Letter>,
    proc: &mut Proc<'_>,
    from: u64,
) -> Work {
    let mut work = Work {
        sent: 0,
        received: 0,
        wrong: 0,
    };
    for _ in rt.forever() {
        let letter = Letter {
            from,
            number: work.sent,
        };
        match sender.send(rt, proc, letter) {
            Ok(()) => work.sent = work.sent.saturating_add(1),
            Err(unsent) => {
                let is_told = unsent.fault == Fault::Hungup && unsent.value == letter;
                if !is_told || proc.notes() != NoteSet::empty() {
                    work.wrong = 1;
                }
                return work;
            }
        }
    }
    unreachable!()
}

// Receives until the end.
fn receive_on<R: Wait>(rt: &R, receiver: &mut Receiver<'_, Letter>, proc: &mut Proc<'_>) -> Work {
    let mut work = Work {
        sent: 0,
        received: 0,
        wrong: 0,
    };
    for _ in rt.forever() {
        match receiver.receive(rt, proc) {
            Ok(Received::Value(_)) => work.received = work.received.saturating_add(1),
            Ok(Received::End) => return work,
            Err(_) => {
                work.wrong = 1;
                return work;
            }
        }
    }
    unreachable!()
}

// Lets the others go on for some moments.
fn linger(moments: u64) {
    for _ in 0..moments {
        yield_now();
    }
}

fn sends<R: Wait>(rt: &R, job: &mut SendJob) -> Work {
    let SendJob {
        proc,
        sender,
        number,
    } = job;
    send_on(rt, sender, proc, *number)
}

fn receives<R: Wait>(rt: &R, job: &mut ReceiveJob) -> Work {
    let ReceiveJob {
        proc,
        receiver,
        number: _,
    } = job;
    receive_on(rt, receiver, proc)
}

// Sends and receives, each on a thread of its own.
fn run_parties<'m, 'k, R: Threads + Wait + Abort + Sync>(
    rt: &R,
    senders: Vec<SendJob<'m, 'k>>,
    receivers: Vec<ReceiveJob<'m, 'k>>,
) -> (Vec<Work>, Vec<Work>) {
    let (sent, received) = join(
        rt,
        || thread::map_vec(
            rt,
            senders,
            &|mut job: SendJob| -> Work { sends(rt, &mut job) },
        ),
        || thread::map_vec(
            rt,
            receivers,
            &|mut job: ReceiveJob| -> Work { receives(rt, &mut job) },
        ),
    );
    (
        sent.ok().expect(rt, "no memory for the answers"),
        received.ok().expect(rt, "no memory for the answers"),
    )
}

// The parties, and a hangup after some moments.
fn run_and_hang<'m, 'k, R: Threads + Wait + Abort + Sync>(
    rt: &R,
    senders: Vec<SendJob<'m, 'k>>,
    receivers: Vec<ReceiveJob<'m, 'k>>,
    proc: &mut Proc<'k>,
    receiver: &mut Receiver<'m, Letter>,
    moments: u64,
) -> (Vec<Work>, Vec<Work>) {
    let (done, hung) = join(
        rt,
        || run_parties(rt, senders, receivers),
        || {
            linger(moments);
            receiver.hangup(rt, proc)
        },
    );
    assert_eq!(rt; hung, Ok(()));
    done
}

// How many letters were sent, and how many received.
fn count_of(rt: &impl Abort, done: &[Work]) -> (u64, u64) {
    let (mut sent, mut received) = (0u64, 0u64);
    for work in done.iter() {
        assert_eq!(rt; work.wrong, 0);
        sent = sent.saturating_add(work.sent);
        received = received.saturating_add(work.received);
    }
    (sent, received)
}

// What is left in the queue, up to the end.
fn left_of<R: Wait>(rt: &R, receiver: &mut Receiver<'_, Letter>, proc: &mut Proc<'_>) -> u64 {
    receive_on(rt, receiver, proc).received
}

// So many senders and receivers, and a hangup. What was accepted and not received is left.
fn hang_among<'m, 'k, R: Threads + Wait + Abort + Sync>(
    rt: &R,
    alloc: Global,
    started: &mut Started<'k>,
    sender: &mut Sender<'m, Letter>,
    receiver: &mut Receiver<'m, Letter>,
    parties: (u64, u64),
    moments: u64,
) {
    let senders = senders_of(rt, alloc, started, sender, parties.0);
    let receivers = receivers_of(rt, alloc, started, receiver, parties.1);
    let (sent, received) = run_and_hang(
        rt,
        senders,
        receivers,
        &mut started.proc,
        receiver,
        moments,
    );
    let (sent, _) = count_of(rt, sent.as_slice());
    let (_, received) = count_of(rt, received.as_slice());
    let left = left_of(rt, receiver, &mut started.proc);
    assert_eq!(rt; sent, received.saturating_add(left));
}

fn hang_once<R: Threads + Wait + Abort + Sync>(
    rt: &R,
    alloc: Global,
    capacity: u64,
    parties: (u64, u64),
    moments: u64,
) {
    let handles = 2 + 2 * PARTIES;
    let Opened { kernel, start } = kernel_of(rt, alloc, 1 + 2 * PARTIES, handles);
    let mut started = kernel.start(start);
    let mut queue = queue_of(rt, alloc, &mut started.roster, capacity, handles);
    let Ends {
        mut sender,
        mut receiver,
    } = ends_of(rt, &mut queue);
    hang_among(
        rt,
        alloc,
        &mut started,
        &mut sender,
        &mut receiver,
        parties,
        moments,
    );
}

#[test]
fn a_hangup_loses_nothing_that_was_accepted(rt: HostRuntime) {
    for round in 0..ROUNDS {
        hang_once(
            &rt,
            rt.alloc(),
            1 + round % 5,
            (PARTIES, PARTIES),
            round % 64,
        );
    }
}

#[test]
fn all_receivers_wait_and_come_to_the_end(rt: HostRuntime) {
    for round in 0..ROUNDS {
        hang_once(&rt, rt.alloc(), 2, (0, PARTIES), round % 64);
    }
}

#[test]
fn all_senders_wait_and_get_their_letters_back(rt: HostRuntime) {
    for round in 0..ROUNDS {
        hang_once(&rt, rt.alloc(), 2, (PARTIES, 0), round % 64);
    }
}
