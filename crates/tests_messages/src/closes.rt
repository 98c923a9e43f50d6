//! Queues that end with the last of their senders, or of their receivers. A close that leaves a
//! process asleep ends the test by its time.
use crate::scenes::{
    Letter, ReceiveJob, SendJob, ends_of, kernel_of, queue_of, receivers_of, senders_of,
};
use messages::{Ends, Received, Sender};
use sleep_wakeup::{Opened, Proc, Started};
use std::alloc::Global;
use std::process::Abort;
use std::sync::Wait;
use std::thread::{self, Threads, join};
use sync_base::{Fault, NoteSet};

/// How often each end is tried.
const ROUNDS: u64 = 50;

/// How many send, and how many receive.
const PARTIES: u64 = 3;

/// How many letters each sends.
const LETTERS: u64 = 7;

/// How many senders are split off and closed, one after the other.
const SPLITS: u64 = 100_000;

/// How many letters came, or were sent, and how a process ended.
#[derive(Clone, Copy, Debug, PartialEq, Eq)]
struct Work {
    letters: u64,
    ended: Result<(), Fault>,
}

// Sends so many letters, or until the receivers have closed, and closes.
fn send_some<R: Wait>(rt: &R, job: SendJob, most: u64) -> Work {
    let SendJob {
        mut proc,
        mut sender,
        number: from,
    } = job;
    let mut letters = 0u64;
    let mut ended = Ok(());
    for number in 0..most {
        match sender.send(rt, &mut proc, Letter { from, number }) {
            Ok(()) => letters = letters.saturating_add(1),
            Err(unsent) => {
                ended = Err(unsent.fault);
                break;
            }
        }
    }
    let closed = sender.close(rt, &mut proc);
    Work {
        letters,
        ended: if proc.notes() == NoteSet::empty() {
            ended.and(closed)
        } else {
            Err(Fault::BadFlags)
        },
    }
}

// Receives so many letters, or until the end, and closes.
fn receive_some<R: Wait>(rt: &R, job: ReceiveJob, most: u64) -> Work {
    let ReceiveJob {
        mut proc,
        mut receiver,
        number: _,
    } = job;
    let mut letters = 0u64;
    let mut ended = Err(Fault::BadCount);
    for _ in 0..most {
        match receiver.receive(rt, &mut proc) {
            Ok(Received::Value(_)) => letters = letters.saturating_add(1),
            Ok(Received::End) => {
                ended = Ok(());
                break;
            }
            Err(fault) => {
                ended = Err(fault);
                break;
            }
        }
    }
    let closed = receiver.close(rt, &mut proc);
    Work {
        letters,
        ended: ended.and(closed),
    }
}

// Sends and receives so many letters each, each on a thread of its own.
fn run_parties<'m, 'k, R: Threads + Wait + Abort + Sync>(
    rt: &R,
    senders: Vec<SendJob<'m, 'k>>,
    receivers: Vec<ReceiveJob<'m, 'k>>,
    most: (u64, u64),
) -> (Vec<Work>, Vec<Work>) {
    let (sent, received) = join(
        rt,
        || thread::map_vec(
            rt,
            senders,
            &|job: SendJob| -> Work { send_some(rt, job, most.0) },
        ),
        || thread::map_vec(
            rt,
            receivers,
            &|job: ReceiveJob| -> Work { receive_some(rt, job, most.1) },
        ),
    );
    (
        sent.ok().expect(rt, "no memory for the answers"),
        received.ok().expect(rt, "no memory for the answers"),
    )
}

// How many letters all of them had, if each ended so.
fn letters_of(rt: &impl Abort, done: &[Work], wanted: Result<(), Fault>) -> u64 {
    let mut letters = 0u64;
    for work in done.iter() {
        assert_eq!(rt; work.ended, wanted);
        letters = letters.saturating_add(work.letters);
    }
    letters
}

// The first handles close, and the others go on.
fn close_ends<R: Wait + Abort>(rt: &R, ends: Ends<'_, Letter>, proc: &mut Proc<'_>) {
    let Ends { sender, receiver } = ends;
    assert_eq!(rt; sender.close(rt, proc), Ok(()));
    assert_eq!(rt; receiver.close(rt, proc), Ok(()));
}

// So many letters are sent and received by each of the parties.
fn run_among<'m, 'k, R: Threads + Wait + Abort + Sync>(
    rt: &R,
    alloc: Global,
    started: &mut Started<'k>,
    ends: Ends<'m, Letter>,
    most: (u64, u64),
) -> (Vec<Work>, Vec<Work>) {
    let mut ends = ends;
    let senders = senders_of(rt, alloc, started, &mut ends.sender, PARTIES);
    let receivers = receivers_of(rt, alloc, started, &mut ends.receiver, PARTIES);
    close_ends(rt, ends, &mut started.proc);
    run_parties(rt, senders, receivers, most)
}

fn run_once<R: Threads + Wait + Abort + Sync>(
    rt: &R,
    alloc: Global,
    capacity: u64,
    most: (u64, u64),
) -> (Vec<Work>, Vec<Work>) {
    let handles = 2 + 2 * PARTIES;
    let Opened { kernel, start } = kernel_of(rt, alloc, 1 + 2 * PARTIES, handles);
    let mut started = kernel.start(start);
    let mut queue = queue_of(rt, alloc, &mut started.roster, capacity, handles);
    let ends = ends_of(rt, &mut queue);
    run_among(rt, alloc, &mut started, ends, most)
}

#[test]
fn receivers_come_to_the_end_once_all_senders_have_closed(rt: HostRuntime) {
    for round in 0..ROUNDS {
        let (sent, received) = run_once(&rt, rt.alloc(), 1 + round % 5, (LETTERS, u64::MAX));
        let count = PARTIES * LETTERS;
        assert_eq!(rt; letters_of(&rt, sent.as_slice(), Ok(())), count);
        assert_eq!(rt; letters_of(&rt, received.as_slice(), Ok(())), count);
    }
}

#[test]
fn senders_are_refused_once_all_receivers_have_closed(rt: HostRuntime) {
    for round in 0..ROUNDS {
        let capacity = 1 + round % 5;
        let (sent, received) = run_once(&rt, rt.alloc(), capacity, (u64::MAX, LETTERS));
        let sent = letters_of(&rt, sent.as_slice(), Err(Fault::Hungup));
        let received = letters_of(&rt, received.as_slice(), Err(Fault::BadCount));
        assert_eq!(rt; received, PARTIES * LETTERS);
        assert!(rt; received <= sent && sent <= received.saturating_add(capacity));
    }
}

// Splits a sender off, sends nothing, and closes it.
fn split_and_close<R: Wait + Abort>(rt: &R, sender: &mut Sender<'_, Letter>, proc: &mut Proc<'_>) {
    let child = sender.split(rt).expect(rt, "no place came back");
    assert_eq!(rt; child.close(rt, proc), Ok(()));
}

// Three handles are open at most, so a queue of three has places for all.
#[test]
fn each_handle_that_closes_gives_its_place_back(rt: HostRuntime) {
    let Opened { kernel, start } = kernel_of(&rt, rt.alloc(), 1, 3);
    let Started {
        mut roster,
        mut proc,
    } = kernel.start(start);
    let mut queue = queue_of(&rt, rt.alloc(), &mut roster, 1, 3);
    let Ends {
        mut sender,
        mut receiver,
    } = ends_of(&rt, &mut queue);
    for _ in 0..SPLITS {
        split_and_close(&rt, &mut sender, &mut proc);
    }
    assert_eq!(rt; sender.close(&rt, &mut proc), Ok(()));
    assert_eq!(rt; receiver.receive(&rt, &mut proc), Ok(Received::End));
}
