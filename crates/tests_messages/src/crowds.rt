//! Four senders and four receivers at queues of one to three: by each kind of call, with notes that
//! end waits. Each letter comes once, and those of a sender come in order.
use crate::scenes::{
    Letter, ReceiveJob, SendJob, ends_of, kernel_of, queue_of, receivers_of, senders_of,
};
use messages::{Ends, Received, Receiver, Sender, TryReceived, TrySent};
use sleep_wakeup::{Opened, Proc, Started};
use std::alloc::Global;
use std::process::Abort;
use std::sync::Wait;
use std::sync::atomic::AtomicU64;
use std::sync::atomic::Ordering::SeqCst;
use std::thread::{self, Threads, join, yield_now};
use sync_base::{Fault, Note, NoteSet, Pid};

const SENDERS: u64 = 4;

const RECEIVERS: u64 = 4;

/// How many letters each sender sends.
const LETTERS: u64 = 200;

/// One of each sender's own and the first ones, and one of each receiver's own.
const HANDLES: u64 = SENDERS + RECEIVERS + 2;

/// What the crowd shares outside the queue.
#[derive(Drop)]
struct Board {
    /// Whether the processes note one another, and try.
    is_rough: bool,
    /// How many senders have sent all.
    ended: AtomicU64,
}

/// What a process did: how many letters it sent or received, the sum of their numbers, how many
/// came out of order, and how many answers no call may give.
#[derive(Clone, Copy)]
struct Work {
    sent: u64,
    received: u64,
    sum: u64,
    disorder: u64,
    wrong: u64,
}

impl Work {
    fn new() -> Work {
        Work {
            sent: 0,
            received: 0,
            sum: 0,
            disorder: 0,
            wrong: 0,
        }
    }
}

// Notes one of the crowd now and then.
fn note_another(proc: &mut Proc<'_>, board: &Board, number: u64, work: &mut Work) {
    if board.is_rough && number % 7 == 3 {
        let pid = Pid(number % (SENDERS + RECEIVERS) + 1);
        if proc.postnote(pid, NoteSet::of(Note::Interrupt)).is_err() {
            work.wrong = work.wrong.saturating_add(1);
        }
    }
}

// Sends a letter by one call. Says whether it was accepted.
fn offer<R: Wait>(
    rt: &R,
    sender: &mut Sender<'_, Letter>,
    proc: &mut Proc<'_>,
    letter: Letter,
    tries: bool,
    work: &mut Work,
) -> bool {
    if tries {
        return match sender.try_send(rt, proc, letter) {
            TrySent::Sent => true,
            TrySent::Full(back) => {
                if back != letter {
                    work.wrong = work.wrong.saturating_add(1);
                }
                yield_now();
                false
            }
            TrySent::Over(_) | TrySent::NoRendez(_) => {
                work.wrong = work.wrong.saturating_add(1);
                false
            }
        };
    }
    match sender.send(rt, proc, letter) {
        Ok(()) => true,
        Err(unsent) => {
            if unsent.value != letter
                || unsent.fault != Fault::Interrupted(NoteSet::of(Note::Interrupt))
            {
                work.wrong = work.wrong.saturating_add(1);
            }
            false
        }
    }
}

fn send_all<R: Wait>(
    rt: &R,
    sender: &mut Sender<'_, Letter>,
    proc: &mut Proc<'_>,
    from: u64,
    board: &Board,
) -> Work {
    let mut work = Work::new();
    let mut turn = from;
    for _ in rt.forever() {
        if work.sent >= LETTERS {
            break;
        }
        let letter = Letter {
            from,
            number: work.sent,
        };
        let tries = board.is_rough && turn % 3 == 0;
        if offer(rt, sender, proc, letter, tries, &mut work) {
            work.sent = work.sent.saturating_add(1);
            work.sum = work.sum.wrapping_add(letter.number);
        }
        turn = turn.wrapping_add(1);
        note_another(proc, board, turn, &mut work);
    }
    if board.ended.fetch_add(1, SeqCst) == SENDERS - 1 && sender.hangup(rt, proc) != Ok(()) {
        work.wrong = work.wrong.saturating_add(1);
    }
    work
}

// The next number that this receiver may get of each sender.
type Next = [u64; 4];

fn note_letter(letter: Letter, next: &mut Next, work: &mut Work) {
    let Letter { from, number } = letter;
    work.received = work.received.saturating_add(1);
    work.sum = work.sum.wrapping_add(number);
    match next.get_mut(from as usize) {
        Some(least) => {
            if number < *least {
                work.disorder = work.disorder.saturating_add(1);
            }
            *least = number.saturating_add(1);
        }
        None => work.wrong = work.wrong.saturating_add(1),
    }
}

// Receives by one call. Says whether it came to the end.
fn await_letter<R: Wait>(
    rt: &R,
    receiver: &mut Receiver<'_, Letter>,
    proc: &mut Proc<'_>,
    tries: bool,
    next: &mut Next,
    work: &mut Work,
) -> bool {
    if tries {
        match receiver.try_receive(rt, proc) {
            Ok(TryReceived::Value(letter)) => note_letter(letter, next, work),
            Ok(TryReceived::NotNow) => yield_now(),
            Ok(TryReceived::End) => return true,
            Err(_) => work.wrong = work.wrong.saturating_add(1),
        }
        return false;
    }
    match receiver.receive(rt, proc) {
        Ok(Received::Value(letter)) => note_letter(letter, next, work),
        Ok(Received::End) => return true,
        Err(Fault::Interrupted(_)) => {}
        Err(_) => work.wrong = work.wrong.saturating_add(1),
    }
    false
}

fn receive_all<R: Wait>(
    rt: &R,
    receiver: &mut Receiver<'_, Letter>,
    proc: &mut Proc<'_>,
    number: u64,
    board: &Board,
) -> Work {
    let mut work = Work::new();
    let mut next: Next = [0; 4];
    let mut turn = number;
    for _ in rt.forever() {
        let tries = board.is_rough && turn % 3 == 1;
        if await_letter(rt, receiver, proc, tries, &mut next, &mut work) {
            break;
        }
        turn = turn.wrapping_add(1);
        note_another(proc, board, turn, &mut work);
    }
    work
}

fn sends<R: Wait>(rt: &R, job: &mut SendJob, board: &Board) -> Work {
    let SendJob {
        proc,
        sender,
        number,
    } = job;
    send_all(rt, sender, proc, *number, board)
}

fn receives<R: Wait>(rt: &R, job: &mut ReceiveJob, board: &Board) -> Work {
    let ReceiveJob {
        proc,
        receiver,
        number,
    } = job;
    receive_all(rt, receiver, proc, *number, board)
}

// Sends and receives, each on a thread of its own.
fn run_crowd<'m, 'k, R: Threads + Wait + Abort + Sync>(
    rt: &R,
    senders: Vec<SendJob<'m, 'k>>,
    receivers: Vec<ReceiveJob<'m, 'k>>,
    board: &Board,
) -> (Vec<Work>, Vec<Work>) {
    let (sent, received) = join(
        rt,
        || thread::map_vec(
            rt,
            senders,
            &|mut job: SendJob| -> Work { sends(rt, &mut job, board) },
        ),
        || thread::map_vec(
            rt,
            receivers,
            &|mut job: ReceiveJob| -> Work { receives(rt, &mut job, board) },
        ),
    );
    (
        sent.ok().expect(rt, "no memory for the answers"),
        received.ok().expect(rt, "no memory for the answers"),
    )
}

fn add_up(all: &mut Work, done: &[Work]) {
    for work in done.iter() {
        all.sent = all.sent.saturating_add(work.sent);
        all.received = all.received.saturating_add(work.received);
        all.disorder = all.disorder.saturating_add(work.disorder);
        all.wrong = all.wrong.saturating_add(work.wrong);
        all.sum = all.sum.wrapping_add(work.sum);
    }
}

// What was sent is what was received.
fn count_letters(rt: &impl Abort, sent: &[Work], received: &[Work]) {
    let mut all = Work::new();
    add_up(&mut all, sent);
    add_up(&mut all, received);
    assert_eq!(rt; (all.wrong, all.disorder), (0, 0));
    assert_eq!(rt;
        (all.sent, all.received),
        (SENDERS * LETTERS, SENDERS * LETTERS)
    );
    assert_eq!(rt; all.sum, SENDERS * LETTERS * (LETTERS - 1));
}

// Sends and receives, by all handles but the first ones.
fn pass_letters<'m, 'k, R: Threads + Wait + Abort + Sync>(
    rt: &R,
    alloc: Global,
    started: &mut Started<'k>,
    sender: &mut Sender<'m, Letter>,
    receiver: &mut Receiver<'m, Letter>,
    is_rough: bool,
) {
    let senders = senders_of(rt, alloc, started, sender, SENDERS);
    let receivers = receivers_of(rt, alloc, started, receiver, RECEIVERS);
    let board = Board {
        is_rough,
        ended: AtomicU64::new(0),
    };
    let (sent, received) = run_crowd(rt, senders, receivers, &board);
    count_letters(rt, sent.as_slice(), received.as_slice());
}

fn crowd<R: Threads + Wait + Abort + Sync>(rt: &R, alloc: Global, capacity: u64, is_rough: bool) {
    let Opened { kernel, start } = kernel_of(rt, alloc, 1 + SENDERS + RECEIVERS, HANDLES);
    let mut started = kernel.start(start);
    let mut queue = queue_of(rt, alloc, &mut started.roster, capacity, HANDLES);
    let Ends {
        mut sender,
        mut receiver,
    } = ends_of(rt, &mut queue);
    pass_letters(
        rt,
        alloc,
        &mut started,
        &mut sender,
        &mut receiver,
        is_rough,
    );
}

#[test]
fn each_letter_comes_once_and_in_order(rt: HostRuntime) {
    for capacity in 1..4 {
        crowd(&rt, rt.alloc(), capacity, false);
    }
}

#[test]
fn notes_and_tries_lose_no_letter(rt: HostRuntime) {
    for capacity in 1..4 {
        crowd(&rt, rt.alloc(), capacity, true);
    }
}
