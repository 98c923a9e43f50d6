//! Kernels, queues and processes for the tests. Where memory is refused it is asked for once more.
ghost use Rattle.sleep_wakeup.specs.Starts.{IsStartOf};

use messages::{Ends, Messages, Receiver, Sender};
use sleep_wakeup::{Kernel, Opened, Proc, Roster, Started};
use std::alloc::Global;
use std::process::Abort;
use std::sync::Wait;
use sync_base::{Fault, Flags};

/// A message: who sent it, and which of the sender's it is.
#[derive(Clone, Copy, Debug, PartialEq, Eq, Drop)]
pub struct Letter {
    pub from: u64,
    pub number: u64,
}

/// A process that sends.
#[derive(Drop)]
pub struct SendJob<'m, 'k> {
    pub proc: Proc<'k>,
    pub sender: Sender<'m, Letter>,
    pub number: u64,
}

/// A process that receives.
#[derive(Drop)]
pub struct ReceiveJob<'m, 'k> {
    pub proc: Proc<'k>,
    pub receiver: Receiver<'m, Letter>,
    pub number: u64,
}

/// A kernel of this many processes and Rendez.
pub fn kernel_of(rt: &impl Abort, alloc: Global, procs: u64, rendez: u64) -> Opened
    ensures start { IsStartOf result.kernel result.start }
{
    let made = match Kernel::new(alloc, procs, rendez) {
        Err(Fault::Memory) => Kernel::new(alloc, procs, rendez),
        made => made,
    };
    made.expect(rt, "no kernel")
}

/// A queue of letters.
pub fn queue_of(
    rt: &impl Abort,
    alloc: Global,
    roster: &mut Roster<'_>,
    capacity: u64,
    handles: u64,
) -> Messages<Letter> {
    let made = match Messages::new(alloc, roster, capacity, handles) {
        Err(Fault::Memory) => Messages::new(alloc, roster, capacity, handles),
        made => made,
    };
    made.expect(rt, "no queue")
}

/// The next process of a kernel.
pub fn forked<'k>(rt: &impl Abort, started: &mut Started<'k>) -> Proc<'k> {
    match started.roster.rfork(&mut started.proc, Flags::RFPROC) {
        Ok(Some(child)) => child,
        _ => panic!(rt; "no pid is left"),
    }
}

fn push<T: Drop>(rt: &impl Abort, jobs: &mut Vec<T>, job: T) {
    if jobs.push(job).is_err() {
        panic!(rt; "no memory for a job");
    }
}

/// So many senders, each split from this one.
pub fn senders_of<'m, 'k, R: Wait + Abort>(
    rt: &R,
    alloc: Global,
    started: &mut Started<'k>,
    sender: &mut Sender<'m, Letter>,
    count: u64,
) -> Vec<SendJob<'m, 'k>> {
    let mut jobs = Vec::new(alloc);
    for number in 0..count {
        let proc = forked(rt, started);
        let sender = sender.split(rt).expect(rt, "no sender is left");
        push(
            rt,
            &mut jobs,
            SendJob {
                proc,
                sender,
                number,
            },
        );
    }
    jobs
}

/// So many receivers, each split from this one.
pub fn receivers_of<'m, 'k, R: Wait + Abort>(
    rt: &R,
    alloc: Global,
    started: &mut Started<'k>,
    receiver: &mut Receiver<'m, Letter>,
    count: u64,
) -> Vec<ReceiveJob<'m, 'k>> {
    let mut jobs = Vec::new(alloc);
    for number in 0..count {
        let proc = forked(rt, started);
        let receiver = receiver.split(rt).expect(rt, "no receiver is left");
        push(
            rt,
            &mut jobs,
            ReceiveJob {
                proc,
                receiver,
                number,
            },
        );
    }
    jobs
}

/// The first handles of a queue.
pub fn ends_of<'m, R: Wait + Abort>(rt: &R, queue: &'m mut Messages<Letter>) -> Ends<'m, Letter> {
    queue.ends(rt).expect(rt, "somebody has the ends")
}
