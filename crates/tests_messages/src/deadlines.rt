//! Deadlines at a queue: a tick ends a wait for room and for a value, and a call that need not wait
//! has none.
ghost use Rattle.timer_list.specs.Seats.{IsTimerSeatOf};

use crate::scenes::{Letter, ends_of, forked, kernel_of, queue_of};
use messages::{Ends, Received, Receiver, Sender};
use sleep_wakeup::{Opened, Proc};
use std::alloc::Global;
use std::process::Abort;
use std::sync::Wait;
use std::sync::atomic::AtomicU64;
use std::sync::atomic::Ordering::SeqCst;
use std::thread::{Threads, join, yield_now};
use sync_base::{Fault, NoteSet};
use timer_list::{Deadline, OpenedTimers, TimerSeat, Timers};

/// How many milliseconds a call waits.
const PATIENCE: u32 = 3;

fn send_by<R: Wait>(
    rt: &R,
    sender: &mut Sender<'_, Letter>,
    proc: &mut Proc<'_>,
    number: u64,
    timers: &Timers,
    timer: &mut TimerSeat,
) -> Result<(), (u64, Fault)>
    requires { IsTimerSeatOf timers.now timer.old }
    ensures { IsTimerSeatOf timers.now timer.new }
{
    let until = Deadline {
        timers,
        from: 0,
        ms: PATIENCE,
    };
    match sender.send_by(rt, proc, Letter { from: 0, number }, &until, timer) {
        Ok(()) => Ok(()),
        Err(unsent) => Err((unsent.value.number, unsent.fault)),
    }
}

fn receive_by<R: Wait>(
    rt: &R,
    receiver: &mut Receiver<'_, Letter>,
    proc: &mut Proc<'_>,
    timers: &Timers,
    timer: &mut TimerSeat,
) -> Result<Option<u64>, Fault>
    requires { IsTimerSeatOf timers.now timer.old }
    ensures { IsTimerSeatOf timers.now timer.new }
{
    let until = Deadline {
        timers,
        from: 0,
        ms: PATIENCE,
    };
    match receiver.receive_by(rt, proc, &until, timer) {
        Ok(Received::Value(letter)) => Ok(Some(letter.number)),
        Ok(Received::End) => Ok(None),
        Err(fault) => Err(fault),
    }
}

// At a queue of one: one is sent, the next finds no room in time, one is received, the next does
// not come in time; and after a hangup nobody waits.
fn wait_in_vain<R: Wait + Abort>(
    rt: &R,
    ends: &mut Ends<'_, Letter>,
    proc: &mut Proc<'_>,
    timers: &Timers,
    timer: &mut TimerSeat,
)
    requires { IsTimerSeatOf timers.now timer.old }
    ensures { IsTimerSeatOf timers.now timer.new }
{
    let Ends { sender, receiver } = ends;
    assert_eq!(rt; send_by(rt, sender, proc, 1, timers, timer), Ok(()));
    assert_eq!(rt;
        send_by(rt, sender, proc, 2, timers, timer),
        Err((2, Fault::TimedOut))
    );
    assert_eq!(rt; receive_by(rt, receiver, proc, timers, timer), Ok(Some(1)));
    assert_eq!(rt;
        receive_by(rt, receiver, proc, timers, timer),
        Err(Fault::TimedOut)
    );
    assert_eq!(rt; proc.notes(), NoteSet::empty());
    assert_eq!(rt; sender.hangup(rt, proc), Ok(()));
    assert_eq!(rt;
        send_by(rt, sender, proc, 3, timers, timer),
        Err((3, Fault::Hungup))
    );
    assert_eq!(rt; receive_by(rt, receiver, proc, timers, timer), Ok(None));
}

// Ticks until the other has ended.
fn ticks<R: Wait>(
    rt: &R,
    proc: &mut Proc<'_>,
    timers: &Timers,
    timer: &mut TimerSeat,
    ended: &AtomicU64,
)
    requires { IsTimerSeatOf timers.now timer.old }
    ensures { IsTimerSeatOf timers.now timer.new }
{
    let mut now = 0u64;
    for _ in rt.forever() {
        if ended.load(SeqCst) > 0 {
            return;
        }
        timers.tick(rt, proc, timer, now);
        now = now.saturating_add(1);
        yield_now();
    }
    unreachable!()
}

fn wait_beside_ticks<R: Threads + Wait + Abort + Sync>(
    rt: &R,
    ends: &mut Ends<'_, Letter>,
    waiter: &mut Proc<'_>,
    ticker: &mut Proc<'_>,
    opened: OpenedTimers,
)
    requires { IsTimerSeatOf opened.timers opened.seat }
{
    let OpenedTimers { timers, seat } = opened;
    let timers = &timers;
    let mut first = seat;
    let mut second = timers.split(rt, &mut first).expect(rt, "no timer is left");
    let ended = AtomicU64::new(0);
    join(
        rt,
        || -> ()
            requires { IsTimerSeatOf timers.now first }
        {
            wait_in_vain(rt, ends, waiter, timers, &mut first);
            ended.store(1, SeqCst);
        },
        || -> ()
            requires { IsTimerSeatOf timers.now second }
        { ticks(rt, ticker, timers, &mut second, &ended) },
    );
}

fn timers_of(rt: &impl Abort, alloc: Global) -> OpenedTimers
    ensures { IsTimerSeatOf result.timers result.seat }
{
    let made = match Timers::new(alloc, 2) {
        Err(Fault::Memory) => Timers::new(alloc, 2),
        made => made,
    };
    made.expect(rt, "no timers")
}

fn play<R: Threads + Wait + Abort + Sync>(rt: &R, alloc: Global) {
    let Opened { kernel, start } = kernel_of(rt, alloc, 2, 8);
    let mut started = kernel.start(start);
    let mut ticker = forked(rt, &mut started);
    let mut queue = queue_of(rt, alloc, &mut started.roster, 1, 2);
    let mut ends = ends_of(rt, &mut queue);
    wait_beside_ticks(
        rt,
        &mut ends,
        &mut started.proc,
        &mut ticker,
        timers_of(rt, alloc),
    );
}

#[test]
fn a_tick_ends_a_wait_at_a_queue(rt: HostRuntime) {
    play(&rt, rt.alloc());
}
