//! A device driver. It shows `sleep`, `wakeup` and notes, and a look at who waits where.
//!
//! A user wants five blocks of a device, and a driver copies them. The device interrupts when a
//! block is ready. An interrupt may not wait: it calls `wakeup`, which never does. The driver may
//! wait: it sleeps until there is a block. Only three blocks come. The user sees by a look that the
//! driver sleeps, and posts a note to it, which ends its sleep and with it the transfer.
#![tactic(auto)]

use plan9::{
    Fault, Kernel, Note, NoteSet, OpenedKernel, Pid, Proc, RendezId, RendezStatus, Started, fork,
};
use std::alloc::Global;
use std::io;
use std::io::Print;
use std::sync::Wait;
use std::sync::atomic::AtomicU64;
use std::sync::atomic::Ordering::SeqCst;
use std::thread::{Threads, join, scope, scope_env, yield_now};

/// How many blocks the user wants.
const WANTED: u64 = 5;

/// How many blocks the device makes.
const MADE: u64 = 3;

/// The processes by their pids, and the Rendez by their numbers.
const PROCS: [&str; 3] = ["user", "device", "driver"];

const RENDEZ: [&str; 2] = ["ready", "copied"];

/// A number that rises, and the Rendez where processes sleep until it has risen.
#[derive(Drop)]
struct Counter {
    count: AtomicU64,
    risen: RendezId,
}

impl Counter {
    fn new(risen: RendezId) -> Counter {
        Counter {
            count: AtomicU64::new(0),
            risen,
        }
    }

    /// Makes the condition true, and then wakes the sleeper: never the other way round. There is no
    /// `Wait` among its parameters, so it can't wait, and an interrupt may call it.
    fn rise(&self, proc: &mut Proc<'_>, count: u64) -> Result<(), Fault> {
        self.count.store(count, SeqCst);
        proc.wakeup(self.risen, count)?;
        Ok(())
    }

    /// Waits until the number is at least `count`.
    ///
    /// A sleep ends when the Rendez was woken with more than `seen`, also where that was between
    /// the look and the sleep: no wakeup is lost. A late wakeup may end a later sleep, so the
    /// number is looked at again. A note ends a sleep too, which answers `Interrupted`.
    fn wait_for<R: Wait>(&self, rt: &R, proc: &mut Proc<'_>, count: u64) -> Result<(), Fault> {
        for _ in rt.forever() {
            let seen = self.count.load(SeqCst);
            if seen >= count {
                break;
            }
            proc.sleep(rt, self.risen, seen)?;
        }
        Ok(())
    }
}

/// What the device and the driver share: the blocks that are ready, and those that are copied.
#[derive(Drop)]
struct Transfer {
    ready: Counter,
    copied: Counter,
}

/// The device: an interrupt for each block.
fn make_blocks(device: &mut Proc<'_>, transfer: &Transfer) -> Result<(), Fault> {
    for block in 0..MADE {
        transfer.ready.rise(device, block + 1)?;
    }
    Ok(())
}

/// The driver: it waits for each block, copies it and says so, until all are copied or a note
/// comes. It returns how many were copied.
fn copy_blocks<R: Wait>(rt: &R, driver: &mut Proc<'_>, transfer: &Transfer) -> Result<u64, Fault> {
    for block in 0..WANTED {
        match transfer.ready.wait_for(rt, driver, block + 1) {
            Ok(()) => transfer.copied.rise(driver, block + 1)?,
            Err(Fault::Interrupted(_)) => return Ok(block),
            Err(fault) => return Err(fault),
        }
    }
    Ok(WANTED)
}

/// The Rendez of the kernel, once this process sleeps in one.
fn look_at_sleeper<R: Wait>(rt: &R, kernel: &Kernel, sleeper: Pid) -> [RendezStatus; 2] {
    let mut seen = [RendezStatus::default(); 2];
    for _ in rt.forever() {
        let _ = kernel.look(&mut [], &mut seen);
        if seen.iter().any(|place| place.posted == Some(sleeper)) {
            break;
        }
        yield_now();
    }
    seen
}

/// Prints who waits where, by the names above.
fn tell(rt: &impl Print, seen: &[RendezStatus]) -> io::Result<()> {
    for (status, rendez) in seen.iter().zip(RENDEZ) {
        let level = status.level;
        let proc = match status.posted {
            Some(Pid(pid)) => PROCS.get(pid as usize),
            None => None,
        };
        match proc {
            Some(proc) => println!(rt; "{proc} waits at {rendez}, whose level is {level}")?,
            None => println!(rt; "nobody waits at {rendez}, whose level is {level}")?,
        }
    }
    Ok(())
}

/// Waits until all that was made is copied and the driver sleeps, and prints what is seen then.
fn watch_driver<R: Wait + Print>(
    rt: &R,
    kernel: &Kernel,
    user: &mut Proc<'_>,
    driver: Pid,
    transfer: &Transfer,
) -> Result<(), Fault> {
    transfer.copied.wait_for(rt, user, MADE)?;
    let seen = look_at_sleeper(rt, kernel, driver);
    tell(rt, &seen).map_err(|_| Fault::Device)
}

/// Three processes of a kernel.
#[derive(Drop)]
struct Procs<'k> {
    user: Proc<'k>,
    device: Proc<'k>,
    driver: Proc<'k>,
}

/// The driver waits for the device, so it is started first; where no thread can be started, nothing
/// is begun. The device, which never waits, has a thread of its own, or else its turn before the
/// user's. The note ends the sleep of the driver, or the next one if it is awake.
fn run_all<R: Threads + Wait + Print + Sync>(
    rt: &R,
    kernel: &Kernel,
    procs: Procs<'_>,
    transfer: &Transfer,
) -> Result<u64, Fault> {
    let Procs {
        mut user,
        mut device,
        mut driver,
    } = procs;
    let pid = driver.pid();
    scope(scope_env(), rt, move |scope| {
        let Ok(copying) = scope.spawn(move || copy_blocks(rt, &mut driver, transfer)) else {
            return Err(Fault::Device);
        };
        let (made, watched) = join(
            rt,
            || make_blocks(&mut device, transfer),
            || watch_driver(rt, kernel, &mut user, pid, transfer),
        );
        let noted = user.postnote(pid, NoteSet::of(Note::Interrupt));
        made.and(watched).and(noted).and(copying.join(rt))
    })
}

/// The user is the first process, and the other two are its children.
fn open<R: Threads + Wait + Print + Sync>(
    rt: &R,
    kernel: &Kernel,
    started: Started<'_>,
) -> Result<u64, Fault> {
    let Started {
        mut roster,
        proc: mut user,
    } = started;
    let transfer = &Transfer {
        ready: Counter::new(roster.rendez()?),
        copied: Counter::new(roster.rendez()?),
    };
    let device = fork(&mut roster, &mut user)?;
    let driver = fork(&mut roster, &mut user)?;
    let procs = Procs {
        user,
        device,
        driver,
    };
    run_all(rt, kernel, procs, transfer)
}

fn run<R: Threads + Wait + Print + Sync>(rt: &R, alloc: Global) -> Result<u64, Fault> {
    let OpenedKernel { kernel, start } = Kernel::new(alloc, 3, 2)?;
    open(rt, &kernel, kernel.start(start))
}

fn main(rt: HostRuntime) -> anyhow::Result<()> {
    let copied = run(&rt, rt.alloc())?;
    println!(rt; "{copied} of {WANTED} blocks were copied")?;
    Ok(())
}
