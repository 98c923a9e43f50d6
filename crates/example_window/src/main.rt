//! A window system's multiplexer: one reader of many devices. A keyboard, a mouse and the frame of
//! a window each send events to one queue, and one reader receives them as they come, from
//! whichever device: it waits at one place for all. When the window is closed the queue is hung up:
//! what was sent is still received, and then it ends.
#![tactic(auto)]

use Event::{Key, Mouse, Size};
use plan9::{
    Fault, Messages, OpenedKernel, Plan, Proc, QueueEnds, Received, Receiver, Sender, Started,
    fork, forks,
};
use std::alloc::Global;
use std::sync::Wait;
use std::thread::{Threads, map_vec, scope, scope_env};

/// What a device says.
#[derive(Clone, Copy)]
enum Event {
    Key(u8),
    Mouse(u8, u8),
    Size(u8, u8),
}

/// The events of each device.
const KEYS: &[Event] = &[
    Key(b'p'),
    Key(b'l'),
    Key(b'a'),
    Key(b'n'),
    Key(b' '),
    Key(b'9'),
];

const MOVES: &[Event] = &[Mouse(3, 4), Mouse(5, 4), Mouse(9, 7)];

const DEVICES: [&[Event]; 3] = [KEYS, MOVES, &[Size(80, 24), Size(100, 40)]];

/// A process that sends to the queue, and what it sends.
#[derive(Drop)]
struct Device<'m, 'k> {
    proc: Proc<'k>,
    queue: Sender<'m, Event>,
    events: &'static [Event],
}

/// A device sends each event, in order, and waits where the queue is full.
fn send<R: Wait>(rt: &R, device: Device<'_, '_>) -> Result<(), Fault> {
    let Device {
        mut proc,
        mut queue,
        events,
    } = device;
    for event in events {
        queue.send(rt, &mut proc, *event)?;
    }
    Ok(())
}

/// What the window shows.
#[derive(Drop)]
struct Window {
    typed: String,
    mouse: (u8, u8),
    size: (u8, u8),
}

/// Events of one device come in its order, so the window ends the same in every schedule.
fn take(window: &mut Window, event: Event) -> Result<(), Fault> {
    match event {
        Key(key) => window.typed.push(char::from(key))?,
        Mouse(x, y) => window.mouse = (x, y),
        Size(wide, high) => window.size = (wide, high),
    }
    Ok(())
}

/// The multiplexer. Where it can't show an event it reads on, so that no device waits for ever.
fn show<R: Wait>(
    rt: &R,
    alloc: Global,
    mut proc: Proc<'_>,
    mut queue: Receiver<'_, Event>,
) -> Result<Window, Fault> {
    let mut window = Window {
        typed: String::new(alloc),
        mouse: (0, 0),
        size: (0, 0),
    };
    let mut shown = Ok(());
    for _ in rt.forever() {
        let Received::Value(event) = queue.receive(rt, &mut proc)? else {
            break;
        };
        shown = shown.and(take(&mut window, event));
    }
    shown.map(|()| window)
}

/// The reader is started first. A child is at each device, on a thread of its own or in its turn
/// where no thread can be started. The first process has the button that closes the window.
fn run_all<R: Threads + Wait + Sync>(
    rt: &R,
    alloc: Global,
    ends: QueueEnds<'_, Event>,
    started: Started<'_>,
) -> Result<Window, Fault> {
    let Started {
        mut roster,
        mut proc,
    } = started;
    let QueueEnds {
        mut sender,
        receiver,
    } = ends;
    let reader = fork(&mut roster, &mut proc)?;
    let mut devices = Vec::new(alloc);
    for (proc, events) in forks(alloc, &mut roster, &mut proc, 3)?
        .into_iter()
        .zip(DEVICES)
    {
        let queue = sender.split(rt)?;
        devices.push(Device {
            proc,
            queue,
            events,
        })?;
    }
    scope(scope_env(), rt, move |scope| {
        let Ok(showing) = scope.spawn(move || show(rt, alloc, reader, receiver)) else {
            return Err(Fault::Device);
        };
        let sent = map_vec(rt, devices, &|device: Device| send(rt, device));
        let hung = sender.hangup(rt, &mut proc);
        let shown = showing.join(rt);
        for sent in sent?.iter() {
            (*sent)?;
        }
        hung.and(shown)
    })
}

/// A queue with room for two events that nobody has received.
fn run<R: Threads + Wait + Sync>(rt: &R, alloc: Global) -> Result<Window, Fault> {
    let OpenedKernel { kernel, start } = Plan::new().queue(5).build(alloc)?;
    let mut started = kernel.start(start);
    let mut queue = Messages::new(alloc, &mut started.roster, 2, 5)?;
    let ends = queue.ends(rt)?;
    run_all(rt, alloc, ends, started)
}

fn main(rt: HostRuntime) -> anyhow::Result<()> {
    let Window { typed, mouse, size } = run(&rt, rt.alloc())?;
    println!(rt; "typed '{typed}', mouse at {mouse:?}, size {size:?}")?;
    Ok(())
}
