//! The objects of a scene, each kind numbered from 1 in the order of its lines.
ghost use Rattle.plan9.specs.Openings.{IsStartOf};

use crate::scene::{Scene, keep, push, set};
use plan9::{
    Clock, Ends, Fault, Kernel, Messages, Mode, OpenedPipe, Parts, Pipe, QueueEnds, ReadEnd,
    Receiver, Roster, Semaphore, Sender, SharedEnd, Space, Unshared, Watch, WriteEnd,
};
use scene_text::answer::{Answer, Came};
use scene_text::verbs::{RoleAt, RoleName};
use std::alloc::Global;
use std::sync::Wait;

/// The ends of one direction that nobody has yet.
#[derive(Drop)]
pub struct Direction {
    pub read: Option<ReadEnd<'static>>,
    pub writes: Vec<WriteEnd<'static>>,
}

/// An object, as long as nobody has come to it, and the end of its Rendez: all of them are below
/// it.
#[derive(Drop)]
pub struct Row<T: Drop> {
    fresh: Option<Box<T>>,
    end: u64,
}

/// The first handles of a queue of numbers that nobody has had, and the end of its Rendez.
#[derive(Drop)]
pub struct Queue {
    sender: Option<Sender<'static, u64>>,
    receiver: Option<Receiver<'static, u64>>,
    end: u64,
}

/// What nobody has yet.
#[derive(Drop)]
pub struct Objects {
    /// Two of each pipe: from the second end to the first, and the other way back.
    pub directions: Vec<Direction>,
    pub semas: Vec<Row<Semaphore>>,
    pub spaces: Vec<Row<Space>>,
    pub clocks: Vec<Watch<'static>>,
    pub shared: Vec<Row<SharedEnd<'static>>>,
    pub queues: Vec<Queue>,
}

impl Objects {
    /// No objects.
    pub fn new(alloc: Global) -> Objects {
        Objects {
            directions: Vec::new(alloc),
            semas: Vec::new(alloc),
            spaces: Vec::new(alloc),
            clocks: Vec::new(alloc),
            shared: Vec::new(alloc),
            queues: Vec::new(alloc),
        }
    }

    /// A direction of the pipe with this number, if there is one.
    pub fn direction(&mut self, object: u64, back: bool) -> Result<&mut Direction, Fault> {
        let back = if back { 1 } else { 0 };
        let at = index_of(object).saturating_mul(2).saturating_add(back);
        self.directions.get_mut(at).ok_or(Fault::NoProc)
    }

    /// The first sender of the queue with this number, if nobody has had it.
    pub fn sender(&mut self, object: u64) -> Option<Sender<'static, u64>> {
        self.queues.get_mut(index_of(object))?.sender.take()
    }

    /// The first receiver of the queue with this number, if nobody has had it.
    pub fn receiver(&mut self, object: u64) -> Option<Receiver<'static, u64>> {
        self.queues.get_mut(index_of(object))?.receiver.take()
    }

    /// Whether the object of this role has Rendez that are not among the first so many. An end of a
    /// pipe tells its callers so itself.
    pub fn is_above(&self, role: RoleAt, rendez: u64) -> bool {
        match role.name {
            RoleName::Holder => ends_above(&self.semas, role.object, rendez),
            RoleName::Guest => ends_above(&self.spaces, role.object, rendez),
            RoleName::Sharer => ends_above(&self.shared, role.object, rendez),
            RoleName::Sender | RoleName::Receiver => {
                match self.queues.get(index_of(role.object)) {
                    Some(queue) => queue.end > rendez,
                    None => false,
                }
            }
            _ => false,
        }
    }
}

/// Where the object with this number lies, which is counted from 1.
pub fn index_of(object: u64) -> usize {
    (object.max(1) - 1) as usize
}

/// Puts an object after those of its kind. The line that makes it has no answer.
pub fn add<T: Drop>(kept: &mut Vec<T>, object: T) -> Came {
    push(kept, object)?;
    Ok(Answer::Nothing)
}

/// Makes a pipe of this mode, whose ends nobody has yet.
pub fn make_pipe(scene: &mut Scene, mode: Mode, limit: u64, writers: u64) -> Came {
    match mode {
        Mode::Message => {
            let opened = Pipe::new(scene.alloc, &mut scene.roster, limit, writers)?;
            lay_pipe(scene, opened)
        }
        Mode::Stream => {
            let opened = Pipe::new_stream(scene.alloc, &mut scene.roster, limit, writers)?;
            lay_pipe(scene, opened)
        }
    }
}

// Keeps a pipe, and lays the ends of both directions with those that nobody has yet.
fn lay_pipe(scene: &mut Scene, opened: OpenedPipe<'static>) -> Came
    requires { IsStartOf opened.pipe opened.start }
{
    let OpenedPipe { pipe, start } = opened;
    let pipe = &*keep(scene.alloc, pipe)?;
    let Ends { first, second } = pipe.ends(start);
    let Parts { read, writes: back } = first.parts();
    let Parts { read: away, writes } = second.parts();
    add(&mut scene.objects.directions, direction_of(read, writes))?;
    add(&mut scene.objects.directions, direction_of(away, back))
}

// Writer 0 is the next one that is taken.
fn direction_of(read: ReadEnd<'static>, mut writes: Vec<WriteEnd<'static>>) -> Direction {
    writes.reverse();
    Direction {
        read: Some(read),
        writes,
    }
}

/// Makes a semaphore, at which nobody has a seat yet.
pub fn make_sema(scene: &mut Scene, units: u32, seats: u64) -> Came {
    let opened = Semaphore::new(scene.alloc, &mut scene.roster, units, seats)?;
    let end = end_of(scene.kernel, &scene.roster);
    lay(scene.alloc, &mut scene.objects.semas, opened, end)
}

/// Makes a tag space, to which nobody has come yet.
pub fn make_space(scene: &mut Scene, members: u64) -> Came {
    let opened = Space::new(scene.alloc, &mut scene.roster, members)?;
    lay_space(scene, opened)
}

/// Keeps a tag space, whose Rendez were given last.
pub fn lay_space(scene: &mut Scene, space: Space) -> Came {
    let end = end_of(scene.kernel, &scene.roster);
    lay(scene.alloc, &mut scene.objects.spaces, space, end)
}

/// Another space of the size of this one, to which nobody has come yet.
pub fn make_group(scene: &mut Scene, object: u64) -> Came {
    let Some(
        Row {
            fresh: Some(space),
            ..
        },
    ) = scene.objects.spaces.get(index_of(object))
    else {
        return Ok(Answer::Word("no space"));
    };
    let opened = space.new_group(scene.alloc, &mut scene.roster)?;
    lay_space(scene, opened)
}

/// Lets so many processes share the read end of a pipe, if nobody has it. Where that is refused the
/// end is there again.
pub fn share(scene: &mut Scene, object: u64, procs: u64) -> Came {
    let direction = scene.objects.direction(object, false)?;
    let taken = direction.read.take().ok_or(Fault::NoProc)?;
    match SharedEnd::new(scene.alloc, &mut scene.roster, taken, procs) {
        Ok(opened) => {
            let end = end_of(scene.kernel, &scene.roster);
            lay(scene.alloc, &mut scene.objects.shared, opened, end)
        }
        Err(Unshared { end: back, fault }) => {
            set(&mut direction.read, Some(back));
            Err(fault)
        }
    }
}

// The end of the Rendez that were given so far.
fn end_of(kernel: &Kernel, roster: &Roster<'static>) -> u64 {
    kernel.rendez_count().saturating_sub(roster.left().1)
}

// Keeps an object that was made, whose Rendez are below this end.
fn lay<T: Drop>(alloc: Global, rows: &mut Vec<Row<T>>, opened: T, end: u64) -> Came {
    let fresh = Some(Box::new(alloc, opened)?);
    add(rows, Row { fresh, end })
}

/// Takes the object with this number, if there is one, and nobody has come to it.
pub fn take<T: Drop>(rows: &mut Vec<Row<T>>, object: u64) -> Option<Box<T>> {
    rows.get_mut(index_of(object))?.fresh.take()
}

// Whether there is an object with this number, and not all its Rendez are among the first so many.
fn ends_above<T: Drop>(rows: &Vec<Row<T>>, object: u64, rendez: u64) -> bool {
    match rows.get(index_of(object)) {
        Some(row) => row.end > rendez,
        None => false,
    }
}

/// Makes a queue of numbers, whose first handles nobody has yet.
pub fn make_queue(rt: &impl Wait, scene: &mut Scene, capacity: u64, handles: u64) -> Came {
    let opened = Messages::new(scene.alloc, &mut scene.roster, capacity, handles)?;
    let end = end_of(scene.kernel, &scene.roster);
    let QueueEnds { sender, receiver } = keep(scene.alloc, opened)?.ends(rt)?;
    let queue = Queue {
        sender: Some(sender),
        receiver: Some(receiver),
        end,
    };
    add(&mut scene.objects.queues, queue)
}

/// Makes timers, whose first seat is that of process 0.
pub fn make_clock(scene: &mut Scene, seats: u64) -> Came {
    let clock = keep(scene.alloc, Clock::new(scene.alloc, seats)?)?;
    add(&mut scene.objects.clocks, clock.watch()?)
}
