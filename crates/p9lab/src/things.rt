//! How a process gets a thing: the end of a pipe that nobody has, what nobody has had of an object,
//! or a further one beside that of a process that is here.
use crate::caller::{Caller, Held, Thing};
use crate::objects::{Objects, take};
use crate::scene::{Process, Scene, State, caller_at, for_good};
use plan9::Fault;
use scene_text::verbs::{RoleAt, RoleName};
use std::sync::Wait;

/// The thing of a role. Who is refused takes nothing along.
pub fn thing_for(rt: &impl Wait, scene: &mut Scene, role: RoleAt) -> Result<Thing, Fault> {
    match first_thing(&mut scene.objects, role)? {
        Some(thing) => Ok(thing),
        None => split_beside(rt, &mut scene.processes, role),
    }
}

// The thing of a role that nobody has had; none where it has to be split from one.
fn first_thing(objects: &mut Objects, role: RoleAt) -> Result<Option<Thing>, Fault> {
    let RoleAt { name, object, back } = role;
    Ok(match name {
        RoleName::Plain => Some(Thing::Plain),
        RoleName::Reader => {
            let end = objects.direction(object, back)?.read.take();
            Some(Thing::Reader(end.ok_or(Fault::NoProc)?))
        }
        RoleName::Writer => {
            let end = objects.direction(object, back)?.writes.pop();
            Some(Thing::Writer(end.ok_or(Fault::NoProc)?))
        }
        RoleName::Holder => match take(&mut objects.semas, object) {
            Some(sema) => Some(Thing::Holder(for_good(sema).seat()?)),
            None => None,
        },
        RoleName::Guest => match take(&mut objects.spaces, object) {
            Some(space) => Some(Thing::Guest(Some(for_good(space).member()?))),
            None => None,
        },
        RoleName::Sharer => match take(&mut objects.shared, object) {
            Some(shared) => Some(Thing::Sharer(for_good(shared).share()?)),
            None => None,
        },
        RoleName::Sender => first_sender(objects, object),
        RoleName::Receiver => first_receiver(objects, object),
        RoleName::Writers => return Err(Fault::NoProc),
    })
}

// The first sender of a queue, if nobody has had it.
fn first_sender(objects: &mut Objects, object: u64) -> Option<Thing> {
    Some(Thing::Sender(objects.sender(object)?))
}

// The first receiver of a queue, if nobody has had it.
fn first_receiver(objects: &mut Objects, object: u64) -> Option<Thing> {
    Some(Thing::Receiver(objects.receiver(object)?))
}

// A thing that is split from that of the first process here which has this role.
fn split_beside(
    rt: &impl Wait,
    processes: &mut Vec<Process>,
    role: RoleAt,
) -> Result<Thing, Fault> {
    let Some(spot) = spot_of(processes, role) else {
        return Err(Fault::NoProc);
    };
    match held_at(processes, spot) {
        Some(held) => split(rt, &mut held.thing),
        None => Err(Fault::NoProc),
    }
}

/// A further thing of the object, for another process, if there is one left.
pub fn split(rt: &impl Wait, thing: &mut Thing) -> Result<Thing, Fault> {
    match thing {
        Thing::Holder(seat) => Ok(Thing::Holder(seat.split(rt)?)),
        Thing::Guest(Some(member)) => Ok(Thing::Guest(Some(member.split(rt)?))),
        Thing::Sharer(share) => Ok(Thing::Sharer(share.split(rt)?)),
        Thing::Sender(sender) => Ok(Thing::Sender(sender.split(rt)?)),
        Thing::Receiver(receiver) => Ok(Thing::Receiver(receiver.split(rt)?)),
        _ => Err(Fault::NoProc),
    }
}

/// Where a thing is: the place of its process, and its own among what that has.
#[derive(Clone, Copy)]
pub struct Spot {
    pub process: usize,
    pub thing: usize,
}

/// What the first process here has that has this role at this object.
pub fn spot_of(processes: &Vec<Process>, role: RoleAt) -> Option<Spot> {
    for (process, it) in processes.iter().enumerate() {
        if let State::Here(Caller { things, .. }) = &it.state {
            if let Some(thing) = things.iter().position(|held| is_at(held, role)) {
                return Some(Spot { process, thing });
            }
        }
    }
    None
}

// Whether this is of the same role, at the object with the same number.
fn is_at(held: &Held, role: RoleAt) -> bool {
    held.role.name == role.name && held.role.object == role.object
}

/// The thing at this spot, if its process is here.
pub fn held_at(processes: &mut Vec<Process>, spot: Spot) -> Option<&mut Held> {
    caller_at(processes, spot.process)?
        .things
        .get_mut(spot.thing)
}
