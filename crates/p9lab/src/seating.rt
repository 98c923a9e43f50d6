//! How a process is made, with its first thing.
use crate::caller::{Caller, Held, Means, OwnProc, Thing, last_of};
use crate::objects::lay_space;
use crate::progress::Progress;
use crate::scene::{
    Process, STRANGERS, Scene, State, begin, caller_at, caller_in, keep, place_of, process_in,
    push, set,
};
use crate::things::{Spot, held_at, split, spot_of, thing_for};
use plan9::{
    Fault, Flags, ForkedMember, Kernel, Member, NoteSet, Pid, Space, Started, UnforkedMember, fork,
    forks,
};
use scene_text::answer::{Answer, Came, NOBODY, NOT_ITS_CALL, numbered};
use scene_text::verbs::{RoleAt, RoleName};
use std::alloc::Global;
use std::sync::Wait;

// ---- children

/// `N fork ROLE ..`, `N rfork FLAGS ROLE ..`: a child of the process with this number, in its role.
pub fn fork_in_role(
    rt: &impl Wait,
    scene: &mut Scene,
    number: u64,
    flags: Flags,
    role: RoleAt,
) -> Came {
    // whether a child is asked for, and nothing that the roster refuses
    let makes_one = flags == Flags::RFPROC || is_alone(flags);
    if proc_in(&mut scene.zero, &mut scene.processes, number).is_none() {
        return Ok(NOT_ITS_CALL);
    }
    match role.name {
        RoleName::Sharer if makes_one => {
            if let Some(spot) = spot_of(&scene.processes, role) {
                return fork_sharer(rt, scene, flags, spot);
            }
        }
        RoleName::Writers if makes_one => return fork_each_writer(rt, scene, number, flags, role),
        _ => {}
    }
    let parent = proc_in(&mut scene.zero, &mut scene.processes, number);
    match scene.roster.rfork(parent.ok_or(Fault::NoProc)?, flags)? {
        Some(proc) => place(rt, scene, proc, role),
        None => Ok(NOBODY),
    }
}

// Whether a child is asked for that is alone in its note group.
fn is_alone(flags: Flags) -> bool {
    flags == Flags::RFPROC.join(Flags::RFNOTEG)
}

/// `N fork`: a child of a holder, which holds as well.
pub fn fork_holder(rt: &impl Wait, scene: &mut Scene, number: u64) -> Came {
    match spot_in(&mut scene.processes, number, RoleName::Holder) {
        Some(spot) => fork_beside(rt, scene, spot),
        None => Ok(NOT_ITS_CALL),
    }
}

// What the process with this number got last by a role of this name, if it is here.
fn spot_in(processes: &mut Vec<Process>, number: u64, name: RoleName) -> Option<Spot> {
    let process = place_of(processes, number)?;
    let thing = last_of(&caller_at(processes, process)?.things, name)?;
    Some(Spot { process, thing })
}

// One more that shares the end, a child of one that does, in its note group.
fn fork_sharer(rt: &impl Wait, scene: &mut Scene, flags: Flags, spot: Spot) -> Came {
    if is_alone(flags) {
        return Ok(NOT_ITS_CALL);
    }
    fork_beside(rt, scene, spot)
}

// A child of the process at this spot, whose thing is split from the one there. Where it is refused
// neither a pid nor a thing is used up.
fn fork_beside(rt: &impl Wait, scene: &mut Scene, spot: Spot) -> Came {
    let (pids, _) = scene.roster.left();
    if pids == 0 {
        return Err(Fault::NoProc);
    }
    let held = held_at(&mut scene.processes, spot).ok_or(Fault::NoProc)?;
    let role = held.role;
    let thing = split(rt, &mut held.thing)?;
    let parent = caller_at(&mut scene.processes, spot.process).ok_or(Fault::NoProc)?;
    let child = fork(&mut scene.roster, &mut parent.proc)?;
    seat_child(scene, child, Held { role, thing })
}

// A child for each write end of a direction that nobody has, the first one's writer first. Where it
// is refused no pid is used up. The answer is that of the last.
fn fork_each_writer(
    rt: &impl Wait,
    scene: &mut Scene,
    number: u64,
    flags: Flags,
    role: RoleAt,
) -> Came {
    let RoleAt { object, back, .. } = role;
    let count = scene.objects.direction(object, back)?.writes.len();
    let parent = proc_in(&mut scene.zero, &mut scene.processes, number).ok_or(Fault::NoProc)?;
    let mut last = Ok(NOBODY);
    for mut child in forks(scene.alloc, &mut scene.roster, parent, count as u64)? {
        if is_alone(flags) {
            let _ = scene.roster.rfork(&mut child, Flags::RFNOTEG);
        }
        let name = RoleName::Writer;
        last = place(rt, scene, child, RoleAt { name, object, back });
    }
    last
}

// ---- children of guests

/// `N rfork FLAGS`: a child of a guest, which is one as well; and else one alone. A new space has
/// the next number.
pub fn rfork_alone(rt: &impl Wait, scene: &mut Scene, number: u64, flags: Flags) -> Came {
    match spot_in(&mut scene.processes, number, RoleName::Guest) {
        Some(spot) => rfork_guest(rt, scene, spot, flags),
        None => fork_in_role(rt, scene, number, flags, role_at(RoleName::Plain, 1)),
    }
}

// The rfork of the guest at this spot.
fn rfork_guest(rt: &impl Wait, scene: &mut Scene, spot: Spot, flags: Flags) -> Came {
    let Some((member, role)) = take_member(&mut scene.processes, spot) else {
        return Err(Fault::NoProc);
    };
    let parent = caller_at(&mut scene.processes, spot.process).ok_or(Fault::NoProc)?;
    match member.rfork(scene.alloc, rt, &mut scene.roster, &mut parent.proc, flags) {
        Ok(ForkedMember::Alone { member }) => {
            come_back(&mut scene.processes, spot, member);
            Ok(NOBODY)
        }
        Ok(
            ForkedMember::Child {
                member,
                child,
                childs,
            },
        ) => {
            come_back(&mut scene.processes, spot, member);
            let thing = Thing::Guest(Some(childs));
            seat_child(scene, child, Held { role, thing })
        }
        Ok(ForkedMember::Apart { space, .. }) => move_apart(rt, scene, spot, space),
        Ok(
            ForkedMember::ChildApart {
                member,
                child,
                space,
            },
        ) => {
            come_back(&mut scene.processes, spot, member);
            let role = new_space(scene, space)?;
            place(rt, scene, child, role)
        }
        Err(UnforkedMember { member, fault }) => {
            come_back(&mut scene.processes, spot, member);
            Err(fault)
        }
    }
}

// The member at this spot, and its role. The process has none there until one comes back.
fn take_member(processes: &mut Vec<Process>, spot: Spot) -> Option<(Member<'static>, RoleAt)> {
    let Held { role, thing } = held_at(processes, spot)?;
    match thing {
        Thing::Guest(member) => Some((member.take()?, *role)),
        _ => None,
    }
}

// The process has its member again.
fn come_back(processes: &mut Vec<Process>, spot: Spot, member: Member<'static>) {
    if let Some(held) = held_at(processes, spot) {
        set(&mut held.thing, Thing::Guest(Some(member)));
    }
}

// The guest at this spot is the first of a new space. Where it is refused it is gone.
fn move_apart(rt: &impl Wait, scene: &mut Scene, spot: Spot, space: Space) -> Came {
    match first_guest(rt, scene, spot, space) {
        Ok(moved) => {
            if let Some(held) = held_at(&mut scene.processes, spot) {
                set(held, moved);
            }
            Ok(NOBODY)
        }
        Err(fault) => {
            if let Some(process) = scene.processes.get_mut(spot.process) {
                set(&mut process.state, State::Gone);
            }
            Err(fault)
        }
    }
}

// The first member of a new space, for a process whose kernel has its Rendez.
fn first_guest(rt: &impl Wait, scene: &mut Scene, spot: Spot, space: Space) -> Result<Held, Fault> {
    let role = new_space(scene, space)?;
    let guest = caller_at(&mut scene.processes, spot.process).ok_or(Fault::NoProc)?;
    if scene.objects.is_above(role, guest.proc.rendez_count()) {
        return Err(Fault::NoRendez);
    }
    let thing = thing_for(rt, scene, role)?;
    Ok(Held { role, thing })
}

// A new space has the next number: the role of a guest there.
fn new_space(scene: &mut Scene, space: Space) -> Result<RoleAt, Fault> {
    lay_space(scene, space)?;
    Ok(role_at(RoleName::Guest, scene.objects.spaces.len() as u64))
}

// This role at the object with this number.
fn role_at(name: RoleName, object: u64) -> RoleAt {
    let back = false;
    RoleAt { name, object, back }
}

// ---- notes

/// Posts notes to the group of a pid.
pub fn note_group(scene: &mut Scene, number: u64, pid: u64, notes: NoteSet) -> Answer {
    let Some(poster) = proc_in(&mut scene.zero, &mut scene.processes, number) else {
        return NOT_ITS_CALL;
    };
    let count = scene.roster.postnote_group(poster, Pid(pid), notes);
    numbered("noted", count)
}

// The process with this number, if it is here and one of its roles lends it.
fn proc_in<'a>(
    zero: &'a mut OwnProc,
    processes: &'a mut Vec<Process>,
    number: u64,
) -> Option<&'a mut OwnProc> {
    if number == 0 {
        return Some(zero);
    }
    let Caller { proc, things, .. } = caller_in(processes, number)?;
    if things.iter().any(|held| held.role.name.forks()) {
        Some(proc)
    } else {
        None
    }
}

// ---- places

// Gives a child its thing and its place. A child that is refused its thing is gone, and its pid is
// used up.
fn place(rt: &impl Wait, scene: &mut Scene, proc: OwnProc, role: RoleAt) -> Came {
    let pid = proc.pid();
    match thing_for(rt, scene, role) {
        Ok(thing) => seat_child(scene, proc, Held { role, thing }),
        Err(fault) => {
            let kernel = scene.kernel;
            let _ = seat(scene, pid.0, kernel, pid, State::Gone);
            Err(fault)
        }
    }
}

// Gives a process of the scene's kernel its place, with this thing.
fn seat_child(scene: &mut Scene, proc: OwnProc, held: Held) -> Came {
    let kernel = scene.kernel;
    let pid = proc.pid();
    let state = here(scene.alloc, proc, held)?;
    seat(scene, pid.0, kernel, pid, state)
}

// A process with this thing, which has made no call yet.
fn here(alloc: Global, proc: OwnProc, held: Held) -> Result<State, Fault> {
    let means = Means {
        alloc,
        bytes: Vec::new(alloc),
        watch: None,
    };
    let mut things = Vec::new(alloc);
    push(&mut things, held)?;
    Ok(State::Here(Caller {
        proc,
        things,
        means,
        visits: Vec::new(alloc),
    }))
}

// Puts a process of this kernel after those that are there.
fn seat(scene: &mut Scene, number: u64, kernel: &'static Kernel, pid: Pid, state: State) -> Came {
    let progress = keep(scene.alloc, Progress::new(scene.turns, kernel, pid))?;
    let process = Process {
        number,
        progress,
        state,
    };
    push(&mut scene.processes, process)?;
    Ok(Answer::Number("process", number))
}

/// A process of a kernel of its own, in its role at an object of this one. Where it is refused it
/// has no place, and no number.
pub fn seat_stranger(
    rt: &impl Wait,
    scene: &mut Scene,
    procs: u64,
    rendez: u64,
    role: RoleAt,
) -> Came {
    let made = begin(scene.alloc, Kernel::new(scene.alloc, procs, rendez));
    let (kernel, Started { proc, .. }) = made?;
    if scene.objects.is_above(role, rendez) {
        return Err(Fault::NoRendez);
    }
    let thing = thing_for(rt, scene, role)?;
    let number = STRANGERS.saturating_add(scene.strangers);
    scene.strangers = scene.strangers.saturating_add(1);
    let state = here(scene.alloc, proc, Held { role, thing })?;
    seat(scene, number, kernel, Pid(0), state)
}
