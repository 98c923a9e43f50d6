//! What a line does, up to what it waits for.
use crate::caller::Held;
use crate::calling::{Until, start};
use crate::objects::{
    index_of, make_clock, make_group, make_pipe, make_queue, make_sema, make_space, share,
};
use crate::progress::status_of;
use crate::roles::call_at_once;
use crate::scene::{Host, Scene, State, caller_at, place_of, push, set};
use crate::seating::{fork_holder, fork_in_role, note_group, rfork_alone, seat_stranger};
use crate::things::thing_for;
use plan9::{Fault, Flags, RendezId, RendezStatus};
use scene_text::answer::{Answer, Came, NO_CLOCK, NOT_HERE, OK, numbered};
use scene_text::line::Line;
use scene_text::verbs::{Asked, Call, RoleAt, Verb};
use scene_text::words::fill;
use std::sync::Wait;

/// What a line came to.
#[derive(Clone, Copy)]
pub enum Step {
    Answered(Answer),
    /// This is awaited of the process at this place.
    Awaits(usize, Until),
    /// All calls that run still are called off.
    CallsOff,
}

/// Begins a line. One that is none comes to nothing.
pub fn begin(rt: &impl Host, scene: &mut Scene, line: &Line) -> Option<Step> {
    let number = line.process.unwrap_or(0);
    let at = match number {
        0 => usize::MAX,
        _ => place_of(&scene.processes, number)?,
    };
    Some(match line.verb {
        Verb::Left => Step::CallsOff,
        verb if number == 0 => answered(answer(rt, scene, 0, verb)?),
        Verb::Waits => Step::Awaits(at, Until::Waits),
        Verb::Ends => Step::Awaits(at, Until::Ends),
        Verb::Makes(call, bytes) => match begin_call(rt, scene, at, call_of(line, call), bytes) {
            Ok(()) if line.apart => Step::Answered(Answer::Word("started")),
            Ok(()) => Step::Awaits(at, Until::Ends),
            Err(why) => Step::Answered(why),
        },
        Verb::Look => Step::Answered(look_answer(scene, number)),
        Verb::Gets(role) => answered(gets(rt, scene, at, role)),
        Verb::TakeSeat(object) => answered(take_seat(rt, scene, at, object)),
        _ if caller_at(&mut scene.processes, at).is_none() => Step::Answered(NOT_HERE),
        Verb::Points => Step::Answered(Answer::Points),
        Verb::Posted => Step::Answered(Answer::Posted),
        verb => answered(answer(rt, scene, number, verb)?),
    })
}

// The call that a line asks for.
fn call_of(line: &Line, call: Call) -> Asked {
    let role = line.role;
    Asked { call, role }
}

// What a line came to that waits for nothing.
fn answered(came: Came) -> Step {
    match came {
        Ok(answer) => Step::Answered(answer),
        Err(fault) => Step::Answered(Answer::Fault(fault)),
    }
}

// A line that makes an object or a process, or shows something; and each call of process 0.
fn answer(rt: &impl Wait, scene: &mut Scene, number: u64, verb: Verb<'_>) -> Option<Came> {
    Some(match verb {
        Verb::Makes(call, _) => Ok(call_at_once(&mut scene.zero, call)),
        Verb::Pipe(mode, limit, writers) => make_pipe(scene, mode, limit, writers),
        Verb::Share(procs, object) => share(scene, object, procs),
        Verb::Sema(units, seats) => make_sema(scene, units, seats),
        Verb::Clock(seats) => make_clock(scene, seats),
        Verb::Space(members) => make_space(scene, members),
        Verb::NewGroup(object) => make_group(scene, object),
        Verb::Queue(capacity, handles) => make_queue(rt, scene, capacity, handles),
        Verb::Stranger(procs, rendez, role) => seat_stranger(rt, scene, procs, rendez, role),
        Verb::Fork(Some(role)) => fork_in_role(rt, scene, number, Flags::RFPROC, role),
        Verb::Fork(None) => fork_holder(rt, scene, number),
        Verb::Rfork(flags, Some(role)) => fork_in_role(rt, scene, number, flags, role),
        Verb::Rfork(flags, None) => rfork_alone(rt, scene, number, flags),
        Verb::NoteGroup(pid, notes) => Ok(note_group(scene, number, pid, notes)),
        Verb::GiveRendez => Ok(given(scene.roster.rendez())),
        Verb::GiveRow(count) => Ok(given(scene.roster.row(count))),
        Verb::PidsLeft => Ok(Answer::Number("pids", scene.roster.left().0)),
        Verb::RendezLeft => Ok(Answer::Number("rendez", scene.roster.left().1)),
        Verb::TickAt(now, object) => Ok(tick(rt, scene, now, object)),
        Verb::Look => Ok(look_answer(scene, number)),
        Verb::Level(rendez) => Ok(level_of(scene, rendez)?),
        _ => return None,
    })
}

// The Rendez that were given, by the first of them.
fn given(made: Result<RendezId, Fault>) -> Answer {
    numbered("rendez", made.map(|first| first.0))
}

// `0 tick NOW K`: a tick of process 0.
fn tick(rt: &impl Wait, scene: &mut Scene, now: u64, object: u64) -> Answer {
    match scene.objects.clocks.get_mut(index_of(object)) {
        Some(watch) => Answer::Number("expired", watch.tick(rt, &mut scene.zero, now)),
        None => NO_CLOCK,
    }
}

// How the process with this number stands.
fn look_answer(scene: &mut Scene, number: u64) -> Answer {
    let at = place_of(&scene.processes, number).unwrap_or(usize::MAX);
    let (kernel, pid) = match scene.processes.get(at) {
        Some(process) => (process.progress.kernel, process.progress.pid.0),
        None => (scene.kernel, number),
    };
    match status_of(kernel, scene.statuses.as_mut_slice(), pid) {
        Some(status) => Answer::Status(status),
        None => Answer::Fault(Fault::NoProc),
    }
}

// How a Rendez of the scene's kernel stands. One that is none has no answer.
fn level_of(scene: &Scene, rendez: u64) -> Option<Answer> {
    if rendez >= scene.kernel.rendez_count() {
        return None;
    }
    let room = rendez as usize + 1;
    let Ok(mut seen) = vec![in scene.alloc; RendezStatus::default(); room] else {
        return Some(Answer::Fault(Fault::Memory));
    };
    let look = scene.kernel.look(&mut [], seen.as_mut_slice());
    let status = look.rendez.get(rendez as usize).copied()?;
    Some(Answer::Level(status))
}

// ---- the others

// `N gets ROLE ..`: the process has one thing more.
fn gets(rt: &impl Wait, scene: &mut Scene, at: usize, role: RoleAt) -> Came {
    let Some(caller) = caller_at(&mut scene.processes, at) else {
        return Ok(NOT_HERE);
    };
    // room comes first, so that who finds none takes nothing along
    caller.things.reserve(1)?;
    let thing = thing_for(rt, scene, role)?;
    if let Some(caller) = caller_at(&mut scene.processes, at) {
        push(&mut caller.things, Held { role, thing })?;
    }
    Ok(OK)
}

// `N clock K`: the process takes a seat at timers.
fn take_seat(rt: &impl Wait, scene: &mut Scene, at: usize, object: u64) -> Came {
    let Some(clock) = scene.objects.clocks.get_mut(index_of(object)) else {
        return Ok(NO_CLOCK);
    };
    let Some(caller) = caller_at(&mut scene.processes, at) else {
        return Ok(NOT_HERE);
    };
    set(&mut caller.means.watch, Some(clock.split(rt)?));
    Ok(OK)
}

// Starts a call, with the bytes that it writes. It gets the lines that are kept for the next one.
fn begin_call(
    rt: &impl Host,
    scene: &mut Scene,
    at: usize,
    asked: Asked,
    bytes: &str,
) -> Result<(), Answer> {
    let process = scene.processes.get_mut(at).ok_or(NOT_HERE)?;
    if let State::Here(caller) = &mut process.state {
        if !bytes.is_empty() && !fill(&mut caller.means.bytes, bytes) {
            return Err(Answer::Fault(Fault::Memory));
        }
    }
    start(rt, process, asked, scene.kept.next_stops())?;
    scene.kept.take(at);
    Ok(())
}
