//! A call on a thread of its own: how it starts, how it is awaited, and how it ends.
use crate::caller::{Caller, Reply, run};
use crate::progress::{Progress, Stops};
use crate::scene::{Host, Process, STRANGERS, Scene, State, set};
use plan9::{Fault, Note, NoteSet};
use scene_text::answer::{Answer, NOT_HERE};
use scene_text::verbs::Asked;
use std::sync::Wait;
use std::thread::{JoinHandle, Threads, yield_now};
use std::{mem, thread};

/// What is awaited of a process.
#[derive(Clone, Copy, PartialEq, Eq)]
pub enum Until {
    /// That its call ends.
    Ends,
    /// The same, where it is let go at each point.
    IsLetGo,
    /// That it is posted in a Rendez, and nobody has marked it.
    Waits,
}

// Starts a call on a thread of its own, if one can be made.
fn start_call<R: Threads + Wait + Copy + Send + 'static>(
    rt: &R,
    caller: Caller,
    asked: Asked,
    stops: Stops,
    progress: &'static Progress,
) -> Option<JoinHandle<Reply>> {
    let rt = *rt;
    thread::spawn(&rt, move || run(&rt, caller, asked, stops, progress)).ok()
}

/// Starts a call of a process, if it is here; else it says why not. Where no thread can be made the
/// process is gone.
pub fn start(
    rt: &impl Host,
    process: &mut Process,
    asked: Asked,
    stops: Stops,
) -> Result<(), Answer> {
    match mem::replace(&mut process.state, State::Gone) {
        State::Here(caller) => {
            process.progress.begin();
            let Some(thread) = start_call(rt, caller, asked, stops, process.progress) else {
                process.progress.end();
                return Err(Answer::Fault(Fault::Device));
            };
            set(&mut process.state, State::Calls(thread));
            Ok(())
        }
        other => {
            set(&mut process.state, other);
            Err(NOT_HERE)
        }
    }
}

// The answer of a call that has ended. The process is here again.
fn join(rt: &impl Host, process: &mut Process) -> Answer {
    match mem::replace(&mut process.state, State::Gone) {
        State::Calls(thread) => {
            let Reply { caller, answer } = thread.join(rt);
            set(&mut process.state, State::Here(caller));
            answer
        }
        other => {
            set(&mut process.state, other);
            Answer::Word("not started")
        }
    }
}

/// Whether what is awaited came to be so, if that can be told by now: who makes no call doesn't
/// wait.
pub fn outcome(scene: &mut Scene, at: usize, until: Until) -> Option<bool> {
    let Some(process) = scene.processes.get(at) else {
        return Some(false);
    };
    let runs = process.progress.runs();
    match until {
        Until::Waits if process.progress.waits(scene.statuses.as_mut_slice()) => Some(true),
        Until::Waits if runs => None,
        Until::Waits => Some(false),
        _ if !runs => Some(true),
        _ => {
            if until == Until::IsLetGo {
                process.progress.let_go();
            }
            None
        }
    }
}

/// Whether it comes to be so, within so many turns.
pub fn comes(scene: &mut Scene, at: usize, until: Until) -> bool {
    for _ in 0..scene.turns {
        if let Some(came) = outcome(scene, at, until) {
            return came;
        }
        yield_now();
    }
    false
}

/// What `waits` or `ends` is answered, or a call that was awaited.
pub fn ending(rt: &impl Host, scene: &mut Scene, at: usize, until: Until, came: bool) -> Answer {
    if until == Until::Waits {
        return Answer::Word(if came { "yes" } else { "no" });
    }
    match scene.processes.get_mut(at) {
        Some(process) if came => join(rt, process),
        _ => Answer::Word("waits still"),
    }
}

// ---- the end of a scene

/// How many calls ran still and were ended by a note, and how many even then didn't end.
#[derive(Clone, Copy)]
pub struct CalledOff {
    pub ended: u64,
    pub stuck: u64,
}

impl CalledOff {
    /// Before any call was ended.
    pub fn none() -> CalledOff {
        CalledOff { ended: 0, stuck: 0 }
    }

    /// Counts one more.
    pub fn count(&mut self, ended: bool) {
        if ended {
            self.ended = self.ended.saturating_add(1);
        } else {
            self.stuck = self.stuck.saturating_add(1);
        }
    }

    /// What `left` is answered.
    pub fn answer(&self) -> Answer {
        if self.stuck > 0 {
            Answer::Number("stuck", self.stuck)
        } else {
            Answer::Number("called off", self.ended)
        }
    }
}

/// Sends a note to the process at this place, if its call runs still. Whether it does. A stranger
/// gets none: nobody of its kernel is here to send it.
pub fn interrupt_at(scene: &mut Scene, at: usize) -> bool {
    match scene.processes.get(at) {
        Some(process) if matches!(&process.state, State::Calls(_)) => {
            if process.number < STRANGERS {
                let pid = process.progress.pid;
                let _ = scene.zero.postnote(pid, NoteSet::of(Note::Interrupt));
            }
            true
        }
        _ => false,
    }
}

/// Ends each call that runs still, and lets it go at each point.
pub fn call_off(rt: &impl Host, scene: &mut Scene) -> CalledOff {
    let mut off = CalledOff::none();
    for at in 0..scene.processes.len() {
        if interrupt_at(scene, at) {
            let came = comes(scene, at, Until::IsLetGo);
            ending(rt, scene, at, Until::IsLetGo, came);
            off.count(came);
        }
    }
    off
}
