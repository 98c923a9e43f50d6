//! A scene: its kernel, the process 0, the others by their numbers from 1 on, and its objects.
//! All that a call may borrow is kept for as long as the program runs. So a call that never comes
//! back keeps what it has, and stops neither the scene nor the program.
ghost use Rattle.std.specs.Prelude.{◌≡◌, IfOk};
ghost use Rattle.sleep_wakeup.specs.Starts.{IsStartOf};

use crate::caller::{Caller, Reply};
use crate::kept::KeptLines;
use crate::objects::Objects;
use crate::progress::Progress;
use plan9::{Fault, Kernel, OpenedKernel, Proc, ProcStatus, Roster, Started};
use scene_text::answer::{NOTHING, Shown};
use std::alloc::Global;
use std::mem;
use std::sync::Wait;
use std::thread::{JoinHandle, Threads};

/// What a scene runs on: threads, which may wait for one another.
pub trait Host: Threads + Wait + Copy + Send + 'static {}

impl<R: Threads + Wait + Copy + Send + 'static> Host for R {}

/// Whether a process may make a call.
#[derive(Drop)]
pub enum State {
    Here(Caller),
    /// Its call runs on a thread.
    Calls(JoinHandle<Reply>),
    Gone,
}

/// The number of the first stranger, which no pid has.
pub const STRANGERS: u64 = 1024;

/// A process of the scene. Its number is its pid, but for a stranger: those have a kernel of their
/// own each, and the numbers that no pid has.
#[derive(Drop)]
pub struct Process {
    pub number: u64,
    pub progress: &'static Progress,
    pub state: State,
}

#[derive(Drop)]
pub struct Scene<'t> {
    pub alloc: Global,
    /// For how many turns anything is awaited. At each turn others may run.
    pub turns: u64,
    pub kernel: &'static Kernel,
    pub statuses: Vec<ProcStatus>,
    pub roster: Roster<'static>,
    pub zero: Proc<'static>,
    pub processes: Vec<Process>,
    pub strangers: u64,
    pub objects: Objects,
    /// The lines that are kept for points of a call, and what the last ones were answered.
    pub kept: KeptLines<'t>,
    pub told: Vec<u8>,
    /// Whether the last line was `left`.
    pub is_left: bool,
}

/// Keeps a value for as long as the program runs.
pub fn keep<'a, T: Drop + 'a>(alloc: Global, value: T) -> Result<&'a mut T, Fault>
    ensures kept { IfOk result (λ kept. kept.now ≡ value) }
{
    match Box::new(alloc, value) {
        Ok(kept) => Ok(Box::leak(kept)),
        Err(_) => Err(Fault::Memory),
    }
}

/// Keeps what has its memory for as long as the program runs.
pub fn for_good<'a, T: Drop + 'a>(boxed: Box<T>) -> &'a mut T {
    Box::leak(boxed)
}

/// Puts a value in the place of another. At a type parameter it is proved once, for whatever type.
pub fn set<T: Drop>(place: &mut T, value: T) {
    let _gone = mem::replace(place, value);
}

/// Puts a value after those that are there, if there is memory for it.
pub fn push<T: Drop>(places: &mut Vec<T>, value: T) -> Result<(), Fault> {
    Ok(places.push(value)?)
}

/// A kernel that was made, kept and started, with its roster and its process 0.
pub type Begun = Result<(&'static Kernel, Started<'static>), Fault>;

/// Keeps a kernel that was made, and starts it.
pub fn begin(alloc: Global, made: Result<OpenedKernel, Fault>) -> Begun
    requires { IfOk made (λ opened. IsStartOf opened.kernel opened.start) }
{
    let OpenedKernel { kernel, start } = made?;
    let kernel = keep(alloc, kernel)?;
    let kernel = &*kernel;
    Ok((kernel, kernel.start(start)))
}

/// A scene with this kernel, and nobody but process 0.
pub fn open<'t>(alloc: Global, turns: u64, begun: Begun) -> Result<Scene<'t>, Fault> {
    let (kernel, Started { roster, proc: zero }) = begun?;
    // what a look at all processes shows
    let statuses = vec![in alloc; ProcStatus::default(); kernel.proc_count() as usize]?;
    Ok(Scene {
        alloc,
        turns,
        kernel,
        statuses,
        roster,
        zero,
        processes: Vec::new(alloc),
        strangers: 0,
        objects: Objects::new(alloc),
        kept: KeptLines::none(),
        told: Vec::new(alloc),
        is_left: false,
    })
}

/// The place of the process with this number among these, if it has one. Process 0 has none.
pub fn place_of(processes: &Vec<Process>, number: u64) -> Option<usize> {
    processes.iter().position(|it| it.number == number)
}

/// What is shown of the process with this number; nothing where it is not here.
pub fn shown_of(processes: &Vec<Process>, number: u64) -> Shown<'_> {
    match here_of(processes, number) {
        Some(caller) => Shown {
            bytes: caller.means.bytes.as_slice(),
            visits: caller.visits.as_slice(),
            told: &[],
        },
        None => NOTHING,
    }
}

// The process with this number, if it is here.
fn here_of(processes: &Vec<Process>, number: u64) -> Option<&Caller> {
    match &processes.get(place_of(processes, number)?)?.state {
        State::Here(caller) => Some(caller),
        _ => None,
    }
}

/// The process with this number, if there is one.
pub fn process_in(processes: &mut Vec<Process>, number: u64) -> Option<&mut Process> {
    let at = place_of(processes, number)?;
    processes.get_mut(at)
}

/// The process with this number, if it is here.
pub fn caller_in(processes: &mut Vec<Process>, number: u64) -> Option<&mut Caller> {
    let at = place_of(processes, number)?;
    caller_at(processes, at)
}

/// The process at this place, if it is here.
pub fn caller_at(processes: &mut Vec<Process>, at: usize) -> Option<&mut Caller> {
    match &mut processes.get_mut(at)?.state {
        State::Here(caller) => Some(caller),
        _ => None,
    }
}
