//! How far the call of a process is, as its thread and the player of the scene see it.
use plan9::{Kernel, Pid, Probe, ProcStatus};
use scene_text::answer::Visit;
use std::mem;
use std::sync::atomic::Ordering::SeqCst;
use std::sync::atomic::{AtomicBool, AtomicU64};
use std::thread::yield_now;

/// The points of a call are below this.
pub const POINTS: usize = 16;

/// The pids of processes whose visits are told are below this.
const SEEN: usize = 64;

/// What a thread and the player tell each other of a process.
#[derive(Drop)]
pub struct Progress {
    /// For how many turns a call stands at a point. At each turn others may run.
    turns: u64,
    pub kernel: &'static Kernel,
    pub pid: Pid,
    runs: AtomicBool,
    /// The point at which the call stands, or 0.
    point: AtomicU64,
}

impl Progress {
    /// Of a process that makes no call, for this many turns at a point.
    pub fn new(turns: u64, kernel: &'static Kernel, pid: Pid) -> Progress {
        Progress {
            turns,
            kernel,
            pid,
            runs: AtomicBool::new(false),
            point: AtomicU64::new(0),
        }
    }

    /// The call begins.
    pub fn begin(&self) {
        self.runs.store(true, SeqCst);
    }

    /// The call has ended.
    pub fn end(&self) {
        self.runs.store(false, SeqCst);
    }

    /// Whether the call runs still.
    pub fn runs(&self) -> bool {
        self.runs.load(SeqCst)
    }

    /// The point at which the call stands, or 0.
    pub fn stands_at(&self) -> u64 {
        self.point.load(SeqCst)
    }

    /// Lets the call go on from the point at which it stands.
    pub fn let_go(&self) {
        self.point.store(0, SeqCst);
    }

    // Whether the process stands posted in a Rendez.
    fn is_posted(&self) -> bool {
        let status = self.status(&mut [ProcStatus::default(); SEEN]);
        status.posted.is_some()
    }

    /// Whether the process is posted, and nobody has marked it.
    pub fn waits(&self, statuses: &mut [ProcStatus]) -> bool {
        let status = self.status(statuses);
        status.posted.is_some() && !status.marked
    }

    // How the process stands, if it is among so many.
    fn status(&self, statuses: &mut [ProcStatus]) -> ProcStatus {
        status_of(self.kernel, statuses, self.pid.0).unwrap_or(ProcStatus::default())
    }

    // Stands there until it is let go, or too many turns have passed.
    fn stand_at(&self, point: u64) {
        self.point.store(point, SeqCst);
        for _ in 0..self.turns {
            if self.point.load(SeqCst) == 0 {
                return;
            }
            yield_now();
        }
        self.point.store(0, SeqCst);
    }
}

/// How the process with this pid stands, as look(2) shows it, if there is one.
pub fn status_of(kernel: &Kernel, statuses: &mut [ProcStatus], pid: u64) -> Option<ProcStatus> {
    let look = kernel.look(statuses, &mut []);
    look.procs.get(pid as usize).copied()
}

/// The points at which a call stands until it is let go, once at each.
#[derive(Clone, Copy)]
pub struct Stops {
    at: [bool; POINTS],
    /// Whether the call is probed.
    pub probed: bool,
}

impl Stops {
    /// No stops, and no probe.
    pub fn none() -> Stops {
        Stops {
            at: [false; POINTS],
            probed: false,
        }
    }

    /// One stop more, in a call that is probed.
    pub fn add(&mut self, point: u64) {
        self.probed = true;
        if let Some(stops) = self.at.get_mut(point as usize) {
            *stops = true;
        }
    }

    // Whether the call stops at this point, as it does once.
    fn takes(&mut self, point: u64) -> bool {
        match self.at.get_mut(point as usize) {
            Some(stops) => mem::replace(stops, false),
            None => false,
        }
    }
}

/// The probe of a call on a thread: it writes each visit down, and stands where it is to.
#[derive(Drop)]
pub struct Visitor<'a> {
    pub progress: &'a Progress,
    pub stops: Stops,
    pub visits: &'a mut Vec<Visit>,
}

impl<'a> Probe for Visitor<'a> {
    // Writes the visit down, and stands there where it is to.
    fn at(&mut self, point: u64) {
        let posted = self.progress.is_posted();
        let _ = self.visits.push(Visit { point, posted });
        if self.stops.takes(point) {
            self.progress.stand_at(point);
        }
    }
}
