//! Who waits where: a look at the processes and Rendez of a kernel, for a program that hangs, and
//! how it is printed. The reader comes from `kernel`.
ghost use Rattle.std.specs.Prelude.{◌≡◌, ◌<◌, ◌≤◌, length, min, slice_set};
ghost use Rattle.rendez_words.specs.Words.{procs_of, rendez_of};
ghost use Rattle.sleep_wakeup.specs.Status.{AreOfProcs, AreOfRendez};

use crate::kernel::Kernel;
use std::fmt;
use sync_base::{Note, NoteSet, Pid, RendezId};

/// What a look sees of a process, as in the file status of proc(3).
#[derive(Clone, Copy, Debug, PartialEq, Eq)]
pub struct ProcStatus {
    pub pid: Pid,
    /// The Rendez in which it is posted.
    pub posted: Option<RendezId>,
    /// Whether a wakeup has marked it, and it has yet to run and see that.
    pub marked: bool,
    /// The notes that are pending.
    pub notes: NoteSet,
}

/// Room for what a look sees.
impl Default for ProcStatus {
    fn default() -> ProcStatus {
        ProcStatus {
            pid: Pid(0),
            posted: None,
            marked: false,
            notes: NoteSet::empty(),
        }
    }
}

/// What a look sees of a Rendez.
#[derive(Clone, Copy, Debug, PartialEq, Eq)]
pub struct RendezStatus {
    pub rendez: RendezId,
    pub level: u64,
    /// The process that is posted there.
    pub posted: Option<Pid>,
}

/// Room for what a look sees.
impl Default for RendezStatus {
    fn default() -> RendezStatus {
        RendezStatus {
            rendez: RendezId(0),
            level: 0,
            posted: None,
        }
    }
}

/// What a look saw: as many processes and Rendez as there was room for, from 0 on, and how many
/// there are. It is printed as a table like that of ps(1).
#[derive(Clone, Copy, Debug)]
pub struct Look<'r> {
    pub procs: &'r [ProcStatus],
    pub rendez: &'r [RendezStatus],
    /// How many processes the kernel has.
    pub proc_count: u64,
    /// How many Rendez it has.
    pub rendez_count: u64,
}

impl Kernel {
    /// Who waits where. Any thread may look while others run, also a thread with no process. Where
    /// there is too little room for all, all of the room is filled, from 0 on. Takes no memory and
    /// doesn't wait.
    ///
    /// Each word is loaded by itself, one after another, so what a look sees is no single moment: a
    /// process that runs may have gone on to another Rendez meanwhile. A process that is stuck
    /// stays as it is, so the look sees it as it is. A posted process is about to wait, waits, or
    /// is about to leave.
    pub fn look<'r>(&self, procs: &'r mut [ProcStatus], rendez: &'r mut [RendezStatus]) -> Look<'r>
        // As many as there are, or as there is room for, each at the place of its number.
        ensures procs { length result.procs.now ≡ min (length procs.old) (procs_of self.now) }
        ensures rendez { length result.rendez.now ≡ min (length rendez.old) (rendez_of self.now) }
        ensures pids { AreOfProcs result.procs.now }
        ensures ids { AreOfRendez result.rendez.now }

        // How many there are.
        ensures proc_count { result.proc_count ≡ procs_of self.now }
        ensures rendez_count { result.rendez_count ≡ rendez_of self.now }
    {
        let proc_room = procs.len().min(self.proc_count() as usize);
        let rendez_room = rendez.len().min(self.rendez_count() as usize);
        let procs = &mut procs[..proc_room];
        let rendez = &mut rendez[..rendez_room];
        self.see_all(procs, rendez);
        Look {
            procs,
            rendez,
            proc_count: self.proc_count(),
            rendez_count: self.rendez_count(),
        }
    }

    // The flags of each process, and then who is posted where. Every Rendez is looked at, also
    // where there is no room for it: a process may be posted there.
    fn see_all(&self, procs: &mut [ProcStatus], rendez: &mut [RendezStatus])
        requires procs { length procs.old ≤ procs_of self.now }
        requires rendez { length rendez.old ≤ rendez_of self.now }
        ensures procs { length procs.new ≡ length procs.old }
        ensures rendez { length rendez.new ≡ length rendez.old }
        ensures pids { AreOfProcs procs.new }
        ensures ids { AreOfRendez rendez.new }
    {
        for pid in 0..procs.len() {
            procs[pid] = self.see_proc(Pid(pid as u64));
        }
        for number in 0..self.rendez_count() {
            let seen = self.see_one(RendezId(number));
            let sleeper = place_of(seen.posted);
            if sleeper < procs.len() {
                procs[sleeper].posted = Some(seen.rendez);
            }
            show_rendez(rendez, seen);
        }
    }

    fn see_proc(&self, pid: Pid) -> ProcStatus
        requires { pid.0 < procs_of self.now }
        ensures { result.pid ≡ pid }
    {
        let flags = self.words().peek_flags(pid);
        ProcStatus {
            pid,
            posted: None,
            marked: flags.wake,
            notes: flags.notes,
        }
    }

    fn see_one(&self, rendez: RendezId) -> RendezStatus
        requires { rendez.0 < rendez_of self.now }
        ensures { result.rendez ≡ rendez }
    {
        RendezStatus {
            rendez,
            level: self.words().peek_level(rendez),
            posted: self.words().peek_posted(rendez),
        }
    }
}

// The place of the process that is posted. Nobody's is past every room.
fn place_of(posted: Option<Pid>) -> usize {
    match posted {
        Some(pid) => pid.0 as usize,
        None => usize::MAX,
    }
}

// Shows the Rendez at its place, if there is room for it.
fn show_rendez(rendez: &mut [RendezStatus], seen: RendezStatus)
    ensures { rendez.new ≡ slice_set rendez.old seen.rendez.0 seen }
{
    let place = seen.rendez.0 as usize;
    if place < rendez.len() {
        rendez[place] = seen;
    }
}

/// A line of the table, without its end: the pid, the state, the Rendez, whether there is a mark,
/// and the notes. A process that is posted is `Wakeme`, as in ps(1), any other is `Ready`.
impl fmt::Display for ProcStatus {
    fn fmt<W: fmt::Write>(&self, f: &mut fmt::Formatter<W>) -> fmt::Result {
        let pid = self.pid.0;
        let state = if self.posted.is_some() {
            "Wakeme"
        } else {
            "Ready "
        };
        write!(f, "{pid:>4} {state}")?;
        write_number(f, self.posted.map(|rendez| rendez.0))?;
        f.write_str(if self.marked { "  yes " } else { "    - " })?;
        write_notes(f, self.notes)
    }
}

/// A line of the table, without its end: the Rendez, its level, and who is posted there.
impl fmt::Display for RendezStatus {
    fn fmt<W: fmt::Write>(&self, f: &mut fmt::Formatter<W>) -> fmt::Result {
        let rendez = self.rendez.0;
        let level = self.level;
        write!(f, "{rendez:>6} {level:>20}")?;
        write_number(f, self.posted.map(|pid| pid.0))
    }
}

impl fmt::Display for Look<'_> {
    fn fmt<W: fmt::Write>(&self, f: &mut fmt::Formatter<W>) -> fmt::Result {
        f.write_str(" pid state  rendez mark notes\n")?;
        for status in self.procs.iter() {
            writeln!(f, "{status}")?;
        }
        write_rest(f, self.proc_count, self.procs.len(), "processes")?;
        f.write_str("rendez                level posted\n")?;
        for status in self.rendez.iter() {
            writeln!(f, "{status}")?;
        }
        write_rest(f, self.rendez_count, self.rendez.len(), "rendez")
    }
}

// The number, or that there is none.
fn write_number<W: fmt::Write>(f: &mut fmt::Formatter<W>, number: Option<u64>) -> fmt::Result {
    match number {
        Some(number) => write!(f, " {number:>6}"),
        None => f.write_str("      -"),
    }
}

// How many there was no room for.
fn write_rest<W: fmt::Write>(
    f: &mut fmt::Formatter<W>,
    count: u64,
    seen: usize,
    what: &str,
) -> fmt::Result {
    let rest = count.saturating_sub(seen as u64);
    if rest == 0 {
        return Ok(());
    }
    writeln!(f, "and {rest} more {what}")
}

// The texts of the notes, or that there is none.
fn write_notes<W: fmt::Write>(f: &mut fmt::Formatter<W>, notes: NoteSet) -> fmt::Result {
    if notes.is_empty() {
        return f.write_str("-");
    }
    let mut between = "";
    for note in [
        Note::Interrupt,
        Note::Hangup,
        Note::Alarm,
        Note::ClosedPipe,
        Note::Expired,
    ] {
        if notes.has(note) {
            f.write_str(between)?;
            f.write_str(note.text())?;
            between = ", ";
        }
    }
    Ok(())
}
