//! Ticks that a note ends, real time by a clock of the test's own, children on threads, and
//! faults in words.
use crate::kernels::{forked, kernel_of};
use plan9::{
    Beat, Clock, Fault, FaultText, Note, NoteSet, OpenedKernel, Pid, Proc, RealTime, Started,
    TickSource, Watch, fork, forks,
};
use std::alloc::Global;
use std::io::{self, Error, ErrorKind};
use std::process::Abort;
use std::sync::Wait;
use std::sync::atomic::AtomicU64;
use std::sync::atomic::Ordering::SeqCst;
use std::thread::{Threads, scope, scope_env};
use std::time::{Clock as SystemClock, Duration};

/// Moments one after the other. At the third, its process posts a note.
#[derive(Drop)]
struct Third<'k> {
    proc: Proc<'k>,
    to: Pid,
    moments: u64,
}

impl<'k> TickSource for Third<'k> {
    fn next(&mut self) -> u64 {
        self.moments = self.moments.saturating_add(1);
        if self.moments == 3 {
            let _posted = self.proc.postnote(self.to, NoteSet::of(Note::Interrupt));
        }
        self.moments
    }
}

// It ends with the note, at its third moment.
fn tick_to_a_note<R: Wait + Abort>(
    rt: &R,
    watch: &mut Watch<'_>,
    proc: &mut Proc<'_>,
    child: Proc<'_>,
) {
    let mut time = Third {
        to: proc.pid(),
        proc: child,
        moments: 0,
    };
    let came = watch.run(rt, proc, &mut time);
    assert_eq!(rt; (came, time.moments), (NoteSet::of(Note::Interrupt), 3));
}

#[test]
fn a_note_ends_the_ticks(rt: HostRuntime) {
    let OpenedKernel { kernel, start } = kernel_of(&rt, rt.alloc(), 2, 1);
    let mut started = kernel.start(start);
    let child = forked(&rt, &mut started);
    let mut clock = Clock::new(rt.alloc(), 1).expect(&rt, "no clock");
    let mut watch = clock.watch().expect(&rt, "nobody had the first watch");
    tick_to_a_note(&rt, &mut watch, &mut started.proc, child);
}

#[test]
fn a_beat_comes_after_a_millisecond(rt: HostRuntime) {
    let mut beat = Beat::new(&rt);
    assert!(rt; beat.next() >= 1);
    assert!(rt; beat.next() >= 2);
}

/// A clock that goes on in sleeps alone: each sleep takes the time that was asked for, and `longer`
/// more.
#[derive(Drop)]
struct Hands {
    micros: AtomicU64,
    sleeps: AtomicU64,
    longer: u64,
    /// Whether it can be read.
    is_seen: bool,
}

impl SystemClock for Hands {
    fn monotonic(&self) -> io::Result<Duration> {
        if self.is_seen {
            Ok(Duration::from_micros(self.micros.load(SeqCst)))
        } else {
            Err(Error::from(ErrorKind::Other))
        }
    }

    fn since_1970(&self) -> io::Result<Duration> {
        self.monotonic()
    }

    fn sleep(&self, duration: Duration) {
        let asked = u64::try_from(duration.as_micros()).unwrap_or(u64::MAX);
        self.micros
            .fetch_add(asked.saturating_add(self.longer), SeqCst);
        self.sleeps.fetch_add(1, SeqCst);
    }
}

// The moments of a beat, each with the microseconds of the clock and its sleeps then.
fn beats_so(rt: &impl Abort, longer: u64, is_seen: bool, rows: &[(u64, u64, u64)]) {
    let hands = Hands {
        micros: AtomicU64::new(0),
        sleeps: AtomicU64::new(0),
        longer,
        is_seen,
    };
    let mut beat = Beat::new(&hands);
    for row in rows {
        let moment = beat.next();
        let came = (moment, hands.micros.load(SeqCst), hands.sleeps.load(SeqCst));
        assert_eq!(rt; came, *row);
    }
}

#[test]
fn a_beat_is_one_sleep_and_what_its_clock_says(rt: HostRuntime) {
    beats_so(&rt, 0, true, &[(1, 1_000, 1), (2, 2_000, 2), (3, 3_000, 3)]);
    beats_so(
        &rt,
        41_500,
        true,
        &[(42, 42_500, 1), (85, 85_000, 2), (127, 127_500, 3)],
    );
    // Where the clock can't be read each sleep counts as one.
    beats_so(
        &rt,
        41_500,
        false,
        &[(1, 42_500, 1), (2, 85_000, 2), (3, 127_500, 3)],
    );
}

// Real time without a beat: its moment at each of these microseconds of its clock.
fn goes_on_so(rt: &impl Abort, hands: &Hands, rows: &[(u64, u64)]) {
    let time = RealTime::new(hands);
    for row in rows {
        hands.micros.store(row.0, SeqCst);
        assert_eq!(rt; time.now(hands), row.1);
    }
}

#[test]
fn real_time_goes_on_between_beats(rt: HostRuntime) {
    let hands = Hands {
        micros: AtomicU64::new(1_500),
        sleeps: AtomicU64::new(0),
        longer: 0,
        is_seen: true,
    };
    goes_on_so(
        &rt,
        &hands,
        &[(1_500, 0), (1_501, 1), (2_500, 1), (2_501, 2), (43_500, 42)],
    );
}

// Where its clock can't be read, real time is at the last moment of its beat.
#[test]
fn a_beat_shows_each_moment(rt: HostRuntime) {
    let hands = Hands {
        micros: AtomicU64::new(0),
        sleeps: AtomicU64::new(0),
        longer: 0,
        is_seen: false,
    };
    let time = RealTime::new(&hands);
    let mut beat = time.beat(&hands);
    for moment in 1..4 {
        assert_eq!(rt; (beat.next(), time.now(&hands)), (moment, moment));
    }
}

#[test]
fn a_shared_moment_is_not_behind_its_beat(rt: HostRuntime) {
    let time = RealTime::new(&rt);
    let mut beat = time.beat(&rt);
    let told = beat.next();
    assert!(rt; told >= 1);
    assert!(rt; time.now(&rt) >= told);
}

// A child answers its pid from a thread.
fn pid_on_a_thread<R: Threads + Wait + Sync>(rt: &R, child: Proc<'_>) -> Option<u64> {
    scope(scope_env(), rt, move |scope| {
        let Ok(running) = scope.spawn(move || child.pid().0) else {
            return None;
        };
        Some(running.join(rt))
    })
}

// The pid that the next process answers from a thread.
fn next_pid<'k, R: Threads + Wait + Abort + Sync>(
    rt: &R,
    started: &mut Started<'k>,
) -> Option<u64> {
    let child = fork(&mut started.roster, &mut started.proc);
    pid_on_a_thread(rt, child.expect(rt, "no pid is left"))
}

fn is_last(started: &mut Started<'_>) -> bool {
    fork(&mut started.roster, &mut started.proc).is_err()
}

#[test]
fn a_child_runs_on_a_thread(rt: HostRuntime) {
    let OpenedKernel { kernel, start } = kernel_of(&rt, rt.alloc(), 2, 1);
    let mut started = kernel.start(start);
    assert_eq!(rt; next_pid(&rt, &mut started), Some(1));
    assert!(rt; is_last(&mut started));
}

// So many children and a child more: their pids, and how many pids are left. Too many are refused,
// and use none up; where memory is refused it is asked for once more.
fn children_of(rt: &impl Abort, alloc: Global, started: &mut Started<'_>, count: u64) {
    let Started { roster, proc } = started;
    let before = roster.left();
    let made = match forks(alloc, roster, proc, count) {
        Err(Fault::Memory) => {
            assert_eq!(rt; roster.left(), before);
            forks(alloc, roster, proc, count)
        }
        made => made,
    };
    let children = made.expect(rt, "so many pids are left");
    assert_eq!(rt; children.len() as u64, count);
    for (at, child) in children.iter().enumerate() {
        assert_eq!(rt; child.pid(), Pid(at as u64 + 1));
    }
    assert_eq!(rt; roster.left(), (before.0 - count, before.1));
    assert_eq!(rt;
        forks(alloc, roster, proc, before.0 - count + 1).err(),
        Some(Fault::NoProc)
    );
    assert_eq!(rt; roster.left(), (before.0 - count, before.1));
}

#[test]
fn many_children_are_made_or_none(rt: HostRuntime) {
    for count in 0..5 {
        let OpenedKernel { kernel, start } = kernel_of(&rt, rt.alloc(), 6, 1);
        children_of(&rt, rt.alloc(), &mut kernel.start(start), count);
    }
}

// Refused at 0 and above the processes, and where memory is refused, with the first watch still
// there; then all are given, and none is left.
fn give_all<R: Wait + Abort>(rt: &R, alloc: Global, clock: &mut Clock, count: u64) {
    assert_eq!(rt; clock.watches(alloc, rt, 0).err(), Some(Fault::NoProc));
    assert_eq!(rt;
        clock.watches(alloc, rt, count.saturating_add(1)).err(),
        Some(Fault::NoProc)
    );
    assert!(rt; clock.has_watch());
    let mut watches = match clock.watches(alloc, rt, count) {
        Ok(watches) => watches,
        Err(fault) => {
            assert_eq!(rt; fault, Fault::Memory);
            return;
        }
    };
    assert_eq!(rt; watches.len() as u64, count);
    for watch in watches.iter_mut() {
        assert_eq!(rt; watch.split(rt).err(), Some(Fault::NoProc));
    }
}

// Why no watch is given, once more where memory was refused.
fn why_none<R: Wait>(rt: &R, alloc: Global, clock: &mut Clock) -> Option<Fault> {
    let why = clock.watches(alloc, rt, 1).err();
    match why {
        Some(Fault::Memory) => clock.watches(alloc, rt, 1).err(),
        why => why,
    }
}

// Gives all, once more where memory was refused.
fn give_all_of<R: Wait + Abort>(rt: &R, alloc: Global, mut clock: Clock, count: u64) {
    give_all(rt, alloc, &mut clock, count);
    if clock.has_watch() {
        give_all(rt, alloc, &mut clock, count);
    }
    assert!(rt; !clock.has_watch());
    assert_eq!(rt; clock.watch().err(), Some(Fault::NoProc));
    assert_eq!(rt; why_none(rt, alloc, &mut clock), Some(Fault::NoProc));
}

#[test]
fn all_watches_are_given_or_none(rt: HostRuntime) {
    for count in [1, 2, 5, 1_024] {
        let clock = match Clock::new(rt.alloc(), count) {
            Err(Fault::Memory) => Clock::new(rt.alloc(), count),
            made => made,
        };
        give_all_of(&rt, rt.alloc(), clock.expect(&rt, "no clock"), count);
    }
}

// Where no memory is refused, the fault has this text.
fn says(rt: &impl Abort, alloc: Global, fault: Fault, wanted: &str) {
    if let Ok(text) = format!(in alloc; "{}", FaultText(fault)) {
        assert_eq!(rt; text.as_str(), wanted);
    }
}

#[test]
fn a_fault_has_its_notes_in_words(rt: HostRuntime) {
    let notes = NoteSet::of(Note::Alarm).join(NoteSet::of(Note::Hangup));
    says(
        &rt,
        rt.alloc(),
        Fault::Interrupted(notes),
        "interrupted: hangup, alarm",
    );
    says(&rt, rt.alloc(), Fault::TimedOut, "timed out");
}
