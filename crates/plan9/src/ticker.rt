//! Ticks of a clock, and real time.
use crate::clock::Watch;
use sleep_wakeup::Proc;
use std::sync::Wait;
use std::sync::atomic::AtomicU64;
use std::sync::atomic::Ordering::SeqCst;
use std::thread::sleep;
use std::time::{Clock, Duration, Instant};
use sync_base::NoteSet;

// The nanoseconds of a millisecond.
const NANOS: u128 = 1_000_000;

/// Where `Watch::run` gets its moments from.
pub trait TickSource {
    ghost use Rattle.std.specs.Prelude.{⊤, ℕ};

    /// What is known of a moment, by the source before it and after it: by default nothing.
    ghost tells: { Self → ℕ → Self → Type 0 } = { λ old moment new. ⊤ };

    /// Waits, if it likes, until the next moment to tick at, and returns that moment, in
    /// milliseconds.
    fn next(&mut self) -> u64
        ensures told { tells self.old result self.new };
}

/// Real time that a ticker and the processes that wait share: the milliseconds since it was made.
/// `Watch::run` ticks by its `beat`, and `now` is the moment at which a wait begins.
#[derive(Drop)]
pub struct RealTime {
    began: Option<Instant>,
    told: AtomicU64,
}

impl RealTime {
    ghost use Rattle.plan9.specs.Tickers.{IsBeatOf};

    /// Begins at the moment 0, by the system's clock. Takes no memory and doesn't wait.
    pub fn new<R: Clock>(rt: &R) -> RealTime {
        RealTime {
            began: Instant::now(rt).ok(),
            told: AtomicU64::new(0),
        }
    }

    /// The moment at which a wait begins: how many milliseconds have passed, rounded up. A beat
    /// gives a moment once that many whole ones have passed, so a deadline that is counted from now
    /// does not pass early. It is at least the moment that a beat of this time gave last, and is
    /// that moment where the clock can't be read. Takes no memory and doesn't wait.
    pub fn now<R: Clock>(&self, rt: &R) -> u64 {
        let told = self.told.load(SeqCst);
        begun(rt, self.began).unwrap_or(told).max(told)
    }

    /// A beat that begins where this time began, and shows each moment here before it gives it.
    /// Takes no memory and doesn't wait.
    pub fn beat<'r, R: Clock>(&'r self, rt: &'r R) -> Beat<'r, R>
        ensures { IsBeatOf self.now result }
    {
        Beat {
            rt,
            began: self.began,
            now: 0,
            shown: Some(&self.told),
        }
    }
}

/// The moments of real time, in milliseconds from 0 on where it was made. Each is later than the
/// one before, and none is ahead of the system's clock while that can be read. It may skip
/// milliseconds: on a busy machine the first two moments may be 32 and 36.
#[derive(Drop)]
pub struct Beat<'r, R> {
    rt: &'r R,
    began: Option<Instant>,
    now: u64,
    shown: Option<&'r AtomicU64>,
}

impl<'r, R: Clock> Beat<'r, R> {
    ghost use Rattle.std.specs.Prelude.{◌≡◌};

    /// Begins at the moment 0, by the system's clock. Takes no memory and doesn't wait.
    pub fn new(rt: &'r R) -> Beat<'r, R>
        ensures { result.now ≡ 0 }
    {
        Beat {
            rt,
            began: Instant::now(rt).ok(),
            now: 0,
            shown: None,
        }
    }
}

// The milliseconds since then that are over, where the clock can be read.
fn passed<R: Clock>(rt: &R, began: Option<Instant>) -> Option<u64> {
    let passed = began?.elapsed(rt).ok()?;
    u64::try_from(passed.as_millis()).ok()
}

// The milliseconds since then that have begun, where the clock can be read.
fn begun<R: Clock>(rt: &R, began: Option<Instant>) -> Option<u64> {
    let passed = began?.elapsed(rt).ok()?;
    u64::try_from(passed.as_nanos().div_ceil(NANOS)).ok()
}

impl<'r, R: Clock> TickSource for Beat<'r, R> {
    ghost use Rattle.plan9.specs.Tickers.{IsBeat};

    ghost tells = { λ old moment new. IsBeat old moment new };

    /// Sleeps for a millisecond, and returns how many have passed since it began: more than it
    /// returned before, up to the last number. Where the clock can't be read it counts each sleep
    /// as one. A note does not end the sleep. Takes no memory.
    fn next(&mut self) -> u64
        ensures told { IsBeat self.old result self.new }
    {
        sleep(self.rt, Duration::from_millis(1));
        let counted = self.now.saturating_add(1);
        self.now = passed(self.rt, self.began).unwrap_or(counted).max(counted);
        if let Some(told) = self.shown {
            told.fetch_max(self.now, SeqCst);
        }
        self.now
    }
}

impl<'t> Watch<'t> {
    ghost use Rattle.plan9.specs.Tickers.{TicksOn, timed};

    /// Ticks at each moment that `time` gives, once and in their order, until notes are pending for
    /// the process, and returns the notes, which are pending no longer. It looks for notes before
    /// each moment that it asks for, so the last tick may come after a note. It waits, in `time`
    /// and for the timers' lock. Takes no memory.
    pub fn run<R: Wait, T: TickSource>(
        &mut self,
        rt: &R,
        proc: &mut Proc<'_>,
        time: &mut T,
    ) -> NoteSet
        ensures { TicksOn T.tells (timed self.old proc.old time.old) result
            (timed self.new proc.new time.new) }
    {
        'ticking: for _ in rt.forever() {
            let came = proc.notes();
            if !came.is_empty() {
                return came;
            }
            let moment = time.next();
            let _expired = self.tick(rt, proc, moment);
        }
        unreachable!()
    }
}
