//! Writers and a reader on threads: what each gate makes of a run. Every run ends by itself.
use crew::{Gate, Report, ThreadsOpts, run_threads};
use std::alloc::Global;
use std::sync::Wait;
use std::sync::atomic::AtomicU64;
use std::sync::atomic::Ordering::SeqCst;
use std::thread::{Threads, yield_now};

/// For how many turns a gate holds a writer. At each turn it lets others run.
const TURNS: u64 = 10_000_000;

/// Holds each writer until `wanted` writers have come, for `TURNS` turns at most, and then sends it
/// away.
#[derive(Drop)]
struct Meeting {
    wanted: u64,
    come: AtomicU64,
    missed: AtomicU64,
}

impl Gate for Meeting {
    fn pass(&self, _writer: u64, _write: u64) -> bool {
        self.come.fetch_add(1, SeqCst);
        for _ in 0..TURNS {
            if self.come.load(SeqCst) >= self.wanted {
                return true;
            }
            yield_now();
        }
        self.missed.fetch_add(1, SeqCst);
        false
    }
}

/// Sends some writers away at some of their writes, and counts its calls.
#[derive(Drop)]
struct Turnstile {
    /// The writer that is sent away, or all writers.
    writer: Option<u64>,
    write: u64,
    calls: AtomicU64,
}

impl Gate for Turnstile {
    fn pass(&self, writer: u64, write: u64) -> bool {
        self.calls.fetch_add(1, SeqCst);
        write != self.write || self.writer.is_some_and(|only| only != writer)
    }
}

fn opts(writers: u64, writes: u64, size: u64) -> ThreadsOpts {
    ThreadsOpts {
        writers,
        writes,
        size,
    }
}

// Whether a run by this gate ends in order, with so many writes.
fn reads<G: Gate + Sync, R: Threads + Wait + Sync>(
    rt: &R,
    alloc: Global,
    opts: ThreadsOpts,
    gate: &G,
    writes: u64,
) -> bool {
    let report = Report {
        writers: opts.writers,
        writes,
        bytes: writes.wrapping_mul(opts.size),
        in_order: true,
    };
    run_threads(alloc, rt, opts, gate) == Ok(report)
}

#[test]
fn writers_run_at_once(rt: HostRuntime) {
    for wanted in [2, 4] {
        let gate = Meeting {
            wanted,
            come: AtomicU64::new(0),
            missed: AtomicU64::new(0),
        };
        assert!(rt; reads(&rt, rt.alloc(), opts(wanted, 1, 16), &gate, wanted));
        assert_eq!(rt; gate.missed.load(SeqCst), 0);
    }
}

#[test]
fn a_writer_that_may_not_pass_writes_no_more(rt: HostRuntime) {
    let gate = Turnstile {
        writer: Some(1),
        write: 2,
        calls: AtomicU64::new(0),
    };
    assert!(rt; reads(&rt, rt.alloc(), opts(2, 5, 16), &gate, 7));
    assert_eq!(rt; gate.calls.load(SeqCst), 8);
    let wall = Turnstile {
        writer: None,
        write: 0,
        calls: AtomicU64::new(0),
    };
    assert!(rt; reads(&rt, rt.alloc(), opts(3, 5, 16), &wall, 0));
}
