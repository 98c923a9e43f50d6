//! The headline of pipes over threads, proved by a caller from the contracts of `pipe_dev` alone.
//!
//! Up to three writers and a reader, each on a thread of its own, have the ends of one direction of
//! a pipe. They write and read, the direction is hung up, and all ends are given back. The one
//! contract is that of `run`: for each writer, what was read and what is still held is what was
//! accepted from it, whole, in its order, contiguous and once. Read `writer`, `writing`, `reader`,
//! `crew`; `settling`; and then `run`.
#![tactic(auto)]

mod crew;
mod reader;
mod run;
mod settling;
mod writer;
mod writing;

use crate::run::run;
use crate::settling::{Ending, Written};
use std::alloc::Global;
use std::io;
use sync_base::{Fault, Piece};

/// What each writer writes. A message is one write; the reader takes it in parts of four bytes.
const MESSAGES: &[&[&[u8]]] = &[
    &[b"a key", b"and another", b"", b"the last key"],
    &[b"point", b"click"],
    &[b"a frame of a window", b"and its size"],
];

/// A copy of the messages of this many writers, for the writers to have.
fn copied(alloc: Global, writers: usize) -> Result<Vec<Vec<Piece>>, Fault> {
    let mut all = Vec::new(alloc);
    for messages in MESSAGES.iter().take(writers) {
        let mut pieces = Vec::new(alloc);
        for message in *messages {
            pieces.push(Piece::of(Vec::from_slice(alloc, message)?))?;
        }
        all.push(pieces)?;
    }
    Ok(all)
}

/// How many bytes these pieces have.
fn count(pieces: &[Piece]) -> u64 {
    let mut bytes = 0u64;
    for piece in pieces {
        bytes = bytes.saturating_add(piece.as_slice().len() as u64);
    }
    bytes
}

/// Prints why a writer or the reader stopped early, if it did.
fn tell_why(rt: &HostRuntime, who: &str, why: Option<Fault>) -> io::Result<()> {
    match why {
        Some(fault) => println!(rt; "{who} stopped: {fault}"),
        None => Ok(()),
    }
}

/// Prints what each writer did, and why the reader stopped early, if it did.
fn tell_ends(rt: &HostRuntime, writers: &[Written], stopped: Option<Fault>) -> io::Result<()> {
    for written in writers {
        println!(rt; "{} messages of a writer were accepted", written.accepted)?;
        tell_why(rt, "the writer", written.refused)?;
    }
    tell_why(rt, "the reader", stopped)
}

/// Prints the result of a run.
fn tell(rt: &HostRuntime, told: Result<Ending, Fault>) -> io::Result<()> {
    match told {
        Ok(Ending::Settled(outcome)) => {
            let (read, left) = (count(outcome.got.as_slice()), outcome.held.writes.len());
            tell_ends(rt, outcome.writers.as_slice(), outcome.stopped)?;
            println!(rt; "{read} bytes were read, and {left} messages are held")
        }
        Ok(Ending::Unsettled(told)) => {
            let read = count(told.got.as_slice());
            tell_ends(rt, told.writers.as_slice(), told.stopped)?;
            println!(rt; "{read} bytes were read, and no memory was left to see what is held")
        }
        Err(fault) => println!(rt; "the run failed: {fault}"),
    }
}

fn main(rt: HostRuntime) -> io::Result<()> {
    let alloc = rt.alloc();
    // For the first writer alone, for two and for all.
    for writers in 1..=MESSAGES.len() {
        let told = match copied(alloc, writers) {
            Ok(messages) => run(&rt, alloc, 16, messages),
            Err(fault) => Err(fault),
        };
        tell(&rt, told)?;
    }
    Ok(())
}
