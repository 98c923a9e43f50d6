//! How all ends are given back, and what is reported then.
ghost use Rattle.example_headline.specs.Crew.{HasWorked, messages_of};
ghost use Rattle.block_queue.specs.Seats.{key_of};
ghost use Rattle.example_headline.specs.Headline.{IsEnding};

use crate::crew::Crew;
use crate::reader::Reader;
use crate::writer::Writer;
use pipe_dev::{Held, WriteEnd, finish};
use std::alloc::Global;
use sync_base::{Fault, Piece};

/// The messages of a writer, how many of them were accepted, from the first on, and why it stopped,
/// where a write was refused.
#[derive(Drop)]
pub struct Written {
    pub messages: Vec<Piece>,
    pub accepted: usize,
    pub refused: Option<Fault>,
}

/// The result of a run: what was accepted from each writer, what the reader got, part by part, why
/// it stopped where it did not come to the end, and what the direction still holds.
#[derive(Drop)]
pub struct Outcome {
    pub writers: Vec<Written>,
    pub got: Vec<Piece>,
    pub stopped: Option<Fault>,
    pub held: Held,
}

/// The report of a run that had no memory left to take its ends back: all but what the direction
/// still holds.
#[derive(Drop)]
pub struct Told {
    pub writers: Vec<Written>,
    pub got: Vec<Piece>,
    pub stopped: Option<Fault>,
}

/// How a run ended. It can't be dropped: its owner has to answer it.
pub enum Ending {
    Settled(Outcome),
    Unsettled(Told),
}

/// Room for the ends of a crew, and for the reports of its writers. It is taken before they run.
#[derive(Drop)]
pub struct Room<'p> {
    ends: Vec<WriteEnd<'p>>,
    told: Vec<Written>,
}

impl<'p> Room<'p> {
    ghost use Rattle.std.specs.Prelude.{◌≡◌, IfOk, IfErr};
    ghost use Rattle.sync_base.specs.declared.fault.Fault.TheVariants.{Memory};
    ghost use Rattle.example_headline.specs.Crew.{HasRoom};

    /// Room for this many writers. Refuses as `Memory` alone.
    pub fn new(alloc: Global, writers: usize) -> Result<Room<'p>, Fault>
        ensures room { IfOk result (HasRoom writers) }
        ensures fault { IfErr result (λ fault. fault ≡ Memory) }
    {
        let ends = Vec::with_capacity(alloc, writers)?;
        let told = Vec::with_capacity(alloc, writers)?;
        Ok(Room { ends, told })
    }
}

/// Gives all ends back.
pub fn settle(alloc: Global, crew: Crew<'_>) -> Ending
    requires worked { HasWorked crew }
    ensures ending { IsEnding (key_of crew.entry.reader.end.queue)
        crew.entry.reader.end.row.first (messages_of crew.entry.writers.items) result }
{
    let Crew {
        reader,
        writers,
        room,
    } = crew;
    let Room { mut ends, mut told } = room;
    let Reader {
        end: read,
        proc: _,
        got,
        stopped,
    } = reader;
    'parting: for writer in writers {
        let Writer {
            end,
            proc: _,
            messages,
            accepted,
            refused,
        } = writer;
        ends.push_reserved(end);
        told.push_reserved(Written {
            messages,
            accepted,
            refused,
        });
    }
    match finish(alloc, read, ends) {
        Ok(held) => Ending::Settled(Outcome {
            writers: told,
            got,
            stopped,
            held,
        }),
        Err(_) => Ending::Unsettled(Told {
            writers: told,
            got,
            stopped,
        }),
    }
}
