//! What the reader finds.
ghost use Rattle.std.specs.Prelude.{◌≡◌, ◌≤◌, ◌<◌, ◌*◌, ◌^◌, true, length, replicate};
ghost use Rattle.crew.specs.declared.message.TheConstants.{HEAD};
ghost use Rattle.crew.specs.Message.{message_of};

use crate::message::{HEAD, writer_of};
use crate::opts::Report;
use std::alloc::{AllocError, Global};
use sync_base::ThreadsOpts;

/// What the reader expects: the next message of each writer.
#[derive(Drop)]
pub struct Expected {
    /// How many messages each writer has.
    pub(crate) each: u64,
    /// The number of the next message of each writer.
    pub(crate) next: Vec<u64>,
    /// How many bytes a message has.
    pub(crate) size: usize,
    pub(crate) ghost head: { HEAD ≤ size },
}

impl Expected {
    ghost use Rattle.std.specs.Prelude.{◌≡◌, true};
    ghost use Rattle.crew.specs.Tally.{TakesNext};

    // Whether the piece is the next message of its writer. Then another is the next.
    fn take_next(&mut self, piece: &[u8]) -> bool
        ensures same { self.new.size ≡ self.old.size }
        ensures each { self.new.each ≡ self.old.each }
        ensures writers { length self.new.next.items ≡ length self.old.next.items }
        ensures size { result ≡ true → length piece.now ≡ self.old.size }
        ensures next { result ≡ true → TakesNext self.old.each self.old.size
            self.old.next.items self.new.next.items piece.now }
    {
        if piece.len() != self.size {
            return false;
        }
        let writer = writer_of(piece);
        let Some(next) = self.next.get_mut(writer as usize) else {
            return false;
        };
        if *next >= self.each {
            return false;
        }
        let number = *next;
        *next += 1;
        is_message(writer, number, piece)
    }
}

// Whether the piece is this message.
fn is_message(writer: u64, number: u64, piece: &[u8]) -> bool
    ensures { result ≡ true → piece.now ≡ message_of (length piece.now) writer number }
{
    let Some(rest) = piece.strip_prefix(&writer.to_be_bytes()) else {
        return false;
    };
    let Some(filler) = rest.strip_prefix(&number.to_be_bytes()) else {
        return false;
    };
    are_all(filler, (number % 256) as u8)
}

// Whether all bytes are this one. No branch hangs on a byte, so the compiler looks at many at once.
fn are_all(bytes: &[u8], byte: u8) -> bool
    ensures { result ≡ true → bytes.now ≡ replicate (length bytes.now) byte }
{
    bytes.iter().fold(true, |same, b| same & (*b == byte))
}

/// What was read, and whether each piece was a whole message and the next of its writer.
#[derive(Drop)]
pub struct Tally {
    pub(crate) writes: u64,
    pub(crate) bytes: u64,
    pub(crate) in_order: bool,
    /// How many messages all writers have together.
    pub(crate) most: u64,
    pub(crate) expected: Expected,
    pub(crate) ghost whole: { in_order ≡ true → bytes ≡ writes * expected.size },
    pub(crate) ghost few: { in_order ≡ true → writes ≤ most },
    pub(crate) ghost small: { most * expected.size < 2 ^ 64 },
}

impl Tally {
    ghost use Rattle.std.specs.Prelude.{◌≡◌, IfOk, true};
    ghost use Rattle.sync_base.specs.declared.threads_opts.ThreadsOpts.{ThreadsOpts};
    ghost use Rattle.crew.specs.Tally.{AreOfOneRun, CountsNext, IsNewTally, IsTallyOf};
    ghost use Rattle.crew.specs.Tally.{ReportsTally};
    ghost use Rattle.crew.specs.Threads.{AreWithin, IsReportOf};

    /// A tally of nothing read.
    pub fn new(alloc: Global, opts: &ThreadsOpts) -> Result<Tally, AllocError>
        requires { AreWithin opts.now }
        ensures of { IfOk result (IsTallyOf opts.now) }
        ensures empty { IfOk result IsNewTally }
    {
        Ok(Tally {
            writes: 0,
            bytes: 0,
            in_order: true,
            most: opts.writers * opts.writes,
            expected: Expected {
                each: opts.writes,
                next: vec![in alloc; 0; opts.writers as usize]?,
                size: opts.size as usize,
            },
        })
    }

    /// Counts a piece that was read. Once a piece was out of order, the tally stays out of order.
    pub fn count(&mut self, piece: &[u8])
        ensures run { AreOfOneRun self.old self.new }
        ensures counted { self.new.in_order ≡ true → CountsNext self.old self.new piece.now }
    {
        if self.in_order && self.writes < self.most && self.expected.take_next(piece) {
            self.writes += 1;
            self.bytes += piece.len() as u64;
        } else {
            self.in_order = false;
            self.writes = self.writes.saturating_add(1);
            self.bytes = self.bytes.saturating_add(piece.len() as u64);
        }
    }

    /// The report of what was read, from this many writers.
    pub fn report(&self, writers: u64) -> Report
        ensures told { ReportsTally writers self.now result }
        ensures of { (opts : ThreadsOpts) → opts.writers ≡ writers → IsTallyOf opts self.now
            → IsReportOf opts result }
    {
        Report {
            writers,
            writes: self.writes,
            bytes: self.bytes,
            in_order: self.in_order,
        }
    }
}
