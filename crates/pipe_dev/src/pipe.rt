//! A pipe: how it is made.
ghost use Rattle.std.specs.Prelude.{◌≡◌, ◌⊎◌, ◌↔◌, ℕ, IfOk, IfErr, IsErrOf};
ghost use Rattle.sync_base.specs.declared.fault.Fault.TheVariants.{BadSize, Memory};
ghost use Rattle.block_queue.specs.Opening.{IsBadQueue};
ghost use Rattle.block_queue.specs.Seats.{key_of};
ghost use Rattle.pipe_dev.specs.Openings.{IsDirectionStartOf};
ghost use Rattle.pipe_dev.specs.Directions.{IsNewDirection};

use crate::row::Row;
use crate::state::ReadState;
use crate::write_end::WriteEnd;
use block_queue::{PutSeat, Queue};
use sleep_wakeup::Roster;
use std::alloc::Global;
use sync_base::limits::{MAX_PIPE_LIMIT, MAX_WRITERS};
use sync_base::{Fault, Mode};

/// Two directions between two ends, after pipe(3).
#[derive(Drop)]
pub struct Pipe {
    pub(crate) there: Queue,
    pub(crate) back: Queue,
}

/// What the ends of a pipe are made from. `Pipe::ends` spends it.
#[derive(Drop)]
#[must_use]
pub struct PipeStart<'p> {
    pub(crate) there: DirectionStart<'p>,
    pub(crate) back: DirectionStart<'p>,
}

/// What the ends of one direction are made from: its Rendez, the state of the read end and the
/// seats of the writers, and room for the write ends.
#[derive(Drop)]
pub struct DirectionStart<'p> {
    pub(crate) row: Row,
    pub(crate) read: ReadState,
    pub(crate) puts: Vec<PutSeat>,
    pub(crate) room: Vec<WriteEnd<'p>>,
}

/// A new pipe, and what its ends are made from.
#[derive(Drop)]
pub struct Opened<'p> {
    pub pipe: Pipe,
    pub start: PipeStart<'p>,
}

impl Pipe {
    ghost use Rattle.std.specs.Prelude.{◌≡◌, ◌⊎◌, ◌↔◌, IfOk, IfErr, OnOk, OnErr, IsErrOf};
    ghost use Rattle.sync_base.specs.declared.fault.Fault.TheVariants.{BadSize, NoRendez, Memory};
    ghost use Rattle.block_queue.specs.Opening.{IsBadQueue};
    ghost use Rattle.sleep_wakeup.specs.Kernel.{HasRendez, rendez_less};
    ghost use Rattle.pipe_dev.specs.Openings.{Opens, OpensStream, OpensIn, OwnsRows};
    ghost use Rattle.pipe_dev.specs.Openings.{IsStartOf, rendez_for};

    /// A new pipe. Each of its directions has `writers` writers, and holds at most `limit` writes
    /// that no read has begun. A read stops at the end of a write. It takes `2 * (1 + writers)`
    /// Rendez of the kernel. Doesn't wait.
    ///
    /// Refuses, in this order, as `BadSize`, `NoRendez` and `Memory`.
    pub fn new<'p>(
        alloc: Global,
        roster: &mut Roster<'_>,
        limit: u64,
        writers: u64,
    ) -> Result<Opened<'p>, Fault>
        // Refused first, in this order, and then no Rendez is used up.
        ensures bad_size { IsErrOf result BadSize ↔ IsBadQueue limit writers }
        ensures no_rendez { ¬ IsBadQueue limit writers
            → (IsErrOf result NoRendez ↔ ¬ HasRendez roster.old (rendez_for writers)) }
        ensures faults { IfErr result (λ fault.
            (fault ≡ BadSize) ⊎ ((fault ≡ NoRendez) ⊎ (fault ≡ Memory))) }
        ensures refused { OnErr result (roster.new ≡ roster.old) }

        // Otherwise a pipe on which nothing was called, with Rendez that nobody was given.
        ensures allowed { OnOk result (HasRendez roster.old (rendez_for writers)) }
        ensures opened { IfOk result (Opens limit writers roster.old.rendez) }
        ensures start { IfOk result (λ opened. IsStartOf opened.pipe opened.start) }
        ensures rows { IfOk result (OwnsRows roster.old.words) }
        ensures given { OnOk result (roster.new ≡ rendez_less (rendez_for writers) roster.old) }
    {
        Pipe::open(alloc, roster, Mode::Message, limit, writers)
    }

    /// A new pipe in stream mode: a read goes on from write to write, and passes the empty ones
    /// that it meets. It takes as many Rendez as `new`, and doesn't wait.
    ///
    /// Refuses, in this order, as `BadSize`, `NoRendez` and `Memory`.
    pub fn new_stream<'p>(
        alloc: Global,
        roster: &mut Roster<'_>,
        limit: u64,
        writers: u64,
    ) -> Result<Opened<'p>, Fault>
        // Refused first, in this order, and then no Rendez is used up.
        ensures bad_size { IsErrOf result BadSize ↔ IsBadQueue limit writers }
        ensures no_rendez { ¬ IsBadQueue limit writers
            → (IsErrOf result NoRendez ↔ ¬ HasRendez roster.old (rendez_for writers)) }
        ensures faults { IfErr result (λ fault.
            (fault ≡ BadSize) ⊎ ((fault ≡ NoRendez) ⊎ (fault ≡ Memory))) }
        ensures refused { OnErr result (roster.new ≡ roster.old) }

        // Otherwise a pipe on which nothing was called, with Rendez that nobody was given.
        ensures allowed { OnOk result (HasRendez roster.old (rendez_for writers)) }
        ensures opened { IfOk result (OpensStream limit writers roster.old.rendez) }
        ensures start { IfOk result (λ opened. IsStartOf opened.pipe opened.start) }
        ensures rows { IfOk result (OwnsRows roster.old.words) }
        ensures given { OnOk result (roster.new ≡ rendez_less (rendez_for writers) roster.old) }
    {
        Pipe::open(alloc, roster, Mode::Stream, limit, writers)
    }

    // A new pipe, both of whose directions are read in this mode.
    fn open<'p>(
        alloc: Global,
        roster: &mut Roster<'_>,
        mode: Mode,
        limit: u64,
        writers: u64,
    ) -> Result<Opened<'p>, Fault>
        // Refused first, in this order, and then no Rendez is used up.
        ensures bad_size { IsErrOf result BadSize ↔ IsBadQueue limit writers }
        ensures no_rendez { ¬ IsBadQueue limit writers
            → (IsErrOf result NoRendez ↔ ¬ HasRendez roster.old (rendez_for writers)) }
        ensures faults { IfErr result (λ fault.
            (fault ≡ BadSize) ⊎ ((fault ≡ NoRendez) ⊎ (fault ≡ Memory))) }
        ensures refused { OnErr result (roster.new ≡ roster.old) }

        // Otherwise a pipe on which nothing was called, with Rendez that nobody was given.
        ensures allowed { OnOk result (HasRendez roster.old (rendez_for writers)) }
        ensures opened { IfOk result (OpensIn mode limit writers roster.old.rendez) }
        ensures start { IfOk result (λ opened. IsStartOf opened.pipe opened.start) }
        ensures rows { IfOk result (OwnsRows roster.old.words) }
        ensures given { OnOk result (roster.new ≡ rendez_less (rendez_for writers) roster.old) }
    {
        if limit == 0 || limit > MAX_PIPE_LIMIT || writers == 0 || writers > MAX_WRITERS {
            return Err(Fault::BadSize);
        }
        let count = 2 * (1 + writers);
        let (_, rendez) = roster.left();
        if rendez < count {
            return Err(Fault::NoRendez);
        }
        let there = Direction::new(alloc, limit, writers)?;
        let back = Direction::new(alloc, limit, writers)?;
        let first = roster.row(count)?.0;
        let there = there.with_rendez(Row {
            first,
            writers,
            mode,
        });
        let back = back.with_rendez(Row {
            first: first + 1 + writers,
            writers,
            mode,
        });
        Ok(Opened {
            pipe: Pipe {
                there: there.queue,
                back: back.queue,
            },
            start: PipeStart {
                there: there.start,
                back: back.start,
            },
        })
    }
}

// A direction that has no Rendez yet.
#[derive(Drop)]
struct Direction<'p> {
    queue: Queue,
    read: ReadState,
    puts: Vec<PutSeat>,
    room: Vec<WriteEnd<'p>>,
}

// A direction, and what its ends are made of.
#[derive(Drop)]
struct OpenedDirection<'p> {
    queue: Queue,
    start: DirectionStart<'p>,
}

impl<'p> Direction<'p> {
    // A new queue, and room for the write ends.
    fn new(alloc: Global, limit: u64, writers: u64) -> Result<Direction<'p>, Fault>
        ensures bad_size { IsErrOf result BadSize ↔ IsBadQueue limit writers }
        ensures faults { IfErr result (λ fault. (fault ≡ BadSize) ⊎ (fault ≡ Memory)) }
        ensures opened { IfOk result (IsNewDirection limit writers) }
    {
        let block_queue::Opened { queue, take, puts } = Queue::new(alloc, limit, writers)?;
        let room = Vec::with_capacity(alloc, writers as usize)?;
        let read = ReadState {
            seat: take,
            rest: None,
            block: Vec::new(alloc),
        };
        Ok(Direction {
            queue,
            read,
            puts,
            room,
        })
    }

    // With its Rendez.
    fn with_rendez(self, row: Row) -> OpenedDirection<'p>
        requires direction { IsNewDirection (key_of self.queue).limit row.writers self }
        ensures queue { result.queue ≡ self.entry.queue }
        ensures start { IsDirectionStartOf result.queue result.start }
        ensures row { result.start.row ≡ row }
    {
        let Direction {
            queue,
            read,
            puts,
            room,
        } = self;
        let start = DirectionStart {
            row,
            read,
            puts,
            room,
        };
        OpenedDirection { queue, start }
    }
}
