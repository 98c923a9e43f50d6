//! The two ends of a pipe.
ghost use Rattle.std.specs.Prelude.{◌≡◌, ◌≤◌, [], length};
ghost use Rattle.std.specs.Vec.{vec_capacity};
ghost use Rattle.std.specs.List.{AllByRecursion};
ghost use Rattle.pipe_dev.specs.Openings.{IsDirectionStartOf, AreNewEnds};
ghost use Rattle.pipe_dev.specs.Ends.{IsWriteSeat};
ghost use Rattle.pipe_dev.specs.Seating.{AreSeated};

use crate::pipe::{DirectionStart, Pipe, PipeStart};
use crate::read_end::ReadEnd;
use crate::row::Row;
use crate::write_end::WriteEnd;
use block_queue::{PutSeat, Queue};

/// An end of a pipe: it reads one direction and writes the other.
#[derive(Drop)]
pub struct End<'p> {
    pub(crate) read: ReadEnd<'p>,
    pub(crate) writes: Vec<WriteEnd<'p>>,
}

/// The two ends of a pipe. What is written at one is read at the other.
#[derive(Drop)]
pub struct Ends<'p> {
    pub first: End<'p>,
    pub second: End<'p>,
}

/// The parts of an end: the read end of one direction, and a write end of the other for each
/// writer.
#[derive(Drop)]
pub struct Parts<'p> {
    pub read: ReadEnd<'p>,
    pub writes: Vec<WriteEnd<'p>>,
}

impl Pipe {
    ghost use Rattle.pipe_dev.specs.Openings.{IsStartOf, AreNewEnds};

    /// The two ends, of the start that was made with the pipe. Takes no memory and doesn't wait.
    pub fn ends<'p>(&'p self, start: PipeStart<'p>) -> Ends<'p>
        requires start { IsStartOf self.now start }

        // Each end reads what is written at the other.
        ensures there { AreNewEnds self.now.there start.entry.there.row result.first.read
            result.second.writes.items }
        ensures back { AreNewEnds self.now.back start.entry.back.row result.second.read
            result.first.writes.items }
    {
        let PipeStart { there, back } = start;
        let there = make_ends(&self.there, there);
        let back = make_ends(&self.back, back);
        Ends {
            first: End {
                read: there.read,
                writes: back.writes,
            },
            second: End {
                read: back.read,
                writes: there.writes,
            },
        }
    }
}

impl<'p> End<'p> {
    ghost use Rattle.std.specs.Prelude.{◌≡◌};

    /// The read end and the write ends of this end, a write end for each writer. What they write is
    /// read at the other end. Takes no memory and doesn't wait.
    pub fn parts(self) -> Parts<'p>
        ensures read { result.read ≡ self.entry.read }
        ensures writes { result.writes.items ≡ self.entry.writes.items }
    {
        let End { read, writes } = self;
        Parts { read, writes }
    }
}

// Where one direction is read and written.
fn make_ends<'p>(queue: &'p Queue, start: DirectionStart<'p>) -> Parts<'p>
    requires start { IsDirectionStartOf queue.now start }
    ensures ends { AreNewEnds queue.entry.now start.entry.row result.read result.writes.items }
{
    let DirectionStart {
        row,
        read,
        puts,
        room,
    } = start;
    Parts {
        read: ReadEnd::new(queue, row, read),
        writes: seat_writers(queue, row, puts, room),
    }
}

/// Puts a write end for each seat into the room.
pub(crate) fn seat_writers<'p>(
    queue: &'p Queue,
    row: Row,
    puts: Vec<PutSeat>,
    room: Vec<WriteEnd<'p>>,
) -> Vec<WriteEnd<'p>>
    requires seats { AllByRecursion (IsWriteSeat queue.now row) puts.items }
    requires none { room.items ≡ [] }
    requires room { length puts.items ≤ vec_capacity room }
    ensures seated { AreSeated queue.entry.now row puts.items result.items }
{
    let mut writes = room;
    'seating: for seat in puts {
        writes.push_reserved(WriteEnd::new(queue, row, seat));
    }
    writes
}
