//! The end of a direction: all its ends are given back.
ghost use Rattle.std.specs.Prelude.{◌≡◌, ◌≤◌, [], length, IfOk, IfErr};
ghost use Rattle.std.specs.Vec.{vec_capacity};
ghost use Rattle.block_queue.specs.Seats.{key_of};
ghost use Rattle.pipe_dev.specs.Ends.{AreAllEnds};
ghost use Rattle.pipe_dev.specs.Finishing.{GivesHeld};
ghost use Rattle.pipe_dev.specs.Seating.{AreSeatsOf};

use crate::end::seat_writers;
use crate::read_end::ReadEnd;
use crate::state::ReadState;
use crate::write_end::WriteEnd;
use block_queue::{Gathered, PutSeat, StoredBlock, Ungathered};
use std::alloc::{AllocError, Global};
use sync_base::{Fault, Piece};

/// What a direction still held.
#[derive(Drop)]
pub struct Held {
    /// The unread rest of a write that was begun.
    pub rest: Piece,
    /// The writes that no read has begun, the oldest first.
    pub writes: Vec<StoredBlock>,
    /// Whether it was hung up.
    pub hung: bool,
}

/// There was no memory. All ends come back.
#[derive(Drop)]
pub struct Unfinished<'p> {
    pub read: ReadEnd<'p>,
    pub writes: Vec<WriteEnd<'p>>,
}

impl<'p> Unfinished<'p> {
    /// Why: out of memory, the only refusal of a finish.
    pub fn fault(&self) -> Fault
        ensures { result ≡ Fault.Memory }
    {
        Fault::Memory
    }
}

/// Takes all ends of one direction back, the write ends in the order of `parts`, and gives what the
/// direction still held. Takes memory and doesn't wait. Where there is no memory, all ends come
/// back.
pub fn finish<'p>(
    alloc: Global,
    read: ReadEnd<'p>,
    writes: Vec<WriteEnd<'p>>,
) -> Result<Held, Unfinished<'p>>
    requires all { AreAllEnds read writes.items }

    // What is held is what the history of the direction left.
    ensures held { IfOk result (GivesHeld read.entry writes.entry.items) }

    // Otherwise all ends come back.
    ensures read { IfErr result (λ unfinished. unfinished.read ≡ read.entry) }
    ensures writes { IfErr result (λ unfinished. unfinished.writes.items ≡ writes.entry.items) }
{
    let Ok(rest) = read.left(alloc) else {
        return Err(Unfinished { read, writes });
    };
    let Ok(mut puts) = Vec::with_capacity(alloc, writes.len()) else {
        return Err(Unfinished { read, writes });
    };
    let mut room = writes;
    take_seats(&mut room, &mut puts);
    let ReadEnd { queue, row, state } = read;
    let ReadState {
        seat,
        rest: begun,
        block,
    } = state;
    match queue.gather(alloc, seat, puts) {
        Ok(Gathered { blocks, hung }) => Ok(Held {
            rest: Piece::of(rest),
            writes: blocks,
            hung,
        }),
        Err(Ungathered { take, puts }) => {
            let state = ReadState {
                seat: take,
                rest: begun,
                block,
            };
            Err(Unfinished {
                read: ReadEnd::new(queue, row, state),
                writes: seat_writers(queue, row, puts, room),
            })
        }
    }
}

// The seats of all write ends, whose room is left. The last end comes first out of its vector, so
// the seats are turned round.
fn take_seats(writes: &mut Vec<WriteEnd<'_>>, puts: &mut Vec<PutSeat>)
    requires none { puts.old.items ≡ [] }
    requires room { length writes.old.items ≤ vec_capacity puts.old }
    ensures seats { AreSeatsOf writes.old.items puts.new.items }
    ensures none { writes.new.items ≡ [] }
    ensures room { length writes.old.items ≤ vec_capacity writes.new }
{
    'taking: while let Some(end) = writes.pop() {
        puts.push_reserved(end.into_seat());
    }
    puts.as_mut_slice().reverse();
}

impl<'p> ReadEnd<'p> {
    ghost use Rattle.std.specs.Prelude.{◌≡◌, IfOk};
    ghost use Rattle.pipe_dev.specs.Finishing.{rest_bytes};

    // The bytes that are left of a write that was begun.
    fn left(&self, alloc: Global) -> Result<Vec<u8>, AllocError>
        ensures { IfOk result (λ bytes. bytes.items ≡ rest_bytes self.now.rest) }
    {
        match &self.state.rest {
            Some(begun) => begun.left(alloc),
            None => Ok(Vec::new(alloc)),
        }
    }
}
