//! How a read fills its buffer, part by part, in either mode. Nobody is woken here.
ghost use Rattle.std.specs.Prelude.{◌≡◌, ◌≢◌, []};
ghost use Rattle.block_queue.specs.Seats.{key_of};
ghost use Rattle.pipe_dev.specs.Ends.{IsReadState};
ghost use Rattle.pipe_dev.specs.FillSteps.{GivesNext, HasFilled, lending_with};

use crate::remainder::{Delivery, Remainder};
use crate::row::Row;
use crate::state::ReadState;
use block_queue::{Queue, TakeAnswer};
use sync_base::Mode;

/// Why a read stopped.
#[derive(Clone, Copy, Drop)]
pub enum Stop {
    /// It has a message, or in stream mode its buffer is full.
    Enough,
    /// The next write is not there yet. The reader sleeps with this number.
    NotYet(u64),
    /// All is read, and the direction is hung up.
    End,
}

/// How far a read came: how many bytes it gave, and why it stopped.
#[derive(Clone, Copy, Drop)]
pub struct ReadOutcome {
    pub(crate) count: usize,
    pub(crate) stop: Stop,
}

/// How far a read came, and the number of the last write that it took out.
#[derive(Clone, Copy, Drop)]
pub(crate) struct FillResult {
    pub(crate) took: Option<u64>,
    pub(crate) came: ReadOutcome,
}

// One part more, with the number of its write where that was taken out for it; or none.
#[derive(Clone, Copy, Drop)]
pub(crate) enum Next {
    Part(usize, Option<u64>),
    NotYet(u64),
    End,
}

/// Reads part by part: one part in message mode, and in stream mode as many as the buffer has room
/// for.
#[inline(always)]
pub(crate) fn fill(queue: &Queue, row: &Row, state: &mut ReadState, buffer: &mut [u8]) -> FillResult
    requires state { IsReadState queue.now row.now state.old }
    requires room { buffer.old ≢ [] }
    ensures state { IsReadState queue.now row.now state.new }
    ensures filled { HasFilled (key_of queue.now) row.now.mode
        (lending_with state.old buffer.old) result (lending_with state.new buffer.new) }
{
    let mut count: usize = 0;
    let mut took = None;
    let mut further = true;
    'filling: while further {
        match take_part(queue, row, state, &mut buffer[count..]) {
            Next::Part(more, number) => {
                count += more;
                took = number;
                further = match row.mode {
                    Mode::Message => false,
                    Mode::Stream => count < buffer.len(),
                };
            }
            Next::NotYet(number) => {
                let stop = Stop::NotYet(number);
                let came = ReadOutcome { count, stop };
                return FillResult { took, came };
            }
            Next::End => {
                let stop = Stop::End;
                let came = ReadOutcome { count, stop };
                return FillResult { took, came };
            }
        }
    }
    let stop = Stop::Enough;
    let came = ReadOutcome { count, stop };
    FillResult { took, came }
}

// One part: of what is left of a write that was begun, or else of the next write.
#[inline(always)]
fn take_part(queue: &Queue, row: &Row, state: &mut ReadState, room: &mut [u8]) -> Next
    requires state { IsReadState queue.now row.now state.old }
    ensures state { IsReadState queue.now row.now state.new }
    ensures next { GivesNext (key_of queue.now) (lending_with state.old room.old) result
        (lending_with state.new room.new) }
{
    if let Some(begun) = state.rest.take() {
        let Delivery { count, left, spare } = begun.give(room);
        state.seat.spare.keep(spare);
        state.rest = left;
        return Next::Part(count, None);
    }
    match queue.take(&mut state.seat) {
        TakeAnswer::Block(block, writer, number) => {
            let whole = Remainder::whole(block, writer, number - 1);
            let Delivery { count, left, spare } = whole.give(room);
            state.seat.spare.keep(spare);
            state.rest = left;
            Next::Part(count, Some(number))
        }
        TakeAnswer::NotYet(number) => Next::NotYet(number),
        TakeAnswer::End => Next::End,
    }
}
