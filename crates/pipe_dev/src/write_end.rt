//! An end at which a direction is written.
use crate::row::Row;
use crate::state::WriteState;
use block_queue::{PutSeat, Queue};
use std::marker::Model;
use sync_base::RendezId;

/// An end at which a direction is written. One process has it at a time, and may hand it to
/// another.
#[derive(Drop)]
pub struct WriteEnd<'p> {
    pub(crate) queue: &'p Queue,
    pub(crate) row: Row,
    pub(crate) state: WriteState,
}

impl<'p> Model for WriteEnd<'p> {
    ghost use Rattle.std.specs.Prelude.{None};
    ghost use Rattle.block_queue.specs.Seats.{put_account};
    ghost use Rattle.pipe_dev.specs.Ends.{WriteSide, IsWriteState};

    ghost Value = { WriteSide };

    ghost view = { λ end. record {
      queue = end.queue.now;
      row = end.row;
      writer = end.state.seat.writer;
      account = put_account end.state.seat;
    } };

    ghost invariant = { λ end.
        IsWriteState end.queue.now end.row end.state.seat.writer None end.state };
}

impl<'p> WriteEnd<'p> {
    ghost use Rattle.std.specs.Prelude.{◌≡◌};
    ghost use Rattle.block_queue.specs.Seats.{put_account};
    ghost use Rattle.pipe_dev.specs.Ends.{IsWriteSeat};
    ghost use Rattle.pipe_dev.specs.Rendezes.{writer_rendez};
    ghost use Rattle.pipe_dev.specs.Seating.{IsSeatOf, side_of};

    pub(crate) fn new(queue: &'p Queue, row: Row, seat: PutSeat) -> WriteEnd<'p>
        requires { IsWriteSeat queue.now row seat }
        ensures { result ≡ side_of queue.entry.now row seat }
    {
        let state = WriteState { seat, block: None };
        WriteEnd { queue, row, state }
    }

    /// The seat of the end. The end is spent.
    pub(crate) fn into_seat(self) -> PutSeat
        ensures { IsSeatOf self.entry result }
    {
        let WriteEnd {
            queue: _,
            row: _,
            state,
        } = self;
        let WriteState { seat, block: _ } = state;
        seat
    }

    /// The number of its writer, from 0 on. Takes no memory and doesn't wait.
    pub fn writer(&self) -> u64
        ensures { result ≡ self.now.writer }
    {
        self.state.seat.writer()
    }

    /// The Rendez in which its process sleeps while there is no room. Takes no memory and doesn't
    /// wait.
    pub fn rendez(&self) -> RendezId
        ensures { result ≡ writer_rendez self.now.row self.now.writer }
    {
        self.row.writer(self.writer())
    }
}
