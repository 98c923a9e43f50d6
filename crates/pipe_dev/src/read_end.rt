//! The end at which a direction is read.
use crate::row::Row;
use crate::state::ReadState;
use block_queue::Queue;
use std::marker::Model;
use sync_base::RendezId;

/// The end at which a direction is read. One process has it at a time, and may hand it to another.
#[derive(Drop)]
pub struct ReadEnd<'p> {
    pub(crate) queue: &'p Queue,
    pub(crate) row: Row,
    pub(crate) state: ReadState,
}

impl<'p> Model for ReadEnd<'p> {
    ghost use Rattle.block_queue.specs.Seats.{take_account};
    ghost use Rattle.pipe_dev.specs.Ends.{ReadSide, IsReadState};

    ghost Value = { ReadSide };

    ghost view = { λ end. record {
      queue = end.queue.now;
      row = end.row;
      account = take_account end.state.seat;
      rest = end.state.rest;
    } };

    ghost invariant = { λ end. IsReadState end.queue.now end.row end.state };
}

impl<'p> ReadEnd<'p> {
    ghost use Rattle.std.specs.Prelude.{◌≡◌};
    ghost use Rattle.block_queue.specs.Seats.{take_account};
    ghost use Rattle.pipe_dev.specs.Ends.{IsReadState};
    ghost use Rattle.pipe_dev.specs.Rendezes.{reader_rendez};

    pub(crate) fn new(queue: &'p Queue, row: Row, state: ReadState) -> ReadEnd<'p>
        requires { IsReadState queue.now row state }
        ensures queue { result.queue ≡ queue.entry.now }
        ensures row { result.row ≡ row }
        ensures account { result.account ≡ take_account state.seat }
        ensures rest { result.rest ≡ state.rest }
    {
        ReadEnd { queue, row, state }
    }

    /// The Rendez in which its process sleeps while there is nothing to read. Takes no memory and
    /// doesn't wait.
    pub fn rendez(&self) -> RendezId
        ensures { result ≡ reader_rendez self.now.row }
    {
        self.row.reader()
    }
}
