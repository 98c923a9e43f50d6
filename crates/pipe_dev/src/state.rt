//! The states with which an end makes its calls. A call is lent the state, and its requests change
//! it in place.
use crate::remainder::Remainder;
use block_queue::{PutSeat, TakeSeat};
use sync_base::Piece;

/// The state of a read end: the reader's seat at the queue, what is left of a write that was begun,
/// and the block of a caller that reads a whole write.
#[derive(Drop)]
pub struct ReadState {
    pub(crate) seat: TakeSeat,
    pub(crate) rest: Option<Remainder>,
    pub(crate) block: Vec<u8>,
}

/// The state of a write end: the seat of its writer, and the block of a write that the queue has
/// not taken.
#[derive(Drop)]
pub struct WriteState {
    pub(crate) seat: PutSeat,
    pub(crate) block: Option<Piece>,
}
