//! A bounded queue of blocks with hangup, which many writers and one reader share: as a sequential
//! object, and as a ring without a lock.
//! Read `entry`, `answers`, `stored_block`, `queue_object` with `laws`, what holds of it; then
//! `places`, `view`, `spare`, `rule`, `plays`, `seats`, `queue`, `opening`, `put_steps`, `room`,
//! `put`, `take_steps`, `take`, and `gather`.
#![tactic(auto)]

pub mod answers;
pub mod entry;
pub mod gather;
pub mod laws;
pub mod opening;
pub mod places;
mod plays;
mod put;
mod put_steps;
pub mod queue;
pub mod queue_object;
mod room;
mod rule;
pub mod seats;
pub mod spare;
pub mod stored_block;
mod take;
mod take_steps;
pub mod view;

pub use answers::{PutAnswer, TakeAnswer};
pub use gather::{Gathered, Ungathered};
pub use opening::Opened;
pub use queue::Queue;
pub use queue_object::QueueObject;
pub use seats::{PutSeat, TakeSeat};
pub use spare::Spare;
pub use stored_block::StoredBlock;
