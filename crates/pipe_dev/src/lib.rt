//! Two-way pipes between processes, after pipe(2) and pipe(3).
//! Read `row`, `waking`; `remainder`, `state`, `answers`; `read_end`, `filling`, `reading`,
//! `block_reading`; `write_end`, `writing`, `write_long`; `hanging`; `pipe`, `end`; `closing`; and
//! then `laws`, the headline, and `side_laws`.
#![tactic(auto)]

pub mod answers;
mod block_reading;
pub mod closing;
pub mod end;
pub mod filling;
mod hanging;
pub mod laws;
pub mod pipe;
pub mod read_end;
mod reading;
pub mod remainder;
pub mod row;
pub mod side_laws;
mod state;
mod waking;
pub mod write_end;
mod write_long;
mod writing;

pub use answers::{Long, ReadAnswer, TryAnswer};
pub use block_queue::StoredBlock;
pub use closing::{Held, Unfinished, finish};
pub use end::{End, Ends, Parts};
pub use pipe::{Opened, Pipe, PipeStart};
pub use read_end::ReadEnd;
pub use write_end::WriteEnd;
