//! A crew: many writers and one reader, each on a thread of its own, on one direction of a pipe.
//! Reading order: `gate`, `message`, `opts`, `tally`, `crew`, `threads`.
#![tactic(auto)]

mod crew;
pub mod gate;
mod message;
pub mod opts;
mod tally;
pub mod threads;

pub use gate::{Gate, OpenGate};
pub use opts::Report;
pub use sync_base::ThreadsOpts;
pub use threads::run_threads;
