//! What the program `p9sync` does, as a library: it answers scripts of pipe operations and
//! schedules of events, and runs writers and a reader on threads. Reading order: `report_text`,
//! `args`.
#![tactic(auto)]

pub mod args;
mod report_text;
#[cfg(test)]
mod tests;

pub use args::run_args;
pub use crew::{Gate, OpenGate, Report, ThreadsOpts, run_threads};
pub use scripts::{run_pipe, run_replay};
