//! Scripts: a text is read whole, its lines are answered, and the answers are written. Read
//! `lines`, `digits`; `device`, `script`, `laws`; for pipes `pipe_line`, `answer_text`,
//! `pipe_script`; for schedules `event_line`, `group_line`, `event_text`, `schedule`; and then
//! `run`.
#![tactic(auto)]

mod answer_text;
pub mod device;
mod digits;
mod event_line;
mod event_text;
mod group_line;
pub mod laws;
pub mod lines;
mod pipe_line;
mod pipe_script;
mod run;
mod schedule;
pub mod script;

pub use run::{run_pipe, run_replay, run_script};
