//! The command line of `p9sync`: its grammar, and the task that its words ask for. Reading order:
//! `grammar`, `task`.
#![tactic(auto)]

mod grammar;
pub mod task;

pub use task::{NoTask, Task, task_of};
