//! A kernel and its processes, each on a thread of its own: sleep, wakeup, notes and rfork.
//! Read `kernel`, what there is at the start; `groups`, the note groups; `roster`, which gives pids
//! and Rendez; `proc`, what a process is; and then `sleeping`, `waking` and `noting`, its calls.
//! `status` shows who waits where, `steps` says in contracts what a process has done, and `laws`
//! says what the definitions forbid.
#![tactic(auto)]

mod groups;
pub mod kernel;
pub mod laws;
mod noting;
pub mod proc;
pub mod roster;
mod sleeping;
pub mod status;
pub mod steps;
mod waking;

pub use kernel::{Kernel, Opened, Start, Started};
pub use proc::Proc;
pub use rendez_words::Done;
pub use roster::Roster;
pub use status::{Look, ProcStatus, RendezStatus};
pub use steps::Steps;
