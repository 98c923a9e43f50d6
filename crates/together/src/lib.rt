//! Jobs that start together or not at all, each on a thread with a process of its own.
//! Reading order: `job`, what a thread does, and who is told; `gate`, where it waits until all
//! stand; `roll`, how the caller is told that a job has ended; `board`, what the threads share;
//! `member`, what each of them does; `caller`, what the caller does meanwhile; `starting`,
//! `joining` and `running`, how they start and end; `team`, the call.
#![tactic(auto)]

mod board;
mod caller;
mod gate;
mod job;
mod joining;
mod member;
mod roll;
mod running;
mod starting;
mod team;

pub use job::{Ended, Job, Refused, Told, Worker};
pub use team::Team;
