//! Semaphores, after semacquire(2): first the object under a lock, and then the calls of processes
//! on threads. Read `limits`, `wait_queue`, `sema_object`, `object`; then `sema`, `sema_asks`,
//! `acquiring`, `releasing`; then `timing`, where timers of `timer_list` end a wait; and `laws`.
#![tactic(auto)]

pub mod acquiring;
pub mod laws;
pub mod limits;
mod object;
mod releasing;
pub mod sema;
mod sema_asks;
pub mod sema_object;
mod timing;
mod wait_queue;

pub use acquiring::Semacquired;
pub use sema::{OpenedSema, Sema, SemaSeat};
pub use sema_object::{SemaCall, SemaObject, SemaReply, Stage};

// Timers, whose `tick` ends a wait that has a deadline.
pub use timer_list::{OpenedTimers, TimerObject, TimerSeat, Timers};
