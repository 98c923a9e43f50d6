//! Timers: a seat sets a timer to a moment, and a tick at that moment or later posts the note
//! `expired` to the process of the seat. A call with a deadline sets a timer before it sleeps. Read
//! `due`, `tournament`, `timer_object`, `object`, the timers as an object under a lock; then
//! `timers`, `timer_asks`, `ticking`, the calls of processes on threads; `limits`, `within`,
//! `sleeping`, how a call waits until a moment; and `laws`.
#![tactic(auto)]

pub mod due;
pub mod laws;
pub mod limits;
mod object;
mod sleeping;
mod ticking;
mod timer_asks;
pub mod timer_object;
pub mod timers;
mod tournament;
mod within;

pub use due::Due;
pub use timer_object::{Timer, TimerCall, TimerObject, TimerReply};
pub use timers::{OpenedTimers, TimerSeat, Timers};
pub use within::{Deadline, wait_within};
