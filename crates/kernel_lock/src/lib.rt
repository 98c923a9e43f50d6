//! The kernel lock: any sequential object, called by many threads through one lock. Each request is
//! in one legal history, with the reply that the object's definition gives there. Read `object`,
//! `view`, `rule`, `plays`, `lock_seat`, `locked`, `waiters`, `steps`, `waiting`, then `apply` and
//! `seats`, and `laws`.
#![tactic(auto)]

mod apply;
pub mod laws;
pub mod lock_seat;
pub mod locked;
pub mod object;
mod plays;
mod rule;
mod seats;
mod steps;
#[cfg(test)]
mod tests;
pub mod view;
mod waiters;
mod waiting;

pub use lock_seat::LockSeat;
pub use locked::{Locked, Opened};
pub use object::Object;
