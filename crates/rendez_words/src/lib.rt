//! The words of sleep and wakeup on running threads: each event of the core is one atomic step on
//! one word, with no lock round it. Read `flags_word`, `view`, `rule`, `plays`, `states`,
//! `parking`, `words`, `steps`, `waking`, `looking`, `waiting`, `sleeper`, `raiser`, `notes`,
//! `released`, `peeking` and then `laws`.
#![tactic(auto)]

mod flags_word;
pub mod laws;
mod looking;
mod notes;
mod parking;
mod peeking;
mod plays;
mod raiser;
mod released;
mod rule;
mod sleeper;
pub mod states;
mod steps;
#[cfg(test)]
mod tests;
pub mod view;
mod waiting;
mod waking;
pub mod words;

pub use states::{
    Asleep, Awaiting, Checked, Cleared, Done, Holding, Leaving, LookAnswer, Out, Owing, Pids,
    Posted, Refused, Returned, Seat, TakeAnswer, TestAnswer, WithdrawAnswer, Woken,
};
pub use words::{Opened, Words};
