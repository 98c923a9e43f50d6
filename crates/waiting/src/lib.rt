//! One wait for all devices. A call asks its device. Where the answer is `Wait` with a number, it
//! sleeps on its own Rendez with that number, and asks again; where a sleep fails, it leaves. Read
//! `call`, what a device offers; `wait`, the wait; `runner`, how a call is run; `laws`.
#![tactic(auto)]

pub mod call;
pub mod laws;
pub mod runner;
pub mod wait;

pub use call::{Reply, WaitingCall};
pub use runner::{Forever, Runner};
pub use wait::{WaitEnd, sleep_for, wait_for};
