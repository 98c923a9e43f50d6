//! The core of sleep and wakeup: a world of words and phases that takes one event at a time, and
//! the law that no wakeup is lost. It has no threads; a crate that runs on threads makes each event
//! by one atomic step. Read `phase`, `event`, `answer`, `bare_world` with its steps, `world`, and
//! then `laws`.
#![tactic(auto)]

pub mod answer;
pub mod bare_world;
pub mod event;
pub mod laws;
pub mod phase;
pub mod world;

pub use answer::Answer;
pub use bare_world::BareWorld;
pub use event::Event;
pub use phase::{Phase, ProcFlags};
pub use world::World;
