//! What every layer of the library speaks of: the names of processes, Rendez and tags, the notes,
//! the flags of rfork, the faults, the limits, the line of words, and a pipe for one thread.
//! Read `ids`, `note`, `flags`, `limits`, `line`, `fault`; then `piece`, `answers`, `mode`,
//! `plain_pipe` and what holds of it, `laws`; `threads_opts` is what a run on threads is asked for,
//! and `probe` is for tests of calls.
#![tactic(auto)]

pub mod answers;
pub mod fault;
pub mod flags;
pub mod ids;
pub mod laws;
pub mod limits;
pub mod line;
pub mod mode;
pub mod note;
pub mod piece;
pub mod plain_pipe;
pub mod probe;
pub mod threads_opts;

pub use answers::{PeekAnswer, ReadAnswer, WriteAnswer};
pub use fault::Fault;
pub use flags::{Flags, Wants};
pub use ids::{Pid, RendezId, Tag};
pub use mode::Mode;
pub use note::{Note, NoteSet};
pub use piece::Piece;
pub use plain_pipe::PlainPipe;
pub use probe::{NoProbe, Probe};
pub use threads_opts::ThreadsOpts;
