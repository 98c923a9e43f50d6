//! What a process did up to a moment, for contracts alone.
ghost use Rattle.std.specs.Prelude.{Option};
ghost use Rattle.std.specs.Borrow.{ftrue};
ghost use Rattle.rendez_words.specs.Process.{Process};

use rendez_words::Seat;
use std::marker::Model;

/// The steps that a process had made at some moment, or those of nobody, as contracts alone see
/// them. They take no memory.
#[derive(Drop)]
pub struct Steps {
    nothing: (),
    pub ghost process: { Option Process },
}

impl Model for Steps {
    ghost also_owns = { λ _. ftrue };
}

// A struct with `also_owns` has neither by itself. This one owns nothing.
unsafe impl Send for Steps {}

unsafe impl Sync for Steps {}

impl Steps {
    ghost use Rattle.std.specs.Prelude.{◌≡◌, None};

    // The steps of the process of this seat.
    pub(crate) fn of(seat: &Option<Seat>) -> Steps
        ensures { result.process ≡ seat.now }
    {
        let _ = seat;
        Steps { nothing: () }
    }

    /// Those of nobody. This function is there for the specification, and does nothing.
    pub fn of_nobody() -> Steps
        ensures { result.process ≡ None }
    {
        Steps::of(&None)
    }
}
