//! The rule of the words. The table has no slots. Its words are a line for each Rendez, with its
//! posted word and its level, and then a line for each process, with its flags. The other words of
//! a line are 0 for ever.
ghost use Rattle.rendez_words.specs.Rule.{ShowsCore};
ghost use Rattle.rendez_words.specs.View.{first_view};

use crate::view::{Sizes, View};
use atomic_table::{Seat, Table, TableRule};
use std::alloc::Global;

/// There is a run of the core whose words are just these, and each seat knows its own part of it.
pub struct OneRun;

pub type WordTable = Table<(), View, Sizes, OneRun, Global>;

pub type Stepper = Seat<(), View>;

impl TableRule<(), View, Sizes> for OneRun {
    ghost holds = { ShowsCore };

    ghost first = { first_view };
}
