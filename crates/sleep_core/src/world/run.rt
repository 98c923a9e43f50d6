//! A list of events, one after another.
//! The reader comes from `step` in `world`, which answers one event. After this: `laws`.
ghost use Rattle.std.specs.Prelude.{◌≡◌, IfOk, OnOk, OnErr, IfErr};
ghost use Rattle.sleep_core.specs.Runs.{answers_to_all, world_after_all};

use crate::world::World;
use crate::{Answer, Event};
use std::alloc::Global;
use sync_base::Fault;

impl World {
    ghost use Rattle.sync_base.specs.declared.fault.Fault.TheVariants.{Memory};

    /// The answers to the events, one for each, in their order. The room for all of them is taken
    /// before the first event.
    pub fn run(&mut self, alloc: Global, events: &[Event]) -> Result<Vec<Answer>, Fault>
        ensures answers { IfOk result (λ told. told.items ≡ answers_to_all self.old events.now) }
        ensures after { OnOk result (self.new ≡ world_after_all self.old events.now) }
        ensures err { OnErr result (self.new ≡ self.old) }
        ensures fault { IfErr result (λ fault. fault ≡ Memory) }
    {
        let mut answers = Vec::with_capacity(alloc, events.len())?;
        for event in events {
            let answer = self.step(*event);
            let Ok(()) = answers.push(answer) else {
                unreachable!();
            };
        }
        Ok(answers)
    }
}
