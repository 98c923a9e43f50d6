//! How a put looks for room, before it asks whether there is any, and how it gives way to another
//! put. A look is a load with no seat. It is no step: it is in no history, and no contract says
//! what it finds. The step after it answers the put.
ghost use Rattle.std.specs.Prelude.{◌<◌};

use crate::places::sequence;
use crate::queue::Queue;
use std::hint::spin_loop;

/// How often a put looks.
const LOOKS: u64 = 50;

/// How long it pauses after a look that found no room, and after another put came first.
const PAUSES: u64 = 8;

impl Queue {
    /// Looks at a place for a while, until its word is `free`. The reader most often takes a block
    /// out meanwhile, and a writer that need not sleep need not be woken.
    pub(crate) fn look_for_room(&self, place: usize, free: u64)
        requires { place < self.now.key.limit }
    {
        let word = sequence(place);
        for _ in 0..LOOKS {
            if self.table.shared.peek(word) >= free {
                return;
            }
            pause();
        }
    }
}

/// Lets other threads go first.
pub(crate) fn pause() {
    for _ in 0..PAUSES {
        spin_loop();
    }
}
