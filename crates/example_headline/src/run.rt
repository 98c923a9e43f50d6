//! The whole run, and its one contract.
ghost use Rattle.std.specs.Prelude.{◌≡◌, ◌⊎◌, ◌↔◌, IfOk, IfErr, IsErrOf, length, map, vec_items};
ghost use Rattle.sync_base.specs.declared.fault.Fault.TheVariants.{BadSize, Memory};
ghost use Rattle.block_queue.specs.Opening.{IsBadQueue};
ghost use Rattle.pipe_dev.specs.Openings.{key_for};
ghost use Rattle.example_headline.specs.Headline.{IsEnding};

use crate::crew::{muster, work};
use crate::settling::{Ending, settle};
use pipe_dev::{Ends, Opened, Parts, Pipe};
use sleep_wakeup::{Kernel, Started};
use std::alloc::Global;
use std::sync::Wait;
use std::thread::Threads;
use sync_base::limits::{MAX_PIPE_LIMIT, MAX_WRITERS};
use sync_base::{Fault, Piece};

/// A pipe of this limit, a writer on a thread for each of these lists of messages, and a reader;
/// then a hangup and a finish.
///
/// Refuses as `BadSize` a limit or a number of writers that no pipe has, and else as `Memory`, both
/// before it has a crew. Neither a crew nor its ending can be dropped: once there is a crew, the
/// run is answered.
pub fn run<R: Threads + Wait + Sync>(
    rt: &R,
    alloc: Global,
    limit: u64,
    messages: Vec<Vec<Piece>>,
) -> Result<Ending, Fault>
    // Refused so first, and nothing else is; and no other refusal is known but for memory.
    ensures bad_size { IsErrOf result BadSize ↔ IsBadQueue limit (length messages.items) }
    ensures faults { IfErr result (λ fault. (fault ≡ BadSize) ⊎ (fault ≡ Memory)) }

    // For each writer, what was read and what is held is what was accepted, and this is the first
    // of the messages that it was given: all of them, if none of its writes was refused. No write
    // was accepted after a hangup; whoever fell asleep below a wakeup that has returned is posted
    // no more; and a refusal that is told was one. Where no memory was left to take the ends back,
    // the crew tells all but what is held.
    ensures ending { IfOk result (IsEnding (key_for limit (length messages.items)) 0
        (map vec_items messages.items)) }
{
    let writers = messages.len() as u64;
    if limit == 0 || limit > MAX_PIPE_LIMIT || writers == 0 || writers > MAX_WRITERS {
        return Err(Fault::BadSize);
    }
    let sleep_wakeup::Opened { kernel, start } = Kernel::new(
        alloc,
        writers + 1,
        2 * (writers + 1),
    )?;
    let Started { mut roster, proc } = kernel.start(start);
    let Opened { pipe, start } = Pipe::new(alloc, &mut roster, limit, writers)?;
    let Ends { first, second } = pipe.ends(start);
    let Parts { read, writes: _ } = first.parts();
    let Parts { read: _, writes } = second.parts();
    let crew = muster(alloc, roster, proc, read, writes, messages)?;
    Ok(settle(alloc, work(rt, alloc, crew)))
}
