//! Whether the options of a run on threads are within the limits, and what the run reports.
ghost use Rattle.std.specs.Prelude.{◌≡◌, ◌≤◌, ◌*◌, ◌↔◌, true};
ghost use Rattle.crew.specs.Threads.{AreWithin, IsBetween};

use sync_base::ThreadsOpts;
use sync_base::limits::{LEAST_SIZE, MAX_WRITERS, MAX_WRITES, MOST_SIZE};

/// Whether each option is within its limits.
pub fn is_within(opts: &ThreadsOpts) -> bool
    ensures { (result ≡ true) ↔ AreWithin opts.now }
{
    is_between(1, MAX_WRITERS, opts.writers)
        && is_between(1, MAX_WRITES, opts.writes)
        && is_between(LEAST_SIZE, MOST_SIZE, opts.size)
}

fn is_between(least: u64, most: u64, number: u64) -> bool
    ensures { (result ≡ true) ↔ IsBetween least most number }
{
    least <= number && number <= most
}

/// What the reader has read, up to the end.
#[derive(Clone, Copy, Debug, PartialEq, Eq)]
pub struct Report {
    pub writers: u64,
    pub writes: u64,
    pub bytes: u64,
    /// Whether each piece was a whole message, and the next of its writer.
    pub in_order: bool,
}
