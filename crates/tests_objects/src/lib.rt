//! Tests of the layers below processes by their public calls, above all these layers, so that no
//! layer is proved once more for its tests. Read `plain`, a pipe for one thread; `worlds`, the
//! machine of sleep and wakeup; `words`, the same on shared words; `locks` and `rooms`, objects
//! under a lock; `rings`, which plays calls at a queue of blocks, with `ring_rows` and
//! `lone_rings`; `finishes`, what a direction of a pipe still held when all its ends are given
//! back, with `cut_writes`, the same after a hangup cut a long write; `spaces`, where calls meet by
//! tags; `units` and `timers`, of semaphores; `devices`, scripts on streams that fail; and `sizes`,
//! what no program makes at each size.
#![tactic(auto)]

#[cfg(test)]
mod cut_writes;
#[cfg(test)]
mod devices;
#[cfg(test)]
mod finishes;
#[cfg(test)]
mod locks;
#[cfg(test)]
mod lone_rings;
#[cfg(test)]
mod plain;
#[cfg(test)]
mod ring_rows;
#[cfg(test)]
mod rings;
#[cfg(test)]
mod rooms;
#[cfg(test)]
mod sizes;
#[cfg(test)]
mod spaces;
#[cfg(test)]
mod timers;
#[cfg(test)]
mod units;
#[cfg(test)]
mod words;
#[cfg(test)]
mod worlds;
