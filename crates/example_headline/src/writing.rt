//! All writers at once.
ghost use Rattle.std.specs.Prelude.{◌<◌, ℕ, length, slice_index_or};
ghost use Rattle.std.specs.List.{AllZip};
ghost use Rattle.example_headline.specs.Crew.{HasWrittenOn, EndsFrom, StaysEnded};

use crate::writer::Writer;
use std::alloc::Global;
use std::sync::Wait;
use std::thread::{Threads, for_each_mut};

/// All writers at once, each on a thread of its own.
pub fn write_each<R: Threads + Wait + Sync>(rt: &R, alloc: Global, writers: &mut [Writer<'_>])
    ensures on { (place : ℕ) (other : _) → place < length writers.old → HasWrittenOn
        (slice_index_or writers.old place other) (slice_index_or writers.new place other) }
    ensures ended { (place : ℕ) (other : _) → place < length writers.old → EndsFrom
        (slice_index_or writers.old place other) (slice_index_or writers.new place other) }
{
    for_each_mut(
        rt,
        writers,
        64,
        &|_, writer: &mut Writer| writer.write_all(rt, alloc),
    );
}

/// Each writer hangs up, one after the other.
pub fn hangup_each<R: Threads + Sync>(rt: &R, writers: &mut [Writer<'_>])
    ensures on { (place : ℕ) (other : _) → place < length writers.old → HasWrittenOn
        (slice_index_or writers.old place other) (slice_index_or writers.new place other) }
    ensures ended { (place : ℕ) (other : _) → place < length writers.old → StaysEnded
        (slice_index_or writers.old place other) (slice_index_or writers.new place other) }
{
    for_each_mut(rt, writers, 1, &|_, writer: &mut Writer| writer.hangup());
}

/// All writers at once; and once they have returned, a hangup.
pub fn write_and_hang_up<R: Threads + Wait + Sync>(
    rt: &R,
    alloc: Global,
    writers: &mut [Writer<'_>],
)
    ensures on { AllZip HasWrittenOn writers.old writers.new }
    ensures ended { AllZip EndsFrom writers.old writers.new }
{
    write_each(rt, alloc, writers);
    hangup_each(rt, writers);
}
