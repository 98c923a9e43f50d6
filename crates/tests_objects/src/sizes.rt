//! What no program makes, once at each size of its range: runs of events, objects of queues, and
//! the ends of pipes that are given back. While there is memory, none of these may be refused it.
use block_queue::QueueObject;
use pipe_dev::{Ends, Opened as OpenedPipe, Pipe, finish};
use sleep_core::{Event, World};
use sleep_wakeup::{Kernel, Opened, Roster};
use std::alloc::Global;
use std::process::Abort;
use sync_base::Pid;
use sync_base::limits::MAX_PIPE_LIMIT;

const DRAIN: Event = Event::Drain { pid: Pid(0) };

// Whether each of the events is answered.
fn answers_all(alloc: Global, world: &mut World, events: &[Event]) -> bool {
    match world.run(alloc, events) {
        Ok(given) => given.len() == events.len(),
        Err(_) => false,
    }
}

// A run of no event, of one, and so on.
fn run_each_length(rt: &impl Abort, alloc: Global, world: &mut World, events: &[Event]) {
    for length in 0..=events.len() {
        assert!(rt;
            answers_all(alloc, world, &events[..length]),
            "{length} events"
        );
    }
}

#[test]
fn a_run_of_each_length_has_memory(rt: HostRuntime) {
    let mut world = World::new(rt.alloc(), 1, 1).expect(&rt, "no memory for a world");
    let events = vec![in rt.alloc(); DRAIN; 2_000].expect(&rt, "no memory for events");
    run_each_length(&rt, rt.alloc(), &mut world, &events);
}

// Whether an object of this limit, which is in its range, is made.
fn has_memory(alloc: Global, limit: u64) -> bool {
    limit > 0 && limit <= MAX_PIPE_LIMIT && QueueObject::new(alloc, limit, 0).is_ok()
}

#[test]
fn an_object_of_each_limit_has_memory(rt: HostRuntime) {
    for limit in 1..=1_024 {
        assert!(rt; has_memory(rt.alloc(), limit), "limit {limit}");
    }
}

// Whether a pipe with so many writers gives all its ends back.
fn is_finished(alloc: Global, roster: &mut Roster<'_>, writers: u64) -> bool {
    let Ok(OpenedPipe { pipe, start }) = Pipe::new(alloc, roster, 1, writers) else {
        return false;
    };
    let Ends { first, second } = pipe.ends(start);
    finish(alloc, first.parts().read, second.parts().writes).is_ok()
}

// The pipes use up the whole roster.
fn finish_each(rt: &impl Abort, alloc: Global, roster: &mut Roster<'_>) {
    for writers in 1..=64 {
        assert!(rt; is_finished(alloc, roster, writers), "{writers} writers");
    }
    assert_eq!(rt; roster.left(), (0, 0));
}

#[test]
fn all_ends_of_each_count_of_writers_are_given_back(rt: HostRuntime) {
    let opened = Kernel::new(rt.alloc(), 1, 4_288);
    let Opened { kernel, start } = opened.expect(&rt, "no memory for a kernel");
    finish_each(&rt, rt.alloc(), &mut kernel.start(start).roster);
}
