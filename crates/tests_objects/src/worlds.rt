//! The machine of sleep and wakeup: a run of events at once, and the sizes of a world.
use sleep_core::{Answer, Event, World};
use std::alloc::Global;
use std::process::Abort;
use sync_base::{Fault, Pid, RendezId};

fn raise(pid: u64, level: u64) -> Event {
    Event::Raise {
        pid: Pid(pid),
        rendez: RendezId(0),
        level,
    }
}

const POST: Event = Event::Post {
    pid: Pid(0),
    rendez: RendezId(0),
    threshold: 0,
};

const LOOK: Event = Event::Look { pid: Pid(0) };

const ANSWERS: [Answer; 10] = [
    Answer::Posted,
    Answer::Owing,
    Answer::Holding { sleeper: Pid(0) },
    Answer::Asleep,
    Answer::Owing,
    Answer::Nobody,
    Answer::Parked,
    Answer::Marked { sleeper: Pid(0) },
    Answer::Woken,
    Answer::Cleared,
];

// A world, asked for once more where memory is refused.
fn world_of(rt: &impl Abort, alloc: Global, procs: u64, rendez: u64) -> World {
    let made = match World::new(alloc, procs, rendez) {
        Err(Fault::Memory) => World::new(alloc, procs, rendez),
        made => made,
    };
    made.expect(rt, "no world")
}

// Whether the events have these answers, asked for once more where memory is refused.
fn runs(alloc: Global, world: &mut World, events: &[Event]) -> bool {
    match world.run(alloc, events) {
        Ok(given) => given.as_slice() == ANSWERS.as_slice(),
        Err(_) => match world.run(alloc, events) {
            Ok(given) => given.as_slice() == ANSWERS.as_slice(),
            Err(_) => false,
        },
    }
}

#[test]
fn a_sleeper_that_a_low_wakeup_took(rt: HostRuntime) {
    let events = [
        POST,
        raise(1, 0),
        Event::Take { pid: Pid(1) },
        Event::Test { pid: Pid(0) },
        raise(2, 1),
        Event::Take { pid: Pid(2) },
        LOOK,
        Event::Mark { pid: Pid(1) },
        LOOK,
        Event::Clear { pid: Pid(0) },
    ];
    let mut world = world_of(&rt, rt.alloc(), 3, 1);
    assert!(rt; runs(rt.alloc(), &mut world, &events));
    assert!(rt; !world.is_lost());
}
