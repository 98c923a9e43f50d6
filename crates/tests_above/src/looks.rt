//! What a look at a kernel shows in too little room, and how it is printed.
use crate::kernels::kernel_of;
use plan9::{
    Kernel, Look, Note, NoteSet, OpenedKernel, Pid, Proc, ProcStatus, RendezId, RendezStatus,
    Started,
};
use std::alloc::Global;
use std::process::Abort;

const OUTPUT: RendezId = RendezId(1);

/// More than the kernel has.
const ROOM: usize = 4;

#[test]
fn a_look_with_too_little_room_says_how_many_there_are(rt: HostRuntime) {
    let OpenedKernel { kernel, start: _ } = kernel_of(&rt, rt.alloc(), 3, 2);
    let mut procs = [ProcStatus::default(); ROOM];
    let mut all = [RendezStatus::default(); ROOM];
    let look = kernel.look(&mut procs, &mut all);
    assert_eq!(rt; (look.procs.len(), look.rendez.len()), (3, 2));
    let mut procs = [ProcStatus::default()];
    let look = kernel.look(&mut procs, &mut []);
    assert_eq!(rt; (look.proc_count, look.rendez_count), (3, 2));
    assert_eq!(rt; (look.procs.len(), look.rendez.len()), (1, 0));
}

// Whether the look is printed so.
fn prints(rt: &impl Abort, alloc: Global, look: Look<'_>, table: &str) -> bool {
    match format!(in alloc; "{look}") {
        Ok(text) => text.as_str() == table,
        Err(_) => panic!(rt; "no memory for a table"),
    }
}

const TABLE: &str = " pid state  rendez mark notes\n   0 Wakeme      1    - interrupt, alarm\n\
    \x20  1 Ready       -  yes -\nand 1 more processes\n\
    rendez                level posted\n     0 18446744073709551615      -\n\
    \x20    1                    7      0\n";

// Two processes of three, and both Rendez.
#[test]
fn a_look_prints_a_table(rt: HostRuntime) {
    let procs = [
        ProcStatus {
            posted: Some(OUTPUT),
            notes: NoteSet::of(Note::Alarm).join(NoteSet::of(Note::Interrupt)),
            ..ProcStatus::default()
        },
        ProcStatus {
            pid: Pid(1),
            marked: true,
            ..ProcStatus::default()
        },
    ];
    let rendez = [
        RendezStatus {
            level: u64::MAX,
            ..RendezStatus::default()
        },
        RendezStatus {
            rendez: OUTPUT,
            level: 7,
            posted: Some(Pid(0)),
        },
    ];
    let look = Look {
        procs: &procs,
        rendez: &rendez,
        proc_count: 3,
        rendez_count: 2,
    };
    assert!(rt; prints(&rt, rt.alloc(), look, TABLE));
}

const FIRST_OF_MANY: &str = " pid state  rendez mark notes\n   0 Ready       -    - -\n\
    \x20  1 Ready       -    - interrupt\n   2 Ready       -    - -\n\
    \x20  3 Ready       -    - hangup, expired\nand 12 more processes\n\
    rendez                level posted\n     0                    5      -\n\
    \x20    1                    0      -\n     2 18446744073709551615      -\n\
    and 10 more rendez\n";

// Posts to these, also to one that is not shown.
fn post_notes(rt: &impl Abort, proc: &mut Proc<'_>, rows: &[(u64, NoteSet)]) {
    for (pid, notes) in rows {
        assert_eq!(rt; proc.postnote(Pid(*pid), *notes), Ok(()));
    }
}

// What a look shows that has room for four processes and three Rendez.
fn shows_the_first(rt: &impl Abort, alloc: Global, kernel: &Kernel) -> bool {
    let mut procs = [ProcStatus::default(); ROOM];
    let mut all = [RendezStatus::default(); 3];
    prints(rt, alloc, kernel.look(&mut procs, &mut all), FIRST_OF_MANY)
}

#[test]
fn a_look_shows_the_first_of_many(rt: HostRuntime) {
    let OpenedKernel { kernel, start } = kernel_of(&rt, rt.alloc(), 16, 13);
    let Started {
        roster: _,
        mut proc,
    } = kernel.start(start);
    let two = NoteSet::of(Note::Expired).join(NoteSet::of(Note::Hangup));
    let (one, other) = (NoteSet::of(Note::Interrupt), NoteSet::of(Note::Alarm));
    post_notes(&rt, &mut proc, &[(1, one), (3, two), (9, other)]);
    for (rendez, level) in [(0, 5), (2, u64::MAX), (7, 9)] {
        assert!(rt; proc.wakeup(RendezId(rendez), level).is_ok());
    }
    assert!(rt; shows_the_first(&rt, rt.alloc(), &kernel));
}
