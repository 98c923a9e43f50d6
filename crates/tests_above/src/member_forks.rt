//! `rfork` of a member by each set of flags, and each of its refusals: who then waits where, who is
//! in the note group of process 0, and what is left.
use crate::kernels::kernel_of;
use plan9::{
    Fault, Flags, ForkedMember, Member, Note, NoteSet, OpenedKernel, Pid, Proc, Roster, Space,
    Started, Tag, UnforkedMember, fork,
};
use std::alloc::Global;
use std::process::Abort;
use std::sync::Wait;

/// A process by its pid, and the Rendez in which it waits for a partner.
#[derive(Clone, Copy, Debug, PartialEq, Eq)]
struct Spot {
    pid: u64,
    rendez: u64,
}

/// The answer of a call. `first` has the first member of a new space.
#[derive(Clone, Copy, Debug, PartialEq, Eq)]
enum Came {
    Alone { caller: Spot },
    Child { caller: Spot, child: Spot },
    Apart { first: Spot },
    ChildApart { caller: Spot, first: Spot },
    Refused { caller: Spot, fault: Fault },
}

/// How many processes and Rendez the kernel has, and how many members the space.
#[derive(Clone, Copy)]
struct Sizes {
    procs: u64,
    rendez: u64,
    members: u64,
}

/// A call of process 1, a member in the group of process 0: its flags, the sizes, its answer, how
/// many are then in that group, and how many pids and Rendez are left.
type Row = (u32, Sizes, Came, u64, (u64, u64));

const CALLER: Spot = Spot { pid: 1, rendez: 0 };

/// The child in its parent's space, and in a space of its own; and the caller in a new space.
const CHILD: Spot = Spot { pid: 2, rendez: 1 };

const CHILD_APART: Spot = Spot { pid: 2, rendez: 2 };

const CALLER_APART: Spot = Spot { pid: 1, rendez: 2 };

/// A pid, a row for a new space and a member are left.
const ALL: Sizes = Sizes {
    procs: 3,
    rendez: 4,
    members: 2,
};

/// One of the three is not left.
const NO_PID: Sizes = Sizes { procs: 2, ..ALL };

const NO_ROW: Sizes = Sizes { rendez: 3, ..ALL };

const NO_MEMBER: Sizes = Sizes { members: 1, ..ALL };

const ALONE: Came = Came::Alone { caller: CALLER };

const BOTH_HERE: Came = Came::Child {
    caller: CALLER,
    child: CHILD,
};

const MOVED: Came = Came::Apart {
    first: CALLER_APART,
};

const CHILD_MOVED: Came = Came::ChildApart {
    caller: CALLER,
    first: CHILD_APART,
};

const BAD_FLAGS: Came = Came::Refused {
    caller: CALLER,
    fault: Fault::BadFlags,
};

const NO_PROC: Came = Came::Refused {
    caller: CALLER,
    fault: Fault::NoProc,
};

const NO_RENDEZ: Came = Came::Refused {
    caller: CALLER,
    fault: Fault::NoRendez,
};

const ROWS: [Row; 17] = [
    (0, ALL, ALONE, 2, (1, 2)),
    (1, ALL, BOTH_HERE, 3, (0, 2)),
    (2, ALL, MOVED, 2, (1, 0)),
    (3, ALL, CHILD_MOVED, 3, (0, 0)),
    (4, ALL, ALONE, 1, (1, 2)),
    (5, ALL, BOTH_HERE, 2, (0, 2)),
    (6, ALL, MOVED, 1, (1, 0)),
    (7, ALL, CHILD_MOVED, 2, (0, 0)),
    (8, ALL, BAD_FLAGS, 2, (1, 2)),
    (15, NO_PID, BAD_FLAGS, 2, (0, 2)),
    (9, NO_MEMBER, BAD_FLAGS, 2, (1, 3)),
    (1, NO_PID, NO_PROC, 2, (0, 2)),
    (7, NO_PID, NO_PROC, 2, (0, 2)),
    (2, NO_ROW, NO_RENDEZ, 2, (1, 1)),
    (7, NO_ROW, NO_RENDEZ, 2, (1, 1)),
    (1, NO_MEMBER, NO_PROC, 2, (1, 3)),
    (5, NO_MEMBER, NO_PROC, 2, (1, 3)),
];

fn spot_of(proc: &Proc<'_>, member: &Member<'_>) -> Spot {
    Spot {
        pid: proc.pid().0,
        rendez: member.rendez().0,
    }
}

// A process with the first member of a new space.
fn first_of(rt: &impl Abort, space: &mut Space, proc: &Proc<'_>) -> Spot {
    spot_of(proc, &member_of(rt, space))
}

// What a call answered; where memory was refused, once more by the member that came back.
fn forks<'k, R: Wait + Abort>(
    rt: &R,
    alloc: Global,
    roster: &mut Roster<'k>,
    proc: &mut Proc<'k>,
    member: Member<'_>,
    flags: Flags,
) -> Came {
    let answer = match member.rfork(alloc, rt, roster, proc, flags) {
        Err(
            UnforkedMember {
                member,
                fault: Fault::Memory,
            },
        ) => member.rfork(alloc, rt, roster, proc, flags),
        answer => answer,
    };
    came_of(rt, proc, answer)
}

fn came_of(
    rt: &impl Abort,
    proc: &Proc<'_>,
    answer: Result<ForkedMember<'_, '_>, UnforkedMember<'_>>,
) -> Came {
    match answer {
        Ok(ForkedMember::Alone { member }) => Came::Alone {
            caller: spot_of(proc, &member),
        },
        Ok(
            ForkedMember::Child {
                member,
                child,
                childs,
            },
        ) => Came::Child {
            caller: spot_of(proc, &member),
            child: spot_of(&child, &childs),
        },
        Ok(
            ForkedMember::Apart {
                mut space,
                spent: _,
            },
        ) => Came::Apart {
            first: first_of(rt, &mut space, proc),
        },
        Ok(
            ForkedMember::ChildApart {
                member,
                child,
                mut space,
            },
        ) => Came::ChildApart {
            caller: spot_of(proc, &member),
            first: first_of(rt, &mut space, &child),
        },
        Err(UnforkedMember { member, fault }) => Came::Refused {
            caller: spot_of(proc, &member),
            fault,
        },
    }
}

// The space of so many members.
fn space_of(rt: &impl Abort, alloc: Global, roster: &mut Roster<'_>, members: u64) -> Space {
    let made = match Space::new(alloc, roster, members) {
        Err(Fault::Memory) => Space::new(alloc, roster, members),
        made => made,
    };
    made.expect(rt, "no space")
}

fn member_of<'s>(rt: &impl Abort, space: &'s mut Space) -> Member<'s> {
    space.member().expect(rt, "nobody had its first member")
}

fn caller_of<'k>(rt: &impl Abort, started: &mut Started<'k>) -> Proc<'k> {
    fork(&mut started.roster, &mut started.proc).expect(rt, "a pid is left")
}

// What comes of a call by the next process, with the first member of a new space.
fn came_in<'k, R: Wait + Abort>(
    rt: &R,
    alloc: Global,
    started: &mut Started<'k>,
    members: u64,
    flags: Flags,
) -> Came {
    let mut space = space_of(rt, alloc, &mut started.roster, members);
    let mut caller = caller_of(rt, started);
    let member = member_of(rt, &mut space);
    forks(rt, alloc, &mut started.roster, &mut caller, member, flags)
}

/// The answer of a call, how many are in the group of process 0, and what is left.
type Played = (Came, Result<u64, Fault>, (u64, u64));

fn played_by<'k, R: Wait + Abort>(
    rt: &R,
    alloc: Global,
    started: &mut Started<'k>,
    members: u64,
    flags: Flags,
) -> Played {
    let came = came_in(rt, alloc, started, members, flags);
    let Started { roster, proc } = started;
    let group = roster.postnote_group(proc, Pid(0), NoteSet::of(Note::Alarm));
    (came, group, roster.left())
}

fn played<R: Wait + Abort>(rt: &R, alloc: Global, flags: u32, sizes: Sizes) -> Played {
    let OpenedKernel { kernel, start } = kernel_of(rt, alloc, sizes.procs, sizes.rendez);
    let mut started = kernel.start(start);
    played_by(
        rt,
        alloc,
        &mut started,
        sizes.members,
        Flags::from_bits(flags),
    )
}

fn is_so<R: Wait + Abort>(rt: &R, alloc: Global, row: Row) {
    let (flags, sizes, came, group, left) = row;
    assert_eq!(rt; played(rt, alloc, flags, sizes), (came, Ok(group), left));
}

#[test]
fn a_member_forks_by_its_flags(rt: HostRuntime) {
    for row in ROWS.iter() {
        is_so(&rt, rt.alloc(), *row);
    }
}

// A child that the roster of another kernel makes: its kernel has fewer Rendez, so each call by its
// member is refused, and the member then serves a process that may call.
fn child_of_another<'k, R: Wait + Abort>(
    rt: &R,
    alloc: Global,
    mut own: Started<'k>,
    mut other: Started<'k>,
) -> [Result<u64, Fault>; 2] {
    let mut space = space_of(rt, alloc, &mut own.roster, 2);
    let member = member_of(rt, &mut space);
    let proc = &mut own.proc;
    let forked = member.rfork(alloc, rt, &mut other.roster, proc, Flags::RFPROC);
    let Ok(
        ForkedMember::Child {
            member: _,
            mut child,
            mut childs,
        },
    ) = forked
    else {
        panic!(rt; "a pid and a member are left")
    };
    let strange = childs.rendezvous(rt, &mut child, Tag(1), 2);
    let noted = proc.postnote(proc.pid(), NoteSet::of(Note::Alarm));
    assert!(rt; noted.is_ok());
    [strange, childs.rendezvous(rt, proc, Tag(1), 2)]
}

#[test]
fn a_child_of_another_kernel_meets_nobody(rt: HostRuntime) {
    let OpenedKernel { kernel, start } = kernel_of(&rt, rt.alloc(), 2, 2);
    let OpenedKernel {
        kernel: other,
        start: other_start,
    } = kernel_of(&rt, rt.alloc(), 2, 1);
    let own = kernel.start(start);
    let others = other.start(other_start);
    let came = child_of_another(&rt, rt.alloc(), own, others);
    let noted = Fault::Interrupted(NoteSet::of(Note::Alarm));
    assert_eq!(rt; came, [Err(Fault::NoRendez), Err(noted)]);
}
