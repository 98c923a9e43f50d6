//! Puts and takes at a queue with two writers, with what comes at their points: `const` tables of
//! calls with their answers.
use crate::rings::Call::{HangPut, HangTake, Put, Take};
use crate::rings::Line::{Plain, Probed};
use crate::rings::Reply::{Block, End, Full, Hung, Hungup, NotYet, Taken, Worn};
use crate::rings::{Act, Call, Case, Line, opened, play, play_lines, seats_of};
use block_queue::Opened;
use sync_base::limits::LAST_WRITE;

// ---- puts

/// A put of writer 0, and a put of writer 1.
const PUT: Call = Put(0, b"");

const OTHER: Call = Put(1, b"");

const A: Call = Put(0, b"a");

const B: Call = Put(0, b"b");

const NOT_YET: Line = Plain(Take, NotYet(0));

const ENDED: Line = Plain(Take, End);

/// The points of a put that begins once and is taken.
const ALL: &[u64] = &[1, 2, 3, 4, 5, 6];

// A put of `a` into an empty queue that is hung up at a point, and two takes after it.
macro_rules! hung_at {
    ($point:expr, $reply:expr, $points:expr, $taken:expr) => {
        Case {
            limit: 2,
            first: 0,
            lines: &[
                Probed(&[Act($point, HangTake, Hung)], A, $reply, $points),
                Plain(Take, $taken),
                ENDED,
            ],
        }
    };
}

const ACCEPTANCE: &[Case] = &[
    hung_at!(1, Hungup, &[1, 6], End),
    hung_at!(2, Hungup, &[1, 2, 3, 1, 6], End),
    hung_at!(3, Hungup, &[1, 2, 3, 1, 6], End),
    hung_at!(4, Taken(1), ALL, Block(0, 1, b"a")),
    hung_at!(5, Taken(1), ALL, Block(0, 1, b"a")),
];

#[test]
fn a_hangup_comes_before_or_after_the_acceptance(rt: HostRuntime) {
    play(&rt, rt.alloc(), ACCEPTANCE);
}

const NO_MARK: &[Case] = &[Case {
    limit: 1,
    first: 0,
    lines: &[
        Plain(A, Taken(1)),
        Probed(&[Act(2, HangTake, Hung)], B, Full(0), &[1, 2, 6]),
        Plain(B, Hungup),
    ],
}];

#[test]
fn a_put_that_read_no_mark_finds_the_queue_full(rt: HostRuntime) {
    play(&rt, rt.alloc(), NO_MARK);
}

const BEFORE_IT_STANDS: &[Act] = &[
    Act(5, Take, NotYet(0)),
    Act(5, Put(1, b"b"), Taken(2)),
    Act(5, Take, NotYet(0)),
    Act(5, HangTake, Hung),
    Act(5, Take, NotYet(0)),
];

const IN_TURN: &[Case] = &[Case {
    limit: 4,
    first: 0,
    lines: &[
        Probed(BEFORE_IT_STANDS, A, Taken(1), ALL),
        Plain(Take, Block(0, 1, b"a")),
        Plain(Take, Block(1, 2, b"b")),
        ENDED,
    ],
}];

#[test]
fn a_block_waits_for_the_put_before_it(rt: HostRuntime) {
    play(&rt, rt.alloc(), IN_TURN);
}

// A put into an empty queue of limit 3, at whose points this is called.
macro_rules! put_past {
    ($acts:expr, $reply:expr, $points:expr) => {
        put_past!(0, $acts, $reply, $points)
    };
    ($first:expr, $acts:expr, $reply:expr, $points:expr) => {
        Case {
            limit: 3,
            first: $first,
            lines: &[Probed($acts, PUT, $reply, $points)],
        }
    };
}

const ANOTHER_FIRST: &[Case] = &[
    put_past!(&[], Taken(1), ALL),
    put_past!(&[Act(1, OTHER, Taken(1))], Taken(2), ALL),
    put_past!(
        &[Act(2, OTHER, Taken(1))],
        Taken(2),
        &[1, 2, 1, 2, 3, 4, 5, 6]
    ),
    put_past!(
        &[Act(3, OTHER, Taken(1))],
        Taken(2),
        &[1, 2, 3, 1, 2, 3, 4, 5, 6]
    ),
    put_past!(&[Act(4, OTHER, Taken(2))], Taken(1), ALL),
    put_past!(&[Act(5, OTHER, Taken(2))], Taken(1), ALL),
    put_past!(&[Act(6, OTHER, Taken(2))], Taken(1), ALL),
];

#[test]
fn a_put_begins_again_where_another_came_first(rt: HostRuntime) {
    play(&rt, rt.alloc(), ANOTHER_FIRST);
}

const STANDING: &[Case] = &[
    put_past!(&[Act(1, Take, NotYet(0))], Taken(1), ALL),
    put_past!(&[Act(4, Take, NotYet(0))], Taken(1), ALL),
    put_past!(&[Act(5, Take, NotYet(0))], Taken(1), ALL),
    put_past!(&[Act(6, Take, Block(0, 1, b""))], Taken(1), ALL),
];

#[test]
fn a_put_stands_after_its_fifth_point(rt: HostRuntime) {
    play(&rt, rt.alloc(), STANDING);
}

const SEEN_BY_A_PUT: &[Case] = &[
    put_past!(&[Act(1, HangTake, Hung)], Hungup, &[1, 6]),
    put_past!(&[Act(2, HangTake, Hung)], Hungup, &[1, 2, 3, 1, 6]),
    put_past!(&[Act(3, HangTake, Hung)], Hungup, &[1, 2, 3, 1, 6]),
    put_past!(&[Act(4, HangTake, Hung)], Taken(1), ALL),
];

#[test]
fn a_hangup_is_seen_at_the_first_and_the_third_step_of_a_put(rt: HostRuntime) {
    play(&rt, rt.alloc(), SEEN_BY_A_PUT);
}

// A put into a queue of limit 1, in which a block of the writer 1 stands.
macro_rules! put_into_full {
    ($acts:expr, $reply:expr, $points:expr) => {
        Case {
            limit: 1,
            first: 0,
            lines: &[Plain(OTHER, Taken(1)), Probed($acts, PUT, $reply, $points)],
        }
    };
}

const FULL: &[Case] = &[
    put_into_full!(&[], Full(0), &[1, 2, 6]),
    put_into_full!(&[Act(2, HangTake, Hung)], Full(0), &[1, 2, 6]),
    put_into_full!(&[Act(2, Take, Block(1, 1, b""))], Taken(2), ALL),
];

#[test]
fn a_put_finds_the_queue_full_at_its_second_step(rt: HostRuntime) {
    play(&rt, rt.alloc(), FULL);
}

const BEFORE_LAST: u64 = LAST_WRITE - 1;

const WORN_OUT: &[Case] = &[
    put_past!(LAST_WRITE, &[], Worn, &[1, 6]),
    put_past!(
        BEFORE_LAST,
        &[Act(1, OTHER, Taken(LAST_WRITE))],
        Worn,
        &[1, 6]
    ),
    put_past!(
        BEFORE_LAST,
        &[Act(2, OTHER, Taken(LAST_WRITE))],
        Worn,
        &[1, 2, 1, 6]
    ),
    put_past!(
        BEFORE_LAST,
        &[Act(3, OTHER, Taken(LAST_WRITE))],
        Worn,
        &[1, 2, 3, 1, 6]
    ),
    put_past!(BEFORE_LAST, &[Act(4, OTHER, Worn)], Taken(LAST_WRITE), ALL),
];

#[test]
fn a_put_finds_its_numbers_worn_at_its_first_step(rt: HostRuntime) {
    play(&rt, rt.alloc(), WORN_OUT);
}

// ---- takes

/// The points of a take that finds no block, and of a take that takes a block out.
const EMPTY: &[u64] = &[1, 2];

const OUT: &[u64] = &[1, 2, 3, 4];

// A take from an empty queue of this limit, at whose points this is called, and what stands after.
macro_rules! take_past {
    ($limit:expr, $acts:expr, $reply:expr, $points:expr, $after:expr) => {
        Case {
            limit: $limit,
            first: 0,
            lines: &[Probed($acts, Take, $reply, $points), Plain(Take, $after)],
        }
    };
}

const SEEN_BY_A_TAKE: &[Case] = &[
    take_past!(2, &[Act(1, HangPut, Hung)], End, &[1], End),
    take_past!(2, &[Act(2, HangPut, Hung)], NotYet(0), EMPTY, End),
    take_past!(2, &[Act(1, A, Taken(1))], Block(0, 1, b"a"), OUT, NotYet(1)),
    take_past!(2, &[Act(2, A, Taken(1))], Block(0, 1, b"a"), OUT, NotYet(1)),
];

#[test]
fn a_take_sees_what_came_before_its_steps(rt: HostRuntime) {
    play(&rt, rt.alloc(), SEEN_BY_A_TAKE);
}

const FROM_EMPTY: &[Case] = &[
    take_past!(1, &[], NotYet(0), EMPTY, NotYet(0)),
    take_past!(1, &[Act(1, HangPut, Hung)], End, &[1], End),
    take_past!(1, &[Act(2, HangPut, Hung)], NotYet(0), EMPTY, End),
    take_past!(
        1,
        &[Act(1, PUT, Taken(1))],
        Block(0, 1, b""),
        OUT,
        NotYet(1)
    ),
    take_past!(
        1,
        &[Act(2, PUT, Taken(1))],
        Block(0, 1, b""),
        OUT,
        NotYet(1)
    ),
];

#[test]
fn a_take_from_an_empty_queue_sees_what_came_before_its_steps(rt: HostRuntime) {
    play(&rt, rt.alloc(), FROM_EMPTY);
}

// A take from a queue of limit 1 that is full, at whose point a put finds no place.
macro_rules! full_at {
    ($point:expr) => {
        Case {
            limit: 1,
            first: 0,
            lines: &[
                Plain(PUT, Taken(1)),
                Probed(&[Act($point, PUT, Full(0))], Take, Block(0, 1, b""), OUT),
            ],
        }
    };
}

const FREED: &[Case] = &[full_at!(1), full_at!(2), full_at!(3), full_at!(4)];

#[test]
fn a_take_frees_its_place_after_its_fourth_point(rt: HostRuntime) {
    play(&rt, rt.alloc(), FREED);
}

#[test]
fn a_take_passes_its_points_after_many_blocks(rt: HostRuntime) {
    let Opened { queue, take, puts } = opened(&rt, rt.alloc(), 2, 2, Some(0));
    let mut seats = seats_of(&queue, take, puts);
    for number in 1..=12 {
        let block = Block(0, number, b"a");
        let lines = [Plain(A, Taken(number)), Probed(&[], Take, block, OUT)];
        play_lines(&rt, rt.alloc(), &mut seats, &lines, number as usize);
    }
}
