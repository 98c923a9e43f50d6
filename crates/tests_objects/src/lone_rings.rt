//! A queue of blocks whose seats are all in one hand: blocks whose memory comes back, what is left
//! at its end, and the sizes that there are.
ghost use Rattle.std.specs.Prelude.{◌≡◌, ◌≤◌, ◌∷◌, [], IfSome};
ghost use Rattle.std.specs.List.{AllByRecursion};
ghost use Rattle.std.specs.Vec.{vec_capacity};
ghost use Rattle.block_queue.specs.Gather.{AreAllSeats};
ghost use Rattle.block_queue.specs.Seats.{IsPutSeatOf, IsTakeSeatOf};

use crate::rings::Reply::{self, Block, End, Full, Hungup, NotYet, Taken, Worn};
use crate::rings::{block_of, is_put, is_take, opened};
use block_queue::{Gathered, Opened, PutSeat, Queue, Spare, TakeAnswer, TakeSeat, Ungathered};
use std::alloc::Global;
use std::process::Abort;
use std::sync::Wait;
use sync_base::limits::LAST_WRITE;
use sync_base::{Fault, Piece};

/// A queue with one writer, and its seats.
#[derive(Drop)]
struct Lone {
    queue: Queue,
    take: TakeSeat,
    put: PutSeat,
    ghost take_is: { IsTakeSeatOf queue take },
    ghost put_is: { IsPutSeatOf queue put },
    ghost all: { AreAllSeats take (put ∷ []) },
}

/// What is done with it.
#[derive(Clone, Copy)]
enum Deed {
    Puts(&'static [u8], Reply),
    Takes(Reply),
    /// A take whose block's memory is given back.
    TakesBack(Reply),
    HangsUp,
    ReaderHangsUp,
    /// The memory that its writer keeps has room for this many bytes.
    HasRoom(usize),
}

use Deed::{HangsUp, HasRoom, Puts, ReaderHangsUp, Takes, TakesBack};

/// What is left of it at last: whether it was hung up, and each block that is left.
#[derive(Clone, Copy)]
struct Left {
    hung: bool,
    blocks: &'static [&'static [u8]],
}

/// A queue with one writer, what is done with it, and what is left.
#[derive(Clone, Copy)]
struct Life {
    limit: u64,
    /// How many blocks were counted before, or `Queue::new` makes it.
    first: Option<u64>,
    deeds: &'static [Deed],
    left: Left,
}

impl Lone {
    // Whether it comes to what it is to.
    fn does<R: Wait>(&mut self, rt: &R, alloc: Global, deed: Deed) -> bool {
        match deed {
            Puts(bytes, wanted) => self.puts(rt, alloc, bytes, wanted),
            Takes(wanted) => is_take(&self.queue.take(&mut self.take), wanted),
            TakesBack(wanted) => self.takes_back(wanted),
            HangsUp => {
                self.queue.hang_put(&mut self.put);
                true
            }
            ReaderHangsUp => {
                self.queue.hang_take(&mut self.take);
                true
            }
            HasRoom(wanted) => room_in(&mut self.put, alloc) == wanted,
        }
    }

    // A put of these bytes. Whether it was answered so.
    fn puts<R: Wait>(&mut self, rt: &R, alloc: Global, bytes: &[u8], wanted: Reply) -> bool {
        match block_of(alloc, bytes) {
            Some(block) => is_put(&self.queue.put(rt, &mut self.put, block), bytes, wanted),
            None => false,
        }
    }

    // A take whose block's memory is given back. Whether it was answered so.
    fn takes_back(&mut self, wanted: Reply) -> bool {
        let answer = self.queue.take(&mut self.take);
        let is_so = is_take(&answer, wanted);
        if let TakeAnswer::Block(block, _, _) = answer {
            self.take.spare.keep(Spare::of(block));
        }
        is_so
    }

    // Whether just this is left. Where memory is refused the seats that come back are gathered
    // again.
    fn leaves(self, alloc: Global, left: Left) -> bool {
        let Lone { queue, take, put } = self;
        let Some(mut puts) = room_for_one(alloc) else {
            return false;
        };
        puts.push_reserved(put);
        match queue.gather(alloc, take, puts) {
            Ok(gathered) => is_left(&gathered, left),
            Err(Ungathered { take, puts }) => match queue.gather(alloc, take, puts) {
                Ok(gathered) => is_left(&gathered, left),
                Err(_) => false,
            },
        }
    }
}

/// Room for a seat, or an end.
pub fn room_for_one<T: Drop>(alloc: Global) -> Option<Vec<T>>
    ensures none { IfSome result (λ room. room.items ≡ []) }
    ensures room { IfSome result (λ room. 1 ≤ vec_capacity room) }
{
    match Vec::with_capacity(alloc, 1) {
        Ok(room) => Some(room),
        Err(_) => match Vec::with_capacity(alloc, 1) {
            Ok(room) => Some(room),
            Err(_) => None,
        },
    }
}

// How many bytes the memory has room for that the writer keeps. It stays there.
fn room_in(seat: &mut PutSeat, alloc: Global) -> usize
    ensures { seat.new ≡ seat.old }
{
    match seat.spare.take().filled(alloc, b"") {
        Ok(block) => {
            let bytes = block.into_vec();
            let room = bytes.capacity();
            seat.spare.keep(Spare::of(Piece::of(bytes)));
            room
        }
        Err(_) => usize::MAX,
    }
}

// Whether it was hung up so, and just these blocks of its writer stand.
fn is_left(gathered: &Gathered, left: Left) -> bool {
    let mut is_so = gathered.hung == left.hung && gathered.blocks.len() == left.blocks.len();
    for (stored, bytes) in gathered.blocks.iter().zip(left.blocks.iter()) {
        is_so = is_so && stored.writer == 0 && stored.block.as_slice() == *bytes;
    }
    is_so
}

// All seats of a queue with one writer.
fn lone_of(queue: Queue, take: TakeSeat, mut puts: Vec<PutSeat>) -> Option<Lone>
    requires take { IsTakeSeatOf queue take }
    requires puts { AllByRecursion (IsPutSeatOf queue) puts.items }
    requires all { AreAllSeats take puts.items }
{
    if puts.len() == 1 {
        if let Some(put) = puts.pop() {
            return Some(Lone { queue, take, put });
        }
    }
    None
}

fn do_each<R: Wait + Abort>(rt: &R, alloc: Global, lone: &mut Lone, deeds: &[Deed]) {
    for (at, deed) in deeds.iter().enumerate() {
        assert!(rt; lone.does(rt, alloc, *deed), "deed {at}");
    }
}

// Lives it.
fn live<R: Wait + Abort>(rt: &R, alloc: Global, life: &Life) {
    let Opened { queue, take, puts } = opened(rt, alloc, life.limit, 1, life.first);
    let mut lone = lone_of(queue, take, puts).expect(rt, "no writer's seat");
    do_each(rt, alloc, &mut lone, life.deeds);
    assert!(rt; lone.leaves(alloc, life.left));
}

const LAST_NUMBER: Life = Life {
    limit: 2,
    first: Some(LAST_WRITE - 1),
    deeds: &[
        Puts(b"a", Taken(LAST_WRITE)),
        Puts(b"b", Worn),
        Takes(Block(0, LAST_WRITE, b"a")),
        Takes(NotYet(LAST_WRITE)),
        ReaderHangsUp,
        Puts(b"b", Hungup),
        Takes(End),
    ],
    left: Left {
        hung: true,
        blocks: &[],
    },
};

#[test]
fn the_last_number_is_given_once(rt: HostRuntime) {
    live(&rt, rt.alloc(), &LAST_NUMBER);
}

const ONE_PLACE: Life = Life {
    limit: 1,
    first: None,
    deeds: &[
        Puts(b"a", Taken(1)),
        Puts(b"b", Full(0)),
        Takes(Block(0, 1, b"a")),
        Puts(b"b", Taken(2)),
    ],
    left: Left {
        hung: false,
        blocks: &[b"b"],
    },
};

#[test]
fn a_queue_of_one_place_is_full_with_one_block(rt: HostRuntime) {
    live(&rt, rt.alloc(), &ONE_PLACE);
}

const READ_AND_BACK: Life = Life {
    limit: 1,
    first: Some(0),
    deeds: &[
        Puts(b"abcdef", Taken(1)),
        TakesBack(Block(0, 1, b"abcdef")),
        Puts(b"g", Taken(2)),
        TakesBack(Block(0, 2, b"g")),
        HasRoom(0),
        Puts(b"h", Taken(3)),
        HasRoom(6),
        Puts(b"i", Full(2)),
        HasRoom(6),
        Takes(Block(0, 3, b"h")),
    ],
    left: Left {
        hung: false,
        blocks: &[],
    },
};

#[test]
fn a_block_that_was_read_comes_back(rt: HostRuntime) {
    live(&rt, rt.alloc(), &READ_AND_BACK);
}

const HUNG_UP: Life = Life {
    limit: 3,
    first: Some(7),
    deeds: &[
        Puts(b"a", Taken(8)),
        Puts(b"", Taken(9)),
        Takes(Block(0, 8, b"a")),
        HangsUp,
        Puts(b"c", Hungup),
    ],
    left: Left {
        hung: true,
        blocks: &[b""],
    },
};

#[test]
fn what_stands_is_gathered_after_a_hangup(rt: HostRuntime) {
    live(&rt, rt.alloc(), &HUNG_UP);
}

// ---- sizes

/// A limit, how many writers and how many blocks before, and why there is no such queue.
const NO_QUEUES: [(u64, u64, u64, Fault); 6] = [
    (0, 1, 0, Fault::BadSize),
    (1_025, 1, 0, Fault::BadSize),
    (1, 0, 0, Fault::BadSize),
    (1, 65, 0, Fault::BadSize),
    (1, 1, LAST_WRITE + 1, Fault::BadArg),
    (0, 1, LAST_WRITE + 1, Fault::BadSize),
];

fn why_no_queue(alloc: Global, limit: u64, writers: u64, first: u64) -> Option<Fault> {
    Queue::new_from(alloc, limit, writers, first).err()
}

/// The same for `Queue::new`.
const NO_NEW_QUEUES: [(u64, u64); 5] = [(0, 1), (1, 65), (1_025, 1), (1, 0), (0, 65)];

fn why_no_new_queue(alloc: Global, limit: u64, writers: u64) -> Option<Fault> {
    Queue::new(alloc, limit, writers).err()
}

#[test]
fn sizes_out_of_range_are_refused(rt: HostRuntime) {
    for (limit, writers, first, fault) in NO_QUEUES {
        let why = why_no_queue(rt.alloc(), limit, writers, first);
        assert_eq!(rt; why, Some(fault), "{limit} for {writers}");
    }
}

#[test]
fn no_new_queue_has_sizes_out_of_range(rt: HostRuntime) {
    for (limit, writers) in NO_NEW_QUEUES {
        let why = why_no_new_queue(rt.alloc(), limit, writers);
        assert_eq!(rt; why, Some(Fault::BadSize), "{limit} for {writers}");
    }
}

// The writer of each seat is its place.
fn are_in_turn(rt: &impl Abort, puts: &[PutSeat]) {
    for (writer, seat) in puts.iter().enumerate() {
        assert_eq!(rt; seat.writer(), writer as u64);
    }
}

#[test]
fn the_largest_sizes_are_taken(rt: HostRuntime) {
    let Opened { puts, .. } = opened(&rt, rt.alloc(), 1_024, 64, Some(0));
    assert_eq!(rt; puts.len(), 64);
    are_in_turn(&rt, puts.as_slice());
}
