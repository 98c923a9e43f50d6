//! A queue of blocks and its seats, and a player of their calls: whether each call gets the answer
//! that it should, passes the points that it should, and so do calls of other seats at one of the
//! points. The answers of these calls, and the way that the call then takes, show which steps were
//! made before. Where memory is refused it is asked for once more.
ghost use Rattle.std.specs.Prelude.{IfOk};
ghost use Rattle.std.specs.List.{AllByRecursion};
ghost use Rattle.block_queue.specs.Gather.{AreAllSeats};
ghost use Rattle.block_queue.specs.Seats.{IsPutSeatOf, IsTakeSeatOf};

use block_queue::{Opened, PutAnswer, PutSeat, Queue, TakeAnswer, TakeSeat};
use std::alloc::Global;
use std::mem;
use std::process::Abort;
use std::sync::Wait;
use sync_base::{Fault, Piece, Probe};

/// A call of one of the seats: of writer 0 or 1, or of the reader.
#[derive(Clone, Copy)]
pub enum Call {
    /// A block of these bytes.
    Put(u64, &'static [u8]),
    HangPut,
    Take,
    HangTake,
}

/// The answer to a call.
#[derive(Clone, Copy)]
pub enum Reply {
    /// The number of the block.
    Taken(u64),
    /// The block comes back; the last that was taken out had this number.
    Full(u64),
    /// The block comes back.
    Hungup,
    Worn,
    /// A block's writer, its number and its bytes.
    Block(u64, u64, &'static [u8]),
    /// The last block that was taken out had this number.
    NotYet(u64),
    End,
    Hung,
}

use Call::{HangPut, HangTake, Put, Take};
use Reply::{Block, End, Full, Hung, Hungup, NotYet, Taken, Worn};

/// A call of another seat at a point, with its answer.
#[derive(Clone, Copy)]
pub struct Act(pub u64, pub Call, pub Reply);

/// A call with its answer.
#[derive(Clone, Copy)]
pub enum Line {
    Plain(Call, Reply),
    /// What is called at the first visit of a point, and all points that are passed, in order.
    Probed(&'static [Act], Call, Reply, &'static [u64]),
}

use Line::{Plain, Probed};

/// A queue with two writers, and the calls of its seats.
#[derive(Clone, Copy)]
pub struct Case {
    pub limit: u64,
    /// How many blocks were counted before.
    pub first: u64,
    pub lines: &'static [Line],
}

/// A block of these bytes.
pub fn block_of(alloc: Global, bytes: &[u8]) -> Option<Piece> {
    match bytes.to_vec(alloc) {
        Ok(bytes) => Some(Piece::of(bytes)),
        Err(_) => match bytes.to_vec(alloc) {
            Ok(bytes) => Some(Piece::of(bytes)),
            Err(_) => None,
        },
    }
}

/// Whether a put of these bytes got this answer.
pub fn is_put(answer: &PutAnswer, bytes: &[u8], wanted: Reply) -> bool {
    match (answer, wanted) {
        (PutAnswer::Taken(number), Taken(count)) => *number == count,
        (PutAnswer::Full(block, last), Full(count)) => *last == count && block.as_slice() == bytes,
        (PutAnswer::Hungup(block), Hungup) => block.as_slice() == bytes,
        (PutAnswer::Worn(block), Worn) => block.as_slice() == bytes,
        _ => false,
    }
}

/// Whether a take got this answer.
pub fn is_take(answer: &TakeAnswer, wanted: Reply) -> bool {
    match (answer, wanted) {
        (TakeAnswer::Block(block, by, number), Block(writer, count, bytes)) => {
            *by == writer && *number == count && block.as_slice() == bytes
        }
        (TakeAnswer::NotYet(last), NotYet(number)) => *last == number,
        (TakeAnswer::End, End) => true,
        _ => false,
    }
}

/// A writer's seat at its queue.
#[derive(Drop)]
struct Writer<'q> {
    queue: &'q Queue,
    seat: PutSeat,
    ghost seat_is: { IsPutSeatOf queue.now seat },
}

impl Writer<'_> {
    // A put that tells this probe its points.
    fn put_probed<R: Wait, P: Probe>(&mut self, rt: &R, block: Piece, probe: &mut P) -> PutAnswer {
        self.queue.put_probed(rt, &mut self.seat, block, probe)
    }
}

// A put of these bytes by a writer that is not away. Whether it was answered so.
fn puts<R: Wait>(
    rt: &R,
    alloc: Global,
    writer: &mut Option<Writer<'_>>,
    bytes: &[u8],
    wanted: Reply,
) -> bool {
    let Some(writer) = writer else {
        return false;
    };
    match block_of(alloc, bytes) {
        Some(block) => is_put(
            &writer.queue.put(rt, &mut writer.seat, block),
            bytes,
            wanted,
        ),
        None => false,
    }
}

// Hangs up by a writer that is not away. Whether that is what was wanted.
fn hangs_put(writer: &mut Option<Writer<'_>>, wanted: Reply) -> bool {
    let Some(writer) = writer else {
        return false;
    };
    writer.queue.hang_put(&mut writer.seat);
    matches!(wanted, Hung)
}

/// The reader's seat at its queue.
#[derive(Drop)]
struct Reader<'q> {
    queue: &'q Queue,
    seat: TakeSeat,
    ghost seat_is: { IsTakeSeatOf queue.now seat },
}

impl Reader<'_> {
    // A take that tells this probe its points.
    fn take_probed<P: Probe>(&mut self, probe: &mut P) -> TakeAnswer {
        self.queue.take_probed(&mut self.seat, probe)
    }
}

// A take by the reader, if it is not away. Whether it was answered so.
fn takes(reader: &mut Option<Reader<'_>>, wanted: Reply) -> bool {
    match reader {
        Some(reader) => is_take(&reader.queue.take(&mut reader.seat), wanted),
        None => false,
    }
}

// Hangs up by the reader, if it is not away. Whether that is what was wanted.
fn hangs_take(reader: &mut Option<Reader<'_>>, wanted: Reply) -> bool {
    let Some(reader) = reader else {
        return false;
    };
    reader.queue.hang_take(&mut reader.seat);
    matches!(wanted, Hung)
}

// Puts a value in the place of another.
fn set<T: Drop>(place: &mut T, value: T) {
    let _gone = mem::replace(place, value);
}

/// The seats of a queue with two writers. One of them may be away in a call.
#[derive(Drop)]
pub struct Seats<'q> {
    reader: Option<Reader<'q>>,
    first: Option<Writer<'q>>,
    second: Option<Writer<'q>>,
}

impl<'q> Seats<'q> {
    /// Makes a call, and none at its points. Returns whether it got its answer.
    pub fn call<R: Wait>(&mut self, rt: &R, alloc: Global, call: Call, wanted: Reply) -> bool {
        match call {
            Put(0, bytes) => puts(rt, alloc, &mut self.first, bytes, wanted),
            Put(_, bytes) => puts(rt, alloc, &mut self.second, bytes, wanted),
            HangPut => hangs_put(&mut self.first, wanted),
            Take => takes(&mut self.reader, wanted),
            HangTake => hangs_take(&mut self.reader, wanted),
        }
    }

    /// Makes a call of writer 0 or of the reader, and these calls at its points. Returns whether
    /// all got their answers, and just these points were passed.
    pub fn probed<R: Wait>(
        &mut self,
        rt: &R,
        alloc: Global,
        acts: &[Act],
        call: Call,
        wanted: Reply,
        points: &[u64],
    ) -> bool {
        match call {
            Put(0, bytes) => self.put_probed(rt, alloc, acts, bytes, wanted, points),
            Take => self.take_probed(rt, alloc, acts, wanted, points),
            _ => false,
        }
    }

    // The same of a put.
    fn put_probed<R: Wait>(
        &mut self,
        rt: &R,
        alloc: Global,
        acts: &[Act],
        bytes: &[u8],
        wanted: Reply,
        points: &[u64],
    ) -> bool {
        let (Some(mut writer), Some(block)) = (self.first.take(), block_of(alloc, bytes)) else {
            return false;
        };
        let mut probe = Points::of(rt, alloc, self, acts);
        let answer = writer.put_probed(rt, block, &mut probe);
        let are_so = probe.are(points);
        set(&mut self.first, Some(writer));
        are_so && is_put(&answer, bytes, wanted)
    }

    // The same of a take.
    fn take_probed<R: Wait>(
        &mut self,
        rt: &R,
        alloc: Global,
        acts: &[Act],
        wanted: Reply,
        points: &[u64],
    ) -> bool {
        let Some(mut reader) = self.reader.take() else {
            return false;
        };
        let mut probe = Points::of(rt, alloc, self, acts);
        let answer = reader.take_probed(&mut probe);
        let are_so = probe.are(points);
        set(&mut self.reader, Some(reader));
        are_so && is_take(&answer, wanted)
    }
}

/// Each call here passes fewer points.
const MOST: usize = 12;

/// The points that a call has passed, and the answers to the calls at them.
#[derive(Drop)]
struct Points<'s, 'q, 'r, R: Wait> {
    rt: &'r R,
    alloc: Global,
    seats: &'s mut Seats<'q>,
    acts: &'r [Act],
    passed: [u64; MOST],
    count: usize,
    good: bool,
}

impl<'s, 'q, 'r, R: Wait> Points<'s, 'q, 'r, R> {
    fn of(
        rt: &'r R,
        alloc: Global,
        seats: &'s mut Seats<'q>,
        acts: &'r [Act],
    ) -> Points<'s, 'q, 'r, R> {
        Points {
            rt,
            alloc,
            seats,
            acts,
            passed: [0; MOST],
            count: 0,
            good: true,
        }
    }

    // Whether just these were passed, and each call was answered as it is to be.
    fn are(&self, points: &[u64]) -> bool {
        let mut good = self.good && self.count == points.len() && self.count <= MOST;
        for (at, point) in points.iter().enumerate() {
            good = good && at < MOST && self.passed[at] == *point;
        }
        for act in self.acts.iter() {
            good = good && points.contains(&act.0);
        }
        good
    }
}

impl<R: Wait> Probe for Points<'_, '_, '_, R> {
    // Calls what comes at the first visit of this point.
    fn at(&mut self, point: u64) {
        let is_first = !self.passed.contains(&point);
        if self.count < MOST {
            self.passed[self.count] = point;
        }
        self.count = self.count.saturating_add(1);
        for act in self.acts.iter() {
            if is_first && act.0 == point {
                let is_so = self.seats.call(self.rt, self.alloc, act.1, act.2);
                self.good = self.good && is_so;
            }
        }
    }
}

// A queue of this limit, in which so many blocks were counted before, or that `Queue::new` makes.
fn made(alloc: Global, limit: u64, writers: u64, first: Option<u64>) -> Result<Opened, Fault>
    ensures take { IfOk result (λ opened. IsTakeSeatOf opened.queue opened.take) }
    ensures puts { IfOk result (λ opened.
        AllByRecursion (IsPutSeatOf opened.queue) opened.puts.items) }
    ensures all { IfOk result (λ opened. AreAllSeats opened.take opened.puts.items) }
{
    match first {
        Some(first) => match Queue::new_from(alloc, limit, writers, first) {
            Ok(opened) => Ok(opened),
            Err(fault) => Err(fault),
        },
        None => match Queue::new(alloc, limit, writers) {
            Ok(opened) => Ok(opened),
            Err(fault) => Err(fault),
        },
    }
}

/// The same. Where memory is refused it is asked for once more.
pub fn opened(
    rt: &impl Abort,
    alloc: Global,
    limit: u64,
    writers: u64,
    first: Option<u64>,
) -> Opened
    ensures take { IsTakeSeatOf result.queue result.take }
    ensures puts { AllByRecursion (IsPutSeatOf result.queue) result.puts.items }
    ensures all { AreAllSeats result.take result.puts.items }
{
    let opened = match made(alloc, limit, writers, first) {
        Err(Fault::Memory) => made(alloc, limit, writers, first),
        opened => opened,
    };
    opened.expect(rt, "no queue")
}

/// The seats of a queue with two writers.
pub fn seats_of<'q>(queue: &'q Queue, take: TakeSeat, mut puts: Vec<PutSeat>) -> Seats<'q>
    requires take { IsTakeSeatOf queue.now take }
    requires puts { AllByRecursion (IsPutSeatOf queue.now) puts.items }
{
    let mut seats = Seats {
        reader: Some(Reader { queue, seat: take }),
        first: None,
        second: None,
    };
    if let Some(seat) = puts.pop() {
        seats.second = Some(Writer { queue, seat });
    }
    if let Some(seat) = puts.pop() {
        seats.first = Some(Writer { queue, seat });
    }
    seats
}

/// Plays each case on a queue of its own.
pub fn play<R: Wait + Abort>(rt: &R, alloc: Global, cases: &[Case]) {
    for (number, case) in cases.iter().enumerate() {
        play_case(rt, alloc, case, number);
    }
}

fn play_case<R: Wait + Abort>(rt: &R, alloc: Global, case: &Case, number: usize) {
    let Opened { queue, take, puts } = opened(rt, alloc, case.limit, 2, Some(case.first));
    let mut seats = seats_of(&queue, take, puts);
    play_lines(rt, alloc, &mut seats, case.lines, number);
}

/// Plays the lines of the case of this number.
pub fn play_lines<R: Wait + Abort>(
    rt: &R,
    alloc: Global,
    seats: &mut Seats<'_>,
    lines: &[Line],
    number: usize,
) {
    for (at, line) in lines.iter().enumerate() {
        let is_so = match *line {
            Plain(call, wanted) => seats.call(rt, alloc, call, wanted),
            Probed(acts, call, wanted, points) => {
                seats.probed(rt, alloc, acts, call, wanted, points)
            }
        };
        assert!(rt; is_so, "line {at} of case {number}");
    }
}
