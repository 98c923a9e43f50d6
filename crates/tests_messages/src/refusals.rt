//! What each call answers where one process alone calls: sizes, room and values that are not there,
//! hangups, notes, handles that are used up, and a process of another kernel.
use crate::scenes::{Letter, ends_of, kernel_of, queue_of};
use messages::{Ends, Messages, Received, Receiver, Sender, TryReceived, TrySent};
use sleep_wakeup::{Opened, Proc, Roster, Started};
use std::alloc::Global;
use std::process::Abort;
use std::sync::Wait;
use sync_base::{Fault, Note, NoteSet};

/// A capacity, a number of handles, and the refusal of a queue of these.
const SIZES: [(u64, u64, Fault); 7] = [
    (0, 2, Fault::BadSize),
    (1_048_577, 2, Fault::BadSize),
    (1, 0, Fault::BadSize),
    (1, 1, Fault::BadSize),
    (1, 1_025, Fault::BadSize),
    (1, 1_024, Fault::NoRendez),
    (1, 8, Fault::NoRendez),
];

fn refusal_of(
    alloc: Global,
    roster: &mut Roster<'_>,
    capacity: u64,
    handles: u64,
) -> Option<Fault> {
    let made: Result<Messages<Letter>, Fault> = Messages::new(alloc, roster, capacity, handles);
    made.err()
}

#[test]
fn sizes_out_of_range_are_refused(rt: HostRuntime) {
    let Opened { kernel, start } = kernel_of(&rt, rt.alloc(), 1, 7);
    let Started {
        mut roster,
        proc: _,
    } = kernel.start(start);
    for (capacity, handles, fault) in SIZES {
        assert_eq!(rt;
            refusal_of(rt.alloc(), &mut roster, capacity, handles),
            Some(fault)
        );
        assert_eq!(rt; roster.left().1, 7);
    }
    let mut queue = queue_of(&rt, rt.alloc(), &mut roster, 1_048_576, 2);
    assert!(rt; queue.ends(&rt).is_ok());
    assert_eq!(rt; queue.ends(&rt).err(), Some(Fault::NoProc));
}

/// A step of a process that has both ends.
#[derive(Clone, Copy, Drop)]
enum Step {
    Send(u64),
    TrySend(u64),
    Receive,
    TryReceive,
    Hangup,
    /// Posts an interrupt to itself.
    Interrupt,
    /// Takes its notes.
    Notes,
    /// Counts the values and the room, by both ends.
    Count,
}

/// What a step answers.
#[derive(Clone, Copy, Debug, PartialEq, Eq)]
enum Answer {
    Done,
    NotNow(u64),
    Value(u64),
    Empty,
    End,
    Back(u64, Fault),
    Refused(Fault),
    Noted(NoteSet),
    /// So many values, and room for so many more.
    Counted(u64, u64),
    /// The two ends count otherwise.
    Odd,
}

fn letter(number: u64) -> Letter {
    Letter { from: 0, number }
}

fn send_step<R: Wait>(
    rt: &R,
    sender: &mut Sender<'_, Letter>,
    proc: &mut Proc<'_>,
    number: u64,
) -> Answer {
    match sender.send(rt, proc, letter(number)) {
        Ok(()) => Answer::Done,
        Err(unsent) => Answer::Back(unsent.value.number, unsent.fault),
    }
}

fn try_send_step<R: Wait>(
    rt: &R,
    sender: &mut Sender<'_, Letter>,
    proc: &mut Proc<'_>,
    number: u64,
) -> Answer {
    match sender.try_send(rt, proc, letter(number)) {
        TrySent::Sent => Answer::Done,
        TrySent::Full(back) => Answer::NotNow(back.number),
        TrySent::Over(back) => Answer::Back(back.number, Fault::Hungup),
        TrySent::NoRendez(back) => Answer::Back(back.number, Fault::NoRendez),
    }
}

fn receive_step<R: Wait>(
    rt: &R,
    receiver: &mut Receiver<'_, Letter>,
    proc: &mut Proc<'_>,
) -> Answer {
    match receiver.receive(rt, proc) {
        Ok(Received::Value(letter)) => Answer::Value(letter.number),
        Ok(Received::End) => Answer::End,
        Err(fault) => Answer::Refused(fault),
    }
}

fn try_receive_step<R: Wait>(
    rt: &R,
    receiver: &mut Receiver<'_, Letter>,
    proc: &mut Proc<'_>,
) -> Answer {
    match receiver.try_receive(rt, proc) {
        Ok(TryReceived::Value(letter)) => Answer::Value(letter.number),
        Ok(TryReceived::NotNow) => Answer::Empty,
        Ok(TryReceived::End) => Answer::End,
        Err(fault) => Answer::Refused(fault),
    }
}

// The sender counts the values, and the receiver the room.
fn count_step<R: Wait>(rt: &R, ends: &mut Ends<'_, Letter>) -> Answer {
    let Ends { sender, receiver } = ends;
    let (values, room) = (sender.len(rt), receiver.room(rt));
    let is_same = receiver.len(rt) == values && sender.room(rt) == room;
    let is_empty = sender.is_empty(rt) == (values == 0) && receiver.is_empty(rt) == (values == 0);
    let is_full = sender.is_full(rt) == (room == 0) && receiver.is_full(rt) == (room == 0);
    if is_same && is_empty && is_full {
        Answer::Counted(values, room)
    } else {
        Answer::Odd
    }
}

fn step_by<R: Wait>(
    rt: &R,
    ends: &mut Ends<'_, Letter>,
    proc: &mut Proc<'_>,
    step: Step,
) -> Answer {
    if let Step::Count = step {
        return count_step(rt, ends);
    }
    let Ends { sender, receiver } = ends;
    match step {
        Step::Send(number) => send_step(rt, sender, proc, number),
        Step::TrySend(number) => try_send_step(rt, sender, proc, number),
        Step::Receive => receive_step(rt, receiver, proc),
        Step::TryReceive => try_receive_step(rt, receiver, proc),
        Step::Hangup => match receiver.hangup(rt, proc).and(sender.hangup(rt, proc)) {
            Ok(()) => Answer::Done,
            Err(fault) => Answer::Refused(fault),
        },
        Step::Interrupt => {
            proc.put_back(NoteSet::of(Note::Interrupt));
            Answer::Done
        }
        Step::Notes => Answer::Noted(proc.notes()),
        Step::Count => Answer::Odd,
    }
}

fn play<R: Wait + Abort>(
    rt: &R,
    ends: &mut Ends<'_, Letter>,
    proc: &mut Proc<'_>,
    table: &[(Step, Answer)],
) {
    for (number, (asked, wanted)) in table.iter().enumerate() {
        assert_eq!(rt; step_by(rt, ends, proc, *asked), *wanted, "step {number}");
    }
}

fn played<R: Wait + Abort>(rt: &R, alloc: Global, table: &[(Step, Answer)]) {
    let Opened { kernel, start } = kernel_of(rt, alloc, 1, 8);
    let mut started = kernel.start(start);
    let mut queue = queue_of(rt, alloc, &mut started.roster, 2, 2);
    let mut ends = ends_of(rt, &mut queue);
    play(rt, &mut ends, &mut started.proc, table);
}

#[test]
fn each_call_answers_as_its_page_says(rt: HostRuntime) {
    let interrupted = Fault::Interrupted(NoteSet::of(Note::Interrupt));
    let table = [
        (Step::TryReceive, Answer::Empty),
        (Step::Count, Answer::Counted(0, 2)),
        (Step::Send(1), Answer::Done),
        (Step::Count, Answer::Counted(1, 1)),
        (Step::TrySend(2), Answer::Done),
        (Step::Count, Answer::Counted(2, 0)),
        (Step::TrySend(3), Answer::NotNow(3)),
        (Step::Interrupt, Answer::Done),
        (Step::Send(4), Answer::Back(4, interrupted)),
        (Step::Notes, Answer::Noted(NoteSet::empty())),
        (Step::Receive, Answer::Value(1)),
        (Step::TryReceive, Answer::Value(2)),
        (Step::Interrupt, Answer::Done),
        (Step::Receive, Answer::Refused(interrupted)),
        (Step::Interrupt, Answer::Done),
        (Step::Send(5), Answer::Done),
        (Step::Receive, Answer::Value(5)),
        (Step::Notes, Answer::Noted(NoteSet::of(Note::Interrupt))),
    ];
    played(&rt, rt.alloc(), table.as_slice());
}

#[test]
fn a_hangup_ends_each_call_after_what_was_accepted(rt: HostRuntime) {
    let nothing = Answer::Noted(NoteSet::empty());
    let table = [
        (Step::Send(1), Answer::Done),
        (Step::Send(2), Answer::Done),
        (Step::Hangup, Answer::Done),
        (Step::Send(3), Answer::Back(3, Fault::Hungup)),
        (Step::Notes, nothing),
        (Step::TrySend(4), Answer::Back(4, Fault::Hungup)),
        (Step::Receive, Answer::Value(1)),
        (Step::Notes, nothing),
        (Step::Send(5), Answer::Back(5, Fault::Hungup)),
        (Step::Hangup, Answer::Done),
        (Step::TryReceive, Answer::Value(2)),
        (Step::TryReceive, Answer::End),
        (Step::Receive, Answer::End),
        (Step::Receive, Answer::End),
        (Step::Receive, Answer::End),
        (Step::Send(6), Answer::Back(6, Fault::Hungup)),
    ];
    played(&rt, rt.alloc(), table.as_slice());
}

// Calls by a process of a kernel with too few Rendez: nothing is sent, received or hung up.
#[test]
fn a_process_of_another_kernel_is_refused(rt: HostRuntime) {
    let Opened { kernel, start } = kernel_of(&rt, rt.alloc(), 1, 8);
    let mut started = kernel.start(start);
    let strange = kernel_of(&rt, rt.alloc(), 1, 1);
    let Opened {
        kernel: other,
        start: begin,
    } = strange;
    let Started {
        roster: _,
        mut proc,
    } = other.start(begin);
    let mut queue = queue_of(&rt, rt.alloc(), &mut started.roster, 2, 2);
    let mut ends = ends_of(&rt, &mut queue);
    let refused = Answer::Refused(Fault::NoRendez);
    let calls = [
        (Step::Send(1), Answer::Back(1, Fault::NoRendez)),
        (Step::TrySend(2), Answer::Back(2, Fault::NoRendez)),
        (Step::Receive, refused),
        (Step::TryReceive, refused),
        (Step::Hangup, refused),
    ];
    play(&rt, &mut ends, &mut proc, calls.as_slice());
    let own = [
        (Step::TryReceive, Answer::Empty),
        (Step::Send(3), Answer::Done),
        (Step::Receive, Answer::Value(3)),
    ];
    play(&rt, &mut ends, &mut started.proc, own.as_slice());
}

// Both ends are given, so that no further handle is. The kernel has a Rendez for each handle of one
// queue.
#[test]
fn handles_run_out(rt: HostRuntime) {
    let Opened { kernel, start } = kernel_of(&rt, rt.alloc(), 1, 3);
    let mut started = kernel.start(start);
    let mut queue = queue_of(&rt, rt.alloc(), &mut started.roster, 1, 3);
    let Ends {
        mut sender,
        mut receiver,
    } = ends_of(&rt, &mut queue);
    let third = sender.split(&rt).expect(&rt, "no sender is left");
    assert!(rt; third.rendez() != sender.rendez());
    assert_eq!(rt; sender.split(&rt).err(), Some(Fault::NoProc));
    assert_eq!(rt; receiver.split(&rt).err(), Some(Fault::NoProc));
}
