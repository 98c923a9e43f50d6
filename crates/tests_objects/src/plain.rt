//! Printed texts, what a plain pipe holds that was refused memory, and the room of a peek.
use std::alloc::Global;
use std::process::Abort;
use sync_base::{Fault, Mode, NoteSet, PeekAnswer, PlainPipe, ReadAnswer, WriteAnswer};

fn text_is(rt: &impl Abort, alloc: Global, fault: Fault, text: &str) -> bool {
    let found = fault.to_string(alloc).expect(rt, "no memory for a text");
    found.as_str() == text
}

// Faults with their texts, by their numbers.
fn are_in_order(rt: &impl Abort, alloc: Global, faults: &[(Fault, &str)]) {
    for (at, (fault, text)) in faults.iter().enumerate() {
        assert!(rt; text_is(rt, alloc, *fault, text), "{text}");
        assert_eq!(rt; fault.number(), (at as u64).wrapping_add(1), "{text}");
    }
}

#[test]
fn faults_have_their_texts_and_numbers(rt: HostRuntime) {
    let faults = [
        (Fault::Memory, "out of memory"),
        (Fault::Interrupted(NoteSet::empty()), "interrupted"),
        (Fault::Hungup, "i/o on hungup channel"),
        (Fault::TooBig, "write too big"),
        (Fault::DoubleSleep, "double sleep"),
        (Fault::BadArg, "bad argument"),
        (Fault::BadLevel, "bad level"),
        (Fault::BadCount, "bad count"),
        (Fault::BadSize, "bad size"),
        (Fault::Worn, "number worn out"),
        (Fault::NoProc, "no such process"),
        (Fault::NoRendez, "no such rendez"),
        (Fault::BadFlags, "bad flags"),
        (Fault::Script(7), "script fault at line 7"),
        (Fault::TimedOut, "timed out"),
        (Fault::Device, "device fault"),
    ];
    are_in_order(&rt, rt.alloc(), &faults);
}

fn made(alloc: Global, mode: Mode, limit: u64) -> Result<PlainPipe, Fault> {
    match mode {
        Mode::Message => PlainPipe::new(alloc, limit),
        Mode::Stream => PlainPipe::new_stream(alloc, limit),
    }
}

/// A pipe. It is asked for once more where memory is refused.
fn pipe_of(rt: &impl Abort, alloc: Global, mode: Mode, limit: u64) -> PlainPipe {
    let pipe = match made(alloc, mode, limit) {
        Err(Fault::Memory) => made(alloc, mode, limit),
        pipe => pipe,
    };
    pipe.expect(rt, "no pipe")
}

/// What is asked of a pipe, and what it answers.
#[derive(Clone, Copy)]
enum Step<'b> {
    Takes(&'b [u8]),
    IsFull,
    Gives(&'b [u8]),
    IsEmpty,
}

fn write(pipe: &mut PlainPipe, bytes: &[u8]) -> Result<WriteAnswer, Fault> {
    match pipe.write(0, bytes) {
        Err(Fault::Memory) => pipe.write(0, bytes),
        answer => answer,
    }
}

// Whether this is what a read gives, once more where memory is refused; `None` is nothing.
fn gives(pipe: &mut PlainPipe, bytes: Option<&[u8]>) -> bool {
    match is_piece(pipe.read(200), bytes) {
        Some(is_so) => is_so,
        None => is_piece(pipe.read(200), bytes) == Some(true),
    }
}

// No answer where memory is refused.
fn is_piece(answer: Result<ReadAnswer, Fault>, bytes: Option<&[u8]>) -> Option<bool> {
    match (answer, bytes) {
        (Err(Fault::Memory), _) => None,
        (Ok(ReadAnswer::Got(piece)), Some(bytes)) => Some(piece.as_slice() == bytes),
        (Ok(ReadAnswer::Empty), None) => Some(true),
        _ => Some(false),
    }
}

fn step_is(pipe: &mut PlainPipe, step: Step<'_>) -> bool {
    match step {
        Step::Takes(bytes) => write(pipe, bytes) == Ok(WriteAnswer::Taken),
        Step::IsFull => write(pipe, b"d") == Ok(WriteAnswer::Full),
        Step::Gives(bytes) => gives(pipe, Some(bytes)),
        Step::IsEmpty => gives(pipe, None),
    }
}

fn take_steps(rt: &impl Abort, pipe: &mut PlainPipe, steps: &[Step<'_>]) {
    for (at, step) in steps.iter().enumerate() {
        assert!(rt; step_is(pipe, *step), "step {at}");
    }
}

#[test]
fn a_pipe_that_is_refused_memory_is_as_before(rt: HostRuntime) {
    let mut pipe = pipe_of(&rt, rt.alloc(), Mode::Message, 2);
    // The block of the write that was read is too small for the next.
    let steps = [
        Step::Takes(b"a"),
        Step::Gives(b"a"),
        Step::Takes(&[7; 100]),
        Step::Takes(b"bc"),
        Step::IsFull,
        Step::Gives(&[7; 100]),
        Step::Gives(b"bc"),
        Step::IsEmpty,
    ];
    take_steps(&rt, &mut pipe, &steps);
}

#[test]
fn a_stream_that_is_refused_memory_is_as_before(rt: HostRuntime) {
    let mut pipe = pipe_of(&rt, rt.alloc(), Mode::Stream, 3);
    let steps = [
        Step::Takes(b""),
        Step::Takes(b"ab"),
        Step::Takes(b"cd"),
        Step::IsFull,
        Step::Gives(b"abcd"),
        Step::IsEmpty,
    ];
    take_steps(&rt, &mut pipe, &steps);
}

// Whether a peek of so many bytes gives these, or is refused where there are none.
fn shows(pipe: &PlainPipe, room: &mut Vec<u8>, most: u64, bytes: &[u8]) -> bool {
    match pipe.peek(most, room) {
        Ok(PeekAnswer::Got(got)) => got == bytes,
        Ok(_) => false,
        Err(fault) => fault == Fault::BadCount && bytes.is_empty(),
    }
}

// A vector of these bytes.
fn room_of(rt: &impl Abort, alloc: Global, bytes: &[u8]) -> Vec<u8> {
    let room = match bytes.to_vec(alloc) {
        Err(_) => bytes.to_vec(alloc),
        room => room,
    };
    room.expect(rt, "no room")
}

#[test]
fn a_peek_of_one_write_leaves_its_room_alone(rt: HostRuntime) {
    let mut pipe = pipe_of(&rt, rt.alloc(), Mode::Message, 2);
    take_steps(&rt, &mut pipe, &[Step::Takes(b"abc"), Step::Takes(b"d")]);
    let mut room = room_of(&rt, rt.alloc(), b"room");
    let mut is_so = shows(&pipe, &mut room, 8, b"abc");
    is_so = is_so && shows(&pipe, &mut room, 2, b"ab") && shows(&pipe, &mut room, 0, b"");
    assert!(rt; is_so && room.as_slice() == b"room".as_slice());
}
