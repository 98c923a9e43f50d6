//! Many pipes by one call: what each takes, in both modes, and each refusal.
ghost use Rattle.std.specs.Prelude.{IfOk};
ghost use Rattle.plan9.specs.Pipes.{AreStartsOf};

use crate::kernels::kernel_of;
use plan9::{
    Ends, Fault, OpenedKernel, OpenedPipes, Parts, Pipes, Proc, ReadAnswer, ReadEnd, Roster,
    Started, WriteEnd,
};
use std::alloc::Global;
use std::process::Abort;
use std::sync::Wait;

/// How many pipes there are, and how many writers each of their directions has.
const PIPES: u64 = 3;

const WRITERS: u64 = 2;

/// How many Rendez they take.
const TAKEN: u64 = PIPES * 2 * (1 + WRITERS);

/// How many Rendez the kernel has: enough for all, however often memory is refused on the way.
const RENDEZ: u64 = 8 * TAKEN;

// The pipes, in stream mode or not; where memory is refused they are asked for once more.
fn pipes_of<'p>(
    rt: &impl Abort,
    alloc: Global,
    roster: &mut Roster<'_>,
    is_stream: bool,
) -> OpenedPipes<'p>
    ensures start { AreStartsOf result.pipes result.start }
{
    let made = match made(alloc, roster, is_stream) {
        Err(Fault::Memory) => made(alloc, roster, is_stream),
        made => made,
    };
    made.expect(rt, "no pipes")
}

fn made<'p>(
    alloc: Global,
    roster: &mut Roster<'_>,
    is_stream: bool,
) -> Result<OpenedPipes<'p>, Fault>
    ensures start { IfOk result (λ opened. AreStartsOf opened.pipes opened.start) }
{
    if is_stream {
        Pipes::new_stream(alloc, roster, PIPES, 4, WRITERS)
    } else {
        Pipes::new(alloc, roster, PIPES, 4, WRITERS)
    }
}

// Whether a write went well, once more where memory was refused.
fn wrote<R: Wait>(
    rt: &R,
    alloc: Global,
    proc: &mut Proc<'_>,
    end: &mut WriteEnd<'_>,
    bytes: &[u8],
) -> bool {
    match end.write(alloc, rt, proc, bytes) {
        Err(Fault::Memory) => end.write(alloc, rt, proc, bytes).is_ok(),
        answer => answer.is_ok(),
    }
}

// What each writer of the second end writes is read at the first, and at no other pipe: in stream
// mode by one read, and else by one read each.
fn pass<R: Wait + Abort>(
    rt: &R,
    alloc: Global,
    proc: &mut Proc<'_>,
    read: &mut ReadEnd<'_>,
    writes: &mut [WriteEnd<'_>],
    number: u8,
    is_stream: bool,
) {
    assert_eq!(rt; writes.len() as u64, WRITERS);
    for end in writes.iter_mut() {
        assert!(rt; wrote(rt, alloc, proc, end, &[number]));
    }
    let mut buffer = [0; 8];
    let count = if is_stream { 2 } else { 1 };
    for _ in 0..WRITERS as usize / count {
        let came = read.read(rt, proc, &mut buffer);
        assert_eq!(rt; came, Ok(ReadAnswer::Got(count)));
        assert_eq!(rt; buffer[0], number);
    }
}

// Both directions of each pipe.
fn pass_all<R: Wait + Abort>(
    rt: &R,
    alloc: Global,
    proc: &mut Proc<'_>,
    ends: Vec<Ends<'_>>,
    is_stream: bool,
) {
    assert_eq!(rt; ends.len() as u64, PIPES);
    let mut number = 0u8;
    for Ends { first, second } in ends {
        let Parts {
            mut read,
            mut writes,
        } = first.parts();
        let Parts {
            read: mut other,
            writes: mut others,
        } = second.parts();
        number = number.wrapping_add(1);
        pass(
            rt,
            alloc,
            proc,
            &mut read,
            others.as_mut_slice(),
            number,
            is_stream,
        );
        number = number.wrapping_add(1);
        pass(
            rt,
            alloc,
            proc,
            &mut other,
            writes.as_mut_slice(),
            number,
            is_stream,
        );
    }
}

#[test]
fn what_is_written_into_one_of_many_is_read_there(rt: HostRuntime) {
    for is_stream in [false, true] {
        let OpenedKernel { kernel, start } = kernel_of(&rt, rt.alloc(), 1, RENDEZ);
        let Started {
            mut roster,
            mut proc,
        } = kernel.start(start);
        let OpenedPipes { pipes, start } = pipes_of(&rt, rt.alloc(), &mut roster, is_stream);
        pass_all(&rt, rt.alloc(), &mut proc, pipes.ends(start), is_stream);
    }
}

// What is asked for so is refused so, and no Rendez is used up.
fn is_refused(
    rt: &impl Abort,
    alloc: Global,
    roster: &mut Roster<'_>,
    sizes: [u64; 3],
    wanted: Fault,
) {
    let left = roster.left();
    let [count, limit, writers] = sizes;
    let made = Pipes::new(alloc, roster, count, limit, writers);
    assert_eq!(rt; made.err(), Some(wanted));
    let made = Pipes::new_stream(alloc, roster, count, limit, writers);
    assert_eq!(rt; made.err(), Some(wanted));
    assert_eq!(rt; roster.left(), left);
}

// The size is tested first, also of no pipes, and then whether there are Rendez for all.
fn are_refused_in_order(rt: &impl Abort, alloc: Global, roster: &mut Roster<'_>) {
    is_refused(rt, alloc, roster, [0, 0, 1], Fault::BadSize);
    is_refused(rt, alloc, roster, [u64::MAX, 1, 65], Fault::BadSize);
    is_refused(rt, alloc, roster, [PIPES + 1, 4, WRITERS], Fault::NoRendez);
    is_refused(rt, alloc, roster, [u64::MAX, 4, WRITERS], Fault::NoRendez);
}

#[test]
fn many_pipes_are_refused_in_order(rt: HostRuntime) {
    let OpenedKernel { kernel, start } = kernel_of(&rt, rt.alloc(), 1, TAKEN);
    let mut roster = kernel.start(start).roster;
    are_refused_in_order(&rt, rt.alloc(), &mut roster);
    let Ok(OpenedPipes { pipes, start }) = made(rt.alloc(), &mut roster, false) else {
        // Memory was refused, and then there are no Rendez for all any more.
        return;
    };
    assert_eq!(rt; roster.left(), (0, 0));
    assert_eq!(rt; pipes.ends(start).len() as u64, PIPES);
}
