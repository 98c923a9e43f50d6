//! The example of the manual page of pipes, line for line; what std's calls make of the two ends;
//! and two readers of one end, on threads of their own.
use crate::kernels::{forked, kernel_of};
use crate::pipes::{Writer, pipe_of};
use plan9::limits::ATOMIC_SIZE;
use plan9::{
    Ends, Fault, Note, NoteSet, OpenedKernel, OpenedPipe, Parts, Pid, Proc, ReadAnswer, ReadEnd,
    ReadStream, Roster, Share, SharedEnd, Started, WriteStream,
};
use std::alloc::Global;
use std::io::{ErrorKind, Read, Write};
use std::process::Abort;
use std::sync::Wait;
use std::thread::{Threads, join};

// A note ends a read, and is kept in `fault`. No room is no read, which would wait.
fn end_a_read_by_a_note<R: Wait + Abort>(
    rt: &R,
    from: &mut ReadStream<'_, '_, '_, R>,
    to: &mut WriteStream<'_, '_, '_, R>,
) {
    let alarm = NoteSet::of(Note::Alarm);
    let reader = from.proc.pid();
    assert_eq!(rt; to.proc.postnote(reader, alarm), Ok(()));
    let Err(error) = from.read(&mut [0; 4]) else {
        panic!(rt; "a note ends the wait")
    };
    assert_eq!(rt; error.kind(), ErrorKind::Other);
    assert_eq!(rt; from.fault, Some(Fault::Interrupted(alarm)));
    assert!(rt; matches!(from.read(&mut []), Ok(0)));
}

// No bytes are no read and no write, of a stream that no fault has come to.
fn read_and_write_no_bytes<R: Wait + Abort>(
    rt: &R,
    from: &mut ReadStream<'_, '_, '_, R>,
    to: &mut WriteStream<'_, '_, '_, R>,
) {
    assert!(rt; matches!(from.read(&mut []), Ok(0)));
    assert!(rt; matches!(to.write(&[]), Ok(0)));
}

// Seven bytes in two writes, and an empty one between them, which is no end.
fn write_all_of_it<R: Wait + Abort>(rt: &R, alloc: Global, to: &mut WriteStream<'_, '_, '_, R>) {
    assert!(rt; to.write_all(b"defg").is_ok());
    assert_eq!(rt; to.end.write(alloc, rt, &mut to.proc, &[]), Ok(2));
    assert!(rt; matches!(to.write(b"abc"), Ok(3)));
    to.end.hangup(&mut to.proc);
}

// All that was written is read to the end.
fn read_to_the_end<R: Wait + Abort>(rt: &R, alloc: Global, from: &mut ReadStream<'_, '_, '_, R>) {
    let mut all = Vec::new(alloc);
    assert!(rt; matches!(from.read_to_end(&mut all), Ok(7)));
    assert_eq!(rt; all.as_slice(), b"defgabc".as_slice());
    assert!(rt; matches!(from.read(&mut [0; 4]), Ok(0)));
}

// After a hangup nothing is taken any more, as by a pipe whose reader is gone.
fn write_after_the_hangup<R: Wait + Abort>(rt: &R, to: &mut WriteStream<'_, '_, '_, R>) {
    let Err(error) = to.write_all(b"abc") else {
        panic!(rt; "nothing is taken any more")
    };
    assert_eq!(rt; error.kind(), ErrorKind::BrokenPipe);
    assert_eq!(rt; to.fault, Some(Fault::Hungup));
}

/// A reader and the only writer of a direction.
#[derive(Drop)]
struct Pair<'p, 'k> {
    reader: ReadEnd<'p>,
    writer: Writer<'p, 'k>,
}

// The direction from the second end to the first.
fn pair_of<'p, 'k>(rt: &impl Abort, started: &mut Started<'k>, ends: Ends<'p>) -> Pair<'p, 'k> {
    let Ends { first, second } = ends;
    let Parts {
        read: reader,
        writes: _,
    } = first.parts();
    let Parts {
        read: _,
        mut writes,
    } = second.parts();
    let proc = forked(rt, started);
    match writes.pop() {
        Some(end) => Pair {
            reader,
            writer: Writer { end, proc },
        },
        None => panic!(rt; "an end has a writer"),
    }
}

// `tests/pages/manual_calls` compares it with the page.
#[test]
fn pipe_page(rt: HostRuntime) {
    let alloc = rt.alloc();
    let OpenedKernel { kernel, start } = kernel_of(&rt, alloc, 2, 4);
    let mut started = kernel.start(start);
    let OpenedPipe { pipe, start } = pipe_of(&rt, alloc, &mut started.roster, 2, 1);
    let Pair {
        reader: mut read,
        writer,
    } = pair_of(&rt, &mut started, pipe.ends(start));
    let Started {
        roster: _,
        proc: mut reader,
    } = started;
    let Writer {
        end: mut write,
        proc: mut writer,
    } = writer;
    let mut buffer = [0; 8];
    assert_eq!(rt; write.write(alloc, &rt, &mut writer, b"abc"), Ok(1));
    write.hangup(&mut writer);
    assert_eq!(rt;
        read.read(&rt, &mut reader, &mut buffer),
        Ok(ReadAnswer::Got(3))
    );
    assert_eq!(rt;
        read.read(&rt, &mut reader, &mut buffer),
        Ok(ReadAnswer::End)
    );
}

#[test]
fn std_reads_and_writes_a_pipe(rt: HostRuntime) {
    let alloc = rt.alloc();
    let OpenedKernel { kernel, start } = kernel_of(&rt, alloc, 2, 4);
    let mut started = kernel.start(start);
    let OpenedPipe { pipe, start } = pipe_of(&rt, alloc, &mut started.roster, 4, 1);
    let Pair { reader, writer } = pair_of(&rt, &mut started, pipe.ends(start));
    let Started { roster: _, proc } = started;
    let mut from = ReadStream::new(&rt, reader, proc);
    let Writer { end, proc } = writer;
    let mut to = WriteStream::new(alloc, &rt, end, proc);
    read_and_write_no_bytes(&rt, &mut from, &mut to);
    end_a_read_by_a_note(&rt, &mut from, &mut to);
    write_all_of_it(&rt, alloc, &mut to);
    read_to_the_end(&rt, alloc, &mut from);
    write_after_the_hangup(&rt, &mut to);
}

// Two writes take a byte more than the atomic size, and all of it is read.
fn write_more_than_one_takes<R: Wait + Abort>(
    rt: &R,
    alloc: Global,
    from: &mut ReadStream<'_, '_, '_, R>,
    to: &mut WriteStream<'_, '_, '_, R>,
) {
    let Ok(bytes) = vec![in alloc; 7; ATOMIC_SIZE as usize + 1] else {
        return;
    };
    assert!(rt; to.write_all(bytes.as_slice()).is_ok());
    assert_eq!(rt; to.end.write(alloc, rt, &mut to.proc, &[]), Ok(3));
    to.end.hangup(&mut to.proc);
    let mut buffer = [0; 8];
    let mut count = 0usize;
    for _ in rt.forever() {
        match from.read(&mut buffer) {
            Ok(0) => break,
            Ok(more) => count = count.saturating_add(more),
            Err(_) => panic!(rt; "no fault comes"),
        }
    }
    assert_eq!(rt; count, bytes.len());
}

#[test]
fn a_write_of_all_is_as_many_writes_as_it_takes(rt: HostRuntime) {
    let alloc = rt.alloc();
    let OpenedKernel { kernel, start } = kernel_of(&rt, alloc, 2, 4);
    let mut started = kernel.start(start);
    let OpenedPipe { pipe, start } = pipe_of(&rt, alloc, &mut started.roster, 4, 1);
    let Pair { reader, writer } = pair_of(&rt, &mut started, pipe.ends(start));
    let Started { roster: _, proc } = started;
    let mut from = ReadStream::new(&rt, reader, proc);
    let Writer { end, proc } = writer;
    let mut to = WriteStream::new(alloc, &rt, end, proc);
    write_more_than_one_takes(&rt, alloc, &mut from, &mut to);
}

/// A process with a share of a read end.
#[derive(Drop)]
struct Sharer<'s, 'p, 'k> {
    share: Share<'s, 'p>,
    proc: Proc<'k>,
}

// Reads to the end, and counts what comes: each read is one whole write of two bytes.
fn count_reads<R: Wait + Abort>(rt: &R, sharer: Sharer<'_, '_, '_>) -> u64 {
    let Sharer {
        mut share,
        mut proc,
    } = sharer;
    let mut buffer = [0; 4];
    let mut count = 0u64;
    for _ in rt.forever() {
        match share.read(rt, &mut proc, &mut buffer) {
            Ok(ReadAnswer::End) => break,
            answer => assert_eq!(rt; answer, Ok(ReadAnswer::Got(2))),
        }
        count = count.saturating_add(1);
    }
    count
}

// Writes a hundred pairs of bytes, and hangs up.
fn write_pairs<R: Wait + Abort>(rt: &R, alloc: Global, writer: Writer<'_, '_>) {
    let Writer { mut end, mut proc } = writer;
    for _ in 0..100 {
        assert!(rt; end.write(alloc, rt, &mut proc, b"ab").is_ok());
    }
    end.hangup(&mut proc);
}

// Each reads on a thread of its own, until both have come to the end.
fn read_at_once<'s, 'p, 'k, R: Threads + Wait + Abort + Sync>(
    rt: &R,
    one: Sharer<'s, 'p, 'k>,
    other: Sharer<'s, 'p, 'k>,
) -> u64 {
    let (first, second) = join(rt, || count_reads(rt, one), || count_reads(rt, other));
    first.saturating_add(second)
}

// Both read while a third writes: how many reads there were.
fn read_while_one_writes<'p, 'k, R: Threads + Wait + Abort + Sync>(
    rt: &R,
    alloc: Global,
    shared: &mut SharedEnd<'p>,
    mut started: Started<'k>,
    writer: Writer<'p, 'k>,
) -> u64 {
    let mut share = shared.share().expect(rt, "nobody had the first share");
    let other = Sharer {
        share: share.split(rt).expect(rt, "two may share"),
        proc: forked(rt, &mut started),
    };
    let one = Sharer {
        share,
        proc: started.proc,
    };
    let (count, ()) = join(
        rt,
        || read_at_once(rt, one, other),
        || write_pairs(rt, alloc, writer),
    );
    count
}

fn shared_of<'p>(
    rt: &impl Abort,
    alloc: Global,
    roster: &mut Roster<'_>,
    end: ReadEnd<'p>,
) -> SharedEnd<'p> {
    match SharedEnd::new(alloc, roster, end, 2) {
        Ok(shared) => shared,
        Err(_) => panic!(rt; "no turns"),
    }
}

// No write is torn and none is lost, and then the read end is one's own again.
#[test]
fn two_read_in_turn_and_tear_no_write(rt: HostRuntime) {
    let alloc = rt.alloc();
    let OpenedKernel { kernel, start } = kernel_of(&rt, alloc, 3, 8);
    let mut started = kernel.start(start);
    let OpenedPipe { pipe, start } = pipe_of(&rt, alloc, &mut started.roster, 4, 1);
    let Pair { reader, writer } = pair_of(&rt, &mut started, pipe.ends(start));
    let mut shared = shared_of(&rt, alloc, &mut started.roster, reader);
    let count = read_while_one_writes(&rt, alloc, &mut shared, started, writer);
    assert!(rt; count == 100 && shared.into_end().is_some());
}

// Each call by a process of a kernel with fewer Rendez is refused, and its notes are still pending;
// the share then serves a process that may read.
fn refuses_strangers<R: Wait + Abort>(
    rt: &R,
    alloc: Global,
    shared: &mut SharedEnd<'_>,
    mut proc: Proc<'_>,
    mut stranger: Proc<'_>,
) {
    let mut share = shared.share().expect(rt, "nobody had the first share");
    let alarm = NoteSet::of(Note::Alarm);
    let mut buffer = [7; 2];
    let mut block = Vec::new(alloc);
    assert_eq!(rt; stranger.postnote(Pid(0), alarm), Ok(()));
    let refused = Err(Fault::NoRendez);
    assert_eq!(rt; share.read(rt, &mut stranger, &mut buffer), refused);
    assert_eq!(rt; share.read_block(rt, &mut stranger, &mut block), refused);
    assert_eq!(rt;
        share.try_read(rt, &mut stranger, &mut buffer),
        Err(Fault::NoRendez)
    );
    assert_eq!(rt; (stranger.notes(), buffer), (alarm, [7; 2]));
    assert_eq!(rt; proc.postnote(Pid(0), alarm), Ok(()));
    assert_eq!(rt;
        share.read(rt, &mut proc, &mut buffer),
        Err(Fault::Interrupted(alarm))
    );
    drop(share);
    assert!(rt; !shared.has_share());
    assert_eq!(rt; shared.share().err(), Some(Fault::NoProc));
}

#[test]
fn a_process_of_another_kernel_reads_by_no_share(rt: HostRuntime) {
    let alloc = rt.alloc();
    let OpenedKernel { kernel, start } = kernel_of(&rt, alloc, 2, 8);
    let OpenedKernel {
        kernel: other,
        start: others,
    } = kernel_of(&rt, alloc, 1, 4);
    let stranger = other.start(others).proc;
    let mut started = kernel.start(start);
    let OpenedPipe { pipe, start } = pipe_of(&rt, alloc, &mut started.roster, 4, 1);
    let Pair { reader, writer: _ } = pair_of(&rt, &mut started, pipe.ends(start));
    let mut shared = shared_of(&rt, alloc, &mut started.roster, reader);
    refuses_strangers(&rt, alloc, &mut shared, started.proc, stranger);
    assert!(rt; shared.into_end().is_some());
}
