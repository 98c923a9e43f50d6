//! What each thing of a process makes of a call of its role: none of one that needs a seat at
//! timers which the process does not have.
use crate::caller::Means;
use plan9::{
    Fault, Long, Member, Pid, Probe, Proc, ReadCalls, ReadEnd, ReceiveCalls, Received, Receiver,
    RendezId, Seat, SendCalls, Sender, Share, ShortRead, Tag, TryReceived, TrySent, Unsent, Watch,
    WriteCalls, WriteEnd,
};
use scene_text::answer::{
    Answer, NOT_ITS_CALL, OK, done, have_piece, have_read, have_tried, have_written, numbered,
};
use scene_text::verbs::{Call, Deadline};
use std::alloc::Global;
use std::sync::Wait;

/// A call of a process alone: sleep(2) and postnote(2).
pub fn call_plain(
    rt: &impl Wait,
    proc: &mut Proc,
    means: &mut Means,
    call: Call,
    probe: &mut impl Probe,
) -> Option<Answer> {
    Some(match call {
        Call::Sleep(rendez, level) => {
            let slept = proc.sleep_probed(rt, RendezId(rendez), level, probe);
            done("woken", slept)
        }
        Call::SleepWithin(Deadline { now, ms }, rendez, level) => {
            let watch = means.watch.as_mut()?;
            let slept = watch.sleep_within(rt, proc, RendezId(rendez), level, now, ms);
            done("woken", slept)
        }
        Call::Tick(now) => {
            let watch = means.watch.as_mut()?;
            Answer::Number("expired", watch.tick(rt, proc, now))
        }
        _ => call_at_once(proc, call),
    })
}

/// The calls that never wait.
pub fn call_at_once(proc: &mut Proc, call: Call) -> Answer {
    match call {
        Call::Wakeup(rendez, level) => done("ok", proc.wakeup(RendezId(rendez), level)),
        Call::Note(pid, notes) => done("ok", proc.postnote(Pid(pid), notes)),
        Call::Notes => Answer::Notes("notes", proc.notes()),
        Call::PutBack(notes) => {
            proc.put_back(notes);
            OK
        }
        _ => NOT_ITS_CALL,
    }
}

/// A call at the read end of a direction.
pub fn call_reader(
    rt: &impl Wait,
    end: &mut ReadEnd,
    proc: &mut Proc,
    means: &mut Means,
    call: Call,
    probe: &mut impl Probe,
) -> Option<Answer> {
    let Means { bytes, watch, .. } = means;
    Some(match call {
        _ if !make_room(bytes, call) => Answer::Fault(Fault::Memory),
        Call::Read(_) => have_read(end.read(rt, proc, bytes.as_mut_slice())),
        Call::ReadWithin(Deadline { now, ms }, _) => {
            let watch = watch.as_mut()?;
            have_read(end.read_within(rt, proc, watch, now, ms, bytes.as_mut_slice()))
        }
        Call::TryRead(_) => have_tried(end.try_read(proc, bytes.as_mut_slice())),
        Call::ReadBlock => have_read(end.read_block(rt, proc, bytes)),
        Call::NextPiece(_) => have_piece(end.next_piece(rt, proc, bytes.as_mut_slice())),
        Call::ReadExact(_) => {
            let count = bytes.len();
            have_filled(end.read_exact(rt, proc, bytes.as_mut_slice()), count)
        }
        Call::Hangup => {
            end.hangup(proc);
            OK
        }
        _ => return call_plain(rt, proc, means, call, probe),
    })
}

// A buffer that is full, or how far it came.
fn have_filled(answer: Result<(), ShortRead>, count: usize) -> Answer {
    let Err(ShortRead { count, fault }) = answer else {
        return Answer::Bytes("got", count);
    };
    match fault {
        None => Answer::Bytes("short", count),
        Some(fault) => Answer::FaultAfter(fault, count as u64),
    }
}

// Makes room for the bytes of a read that says for how many. Whether there was memory.
fn make_room(bytes: &mut Vec<u8>, call: Call) -> bool {
    let Some(count) = call.room() else {
        return true;
    };
    bytes.clear();
    bytes.resize(count as usize, 0).is_ok()
}

/// A call at a write end of a direction.
pub fn call_writer(
    rt: &impl Wait,
    end: &mut WriteEnd,
    proc: &mut Proc,
    means: &mut Means,
    call: Call,
    probe: &mut impl Probe,
) -> Option<Answer> {
    let alloc = means.alloc;
    let bytes = means.bytes.as_slice();
    Some(match call {
        Call::Write => numbered("taken", end.write(alloc, rt, proc, bytes)),
        Call::WriteWithin(Deadline { now, ms }) => {
            let watch = means.watch.as_mut()?;
            let written = end.write_within(alloc, rt, proc, watch, now, ms, bytes);
            numbered("taken", written)
        }
        Call::WriteLong => have_written(write_on(rt, alloc, end, proc, bytes)),
        Call::Hangup => {
            end.hangup(proc);
            OK
        }
        _ => return call_plain(rt, proc, means, call, probe),
    })
}

// A long write. Where it finds no memory it goes on once more, after what was taken.
fn write_on(
    rt: &impl Wait,
    alloc: Global,
    end: &mut WriteEnd,
    proc: &mut Proc,
    bytes: &[u8],
) -> Long {
    let long = end.write_long(alloc, rt, proc, bytes);
    match bytes.get(long.taken as usize..) {
        Some(rest) if long.fault == Some(Fault::Memory) => {
            let again = end.write_long(alloc, rt, proc, rest);
            let taken = long.taken.saturating_add(again.taken);
            Long { taken, ..again }
        }
        _ => long,
    }
}

/// A call at a share of a read end.
pub fn call_sharer(
    rt: &impl Wait,
    share: &mut Share,
    proc: &mut Proc,
    bytes: &mut Vec<u8>,
    call: Call,
) -> Answer {
    match call {
        Call::Read(_) if !make_room(bytes, call) => Answer::Fault(Fault::Memory),
        Call::Read(_) => have_read(share.read(rt, proc, bytes.as_mut_slice())),
        _ => NOT_ITS_CALL,
    }
}

/// A call at a seat of a semaphore.
pub fn call_holder(
    rt: &impl Wait,
    seat: &mut Seat,
    proc: &mut Proc,
    means: &mut Means,
    call: Call,
    probe: &mut impl Probe,
) -> Option<Answer> {
    Some(match call {
        Call::Acquire => done("acquired", seat.acquire_probed(rt, proc, probe)),
        Call::TryAcquire => { have_tried_to_acquire(seat.try_acquire_probed(rt, proc, probe)) }
        Call::AcquireWithin(Deadline { now, ms }) => {
            let watch = means.watch.as_mut()?;
            let came = seat.acquire_within_probed(rt, proc, watch, now, ms, probe);
            done("acquired", came)
        }
        Call::Release(count) => numbered("value", seat.release(rt, proc, count).map(u64::from)),
        Call::Rendez => Answer::Number("rendez", seat.rendez().0),
        _ => call_at_once(proc, call),
    })
}

// Whether a unit came.
fn have_tried_to_acquire(answer: Result<bool, Fault>) -> Answer {
    match answer {
        Ok(true) => Answer::Word("acquired"),
        Ok(false) => Answer::Word("not now"),
        Err(fault) => Answer::Fault(fault),
    }
}

/// A call of a member of a tag space.
pub fn call_guest(
    rt: &impl Wait,
    member: &mut Member,
    proc: &mut Proc,
    means: &mut Means,
    call: Call,
    probe: &mut impl Probe,
) -> Option<Answer> {
    Some(match call {
        Call::Rendezvous(tag, value) => {
            numbered(
                "met",
                member.rendezvous_probed(rt, proc, Tag(tag), value, probe),
            )
        }
        Call::RendezvousWithin(Deadline { now, ms }, tag, value) => {
            let watch = means.watch.as_mut()?;
            let tag = Tag(tag);
            let met = member.rendezvous_within_probed(rt, proc, watch, now, ms, tag, value, probe);
            numbered("met", met)
        }
        Call::RendezvousWord(tag, value) => {
            numbered("met", member.rendezvous_word(rt, proc, Tag(tag), value))
        }
        Call::Rendez => Answer::Number("rendez", member.rendez().0),
        _ => call_at_once(proc, call),
    })
}

// ---- queues

/// A call by a sender of a queue.
pub fn call_sender(
    rt: &impl Wait,
    sender: &mut Sender<u64>,
    proc: &mut Proc,
    watch: &mut Option<Watch<'static>>,
    call: Call,
) -> Option<Answer> {
    Some(match call {
        Call::Send(value) => have_sent(sender.send(rt, proc, value)),
        Call::SendWithin(Deadline { now, ms }, value) => {
            let watch = watch.as_mut()?;
            have_sent(sender.send_within(rt, proc, watch, now, ms, value))
        }
        Call::TrySend(value) => have_tried_to_send(sender.try_send(rt, proc, value)),
        Call::Hangup => done("ok", sender.hangup(rt, proc)),
        Call::Rendez => Answer::Number("rendez", sender.rendez().0),
        _ => call_at_once(proc, call),
    })
}

// That a value was sent, or why not, with the value that came back.
fn have_sent(answer: Result<(), Unsent<u64>>) -> Answer {
    match answer {
        Ok(()) => Answer::Word("sent"),
        Err(Unsent { value, fault }) => Answer::FaultAfter(fault, value),
    }
}

// The same of a send that does not wait.
fn have_tried_to_send(answer: TrySent<u64>) -> Answer {
    match answer {
        TrySent::Sent => Answer::Word("sent"),
        TrySent::Full(value) => Answer::Number("not now", value),
        TrySent::Over(value) => Answer::FaultAfter(Fault::Hungup, value),
        TrySent::NoRendez(value) => Answer::FaultAfter(Fault::NoRendez, value),
    }
}

/// A call by a receiver of a queue.
pub fn call_receiver(
    rt: &impl Wait,
    receiver: &mut Receiver<u64>,
    proc: &mut Proc,
    watch: &mut Option<Watch<'static>>,
    call: Call,
) -> Option<Answer> {
    Some(match call {
        Call::Receive => have_received(receiver.receive(rt, proc)),
        Call::ReceiveWithin(Deadline { now, ms }) => {
            let watch = watch.as_mut()?;
            have_received(receiver.receive_within(rt, proc, watch, now, ms))
        }
        Call::TryReceive => have_tried_to_receive(receiver.try_receive(rt, proc)),
        Call::Hangup => done("ok", receiver.hangup(rt, proc)),
        Call::Rendez => Answer::Number("rendez", receiver.rendez().0),
        _ => call_at_once(proc, call),
    })
}

// The value that came, or the end.
fn have_received(answer: Result<Received<u64>, Fault>) -> Answer {
    match answer {
        Ok(Received::Value(value)) => Answer::Number("got", value),
        Ok(Received::End) => Answer::Word("end"),
        Err(fault) => Answer::Fault(fault),
    }
}

// The same of a receive that does not wait.
fn have_tried_to_receive(answer: Result<TryReceived<u64>, Fault>) -> Answer {
    match answer {
        Ok(TryReceived::Value(value)) => Answer::Number("got", value),
        Ok(TryReceived::NotNow) => Answer::Word("not now"),
        Ok(TryReceived::End) => Answer::Word("end"),
        Err(fault) => Answer::Fault(fault),
    }
}
