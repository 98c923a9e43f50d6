//! The sequential object of a queue of blocks under a lock, called by two seats.
ghost use Rattle.kernel_lock.specs.Seats.{IsSeatOf};

use block_queue::QueueObject;
use block_queue::queue_object::{QueueCall, QueueReply};
use kernel_lock::{LockSeat, Locked, Object, Opened};
use plan9::{Fault, Piece};
use std::alloc::{AllocFailed, Global};
use std::process::Abort;
use std::sync::Wait;

// A block of these bytes. Where memory was refused it is asked for once more.
fn block_of(rt: &impl Abort, alloc: Global, bytes: &[u8]) -> Piece {
    let made = match bytes.to_vec(alloc) {
        Err(_) => bytes.to_vec(alloc),
        made => made,
    };
    Piece::of(made.expect(rt, "no memory for a block"))
}

// Makes a call by the seat that it names, or by any where it names none.
fn asked<R: Wait>(
    rt: &R,
    lock: &Locked<QueueObject>,
    seat: &mut LockSeat<QueueObject>,
    call: QueueCall,
) -> Option<QueueReply>
    requires { IsSeatOf lock.now seat.old }
    ensures { IsSeatOf lock.now seat.new }
{
    match QueueObject::caller(&call) {
        Some(number) if number != seat.number() => None,
        _ => Some(lock.apply(rt, seat, call)),
    }
}

fn is_taken(reply: &Option<QueueReply>) -> bool {
    matches!(reply, Some(QueueReply::Taken(1)))
}

// Whether the second block comes back.
fn comes_back(reply: &Option<QueueReply>) -> bool {
    match reply {
        Some(QueueReply::Full(block, 0)) => block.as_slice() == b"b".as_slice(),
        _ => false,
    }
}

fn is_first(reply: &Option<QueueReply>) -> bool {
    match reply {
        Some(QueueReply::Block(block, 0, 1)) => block.as_slice() == b"a".as_slice(),
        _ => false,
    }
}

fn is_hung(reply: &Option<QueueReply>) -> bool {
    matches!(reply, Some(QueueReply::Hung))
}

fn is_end(reply: &Option<QueueReply>) -> bool {
    matches!(reply, Some(QueueReply::End))
}

// The first block is taken, and for the second there is no room.
fn put_both<R: Wait + Abort>(
    rt: &R,
    alloc: Global,
    lock: &Locked<QueueObject>,
    seat: &mut LockSeat<QueueObject>,
) -> bool
    requires { IsSeatOf lock.now seat.old }
    ensures { IsSeatOf lock.now seat.new }
{
    let first = asked(rt, lock, seat, QueueCall::Put(0, block_of(rt, alloc, b"a")));
    let second = asked(rt, lock, seat, QueueCall::Put(0, block_of(rt, alloc, b"b")));
    is_taken(&first) && comes_back(&second)
}

// The block is taken out, and after a hangup there is the end.
fn take_one<R: Wait>(rt: &R, lock: &Locked<QueueObject>, seat: &mut LockSeat<QueueObject>) -> bool
    requires { IsSeatOf lock.now seat.old }
    ensures { IsSeatOf lock.now seat.new }
{
    let first = asked(rt, lock, seat, QueueCall::Take);
    let hung = asked(rt, lock, seat, QueueCall::Hang);
    let last = asked(rt, lock, seat, QueueCall::Take);
    is_first(&first) && is_hung(&hung) && is_end(&last)
}

fn object_of(rt: &impl Abort, alloc: Global) -> QueueObject {
    let made = match QueueObject::new(alloc, 1, 0) {
        Err(_) => QueueObject::new(alloc, 1, 0),
        made => made,
    };
    made.expect(rt, "no memory for a queue")
}

// An object of limit 1 under a lock that gives two seats. Where memory was refused both are asked
// for once more.
fn lock_of(rt: &impl Abort, alloc: Global) -> Opened<QueueObject>
    ensures { IsSeatOf result.lock result.seat }
{
    match Locked::new(alloc, object_of(rt, alloc), 2) {
        Ok(opened) => opened,
        Err(AllocFailed { value: object }) => Locked::new(alloc, object, 2)
            .ok()
            .expect(rt, "no memory for a lock"),
    }
}

// Whether the lock has no seat left to give.
fn is_full<R: Wait>(rt: &R, lock: &Locked<QueueObject>, by: &mut LockSeat<QueueObject>) -> bool
    requires { IsSeatOf lock.now by.old }
    ensures { IsSeatOf lock.now by.new }
{
    matches!(lock.split(rt, by), Err(Fault::NoProc))
}

fn is_at_its_end(object: &mut QueueObject) -> bool {
    matches!(object.run(QueueCall::Take), QueueReply::End)
}

#[test]
fn two_seats_share_one_queue(rt: HostRuntime) {
    let Opened { lock, mut seat } = lock_of(&rt, rt.alloc());
    let mut other = lock.split(&rt, &mut seat).expect(&rt, "a second seat");
    assert!(rt; put_both(&rt, rt.alloc(), &lock, &mut other));
    assert!(rt; take_one(&rt, &lock, &mut seat));
    assert!(rt; is_full(&rt, &lock, &mut seat));
    let both = lock.join(seat, other);
    assert!(rt; both.number() == 0);
    assert!(rt; is_at_its_end(&mut lock.close(&rt, both)));
}
