//! Calls of a tag space with their answers, which come from rendezvous(2) and the rules of the
//! library. Where memory is refused the space is asked for once more.
ghost use Rattle.std.specs.Prelude.{◌≤◌};
ghost use Rattle.tag_space.specs.declared.limits.TheConstants.{LAST_MEETING};

use std::alloc::Global;
use std::process::Abort;
use sync_base::{Fault, Tag};
use tag_space::GroupReply::{Busy, Gone, Worn};
use tag_space::{GroupCall, GroupObject, GroupReply};

fn space_of(rt: &impl Abort, alloc: Global, members: u64, count: u64) -> GroupObject
    requires { count ≤ LAST_MEETING }
{
    let made = match GroupObject::new_from(alloc, members, count) {
        Err(Fault::Memory) => GroupObject::new_from(alloc, members, count),
        made => made,
    };
    made.expect(rt, "no space")
}

fn answers(rt: &impl Abort, space: &mut GroupObject, rows: &[(GroupCall, GroupReply)]) {
    for (at, (call, reply)) in rows.iter().enumerate() {
        assert_eq!(rt; space.run(*call), *reply, "call {at}");
    }
}

fn call(member: u64, tag: u64, value: u64) -> GroupCall {
    GroupCall::Call {
        member,
        tag: Tag(tag),
        value,
    }
}

fn was_met(value: u64) -> GroupReply {
    GroupReply::WasMet { value }
}

fn met(value: u64, member: u64, count: u64) -> GroupReply {
    GroupReply::Met {
        value,
        member,
        count,
    }
}

fn wait(count: u64) -> GroupReply {
    GroupReply::Wait { count }
}

fn collect(member: u64) -> GroupCall {
    GroupCall::Collect { member }
}

fn leave(member: u64) -> GroupCall {
    GroupCall::Leave { member }
}

// After this call these wait.
fn lends(rt: &impl Abort, space: &mut GroupObject, call: GroupCall, waiting: &[(Tag, u64)]) {
    space.run(call);
    assert_eq!(rt; space.waiting(), waiting);
}

#[test]
fn who_waits_is_lent_by_rising_tags(rt: HostRuntime) {
    let mut space = space_of(&rt, rt.alloc(), 3, 0);
    lends(&rt, &mut space, collect(0), &[]);
    lends(&rt, &mut space, call(0, 9, 1), &[(Tag(9), 0)]);
    lends(&rt, &mut space, call(1, 7, 2), &[(Tag(7), 1), (Tag(9), 0)]);
    lends(&rt, &mut space, call(2, 9, 3), &[(Tag(7), 1)]);
    lends(&rt, &mut space, leave(1), &[]);
}

const MOST: u64 = 1_024;

// Every second member has left. One of them calls with the tag of the next, which waits.
fn finds_the_next(rt: &impl Abort, space: &mut GroupObject, half: u64) {
    let caller = half.wrapping_mul(2);
    let waiter = caller.wrapping_add(1);
    let value = half.wrapping_add(10_000);
    let rows = [
        (
            call(caller, 5_000u64.wrapping_sub(waiter), value),
            met(waiter, waiter, 1),
        ),
        (collect(waiter), was_met(value)),
    ];
    answers(rt, space, &rows);
}

// All members call, and then every second one leaves. Tags fall: the last member has the least.
fn half_of_them_wait(rt: &impl Abort, space: &mut GroupObject) {
    for member in 0..MOST {
        let called = call(member, 5_000u64.wrapping_sub(member), member);
        answers(rt, space, &[(called, wait(0))]);
    }
    for half in 0..MOST / 2 {
        answers(rt, space, &[(leave(half.wrapping_mul(2)), Gone)]);
    }
}

fn so_many_wait(rt: &impl Abort, space: &GroupObject, count: u64) {
    assert_eq!(rt; space.waiting().len() as u64, count);
}

#[test]
fn who_left_finds_each_of_those_that_wait(rt: HostRuntime) {
    let mut space = space_of(&rt, rt.alloc(), MOST, 0);
    half_of_them_wait(&rt, &mut space);
    so_many_wait(&rt, &space, MOST / 2);
    for half in 0..MOST / 2 {
        finds_the_next(&rt, &mut space, half);
    }
    so_many_wait(&rt, &space, 0);
}

#[test]
fn two_meet_and_one_leaves(rt: HostRuntime) {
    let rows = [
        (call(0, 7, 5), wait(0)),
        (call(1, 7, 9), met(5, 0, 1)),
        (GroupCall::Collect { member: 0 }, was_met(9)),
        (call(0, 7, 5), wait(1)),
        (GroupCall::Leave { member: 0 }, Gone),
        (call(1, 7, 9), wait(0)),
        (call(1, 8, 1), Busy),
    ];
    let made = match GroupObject::new(rt.alloc(), 2) {
        Err(Fault::Memory) => GroupObject::new(rt.alloc(), 2),
        made => made,
    };
    answers(&rt, &mut made.expect(&rt, "no space"), &rows);
}

#[test]
fn the_last_count_waits_no_more(rt: HostRuntime) {
    let rows = [
        (call(0, 7, 5), wait(18_446_744_073_709_551_613)),
        (call(1, 7, 9), met(5, 0, 18_446_744_073_709_551_614)),
        (GroupCall::Collect { member: 0 }, was_met(9)),
        (call(0, 7, 1), Worn),
        (call(1, 8, 2), wait(18_446_744_073_709_551_613)),
        (call(0, 8, 3), met(2, 1, 18_446_744_073_709_551_614)),
    ];
    let mut space = space_of(&rt, rt.alloc(), 2, 18_446_744_073_709_551_613);
    answers(&rt, &mut space, &rows);
}
