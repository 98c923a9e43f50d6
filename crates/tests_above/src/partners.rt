//! A caller of a space of two, from the contracts alone: two members call once each, on threads of
//! their own. Either each gets what the other gave, or neither gets a value. And the example of
//! rendezvous(2).
ghost use Rattle.std.specs.Prelude.{◌≡◌, [], IfOk, OnOk, IsOk};
ghost use Rattle.sleep_wakeup.specs.Starts.{IsStartOf};
ghost use Rattle.tag_space.specs.Members.{IsMemberOf, IsSameMember, OwnsRow};
ghost use Rattle.tag_space.specs.Members.{number_of, party_of, seen_of};
ghost use Rattle.tag_space.specs.Outcome.{Exchange, calls_by};

use crate::kernels::kernel_of;
use plan9::{Fault, Flags, Kernel, OpenedKernel, Proc, Start, Started, Tag};
use std::alloc::Global;
use std::marker::Sync;
use std::process::Abort;
use std::sync::Wait;
use std::thread::{Threads, join, join_mut};
use tag_space::{Member, Opened as OpenedSpace, TagSpace};

/// The tag under which they meet.
const TAG: Tag = Tag(7);

/// A process, and the member with which it calls.
#[derive(Drop)]
pub struct Party<'k> {
    pub proc: Proc<'k>,
    pub member: Member,
}

/// Two members that have called, and the answers that they got.
#[derive(Drop)]
struct Met<'k> {
    first: Party<'k>,
    second: Party<'k>,
    answers: Answers,
}

#[derive(Drop)]
struct Answers {
    first: Result<u64, Fault>,
    second: Result<u64, Fault>,
}

// Two members call at once, with one tag.
fn call_both<'k, R: Wait + Threads + Sync>(
    rt: &R,
    space: &TagSpace,
    first: Party<'k>,
    second: Party<'k>,
    tag: Tag,
    values: (u64, u64),
) -> Met<'k>
    requires first { IsMemberOf space.now first.member }
    requires second { IsMemberOf space.now second.member }
    requires first_row { OwnsRow space.now first.proc.words }
    requires second_row { OwnsRow space.now second.proc.words }
    ensures first { IsMemberOf space.now result.first.member }
    ensures second { IsMemberOf space.now result.second.member }
    ensures first_same { IsSameMember first.entry.member result.first.member }
    ensures second_same { IsSameMember second.entry.member result.second.member }
    ensures first_call { Exchange (party_of space.now first.entry.member)
        (record { tag = tag; value = values.0 }) (seen_of first.entry.member)
        (seen_of result.first.member) result.answers.first }
    ensures second_call { Exchange (party_of space.now second.entry.member)
        (record { tag = tag; value = values.1 }) (seen_of second.entry.member)
        (seen_of result.second.member) result.answers.second }
{
    let Party {
        mut proc,
        mut member,
    } = first;
    let Party {
        proc: mut other_proc,
        member: mut other,
    } = second;
    let others_tag = tag;
    let (value, others_value) = values;
    let (answer, others) = join_mut(
        rt,
        &mut || space.rendezvous(rt, &mut proc, &mut member, tag, value),
        &mut || space.rendezvous(rt, &mut other_proc, &mut other, others_tag, others_value),
    );
    Met {
        first: Party { proc, member },
        second: Party {
            proc: other_proc,
            member: other,
        },
        answers: Answers {
            first: answer,
            second: others,
        },
    }
}

// Two members call once each. In a space of two, where neither had called, whoever is answered is
// answered what the other gave, and then so is the other.
fn meet_once<R: Wait + Threads + Sync>(
    rt: &R,
    space: &TagSpace,
    first: Party,
    second: Party,
    values: (u64, u64),
) -> Answers
    requires first { IsMemberOf space.now first.member }
    requires second { IsMemberOf space.now second.member }
    requires first_row { OwnsRow space.now first.proc.words }
    requires second_row { OwnsRow space.now second.proc.words }
    ensures first { space.now.procs ≡ 2
        → calls_by (number_of second.entry.member) (seen_of second.entry.member) ≡ []
        → IfOk result.first (λ got. got ≡ values.1) }
    ensures second { space.now.procs ≡ 2
        → calls_by (number_of first.entry.member) (seen_of first.entry.member) ≡ []
        → IfOk result.second (λ got. got ≡ values.0) }
    ensures both { space.now.procs ≡ 2
        → calls_by (number_of second.entry.member) (seen_of second.entry.member) ≡ []
        → OnOk result.first (IsOk result.second) }
    ensures also { space.now.procs ≡ 2
        → calls_by (number_of first.entry.member) (seen_of first.entry.member) ≡ []
        → OnOk result.second (IsOk result.first) }
{
    let Met {
        first,
        second,
        answers,
    } = call_both(rt, space, first, second, TAG, values);
    let _ = space.join_members(first.member, second.member);
    answers
}

/// A space of two, and its members.
#[derive(Drop)]
pub struct Two<'k> {
    pub space: TagSpace,
    pub first: Party<'k>,
    pub second: Party<'k>,
}

pub fn two_of<'k, R: Wait + Abort>(
    rt: &R,
    alloc: Global,
    kernel: &'k Kernel,
    start: Start,
) -> Two<'k>
    requires { IsStartOf kernel.now start }
    ensures first { IsMemberOf result.space result.first.member }
    ensures second { IsMemberOf result.space result.second.member }
    ensures first_row { OwnsRow result.space result.first.proc.words }
    ensures second_row { OwnsRow result.space result.second.proc.words }
{
    let Started {
        mut roster,
        mut proc,
    } = kernel.start(start);
    let opened = TagSpace::new(alloc, &mut roster, 2).expect(rt, "no space");
    let OpenedSpace { space, mut member } = opened;
    let further = space
        .fork_member(rt, &mut member)
        .expect(rt, "a member is left");
    let child = roster.rfork(&mut proc, Flags::RFPROC);
    let child = child.ok().flatten().expect(rt, "a pid is left");
    Two {
        space,
        first: Party { proc, member },
        second: Party {
            proc: child,
            member: further,
        },
    }
}

#[test]
fn two_that_meet_have_each_others_values(rt: HostRuntime) {
    let OpenedKernel { kernel, start } = kernel_of(&rt, rt.alloc(), 2, 2);
    let Two {
        space,
        first,
        second,
    } = two_of(&rt, rt.alloc(), &kernel, start);
    let answers = meet_once(&rt, &space, first, second, (5, 9));
    assert_eq!(rt; (answers.first, answers.second), (Ok(9), Ok(5)));
}

// The example of rendezvous(2), line for line.
#[test]
fn rendezvous_page(rt: HostRuntime) {
    let OpenedKernel { kernel, start } = kernel_of(&rt, rt.alloc(), 2, 2);
    let Two {
        space,
        first: Party {
            proc: mut reader,
            member: mut readers,
        },
        second: Party {
            proc: mut writer,
            member: mut writers,
        },
    } = two_of(&rt, rt.alloc(), &kernel, start);
    let (got, given) = join(
        &rt,
        || space.rendezvous(&rt, &mut reader, &mut readers, Tag(7), 5),
        || space.rendezvous(&rt, &mut writer, &mut writers, Tag(7), 9),
    );
    assert_eq!(rt; (got, given), (Ok(9), Ok(5)));
}
