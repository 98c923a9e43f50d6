//! The place of a shared read end between two turns, and the calls of the end that lies there. Each
//! call that takes the end up lays it down again, and has a receipt of what it laid down. No clause
//! ties a receipt to the place: that `put` alone makes one is read in this file.
ghost use Rattle.std.specs.Prelude.{◌≡◌, IfSome};
ghost use Rattle.pipe_dev.specs.Ends.{IsSameReadEnd};
ghost use Rattle.plan9.specs.Places.{IsLaid, Swaps, end_in};

use crate::alone::Alone;
use crate::clock::Watch;
use crate::ends::ReadCalls;
use counted_slot::{Claim, Counted, FREE, Fits, TAKEN};
use pipe_dev::{ReadAnswer, ReadEnd, TryAnswer};
use sleep_wakeup::Proc;
use std::snapshot::Snapshot;
use std::sync::Wait;
use std::thread::yield_now;
use sync_base::Fault;

/// The end while it lies between two turns.
#[derive(Drop)]
pub(crate) struct Lying<'p> {
    end: Alone<ReadEnd<'p>>,
}

impl<'p> Fits for Lying<'p> {
    ghost use Rattle.pipe_dev.specs.Ends.{IsSameReadEnd};

    type Tag = Snapshot<ReadEnd<'p>>;

    ghost fits = { λ first lying. IsSameReadEnd first.value lying.end.value };
}

/// The place of the end while nobody has the turn. While it is shared, only the calls below reach
/// into it: each takes the end up, and lays it down.
#[derive(Drop)]
pub(crate) struct Place<'p> {
    slot: Counted<Option<Lying<'p>>>,
}

/// The end, for a turn. It can't be dropped: `lay_down` spends it, whatever the answer is.
#[must_use]
struct TakenUp<'p> {
    end: ReadEnd<'p>,
}

/// What was put into the place of the end. `put` makes it, and no other file can.
#[derive(Drop)]
pub(crate) struct Receipt<'p> {
    what: Snapshot<Option<Lying<'p>>>,
}

/// What lay there, and what was put there.
#[derive(Drop)]
pub(crate) struct Swapped<'p> {
    found: Option<Lying<'p>>,
    put: Receipt<'p>,
}

/// A place with this end in it.
pub(crate) fn place_of<'p>(end: ReadEnd<'p>) -> Place<'p>
    ensures { result.slot.value ≡ end.entry }
{
    let first = Snapshot::of(&end);
    let end = Alone::new(end);
    Place {
        slot: Counted::new(Some(Lying { end }), &first),
    }
}

/// The end in a place.
pub(crate) fn end_of<'p>(place: Place<'p>) -> Option<ReadEnd<'p>>
    ensures { IfSome result (IsSameReadEnd place.entry.slot.value) }
{
    let Place { slot } = place;
    end_lying(slot.into_inner())
}

// The end, where it lies there.
fn end_lying<'p>(lying: Option<Lying<'p>>) -> Option<ReadEnd<'p>>
    ensures { result ≡ end_in lying.entry }
{
    match lying {
        Some(Lying { end }) => Some(end.into_inner()),
        None => None,
    }
}

// Puts this where the end lies, and takes what lay there.
fn put<'p>(claim: Claim<'_, Option<Lying<'p>>>, lying: Option<Lying<'p>>) -> Swapped<'p>
    requires right { claim.right ≡ 2 }
    requires fits { IfSome lying (λ lying. IsSameReadEnd claim.tag.value lying.end.value) }
    ensures { Swaps claim.entry.tag.value lying.entry result }
{
    let what = Snapshot::of(&lying);
    let found = claim.put(lying, FREE);
    Swapped {
        found,
        put: Receipt { what },
    }
}

// Does so once nobody else does.
fn swap<'p, R: Wait>(rt: &R, place: &Place<'p>, lying: Option<Lying<'p>>) -> Swapped<'p>
    requires { IfSome lying (λ lying. IsSameReadEnd place.now.slot.value lying.end.value) }
    ensures { Swaps place.now.slot.value lying.entry result }
{
    'trying: for _ in rt.forever() {
        let (found, claim) = place.slot.turn(FREE, TAKEN);
        if found == FREE {
            return put(claim, lying);
        }
        claim.done();
        yield_now();
    }
    unreachable!()
}

// Takes the end up. A process with the turn finds it there.
fn take_up<'p, R: Wait>(rt: &R, place: &Place<'p>) -> TakenUp<'p>
    ensures { IsSameReadEnd place.now.slot.value result.end }
{
    'looking: for _ in rt.forever() {
        let Swapped { found, put: _ } = swap(rt, place, None);
        if let Some(Lying { end }) = found {
            let end = end.into_inner();
            return TakenUp { end };
        }
        yield_now();
    }
    unreachable!()
}

// Lays the end down where it lay.
fn lay_down<'p, R: Wait>(rt: &R, place: &Place<'p>, taken: TakenUp<'p>) -> Receipt<'p>
    requires { IsSameReadEnd place.now.slot.value taken.end }
    ensures { IsLaid taken.entry.end result }
{
    let TakenUp { end } = taken;
    let end = Alone::new(end);
    let Swapped { found: _, put } = swap(rt, place, Some(Lying { end }));
    put
}

/// The answer to a call of the end, and the receipt that the end was laid down after it.
pub(crate) struct Called<'p, A> {
    pub(crate) answer: A,
    pub(crate) laid: Receipt<'p>,
}

// Each of these makes one call of the end that it has taken up, and lays it down.
impl<'p> Place<'p> {
    ghost use Rattle.timer_list.specs.Timers.{deadline_of};
    ghost use Rattle.plan9.specs.Sharings.{
      CallsAndLays,
      ReadsBlockOnce,
      ReadsOnce,
      TriesOnce,
      buffers,
    };
    ghost use Rattle.plan9.specs.TimedSharings.{ReadsBlockOnceWithin, ReadsOnceWithin, watches};
    ghost use Rattle.plan9.specs.Watches.{IsSameWatch};

    pub(crate) fn read<R: Wait>(
        &self,
        rt: &R,
        proc: &mut Proc<'_>,
        buffer: &mut [u8],
    ) -> Called<'p, Result<ReadAnswer, Fault>>
        ensures { CallsAndLays self.now.slot.value proc.old
            (ReadsOnce (buffers buffer.old buffer.new) result.answer) result.laid proc.new }
    {
        let mut taken = take_up(rt, self);
        let answer = taken.end.read(rt, proc, buffer);
        let laid = lay_down(rt, self, taken);
        Called { answer, laid }
    }

    pub(crate) fn read_block<R: Wait>(
        &self,
        rt: &R,
        proc: &mut Proc<'_>,
        block: &mut Vec<u8>,
    ) -> Called<'p, Result<ReadAnswer, Fault>>
        ensures { CallsAndLays self.now.slot.value proc.old
            (ReadsBlockOnce (buffers block.old.items block.new.items) result.answer)
            result.laid proc.new }
    {
        let mut taken = take_up(rt, self);
        let answer = taken.end.read_block(rt, proc, block);
        let laid = lay_down(rt, self, taken);
        Called { answer, laid }
    }

    pub(crate) fn read_within<R: Wait>(
        &self,
        rt: &R,
        proc: &mut Proc<'_>,
        watch: &mut Watch<'_>,
        now: u64,
        ms: u32,
        buffer: &mut [u8],
    ) -> Called<'p, Result<ReadAnswer, Fault>>
        ensures called { CallsAndLays self.now.slot.value proc.old
            (ReadsOnceWithin (deadline_of now ms) (watches watch.old watch.new)
            (buffers buffer.old buffer.new) result.answer) result.laid proc.new }
        ensures watch { IsSameWatch watch.old watch.new }
    {
        let mut taken = take_up(rt, self);
        let answer = taken.end.read_within(rt, proc, watch, now, ms, buffer);
        let laid = lay_down(rt, self, taken);
        Called { answer, laid }
    }

    pub(crate) fn read_block_within<R: Wait>(
        &self,
        rt: &R,
        proc: &mut Proc<'_>,
        watch: &mut Watch<'_>,
        now: u64,
        ms: u32,
        block: &mut Vec<u8>,
    ) -> Called<'p, Result<ReadAnswer, Fault>>
        ensures called { CallsAndLays self.now.slot.value proc.old
            (ReadsBlockOnceWithin (deadline_of now ms) (watches watch.old watch.new)
            (buffers block.old.items block.new.items) result.answer) result.laid proc.new }
        ensures watch { IsSameWatch watch.old watch.new }
    {
        let mut taken = take_up(rt, self);
        let answer = taken.end.read_block_within(rt, proc, watch, now, ms, block);
        let laid = lay_down(rt, self, taken);
        Called { answer, laid }
    }

    pub(crate) fn try_read<R: Wait>(
        &self,
        rt: &R,
        proc: &mut Proc<'_>,
        buffer: &mut [u8],
    ) -> Called<'p, Result<TryAnswer, Fault>>
        ensures { CallsAndLays self.now.slot.value proc.old
            (TriesOnce (buffers buffer.old buffer.new) result.answer) result.laid proc.new }
    {
        let mut taken = take_up(rt, self);
        let answer = taken.end.try_read(proc, buffer);
        let laid = lay_down(rt, self, taken);
        Called { answer, laid }
    }
}
