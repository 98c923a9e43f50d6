//! A read end that several processes share: each reads in its turn, and a note ends its wait.
use crate::clock::Watch;
use crate::many::{Splits, room_for, split_into};
use crate::place::{Called, Place, end_of, place_of};
use crate::semaphores::{Seat, Semaphore};
use pipe_dev::{ReadAnswer, ReadEnd, TryAnswer};
use sleep_wakeup::{Proc, Roster};
use std::alloc::Global;
use std::sync::Wait;
use sync_base::{Fault, RendezId};

/// A read end that several processes share, and its first share as long as nobody has it.
#[derive(Drop)]
pub struct SharedEnd<'p> {
    turns: Semaphore,
    place: Place<'p>,
}

/// A share of a read end, by which one process at a time reads in its turn. One thread has it at a
/// time, and may hand it to another.
#[derive(Drop)]
pub struct Share<'s, 'p> {
    seat: Seat<'s>,
    place: &'s Place<'p>,
}

/// Why no read end is shared. The end comes back.
#[derive(Drop)]
pub struct Unshared<'p> {
    pub end: ReadEnd<'p>,
    pub fault: Fault,
}

impl<'p> From<Unshared<'p>> for Fault {
    ghost use Rattle.std.specs.Prelude.{◌≡◌};

    ghost from_gives = { λ refused fault. fault ≡ refused.fault };

    /// The end is dropped. Takes no memory and doesn't wait.
    fn from(refused: Unshared<'p>) -> Fault {
        let Unshared { end: _, fault } = refused;
        fault
    }
}

impl<'p> SharedEnd<'p> {
    ghost use Rattle.std.specs.Prelude.{◌≡◌, ◌↔◌, true, None, IfOk, IfErr, OnOk, OnErr, IfSome};
    ghost use Rattle.sync_base.specs.declared.fault.Fault.TheVariants.{NoProc};
    ghost use Rattle.pipe_dev.specs.Ends.{IsSameReadEnd};
    ghost use Rattle.plan9.specs.Sharings.{AreShares, IsFirstShare, IsNewShared, IsNotShared};
    ghost use Rattle.plan9.specs.Sharings.{MayShare, WhyNoShares, first_end};

    /// Lets this many processes share a read end. It takes as many Rendez as there are processes.
    /// Refuses, in this order, as `NoProc` where the processes are not from 1 to 1,024, `NoRendez`
    /// and `Memory`; the end comes back. Doesn't wait.
    pub fn new(
        alloc: Global,
        roster: &mut Roster<'_>,
        end: ReadEnd<'p>,
        procs: u64,
    ) -> Result<SharedEnd<'p>, Unshared<'p>>
        // Refused first, and then the end comes back.
        ensures refused { IfErr result (λ refused.
            IsNotShared roster.old end.entry procs refused roster.new) }

        // Otherwise the end lies there, and nobody has had a turn.
        ensures opened { IfOk result (λ shared.
            IsNewShared roster.old end.entry procs shared roster.new) }
    {
        match Semaphore::new(alloc, roster, 1, procs) {
            Ok(turns) => {
                let place = place_of(end);
                Ok(SharedEnd { turns, place })
            }
            Err(fault) => Err(Unshared { end, fault }),
        }
    }

    /// Whether nobody has had the first share. Takes no memory and doesn't wait.
    pub fn has_share(&self) -> bool
        ensures { result ≡ true ↔ ¬ (self.now.turns.spare ≡ None) }
    {
        self.turns.has_seat()
    }

    /// The first share. Refuses as `NoProc` where somebody had it before. Takes no memory and
    /// doesn't wait.
    pub fn share<'s>(&'s mut self) -> Result<Share<'s, 'p>, Fault>
        // Refused first, and then there was no share to lose.
        ensures fault { IfErr result (λ fault. fault ≡ NoProc) }
        ensures taken { OnErr result (self.old.turns.spare ≡ None) }

        // Otherwise it is the share that nobody had.
        ensures first { IfOk result (IsFirstShare self.old) }
    {
        let SharedEnd { turns, place } = self;
        let seat = turns.seat()?;
        Ok(Share { seat, place })
    }

    /// This many shares, in the order of their numbers: the first one, and each other split from
    /// the one before it. Refuses, in this order, as `NoProc` where the count is 0 or above the
    /// processes that may share the end, as `Memory`, and as `NoProc` where somebody had the first
    /// share before. Takes memory for the list, and waits for the semaphore's lock.
    pub fn shares<'s, R: Wait>(
        &'s mut self,
        alloc: Global,
        rt: &R,
        count: u64,
    ) -> Result<Vec<Share<'s, 'p>>, Fault>
        // Refused, in this order.
        ensures in_range { OnOk result (MayShare self.old count) }
        ensures fault { IfErr result (WhyNoShares self.old count) }

        // Otherwise no other share was given.
        ensures shares { IfOk result (λ shares. AreShares self.old count shares.items) }
    {
        let shares = room_for(alloc, self.turns.procs(), count)?;
        let first = self.share()?;
        split_into(rt, first, shares, count)
    }

    /// The end, which nobody shares any more. Takes no memory and doesn't wait.
    pub fn into_end(self) -> Option<ReadEnd<'p>>
        ensures { IfSome result (IsSameReadEnd (first_end self.entry)) }
    {
        let SharedEnd { turns: _, place } = self;
        end_of(place)
    }
}

impl<'s, 'p> Splits for Share<'s, 'p> {
    ghost use Rattle.plan9.specs.Sharings.{GivesShare, KnowsNoShare};

    ghost gives = { GivesShare };

    ghost knows_none = { KnowsNoShare };

    fn further<R: Wait>(&mut self, rt: &R) -> Result<Share<'s, 'p>, Fault> {
        self.split(rt)
    }
}

impl<'s, 'p> Share<'s, 'p> {
    ghost use Rattle.std.specs.Prelude.{◌≡◌, IfOk, IfErr, OnErr};
    ghost use Rattle.sync_base.specs.declared.fault.Fault.TheVariants.{NoProc};
    ghost use Rattle.semaphore.specs.Seats.{rendez_at};
    ghost use Rattle.timer_list.specs.Timers.{deadline_of};
    ghost use Rattle.plan9.specs.Readings.{LiesIn, read_answer};
    ghost use Rattle.plan9.specs.Semaphores.{IsSameSeat, KnowsNoSeat};
    ghost use Rattle.plan9.specs.Sharings.{
      InTurn,
      IsFurtherShare,
      IsSameShare,
      ReadsBlockOnce,
      ReadsOnce,
      TriesInTurn,
      buffers,
      end_of,
      sharer,
    };
    ghost use Rattle.plan9.specs.TimedSharings.{
      InTimedTurn,
      ReadsBlockOnceWithin,
      ReadsOnceWithin,
      watched_sharer,
    };
    ghost use Rattle.plan9.specs.Watches.{IsSameWatch};

    /// A further share, for another process. Refuses as `NoProc` where the end has had all its
    /// processes. It waits for the semaphore's lock. Takes no memory.
    pub fn split<R: Wait>(&mut self, rt: &R) -> Result<Share<'s, 'p>, Fault>
        ensures same { IsSameShare self.old self.new }
        ensures fault { IfErr result (λ fault. fault ≡ NoProc) }
        ensures refused { OnErr result (KnowsNoSeat self.old.seat self.new.seat) }
        ensures further { IfOk result (IsFurtherShare self.old self.new) }
    {
        let seat = self.seat.split(rt)?;
        Ok(Share {
            seat,
            place: self.place,
        })
    }

    /// Reads in its turn, as `ReadEnd::read` does from the end; turns come in the order of asking.
    /// The end then lies there for the next process. It waits for its turn, and where nothing is
    /// there to be read yet. Takes no memory.
    ///
    /// Refuses, in this order, as `Seat::acquire` does where it waits for its turn, and then as
    /// `ReadEnd::read` does. With any answer the end lies there again, and the turn is given back.
    /// So notes end either wait. After qlock in lock(2), and read(2).
    pub fn read<R: Wait>(
        &mut self,
        rt: &R,
        proc: &mut Proc<'_>,
        buffer: &mut [u8],
    ) -> Result<ReadAnswer, Fault>
        ensures same { IsSameShare self.old self.new }
        ensures words { proc.new.words ≡ proc.old.words }
        ensures turn { InTurn ReadsOnce (sharer self.old proc.old)
            (buffers buffer.old buffer.new) result (sharer self.new proc.new) }
    {
        self.seat.acquire(rt, proc)?;
        let Called { answer, laid: _ } = self.place.read(rt, proc, buffer);
        let _sum = self.seat.release(rt, proc, 1);
        answer
    }

    /// A `read` that returns how many bytes the piece has, and `None` at the end, as
    /// `ReadCalls::next_piece`. It waits. Takes no memory. Refuses as `read` does.
    #[tactic(auto, using(crate::proofs::SharingLemmas::piece_lies_in_turn))]
    pub fn next_piece<R: Wait>(
        &mut self,
        rt: &R,
        proc: &mut Proc<'_>,
        buffer: &mut [u8],
    ) -> Result<Option<usize>, Fault>
        ensures same { IsSameShare self.old self.new }
        ensures words { proc.new.words ≡ proc.old.words }
        ensures turn { InTurn ReadsOnce (sharer self.old proc.old)
            (buffers buffer.old buffer.new) (read_answer result) (sharer self.new proc.new) }
        ensures fits { LiesIn buffer.new result }
    {
        match self.read(rt, proc, buffer) {
            Ok(ReadAnswer::Got(count)) => Ok(Some(count)),
            Ok(ReadAnswer::End) => Ok(None),
            Err(fault) => Err(fault),
        }
    }

    /// Reads a block in its turn, as `ReadEnd::read_block`. It waits and is refused as `read` is,
    /// but never with `BadCount`. Takes no memory.
    pub fn read_block<R: Wait>(
        &mut self,
        rt: &R,
        proc: &mut Proc<'_>,
        block: &mut Vec<u8>,
    ) -> Result<ReadAnswer, Fault>
        ensures same { IsSameShare self.old self.new }
        ensures words { proc.new.words ≡ proc.old.words }
        ensures turn { InTurn ReadsBlockOnce (sharer self.old proc.old)
            (buffers block.old.items block.new.items) result (sharer self.new proc.new) }
    {
        self.seat.acquire(rt, proc)?;
        let Called { answer, laid: _ } = self.place.read_block(rt, proc, block);
        let _sum = self.seat.release(rt, proc, 1);
        answer
    }

    /// A `read` that waits until a tick of the clock at the moment `now` + `ms` or later; that
    /// moment is at most `u64::MAX`, and ends the wait for its turn and the wait for bytes. Own;
    /// qlock in lock(2) and read(2) wait as long as it takes.
    ///
    /// Refuses, in this order, as `Seat::acquire_within` does where it waits for its turn, and then
    /// as `ReadCalls::read_within` does. With any answer the end lies there again, and the turn is
    /// given back; where a tick or notes ended the wait for its turn, it had none, and read
    /// nothing. Takes no memory.
    pub fn read_within<R: Wait>(
        &mut self,
        rt: &R,
        proc: &mut Proc<'_>,
        watch: &mut Watch<'_>,
        now: u64,
        ms: u32,
        buffer: &mut [u8],
    ) -> Result<ReadAnswer, Fault>
        ensures same { IsSameShare self.old self.new }
        ensures words { proc.new.words ≡ proc.old.words }
        ensures watch { IsSameWatch watch.old watch.new }

        // The wait for its turn and the read both end at this moment.
        ensures turn { InTimedTurn (deadline_of now ms) (ReadsOnceWithin (deadline_of now ms))
            (watched_sharer self.old proc.old watch.old) (buffers buffer.old buffer.new) result
            (watched_sharer self.new proc.new watch.new) }
    {
        self.seat.acquire_within(rt, proc, watch, now, ms)?;
        let Called { answer, laid: _ } = self.place.read_within(rt, proc, watch, now, ms, buffer);
        let _sum = self.seat.release(rt, proc, 1);
        answer
    }

    /// A `read_block` that waits until a moment, as `read_within` does, and is refused as that is,
    /// but never with `BadCount`. Takes no memory.
    pub fn read_block_within<R: Wait>(
        &mut self,
        rt: &R,
        proc: &mut Proc<'_>,
        watch: &mut Watch<'_>,
        now: u64,
        ms: u32,
        block: &mut Vec<u8>,
    ) -> Result<ReadAnswer, Fault>
        ensures same { IsSameShare self.old self.new }
        ensures words { proc.new.words ≡ proc.old.words }
        ensures watch { IsSameWatch watch.old watch.new }

        // The wait for its turn and the read both end at this moment.
        ensures turn { InTimedTurn (deadline_of now ms) (ReadsBlockOnceWithin (deadline_of now ms))
            (watched_sharer self.old proc.old watch.old)
            (buffers block.old.items block.new.items) result
            (watched_sharer self.new proc.new watch.new) }
    {
        self.seat.acquire_within(rt, proc, watch, now, ms)?;
        let place = self.place;
        let Called { answer, laid: _ } = place.read_block_within(rt, proc, watch, now, ms, block);
        let _sum = self.seat.release(rt, proc, 1);
        answer
    }

    /// A `read` that does not wait: `NotYet` where another process has the turn or nothing is there
    /// yet. It waits for the semaphore's lock. Takes no memory.
    ///
    /// Refuses, in this order, as `NoRendez` a process whose kernel has too few Rendez for the
    /// turns, and, where nobody else has the turn, as `ReadEnd::try_read` does.
    pub fn try_read<R: Wait>(
        &mut self,
        rt: &R,
        proc: &mut Proc<'_>,
        buffer: &mut [u8],
    ) -> Result<TryAnswer, Fault>
        ensures same { IsSameShare self.old self.new }
        ensures words { proc.new.words ≡ proc.old.words }
        ensures turn { TriesInTurn (sharer self.old proc.old) (buffers buffer.old buffer.new)
            result (sharer self.new proc.new) }
    {
        if !self.seat.try_acquire(rt, proc)? {
            return Ok(TryAnswer::NotYet);
        }
        let Called { answer, laid: _ } = self.place.try_read(rt, proc, buffer);
        let _sum = self.seat.release(rt, proc, 1);
        answer
    }

    /// The Rendez in which whoever reads by the share waits for a turn; for bytes it waits in the
    /// Rendez of the end. Takes no memory and doesn't wait.
    pub fn rendez(&self) -> RendezId
        ensures { result ≡ rendez_at self.now.seat.sema self.now.seat.seat }
    {
        self.seat.rendez()
    }
}
