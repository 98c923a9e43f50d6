//! A put.
ghost use Rattle.std.specs.Prelude.{◌≡◌, ◌+◌, ◌<◌, []};
ghost use Rattle.sync_base.specs.declared.limits.TheConstants.{LAST_WRITE};
ghost use Rattle.block_queue.specs.declared.view.Stage.TheVariants.{Free, Placed};
ghost use Rattle.block_queue.specs.Calls.{Puts, IsFreshPut};
ghost use Rattle.block_queue.specs.Seats.{
  IsFreeStepperOf,
  IsStepperOf,
  IsPutSeatOf,
  IsSameStepper,
  IsSameSeat,
  key_of,
  put_account,
};
ghost use Rattle.block_queue.specs.Steps.{staged_view};
ghost use Rattle.block_queue.specs.Tries.{IfAnswered, IfAgain, IsAgain, IsTaken};

use crate::answers::PutAnswer;
use crate::places::{MARK, free, place};
use crate::queue::Queue;
use crate::room::pause;
use crate::rule::Stepper;
use crate::seats::PutSeat;
use crate::spare::Spare;
use crate::stored_block::StoredBlock;
use std::marker::Brand;
use std::snapshot::Snapshot;
use std::sync::Wait;
use sync_base::limits::LAST_WRITE;
use sync_base::{NoProbe, Piece, Probe};

/// How far one round of a put came.
#[derive(Drop)]
pub(crate) enum PutAttempt {
    Answered(PutAnswer),
    /// Another put came first, or a hangup: the put begins again.
    Again(Piece),
}

impl Queue {
    /// Puts a block after the others. It waits for nobody, but begins again where another put
    /// came first, and looks some microseconds for room before it answers `Full`. It takes no
    /// memory.
    ///
    /// Answers `Hungup` where the queue is hung up, `Worn` where the last number was given, `Full`
    /// where the queue has as many blocks as the limit allows, and else `Taken`. Where the queue is
    /// full and hung up, the answer may be either `Full` or `Hungup`, but not `Full` to a seat that
    /// knew of the hangup. A block that is not taken comes back.
    pub fn put<R: Wait>(&self, rt: &R, seat: &mut PutSeat, block: Piece) -> PutAnswer
        requires seat { IsPutSeatOf self.now seat.old }
        ensures seat { IsPutSeatOf self.now seat.new }
        ensures writer { seat.new.writer ≡ seat.old.writer }
        ensures same { IsSameSeat (put_account seat.old) (put_account seat.new) }

        // Its entry ends what the seat has seen, and stands in one legal history.
        ensures answer { Puts (key_of self.now) seat.old.writer block
            (put_account seat.old) (put_account seat.new) result }
        ensures fresh { IsFreshPut (key_of self.now) (put_account seat.old) result }
    {
        self.put_probed(rt, seat, block, &mut NoProbe)
    }

    /// A `put` that calls its probe before each of its steps, at its points 1 to 5, and at 6 at the
    /// end.
    pub fn put_probed<R: Wait, P: Probe>(
        &self,
        rt: &R,
        seat: &mut PutSeat,
        block: Piece,
        probe: &mut P,
    ) -> PutAnswer
        requires seat { IsPutSeatOf self.now seat.old }
        ensures seat { IsPutSeatOf self.now seat.new }
        ensures writer { seat.new.writer ≡ seat.old.writer }
        ensures same { IsSameSeat (put_account seat.old) (put_account seat.new) }

        // Its entry ends what the seat has seen, and stands in one legal history.
        ensures answer { Puts (key_of self.now) seat.old.writer block
            (put_account seat.old) (put_account seat.new) result }
        ensures fresh { IsFreshPut (key_of self.now) (put_account seat.old) result }
    {
        let mut stepper = seat.take_token();
        let answer = self.put_in_turn(rt, &mut stepper, &mut seat.spare, seat.writer, block, probe);
        seat.put_token(stepper);
        probe.at(6);
        answer
    }

    // Tries until it is answered.
    fn put_in_turn<R: Wait, P: Probe>(
        &self,
        rt: &R,
        stepper: &mut Stepper,
        spare: &mut Spare,
        writer: u64,
        block: Piece,
        probe: &mut P,
    ) -> PutAnswer
        requires stepper { IsFreeStepperOf self.now stepper.old (writer + 1) }
        ensures stepper { IsFreeStepperOf self.now stepper.new (writer + 1) }
        ensures answer { Puts (key_of self.now) writer block
            stepper.old.me.0.account stepper.new.me.0.account result }
        ensures fresh { IsFreshPut (key_of self.now) stepper.old.me.0.account result }
    {
        let mut block = block;
        for _ in rt.forever() {
            match self.try_put(stepper, spare, writer, block, probe) {
                PutAttempt::Answered(answer) => return answer,
                PutAttempt::Again(back) => {
                    pause();
                    block = back;
                }
            }
        }
        unreachable!()
    }

    // One round: the tail, and then the place of the next write.
    fn try_put<P: Probe>(
        &self,
        stepper: &mut Stepper,
        spare: &mut Spare,
        writer: u64,
        block: Piece,
        probe: &mut P,
    ) -> PutAttempt
        requires stepper { IsFreeStepperOf self.now stepper.old (writer + 1) }
        ensures stepper { IsFreeStepperOf self.now stepper.new (writer + 1) }
        ensures answer { IfAnswered result (λ answer. Puts (key_of self.now) writer block
            stepper.old.me.0.account stepper.new.me.0.account answer) }
        ensures fresh { IfAnswered result (IsFreshPut (key_of self.now) stepper.old.me.0.account) }
        ensures again { IfAgain result (λ back. back ≡ block) }
        ensures same { IsAgain result → stepper.new.me ≡ stepper.old.me }
    {
        probe.at(1);
        let tail = self.put_tail::<Brand>(stepper, writer, &block);
        if tail >= MARK {
            return PutAttempt::Answered(PutAnswer::Hungup(block));
        }
        if self.key.first + tail == LAST_WRITE {
            return PutAttempt::Answered(PutAnswer::Worn(block));
        }
        let free = free(self.key.limit, tail);
        self.look_for_room(place(self.key.limit, tail), free);
        probe.at(2);
        let word = self.put_sequence::<Brand>(stepper, writer, &block, tail);
        if word < free {
            let number = self.key.first + tail - self.key.limit;
            return PutAttempt::Answered(PutAnswer::Full(block, number));
        }
        if word > free {
            return PutAttempt::Again(block);
        }
        self.claim(stepper, spare, writer, block, tail, probe)
    }

    // The rest of a round: the write is accepted, its block is moved in, and it stands.
    fn claim<P: Probe>(
        &self,
        stepper: &mut Stepper,
        spare: &mut Spare,
        writer: u64,
        block: Piece,
        count: u64,
        probe: &mut P,
    ) -> PutAttempt
        requires stepper { IsStepperOf self.now stepper.old (writer + 1) }
        requires number { stepper.old.me.0.account.number ≡ writer + 1 }
        requires stage { stepper.old.me.0.stage ≡ Placed count }
        requires no_slot { stepper.old.me.1 ≡ [] }
        requires small { self.now.key.first + count < LAST_WRITE }
        ensures stepper { IsFreeStepperOf self.now stepper.new (writer + 1) }
        ensures answer { IfAnswered result (λ answer. Puts (key_of self.now) writer block
            stepper.old.me.0.account stepper.new.me.0.account answer) }
        ensures taken { IfAnswered result IsTaken }
        ensures again { IfAgain result (λ back. back ≡ block) }
        ensures same { IsAgain result → stepper.new.me ≡ (staged_view Free stepper.old.me.0, []) }
    {
        probe.at(3);
        if self.accept::<Brand>(stepper, writer, &block, count) != count {
            return PutAttempt::Again(block);
        }
        probe.at(4);
        let asked = Snapshot::of(&block);
        spare.keep(self.move_in(stepper, count, StoredBlock { writer, block }));
        probe.at(5);
        self.store::<Brand>(stepper, writer, &asked, count);
        PutAttempt::Answered(PutAnswer::Taken(self.key.first + count + 1))
    }
}
