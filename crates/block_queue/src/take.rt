//! A take, and a hangup from either side.
ghost use Rattle.std.specs.Prelude.{◌≡◌, ◌+◌, ◌<◌, ◌^◌};
ghost use Rattle.block_queue.specs.declared.entry.Entry.TheVariants.{Hung};
ghost use Rattle.block_queue.specs.Calls.{Takes, IsFreshTake, blocks_in};
ghost use Rattle.block_queue.specs.Meaning.{Enters};
ghost use Rattle.block_queue.specs.Seats.{
  IsFreeStepperOf,
  IsPutSeatOf,
  IsTakeSeatOf,
  IsSameSeat,
  key_of,
  put_account,
  take_account,
};
ghost use Rattle.block_queue.specs.Tries.{IsTakingOut, HasTakenOut};

use crate::answers::TakeAnswer;
use crate::places::{MARK, stored};
use crate::queue::Queue;
use crate::rule::Stepper;
use crate::seats::{PutSeat, TakeSeat};
use crate::spare::Spare;
use crate::stored_block::StoredBlock;
use std::marker::Brand;
use sync_base::{NoProbe, Probe};

// How many blocks a take gave.
fn blocks(answer: &TakeAnswer) -> u64
    ensures { result ≡ blocks_in answer.now }
{
    match answer {
        TakeAnswer::Block(_, _, _) => 1,
        TakeAnswer::NotYet(_) => 0,
        TakeAnswer::End => 0,
    }
}

// Passes the points of the two loads that a quick look stands for.
fn pass_loads<P: Probe>(probe: &mut P) {
    for point in [1, 2] {
        probe.at(point);
    }
}

impl Queue {
    /// Takes the next block out. It waits for nobody, and takes no memory.
    ///
    /// Answers `End` where the queue is hung up and all that was accepted is taken out, `NotYet`
    /// where no block is left or the put of the next one has not returned, and else `Block`. A seat
    /// that knew of the hangup gets `NotYet` only while a block is left.
    #[inline(always)]
    pub fn take(&self, seat: &mut TakeSeat) -> TakeAnswer
        requires seat { IsTakeSeatOf self.now seat.old }
        ensures seat { IsTakeSeatOf self.now seat.new }
        ensures same { IsSameSeat (take_account seat.old) (take_account seat.new) }

        // Its entry ends what the seat has seen, and stands in one legal history.
        ensures answer { Takes (key_of self.now)
            (take_account seat.old) (take_account seat.new) result }
        ensures fresh { IsFreshTake (key_of self.now)
            (take_account seat.old) (take_account seat.new) result }
    {
        self.take_probed(seat, &mut NoProbe)
    }

    /// A `take` that calls its probe at its points: 1 before it loads the tail, 2 before it loads
    /// the sequence word, 3 before the block leaves its slot, and 4 before its place is free.
    ///
    /// It has a quick look at the place before point 1. Where the block stands there, points 1 and
    /// 2 are passed and neither word is loaded again.
    #[inline(always)]
    pub fn take_probed<P: Probe>(&self, seat: &mut TakeSeat, probe: &mut P) -> TakeAnswer
        requires seat { IsTakeSeatOf self.now seat.old }
        ensures seat { IsTakeSeatOf self.now seat.new }
        ensures same { IsSameSeat (take_account seat.old) (take_account seat.new) }

        // Its entry ends what the seat has seen, and stands in one legal history.
        ensures answer { Takes (key_of self.now)
            (take_account seat.old) (take_account seat.new) result }
        ensures fresh { IsFreshTake (key_of self.now)
            (take_account seat.old) (take_account seat.new) result }
    {
        let mut stepper = seat.take_token();
        let answer = self.take_next(&mut stepper, &mut seat.spare, seat.taken, probe);
        seat.taken += blocks(&answer);
        seat.put_token(stepper);
        answer
    }

    // Where a quick look finds the next block it comes out, and the tail is left to the writers.
    // Else the tail says whether the queue has ended, and the block may stand since.
    #[inline(always)]
    pub(crate) fn take_next<P: Probe>(
        &self,
        stepper: &mut Stepper,
        spare: &mut Spare,
        taken: u64,
        probe: &mut P,
    ) -> TakeAnswer
        requires stepper { IsFreeStepperOf self.now stepper.old 0 }
        requires taken { taken ≡ stepper.old.me.0.taken }
        ensures stepper { IsFreeStepperOf self.now stepper.new 0 }
        ensures answer { Takes (key_of self.now)
            stepper.old.me.0.account stepper.new.me.0.account result }
        ensures fresh { IsFreshTake (key_of self.now)
            stepper.old.me.0.account stepper.new.me.0.account result }
        ensures counted { stepper.new.me.0.taken ≡ taken + blocks_in result }
        ensures small { taken < 2 ^ 62 }
    {
        let ready = self.take_ready::<Brand>(stepper, taken);
        if ready == stored(self.key.limit, taken) {
            pass_loads(probe);
            return self.take_out(stepper, spare, taken, probe);
        }
        probe.at(1);
        let tail = self.take_tail::<Brand>(stepper);
        if tail == taken + MARK {
            return TakeAnswer::End;
        }
        probe.at(2);
        let word = self.take_sequence::<Brand>(stepper, taken);
        if word != stored(self.key.limit, taken) {
            return TakeAnswer::NotYet(self.key.first + taken);
        }
        self.take_out(stepper, spare, taken, probe)
    }

    // The rest of a take: the block comes out of the slot, which is the seat's, and its place is
    // free.
    fn take_out<P: Probe>(
        &self,
        stepper: &mut Stepper,
        spare: &mut Spare,
        taken: u64,
        probe: &mut P,
    ) -> TakeAnswer
        requires { IsTakingOut self.now taken stepper.old }
        ensures { HasTakenOut self.now taken stepper.old stepper.new result }
    {
        probe.at(3);
        let stored = self.move_out(stepper, taken, spare.take());
        probe.at(4);
        self.free_place::<Brand>(stepper, taken, &stored);
        let StoredBlock { writer, block } = stored;
        TakeAnswer::Block(block, writer, self.key.first + taken + 1)
    }

    /// Hangs the queue up from the side of the writers, for all of them and for good. What was
    /// accepted stays. It waits for nobody, and takes no memory.
    pub fn hang_put(&self, seat: &mut PutSeat)
        requires seat { IsPutSeatOf self.now seat.old }
        ensures seat { IsPutSeatOf self.now seat.new }
        ensures writer { seat.new.writer ≡ seat.old.writer }
        ensures same { IsSameSeat (put_account seat.old) (put_account seat.new) }
        ensures hung { Enters (key_of self.now) (Hung (seat.old.writer + 1))
            (put_account seat.old) (put_account seat.new) }
    {
        let mut stepper = seat.take_token();
        self.hang(&mut stepper, seat.writer + 1);
        seat.put_token(stepper);
    }

    /// Hangs the queue up from the side of the reader, for good. What was accepted stays. It waits
    /// for nobody, and takes no memory.
    pub fn hang_take(&self, seat: &mut TakeSeat)
        requires seat { IsTakeSeatOf self.now seat.old }
        ensures seat { IsTakeSeatOf self.now seat.new }
        ensures same { IsSameSeat (take_account seat.old) (take_account seat.new) }
        ensures hung { Enters (key_of self.now) (Hung 0)
            (take_account seat.old) (take_account seat.new) }
    {
        let mut stepper = seat.take_token();
        self.hang(&mut stepper, 0);
        seat.put_token(stepper);
    }

    fn hang(&self, stepper: &mut Stepper, number: u64)
        requires stepper { IsFreeStepperOf self.now stepper.old number }
        ensures stepper { IsFreeStepperOf self.now stepper.new number }
        ensures hung { Enters (key_of self.now) (Hung number)
            stepper.old.me.0.account stepper.new.me.0.account }
        ensures taken { stepper.new.me.0.taken ≡ stepper.old.me.0.taken }
    {
        self.hang_up::<Brand>(stepper, number);
    }
}
