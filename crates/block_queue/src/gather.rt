//! The end of a queue: all its seats become one, which takes out what is left.
ghost use Rattle.std.specs.Prelude.{◌≡◌, ◌+◌, ◌<◌, ◌≤◌, [], length, IfOk, IfErr};
ghost use Rattle.std.specs.Vec.{vec_capacity};
ghost use Rattle.std.specs.List.{AllByRecursion};
ghost use Rattle.block_queue.specs.declared.view.Stage.TheVariants.{Free};
ghost use Rattle.block_queue.specs.Gather.{
  AreAllSeats,
  Gathers,
  HasJoined,
  TellsPasts,
  Empties,
  IsLeft,
};
ghost use Rattle.block_queue.specs.GatherSteps.{HasSurveyed};
ghost use Rattle.block_queue.specs.Seats.{
  IsFreeStepperOf,
  IsPutSeatOf,
  IsTakeSeatOf,
  IsSameStepper,
  asks,
  key_of,
  no_write,
  put_account,
};
ghost use Rattle.block_queue.specs.Steps.{joined_view};

use crate::answers::TakeAnswer;
use crate::places::{MARK, TAIL};
use crate::plays::{Asks, Join, Survey};
use crate::queue::Queue;
use crate::rule::Stepper;
use crate::seats::{PutSeat, TakeSeat};
use crate::spare::Spare;
use crate::stored_block::StoredBlock;
use std::alloc::Global;
use std::marker::Brand;
use sync_base::{Fault, NoProbe};

/// What is left of a queue.
#[derive(Drop)]
pub struct Gathered {
    /// The blocks that were not taken out, each with its writer, the oldest first.
    pub blocks: Vec<StoredBlock>,
    /// Whether the queue was hung up.
    pub hung: bool,
}

/// There was no memory. The seats come back.
#[derive(Drop)]
pub struct Ungathered {
    pub take: TakeSeat,
    pub puts: Vec<PutSeat>,
}

impl Ungathered {
    /// Why: out of memory, the only refusal of a gather.
    pub fn fault(&self) -> Fault
        ensures { result ≡ Fault.Memory }
    {
        Fault::Memory
    }
}

impl Queue {
    /// Takes out of the queue all that is left, with all its seats. It waits for nobody.
    ///
    /// Where there is no memory all seats come back.
    pub fn gather(
        &self,
        alloc: Global,
        take: TakeSeat,
        puts: Vec<PutSeat>,
    ) -> Result<Gathered, Ungathered>
        requires take { IsTakeSeatOf self.now take }
        requires puts { AllByRecursion (IsPutSeatOf self.now) puts.items }
        requires all { AreAllSeats take puts.items }
        ensures gathered { IfOk result (Gathers (key_of self.now) take puts.items) }
        ensures take { IfErr result (λ refused. refused.take ≡ take) }
        ensures puts { IfErr result (λ refused. refused.puts ≡ puts) }
    {
        let Ok(mut blocks) = Vec::with_capacity(alloc, self.key.limit as usize) else {
            return Err(Ungathered { take, puts });
        };
        let TakeSeat {
            badge,
            taken,
            mut spare,
        } = take;
        let mut stepper = badge.into_seat();
        self.join_all(&mut stepper, puts);
        let tail = self.survey::<Brand>(&mut stepper);
        let hung = tail >= MARK;
        let accepted = tail % MARK;
        self.empty(
            &mut stepper,
            &mut spare,
            taken,
            accepted - taken,
            &mut blocks,
        );
        spare.free();
        Ok(Gathered { blocks, hung })
    }

    // Joins the seats of all writers with the reader's.
    fn join_all(&self, stepper: &mut Stepper, mut puts: Vec<PutSeat>)
        requires stepper { IsFreeStepperOf self.now stepper.old 0 }
        requires puts { AllByRecursion (IsPutSeatOf self.now) puts.items }
        requires none { AllByRecursion (λ seat. (put_account seat).gave ≡ []) puts.items }
        ensures stepper { IsFreeStepperOf self.now stepper.new 0 }
        ensures taken { stepper.new.me.0.taken ≡ stepper.old.me.0.taken }
        ensures joined { HasJoined puts.items stepper.old.me.0.account stepper.new.me.0.account }
        ensures pasts { TellsPasts puts.items stepper.old.me.0 [] stepper.new.me.0 }
    {
        'joining: while let Some(seat) = puts.pop() {
            let PutSeat {
                badge,
                writer: _,
                spare,
            } = seat;
            spare.free();
            self.join(stepper, badge.into_seat());
        }
    }

    /// Makes one seat of the reader's seat and a writer's seat.
    // Step Join: join of two seats, a load of the tail.
    // Seat: Free, with the numbers of both and the longer of what they had seen, and it keeps both.
    // The other is spent.
    // Keeps the rule: both had seen a past of one history, and no put of either was under way.
    fn join(&self, stepper: &mut Stepper, other: Stepper)
        requires stepper { IsFreeStepperOf self.now stepper.old 0 }
        requires table { other.table_id ≡ self.now.table.shared.table_id }
        requires stage { other.me.0.stage ≡ Free }
        requires no_slot { other.me.1 ≡ [] }
        ensures stepper { IsSameStepper stepper.old stepper.new }
        ensures joined { stepper.new.me ≡
            (joined_view stepper.old.me.0 other.me.0, stepper.old.me.1) }
    {
        self.table.shared.join_seat::<Join>(stepper, other);
    }

    /// Reads what is left.
    // Step Survey: load of the tail. Seat: as it was. Keeps the rule: nothing changes.
    fn survey<M: Asks>(&self, stepper: &mut Stepper) -> u64
        requires stepper { IsFreeStepperOf self.now stepper.old 0 }
        requires asked { M.asked ≡ asks self.now 0 no_write }
        ensures stepper { IsSameStepper stepper.old stepper.new }
        ensures told { HasSurveyed self.now.key stepper.old.me result stepper.new.me }
    {
        self.table.shared.load::<Survey<M>>(stepper, TAIL)
    }

    // Takes so many blocks out, which is all that is left.
    fn empty(
        &self,
        stepper: &mut Stepper,
        spare: &mut Spare,
        taken: u64,
        left: u64,
        blocks: &mut Vec<StoredBlock>,
    )
        requires stepper { IsFreeStepperOf self.now stepper.old 0 }
        requires taken { taken ≡ stepper.old.me.0.taken }
        requires left { IsLeft self.now.key stepper.old.me.0.account left }
        requires none { blocks.old.items ≡ [] }
        requires room { left ≤ vec_capacity blocks.old }
        ensures emptied { Empties self.now.key left
            stepper.old.me.0.account stepper.new.me.0.account blocks.new.items }
    {
        let mut taken = taken;
        'emptying: while (blocks.len() as u64) < left {
            match self.take_next(stepper, spare, taken, &mut NoProbe) {
                TakeAnswer::Block(block, writer, _) => {
                    blocks.push_reserved(StoredBlock { writer, block });
                    taken += 1;
                }
                TakeAnswer::NotYet(_) => unreachable!(),
                TakeAnswer::End => unreachable!(),
            }
        }
    }
}
