//! What a seat learns from each kind of step. These types are for the proofs alone.
ghost use Rattle.std.specs.Prelude.{[]};
ghost use Rattle.block_queue.specs.GatherSteps.{HasSurveyed};
ghost use Rattle.block_queue.specs.Rule.{spent_view};
ghost use Rattle.block_queue.specs.Steps.{
  joined_view,
  HasPutTail,
  HasPutSequence,
  HasAccepted,
  HasStored,
  HasTakeReady,
  HasTakeTail,
  HasTakeSequence,
  HasFreed,
  HasHung,
  keeper_view,
  handed_view,
};

use crate::spare::Slot;
use crate::view::View;
use atomic_table::{Play, Split};
use std::marker::{Brand, PhantomData};

/// What a step is asked for. Each call of a step picks its own.
pub trait Asks {
    ghost use Rattle.block_queue.specs.Steps.{Asked};

    ghost asked: { Asked };
}

impl Asks for Brand {
    ghost asked = { record {
      key = record { limit = 0; first = 0; writers = 0 };
      write = record { writer = 0; bytes = [] };
      count = 0;
    } };
}

pub struct PutTail<M> {
    asked: PhantomData<M>,
}

impl<M: Asks> Play<Slot, View> for PutTail<M> {
    ghost then = { λ _ before found after. HasPutTail M.asked before found after };
}

pub struct PutSequence<M> {
    asked: PhantomData<M>,
}

impl<M: Asks> Play<Slot, View> for PutSequence<M> {
    ghost then = { λ _ before found after. HasPutSequence M.asked before found after };
}

pub struct Accept<M> {
    asked: PhantomData<M>,
}

impl<M: Asks> Play<Slot, View> for Accept<M> {
    ghost then = { λ _ before found after. HasAccepted M.asked before found after };
}

pub struct Store<M> {
    asked: PhantomData<M>,
}

impl<M: Asks> Play<Slot, View> for Store<M> {
    ghost then = { λ _ before _ after. HasStored M.asked before after };
}

pub struct TakeReady<M> {
    asked: PhantomData<M>,
}

impl<M: Asks> Play<Slot, View> for TakeReady<M> {
    ghost then = { λ _ before found after. HasTakeReady M.asked.key before found after };
}

pub struct TakeTail<M> {
    asked: PhantomData<M>,
}

impl<M: Asks> Play<Slot, View> for TakeTail<M> {
    ghost then = { λ _ before found after. HasTakeTail M.asked.key before found after };
}

pub struct TakeSequence<M> {
    asked: PhantomData<M>,
}

impl<M: Asks> Play<Slot, View> for TakeSequence<M> {
    ghost then = { λ _ before found after. HasTakeSequence M.asked.key before found after };
}

pub struct FreePlace<M> {
    asked: PhantomData<M>,
}

impl<M: Asks> Play<Slot, View> for FreePlace<M> {
    ghost then = { λ _ before _ after. HasFreed M.asked.key M.asked.write before after };
}

pub struct Hang<M> {
    asked: PhantomData<M>,
}

impl<M: Asks> Play<Slot, View> for Hang<M> {
    ghost then = { λ _ before _ after. HasHung M.asked.key before after };
}

pub struct Hand;

impl Split<View> for Hand {
    ghost left = { keeper_view };

    ghost right = { handed_view };
}

pub struct Join;

impl atomic_table::Join<View> for Join {
    ghost both = { joined_view };

    ghost spent = { spent_view };
}

pub struct Survey<M> {
    asked: PhantomData<M>,
}

impl<M: Asks> Play<Slot, View> for Survey<M> {
    ghost then = { λ _ before found after. HasSurveyed M.asked.key before found after };
}
