//! What a seat learns from each kind of step. These types are for the proofs alone.
ghost use Rattle.std.specs.Prelude.{Option, None};
ghost use Rattle.kernel_lock.specs.Steps.{HasAcquired, HasWatched, HasReleased, HasEntered};
ghost use Rattle.kernel_lock.specs.Steps.{HasSettled};
ghost use Rattle.kernel_lock.specs.View.{
  parent_view,
  child_view,
  joined_view,
  spent_view,
};

use crate::object::Object;
use crate::view::{Guarded, View};
use atomic_table::{Join, Play, Split};
use std::marker::{Brand, PhantomData};

pub struct Acquire<O> {
    object: PhantomData<O>,
}

impl<O: Object> Play<Option<Guarded<O>>, View<O, O::Call, O::Reply>> for Acquire<O> {
    ghost then = { λ _ before found after. HasAcquired O.definition before found after };
}

pub struct Poll;

impl<O, Q, R> Play<Option<Guarded<O>>, View<O, Q, R>> for Poll {
    ghost then = { λ _ before _ after. HasWatched before after };
}

/// The request that was served inside, or none where the seat was divided. Each release picks its
/// own.
pub trait Made<Q, R> {
    ghost use Rattle.kernel_lock.specs.declared.view.Operation.{Operation};

    ghost served: { Option (Operation Q R) };
}

impl<Q, R> Made<Q, R> for Brand {
    ghost served = { None };
}

pub struct Release<M> {
    made: PhantomData<M>,
}

impl<O, Q, R, M: Made<Q, R>> Play<Option<Guarded<O>>, View<O, Q, R>> for Release<M> {
    ghost then = { λ _ before _ after. HasReleased M.served before after };
}

pub struct Enter<O, M> {
    object: PhantomData<O>,
    made: PhantomData<M>,
}

impl<O: Object, M: Made<O::Call, O::Reply>> Play<Option<Guarded<O>>, View<O, O::Call, O::Reply>>
    for Enter<O, M> {
    ghost then = { λ _ before _ after. HasEntered O.definition M.served before after };
}

pub struct Divide;

impl<O, Q, R> Split<View<O, Q, R>> for Divide {
    ghost left = { parent_view };

    ghost right = { child_view };
}

pub struct Merge;

impl<O, Q, R> Join<View<O, Q, R>> for Merge {
    ghost both = { joined_view };

    ghost spent = { spent_view };
}

pub struct Settle<O> {
    object: PhantomData<O>,
}

impl<O: Object> Play<Option<Guarded<O>>, View<O, O::Call, O::Reply>> for Settle<O> {
    ghost then = { λ _ before _ after. HasSettled O.definition before after };
}
