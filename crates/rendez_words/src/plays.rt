//! What a seat learns from each kind of step. These types are for the proofs alone.
ghost use Rattle.rendez_words.specs.Plays.{HasStepped, HasMadeWhereEmpty, HasChecked};
ghost use Rattle.rendez_words.specs.View.{one_less_view, given_view, joined_view};
ghost use Rattle.rendez_words.specs.View.{sleeper_view, raiser_view};
ghost use Rattle.rendez_words.specs.declared.view.View.TheVariants.{Spent};

use crate::view::View;
use atomic_table::{Join, Play, Split};
use std::marker::{Brand, PhantomData};

/// The event that a step makes. Each step picks its own.
pub trait Making {
    ghost use Rattle.sleep_core.specs.declared.event.Event.{Event};
    ghost use Rattle.rendez_words.specs.declared.view.Sizes.{Sizes};

    ghost event: { Event };

    ghost sizes: { Sizes };
}

impl Making for Brand {
    ghost use Rattle.sleep_core.specs.declared.event.Event.TheVariants.{Test};

    ghost event = { Test (record { 0 = 0 }) };

    ghost sizes = { record { procs = 0; rendez = 0 } };
}

pub struct Make<M> {
    making: PhantomData<M>,
}

impl<M: Making> Play<(), View> for Make<M> {
    ghost then = { λ _ before found after. HasStepped M.sizes M.event before found after };
}

pub struct MakeWhereEmpty<M> {
    making: PhantomData<M>,
}

impl<M: Making> Play<(), View> for MakeWhereEmpty<M> {
    ghost then = { λ _ before found after.
        HasMadeWhereEmpty M.sizes M.event before found after };
}

pub struct CheckPosted<M> {
    making: PhantomData<M>,
}

impl<M: Making> Play<(), View> for CheckPosted<M> {
    ghost then = { λ _ before found after. HasChecked M.sizes M.event before found after };
}

pub struct GivePid;

impl Split<View> for GivePid {
    ghost left = { one_less_view };

    ghost right = { given_view };
}

pub struct JoinParts;

impl Join<View> for JoinParts {
    ghost both = { joined_view };

    ghost spent = { Spent };
}

pub struct CutParts;

impl Split<View> for CutParts {
    ghost left = { sleeper_view };

    ghost right = { raiser_view };
}
