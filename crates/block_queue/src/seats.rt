//! The seats of a queue: its threads call it with them.
ghost use Rattle.std.specs.Prelude.{◌≡◌, [], ◌∷◌};
ghost use Rattle.block_queue.specs.Seats.{put_view, take_view};

use crate::rule::Stepper;
use crate::spare::Spare;
use crate::view::View;
use atomic_table::Badge;
use std::mem;

/// The seat of a writer, with which one thread at a time puts blocks.
#[derive(Drop)]
pub struct PutSeat {
    pub(crate) badge: Badge<View>,
    pub(crate) writer: u64,
    /// The memory of its next block.
    pub spare: Spare,
}

/// The seat of the reader, with which one thread at a time takes blocks out.
#[derive(Drop)]
pub struct TakeSeat {
    pub(crate) badge: Badge<View>,
    pub(crate) taken: u64,
    /// The memory that its next take leaves in the ring, for a writer.
    pub spare: Spare,
}

impl PutSeat {
    /// The number of its writer, from 0 on.
    pub fn writer(&self) -> u64
        ensures { result ≡ self.now.writer }
    {
        self.writer
    }

    /// The stepper with which the seat makes its steps. A blank badge stands in for what it knows
    /// until `put_token`.
    pub(crate) fn take_token(&mut self) -> Stepper
        requires { self.old.badge.views ≡ put_view self.old ∷ [] }
        ensures table { result.table_id ≡ self.old.badge.table_id }
        ensures stepper { result.me ≡ (put_view self.old, []) }
        ensures writer { self.new.writer ≡ self.old.writer }
    {
        mem::replace(&mut self.badge, Badge::blank()).into_seat()
    }

    pub(crate) fn put_token(&mut self, stepper: Stepper)
        requires { stepper.me.1 ≡ [] }
        ensures table { self.new.badge.table_id ≡ stepper.table_id }
        ensures views { self.new.badge.views ≡ stepper.me.0 ∷ [] }
        ensures writer { self.new.writer ≡ self.old.writer }
    {
        self.badge = stepper.into_badge();
    }
}

impl TakeSeat {
    /// The stepper with which the seat makes its steps. A blank badge stands in for what it knows
    /// until `put_token`.
    pub(crate) fn take_token(&mut self) -> Stepper
        requires { self.old.badge.views ≡ take_view self.old ∷ [] }
        ensures table { result.table_id ≡ self.old.badge.table_id }
        ensures stepper { result.me ≡ (take_view self.old, []) }
        ensures taken { self.new.taken ≡ self.old.taken }
    {
        mem::replace(&mut self.badge, Badge::blank()).into_seat()
    }

    pub(crate) fn put_token(&mut self, stepper: Stepper)
        requires { stepper.me.1 ≡ [] }
        ensures table { self.new.badge.table_id ≡ stepper.table_id }
        ensures views { self.new.badge.views ≡ stepper.me.0 ∷ [] }
        ensures taken { self.new.taken ≡ self.old.taken }
    {
        self.badge = stepper.into_badge();
    }
}
