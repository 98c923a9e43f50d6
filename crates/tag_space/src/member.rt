//! A member of a tag space.
ghost use Rattle.std.specs.Prelude.{◌≡◌};

use crate::group_object::GroupObject;
use kernel_lock::LockSeat;
use sync_base::RendezId;

/// A member of a tag space, with which a process calls there. It is used with its own space.
#[derive(Drop)]
pub struct Member {
    pub(crate) seat: LockSeat<GroupObject>,
    pub(crate) rendez: RendezId,
}

impl Member {
    /// The Rendez in which it waits for a partner: the first Rendez of its space, plus its own
    /// number. Takes no memory and doesn't wait.
    pub fn rendez(&self) -> RendezId
        ensures { result ≡ self.now.rendez }
    {
        self.rendez
    }
}
