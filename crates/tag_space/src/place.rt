//! What a tag space keeps of a member.
ghost use Rattle.std.specs.Prelude.{◌≡◌, ◌+◌, ◌<◌};
ghost use Rattle.tag_space.specs.GroupObject.{value_given};

use crate::limits::LAST_MEETING;
use sync_base::Tag;

/// The state of the member's last call that had to wait.
#[derive(Clone, Copy, Debug, PartialEq, Eq)]
pub enum CallState {
    /// There was none, or it is over.
    Idle,
    /// It waits with this tag, and gives this value.
    Waiting { tag: Tag, value: u64 },
    /// A call that gives this value met it, and the member did not get the answer yet.
    Met { value: u64 },
}

/// A member of a space.
#[derive(Clone, Copy, Debug, PartialEq, Eq)]
pub struct Place {
    pub state: CallState,
    /// How often its waiting calls were met, counted on from the number with which the space began.
    pub meetings: u64,
}

impl Place {
    // The waiting call is met by one with this value, and gives its own.
    pub(crate) fn meet(&mut self, value: u64) -> u64
        requires { self.old.meetings < LAST_MEETING }
        ensures given { result ≡ value_given self.old.state }
        ensures after { self.new ≡
            record { state = CallState.Met value; meetings = self.old.meetings + 1 } }
    {
        let given = match self.state {
            CallState::Waiting { tag: _, value } => value,
            CallState::Idle | CallState::Met { value: _ } => 0,
        };
        self.state = CallState::Met { value };
        self.meetings += 1;
        given
    }
}
