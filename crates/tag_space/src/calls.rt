//! What a member asks of a tag space, and the answers. Members count from 0. The reader comes from
//! `lib`.
ghost use Rattle.std.specs.Prelude.{◌≡◌};
ghost use Rattle.tag_space.specs.GroupObject.{member_of};

use sync_base::Tag;

/// One step of a rendezvous. It waits for nobody.
#[derive(Clone, Copy, Debug, PartialEq, Eq)]
pub enum GroupCall {
    /// The member gives its value under the tag, to the member that waits with that tag or comes
    /// with it.
    Call { member: u64, tag: Tag, value: u64 },
    /// The member asks whether its waiting call was met.
    Collect { member: u64 },
    /// The member asks the same, and waits no longer.
    Leave { member: u64 },
}

impl GroupCall {
    /// The member that calls.
    pub fn member(&self) -> u64
        ensures { result ≡ member_of self.now }
    {
        match *self {
            GroupCall::Call { member, .. }
            | GroupCall::Collect { member }
            | GroupCall::Leave { member } => member,
        }
    }
}

/// The answer to a step.
#[derive(Clone, Copy, Debug, PartialEq, Eq)]
pub enum GroupReply {
    /// The call found the waiting call of this member, which gives this value. The member's waiting
    /// calls were met `count` times, this meeting included.
    Met { value: u64, member: u64, count: u64 },
    /// The waiting call was found by a call that gives this value.
    WasMet { value: u64 },
    /// The member waits, or has no call. So far its waiting calls were met this many times.
    Wait { count: u64 },
    /// The call would wait, and no more meetings of this member can be counted.
    Worn,
    /// The member waits no longer, and its call will never be met.
    Gone,
    /// There is no such member, or its last call that had to wait isn't over.
    Busy,
}
