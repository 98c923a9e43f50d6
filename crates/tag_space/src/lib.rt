//! Rendezvous in tag spaces, after rendezvous(2): two members of a space that call with one tag
//! exchange their values. Read `calls`, what a member asks and the answers, `limits`, `place`, what
//! is kept of a member, `table` and `tag_table`, how a tag is found, `group_object`, the space as
//! an object for one thread; then `member`, `space`, `asking`, `meeting` and `forking`, the space
//! between threads; and then `laws`.
#![tactic(auto)]

mod asking;
pub mod calls;
pub mod forking;
pub mod group_object;
pub mod laws;
pub mod limits;
pub mod meeting;
pub mod member;
pub mod place;
pub mod space;
mod table;
mod tag_table;

pub use calls::{GroupCall, GroupReply};
pub use forking::{Forked, NotForked, SpentMember, rfork};
pub use group_object::GroupObject;
pub use member::Member;
pub use space::{Opened, TagSpace};
