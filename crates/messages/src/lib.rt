//! A bounded queue of values of any type, after Channel in thread(2): senders wait for room,
//! receivers wait for values, and both end with the last handle of a side, or with a hangup. Read
//! `limits`, `line`, `message_object`,
//! `object`; then `known`, `channel`, `messages`, `answers`; `sending`, `receiving`, `hanging`,
//! `counting`; and `laws`.
//!
//! # How a call goes
//!
//! The values lie in an object under a lock, with who waits for room and who waits for a value. A
//! call takes the lock once. Who puts a value in grants it to the first receiver in line, and who
//! takes one out grants its room to the first sender in line; the answer names that seat, and the
//! caller wakes it. What is granted is kept for its seat: it is there when the process comes for
//! it. Where notes or a tick end a wait first, the call leaves the line, and takes along what it
//! was granted by then.
//!
//! # Why the end loses nothing, and leaves nobody asleep
//!
//! Each handle has a seat at the lock, which is open from the call that makes the handle to the one
//! that closes it, and a place, which names the Rendez in which it waits. The object keeps the open
//! seats: the last one of a side that closes hangs the queue up, in the same hold of the lock.
//!
//! That the queue is hung up is part of the object, so each put is before the end or after it. A
//! put after it is refused, with the value. What was accepted came before, and a take finds it; it
//! answers that there is the end only where each value that is left was granted to another
//! receiver, which comes for it. The call that ends the queue wakes whoever waits at any place,
//! with
//! a number above each that was told to who waits; nobody waits any more from then on.
#![tactic(auto)]

pub mod answers;
mod channel;
mod counting;
mod hanging;
mod known;
pub mod laws;
pub mod limits;
mod line;
pub mod message_object;
pub mod messages;
mod object;
mod receiving;
mod sending;

pub use answers::{Received, TryReceived, TrySent, Unsent};
pub use message_object::{MessageCall, MessageObject, MessageReply, Side, Wake};
pub use messages::{Ends, Messages, Receiver, Sender};
