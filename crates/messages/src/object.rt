//! The values of a queue, and who waits for them, as an object that a kernel lock may guard.
ghost use Rattle.messages.specs.MessageObject.{message_definition};

use crate::{MessageCall, MessageObject, MessageReply};
use kernel_lock::Object;

impl<T: Drop> Object for MessageObject<T> {
    ghost use Rattle.messages.specs.MessageObject.{Contents};

    type Call = MessageCall<T>;

    type Reply = MessageReply<T>;

    ghost State = { Contents T };

    ghost definition = { message_definition };

    fn caller(request: &MessageCall<T>) -> Option<u64> {
        match request {
            MessageCall::Put { seat, .. }
            | MessageCall::Take { seat, .. }
            | MessageCall::LeaveSender { seat, .. }
            | MessageCall::LeaveReceiver { seat, .. }
            | MessageCall::Open { seat, .. }
            | MessageCall::Close { seat, .. } => Some(*seat),
            MessageCall::Hang | MessageCall::Count => None,
        }
    }

    fn run(&mut self, request: MessageCall<T>) -> MessageReply<T> {
        MessageObject::run(self, request)
    }
}
