//! A semaphore as an object that a kernel lock may guard.
ghost use Rattle.semaphore.specs.Definitions.{sema_definition};

use crate::{SemaCall, SemaObject, SemaReply};
use kernel_lock::Object;

impl Object for SemaObject {
    ghost use Rattle.semaphore.specs.Units.{SemaState};

    type Call = SemaCall;

    type Reply = SemaReply;

    ghost State = { SemaState };

    ghost definition = { sema_definition };

    fn caller(request: &SemaCall) -> Option<u64> {
        match request {
            SemaCall::Acquire { seat }
            | SemaCall::AcquireNow { seat }
            | SemaCall::Collect { seat }
            | SemaCall::Leave { seat } => Some(*seat),
            SemaCall::Release { .. } | SemaCall::NextWake => None,
        }
    }

    fn run(&mut self, request: SemaCall) -> SemaReply {
        SemaObject::run(self, request)
    }
}
