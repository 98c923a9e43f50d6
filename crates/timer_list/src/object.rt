//! Timers as an object that a kernel lock may guard.
ghost use Rattle.timer_list.specs.Definitions.{timer_definition};

use crate::{TimerCall, TimerObject, TimerReply};
use kernel_lock::Object;

impl Object for TimerObject {
    ghost use Rattle.std.specs.Prelude.{List};
    ghost use Rattle.timer_list.specs.declared.timer_object.Timer.{Timer};

    type Call = TimerCall;

    type Reply = TimerReply;

    ghost State = { List Timer };

    ghost definition = { timer_definition };

    fn caller(request: &TimerCall) -> Option<u64> {
        match request {
            TimerCall::Add { seat, .. } | TimerCall::Cancel { seat } => Some(*seat),
            TimerCall::Expire { .. } => None,
        }
    }

    fn run(&mut self, request: TimerCall) -> TimerReply {
        TimerObject::run(self, request)
    }
}
