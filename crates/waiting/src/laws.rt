//! What holds of every call, at whatever device. Each law is a function that does nothing: its
//! contract is the law.
ghost use Rattle.waiting.specs.Wakeups.{ReturnedCallsRelease};

/// No wakeup of a call that has returned is lost: a process that fell asleep below its level is no
/// longer posted there.
pub fn returned_calls_release()
    ensures { ReturnedCallsRelease }
{}
