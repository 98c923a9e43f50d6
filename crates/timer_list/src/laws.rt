//! What holds of timers after every legal history. Each law is a function that does nothing: its
//! contract is the law.
ghost use Rattle.timer_list.specs.TimerLaws.{ExpiredWasTaken};
ghost use Rattle.timer_list.specs.WakeLaws.{TickingTellsEach};

/// A timer that expired was taken by a tick at its deadline or later.
pub fn an_expired_timer_was_taken()
    ensures { ExpiredWasTaken }
{}

/// No note of a tick is lost. Once the tick has returned, for each timer that expired, the note
/// that the tick posted is pending at the timer's process, where its kernel has that process, or
/// that process has taken it since.
pub fn who_expired_is_told()
    ensures { TickingTellsEach }
{}
