//! Which of two timers expires first.
ghost use Rattle.std.specs.Prelude.{◌≡◌, IsTrue, ◌↔◌};
ghost use Rattle.timer_list.specs.Due.{is_before, earlier_of};

/// A timer that may expire: its seat, and the moment from which on a tick ends it.
#[derive(Clone, Copy, Debug, PartialEq, Eq)]
pub struct Due {
    pub deadline: u64,
    pub seat: u64,
}

impl Due {
    /// Whether this timer expires before the other: the least deadline comes first, and then the
    /// least seat.
    pub fn is_before(&self, other: &Due) -> bool
        ensures { result ≡ is_before self.now other.now }
    {
        self.deadline < other.deadline || self.deadline == other.deadline && self.seat < other.seat
    }

    /// The timer of the two that expires first.
    pub fn earlier(first: Option<Due>, second: Option<Due>) -> Option<Due>
        ensures { result ≡ earlier_of first second }
    {
        match (first, second) {
            (None, _) => second,
            (_, None) => first,
            (Some(one), Some(other)) => Some(if other.is_before(&one) { other } else { one }),
        }
    }
}
