//! What the calls of a queue answer.
use sync_base::Fault;

/// A value that was not sent, and why.
#[derive(Debug, Clone, PartialEq, Drop)]
pub struct Unsent<T> {
    pub value: T,
    pub fault: Fault,
}

/// Why it was not sent, for a caller that does not want its value back.
impl<T: Drop> From<Unsent<T>> for Fault {
    ghost use Rattle.std.specs.Prelude.{◌≡◌};

    ghost from_gives = { λ unsent fault. fault ≡ unsent.fault };

    fn from(unsent: Unsent<T>) -> Fault {
        let Unsent { value: _, fault } = unsent;
        fault
    }
}

/// The answer of a send that does not wait. A value that was not sent comes back.
#[derive(Debug, Clone, PartialEq, Drop)]
pub enum TrySent<T> {
    /// The value was accepted.
    Sent,
    /// There is no room now.
    Full(T),
    /// The queue is hung up, or its receivers have closed.
    Over(T),
    /// The kernel of the process has too few Rendez for the queue.
    NoRendez(T),
}

/// The answer of a receive.
#[derive(Debug, Clone, PartialEq, Drop)]
pub enum Received<T> {
    /// The oldest value.
    Value(T),
    /// The queue is hung up, or its senders have closed, and all that it accepted was received.
    End,
}

/// The answer of a receive that does not wait.
#[derive(Debug, Clone, PartialEq, Drop)]
pub enum TryReceived<T> {
    /// The oldest value.
    Value(T),
    /// There is no value now.
    NotNow,
    /// The queue is hung up, or its senders have closed, and all that it accepted was received.
    End,
}
