//! What a call that may have to wait asks its device.
use sleep_wakeup::Proc;
use std::sync::Wait;
use sync_base::Fault;

/// The answer of a device.
#[derive(Clone, Copy, Drop)]
pub enum Reply<T> {
    /// The call came to this result.
    Done(T),
    /// It sleeps with this number, and then asks again.
    Wait(u64),
    /// It is refused, and doesn't wait.
    Refused(Fault),
}

/// A call that may have to wait, as its three requests. Each of the first two wakes the calls that
/// it lets go on, and is lent the caller's buffer: no bytes where the call reads none. None of the
/// requests sleeps.
pub trait WaitingCall {
    ghost use Rattle.std.specs.Prelude.{◌≡◌, ⊤, ℕ, List, Option};
    ghost use Rattle.rendez_words.specs.declared.words.Words.{Words};
    ghost use Rattle.waiting.specs.Waiting.{Promise, StandsSo, IsLow, point};

    /// The caller's seat at the device.
    type Seat;

    /// The result of a call that was not refused.
    type Out: Drop;

    /// A seat that may call, a seat whose call waits, and a seat after its call.
    ghost ready: { Self → Self.Seat → Type 0 };

    ghost waits: { Self → Self.Seat → Type 0 };

    ghost rests: { Self → Self.Seat → Type 0 };

    /// A buffer that the call may be lent.
    ghost fits: { Self → List ℕ → Type 0 } = { λ call buffer. ⊤ };

    /// These words have each Rendez that the call may wake.
    ghost knows: { Self → Words → Type 0 };

    /// What a caller sees of the seat and the buffer.
    ghost Sight: { Type 0 };

    ghost sight: { Self.Seat → List ℕ → Sight };

    /// What each request does to the seat, the buffer and the process, by its answer.
    ghost promise: { Self → Promise Sight Self.Out };

    /// The first request.
    fn begin<R: Wait>(
        &self,
        rt: &R,
        proc: &mut Proc<'_>,
        seat: &mut Self::Seat,
        buffer: &mut [u8],
    ) -> Reply<Self::Out>
        requires ready { ready self.now seat.old }
        requires row { knows self.now proc.old.words }
        requires fits { fits self.now buffer.old }
        ensures fits { fits self.now buffer.new }
        ensures words { proc.new.words ≡ proc.old.words }
        ensures stands { StandsSo (rests self.now) (waits self.now) result seat.new }
        ensures low { IsLow result }
        ensures asked { (promise self.now).begun (point (sight seat.old buffer.old) proc.old) result
            (point (sight seat.new buffer.new) proc.new) };

    /// The request after a sleep that ended well.
    fn ask<R: Wait>(
        &self,
        rt: &R,
        proc: &mut Proc<'_>,
        seat: &mut Self::Seat,
        buffer: &mut [u8],
    ) -> Reply<Self::Out>
        requires waits { waits self.now seat.old }
        requires row { knows self.now proc.old.words }
        requires fits { fits self.now buffer.old }
        ensures fits { fits self.now buffer.new }
        ensures words { proc.new.words ≡ proc.old.words }
        ensures stands { StandsSo (rests self.now) (waits self.now) result seat.new }
        ensures low { IsLow result }
        ensures asked { (promise self.now).asked (point (sight seat.old buffer.old) proc.old) result
            (point (sight seat.new buffer.new) proc.new) };

    /// The last request, after a sleep that failed: the result that the call had come to by then,
    /// if it had one.
    fn leave<R: Wait>(&self, rt: &R, seat: &mut Self::Seat) -> Option<Self::Out>
        requires waits { waits self.now seat.old }
        ensures rests { rests self.now seat.new }
        ensures left { (buffer : List ℕ)
            → (promise self.now).left (sight seat.old buffer) result (sight seat.new buffer) };
}
