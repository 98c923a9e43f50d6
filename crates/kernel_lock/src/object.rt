//! A sequential object, and its meaning.
ghost use Rattle.std.specs.Prelude.{◌≡◌};
ghost use Rattle.kernel_lock.specs.Definition.{Definition};

/// An object that one thread at a time may call.
pub trait Object: Drop {
    /// What is asked of it.
    type Call;

    /// What it answers.
    type Reply;

    /// What an object means.
    ghost State: { Type 0 };

    /// The meaning of an object, the reply and the meaning after each request,
    /// and the seat that a request names.
    ghost definition: { Definition Self State Self.Call Self.Reply };

    /// The number of the seat that the request names.
    fn caller(request: &Self::Call) -> Option<u64>
        ensures { result ≡ definition.named request.now };

    /// Answers the request.
    fn run(&mut self, request: Self::Call) -> Self::Reply
        ensures reply { result ≡ definition.answer (definition.state self.old) request }
        ensures after { definition.state self.new ≡
            definition.after (definition.state self.old) request };
}

/// The request that a seat makes next while it still holds the lock, by the answer to the request
/// before.
pub trait Follows<Q, R> {
    ghost use Rattle.std.specs.Prelude.{Option};

    /// The request that follows this answer, if one does.
    ghost follower: { R → Option Q };

    /// The same.
    fn next(reply: &R) -> Option<Q>
        ensures { result ≡ follower reply.now };
}

/// The answers to two requests, of which the second followed the first or was not made.
#[derive(Drop)]
pub struct Answers<R> {
    pub first: R,
    pub second: Option<R>,
}
