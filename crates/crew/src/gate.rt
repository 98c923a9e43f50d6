//! The gate that lets writers write on, or sends them away.

/// Each writer passes the gate before each of its writes.
pub trait Gate {
    ghost use Rattle.std.specs.Prelude.{◌≡◌, ⊤, ℕ, false};

    /// Where it may send a writer away: at this write of this writer, both counted from 0. By
    /// default anywhere.
    ghost may_stop: { Self → ℕ → ℕ → Type 0 } = { λ gate writer write. ⊤ };

    /// Whether this writer may make this write, both counted from 0. Where it may not, it stops
    /// writing.
    fn pass(&self, writer: u64, write: u64) -> bool
        ensures { result ≡ false → may_stop self.now writer write };
}

/// A gate that every writer passes.
#[derive(Clone, Copy, Drop)]
pub struct OpenGate;

impl Gate for OpenGate {
    ghost may_stop = { λ _ _ _. ⊥ };

    fn pass(&self, _writer: u64, _write: u64) -> bool {
        true
    }
}
