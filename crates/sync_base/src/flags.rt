//! The flags of rfork after fork(2), and what they ask for.
ghost use Rattle.std.specs.Prelude.{◌≡◌, ◌↔◌, ℕ, max, IsSome, IfSome};
ghost use Rattle.std.specs.Int.{bit_at};
ghost use Rattle.sync_base.specs.Flags.{AreKnown, bits_of, wants_of};

/// A set of flags of rfork. Bit 0 is RFPROC, bit 1 RFREND and bit 2 RFNOTEG; the numbers are the
/// library's own. Any other bit may be set, so that a call can refuse it.
#[derive(Clone, Copy, Debug, PartialEq, Eq)]
pub struct Flags {
    bits: u32,
}

/// What flags of rfork ask for: a field for each flag.
#[derive(Clone, Copy, Debug, PartialEq, Eq)]
pub struct Wants {
    /// RFPROC: a new process.
    pub process: bool,
    /// RFREND: a new tag space.
    pub space: bool,
    /// RFNOTEG: a new note group.
    pub note_group: bool,
}

impl Flags {
    /// No flag.
    pub const NONE: Flags = Flags { bits: 0 };

    /// A new process is made.
    pub const RFPROC: Flags = Flags { bits: 1 };

    /// A new tag space is made, where calls of rendezvous meet.
    pub const RFREND: Flags = Flags { bits: 2 };

    /// A new note group is made, whose members a note to one of them reaches.
    pub const RFNOTEG: Flags = Flags { bits: 4 };

    /// The flags with these bits, known or not.
    pub const fn from_bits(bits: u32) -> Self
        ensures { bits_of result ≡ bits }
    {
        Flags { bits }
    }

    /// The bits of the flags.
    pub const fn bits(self) -> u32
        ensures { result ≡ bits_of self }
    {
        self.bits
    }

    /// The flags of both sets.
    pub const fn join(self, other: Flags) -> Self
        ensures { (place : ℕ) → bit_at (bits_of result) place
            ≡ max (bit_at (bits_of self) place) (bit_at (bits_of other) place) }
    {
        Flags {
            bits: self.bits | other.bits,
        }
    }

    /// What the flags ask for, or none where a bit other than the three flags is set.
    pub const fn wants(self) -> Option<Wants>
        ensures known { IsSome result ↔ AreKnown self }
        ensures wants { IfSome result (λ wants. wants ≡ wants_of self) }
    {
        let known = Flags::RFPROC.bits | Flags::RFREND.bits | Flags::RFNOTEG.bits;
        if self.bits & !known != 0 {
            return None;
        }
        Some(Wants {
            process: self.bits & Flags::RFPROC.bits != 0,
            space: self.bits & Flags::RFREND.bits != 0,
            note_group: self.bits & Flags::RFNOTEG.bits != 0,
        })
    }
}
