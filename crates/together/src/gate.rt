//! Where each thread of a team waits until it is decided whether the team starts.
ghost use Rattle.std.specs.Prelude.{◌≡◌};
ghost use Rattle.together.specs.Gates.{HasWaited};

use sleep_wakeup::Proc;
use std::sync::{OnceLock, OnceToken, Wait};
use sync_base::{Fault, NoteSet, RendezId};

/// Why a team is called off.
#[derive(Clone, Copy, Drop)]
pub enum Off {
    /// A thread could not be started.
    NoThread,
    /// Another process sleeps in the Rendez of a thread of the team.
    NoSleep,
}

impl Off {
    ghost use Rattle.std.specs.Prelude.{◌≡◌};
    ghost use Rattle.together.specs.Teams.{IsCalledOff, fault_of};

    /// The fault of a team that is called off.
    pub fn fault(self) -> Fault
        ensures is { result ≡ fault_of self }
        ensures off { IsCalledOff result }
    {
        match self {
            Off::NoThread => Fault::Device,
            Off::NoSleep => Fault::DoubleSleep,
        }
    }
}

/// Whether a team starts. It is decided once.
pub type Decision = Result<(), Off>;

/// A Rendez in which one process of a team sleeps, and the level that it sleeps above.
#[derive(Clone, Copy, Drop)]
pub struct Gate {
    pub rendez: RendezId,
    pub level: u64,
}

/// Waits at the gate until it is decided whether the team starts. Notes do not end the wait: they
/// are pending again after it. A process that can't sleep there calls the team off, unless it was
/// decided before.
#[tactic(auto, using(crate::proofs::GateLemmas::waited_none, crate::proofs::GateLemmas::waited_on))]
pub fn await_decision<'d, R: Wait>(
    rt: &R,
    proc: &mut Proc<'_>,
    gate: Gate,
    decision: &'d OnceLock<Decision>,
) -> OnceToken<'d, Decision>
    ensures of { result.of ≡ decision.now.id }
    ensures words { proc.new.words ≡ proc.old.words }
    ensures waited { HasWaited proc.old.process proc.new.process }
{
    let mut kept = NoteSet::empty();
    'waiting: for _ in rt.forever() {
        if let Some(token) = decision.witness() {
            give_back(proc, kept);
            return token;
        }
        match sleep_at(rt, proc, gate) {
            Ok(()) => {}
            Err(Fault::Interrupted(notes)) => kept = kept.join(notes),
            Err(_) => {
                let _decided = decision.set(rt, Err(Off::NoSleep));
            }
        }
    }
    unreachable!()
}

// Sleeps once.
fn sleep_at<R: Wait>(rt: &R, proc: &mut Proc<'_>, gate: Gate) -> Result<(), Fault>
    ensures words { proc.new.words ≡ proc.old.words }
    ensures waited { HasWaited proc.old.process proc.new.process }
{
    proc.sleep(rt, gate.rendez, gate.level)
}

/// Puts notes back that were taken while the process waited, if there were any.
#[tactic(auto, using(crate::proofs::GateLemmas::waited_none))]
pub fn give_back(proc: &mut Proc<'_>, kept: NoteSet)
    ensures words { proc.new.words ≡ proc.old.words }
    ensures waited { HasWaited proc.old.process proc.new.process }
{
    if !kept.is_empty() {
        proc.put_back(kept);
    }
}
