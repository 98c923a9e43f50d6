//! How a process wakes another.
ghost use Rattle.std.specs.Prelude.{◌≡◌, ◌≤◌, ◌<◌, IfOk, IfErr, OnOk, OnErr};
ghost use Rattle.sync_base.specs.declared.fault.Fault.TheVariants.{NoRendez};
ghost use Rattle.rendez_words.specs.Process.{phase_in};
ghost use Rattle.rendez_words.specs.Words.{IsProcessOf, IsOfWakeup, HasReceipt, rendez_of};
ghost use Rattle.sleep_wakeup.specs.Calls.{Wakes, Ends};

use crate::proc::Proc;
use rendez_words::{Done, Owing, Refused, Returned, Seat, TakeAnswer, Words};
use sync_base::{Fault, RendezId};

impl<'k> Proc<'k> {
    ghost use Rattle.std.specs.Prelude.{◌≡◌, ◌≤◌, ◌<◌, IfOk, IfErr, OnOk, OnErr};
    ghost use Rattle.sync_base.specs.declared.fault.Fault.TheVariants.{NoRendez};
    ghost use Rattle.rendez_words.specs.Words.{rendez_of};
    ghost use Rattle.sleep_wakeup.specs.Calls.{Wakes};

    /// Raises the level of the Rendez to at least this one, takes the process that sleeps there out
    /// of it, if there is one, whatever its threshold, and marks it. The receipt says so.
    /// Refuses as `NoRendez`. Takes no memory and doesn't wait.
    pub fn wakeup(&mut self, rendez: RendezId, level: u64) -> Result<Done, Fault>
        // Refused first, and then nothing changes.
        ensures allowed { OnOk result (rendez.0 < rendez_of self.old.words) }
        ensures fault { IfErr result (λ fault. fault ≡ NoRendez) }
        ensures refused { OnErr result (rendez_of self.old.words ≤ rendez.0) }
        ensures same { OnErr result (self.new ≡ self.old) }

        // Otherwise whoever slept there is marked.
        ensures woken { IfOk result (Wakes self.old.process rendez level self.new.process) }
        ensures words { self.new.words ≡ self.old.words }
    {
        let Some(seat) = self.seat.take() else {
            unreachable!()
        };
        let Woke { seat, answer } = wake_with(self.words, seat, rendez, level);
        self.seat = Some(seat);
        answer
    }
}

// A wakeup has returned or was refused: the seat of its process, and the answer.
#[derive(Drop)]
struct Woke {
    seat: Seat,
    answer: Result<Done, Fault>,
}

fn wake_with(words: &Words, seat: Seat, rendez: RendezId, level: u64) -> Woke
    requires { IsProcessOf words.now seat }
    ensures allowed { OnOk result.answer (rendez.0 < rendez_of words.now) }
    ensures fault { IfErr result.answer (λ fault. fault ≡ NoRendez) }
    ensures refused { OnErr result.answer (rendez_of words.now ≤ rendez.0) }
    ensures same { OnErr result.answer (result.seat ≡ seat) }
    ensures woken { IfOk result.answer (Wakes seat rendez level result.seat) }
    ensures words { IsProcessOf words.now result.seat }
    ensures pid { result.seat.pid ≡ seat.pid }
{
    match words.raise(seat, rendez, level) {
        Ok(owing) => {
            let Returned { seat, done } = take_and_mark(words, owing);
            Woke {
                seat,
                answer: Ok(done),
            }
        }
        Err(Refused { seat, fault }) => Woke {
            seat,
            answer: Err(fault),
        },
    }
}

// The rest of a wakeup that has raised the level.
fn take_and_mark(words: &Words, owing: Owing) -> Returned
    requires { IsProcessOf words.now owing }
    ensures ends { Ends owing result.seat }
    ensures done { IsOfWakeup (phase_in owing) result.done }
    ensures receipt { HasReceipt result.seat result.done }
    ensures words { IsProcessOf words.now result.seat }
{
    match words.take(owing) {
        TakeAnswer::Nobody(returned) => returned,
        TakeAnswer::Holding(holding) => words.mark(holding),
    }
}
