//! How a process looks at its flags, and parks until they change. A process parks only on what it
//! saw in its flags after its announcement: `look_announced` alone gives a `Seen`, and `park` alone
//! spends it. What has announced itself goes from call to call, and the process with it.
ghost use Rattle.std.specs.Prelude.{◌≡◌, ◌<◌, ◌%◌, ◌^◌, OnErr, IfOk, IfErr, MatchResult};
ghost use Rattle.std.specs.Bool.{OnTrue, OnFalse};
ghost use Rattle.sleep_core.specs.Table.Cell.{FlagsOf};
ghost use Rattle.sleep_core.specs.declared.event.Event.TheVariants.{Look};
ghost use Rattle.rendez_words.specs.FlagsWord.{flags_word};
ghost use Rattle.rendez_words.specs.Plays.{HasMade, part_of};
ghost use Rattle.rendez_words.specs.Process.{phase_in, pid_in};
ghost use Rattle.rendez_words.specs.Rule.{index_of};
ghost use Rattle.rendez_words.specs.States.{IsLooking, EndsWait, KeepsWait};
ghost use Rattle.rendez_words.specs.Words.{IsProcessOf, sizes_of, procs_of};

use crate::flags_word::flags_in;
use crate::parking::Announced;
use crate::states::Caller;
use crate::words::Words;
use sleep_core::{Event, ProcFlags};
use std::marker::Brand;
use std::sync::Wait;

/// A process that has announced that it parks, and what it then saw in its flags: they don't end
/// its wait. `park` spends it.
#[must_use]
pub(crate) struct Seen {
    announced: Announced,
    word: u64,
}

/// A process that has announced that it parks, and the flags that end its wait.
#[must_use]
pub(crate) struct Ended {
    pub(crate) announced: Announced,
    pub(crate) flags: ProcFlags,
}

impl Words {
    /// Looks at the flags of the process: the flags where they end its wait, or else the word.
    // Step Look: load of the flags. Seat: Asleep, then Woken or Leaving, or Awaiting, then Woken;
    // as it was where the flags don't end its wait.
    pub(crate) fn look_at(&self, caller: &mut Caller, notes_end: bool) -> Result<ProcFlags, u64>
        requires process { IsProcessOf self.now caller.old }
        requires looking { IsLooking notes_end (phase_in caller.old) }
        ensures table { caller.new.table ≡ caller.old.table }
        ensures made { MatchResult result
            (λ flags. HasMade (sizes_of self.now) (Look (pid_in caller.old))
            (part_of caller.old) (flags_word flags) (part_of caller.new))
            (λ word. HasMade (sizes_of self.now) (Look (pid_in caller.old))
            (part_of caller.old) word (part_of caller.new)) }
        ensures ends { IfOk result (EndsWait notes_end) }
        ensures same { OnErr result (caller.new ≡ caller.old) }
    {
        let pid = caller.pid();
        let word = self.load::<Brand>(caller, self.flags_word(pid), &Event::Look { pid });
        let flags = flags_in(word);
        if ends_wait(flags, notes_end) {
            Ok(flags)
        } else {
            Err(word)
        }
    }

    /// The same for a process that has announced that it parks.
    // A mark that found it awake came before it said so, and this look comes after: it sees that.
    pub(crate) fn look_announced(
        &self,
        mut announced: Announced,
        notes_end: bool,
    ) -> Result<Ended, Seen>
        requires process { IsProcessOf self.now announced }
        requires looking { IsLooking notes_end (phase_in announced) }
        ensures table { IfOk result (λ ended. ended.announced.table ≡ announced.table) }
        ensures made { MatchResult result
            (λ ended. HasMade (sizes_of self.now) (Look (pid_in announced))
            (part_of announced) (flags_word ended.flags) (part_of ended.announced))
            (λ seen. HasMade (sizes_of self.now) (Look (pid_in announced))
            (part_of announced) seen.word (part_of announced)) }
        ensures ends { IfOk result (λ ended. EndsWait notes_end ended.flags) }
        ensures same { IfErr result (λ seen. seen.announced ≡ announced) }
    {
        match announced.look(self, notes_end) {
            Ok(flags) => Ok(Ended { announced, flags }),
            Err(word) => Err(Seen { announced, word }),
        }
    }

    /// Parks while the flags are what the process saw.
    pub(crate) fn park<R: Wait>(&self, rt: &R, seen: Seen) -> Announced
        requires { IsProcessOf self.now seen.announced }
        ensures { result ≡ seen.announced }
    {
        let word = self.flags_word(seen.announced.pid());
        let expected = (seen.word % (1 << 32)) as u32;
        self.park_at(rt, seen, word, expected)
    }

    // Parks on the word of its flags.
    fn park_at<R: Wait>(&self, rt: &R, seen: Seen, word: usize, expected: u32) -> Announced
        requires pid { seen.announced.pid < procs_of self.now }
        requires word { word ≡ index_of (sizes_of self.now) (FlagsOf seen.announced.pid) }
        requires expected { expected ≡ seen.word % 2 ^ 32 }
        ensures { result ≡ seen.announced }
    {
        let Seen { announced, word: _ } = seen;
        self.table.shared.park(rt, word, expected);
        announced
    }
}

// Whether the flags end a wait.
fn ends_wait(flags: ProcFlags, notes_end: bool) -> bool
    ensures ends { OnTrue result (EndsWait notes_end flags) }
    ensures parks { OnFalse result (KeepsWait notes_end flags) }
{
    flags.wake || notes_end && !flags.notes.is_empty()
}
