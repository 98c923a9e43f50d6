//! What holds of every script of every language. Each law is a function that does nothing: its
//! contract is the law.
ghost use Rattle.std.specs.Prelude.{◌≡◌};
ghost use Rattle.scripts.specs.PipeScript.{pipe_language};
ghost use Rattle.scripts.specs.Schedule.{schedule_language};
ghost use Rattle.scripts.specs.ScriptLaws.{LinesMakeText, AnswersAreFinal, OutputIsFinal};
ghost use Rattle.scripts.specs.ScriptLaws.{FrontHasNoFault, TooLongStaysSo, ClosingLineComesLast};
ghost use Rattle.scripts.specs.ScriptLaws.{FaultHasNoClosingLine, FaultIsInScript};
ghost use Rattle.scripts.specs.ScriptLaws.{FaultLeavesAnswers, FirstFaultLeavesNone};
ghost use Rattle.scripts.specs.ScriptLaws.{LinesBeforeHaveNoFault};
ghost use Rattle.scripts.specs.ScriptLaws.{PipeOutputIsFinal, NoScheduleSaysLost};
ghost use Rattle.scripts.specs.TextLaws.{NumbersAreReadBack, BytesAreReadBack, KindsAreReadBack};

use crate::lines::{COMMA, LINE_FEED, SPACE, ZERO};
use crate::script::{MAX_LINE, MAX_SCRIPT, Script};
use sleep_core::laws::no_lost_wakeup;

/// Answers are final: a script that is cut anywhere writes, apart from its closing line, a prefix
/// of what the whole script writes.
pub fn answers_are_final<S: Script>()
    ensures answers { AnswersAreFinal S.language }
    ensures output { OutputIsFinal S.language }
    ensures sound { FrontHasNoFault S.language }
    ensures too_long { TooLongStaysSo S.language }
    ensures closing_line { ClosingLineComesLast S.language }
    ensures fault { FaultHasNoClosingLine S.language }
{}

/// A fault in a line leaves the answers of the lines before it, which have no fault themselves.
pub fn fault_leaves_answers<S: Script>()
    ensures text { LinesMakeText }
    ensures line { FaultIsInScript S.language }
    ensures answers { FaultLeavesAnswers S.language }
    ensures first { FirstFaultLeavesNone S.language }
    ensures before { LinesBeforeHaveNoFault S.language }
{}

/// The same for pipe scripts, which have no closing line, and for schedules.
pub fn pipes_and_schedules()
    ensures pipe_output { PipeOutputIsFinal }
    ensures pipe_fault { FaultLeavesAnswers pipe_language }
    ensures schedule_answers { AnswersAreFinal schedule_language }
    ensures schedule_fault { FaultLeavesAnswers schedule_language }
{}

/// No schedule says that a wakeup was lost: a schedule without a fault ends in `lost no`. The
/// core's law on lists of events gives it.
pub fn no_schedule_says_lost()
    ensures { NoScheduleSaysLost }
{
    no_lost_wakeup();
}

/// What is printed is read back as it was: numbers, bytes and kinds of notes.
pub fn printed_is_read_back()
    ensures numbers { NumbersAreReadBack }
    ensures bytes { BytesAreReadBack }
    ensures kinds { KindsAreReadBack }
{}

/// Each limit of a script and each byte with a meaning, by its number.
pub fn numbers_of_scripts()
    ensures line { MAX_LINE ≡ 200_000 }
    ensures script { MAX_SCRIPT ≡ 16_777_216 }
    ensures line_feed { LINE_FEED ≡ 10 }
    ensures space { SPACE ≡ 32 }
    ensures comma { COMMA ≡ 44 }
    ensures zero { ZERO ≡ 48 }
{}
