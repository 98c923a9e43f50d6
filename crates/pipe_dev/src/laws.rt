//! What holds of every direction of a pipe. Each law is a function with an empty body, whose
//! contract says it.
ghost use Rattle.pipe_dev.specs.CallLaws.{
  MessagesAreReadOneByOne,
  ReadsAreSteps,
  TriesAreSteps,
  BlockReadsAreSteps,
  HangupsAreSteps,
  WhatIsReadIsRight,
  NewEndsHaveWrittenNothing,
  WritesAddWhatWasAccepted,
  HangupsWriteNothing,
};
ghost use Rattle.pipe_dev.specs.Laws.{
  EachShareIsReadWholeAndOnce,
  EachWriteIsReadWholeAndOnce,
  NoneIsAcceptedAfterHangup,
};
ghost use Rattle.pipe_dev.specs.Openings.{OwnKernelHasEachRendez};
ghost use Rattle.pipe_dev.specs.WaitLaws.{
  WritesWakeTheReader,
  ReadsWakeEachWriter,
  HangupsWakeAll,
  WaitingReadersAreWokenAbove,
  WaitingWritersAreWokenAbove,
  RunWritesWakeTheReader,
  RunReadsWakeEachWriter,
  RunBlockReadsWakeEachWriter,
};
ghost use Rattle.pipe_dev.specs.BlockReads.{RunsOfBlockReadsAreBlockReads};
ghost use Rattle.pipe_dev.specs.ReadCalls.{RunsOfReadsAreReads};
ghost use Rattle.pipe_dev.specs.WriteCalls.{RunsOfWritesAreWrites};

/// A process of the kernel whose roster made a pipe never gets `NoRendez` at its ends.
pub fn own_processes_are_never_refused()
    ensures ends { OwnKernelHasEachRendez }
{}

/// A try of messages reads one part, or finds nothing. Each call of a read end adds one part for
/// the bytes that it got and nothing else. In stream mode a read adds the parts that its bytes are
/// joined from, and an empty part for each empty write that it passed. What was read stays right.
pub fn calls_read_what_they_answer()
    ensures messages { MessagesAreReadOneByOne }
    ensures reads { ReadsAreSteps }
    ensures tries { TriesAreSteps }
    ensures block_reads { BlockReadsAreSteps }
    ensures hangups { HangupsAreSteps }
    ensures right { WhatIsReadIsRight }
{}

/// Each call of a write end adds one accepted write if and only if it answers a number.
pub fn calls_write_what_they_answer()
    ensures new { NewEndsHaveWrittenNothing }
    ensures writes { WritesAddWhatWasAccepted }
    ensures hangups { HangupsWriteNothing }
{}

/// The headline. Whatever calls were made of the ends of a direction, from any threads: what was
/// read from it, followed by what it still holds, is for each writer the bytes of its accepted
/// writes, in its order, each write whole, contiguous and once. No write is accepted after a
/// hangup. Once the wakeup that followed has returned, no process that fell asleep before its
/// condition was made true is still posted, and the level of that wakeup is above the number with
/// which the process had to wait.
pub fn each_write_is_read_whole_and_once()
    ensures shares { EachShareIsReadWholeAndOnce }
    ensures whole { EachWriteIsReadWholeAndOnce }
    ensures accepted { NoneIsAcceptedAfterHangup }
    ensures reader_woken { WritesWakeTheReader }
    ensures writers_woken { ReadsWakeEachWriter }
    ensures all_woken { HangupsWakeAll }
    ensures reader_above { WaitingReadersAreWokenAbove }
    ensures writers_above { WaitingWritersAreWokenAbove }
{}

/// Whatever its runner is, a call does to its direction what a call that waits as long as it takes
/// does, by steps of its caller, and both come to the same result, or neither comes to one: so the
/// laws of writes and reads hold of it.
pub fn runs_are_calls()
    ensures writes { RunsOfWritesAreWrites }
    ensures reads { RunsOfReadsAreReads }
    ensures block_reads { RunsOfBlockReadsAreBlockReads }
{}

/// No wakeup of a call is lost, whatever its runner is: once it has returned, the process that its
/// last request woke is no longer posted.
pub fn runs_wake()
    ensures reader_woken { RunWritesWakeTheReader }
    ensures writers_woken { RunReadsWakeEachWriter }
    ensures writers_woken_by_block { RunBlockReadsWakeEachWriter }
{}
