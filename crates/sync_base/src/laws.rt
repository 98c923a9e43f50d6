//! What holds of every direction of a pipe, and each limit and flag by its number. Each law is a
//! function that does nothing: its contract is the law.
ghost use Rattle.std.specs.Prelude.{◌≡◌};
ghost use Rattle.sync_base.specs.Flags.{bits_of};
ghost use Rattle.sync_base.specs.declared.flags.TheConstants.Flags.{NONE, RFPROC, RFREND};
ghost use Rattle.sync_base.specs.declared.flags.TheConstants.Flags.{RFNOTEG};
ghost use Rattle.sync_base.specs.declared.limits.TheConstants.{MAX_PROCS, MAX_RENDEZ};
ghost use Rattle.sync_base.specs.declared.limits.TheConstants.{MAX_PIPE_LIMIT, MAX_WRITERS};
ghost use Rattle.sync_base.specs.declared.limits.TheConstants.{ATOMIC_SIZE, TOP_LEVEL, LAST_WRITE};
ghost use Rattle.sync_base.specs.PipeLaws.{TooBigComesFirst, OtherWritesAreAnswered};
ghost use Rattle.sync_base.specs.PipeLaws.{BadCountComesFirst, OtherReadsAreAnswered};
ghost use Rattle.sync_base.specs.PipeLaws.{WriteAnswersApply, HungupComesFirst};
ghost use Rattle.sync_base.specs.PipeLaws.{FullComesBeforeTaken, ReadAnswersApply};
ghost use Rattle.sync_base.specs.PipeLaws.{EndComesBeforeEmpty, StreamReadAnswersApply};
ghost use Rattle.sync_base.specs.PipeLaws.{StreamEndComesBeforeEmpty, StreamReadsLoseNothing};
ghost use Rattle.sync_base.specs.PipeLaws.{StreamReadsPassAll, OpeningIsState, WritesKeepState};
ghost use Rattle.sync_base.specs.PipeLaws.{ReadsKeepState, HangupKeepsState};

/// A write above the atomic size and a read of no bytes are refused first, and no other write or
/// read is.
pub fn refusals_come_first()
    ensures too_big { TooBigComesFirst }
    ensures other_writes { OtherWritesAreAnswered }
    ensures bad_count { BadCountComesFirst }
    ensures other_reads { OtherReadsAreAnswered }
{}

/// A write and a read get the first answer that applies.
pub fn first_answer_that_applies()
    ensures write { WriteAnswersApply }
    ensures hungup { HungupComesFirst }
    ensures full { FullComesBeforeTaken }
    ensures read { ReadAnswersApply }
    ensures end { EndComesBeforeEmpty }
    ensures stream_read { StreamReadAnswersApply }
    ensures stream_end { StreamEndComesBeforeEmpty }
{}

/// A read in stream mode leaves unread just the bytes that it had no room for. Where it had room
/// for more than there is, it leaves no write.
pub fn stream_reads_go_on()
    ensures loses_nothing { StreamReadsLoseNothing }
    ensures passes_all { StreamReadsPassAll }
{}

/// From the opening on the position is within what was accepted, a begun write has a byte left, and
/// no more writes wait than the limit allows.
pub fn state_stays_a_state()
    ensures opening { OpeningIsState }
    ensures writes { WritesKeepState }
    ensures reads { ReadsKeepState }
    ensures hangup { HangupKeepsState }
{}

/// The limits that the code tests and the definitions cite.
pub fn limits_by_number()
    ensures procs { MAX_PROCS ≡ 1024 }
    ensures rendez { MAX_RENDEZ ≡ 8192 }
    ensures pipe_limit { MAX_PIPE_LIMIT ≡ 1024 }
    ensures writers { MAX_WRITERS ≡ 64 }
    ensures atomic_size { ATOMIC_SIZE ≡ 65536 }
    ensures top_level { TOP_LEVEL ≡ 18446744073709551615 }
    ensures last_write { LAST_WRITE ≡ 4611686018427387903 }
{}

/// The bits of the flags of rfork.
pub fn flags_by_number()
    ensures none { bits_of NONE ≡ 0 }
    ensures rfproc { bits_of RFPROC ≡ 1 }
    ensures rfrend { bits_of RFREND ≡ 2 }
    ensures rfnoteg { bits_of RFNOTEG ≡ 4 }
{}
