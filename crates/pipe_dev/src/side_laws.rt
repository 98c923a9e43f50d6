//! What is known of the ends of a direction between their calls, for a caller that lends them to
//! threads. Each law is a function with an empty body, whose contract says it.
ghost use Rattle.pipe_dev.specs.SideLaws.{
  NewEndsAreUnused,
  ReadsAddToTheirEnd,
  TriesAddToTheirEnd,
  BlockReadsAddToTheirEnd,
  ReadEndsHangUp,
  WritesAddToTheirEnd,
  WriteEndsHangUp,
  CallsKeepAllEnds,
  FinishesFindAccepted,
};

/// New ends have read and written nothing. Each call adds to what its end has read or written what
/// it answers, and nothing else.
pub fn ends_know_what_they_did()
    ensures new { NewEndsAreUnused }
    ensures reads { ReadsAddToTheirEnd }
    ensures tries { TriesAddToTheirEnd }
    ensures block_reads { BlockReadsAddToTheirEnd }
    ensures read_hangups { ReadEndsHangUp }
    ensures writes { WritesAddToTheirEnd }
    ensures write_hangups { WriteEndsHangUp }
{}

/// No call takes an end away from its direction. A finish of all ends finds all that was accepted:
/// what was read and what is held are just these writes, each whole and once.
pub fn all_ends_find_all_writes()
    ensures keep { CallsKeepAllEnds }
    ensures found { FinishesFindAccepted }
{}
