//! What holds of every history and of all its seats.
//! Each law is a function that does nothing: its contract is the law, whatever the entries are.
ghost use Rattle.histories.specs.Laws.{
  PastsAreInLine,
  HasEveryNumber,
  NoOtherHasOne,
  KnowsWholeHistory,
  SeatsKeepTime,
};

/// Of two pasts of one history the shorter is a past of the longer.
pub fn pasts_are_in_line<E>()
    ensures { PastsAreInLine E }
{}

/// A seat that has the number 0 and all numbers that it gave has every number that there is. No
/// other seat has a number, and this seat has seen the whole history.
pub fn all_numbers_know_all<E>()
    ensures every { HasEveryNumber E }
    ensures alone { NoOtherHasOne E }
    ensures whole { KnowsWholeHistory E }
{}

/// The order of the history is the order in time. Where the seats fit one history at two moments,
/// and what was seen at the first is seen at the second, an entry that is made between them comes
/// after all that any seat had seen at the first.
pub fn histories_keep_time<V, E>()
    ensures { SeatsKeepTime V E }
{}
