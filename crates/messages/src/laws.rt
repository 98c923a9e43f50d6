//! What holds of a queue of values after every legal history. Each law is a function that does
//! nothing: its contract is the law.
ghost use Rattle.messages.specs.MessageLaws.{
  EachGrantIsNamed,
  EndIsAfterAll,
  EndsWithASide,
  FirstInFirstOut,
  LastCloseWakes,
  NeverOverfull,
  NobodyWaitsForNothing,
  NothingAfterHangup,
  OneHangupIsFirst,
  PlacesComeBack,
  RefusedAfterHangup,
  StatesAreSound,
  WakersAreAbove,
};
ghost use Rattle.messages.specs.WakeLaws.{GrantsRelease, HangupsRelease};

/// Each value that was received was sent, once, and in the order in which they were accepted.
pub fn first_in_first_out<T>()
    ensures { FirstInFirstOut T }
{}

/// No more values are kept than the capacity.
pub fn never_overfull<T>()
    ensures { NeverOverfull T }
{}

/// A queue is hung up just where it was by a call, or where each handle of a side that was opened
/// has closed; and the close of the last one is told a number to wake all with.
pub fn ends_with_a_side<T>()
    ensures ends { EndsWithASide T }
    ensures wakes { LastCloseWakes T }
{}

/// A handle that has closed gives its place back: no handle is refused where fewer are open than
/// the queue has, unless the queue is over and has none of its side.
pub fn places_come_back<T>()
    ensures { PlacesComeBack T }
{}

/// Nothing is accepted after the end, and a value is refused as hung up after it alone.
pub fn nothing_after_hangup<T>()
    ensures accepted { NothingAfterHangup T }
    ensures refused { RefusedAfterHangup T }
{}

/// The end is told only after a hangup or the last close of a side, when all that was accepted was
/// received or was granted to a receiver that has yet to come for it.
pub fn end_is_after_all<T>()
    ensures { EndIsAfterAll T }
{}

/// One hangup, or one close, is the first.
pub fn one_hangup_is_first<T>()
    ensures { OneHangupIsFirst T }
{}

/// Whoever was granted room or a value finds it, and no more wait than there are handles.
pub fn states_are_sound<T>()
    ensures { StatesAreSound T }
{}

/// Nobody waits where there is what it waits for, unless the queue is hung up, and then all who
/// waited were woken.
pub fn nobody_waits_for_nothing<T>()
    ensures { NobodyWaitsForNothing T }
{}

/// Whoever is granted room or a value is named to be woken, and with a number above each that it
/// was told to wait with; so is the number of the hangup.
pub fn who_is_granted_is_woken<T>()
    ensures named { EachGrantIsNamed T }
    ensures above { WakersAreAbove T }
{}

/// No call that waits stays posted once the call that granted it something has returned, or the
/// hangup: a process that sleeps below the number of that grant or hangup is released.
pub fn who_is_woken_is_released<T>()
    ensures granted { GrantsRelease T }
    ensures hung { HangupsRelease T }
{}
