//! What holds of a semaphore after every legal history. Each law is a function that does nothing:
//! its contract is the law.
ghost use Rattle.semaphore.specs.SemaLaws.{
  UnitsAddUp,
  CountsAreGrants,
  NobodyWaitsForNothing,
  StatesAreSound,
  EachGrantIsNamed,
};
ghost use Rattle.semaphore.specs.WakeLaws.{ReleasingReleasesTheNamed, WaitersAreNamedAbove};

/// No unit is lost and none is given twice.
pub fn units_add_up()
    ensures { UnitsAddUp }
{}

/// A seat's count is the number where it began plus the units that it was granted.
pub fn counts_are_grants()
    ensures { CountsAreGrants }
{}

/// Nobody waits where there is a unit.
pub fn nobody_waits_for_nothing()
    ensures { NobodyWaitsForNothing }
{}

/// The value stays within its limits, and each seat that waits is in line once.
pub fn states_are_sound()
    ensures { StatesAreSound }
{}

/// The seat of each grant is named to be woken: a seat that is not to be named any more was named
/// with its latest count.
pub fn each_grant_is_named()
    ensures { EachGrantIsNamed }
{}

/// No call that waits stays posted once the semrelease that its seat was named to has returned: a
/// process that sleeps below the number of the seat's grants is released. A seat that was granted a
/// unit is still to be named, or was named with a count above each number that it got to wait with
/// before.
pub fn who_is_granted_is_released()
    ensures released { ReleasingReleasesTheNamed }
    ensures above { WaitersAreNamedAbove }
{}
