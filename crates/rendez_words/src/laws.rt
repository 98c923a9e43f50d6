//! What the rule says of running threads, between any two steps. Each law is a function with an
//! empty body, whose contract says it.
ghost use Rattle.rendez_words.specs.Broken.{with_procs, wakeup_goes_on};
ghost use Rattle.rendez_words.specs.Broken.{wakeup_is_lost, sleeper_is_nowhere, mark_is_stray};
ghost use Rattle.rendez_words.specs.Broken.{stranger_is_posted, stranger_has_a_seat};
ghost use Rattle.rendez_words.specs.Broken.{process_has_two_seats, process_to_come_has_a_seat};
ghost use Rattle.rendez_words.specs.Broken.{process_to_come_is_posted};
ghost use Rattle.rendez_words.specs.Broken.{process_is_joined_with_itself};
ghost use Rattle.rendez_words.specs.Laws.{ThreadsKeepPromises, EachSleeperHasAPlace};
ghost use Rattle.rendez_words.specs.Laws.{SeatsKnowPhases, PidsToComeAreUnused, ReceiptsRelease};
ghost use Rattle.rendez_words.specs.Rule.{ShowsCore};

/// No wakeup is lost and no mark is stray. Each sleep ends with just the notes that were pending,
/// and a sleep that ends without notes has a cause.
pub fn threads_keep_promises()
    ensures { ThreadsKeepPromises }
{}

/// The rule in words: where each sleeper is, and how the words agree with the phases.
pub fn each_sleeper_has_a_place()
    ensures { EachSleeperHasAPlace }
{}

/// What a seat knows holds of its process, and a pid to come has made no step.
pub fn seats_know_their_own()
    ensures phases { SeatsKnowPhases }
    ensures pids { PidsToComeAreUnused }
    ensures receipts { ReceiptsRelease }
{}

/// The rule is not empty: each of these states breaks it, for a reason of its own.
pub fn rule_can_be_broken()
    // What is lost or stray.
    ensures wakeup_is_lost { ¬ (ShowsCore (with_procs 2) wakeup_is_lost) }
    ensures sleeper_is_nowhere { ¬ (ShowsCore (with_procs 1) sleeper_is_nowhere) }
    ensures mark_is_stray { ¬ (ShowsCore (with_procs 1) mark_is_stray) }

    // Whose seat it is.
    ensures stranger_is_posted { ¬ (ShowsCore (with_procs 1) stranger_is_posted) }
    ensures stranger_has_a_seat { ¬ (ShowsCore (with_procs 1) stranger_has_a_seat) }
    ensures two_seats { ¬ (ShowsCore (with_procs 1) process_has_two_seats) }
    ensures seat_to_come { ¬ (ShowsCore (with_procs 1) process_to_come_has_a_seat) }
    ensures step_to_come { ¬ (ShowsCore (with_procs 1) process_to_come_is_posted) }
    ensures joined_with_itself { ¬ (ShowsCore (with_procs 1) process_is_joined_with_itself) }
{}

/// The rule forbids no more than it says: a sleeper may be posted below the level until the wakeup
/// that raised it has returned.
pub fn rule_can_be_kept()
    ensures { ShowsCore (with_procs 2) wakeup_goes_on }
{}
