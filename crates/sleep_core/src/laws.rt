//! What holds of every world, every event and every run. Each law is a function with an empty body,
//! whose contract says it.
ghost use Rattle.std.specs.Prelude.{◌≡◌, ◌≢◌, ◌<◌, ◌≤◌, ℕ, List, [], ◌∷◌, ◌++◌, Some, None};
ghost use Rattle.sync_base.specs.declared.note.NoteSet.{NoteSet};
ghost use Rattle.sync_base.specs.NoteSet.{no_notes, joined};
ghost use Rattle.sleep_core.specs.OwnEventLaws.{OwnSleepsEndForACause};
ghost use Rattle.sleep_core.specs.History.{Effect};
ghost use Rattle.sleep_core.specs.History.Effect.{Raised, Missed, Marked, Left, Noted, Drained};
ghost use Rattle.sleep_core.specs.Broken.{falls_asleep_in, finds_nobody_in, takes_in, is_noted_in};
ghost use Rattle.sleep_core.specs.Broken.{overlooks_the_sleeper, test_misses_the_level};
ghost use Rattle.sleep_core.specs.Broken.{posts_over_a_sleeper, overlooks_among_others};
ghost use Rattle.sleep_core.specs.Broken.{takes_the_sleeper, misses_who_withdrew, misses_who_left};
ghost use Rattle.sleep_core.specs.Broken.{misses_before_the_test, misses_with_a_low_level};
ghost use Rattle.sleep_core.specs.Broken.{misses_elsewhere, has_yet_to_mark};
ghost use Rattle.sleep_core.specs.Broken.{takes_before_it_raises, takes_twice_for_one_raise};
ghost use Rattle.sleep_core.specs.Broken.{takes_again_for_one_raise, takes_an_idle_process};
ghost use Rattle.sleep_core.specs.Broken.{takes_who_withdrew, takes_who_left};
ghost use Rattle.sleep_core.specs.Broken.{takes_a_sleeper_twice, takes_elsewhere};
ghost use Rattle.sleep_core.specs.Broken.{leaves_before_its_mark, marks_twice, marks_untaken};
ghost use Rattle.sleep_core.specs.Broken.{marks_another, marks_anothers_sleeper};
ghost use Rattle.sleep_core.specs.Broken.{marks_among_others, drops_a_note, tells_another_note};
ghost use Rattle.sleep_core.specs.Broken.{is_interrupted_by_no_note, tells_a_note_twice};
ghost use Rattle.sleep_core.specs.Broken.{drains_a_note_twice, drains_no_note, keeps_the_last_note};
ghost use Rattle.sleep_core.specs.Broken.{drains_anothers_note, drain_takes_anothers_note};
ghost use Rattle.sleep_core.specs.Broken.{leaving_takes_anothers_note, tells_both_notes};
ghost use Rattle.sleep_core.specs.Broken.{leaves_for_no_cause, leaves_for_an_older_cause};
ghost use Rattle.sleep_core.specs.Broken.{leaves_for_anothers_cause, leaves_for_anothers_mark};
ghost use Rattle.sleep_core.specs.Broken.{leaves_as_its_test_passed, leaves_as_it_was_marked};
ghost use Rattle.sleep_core.specs.Broken.{leaves_as_it_was_noted};
ghost use Rattle.sleep_core.specs.Laws.{EventsMakeRuns, RunsAreSound};
ghost use Rattle.sleep_core.specs.Laws.{PostedAreStillIn, StillInArePosted};
ghost use Rattle.sleep_core.specs.Laws.{AsleepHaveFallen, ReturnedIsGreatest};
ghost use Rattle.sleep_core.specs.Laws.{NoLostWakeup, NoLostWakeupInEvents};
ghost use Rattle.sleep_core.specs.Laws.{ReturnedWakeupReleases, ReturnsByOwnEvents};
ghost use Rattle.sleep_core.specs.Laws.{HistoryByKeptEvents, ReturnsByKeptEvents};
ghost use Rattle.sleep_core.specs.SleepPlaces.{SleepersAreInOnePlace, OthersAreInNoPlace};
ghost use Rattle.sleep_core.specs.SleepPlaces.{WordsAgreeInRuns};
ghost use Rattle.sleep_core.specs.Laws.{SleepsEndForACause};
ghost use Rattle.sleep_core.specs.Locality.{AnswersByOneWord, KeepsOtherWords, KeepsOtherPhases};
ghost use Rattle.sleep_core.specs.Locality.{KeepsOtherReturned, PhaseByOwnEvents};
ghost use Rattle.sleep_core.specs.Locality.{PhaseByKeptEvents};
ghost use Rattle.sleep_core.specs.EventTable.{EventsFollowTable};
ghost use Rattle.sleep_core.specs.Promises.{LosesWakeup, TakesAreRight, NoMarkIsStray};
ghost use Rattle.sleep_core.specs.Promises.{AreNotesRight};
ghost use Rattle.sleep_core.specs.Promises.{EachSleepIsCaused};

/// One event reads one word and one phase, and changes at most these and one returned level.
pub fn local_step()
    ensures answer { AnswersByOneWord }
    ensures words { KeepsOtherWords }
    ensures phases { KeepsOtherPhases }
    ensures returned { KeepsOtherReturned }
{}

/// An event that may come is answered by its row of the table, which also says what it leaves in
/// its
/// word and in which phase its process is then.
pub fn events_follow_table()
    ensures { EventsFollowTable }
{}

/// After every run the phase of a process is what its own events with their answers give.
pub fn phase_by_own_events()
    ensures all { PhaseByOwnEvents }
    ensures kept { PhaseByKeptEvents }
{}

/// Events that are not kept of a run show nothing in its history.
pub fn history_by_kept_events()
    ensures { HistoryByKeptEvents }
{}

/// Every list of events, each with its answer, is a run.
pub fn events_make_runs()
    ensures { EventsMakeRuns }
{}

/// A world keeps its size, and every process and Rendez that it names is in it.
pub fn runs_are_sound()
    ensures { RunsAreSound }
{}

/// The posted word of a Rendez names a process if and only if the history says that its sleep there
/// goes on, in whatever phase it is; and a process that is asleep and posted has fallen asleep in
/// it.
pub fn posted_is_still_in()
    ensures word { PostedAreStillIn }
    ensures history { StillInArePosted }
    ensures asleep { AsleepHaveFallen }
{}

/// The returned level of a Rendez is the greatest with which a wakeup of it has returned.
pub fn returned_is_greatest()
    ensures { ReturnedIsGreatest }
{}

/// No wakeup is lost: a process that fell asleep has been taken out of the Rendez, or has left,
/// once a wakeup with a level above its threshold has returned. No mark reaches a process that has
/// left its sleep, and each sleep ends with exactly the notes that were pending.
pub fn no_lost_wakeup()
    ensures runs { NoLostWakeup }
    ensures events { NoLostWakeupInEvents }
{}

/// The receipt of a wakeup proves that no process that is asleep below its level is still posted.
/// The receipt is in the raiser's own events.
pub fn returned_wakeup_releases()
    ensures releases { ReturnedWakeupReleases }
    ensures own { ReturnsByOwnEvents }
    ensures kept { ReturnsByKeptEvents }
{}

/// A process whose sleep is not over is in just one place: posted in its Rendez, held by the wakeup
/// that took it, marked, or out by itself. No other process is in any place.
pub fn sleepers_are_in_one_place()
    ensures sleepers { SleepersAreInOnePlace }
    ensures others { OthersAreInNoPlace }
{}

/// The words of a world that a run leaves agree with its phases.
pub fn words_agree_with_phases()
    ensures { WordsAgreeInRuns }
{}

/// A sleep that ends without notes ended because its test found the condition true, or a look found
/// the mark.
pub fn sleep_ends_for_a_cause()
    ensures { SleepsEndForACause }
{}

/// The cause of a sleep that ends without notes is among the process's own events.
pub fn own_sleeps_end_for_a_cause()
    ensures { OwnSleepsEndForACause }
{}

/// A history can break what is promised of every history: each of these short histories breaks a
/// promise, and would not if one row of the promise were gone or said less.
pub fn promises_can_be_broken()
    // A wakeup is lost.
    ensures overlooks_the_sleeper { LosesWakeup overlooks_the_sleeper }
    ensures test_misses_the_level { LosesWakeup test_misses_the_level }
    ensures posts_over_a_sleeper { LosesWakeup posts_over_a_sleeper }
    ensures overlooks_among_others { LosesWakeup overlooks_among_others }

    // A wakeup takes what it may not, or finds nobody where somebody is.
    ensures takes_before_it_raises { ¬ (TakesAreRight takes_before_it_raises) }
    ensures takes_twice_for_one_raise { ¬ (TakesAreRight takes_twice_for_one_raise) }
    ensures takes_again_for_one_raise { ¬ (TakesAreRight takes_again_for_one_raise) }
    ensures misses_a_sleeper { ¬ (TakesAreRight overlooks_the_sleeper) }
    ensures takes_an_idle_process { ¬ (TakesAreRight takes_an_idle_process) }
    ensures takes_who_withdrew { ¬ (TakesAreRight takes_who_withdrew) }
    ensures takes_who_left { ¬ (TakesAreRight takes_who_left) }
    ensures takes_a_sleeper_twice { ¬ (TakesAreRight takes_a_sleeper_twice) }
    ensures takes_elsewhere { ¬ (TakesAreRight takes_elsewhere) }

    // A mark is stray.
    ensures leaves_before_its_mark { ¬ (NoMarkIsStray leaves_before_its_mark) }
    ensures marks_twice { ¬ (NoMarkIsStray marks_twice) }
    ensures marks_untaken { ¬ (NoMarkIsStray marks_untaken) }
    ensures marks_another { ¬ (NoMarkIsStray marks_another) }
    ensures marks_anothers_sleeper { ¬ (NoMarkIsStray marks_anothers_sleeper) }

    // A process is told of notes that are not those that were pending.
    ensures drops_a_note { ¬ (AreNotesRight drops_a_note) }
    ensures tells_another_note { ¬ (AreNotesRight tells_another_note) }
    ensures is_interrupted_by_no_note { ¬ (AreNotesRight is_interrupted_by_no_note) }
    ensures tells_a_note_twice { ¬ (AreNotesRight tells_a_note_twice) }
    ensures drains_a_note_twice { ¬ (AreNotesRight drains_a_note_twice) }
    ensures drains_no_note { ¬ (AreNotesRight drains_no_note) }
    ensures keeps_the_last_note { ¬ (AreNotesRight keeps_the_last_note) }
    ensures drains_anothers_note { ¬ (AreNotesRight drains_anothers_note) }
    ensures drain_takes_anothers_note { ¬ (AreNotesRight drain_takes_anothers_note) }
    ensures leaving_takes_anothers_note { ¬ (AreNotesRight leaving_takes_anothers_note) }

    // A sleep ends without notes and for no cause.
    ensures leaves_for_no_cause { ¬ (EachSleepIsCaused leaves_for_no_cause) }
    ensures leaves_for_an_older_cause { ¬ (EachSleepIsCaused leaves_for_an_older_cause) }
    ensures leaves_for_anothers_cause { ¬ (EachSleepIsCaused leaves_for_anothers_cause) }
    ensures leaves_for_anothers_mark { ¬ (EachSleepIsCaused leaves_for_anothers_mark) }
{}

/// The promises forbid no more than they say: each of these short histories breaks none, and would
/// if one row of the promise were gone.
pub fn promises_can_be_kept()
    // No wakeup is lost.
    ensures takes_the_sleeper { ¬ (LosesWakeup takes_the_sleeper) }
    ensures misses_who_withdrew { ¬ (LosesWakeup misses_who_withdrew) }
    ensures misses_who_left { ¬ (LosesWakeup misses_who_left) }
    ensures misses_before_the_test { ¬ (LosesWakeup misses_before_the_test) }
    ensures misses_with_a_low_level { ¬ (LosesWakeup misses_with_a_low_level) }
    ensures misses_elsewhere { ¬ (LosesWakeup misses_elsewhere) }
    ensures has_yet_to_mark { ¬ (LosesWakeup has_yet_to_mark) }

    // Each wakeup takes what it may.
    ensures takes { TakesAreRight takes_the_sleeper }
    ensures misses { TakesAreRight misses_who_withdrew }

    // No mark is stray.
    ensures marks { NoMarkIsStray takes_the_sleeper }
    ensures marks_among_others { NoMarkIsStray marks_among_others }

    // Each process is told of the notes that were pending.
    ensures tells_both_notes { AreNotesRight tells_both_notes }
    ensures tells_no_notes { AreNotesRight leaves_as_it_was_marked }

    // Each sleep ends for a cause.
    ensures leaves_as_its_test_passed { EachSleepIsCaused leaves_as_its_test_passed }
    ensures leaves_as_it_was_marked { EachSleepIsCaused leaves_as_it_was_marked }
    ensures leaves_as_it_was_noted { EachSleepIsCaused leaves_as_it_was_noted }
{}

/// The promises speak of every process, Rendez, threshold, level and note alike: a promise about
/// some of them alone, or about a part of the notes, would let one of these histories pass.
pub fn promises_can_be_broken_by_anybody()
    // A wakeup is lost.
    ensures overlooks { (sleeper raiser rendez threshold level : ℕ) → threshold < level
        → LosesWakeup
        (finds_nobody_in raiser rendez level (falls_asleep_in sleeper rendez threshold)) }
    ensures test_misses { (sleeper raiser rendez threshold level : ℕ) → threshold < level
        → LosesWakeup
        (falls_asleep_in sleeper rendez threshold ++ finds_nobody_in raiser rendez level []) }

    // A wakeup takes what it may not, or finds nobody where somebody is.
    ensures misses { (sleeper raiser rendez threshold level : ℕ) → ¬ (TakesAreRight
        (finds_nobody_in raiser rendez level (falls_asleep_in sleeper rendez threshold))) }
    ensures takes_elsewhere { (sleeper raiser at rendez threshold level : ℕ) → at ≢ rendez
        → ¬ (TakesAreRight
        (takes_in raiser sleeper rendez level (falls_asleep_in sleeper at threshold))) }
    ensures takes_an_idle_process { (sleeper raiser rendez level : ℕ)
        → ¬ (TakesAreRight (takes_in raiser sleeper rendez level [])) }
    ensures takes_before_it_raises { (raiser rendez level : ℕ)
        → ¬ (TakesAreRight (Raised raiser rendez level ∷ Missed raiser ∷ [])) }

    // A mark is stray.
    ensures marks_another { (sleeper other raiser rendez threshold level : ℕ) → sleeper ≢ other
        → ¬ (NoMarkIsStray (Marked raiser other
        ∷ takes_in raiser sleeper rendez level (falls_asleep_in sleeper rendez threshold))) }
    ensures marks_anothers_sleeper { (sleeper other raiser rendez threshold level : ℕ)
        → other ≢ raiser → ¬ (NoMarkIsStray (Marked raiser sleeper
        ∷ takes_in other sleeper rendez level (falls_asleep_in sleeper rendez threshold))) }
    ensures marks_twice { (sleeper raiser : ℕ) (past : List Effect)
        → ¬ (NoMarkIsStray (Marked raiser sleeper ∷ Marked raiser sleeper ∷ past)) }

    // A process is told of notes that are not just those that were pending.
    ensures tells_others { (pid rendez threshold : ℕ) (set told : NoteSet) → told ≢ set
        → ¬ (AreNotesRight (Left pid (Some told) ∷ is_noted_in pid rendez threshold set)) }
    ensures tells_none { (pid rendez threshold : ℕ) (set : NoteSet) → set ≢ no_notes
        → ¬ (AreNotesRight (Left pid None ∷ is_noted_in pid rendez threshold set)) }
    ensures drains_others { (pid : ℕ) (set told : NoteSet) → told ≢ set
        → ¬ (AreNotesRight (Drained pid told ∷ Noted pid set ∷ [])) }
    ensures drains_a_part { (pid : ℕ) (first second told : NoteSet) → told ≢ joined first second
        → ¬ (AreNotesRight (Drained pid told ∷ Noted pid second ∷ Noted pid first ∷ [])) }

    // A sleep ends without notes and for no cause.
    ensures leaves_for_no_cause { (pid rendez threshold : ℕ)
        → ¬ (EachSleepIsCaused (Left pid None ∷ falls_asleep_in pid rendez threshold)) }
{}

/// And they forbid no process, Rendez, threshold, level and note what they allow another.
pub fn promises_can_be_kept_by_anybody()
    ensures takes { (sleeper raiser rendez threshold level : ℕ) → ¬ (LosesWakeup
        (Marked raiser sleeper
        ∷ takes_in raiser sleeper rendez level (falls_asleep_in sleeper rendez threshold))) }
    ensures low_level { (sleeper raiser rendez threshold level : ℕ) → level ≤ threshold
        → ¬ (LosesWakeup
        (finds_nobody_in raiser rendez level (falls_asleep_in sleeper rendez threshold))) }
    ensures takes_right { (sleeper raiser rendez threshold level : ℕ) → TakesAreRight
        (Marked raiser sleeper
        ∷ takes_in raiser sleeper rendez level (falls_asleep_in sleeper rendez threshold)) }
    ensures marks { (sleeper raiser rendez threshold level : ℕ) → NoMarkIsStray
        (Marked raiser sleeper
        ∷ takes_in raiser sleeper rendez level (falls_asleep_in sleeper rendez threshold)) }
    ensures tells { (pid rendez threshold : ℕ) (set : NoteSet) → set ≢ no_notes
        → AreNotesRight (Left pid (Some set) ∷ is_noted_in pid rendez threshold set) }
{}
