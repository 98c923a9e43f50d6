//! What the definitions of the calls forbid, and what they allow.
ghost use Rattle.std.specs.Prelude.{◌≡◌, ◌≢◌, ◌+◌, ℕ, [], ◌∷◌, Some, None, true, false, not};
ghost use Rattle.std.specs.Prelude.{length};
ghost use Rattle.rendez_words.specs.Process.{TableId};
ghost use Rattle.sync_base.specs.declared.flags.Flags.{Flags};
ghost use Rattle.sync_base.specs.Flags.{asks_child, asks_group};
ghost use Rattle.sync_base.specs.declared.fault.Fault.TheVariants.{Interrupted, Worn, NoRendez};
ghost use Rattle.sync_base.specs.declared.fault.Fault.TheVariants.{BadFlags, BadLevel, NoProc};
ghost use Rattle.sync_base.specs.declared.fault.Fault.TheVariants.{DoubleSleep};
ghost use Rattle.sync_base.specs.declared.note.Note.TheVariants.{Interrupt, Alarm};
ghost use Rattle.sync_base.specs.NoteSet.{no_notes, only};
ghost use Rattle.rendez_words.specs.declared.words.Words.{Words};
ghost use Rattle.sleep_wakeup.specs.Broken.{after, rendez, done, done_at};
ghost use Rattle.sleep_wakeup.specs.Broken.{answers_at_once, tests_before_it_posts, never_tests};
ghost use Rattle.sleep_wakeup.specs.Broken.{never_clears, clears_twice, raises_meanwhile};
ghost use Rattle.sleep_wakeup.specs.Broken.{posts_elsewhere, posts_with_another_threshold};
ghost use Rattle.sleep_wakeup.specs.Broken.{leaves_for_no_cause, leaves_as_its_test_passed};
ghost use Rattle.sleep_wakeup.specs.Broken.{leaves_as_it_was_marked, leaves_as_it_was_taken};
ghost use Rattle.sleep_wakeup.specs.Broken.{leaves_with_an_alarm};
ghost use Rattle.sleep_wakeup.specs.Broken.{takes_before_it_raises, never_raises, never_takes};
ghost use Rattle.sleep_wakeup.specs.Broken.{takes_twice, never_marks, marks_another};
ghost use Rattle.sleep_wakeup.specs.Broken.{raises_elsewhere, raises_to_another_level};
ghost use Rattle.sleep_wakeup.specs.Broken.{finds_nobody, marks_the_sleeper};
ghost use Rattle.sleep_wakeup.specs.Calls.{Sleeps, Wakes, WhyNotSlept};
ghost use Rattle.sleep_wakeup.specs.Forks.{AsksNobody, AsksChild, Forks, HasPid};
ghost use Rattle.sleep_wakeup.specs.Forks.{WhyNotForked};
ghost use Rattle.sleep_wakeup.specs.Groups.{AreGroups, first_group, group_of, begins, follows};
ghost use Rattle.sleep_wakeup.specs.Groups.{leaves, notes_each};
ghost use Rattle.sleep_wakeup.specs.Broken.{four_in_two, noted};
ghost use Rattle.sleep_wakeup.specs.Kernel.{HasGroup, Unused, next_process, one_pid_less};
ghost use Rattle.sleep_wakeup.specs.Kernel.{regrouped, rendez_less};

/// Steps that are no sleep: each would be one if a sentence of its definition were gone.
pub fn sleeps_can_be_broken()
    // The order of the steps.
    ensures answers_at_once { (table : TableId)
        → ¬ (Sleeps (after table []) (rendez 0) 0 no_notes (after table answers_at_once)) }
    ensures tests_before_it_posts { (table : TableId)
        → ¬ (Sleeps (after table []) (rendez 0) 0 no_notes (after table tests_before_it_posts)) }
    ensures never_tests { (table : TableId)
        → ¬ (Sleeps (after table []) (rendez 0) 0 no_notes (after table never_tests)) }
    ensures never_clears { (table : TableId)
        → ¬ (Sleeps (after table []) (rendez 0) 0 no_notes (after table never_clears)) }
    ensures clears_twice { (table : TableId)
        → ¬ (Sleeps (after table []) (rendez 0) 0 no_notes (after table clears_twice)) }
    ensures raises_meanwhile { (table : TableId)
        → ¬ (Sleeps (after table []) (rendez 0) 0 no_notes (after table raises_meanwhile)) }

    // What it was asked.
    ensures posts_elsewhere { (table : TableId)
        → ¬ (Sleeps (after table []) (rendez 0) 0 no_notes (after table posts_elsewhere)) }
    ensures posts_with_another_threshold { (table : TableId)
        → ¬ (Sleeps (after table []) (rendez 0) 0 no_notes
        (after table posts_with_another_threshold)) }

    // How it ends.
    ensures leaves_for_no_cause { (table : TableId)
        → ¬ (Sleeps (after table []) (rendez 0) 0 no_notes (after table leaves_for_no_cause)) }
    ensures drops_an_alarm { (table : TableId)
        → ¬ (Sleeps (after table []) (rendez 0) 0 no_notes (after table leaves_with_an_alarm)) }
    ensures tells_another_note { (table : TableId)
        → ¬ (Sleeps (after table []) (rendez 0) 0 (only Interrupt)
        (after table leaves_with_an_alarm)) }
    ensures is_interrupted_by_no_notes { (words : Words) (table : TableId)
        → ¬ (WhyNotSlept words (after table []) (rendez 0) 0
        (after table leaves_as_its_test_passed) (Interrupted no_notes)) }
{}

/// Steps that are a sleep, for each of its causes.
pub fn sleeps_can_be_kept()
    ensures leaves_as_its_test_passed { (table : TableId)
        → Sleeps (after table []) (rendez 0) 0 no_notes (after table leaves_as_its_test_passed) }
    ensures leaves_as_it_was_marked { (table : TableId)
        → Sleeps (after table []) (rendez 0) 0 no_notes (after table leaves_as_it_was_marked) }
    ensures leaves_as_it_was_taken { (table : TableId)
        → Sleeps (after table []) (rendez 0) 0 no_notes (after table leaves_as_it_was_taken) }
    ensures leaves_with_an_alarm { (table : TableId)
        → Sleeps (after table []) (rendez 0) 0 (only Alarm) (after table leaves_with_an_alarm) }
{}

/// Steps that are no wakeup, or are a wakeup other than the receipt says.
pub fn wakeups_can_be_broken()
    // The order of the steps.
    ensures takes_before_it_raises { (table : TableId)
        → ¬ (Wakes (after table []) (rendez 0) 1 (after table takes_before_it_raises) done) }
    ensures never_raises { (table : TableId)
        → ¬ (Wakes (after table []) (rendez 0) 1 (after table never_raises) done) }
    ensures never_takes { (table : TableId)
        → ¬ (Wakes (after table []) (rendez 0) 1 (after table never_takes) done) }
    ensures takes_twice { (table : TableId)
        → ¬ (Wakes (after table []) (rendez 0) 1 (after table takes_twice) done) }

    // Who is marked.
    ensures never_marks { (table : TableId)
        → ¬ (Wakes (after table []) (rendez 0) 1 (after table never_marks) done) }
    ensures marks_another { (table : TableId)
        → ¬ (Wakes (after table []) (rendez 0) 1 (after table marks_another) done) }

    // What it was asked, and what its receipt says.
    ensures raises_elsewhere { (table : TableId)
        → ¬ (Wakes (after table []) (rendez 0) 1 (after table raises_elsewhere) done) }
    ensures raises_to_another_level { (table : TableId)
        → ¬ (Wakes (after table []) (rendez 0) 1 (after table raises_to_another_level) done) }
    ensures has_anothers_receipt { (table : TableId)
        → ¬ (Wakes (after table []) (rendez 0) 1 (after table finds_nobody) (done_at 0 2)) }
    ensures has_a_receipt_elsewhere { (table : TableId)
        → ¬ (Wakes (after table []) (rendez 0) 1 (after table finds_nobody) (done_at 1 1)) }
{}

/// Refusals with no reason, refusals after which there is one step more, and refusals of another
/// call.
pub fn refusals_can_be_broken()
    ensures sleep_is_worn { (words : Words) (table : TableId)
        → ¬ (WhyNotSlept words (after table []) (rendez 0) 0 (after table []) Worn) }
    ensures sleep_leaves_a_step { (words : Words) (table : TableId)
        → ¬ (WhyNotSlept words (after table []) (rendez 0) 0 (after table finds_nobody)
        NoRendez) }
    ensures sleep_finds_no_level { (words : Words) (table : TableId)
        → ¬ (WhyNotSlept words (after table []) (rendez 0) 0 (after table []) BadLevel) }
    ensures double_sleep_is_not_kept { (words : Words) (table : TableId)
        → ¬ (WhyNotSlept words (after table []) (rendez 0) 0 (after table []) DoubleSleep) }
    ensures fork_finds_no_rendez { (unused : Unused) (flags : Flags)
        → ¬ (WhyNotForked unused flags NoRendez) }
    ensures child_has_bad_flags { (unused : Unused) (flags : Flags) → AsksChild flags
        → ¬ (WhyNotForked unused flags BadFlags) }
    ensures nobody_has_bad_flags { (unused : Unused) (flags : Flags) → AsksNobody flags
        → ¬ (WhyNotForked unused flags BadFlags) }
    ensures nobody_wants_a_pid { (unused : Unused) (flags : Flags) → asks_child flags ≡ false
        → ¬ (WhyNotForked unused flags NoProc) }
    ensures pid_is_left { (unused : Unused) (flags : Flags) → HasPid unused
        → ¬ (WhyNotForked unused flags NoProc) }
{}

/// Steps that are a wakeup.
pub fn wakeups_can_be_kept()
    ensures finds_nobody { (table : TableId)
        → Wakes (after table []) (rendez 0) 1 (after table finds_nobody) done }
    ensures marks_the_sleeper { (table : TableId)
        → Wakes (after table []) (rendez 0) 1 (after table marks_the_sleeper) done }
{}

/// No pid and no Rendez is given twice, and none is lost. The child, or the caller where there is
/// no child, is in the group that the flags say.
pub fn forks_can_be_broken()
    ensures gives_a_pid_twice { (unused : Unused) (flags : Flags) (parent : ℕ)
        → ¬ (Forks parent unused flags (Some (next_process unused)) unused) }
    ensures skips_a_pid { (unused : Unused) (flags : Flags) (parent : ℕ)
        → ¬ (Forks parent unused flags
        (Some (next_process (one_pid_less parent (asks_group flags) unused)))
        (one_pid_less parent (asks_group flags) unused)) }
    ensures makes_nobody { (unused : Unused) (flags : Flags) (parent : ℕ) → AsksChild flags
        → ¬ (Forks parent unused flags None unused) }
    ensures makes_a_child_unasked { (unused : Unused) (flags : Flags) (parent : ℕ)
        → AsksNobody flags
        → ¬ (Forks parent unused flags (Some (next_process unused))
        (one_pid_less parent (asks_group flags) unused)) }
    ensures child_is_in_another_group { (unused : Unused) (flags : Flags) → AsksChild flags
        → unused.groups ≡ first_group → ¬ (Forks 0 unused flags (Some (next_process unused))
        (one_pid_less 0 (not (asks_group flags)) unused)) }
    ensures caller_stays { (unused : Unused) (flags : Flags) → asks_group flags ≡ true
        → unused.groups ≡ four_in_two → ¬ (Forks 1 unused flags None unused) }
    ensures caller_leaves_unasked { (unused : Unused) (flags : Flags) → asks_group flags ≡ false
        → unused.groups ≡ four_in_two
        → ¬ (Forks 1 unused flags None (regrouped 1 true unused)) }
    ensures row_is_one_too_short { (unused : Unused) (count : ℕ)
        → rendez_less count unused ≢ rendez_less (count + 1) unused }
{}

/// Process 1 is a child in its parent's group, 2 is the first of another group, and 3 is its child.
/// Then a child of 1 joins, or 1 or 3 leaves its group. Process 0, which is left alone, keeps its
/// group.
pub fn groups_by_example()
    ensures shared { follows 0 1 first_group ≡ (0 ∷ 1 ∷ []) ∷ [] }
    ensures apart { begins 2 ((0 ∷ 1 ∷ []) ∷ []) ≡ (2 ∷ []) ∷ (0 ∷ 1 ∷ []) ∷ [] }
    ensures further { follows 2 3 ((2 ∷ []) ∷ (0 ∷ 1 ∷ []) ∷ []) ≡ four_in_two }
    ensures joins_it { follows 1 4 four_in_two ≡ (2 ∷ 3 ∷ []) ∷ (0 ∷ 1 ∷ 4 ∷ []) ∷ [] }
    ensures leaves_it { leaves 1 four_in_two ≡ (1 ∷ []) ∷ (2 ∷ 3 ∷ []) ∷ (0 ∷ []) ∷ [] }
    ensures leaves_the_first { leaves 3 four_in_two ≡ (3 ∷ []) ∷ (2 ∷ []) ∷ (0 ∷ 1 ∷ []) ∷ [] }
    ensures is_alone { leaves 0 ((1 ∷ []) ∷ (2 ∷ 3 ∷ []) ∷ (0 ∷ []) ∷ [])
        ≡ (1 ∷ []) ∷ (2 ∷ 3 ∷ []) ∷ (0 ∷ []) ∷ [] }
    ensures is_nowhere { leaves 7 four_in_two ≡ four_in_two }
    ensures has_no_parent { follows 7 4 four_in_two ≡ (4 ∷ []) ∷ four_in_two }
    ensures found { group_of 1 four_in_two ≡ 0 ∷ 1 ∷ [] }
    ensures not_found { group_of 4 four_in_two ≡ [] }
{}

/// Lists of pids that are no groups: a pid is there twice, in one group or in two; a pid is
/// missing; a pid was not given; the pids of a group fall, the first group's or a later one's.
pub fn groups_can_be_broken()
    ensures stands_twice { ¬ (AreGroups ((0 ∷ 0 ∷ []) ∷ []) 1) }
    ensures stands_in_two { ¬ (AreGroups ((0 ∷ 1 ∷ []) ∷ (1 ∷ []) ∷ []) 2) }
    ensures one_is_missing { ¬ (AreGroups ((0 ∷ []) ∷ []) 2) }
    ensures was_not_given { ¬ (AreGroups ((0 ∷ 1 ∷ []) ∷ []) 1) }
    ensures falls { ¬ (AreGroups ((1 ∷ 0 ∷ []) ∷ []) 2) }
    ensures falls_later { ¬ (AreGroups ((0 ∷ []) ∷ (2 ∷ 1 ∷ []) ∷ []) 3) }
{}

/// A note to the group of pid 1 is two notes, to pid 0 and then to pid 1. One of the two alone, one
/// twice, both in the other order, or notes to others are no note to that group. Pid 4 is in no
/// group.
pub fn group_notes_can_be_broken()
    ensures leaves_out_a_member { (table : TableId) → notes_each (after table [])
        (group_of 1 four_in_two) (only Alarm) ≢ after table (noted 0 ∷ []) }
    ensures posts_in_another_order { (table : TableId) → notes_each (after table [])
        (group_of 1 four_in_two) (only Alarm) ≢ after table (noted 0 ∷ noted 1 ∷ []) }
    ensures posts_twice { (table : TableId) → notes_each (after table [])
        (group_of 1 four_in_two) (only Alarm) ≢ after table (noted 1 ∷ noted 0 ∷ noted 0 ∷ []) }
    ensures posts_to_another_group { (table : TableId) → notes_each (after table [])
        (group_of 1 four_in_two) (only Alarm) ≢ after table (noted 3 ∷ noted 2 ∷ []) }
    ensures is_kept { (table : TableId) → notes_each (after table [])
        (group_of 1 four_in_two) (only Alarm) ≡ after table (noted 1 ∷ noted 0 ∷ []) }
    ensures is_counted { (unused : Unused) → unused.groups ≡ four_in_two
        → HasGroup unused 1 × (length (group_of 1 unused.groups) ≡ 2) }
    ensures is_refused { (unused : Unused) → unused.groups ≡ four_in_two → ¬ HasGroup unused 4 }
{}
