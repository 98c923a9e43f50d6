//! What holds of every tag space. Each law is a function that does nothing: its contract is the
//! law.
ghost use Rattle.tag_space.specs.Laws.{ObjectsAreSpaces, EachCallHasOneAnswer, LastMeetingIs};
ghost use Rattle.tag_space.specs.Laws.{PairsAreMeetings, EachCallMeetsOnce, WaitingTagsDiffer};
ghost use Rattle.tag_space.specs.Laws.{WhoLeftMeetsNobody, WhoIsWornMeetsNobody};
ghost use Rattle.tag_space.specs.Laws.{FoundIsInPair, ToldIsInPair, InterruptedIs};
ghost use Rattle.tag_space.specs.Laws.{PartnersAreCalls, PairsStay, EachGetsOneValue};
ghost use Rattle.tag_space.specs.Laws.{CallsAreByMembers, PairedIsNotAlone};
ghost use Rattle.tag_space.specs.WakeLaws.{FindingReleasesThePartner, WaitersAreFoundAbove};

/// Each history of a space as an object is a history of rendezvous: calls meet by their tags, each
/// gets the other's value, and a member that left meets nobody.
pub fn objects_are_spaces()
    ensures { ObjectsAreSpaces }
{}

/// After every history a call has one answer, which the history determines.
pub fn each_call_has_one_answer()
    ensures { EachCallHasOneAnswer }
{}

/// Who meets whom: a pair is two calls with one tag, of two members; no call is in two pairs; and
/// of the calls that wait no two have one tag.
pub fn calls_meet_in_pairs()
    ensures meetings { PairsAreMeetings }
    ensures once { EachCallMeetsOnce }
    ensures apart { WaitingTagsDiffer }
{}

/// A member that gets the answer of a meeting is in that pair, and the answer has the value that
/// its partner gave: for a call that finds a partner, and for a member that asks or leaves.
pub fn who_is_told_is_in_a_pair()
    ensures found { FoundIsInPair }
    ensures told { ToldIsInPair }
{}

/// A call that ended without a meeting is in no pair, now and later: its member left, or it was
/// worn out.
pub fn who_is_out_meets_nobody()
    ensures left { WhoLeftMeetsNobody }
    ensures worn { WhoIsWornMeetsNobody }
{}

/// A call that is in a pair has a partner: a call of another member, with the same tag, whose value
/// it gets and which gets its value. It stays so, and neither of them ends alone. The calls of a
/// history are by members of its space.
pub fn partners_have_each_others_values()
    ensures partner { PartnersAreCalls }
    ensures stays { PairsStay }
    ensures one { EachGetsOneValue }
    ensures paired { PairedIsNotAlone }
    ensures members { CallsAreByMembers }
{}

/// The last count of meetings.
pub fn last_meeting()
    ensures { LastMeetingIs }
{}

/// The word for an interruption.
pub fn interrupted_word()
    ensures { InterruptedIs }
{}

/// No call that waits stays posted once the call that found it has returned: a process that sleeps
/// on its member's Rendez below the count of the meeting is released, and each number that the
/// member got to wait with is below that count.
pub fn who_is_found_is_released()
    ensures released { FindingReleasesThePartner }
    ensures above { WaitersAreFoundAbove }
{}
