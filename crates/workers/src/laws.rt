//! What a meeting means. A law has no code: its contract is what it says.

ghost use Rattle.workers.specs.Closing.{MeetingsHaveAll, StandsBehindMeetings};
ghost use Rattle.workers.specs.Works.{BeginsLater};

/// An attempt that a thread begins after a meeting begins at the meeting's lock value or later. So its moment stands
/// after every transaction of either thread that had taken the lock by then.
pub fn attempts_begin_past_a_meeting()
    ensures { BeginsLater }
{}

/// What a thread begins after a meeting stands behind all that had taken effect by then: in one order, that of all that
/// took effect until the hall was closed. What had taken effect by then is what any thread's steps had done of which
/// the table knew, and all that the two had done, transactions that stored nothing too. An attempt that was open at the
/// meeting is not placed by it.
pub fn what_is_begun_after_a_meeting_stands_behind<A>()
    ensures behind { StandsBehindMeetings A }
    ensures all { MeetingsHaveAll A }
{}
