//! Laws of what a front does. Each function's contract is a law, for all scripts and all lists of
//! what came. The functions do nothing.
ghost use Rattle.front_model.specs.Laws.{StayAfter, StayAtEvents, OpenInOrder, CountUp};
ghost use Rattle.front_model.specs.Laws.{EndOnce, HaveOneFate, GetTruePackets};
ghost use Rattle.front_model.specs.Laws.{IsLeftByOthers, HangsOnItsOwn, NamesTheRemoved};
ghost use Rattle.front_model.specs.Laws.{IsClosedAlone, NamesGoWithSources, IsClosedAlike, NeedNoRequests};

use rtp_demux::laws::lanes_go_on;
use rtx::laws::nothing_is_found_unasked;

/// A lane stays its stream's, with its number and its rate, whatever comes.
pub fn lanes_stay()
    ensures moves { StayAfter }
    ensures events { StayAtEvents }
{}

/// The steps open the lanes, each once, in the order of their numbers, with the settings of its
/// stream and rate.
pub fn lanes_open_in_order()
    ensures { OpenInOrder }
{
    lanes_go_on();
}

/// The packets and sender reports of a pusher for a lane have the numbers 0, 1, 2 and so on, in the
/// order of the steps.
pub fn numbers_count_up()
    ensures { CountUp }
{}

/// Each packet that comes to a session waits there or has ended in one way: it was given on,
/// dropped with a cause, or went with its source.
pub fn packets_end_once()
    ensures { EndOnce }
{}

/// A packet that a session gives on goes to one lane, with the time at which it came, or is dropped
/// with one cause.
pub fn released_packets_have_one_fate()
    ensures { HaveOneFate }
{}

/// What goes to a lane is a packet of the capture, or what restoring gives of one and nothing else.
pub fn lanes_get_true_packets()
    ensures { GetTruePackets }
{}

/// What is told of a source hangs on the calls about it: a call on another one leaves the source,
/// its name and its waiting packets as they are, and a call about it is told by these alone. A
/// report time leaves of it what it would leave of it alone, and takes its name and its waiting
/// packets exactly where it removes it.
pub fn sources_stand_alone()
    ensures others { IsLeftByOthers }
    ensures own { HangsOnItsOwn }
    ensures reports { IsClosedAlone }
    ensures names { NamesGoWithSources }
    ensures alike { IsClosedAlike }
{}

/// The SSRCs that a report time names as removed are those whose sources it removes.
pub fn removed_sources_are_named()
    ensures { NamesTheRemoved }
{}

/// A capture by itself brings no request, so the front of a plan finds what one finds that looks for
/// none.
pub fn plans_need_no_requests()
    ensures { NeedNoRequests }
{
    nothing_is_found_unasked();
}
