//! The laws.
ghost use Rattle.two_inboxes.specs.Alike.{LongerFramesAreTakenAlike};
ghost use Rattle.two_inboxes.specs.Apart.{TellOfTheirData};
ghost use Rattle.two_inboxes.specs.Inboxes.{RunAsAlone};

use congestion_trait::Congestion;
use dccp_endpoint::every_step_has_one_effect;
use two_ends::every_run_is_safe;

/// The options that an inbox puts after those of an end's frame say nothing to the end that takes it: it takes the
/// longer frame as it would take the end's own frame (own).
pub fn longer_frames_are_taken_alike()
    ensures { LongerFramesAreTakenAlike }
{}

/// After every list of events, two ends with inboxes are as two ends without inboxes are after the same events (own).
/// So what holds of every schedule of two ends holds of them, such as agreement, truthful vectors, and data that are
/// delivered once.
pub fn ends_with_inboxes_run_as_alone<C: Congestion>()
    ensures { RunAsAlone C.control }
{
    every_step_has_one_effect();
}

/// No packet that a frame of an end calls dropped is one whose data its application took, before that frame or after
/// it. Each packet whose data it took was processed; and if it was processed before a frame went out, no Ack Vector of
/// that frame reports it as missing. This holds at both ends, after every list of events (RFC 4340, sections 11.4 and
/// 11.7).
pub fn frames_tell_of_what_was_taken<C: Congestion>()
    ensures { TellOfTheirData C.control }
{
    every_step_has_one_effect();
    every_run_is_safe::<C>();
}
