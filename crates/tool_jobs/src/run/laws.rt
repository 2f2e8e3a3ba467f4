//! What a schedule's lines make happen.
ghost use Rattle.std.specs.Prelude.{◌≡◌, ◌≢◌, ◌++◌, ℕ, List, Some, Err, false, flat_map, slice_get, take};
ghost use Rattle.ccid_two.specs.Kinds.{kinds_control};
ghost use Rattle.dccp_io.specs.Lines.{lines_of};
ghost use Rattle.two_ends.specs.Controlled.{happens_to, plays};
ghost use Rattle.tool_jobs.specs.Scenes.{Scene, IsRun, scene_events, scene_text};
ghost use Rattle.two_ends.specs.Safe.{Safe};
ghost use Rattle.tool_jobs.specs.Transcript.{SafeThroughout, is_refused, performed, transcript, world_at_first, world_of};
ghost use Rattle.tool_jobs.specs.Versions.{HaveVectors, vectors_said};
ghost use Rattle.tool_jobs.specs.WorldLines.{end_lines};

use ccid_two::Kinds;
use two_ends::{Event, WorldFault, few_frames_are_never_far};

/// The events of a schedule's text are one run (own). Each took place in the world that the one before it left, and the
/// first in the world of the two ends as the last lines configured them. The end lines are those of the world that the
/// last event left. So the world before the n-th event is the one to which the n events before it lead. If no line is
/// refused, the text is that of these events, and then the end lines of the world to which they lead.
pub fn every_schedule_is_a_run()
    ensures run { (input : List ℕ)
        → IsRun (world_at_first (performed input)) (performed input).deeds (world_of (performed input).last) }
    ensures nth { (input : List ℕ) (n : ℕ) (scene : Scene) → slice_get (performed input).deeds n ≡ Some scene
        → scene.before ≡ plays kinds_control (world_at_first (performed input)) (take n (scene_events (performed input).deeds)) }
    ensures last { (input : List ℕ)
        → world_of (performed input).last ≡ plays kinds_control (world_at_first (performed input)) (scene_events (performed input).deeds) }
    ensures ends { (input : List ℕ) → is_refused input ≡ false
        → transcript input ≡ flat_map scene_text (performed input).deeds
        ++ end_lines (plays kinds_control (world_at_first (performed input)) (scene_events (performed input).deeds)) }
{}

/// What the clause on safe worlds means for events (own). If it holds for an input, any number of its first accepted
/// events lead to a safe world, whether a line after them is refused or not.
pub fn the_first_events_lead_to_a_safe_world()
    ensures { (input : List ℕ) (n : ℕ) → SafeThroughout input
        → Safe kinds_control (plays kinds_control (world_at_first (performed input)) (take n (scene_events (performed input).deeds))) }
{}

/// A schedule's world has room for any event of its next line (own): no side has sent more frames than there were
/// events, at most 16,384. The lines before a line are also an input, so this holds of every event that is judged.
pub fn no_schedule_fills_a_world()
    ensures { (input : List ℕ) (event : Event)
        → happens_to kinds_control (world_of (performed input).last) event ≢ Err WorldFault.Full }
{}

/// No line of a schedule names a frame whose short numbers are ambiguous where it arrives (own): the sides have sent
/// too few frames for that. The lines before a line are also an input, so this holds of every event that is judged.
pub fn no_schedule_meets_a_far_frame()
    ensures { (input : List ℕ) (event : Event)
        → happens_to kinds_control (world_of (performed input).last) event ≢ Err WorldFault.FarShort }
{
    few_frames_are_never_far::<Kinds>();
}

/// Both ends write Ack Vectors of up to two options exactly if the first line that says something is `version 2` (own).
/// They are configured so after the last line, and so when the first event takes place.
pub fn the_first_line_says_the_version()
    ensures { (input : List ℕ) → HaveVectors (vectors_said 0 (lines_of input)) (performed input).last }
{}
