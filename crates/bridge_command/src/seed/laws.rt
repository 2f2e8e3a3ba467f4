//! What the schedule of a seed is for `run`.
ghost use Rattle.std.specs.Prelude.{◌≡◌, ◌++◌, ℕ, ◌≤◌, flat_map, false};
ghost use Rattle.bridge_command.specs.Counted.{counted_report};
ghost use Rattle.bridge_command.specs.Schedule.{seed_text};
ghost use Rattle.fault_campaign.specs.Draws.{generator};
ghost use Rattle.fault_campaign.specs.Seeded.{begun_run, seeded, seeded_events, seeded_report};
ghost use Rattle.tool_jobs.specs.Scenes.{scene_events, scene_text};
ghost use Rattle.tool_jobs.specs.Transcript.{is_refused, performed, transcript, world_at_first, world_of};
ghost use Rattle.tool_jobs.specs.WorldLines.{end_lines};

use fault_campaign::drawn_events_happen;

/// The schedule of a seed is the run that `campaign` counts for it, with any number of events that a campaign may ask
/// for (own). `run` refuses none of its lines. It begins with the same two ends, the same events happen to them one
/// after the other, and it ends with the same world. So the text of `run` is that of this run, with its end lines, and
/// what is counted of its events, its frames and its features is the report of the seed.
pub fn a_schedule_is_the_run_of_its_seed()
    ensures accepted { (seed events : ℕ) → 1 ≤ events → events ≤ 4096 → is_refused (seed_text seed events) ≡ false }
    ensures first { (seed events : ℕ) → 1 ≤ events → events ≤ 4096
        → world_at_first (performed (seed_text seed events)) ≡ (begun_run (generator seed)).world }
    ensures events { (seed events : ℕ) → 1 ≤ events → events ≤ 4096
        → scene_events (performed (seed_text seed events)).deeds ≡ seeded_events seed events }
    ensures last { (seed events : ℕ) → 1 ≤ events → events ≤ 4096
        → world_of (performed (seed_text seed events)).last ≡ (seeded seed events).world }
    ensures text { (seed events : ℕ) → 1 ≤ events → events ≤ 4096
        → transcript (seed_text seed events) ≡ flat_map scene_text (performed (seed_text seed events)).deeds ++ end_lines (seeded seed events).world }
    ensures counts { (seed events : ℕ) → 1 ≤ events → events ≤ 4096
        → counted_report (performed (seed_text seed events)).deeds (world_of (performed (seed_text seed events)).last) ≡ seeded_report seed events }
{
    drawn_events_happen();
}
