//! The lines of seeds.
ghost use Rattle.std.specs.Prelude.{◌≡◌, ◌≤◌, ◌++◌, [], false, IfOk, OnOk, Some};
ghost use Rattle.bridge_command.specs.Members.{members_seen};
ghost use Rattle.bridge_command.specs.SeedLines.{seed_line, seed_members, seed_state, seeds_text};
ghost use Rattle.tool_forms.specs.BridgeWords.{IsRangeWithinBounds};
ghost use Rattle.tool_text.specs.Ends.{Answers, EndsForCause, SinkFails};

use crate::json::Object;
use dccp_io::{Sink, write_all};
use fault_campaign::{Report, run_seed};
use seq_circle::NoMemory;
use std::alloc::Global;
use tool_forms::SeedRange;
use tool_text::JobEnd;

// The number of settled features if all are settled.
const FEATURES: u64 = 18;

fn seed_state(report: &Report) -> &'static str
    ensures { result.now ≡ seed_state report.now }
{
    if 0 < report.was_reset || 0 < report.sent_reset {
        return "reset";
    }
    if report.settled == FEATURES {
        return "settled";
    }
    "unsettled"
}

// The object of a seed, with what was counted of it.
#[tactic(auto, unfolding(crate::specs::SeedLines::seed_members))]
fn seed_object(alloc: Global, seed: u64, report: &Report) -> Result<Object, NoMemory>
    ensures { IfOk result (λ o. members_seen o ≡ seed_members seed report.now) }
{
    let mut object = Object::new(alloc);
    object.numbers(&[
        ("seed", seed),
        ("events", report.events),
        ("client_frames", report.client_frames),
        ("server_frames", report.server_frames),
        ("took", report.took),
        ("delivered", report.delivered),
        ("dropped", report.dropped),
        ("synced", report.synced),
        ("was_reset", report.was_reset),
        ("sent_reset", report.sent_reset),
        ("refused", report.refused),
        ("settled", report.settled),
    ])?;
    object.string("state", seed_state(report))?;
    Ok(object)
}

// Runs a seed, and puts its line.
fn put_seed(alloc: Global, text: &mut Vec<u8>, events: u32, seed: u64) -> Result<(), NoMemory>
    requires events { 1 ≤ events × events ≤ 4096 }
    ensures { OnOk result (text.new.items ≡ text.old.items ++ seed_line events seed) }
{
    let report = run_seed(alloc, seed, events)?;
    seed_object(alloc, seed, &report)?.put_line(text)
}

fn text_of_seeds(alloc: Global, range: SeedRange) -> Result<Vec<u8>, NoMemory>
    requires { IsRangeWithinBounds range }
    ensures { IfOk result (λ text. text.items ≡ seeds_text range) }
{
    let mut text = Vec::new(alloc);
    for index in 0..range.seeds {
        put_seed(
            alloc,
            &mut text,
            range.events,
            range.first + u64::from(index),
        )?;
    }
    Ok(text)
}

/// Writes an object for each of these seeds, on a separate line: what `campaign` counts of it, and how its run ended
/// (own). It reads nothing and refuses nothing, so its contract is that of a form with an empty input that is accepted.
/// Write means that the sink failed, and Memory that no memory was left; then nothing is written.
pub(crate) fn tell_seeds<K: Sink>(alloc: Global, range: SeedRange, output: &mut K) -> JobEnd
    requires { IsRangeWithinBounds range }
    ensures told { Answers (seeds_text range) false result (Some []) (K.taken output.old) (K.taken output.new) }
    ensures cause { EndsForCause result ⊥ (SinkFails K.faults K.empty_takes output.old output.new) }
{
    let Ok(text) = text_of_seeds(alloc, range) else {
        return JobEnd::Memory;
    };
    match write_all(output, &text) {
        Err(_) => JobEnd::Write,
        Ok(()) => JobEnd::Done,
    }
}
