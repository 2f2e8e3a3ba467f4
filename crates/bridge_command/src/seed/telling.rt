//! The lines of a seed's schedule, written while the seed is run.
ghost use Rattle.std.specs.Prelude.{◌≡◌, ◌+◌, ◌-◌, ◌*◌, ◌^◌, ◌<◌, ◌≤◌, ◌++◌, [], ◌∷◌, false, IfOk, OnOk, Some};
ghost use Rattle.bridge_command.specs.Schedule.{event_line, event_lines, number_line, number_lines, seed_text};
ghost use Rattle.fault_campaign.specs.Reports.{size};
ghost use Rattle.fault_campaign.specs.Seeded.{next_events, played, seeded_events};
ghost use Rattle.tool_text.specs.Ends.{Answers, EndsForCause, SinkFails};

use dccp_io::{Sink, write_all};
use fault_campaign::{OngoingRun, initial_numbers};
use schedule_text::{Event, print_event, side_name};
use seq_circle::{NoMemory, Seq48};
use std::alloc::Global;
use tool_text::{JobEnd, put, put_counted, put_named};
use world_events::Side;

fn put_number_line(text: &mut Vec<u8>, side: Side, number: Seq48) -> Result<(), NoMemory>
    ensures { OnOk result (text.new.items ≡ text.old.items ++ number_line side number) }
{
    put_named(text, b"iss ", side_name(side))?;
    put_counted(text, b" ", number.get())?;
    put(text, b"\n")
}

fn put_number_lines(text: &mut Vec<u8>, seed: u64) -> Result<(), NoMemory>
    ensures { OnOk result (text.new.items ≡ text.old.items ++ number_lines seed) }
{
    let (client, server) = initial_numbers(seed);
    put_number_line(text, Side::Client, client)?;
    put_number_line(text, Side::Server, server)
}

fn put_event_line(text: &mut Vec<u8>, event: &Event) -> Result<(), NoMemory>
    ensures { OnOk result (text.new.items ≡ text.old.items ++ event_line event.now) }
{
    print_event(event, text)?;
    put(text, b"\n")
}

// Puts the lines of this many further events of a run, and lets them happen.
fn put_next_events(text: &mut Vec<u8>, run: &mut OngoingRun, more: u32) -> Result<(), NoMemory>
    requires few { size run.old.report + 2 * more < 2 ^ 62 }
    ensures { OnOk result (text.new.items ≡ text.old.items ++ event_lines (next_events more run.old)) }
{
    for _ in 0..more {
        let event = run.draw();
        put_event_line(text, &event)?;
        run.play(&event)?;
    }
    Ok(())
}

// Puts the lines of this many events of a run that begins, the opening of the connection first.
fn put_begun_events(text: &mut Vec<u8>, run: &mut OngoingRun, events: u32) -> Result<(), NoMemory>
    requires some { 1 ≤ events }
    requires few { size run.old.report + 2 * events < 2 ^ 62 }
    ensures { OnOk result (text.new.items ≡ text.old.items ++ event_lines (Event.Open ∷ next_events (events - 1) (played run.old Event.Open))) }
{
    put_event_line(text, &Event::Open)?;
    run.play(&Event::Open)?;
    put_next_events(text, run, events - 1)
}

// Puts the lines of all events of a seed.
fn put_events(alloc: Global, text: &mut Vec<u8>, seed: u64, events: u32) -> Result<(), NoMemory>
    requires events { 1 ≤ events × events ≤ 4096 }
    ensures { OnOk result (text.new.items ≡ text.old.items ++ event_lines (seeded_events seed events)) }
{
    let mut run = OngoingRun::of_seed(alloc, seed)?;
    put_begun_events(text, &mut run, events)
}

#[tactic(auto, unfolding(crate::specs::Schedule::seed_text))]
fn text_of_seed(alloc: Global, seed: u64, events: u32) -> Result<Vec<u8>, NoMemory>
    requires events { 1 ≤ events × events ≤ 4096 }
    ensures { IfOk result (λ text. text.items ≡ seed_text seed events) }
{
    let mut text = Vec::new(alloc);
    put_number_lines(&mut text, seed)?;
    put_events(alloc, &mut text, seed, events)?;
    Ok(text)
}

/// Writes the schedule of a campaign's seed with this many events (own): the initial sequence numbers of both ends, and
/// the events, a line each. It reads nothing and refuses nothing, so its contract is that of a form with an empty input
/// that is accepted. Write means that the sink failed, and Memory that no memory was left; then nothing is written.
pub(crate) fn tell_seed<K: Sink>(alloc: Global, seed: u64, events: u32, output: &mut K) -> JobEnd
    requires events { 1 ≤ events × events ≤ 4096 }
    ensures told { Answers (seed_text seed events) false result (Some []) (K.taken output.old) (K.taken output.new) }
    ensures cause { EndsForCause result ⊥ (SinkFails K.faults K.empty_takes output.old output.new) }
{
    let Ok(text) = text_of_seed(alloc, seed, events) else {
        return JobEnd::Memory;
    };
    match write_all(output, &text) {
        Err(_) => JobEnd::Write,
        Ok(()) => JobEnd::Done,
    }
}
