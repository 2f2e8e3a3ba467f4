//! What the words after the second program's `seed`, `seeds` and `frames` ask for.
ghost use Rattle.std.specs.Prelude.{◌≡◌, IfOk, IfSome};
ghost use Rattle.clap.specs.Words.{found_of, rows_of};
ghost use Rattle.tool_forms.specs.BridgeWords.{IsFlowWithinBounds, IsRangeWithinBounds, IsRunWithinBounds, flow_side_of, seed_range_of, seed_run_of};
ghost use Rattle.tool_forms.specs.Commands.{flow_side_in, seed_range_in, seed_run_in};
ghost use Rattle.tool_forms.specs.Words.{WordsSay};

use crate::commands::{figure_in, read, text_in};
use crate::settings::{Setting, Table, side_in};
use clap::ArgMatches;
use seq_circle::NoMemory;
use std::alloc::Global;
use world_events::Side;

/// The run of a campaign's seed (own).
#[derive(Clone, Copy)]
pub struct SeedRun {
    /// The seed, below 2^64.
    pub seed: u64,
    /// How many events it has: 1 to 4,096.
    pub events: u32,
}

/// Seeds of a campaign, one after the other (own).
#[derive(Clone, Copy)]
pub struct SeedRange {
    /// The first seed. The last one is below 2^64.
    pub first: u64,
    /// How many there are, from the first on: 1 to 100,000.
    pub seeds: u32,
    /// How many events each has: 1 to 4,096.
    pub events: u32,
}

/// A side of a capture's flow (own): those of its packets that go to this side.
#[derive(Clone, Copy)]
pub struct FlowSide {
    /// The flow's number, from 1 in the order first seen.
    pub flow: u64,
    /// The side.
    pub side: Side,
}

// The run that the matches ask for.
fn seed_run_in(matches: &ArgMatches) -> Option<SeedRun>
    ensures value { result ≡ seed_run_in (rows_of (found_of matches.now)) }
    ensures within { IfSome result IsRunWithinBounds }
{
    let seed = figure_in(matches, Setting::Seed)?;
    let events = figure_in(matches, Setting::Events)?;
    Some(SeedRun {
        seed,
        events: events as u32,
    })
}

/// The run that the words after `seed` ask for, both settings once, or None if they ask for none (own). NoMemory says
/// nothing about them.
pub fn seed_run_of(alloc: Global, words: &[String]) -> Result<Option<SeedRun>, NoMemory>
    ensures value { WordsSay result (seed_run_of words.now) }
    ensures within { IfOk result (λ run. IfSome run IsRunWithinBounds) }
{
    match read(alloc, Table::Seed, words)? {
        Some(matches) => Ok(seed_run_in(&matches)),
        None => Ok(None),
    }
}

// The seeds that the matches ask for.
fn seed_range_in(matches: &ArgMatches) -> Option<SeedRange>
    ensures value { result ≡ seed_range_in (rows_of (found_of matches.now)) }
    ensures within { IfSome result IsRangeWithinBounds }
{
    let first = figure_in(matches, Setting::First)?;
    let seeds = figure_in(matches, Setting::Seeds)?;
    let events = figure_in(matches, Setting::Events)?;
    let _last = first.checked_add(seeds - 1)?;
    Some(SeedRange {
        first,
        seeds: seeds as u32,
        events: events as u32,
    })
}

/// The seeds that the words after `seeds` ask for, all three settings once, or None if they ask for none (own).
/// NoMemory says nothing about them.
pub fn seed_range_of(alloc: Global, words: &[String]) -> Result<Option<SeedRange>, NoMemory>
    ensures value { WordsSay result (seed_range_of words.now) }
    ensures within { IfOk result (λ range. IfSome range IsRangeWithinBounds) }
{
    match read(alloc, Table::Seeds, words)? {
        Some(matches) => Ok(seed_range_in(&matches)),
        None => Ok(None),
    }
}

// The side of a flow that the matches ask for.
fn flow_side_in(matches: &ArgMatches) -> Option<FlowSide>
    ensures value { result ≡ flow_side_in (rows_of (found_of matches.now)) }
    ensures within { IfSome result IsFlowWithinBounds }
{
    let flow = figure_in(matches, Setting::Flow)?;
    let text = text_in(matches, Setting::Side)?;
    let side = side_in(text.as_bytes())?;
    Some(FlowSide { flow, side })
}

/// The side of a flow that the words after `frames` ask for, both settings once, or None if they ask for none (own).
/// NoMemory says nothing about them.
pub fn flow_side_of(alloc: Global, words: &[String]) -> Result<Option<FlowSide>, NoMemory>
    ensures value { WordsSay result (flow_side_of words.now) }
    ensures within { IfOk result (λ asked. IfSome asked IsFlowWithinBounds) }
{
    match read(alloc, Table::Frames, words)? {
        Some(matches) => Ok(flow_side_in(&matches)),
        None => Ok(None),
    }
}
