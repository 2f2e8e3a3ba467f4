//! What the words after `campaign` ask for.
ghost use Rattle.std.specs.Prelude.{◌≡◌, IfOk, IfSome};
ghost use Rattle.clap.specs.Words.{found_of, rows_of};
ghost use Rattle.tool_forms.specs.CampaignWords.{IsWithinBounds, campaign_of};
ghost use Rattle.tool_forms.specs.Commands.{campaign_in};
ghost use Rattle.tool_forms.specs.Words.{WordsSay};

use crate::commands::{figure_in, read};
use crate::settings::{Setting, Table};
use clap::ArgMatches;
use seq_circle::NoMemory;
use std::alloc::Global;

/// The job of the form `campaign` (own): which seeds are run, with how many events each, and by how many workers.
#[derive(Clone, Copy)]
pub struct Campaign {
    /// The first seed. The last one is below 2^64.
    pub first: u64,
    /// How many seeds, from the first on: 1 to 100,000.
    pub seeds: u32,
    /// How many events a seed has: 1 to 4,096.
    pub events: u32,
    /// How many workers run them: 1 to 16.
    pub workers: u8,
}

// The campaign that the matches ask for.
fn campaign_in(matches: &ArgMatches) -> Option<Campaign>
    ensures value { result ≡ campaign_in (rows_of (found_of matches.now)) }
    ensures within { IfSome result IsWithinBounds }
{
    let first = figure_in(matches, Setting::First)?;
    let seeds = figure_in(matches, Setting::Seeds)?;
    let events = figure_in(matches, Setting::Events)?;
    let workers = figure_in(matches, Setting::Workers)?;
    let _last = first.checked_add(seeds - 1)?;
    Some(Campaign {
        first,
        seeds: seeds as u32,
        events: events as u32,
        workers: workers as u8,
    })
}

/// The campaign that the words after `campaign` ask for, or None if they ask for none.
pub(crate) fn campaign_of(alloc: Global, words: &[String]) -> Result<Option<Campaign>, NoMemory>
    ensures value { WordsSay result (campaign_of words.now) }
    ensures within { IfOk result (λ campaign. IfSome campaign IsWithinBounds) }
{
    match read(alloc, Table::Campaign, words)? {
        Some(matches) => Ok(campaign_in(&matches)),
        None => Ok(None),
    }
}
