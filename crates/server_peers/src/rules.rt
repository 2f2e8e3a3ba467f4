//! The rules by which a server gives flows up and makes room.
ghost use Rattle.std.specs.Prelude.{◌≡◌};
ghost use Rattle.server_peers.specs.Rules.{answers_to_strangers, first_given_up, is_crowd, least_in, least_left, limit_in, longest, makes_way, over_in, stage_left};

use crate::life::Life;
use crate::queue::Ticket;
use crate::register::Register;
use crate::stage::{Stage, class_of};
use dccp_listener::Peer;
use path_rules::{Limit, resets_to_strangers};

/// A hundred answers a second to all strangers together (own).
pub fn answers_to_strangers() -> Limit
    ensures { result ≡ answers_to_strangers }
{
    Limit {
        per_second: 100,
        burst: 100,
    }
}

/// The rules of a server (own). Times are in milliseconds; None means for ever.
#[derive(Clone, Copy, Debug)]
pub struct Rules {
    /// Whether a Request at a full table ends the flow that has been in TIMEWAIT for longest, or else the one that has
    /// been in RESPOND for longest, if it is over its time.
    pub makes_room: bool,
    /// Whether a peer that connects again from its port ends its old flow.
    pub ends_old_flows: bool,
    /// How long a flow may be in RESPOND (RFC 4340, section 8.1.3).
    pub respond: Option<u64>,
    /// The same in a crowd: while more flows are in RESPOND than places are free.
    pub crowded: Option<u64>,
    /// How long a flow may be in CLOSEREQ and in CLOSING.
    pub closing: Option<u64>,
    /// How long a flow in OPEN may take no packet.
    pub idle: Option<u64>,
    /// How many answers go to strangers, which are peers without a flow, all together; None means no limit.
    pub answers: Option<Limit>,
    /// How many of them are Resets to packets that belong to no connection (RFC 4340, section 8.1.3).
    pub resets: Option<Limit>,
}

impl Rules {
    ghost use Rattle.std.specs.Prelude.{◌≡◌};
    ghost use Rattle.server_peers.specs.Rules.{no_rules, usual_rules};

    /// No rules: a listener by itself.
    pub fn none() -> Rules
        ensures { result ≡ no_rules }
    {
        Rules {
            makes_room: false,
            ends_old_flows: false,
            respond: None,
            crowded: None,
            closing: None,
            idle: None,
            answers: None,
            resets: None,
        }
    }

    /// Both rules; RESPOND for four minutes, or ten seconds in a crowd; CLOSEREQ and CLOSING for 64 seconds; two
    /// minutes of silence; and a hundred answers a second to strangers, of which eight are Resets without a connection.
    pub fn usual() -> Rules
        ensures { result ≡ usual_rules }
    {
        Rules {
            makes_room: true,
            ends_old_flows: true,
            respond: Some(240_000),
            crowded: Some(10_000),
            closing: Some(64_000),
            idle: Some(120_000),
            answers: Some(answers_to_strangers()),
            resets: Some(resets_to_strangers()),
        }
    }
}

/// Whether more flows are half open than places are free, of this many places.
pub fn is_crowd(lives: &Register<Life>, most: u16) -> bool
    ensures { result ≡ is_crowd most lives.now }
{
    let free = usize::from(most).saturating_sub(lives.len());
    free < lives.count_in(class_of(Stage::HalfOpen))
}

// The flow that has been in a stage for the longest time.
fn longest(lives: &Register<Life>, stage: Stage) -> Option<Ticket>
    ensures { result ≡ longest stage lives.now }
{
    lives.first_in(class_of(stage))
}

// For how long a flow may be in a stage.
fn limit_in(rules: &Rules, crowded: bool, stage: Stage) -> Option<u64>
    ensures { result ≡ limit_in rules.now crowded stage }
{
    match stage {
        Stage::HalfOpen => {
            if crowded {
                rules.crowded
            } else {
                rules.respond
            }
        }
        Stage::Live => rules.idle,
        Stage::Ending => rules.closing,
        Stage::Lingering => None,
    }
}

// How long the flow with this ticket may still be in a stage.
fn stage_left(
    rules: &Rules,
    crowded: bool,
    stage: Stage,
    ticket: Option<Ticket>,
    now: u64,
) -> Option<u64>
    ensures { result ≡ stage_left rules.now crowded now stage ticket }
{
    let time = ticket?.time;
    let limit = limit_in(rules, crowded, stage)?;
    Some(limit.saturating_sub(now.saturating_sub(time)))
}

// The flow that has been longest in a stage, if it may stay no longer.
fn over_in(
    rules: &Rules,
    crowded: bool,
    stage: Stage,
    lives: &Register<Life>,
    now: u64,
) -> Option<Ticket>
    ensures { result ≡ over_in rules.now crowded now stage lives.now }
{
    let ticket = longest(lives, stage);
    match stage_left(rules, crowded, stage, ticket, now) {
        Some(0) => ticket,
        Some(_) | None => None,
    }
}

/// The flow that is given up first, if one is.
pub fn first_given_up(
    rules: &Rules,
    crowded: bool,
    lives: &Register<Life>,
    now: u64,
) -> Option<Peer>
    ensures { result ≡ first_given_up rules.now crowded now lives.now }
{
    if let Some(ticket) = over_in(rules, crowded, Stage::HalfOpen, lives, now) {
        return Some(ticket.peer);
    }
    if let Some(ticket) = over_in(rules, crowded, Stage::Live, lives, now) {
        return Some(ticket.peer);
    }
    Some(over_in(rules, crowded, Stage::Ending, lives, now)?.peer)
}

// How long is left in a stage, at most `most`.
fn least_in(
    rules: &Rules,
    crowded: bool,
    lives: &Register<Life>,
    now: u64,
    stage: Stage,
    least: u64,
) -> u64
    ensures { result ≡ least_in rules.now crowded now lives.now stage least }
{
    let ticket = longest(lives, stage);
    let left = stage_left(rules, crowded, stage, ticket, now);
    least.min(left.unwrap_or(least))
}

/// In how many milliseconds the first flow is given up, at most `most`.
pub fn least_left(rules: &Rules, crowded: bool, lives: &Register<Life>, now: u64, most: u64) -> u64
    ensures { result ≡ least_left rules.now crowded now most lives.now }
{
    let least = least_in(rules, crowded, lives, now, Stage::HalfOpen, most);
    let least = least_in(rules, crowded, lives, now, Stage::Live, least);
    least_in(rules, crowded, lives, now, Stage::Ending, least)
}

/// The flow that makes room, if there is one.
pub fn makes_way(rules: &Rules, crowded: bool, lives: &Register<Life>, now: u64) -> Option<Peer>
    ensures { result ≡ makes_way rules.now crowded now lives.now }
{
    if !rules.makes_room {
        return None;
    }
    if let Some(ticket) = longest(lives, Stage::Lingering) {
        return Some(ticket.peer);
    }
    Some(over_in(rules, crowded, Stage::HalfOpen, lives, now)?.peer)
}
