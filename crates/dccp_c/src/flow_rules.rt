//! The rules that C gives a listener, and what it may know of a flow besides its end.
ghost use Rattle.std.specs.Prelude.{◌≡◌};
ghost use Rattle.dccp_c.specs.Listening.{cookies_of, known_of, limit_of, rules_of, wait_of};

use crate::sizes::FLOW_LIFE_BYTES;
use dccp_server::{CookieUse, Life, Rules};
use path_rules::Limit;

/// The rules by which a listener makes room and gives flows up. Waits are in milliseconds; 2^64 - 1 means for ever.
#[repr(C)]
#[derive(Drop)]
pub struct FlowRules {
    /// How many bytes this struct has, as its caller knows it.
    pub size: usize,
    /// How long a flow may be in RESPOND.
    pub respond: u64,
    /// The same in a crowd: while more flows are in RESPOND than places are free.
    pub crowded: u64,
    /// How long a flow may be in CLOSEREQ and in CLOSING.
    pub closing: u64,
    /// How long a flow in OPEN may take no packet.
    pub idle: u64,
    /// How many answers go to peers without a flow in a second; 65,535 means no limit.
    pub answers: u16,
    /// How many of them are Resets to packets that belong to no connection; 65,535 means no limit.
    pub resets: u16,
    /// Whether a Request at a full table ends a flow that may leave.
    pub makes_room: bool,
    /// Whether a peer that connects again from its port ends its old flow.
    pub ends_old_flows: bool,
    /// When Requests are answered with Init Cookies, if there is a key: 0 never, 1 in a crowd, any other number always.
    pub cookies: u8,
}

/// What C may know of a flow besides its end. Times are those of its calls.
#[repr(C)]
#[derive(Clone, Copy)]
pub struct FlowLife {
    /// How many bytes this struct has, as its caller knows it.
    pub size: usize,
    /// Since when its connection is in its phase.
    pub since: u64,
    /// When its end last took a packet.
    pub taken: u64,
    /// The number that the owner has set for it.
    pub user: u64,
}

fn wait_of(wait: u64) -> Option<u64>
    ensures { result ≡ wait_of wait }
{
    if wait == u64::MAX { None } else { Some(wait) }
}

fn limit_of(per_second: u16) -> Option<Limit>
    ensures { result ≡ limit_of per_second }
{
    if per_second == u16::MAX {
        return None;
    }
    Some(Limit {
        per_second,
        burst: per_second,
    })
}

pub(crate) fn rules_of(given: &FlowRules) -> Rules
    ensures { result ≡ rules_of given.now }
{
    Rules {
        makes_room: given.makes_room,
        ends_old_flows: given.ends_old_flows,
        respond: wait_of(given.respond),
        crowded: wait_of(given.crowded),
        closing: wait_of(given.closing),
        idle: wait_of(given.idle),
        answers: limit_of(given.answers),
        resets: limit_of(given.resets),
    }
}

pub(crate) fn cookies_of(given: &FlowRules) -> CookieUse
    ensures { result ≡ cookies_of given.now.cookies }
{
    match given.cookies {
        0 => CookieUse::Never,
        1 => CookieUse::InACrowd,
        _ => CookieUse::Always,
    }
}

pub(crate) fn known_of(life: &Life) -> FlowLife
    ensures { result ≡ known_of life.now }
{
    FlowLife {
        size: FLOW_LIFE_BYTES,
        since: life.since,
        taken: life.taken,
        user: life.user,
    }
}
