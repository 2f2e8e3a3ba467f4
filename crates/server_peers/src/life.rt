//! What is known about a flow besides its end.
ghost use Rattle.std.specs.Prelude.{◌≡◌, Ok};
ghost use Rattle.dccp_listener.specs.Calls.{seen_if};
ghost use Rattle.dccp_listener.specs.Runs.{Stepped, told_of};
ghost use Rattle.server_peers.specs.Lives.{lives_on, no_life, no_signs, rank_of, signs_in, signs_of, stands_in};

use ccid_two::Kinds;
use dccp_endpoint::{Endpoint, Outcome, Phase, Seen, Seq48};
use dccp_listener::{Heard, NoFlow};

/// What an owner knows of a flow besides its end (own). Times are in milliseconds since any moment.
#[derive(Clone, Copy)]
pub struct Life {
    /// The phase of its connection.
    pub phase: Phase,
    /// Since when it has been in that phase.
    pub since: u64,
    /// When its end last took a packet.
    pub taken: u64,
    /// The number of the last Sync that its end has sent as an answer.
    pub sync: Option<Seq48>,
    /// A number of the owner for the flow; 0 at first.
    pub user: u64,
}

/// What a packet shows about the peer (own).
#[derive(Clone, Copy)]
pub struct Signs {
    /// The packet was taken.
    pub taken: bool,
    /// The packet was answered with a Sync.
    pub synced: bool,
}

impl Signs {
    /// Signs that say nothing about a peer.
    pub fn none() -> Signs
        ensures { result ≡ no_signs }
    {
        Signs {
            taken: false,
            synced: false,
        }
    }
}

impl Life {
    /// A life that has not begun.
    pub fn none() -> Life
        ensures { result ≡ no_life }
    {
        Life {
            phase: Phase::Closed,
            since: 0,
            taken: 0,
            sync: None,
            user: 0,
        }
    }
}

/// The number of a phase, in the order of RFC 4340, section 8.4.
pub fn rank_of(phase: Phase) -> u8
    ensures { result ≡ rank_of phase }
{
    match phase {
        Phase::Closed => 0,
        Phase::Listen => 1,
        Phase::Request => 2,
        Phase::Respond => 3,
        Phase::PartOpen => 4,
        Phase::Open => 5,
        Phase::CloseReq => 6,
        Phase::Closing => 7,
        Phase::TimeWait => 8,
    }
}

fn stands_in(life: &Life, phase: Phase, now: u64) -> Life
    ensures { result ≡ stands_in now phase life.now }
{
    if rank_of(life.phase) == rank_of(phase) {
        return *life;
    }
    let mut life = *life;
    life.phase = phase;
    life.since = now;
    life
}

/// What an outcome says about a peer.
pub fn signs_in(outcome: &Outcome) -> Signs
    ensures { result ≡ signs_in outcome.now }
{
    match outcome {
        Outcome::Took { delivered: _ } => Signs {
            taken: true,
            synced: false,
        },
        Outcome::Synced(_) => Signs {
            taken: false,
            synced: true,
        },
        Outcome::Dropped(_) | Outcome::WasReset(_) | Outcome::SentReset { code: _, detail: _ } => {
            Signs::none()
        }
    }
}

/// What a datagram that was heard says about its peer.
pub fn signs_heard(heard: &Heard) -> Signs
    ensures { result ≡ signs_of (told_of (Ok heard.now)) }
{
    match heard {
        Heard::Flow(outcome) => signs_in(outcome),
        Heard::Busy => Signs::none(),
    }
}

/// What the answer to a call says about its peer.
pub fn signs_answered(answer: &Result<Seen, NoFlow>) -> Signs
    ensures { result ≡ signs_of (Stepped (seen_if answer.now)) }
{
    match answer {
        Ok(Seen::Received(outcome)) => signs_in(outcome),
        Ok(Seen::Called(_) | Seen::Fired(_)) | Err(NoFlow) => Signs::none(),
    }
}

/// The life of a flow goes on with its end.
pub fn lives_on(life: &Life, end: &Endpoint<Kinds>, signs: Signs, now: u64) -> Life
    ensures { result ≡ lives_on now end.now signs life.now }
{
    let mut next = stands_in(life, end.phase(), now);
    if signs.taken {
        next.taken = now;
    }
    if signs.synced {
        next.sync = Some(end.marks().gss);
    }
    next
}
