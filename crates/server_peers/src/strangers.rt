//! How many answers go to peers that have no flow.
ghost use Rattle.std.specs.Prelude.{◌≡◌};
ghost use Rattle.server_peers.specs.Strangers.{told_of_arrival, answer_spared, frame_if_goes, is_no_connection, reset_spared, spared, spared_if, taken_if};

use crate::rules::{Rules, answers_to_strangers};
use dccp_endpoint::{NoMemory, Outbox, Outcome, ResetCode};
use dccp_listener::Heard;
use path_rules::{Bucket, Limit, TokenGrant, resets_to_strangers};

/// What is left of the limits of answers to strangers.
#[derive(Clone, Copy)]
pub struct Strangers {
    /// What is left of the limit of all answers.
    pub answers: Bucket,
    /// What is left of the limit of Resets to packets that belong to no connection.
    pub resets: Bucket,
}

/// Whether an answer goes out, and what is left of the limits then.
#[derive(Clone, Copy)]
pub struct StrangerAnswer {
    /// It goes out.
    pub goes: bool,
    /// What is left of the limits.
    pub strangers: Strangers,
}

impl Strangers {
    ghost use Rattle.std.specs.Prelude.{◌≡◌};
    ghost use Rattle.server_peers.specs.Strangers.{strangers_begin};

    /// No answer has gone out.
    pub fn none_answered() -> Strangers
        ensures { result ≡ strangers_begin }
    {
        Strangers {
            answers: Bucket::full(&answers_to_strangers(), 0),
            resets: Bucket::full(&resets_to_strangers(), 0),
        }
    }
}

fn taken_if(limit: Option<Limit>, bucket: &Bucket, now: u64) -> TokenGrant
    ensures { result ≡ taken_if limit bucket.now now }
{
    match limit {
        Some(limit) => bucket.take(&limit, now),
        None => TokenGrant {
            granted: true,
            bucket: *bucket,
        },
    }
}

fn is_no_connection(heard: &Result<Option<Heard>, NoMemory>) -> bool
    ensures { result ≡ is_no_connection (told_of_arrival heard.now) }
{
    matches!(
        heard,
        Ok(Some(Heard::Flow(Outcome::SentReset { code, .. }))) if *code == ResetCode::NoConnection.number()
    )
}

/// Whether an answer to a stranger goes out, and what is left of the limit then.
pub fn answer_spared(rules: &Rules, strangers: &Strangers, now: u64) -> StrangerAnswer
    ensures { result ≡ answer_spared now rules.now strangers.now }
{
    let taking = taken_if(rules.answers, &strangers.answers, now);
    let mut strangers = *strangers;
    strangers.answers = taking.bucket;
    StrangerAnswer {
        goes: taking.granted,
        strangers,
    }
}

fn reset_spared(rules: &Rules, strangers: &Strangers, now: u64) -> StrangerAnswer
    ensures { result ≡ reset_spared now rules.now strangers.now (taken_if rules.now.resets strangers.now.resets now) }
{
    let taking = taken_if(rules.resets, &strangers.resets, now);
    let mut strangers = *strangers;
    strangers.resets = taking.bucket;
    if taking.granted {
        return answer_spared(rules, &strangers, now);
    }
    StrangerAnswer {
        goes: false,
        strangers,
    }
}

fn spare_by(rules: &Rules, strangers: &Strangers, without: bool, now: u64) -> StrangerAnswer
    ensures { result ≡ spared now rules.now strangers.now without }
{
    if without {
        return reset_spared(rules, strangers, now);
    }
    answer_spared(rules, strangers, now)
}

fn spared_if(
    rules: &Rules,
    strangers: &Strangers,
    is_to_stranger: bool,
    heard: &Result<Option<Heard>, NoMemory>,
    now: u64,
) -> StrangerAnswer
    ensures { result ≡ spared_if now rules.now strangers.now is_to_stranger (told_of_arrival heard.now) }
{
    if is_to_stranger {
        return spare_by(rules, strangers, is_no_connection(heard), now);
    }
    StrangerAnswer {
        goes: true,
        strangers: *strangers,
    }
}

/// The frame that a datagram has left goes out, unless it is one too many for a stranger. Returns what is then left of
/// the limits.
pub fn spare(
    rules: &Rules,
    strangers: &Strangers,
    is_to_stranger: bool,
    heard: &Result<Option<Heard>, NoMemory>,
    now: u64,
    out: &mut Outbox,
) -> Strangers
    ensures left { result ≡ (spared_if now rules.now strangers.now is_to_stranger (told_of_arrival heard.now)).strangers }
    ensures frame { out.new ≡ frame_if_goes (spared_if now rules.now strangers.now is_to_stranger (told_of_arrival heard.now)).goes out.old }
{
    let spared = spared_if(rules, strangers, is_to_stranger, heard, now);
    if !spared.goes {
        out.clear();
    }
    spared.strangers
}
