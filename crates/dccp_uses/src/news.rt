//! What a datagram means to the owner of a session.
ghost use Rattle.std.specs.Prelude.{◌≡◌};
ghost use Rattle.dccp_uses.specs.Session.{has_closed, is_delivery, news_of};
ghost use Rattle.dccp_uses.specs.Sessions.{news_if, news_kept};
ghost use Rattle.dccp_uses.specs.Upkeeps.{is_taken};

use data_dropped::Arrival;
use dccp_endpoint::{Outcome, Phase};

/// What a datagram that arrived means to the owner of the session.
#[derive(Clone, Copy, Debug, PartialEq, Eq)]
pub enum News {
    /// It brought data: they are in the datagram from the place `first` up to the place `past`.
    Data { first: usize, past: usize },
    /// It brought data to a session with an inbox: they wait there.
    Waits,
    /// It brought data that the inbox dropped, for the reason of this Drop Code (RFC 4340, section 11.7): 1, the
    /// application no longer listens; 2, the inbox is full.
    Dropped { code: u8 },
    /// Nothing that concerns the owner: it was taken, answered or dropped.
    Quiet,
    /// The connection has ended by a Reset of either end with this code (RFC 4340, section 5.6): 1 is an orderly close,
    /// 2 an end that gave up, any other a fault.
    Ended { code: u8 },
    /// It is longer than any frame of an end, and was ignored.
    TooLong,
}

// Whether the connection has ended.
fn has_closed(was: Phase, is: Phase) -> bool
    ensures { result ≡ has_closed was is }
{
    !was.is_closed() && is.is_closed()
}

// What an outcome means, by the phases before and after it.
fn news_of(outcome: &Outcome, was: Phase, is: Phase) -> News
    ensures { result ≡ news_of outcome.now was is }
{
    match *outcome {
        Outcome::Took {
            delivered: Some((first, past)),
        } => News::Data { first, past },
        Outcome::Took { delivered: None } | Outcome::Dropped(_) | Outcome::Synced(_) => News::Quiet,
        Outcome::WasReset(code) => News::Ended { code },
        // Without a connection, and in REQUEST, a Reset goes out and the phase stays.
        Outcome::SentReset { code, .. } => {
            if has_closed(was, is) {
                News::Ended { code }
            } else {
                News::Quiet
            }
        }
    }
}

// The meaning of a datagram that was heard or left out.
pub(crate) fn news_if(outcome: Option<Outcome>, was: Phase, is: Phase) -> News
    ensures { result ≡ news_if outcome was is }
{
    match outcome {
        Some(outcome) => news_of(&outcome, was, is),
        None => News::Quiet,
    }
}

// The meaning of a datagram by what became of its data in the inbox, or `told` if none came there.
pub(crate) fn news_kept(arrival: Option<Arrival>, told: News) -> News
    ensures { result ≡ news_kept arrival told }
{
    match arrival {
        Some(Arrival::Kept) => News::Waits,
        Some(Arrival::Dropped(code)) => News::Dropped { code },
        None => told,
    }
}

/// Whether the outcome brought data.
pub(crate) fn is_delivery(outcome: &Outcome) -> bool
    ensures { result ≡ is_delivery outcome.now }
{
    matches!(outcome, Outcome::Took { delivered: Some(_) })
}

/// Whether the packet was taken.
pub fn is_taken(outcome: &Outcome) -> bool
    ensures { result ≡ is_taken outcome.now }
{
    matches!(outcome, Outcome::Took { .. })
}
