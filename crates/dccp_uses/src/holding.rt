//! An end with its timers, an inbox and a cookie.
ghost use Rattle.std.specs.Prelude.{◌≡◌, None};
ghost use Rattle.data_dropped.specs.Intakes.{HasDataIfHeard, came_in};
ghost use Rattle.dccp_endpoint.specs.End.{last_taken};
ghost use Rattle.dccp_uses.specs.Holding.{frame_returned, spoken_by};

use crate::client_cookie::is_part_open;
use crate::{ClientCookie, TimedEnd};
use data_dropped::{Arrival, Intake};
use dccp_endpoint::{Congestion, Outbox, Outcome};

/// What became of a datagram: the outcome, or None if it was left out; and what became of its data, or None if none
/// came into an inbox.
#[derive(Clone, Copy, Debug, PartialEq, Eq)]
pub struct Reading {
    /// The outcome.
    pub heard: Option<Outcome>,
    /// What became of its data.
    pub arrival: Option<Arrival>,
}

/// The end has heard this datagram or left it out. Data that it delivers come into the inbox, if there is one (own).
/// Returns what became of them, or None if none came there.
pub fn settle_heard<C: Congestion>(
    intake: &mut Intake,
    end: &TimedEnd<C>,
    datagram: &[u8],
    heard: &Option<Outcome>,
) -> Option<Arrival>
    requires { HasDataIfHeard datagram.now heard.now }
    ensures { record { inbox = intake.new; arrival = result } ≡ came_in intake.old (last_taken end.now.end.state) datagram.now heard.now }
{
    intake.settle(end.end().last_taken(), datagram, heard)
}

/// Adds what the inbox has to say to the frame that the end has left in the box, if there is an inbox (own).
pub fn speak<C: Congestion>(intake: &Intake, end: &TimedEnd<C>, out: &mut Outbox)
    ensures says { out.new ≡ spoken_by intake.now end.now out.old }
    ensures silent { out.old ≡ None → out.new ≡ None }
{
    if 0 < intake.most_said() {
        intake.speak(&end.end().pseudo_out(), out);
    }
}

/// In PARTOPEN, adds the cookie, if there is one, to the frame that the end has left in the box (RFC 4340, section
/// 8.1.4).
pub fn give_back<C: Congestion>(cookie: &ClientCookie, end: &TimedEnd<C>, out: &mut Outbox)
    ensures returns { out.new ≡ frame_returned cookie.now end.now out.old }
    ensures silent { out.old ≡ None → out.new ≡ None }
{
    let end = end.end();
    if is_part_open(end.phase()) {
        cookie.put(&end.pseudo_out(), out);
    }
}
