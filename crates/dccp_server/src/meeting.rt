//! How a server meets a datagram that may need no flow, or may bring its opening back.
ghost use Rattle.std.specs.Prelude.{◌≡◌, IfOk, OnErr, OnOk, None, false};
ghost use Rattle.dccp_listener.specs.Greeting.{greets};
ghost use Rattle.dccp_server.specs.Meeting.{MovesNobody};
ghost use Rattle.server_peers.specs.Requests.{route_of};
ghost use Rattle.init_cookies.specs.Appending.{appended};
ghost use Rattle.init_cookies.specs.Cookies.{cookie_bytes};
ghost use Rattle.init_cookies.specs.Openings.{request_bytes};
ghost use Rattle.dccp_sum.specs.Checksum.{reversed};
ghost use Rattle.dccp_options.specs.Written.{spelled};

use crate::room::ArrivalResult;
use crate::timed_listener::TimedListener;
use dccp_endpoint::{NoMemory, Outbox, Outcome};
use dccp_listener::{Heard, Peer};
use dccp_packets::Frame;
use init_cookies::{CookieKeys, FirstRequest, put_request};
use server_peers::{append_cookie, route_of};

/// The way in which a datagram was met (RFC 4340, section 8.1.4; own).
#[derive(Clone, Copy, PartialEq, Eq)]
pub enum Way {
    /// It was served as if there were no cookies.
    Plain,
    /// It was a Request, and its Response went out with an Init Cookie: no flow was made.
    Greeted,
    /// It was a Request, and was left out: its options are too long for a cookie, or there was no memory for an end.
    Unanswered,
    /// Its Init Cookie opened a flow, which has heard it.
    Reopened,
    /// Its Init Cookie was valid, but there was no room or no memory for a flow: nothing went out, and the peer's next
    /// packet brings the cookie again.
    Unopened,
}

/// The result of a datagram that was met (own).
#[derive(Clone, Copy)]
pub struct Meeting {
    /// Its result as it arrived; if it was not served, the answer of a fresh end, or nothing.
    pub arrival: ArrivalResult,
    /// How it was met.
    pub way: Way,
    /// The peer whose flow made room for the flow that its cookie opened.
    pub made_room: Option<Peer>,
}

impl Meeting {
    ghost use Rattle.std.specs.Prelude.{◌≡◌, false, None};

    // A datagram was met in this way, with this result, and was not served.
    pub(crate) fn unserved(
        heard: Result<Option<Heard>, NoMemory>,
        way: Way,
        made_room: Option<Peer>,
    ) -> Meeting
        ensures heard { result.arrival.heard ≡ heard }
        ensures evicted { result.arrival.evicted ≡ None }
        ensures anew { result.arrival.anew ≡ false }
        ensures room { result.made_room ≡ made_room }
        ensures way { result.way ≡ way }
    {
        Meeting {
            arrival: ArrivalResult {
                heard,
                evicted: None,
                anew: false,
            },
            way,
            made_room,
        }
    }
}

/// A Request is left out, for this reason: nothing goes out.
pub(crate) fn leave_out(heard: Result<Option<Heard>, NoMemory>, out: &mut Outbox) -> Meeting
    ensures frame { out.new ≡ None }
    ensures nobody { MovesNobody result.arrival.evicted result.arrival.anew result.made_room }
    ensures way { result.way ≡ Way.Unanswered }
{
    out.clear();
    Meeting::unserved(heard, Way::Unanswered, None)
}

/// A Request is answered with a cookie, and no flow is made. Returns the outcome of a fresh end, which does not take
/// the Request if it asks for no service of the listener, or if its options have a fault.
pub(crate) fn greet_with_cookie(
    timed: &TimedListener,
    keys: &CookieKeys,
    peer: Peer,
    opening: &FirstRequest,
    out: &mut Outbox,
) -> Result<Outcome, NoMemory>
    ensures sent { OnOk result (out.new ≡ appended (reversed (route_of timed.now.listening.config peer).pseudo) (spelled false 36 (cookie_bytes keys.now (route_of timed.now.listening.config peer) opening.now)) (greets timed.now.listening peer opening.now.iss (request_bytes (route_of timed.now.listening.config peer) opening.now)).frame) }
    ensures told { IfOk result (λ outcome. outcome ≡ (greets timed.now.listening peer opening.now.iss (request_bytes (route_of timed.now.listening.config peer) opening.now)).answer) }
    ensures unmet { OnErr result (out.new ≡ None) }
{
    let route = route_of(timed.config(), peer);
    let mut request = Frame::new();
    put_request(&route, opening, &mut request);
    let outcome = timed.greet(peer, opening.iss(), request.bytes(), out)?;
    append_cookie(keys, &route, opening, out);
    Ok(outcome)
}
