//! A server: what it does with datagrams of peers that it does not know.
ghost use Rattle.std.specs.Prelude.{◌≡◌, IfOk, IsTrue};
ghost use Rattle.dccp_uses.specs.Listening.{Accepts};
ghost use Rattle.dccp_uses.specs.Session.{is_listening};

use crate::{Network, Pace, Session};
use dccp_endpoint::{Config, Congestion, NoMemory, Phase};
use std::alloc::Global;

fn is_listening(phase: Phase) -> bool
    ensures { result ≡ is_listening phase }
{
    matches!(phase, Phase::Listen)
}

/// Takes the first datagram of a peer. A Request for the server's service opens a connection, and its session is
/// returned. Anything else is answered or dropped as RFC 4340, section 8.5, says, and None is returned. If an option of
/// the Request is a fault, the session's end is CLOSED already, and may be dropped. NoMemory if there is none for an
/// end.
///
/// The configuration is the server's for this peer (`Config::server`), and the congestion control has to know CCID 2.
/// All further datagrams of the peer belong to the connection, until it has ended. The owner limits how many
/// connections a server takes, and how many Resets and Responses it sends in a second.
pub fn accept<C: Congestion + Drop, N: Network>(
    alloc: Global,
    config: Config,
    congestion: C,
    pace: Pace,
    datagram: &[u8],
    now: u64,
    network: &mut N,
) -> Result<Option<Session<C>>, NoMemory>
    requires { IsTrue (C.control.is_known 2) }
    ensures { IfOk result (λ made. Accepts N.sends C.control now config congestion pace datagram.now network.old network.new made) }
{
    let mut session = Session::new(alloc, config, congestion, pace)?;
    let _news = session.arrived(datagram, now, network);
    if is_listening(session.end().phase()) {
        return Ok(None);
    }
    Ok(Some(session))
}
