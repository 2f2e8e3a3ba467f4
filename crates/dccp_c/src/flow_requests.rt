//! The functions of a listener that C calls before a flow opens.
ghost use Rattle.std.specs.Prelude.{◌≡◌, ◌≤◌, is_some, length, unwrap_or};
ghost use Rattle.dccp_c.specs.FlowRequests.{asks_code, refused_after, refused_left, service_asked, set_shut_in};
ghost use Rattle.dccp_c.specs.Framing.{handed_in};
ghost use Rattle.dccp_c.specs.Listening.{inboxes_in, made_code, peer_named, watched_in};
ghost use Rattle.dccp_server.specs.Events.{shut_out};
ghost use Rattle.dccp_server.specs.Refusals.{refused_frame};
ghost use Rattle.server_peers.specs.Refusals.{flow_asked};

use crate::codes::{DONE, NO_CONNECTION, NOT_MADE, TOO_LONG};
use crate::frame::Frame;
use crate::peer::peer_named;
use crate::serving::OwnedServer;
use crate::{ListenerHandle, PeerAddress};
use dccp_endpoint::{DecodedDatagram, MOST_FRAME_BYTES};
use dccp_listener::Peer;
use std::alloc::Global;

/// The Service Code of the flow that a datagram of a peer would open, so that C may decide whether to accept it.
/// Returns DONE, TOO_LONG, NOT_MADE, or NO_CONNECTION if it opens none. Nothing changes.
#[unsafe(no_mangle)]
pub extern "C" fn dccp_listener_asks(
    listener: &mut ListenerHandle,
    alloc: Global,
    peer: &PeerAddress,
    datagram: &[u8],
    service: &mut u32,
) -> u32
    ensures listener { listener.new.kept.value ≡ listener.old.kept.value }
    ensures service { service.new ≡ unwrap_or (service_asked (watched_in listener.old.kept.value) (peer_named peer.now) datagram.now) service.old }
    ensures code { result ≡ asks_code (watched_in listener.old.kept.value) (peer_named peer.now) datagram.now }
{
    if MOST_FRAME_BYTES < datagram.len() {
        return TOO_LONG;
    }
    let Some(serving) = listener.take(alloc) else {
        return NOT_MADE;
    };
    let asked = serving
        .server
        .server()
        .asks(peer_named(peer), &DecodedDatagram::new(datagram));
    listener.put(serving);
    match asked {
        Some(asked) => {
            *service = asked;
            DONE
        }
        None => NO_CONNECTION,
    }
}

// Refuses a datagram that is short enough.
fn refuse(serving: &mut OwnedServer, peer: Peer, datagram: &[u8], code: u8, now: u64) -> bool
    requires { length datagram.now ≤ 2044 }
    ensures opens { result ≡ is_some (flow_asked serving.old.server.server.room.served.listening peer datagram.now) }
    ensures after { serving.new.server ≡ shut_out now serving.old.server peer datagram.now }
    ensures inboxes { serving.new.inboxes ≡ serving.old.inboxes }
    ensures sent { serving.new.out ≡ refused_frame now serving.old.server.server peer datagram.now code }
{
    serving.server.refuse(
        peer,
        &DecodedDatagram::new(datagram),
        code,
        now,
        &mut serving.out,
    )
}

/// `EventServer::refuse`. Returns DONE, TOO_LONG, NOT_MADE, or NO_CONNECTION if the datagram opens no flow; then no
/// frame is left.
#[unsafe(no_mangle)]
pub extern "C" fn dccp_listener_refuse(
    listener: &mut ListenerHandle,
    alloc: Global,
    peer: &PeerAddress,
    datagram: &[u8],
    code: u8,
    now: u64,
    frame: &mut Frame,
) -> u32
    ensures listener { watched_in listener.new.kept.value ≡ refused_after now (watched_in listener.old.kept.value) (peer_named peer.now) datagram.now }
    ensures inboxes { inboxes_in listener.new.kept.value ≡ inboxes_in listener.old.kept.value }
    ensures frame { handed_in frame.new ≡ refused_left now (watched_in listener.old.kept.value) (peer_named peer.now) datagram.now code }
    ensures code { result ≡ asks_code (watched_in listener.old.kept.value) (peer_named peer.now) datagram.now }
{
    frame.clear();
    if MOST_FRAME_BYTES < datagram.len() {
        return TOO_LONG;
    }
    let Some(mut serving) = listener.take(alloc) else {
        return NOT_MADE;
    };
    let opens = refuse(&mut serving, peer_named(peer), datagram, code, now);
    frame.fill(&serving.out);
    listener.put(serving);
    if opens { DONE } else { NO_CONNECTION }
}

/// Takes no new flows from now on, or takes them again; present flows go on. Returns DONE or NOT_MADE.
#[unsafe(no_mangle)]
pub extern "C" fn dccp_listener_shut(
    listener: &mut ListenerHandle,
    alloc: Global,
    is_shut: bool,
) -> u32
    ensures listener { watched_in listener.new.kept.value ≡ set_shut_in is_shut (watched_in listener.old.kept.value) }
    ensures inboxes { inboxes_in listener.new.kept.value ≡ inboxes_in listener.old.kept.value }
    ensures code { result ≡ made_code (watched_in listener.old.kept.value) }
{
    let Some(mut serving) = listener.take(alloc) else {
        return NOT_MADE;
    };
    serving.server.set_shut(is_shut);
    listener.put(serving);
    DONE
}
