//! Data of a listener's flows that wait until C reads them.
ghost use Rattle.std.specs.Prelude.{◌≡◌, Some};
ghost use Rattle.dccp_listener.specs.Peers.{end_of_peer};
ghost use Rattle.dccp_server.specs.FlowInboxes.{flow_first_read, flow_read_over};
ghost use Rattle.dccp_c.specs.FlowReading.{StopsFlow, StopsFlowIf, StopsReading, flow_data_read, flow_held_in, flow_read_code, without_first_of};
ghost use Rattle.dccp_c.specs.Listening.{holding_in, holding_of, peer_named};

use crate::codes::{DONE, NO_FLOW, NO_MEMORY, NOT_MADE, NOTHING_DUE};
use crate::listener_calls::has_flow;
use crate::peer::peer_named;
use crate::serving::OwnedServer;
use crate::{ListenerHandle, PeerAddress, ReadData};
use dccp_endpoint::{NoMemory, Seq48};
use dccp_listener::Peer;
use std::alloc::Global;

// Takes the first data of a peer. An inbox of a flow that is over goes with its last data.
fn read(serving: &mut OwnedServer, peer: Peer, into: &mut [u8; 2032]) -> Option<(Seq48, usize)>
    ensures rest { Some (holding_of serving.new) ≡ without_first_of (Some (holding_of serving.old)) peer }
    ensures answer { result ≡ flow_first_read serving.old.inboxes peer }
    ensures data { into.new ≡ flow_read_over serving.old.inboxes peer into.old }
{
    let first = serving.inboxes.read(peer, into);
    serving.inboxes.tidy(serving.server.server(), peer);
    first
}

/// Takes the data of a peer that have waited longest, even if its flow is over. Returns DONE, NOT_MADE, or NOTHING_DUE
/// if none wait; then `data` is unchanged.
#[unsafe(no_mangle)]
pub extern "C" fn dccp_listener_read(
    listener: &mut ListenerHandle,
    alloc: Global,
    peer: &PeerAddress,
    data: &mut ReadData,
) -> u32
    ensures listener { holding_in listener.new.kept.value ≡ without_first_of (holding_in listener.old.kept.value) (peer_named peer.now) }
    ensures data { data.new ≡ flow_data_read (holding_in listener.old.kept.value) (peer_named peer.now) data.old }
    ensures code { result ≡ flow_read_code (holding_in listener.old.kept.value) (peer_named peer.now) }
{
    let Some(mut serving) = listener.take(alloc) else {
        return NOT_MADE;
    };
    let found = read(&mut serving, peer_named(peer), &mut data.bytes);
    listener.put(serving);
    match found {
        Some((number, length)) => {
            data.number = number.get();
            data.length = length;
            DONE
        }
        None => NOTHING_DUE,
    }
}

// The owner stops reading the data of a peer that has a flow.
fn stop(serving: &mut OwnedServer, peer: Peer) -> u32
    ensures { StopsFlow (holding_of serving.old) (Some (holding_of serving.new)) peer result }
{
    match serving.inboxes.stop(peer) {
        Ok(true) => DONE,
        Ok(false) => NOTHING_DUE,
        Err(NoMemory) => NO_MEMORY,
    }
}

// The same for a peer that may have none.
fn stop_if(serving: &mut OwnedServer, peer: Peer) -> u32
    ensures { StopsFlowIf (holding_of serving.old) (Some (holding_of serving.new)) peer (end_of_peer serving.old.server.server.room.served.listening.flows peer) result }
{
    if !has_flow(serving.server.server(), peer) {
        return NO_FLOW;
    }
    stop(serving, peer)
}

/// The owner stops reading a peer's data: those that arrive from now on are dropped, and this is reported to the peer
/// (RFC 4340, section 11.7). Returns DONE, NOT_MADE, NO_FLOW, NO_MEMORY if there is none for its inbox, or NOTHING_DUE
/// if flows have no inbox.
#[unsafe(no_mangle)]
pub extern "C" fn dccp_listener_stop_reading(
    listener: &mut ListenerHandle,
    alloc: Global,
    peer: &PeerAddress,
) -> u32
    ensures { StopsReading (holding_in listener.old.kept.value) (holding_in listener.new.kept.value) (peer_named peer.now) result }
{
    let Some(mut serving) = listener.take(alloc) else {
        return NOT_MADE;
    };
    let code = stop_if(&mut serving, peer_named(peer));
    listener.put(serving);
    code
}

/// How many packets' data of a peer wait; 0 if there is no listener.
#[unsafe(no_mangle)]
pub extern "C" fn dccp_listener_held(
    listener: &mut ListenerHandle,
    alloc: Global,
    peer: &PeerAddress,
) -> usize
    ensures listener { listener.new.kept.value ≡ listener.old.kept.value }
    ensures held { result ≡ flow_held_in (holding_in listener.old.kept.value) (peer_named peer.now) }
{
    let Some(serving) = listener.take(alloc) else {
        return 0;
    };
    let count = serving.inboxes.held(peer_named(peer));
    listener.put(serving);
    count
}
