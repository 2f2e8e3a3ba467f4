//! What became of the data of a listener's flow, how long the next data may be, and what was measured of its path.
ghost use Rattle.std.specs.Prelude.{◌≡◌, ◌==◌, Some, unwrap_or};
ghost use Rattle.std.specs.Option.{option_map};
ghost use Rattle.dccp_listener.specs.Peers.{end_of_peer};
ghost use Rattle.dccp_server.specs.FlowDrops.{flow_drop_code};
ghost use Rattle.dccp_server.specs.Serving.{upkeep_at};
ghost use Rattle.dccp_c.specs.Fates.{IsFate, StandSo, longest_in};
ghost use Rattle.dccp_c.specs.FlowFates.{flow_end, flow_path, left_beside_flow, upkeep_seen};
ghost use Rattle.dccp_c.specs.Listening.{flow_code, flow_drops_in, inboxes_in, peer_named, served_in};
ghost use Rattle.dccp_c.specs.Seeing.{if_sized, sized_code};

use crate::codes::{NOT_MADE, OTHER_SIZE};
use crate::fates::{FATE_UNKNOWN, fate_in, longest_in};
use crate::listener_calls::hand_found;
use crate::peer::peer_named;
use crate::readers::trip_seen;
use crate::sizes::ROUND_TRIP_VIEW_BYTES;
use crate::{ListenerHandle, PeerAddress, RoundTripView};
use ccid_two::Kinds;
use dccp_endpoint::{Endpoint, Seq48};
use dccp_listener::Peer;
use dccp_server::{FlowDropRecord, Server};
use dccp_uses::Upkeep;
use std::alloc::Global;

// What became of data to a peer with this end.
fn fate_at(end: &Endpoint<Kinds>, drops: &FlowDropRecord, peer: Peer, number: u64) -> u32
    ensures { IsFate (StandSo (Some end.now) number) (flow_drop_code drops.now peer number) result }
{
    match Seq48::new(number) {
        Some(number) => fate_in(end, number, drops.code(peer, number)),
        None => FATE_UNKNOWN,
    }
}

fn flow_fate(server: &Server, drops: &FlowDropRecord, peer: Peer, number: u64) -> u32
    ensures { IsFate (StandSo (end_of_peer server.now.room.served.listening.flows peer) number) (flow_drop_code drops.now peer number) result }
{
    match server.flow(peer) {
        Some(end) => fate_at(end, drops, peer, number),
        None => FATE_UNKNOWN,
    }
}

/// What became of the data that were sent to a peer under this number, as `dccp_fate_of` says; FATE_UNKNOWN also if
/// there is no listener, or the peer has no flow.
#[unsafe(no_mangle)]
pub extern "C" fn dccp_listener_fate_of(
    listener: &mut ListenerHandle,
    alloc: Global,
    peer: &PeerAddress,
    number: u64,
) -> u32
    ensures listener { listener.new.kept.value ≡ listener.old.kept.value }
    ensures fate { IsFate (StandSo (flow_end (served_in listener.old.kept.value) (peer_named peer.now)) number) (flow_drop_code (flow_drops_in listener.old.kept.value) (peer_named peer.now) number) result }
{
    let Some(serving) = listener.take(alloc) else {
        return FATE_UNKNOWN;
    };
    let server = serving.server.server();
    let fate = flow_fate(server, &serving.drops, peer_named(peer), number);
    listener.put(serving);
    fate
}

fn flow_longest(server: &Server, peer: Peer, most: usize) -> usize
    ensures { result ≡ longest_in most (end_of_peer server.now.room.served.listening.flows peer) }
{
    match server.flow(peer) {
        Some(end) => longest_in(end, most),
        None => 0,
    }
}

/// The longest data to a peer whose packet certainly has at most `most` bytes now, as `dccp_longest_data` says; 0 also
/// if there is no listener, or the peer has no flow.
#[unsafe(no_mangle)]
pub extern "C" fn dccp_listener_longest_data(
    listener: &mut ListenerHandle,
    alloc: Global,
    peer: &PeerAddress,
    most: usize,
) -> usize
    ensures listener { listener.new.kept.value ≡ listener.old.kept.value }
    ensures data { result ≡ longest_in (left_beside_flow most (inboxes_in listener.old.kept.value) (peer_named peer.now)) (flow_end (served_in listener.old.kept.value) (peer_named peer.now)) }
{
    let Some(serving) = listener.take(alloc) else {
        return 0;
    };
    let peer = peer_named(peer);
    let left = most.saturating_sub(serving.inboxes.most_said(peer));
    let longest = flow_longest(serving.server.server(), peer, left);
    listener.put(serving);
    longest
}

fn upkeep_seen(upkeep: &Upkeep) -> RoundTripView
    ensures { result ≡ upkeep_seen upkeep.now }
{
    trip_seen(upkeep.path.round_trip, upkeep.timeout())
}

fn path_of(server: &Server, peer: Peer) -> Option<RoundTripView>
    ensures { result ≡ option_map (λ e. upkeep_seen (upkeep_at server.now.room.served.pace server.now.room.served.upkeeps peer)) (end_of_peer server.now.room.served.listening.flows peer) }
{
    let _ = server.flow(peer)?;
    Some(upkeep_seen(&server.upkeep(peer)))
}

/// What was measured of the path to a peer. Returns DONE, OTHER_SIZE, NOT_MADE or NO_FLOW.
#[unsafe(no_mangle)]
pub extern "C" fn dccp_listener_look_path(
    listener: &mut ListenerHandle,
    alloc: Global,
    peer: &PeerAddress,
    trip: &mut RoundTripView,
) -> u32
    ensures listener { listener.new.kept.value ≡ listener.old.kept.value }
    ensures trip { trip.new ≡ if_sized (trip.old.size == 24) (unwrap_or (flow_path (served_in listener.old.kept.value) (peer_named peer.now)) trip.old) trip.old }
    ensures code { result ≡ sized_code (trip.old.size == 24) (flow_code (served_in listener.old.kept.value) (flow_path (served_in listener.old.kept.value) (peer_named peer.now))) }
{
    if trip.size != ROUND_TRIP_VIEW_BYTES {
        return OTHER_SIZE;
    }
    let Some(serving) = listener.take(alloc) else {
        return NOT_MADE;
    };
    let found = path_of(serving.server.server(), peer_named(peer));
    listener.put(serving);
    hand_found(found, trip)
}
