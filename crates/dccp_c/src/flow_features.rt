//! The functions of a listener that C calls for the features of a flow.
ghost use Rattle.std.specs.Prelude.{◌≡◌, unwrap_or};
ghost use Rattle.std.specs.Option.{option_map};
ghost use Rattle.dccp_listener.specs.Chain.{Prefers};
ghost use Rattle.dccp_listener.specs.Peers.{end_of_peer};
ghost use Rattle.feature_lists.specs.Features.{feature_numbered};
ghost use Rattle.dccp_c.specs.Codes.{place_by};
ghost use Rattle.dccp_c.specs.FlowFeatures.{flow_feature, flow_feature_code};
ghost use Rattle.dccp_c.specs.Framing.{handed_in};
ghost use Rattle.dccp_c.specs.Listening.{ServesIfKnown, holding_in, peer_named, served_in};
ghost use Rattle.dccp_c.specs.Seeing.{seen_feature};

use crate::codes::{NO_FEATURE, NOT_MADE, feature_of, place_of};
use crate::frame::Frame;
use crate::listener_calls::{call, hand_found};
use crate::peer::peer_named;
use crate::readers::seen_feature;
use crate::{FeatureState, ListenerHandle, PeerAddress};
use dccp_endpoint::{Feature, Place, UserCall};
use dccp_listener::Peer;
use dccp_server::Server;
use std::alloc::Global;

/// `Server::ask` with `UserCall::Prefer`, for the feature with this number at the peer or here. Returns DONE, NOT_MADE,
/// NO_FLOW, NOT_OPEN, BAD_LIST, NOT_OURS, or NO_FEATURE if no feature has this number; then nothing changes.
#[unsafe(no_mangle)]
pub extern "C" fn dccp_listener_prefer(
    listener: &mut ListenerHandle,
    alloc: Global,
    peer: &PeerAddress,
    feature: u32,
    at_peer: bool,
    values: &[u64],
    now: u64,
    frame: &mut Frame,
) -> u32
    ensures { ServesIfKnown now (holding_in listener.old.kept.value) (holding_in listener.new.kept.value) (peer_named peer.now) 11 (option_map (λ it. Prefers it (place_by at_peer) values.now) (feature_numbered feature)) (handed_in frame.new) result }
{
    frame.clear();
    let Some(feature) = feature_of(feature) else {
        return NO_FEATURE;
    };
    let wish = UserCall::Prefer {
        feature,
        place: place_of(at_peer),
        values,
    };
    call(listener, alloc, peer_named(peer), wish, now, frame)
}

fn feature_at(server: &Server, peer: Peer, feature: Feature, place: Place) -> Option<FeatureState>
    ensures { result ≡ option_map (seen_feature feature place) (end_of_peer server.now.room.served.listening.flows peer) }
{
    Some(seen_feature(server.flow(peer)?, feature, place))
}

/// What a peer's end holds for the feature with this number at the peer or here. Returns DONE, NOT_MADE, NO_FLOW, or
/// NO_FEATURE if no feature has this number.
#[unsafe(no_mangle)]
pub extern "C" fn dccp_listener_feature(
    listener: &mut ListenerHandle,
    alloc: Global,
    peer: &PeerAddress,
    feature: u32,
    at_peer: bool,
    state: &mut FeatureState,
) -> u32
    ensures listener { listener.new.kept.value ≡ listener.old.kept.value }
    ensures state { state.new ≡ unwrap_or (flow_feature (feature_numbered feature) (place_by at_peer) (served_in listener.old.kept.value) (peer_named peer.now)) state.old }
    ensures code { result ≡ flow_feature_code (feature_numbered feature) (place_by at_peer) (served_in listener.old.kept.value) (peer_named peer.now) }
{
    let Some(feature) = feature_of(feature) else {
        return NO_FEATURE;
    };
    let Some(serving) = listener.take(alloc) else {
        return NOT_MADE;
    };
    let (server, place) = (serving.server.server(), place_of(at_peer));
    let found = feature_at(server, peer_named(peer), feature, place);
    listener.put(serving);
    hand_found(found, state)
}
