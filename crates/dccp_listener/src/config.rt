//! The configuration of a listener, and that of a peer's end.
ghost use Rattle.std.specs.Prelude.{◌≡◌, Ok};
ghost use Rattle.dccp_endpoint.specs.Incoming.{parts_of_packet};
ghost use Rattle.dccp_packets.specs.Grammar.{decoded};
ghost use Rattle.dccp_listener.specs.Chain.{config_asked, config_for, requested, service_for};

use crate::Peer;
use arrayvec::ArrayVec;
use dccp_endpoint::{Config, Lists, Pseudo, Role, Seq48, Vectors};
use dccp_packets::{Kind, Packet};

/// The configuration of a listener (own).
#[derive(Debug, Drop)]
pub struct ListenConfig {
    /// The IPv4 address that datagrams are sent to.
    pub own_address: [u8; 4],
    /// The port that they are sent to.
    pub own_port: u16,
    /// The Service Codes that it serves (RFC 4340, section 8.1.2): 1 to 16, each once.
    pub services: ArrayVec<u32, 16>,
    /// The wishes of each peer's end for its features, and its offers, if the listener makes offers (RFC 4340, section
    /// 6).
    pub lists: Lists,
    /// The most flows at one time: 1 to 1,024.
    pub most: u16,
}

/// The Service Code that a packet of this type asks for (RFC 4340, section 5.1).
pub fn requested(kind: &Kind) -> Option<u32>
    ensures { result ≡ requested kind.now }
{
    match *kind {
        Kind::Request { service } => Some(service),
        Kind::Response { .. }
        | Kind::Data
        | Kind::Ack { .. }
        | Kind::DataAck { .. }
        | Kind::CloseReq { .. }
        | Kind::Close { .. }
        | Kind::Reset { .. }
        | Kind::Sync { .. }
        | Kind::SyncAck { .. } => None,
    }
}

// The service that a fresh end offers.
fn service_for(services: &[u32], asked: Option<u32>) -> u32
    ensures { result ≡ service_for services.now asked }
{
    let first = match services.first() {
        Some(first) => *first,
        None => 0,
    };
    match asked {
        Some(asked) => {
            if services.contains(&asked) {
                asked
            } else {
                first
            }
        }
        None => first,
    }
}

/// The configuration of a fresh end for the peer whose first packet this is (own). `packet` is what `decode` makes of
/// `bytes`; only the clauses look at the bytes.
pub fn config_for(
    config: &ListenConfig,
    peer: Peer,
    iss: Seq48,
    packet: &Packet<'_>,
    bytes: &[u8],
) -> Config
    requires { decoded bytes.now ≡ Ok (parts_of_packet packet.now) }
    ensures { result ≡ config_for config.now peer iss bytes.now }
{
    let _ = bytes;
    config_asked(config, peer, iss, requested(&packet.header.kind))
}

// The same, if the packet asks for this service, or for none.
fn config_asked(config: &ListenConfig, peer: Peer, iss: Seq48, asked: Option<u32>) -> Config
    ensures { result ≡ config_asked config.now peer iss asked }
{
    let own_address = config.own_address;
    let address = peer.address;
    Config {
        role: Role::Server,
        pseudo_out: Pseudo::V4 {
            from: own_address,
            to: address,
        },
        pseudo_in: Pseudo::V4 {
            from: address,
            to: own_address,
        },
        own_port: config.own_port,
        peer_port: peer.port,
        service: service_for(config.services.as_slice(), asked),
        iss,
        lists: config.lists,
        vectors: Vectors::One,
    }
}
