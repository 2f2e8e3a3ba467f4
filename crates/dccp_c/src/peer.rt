//! How C names a peer.
ghost use Rattle.std.specs.Prelude.{◌≡◌};
ghost use Rattle.dccp_c.specs.Listening.{address_of, peer_named};

use dccp_listener::Peer;

/// The peer from which a datagram came, or to which a frame goes.
#[repr(C)]
#[derive(Clone, Copy)]
pub struct PeerAddress {
    /// The IPv4 address, in the order of the network.
    pub address: [u8; 4],
    /// The port.
    pub port: u16,
}

pub(crate) fn peer_named(peer: &PeerAddress) -> Peer
    ensures { result ≡ peer_named peer.now }
{
    let address = peer.address;
    Peer {
        address,
        port: peer.port,
    }
}

pub(crate) fn address_of(peer: Peer) -> PeerAddress
    ensures { result ≡ address_of peer }
{
    let address = peer.address;
    PeerAddress {
        address,
        port: peer.port,
    }
}
