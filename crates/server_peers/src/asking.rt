//! What a datagram asks for, and which opening it brings back.
ghost use Rattle.std.specs.Prelude.{◌≡◌, ◌≤◌, Ok, length};
ghost use Rattle.dccp_packets.specs.Grammar.{decoded};
ghost use Rattle.dccp_endpoint.specs.Incoming.{parts_of_packet};
ghost use Rattle.server_peers.specs.Requests.{asking_by, asking_of, asking_this, cookie_read, entry_by, opening_in, route_of, travels_by};

use dccp_endpoint::{DecodedDatagram, Pseudo, Seq48};
use dccp_listener::{ListenConfig, Peer, requested};
use dccp_options::options;
use dccp_packets::{Header, Number, Packet};
use dccp_sum::check;
use init_cookies::{CookieKeys, FirstRequest, Route, first_cookie};

/// What a datagram asks for.
#[derive(Drop)]
pub enum DatagramRequest {
    /// No connection.
    Nothing,
    /// A connection, with options that are too long for a cookie.
    TooLong,
    /// This connection.
    This(FirstRequest),
}

/// The kinds of datagrams, as a server meets them.
#[derive(Drop)]
pub enum DatagramKind {
    /// One that is served.
    Plain,
    /// A Request that needs no flow.
    Asks(FirstRequest),
    /// One whose options are too long for a cookie.
    TooLong,
    /// A packet that brings an opening back.
    Returns(FirstRequest),
}

/// The route between a peer and the listener.
pub fn route_of(config: &ListenConfig, peer: Peer) -> Route
    ensures { result ≡ route_of config.now peer }
{
    let address = peer.address;
    let own_address = config.own_address;
    Route {
        pseudo: Pseudo::V4 {
            from: address,
            to: own_address,
        },
        from: peer.port,
        to: config.own_port,
    }
}

fn asking_this(now: u64, iss: Seq48, area: &[u8], number: Seq48, service: u32) -> DatagramRequest
    ensures { result ≡ asking_this now iss area.now number service }
{
    match FirstRequest::new(now, iss, number, service, area) {
        Some(opening) => DatagramRequest::This(opening),
        None => DatagramRequest::TooLong,
    }
}

fn asking_in(now: u64, iss: Seq48, packet: &Packet<'_>) -> DatagramRequest
    ensures { result ≡ asking_by now iss packet.now.options.now packet.now.header.kind packet.now.header.number }
{
    match (requested(&packet.header.kind), packet.header.number) {
        (Some(service), Number::Long(number)) => {
            asking_this(now, iss, packet.options, number, service)
        }
        (Some(_), Number::Short(_)) | (None, _) => DatagramRequest::Nothing,
    }
}

fn travels_by(route: &Route, bytes: &[u8], header: &Header) -> bool
    requires low { 8 ≤ length bytes.now }
    requires high { length bytes.now ≤ 65535 }
    ensures { result ≡ travels_by route.now bytes.now header.now }
{
    check(&route.pseudo, bytes).is_ok() && (header.from == route.from && header.to == route.to)
}

/// What a datagram of at most 2,044 bytes asks for, if it came by this route and would be answered now under this
/// number.
pub fn asking_of(
    now: u64,
    iss: Seq48,
    route: &Route,
    datagram: &DecodedDatagram<'_>,
) -> DatagramRequest
    requires { length datagram.now ≤ 2044 }
    ensures { result ≡ asking_of now iss route.now datagram.now }
{
    match datagram.packet() {
        Ok(packet) => {
            if travels_by(route, datagram.bytes(), &packet.header) {
                asking_in(now, iss, packet)
            } else {
                DatagramRequest::Nothing
            }
        }
        Err(_) => DatagramRequest::Nothing,
    }
}

// What the Init Cookie of a packet opens, if it has one.
fn opening_in(
    packet: &Packet<'_>,
    keys: &CookieKeys,
    route: &Route,
    now: u64,
) -> Option<FirstRequest>
    requires { length packet.now.options.now ≤ 1008 }
    ensures { result ≡ opening_in now keys.now route.now (cookie_read (Ok (parts_of_packet packet.now))) }
{
    let list = options(packet.options, packet.header.kind.packet_type().is_data());
    let body = first_cookie(&list)?;
    keys.read(route, body, now)
}

/// What the Init Cookie of a datagram of at most 2,044 bytes opens, if it has one and came by this route.
pub fn opening_of(
    now: u64,
    keys: &CookieKeys,
    route: &Route,
    datagram: &DecodedDatagram<'_>,
) -> Option<FirstRequest>
    requires { length datagram.now ≤ 2044 }
    ensures { result ≡ opening_in now keys.now route.now (cookie_read (decoded datagram.now)) }
{
    match datagram.packet() {
        Ok(packet) => opening_in(packet, keys, route, now),
        Err(_) => None,
    }
}

/// The kind of a Request, by what it asks for.
pub fn entry_by(asking: DatagramRequest) -> DatagramKind
    ensures { result ≡ entry_by asking }
{
    match asking {
        DatagramRequest::Nothing => DatagramKind::Plain,
        DatagramRequest::TooLong => DatagramKind::TooLong,
        DatagramRequest::This(opening) => DatagramKind::Asks(opening),
    }
}
