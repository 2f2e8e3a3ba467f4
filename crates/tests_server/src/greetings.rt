//! Calls of a server that keeps nothing of a Request, and of a client that returns its cookie.
ghost use Rattle.std.specs.Prelude.{IfSome};
ghost use Rattle.dccp_listener.specs.Standing.{IsListening};

use arrayvec::ArrayVec;
use ccid_two::Kinds;
use dccp_endpoint::{
    Config, DecodedDatagram, Endpoint, Frame, Lists, NoMemory, Outbox, Phase, Role, Seq48,
};
use dccp_listener::{ListenConfig, Peer};
use dccp_options::options;
use dccp_packets::decode;
use dccp_server::{CookieUse, EventKind, EventServer, Rules, Server, Way};
use dccp_uses::Pace;
use init_cookies::{CookieOption, append_options, one_cookie};
use std::alloc::Global;

fn peer(last: u8) -> Peer {
    Peer {
        address: [10, 0, 0, last],
        port: 40000,
    }
}

// The configuration of a server of one service, with room for two flows.
fn config() -> Option<ListenConfig>
    ensures listens { IfSome result IsListening }
{
    let mut services = ArrayVec::new();
    services.try_push(42).ok()?;
    Some(ListenConfig {
        own_address: [10, 0, 0, 2],
        own_port: 5001,
        services,
        lists: Lists::usual(),
        most: 2,
    })
}

// Puts a value into a box: a proof follows every field of what a function owns through each of its steps.
fn boxed<T: Drop>(alloc: Global, value: T) -> Result<Box<T>, NoMemory> {
    match Box::new(alloc, value) {
        Ok(value) => Ok(value),
        Err(_) => Err(NoMemory),
    }
}

fn server(alloc: Global, cookies: CookieUse) -> Option<Box<Server>> {
    let server = Server::new(alloc, config()?, Pace::usual(), Rules::usual());
    let mut server = boxed(alloc, server).ok()?;
    server.set_cookies(cookies);
    server.rekey([7; 32], 0);
    Some(server)
}

fn frame_in(out: &Outbox) -> Option<Frame> {
    Frame::of(out.frame()?.bytes())
}

// The options that a client returns for a Response.
fn cookie_of(response: &[u8]) -> CookieOption {
    let mut option = CookieOption::new();
    if let Ok(packet) = decode(response) {
        one_cookie(&options(packet.options, false), &mut option);
    }
    option
}

fn is_open(server: &Server, peer: Peer) -> bool {
    match server.flow(peer) {
        Some(end) => end.phase() == Phase::Open,
        None => false,
    }
}

// Whether a server meets a datagram of this peer at this time so.
fn meets(
    server: &mut Server,
    (last, now): (u8, u64),
    bytes: &[u8],
    way: Way,
    out: &mut Outbox,
) -> bool {
    let Some(first) = Seq48::new(7000) else {
        return false;
    };
    if 2044 < bytes.len() {
        return false;
    }
    let datagram = DecodedDatagram::new(bytes);
    server.meet(peer(last), first, &datagram, now, out).way == way
}

fn client(alloc: Global) -> Result<Box<Endpoint<Kinds>>, NoMemory> {
    let congestion = Kinds::new(alloc)?;
    boxed(
        alloc,
        Endpoint::new(alloc, Config::usual(Role::Client), congestion)?,
    )
}

fn request(client: &mut Endpoint<Kinds>, out: &mut Outbox) -> Option<Frame> {
    client.open(out).ok()?;
    frame_in(out)
}

// The Response of a server that makes no flow for this Request.
fn greeting(server: &mut Server, request: &[u8], out: &mut Outbox) -> Option<Frame> {
    if meets(server, (1, 100), request, Way::Greeted, out) && server.flows() == 0 {
        frame_in(out)
    } else {
        None
    }
}

// The client's Ack that returns the cookie of this Response.
fn returned(client: &mut Endpoint<Kinds>, response: &[u8], out: &mut Outbox) -> Option<Frame> {
    if 2044 < response.len() {
        return None;
    }
    let _ = client.receive(response, out);
    let cookie = cookie_of(response);
    if 255 < cookie.len() {
        return None;
    }
    append_options(out, cookie.as_slice(), &client.pseudo_out());
    frame_in(out)
}

fn exchanged(client: &mut Endpoint<Kinds>, server: &mut Server, out: &mut Outbox) -> Option<Frame> {
    let request = request(client, out)?;
    let response = greeting(server, request.bytes(), out)?;
    returned(client, response.bytes(), out)
}

// A client's Ack with the cookie that this server gives.
fn acked(alloc: Global, server: &mut Server, out: &mut Outbox) -> Option<Frame> {
    match client(alloc) {
        Ok(mut client) => exchanged(&mut client, server, out),
        Err(NoMemory) => None,
    }
}

// A cookie is no use to a stranger or after its time, and the Ack opens a flow.
fn opens_by(server: &mut Server, ack: &[u8], out: &mut Outbox) -> bool {
    meets(server, (3, 150), ack, Way::Plain, out)
        && meets(server, (1, 120_101), ack, Way::Plain, out)
        && meets(server, (1, 150), ack, Way::Reopened, out)
        && meets(server, (1, 160), ack, Way::Plain, out)
        && server.flows() == 1
        && is_open(server, peer(1))
}

fn opens_at(alloc: Global, server: &mut Server) -> Option<bool> {
    let mut out = Outbox::new();
    let ack = acked(alloc, server, &mut out)?;
    Some(opens_by(server, ack.bytes(), &mut out))
}

fn opens(alloc: Global) -> Option<bool> {
    let mut server = server(alloc, CookieUse::Always)?;
    opens_at(alloc, &mut server)
}

// A Request from port 40000 to 5001 with number 1000 and service 42, from 10.0.0.1, 10.0.0.3 and 10.0.0.4.
const REQUESTS: [[u8; 20]; 3] = [
    [
        0x9c, 0x40, 0x13, 0x89, 5, 0, 0x31, 0xec, 1, 0, 0, 0, 0, 0, 0x03, 0xe8, 0, 0, 0, 42,
    ],
    [
        0x9c, 0x40, 0x13, 0x89, 5, 0, 0x31, 0xea, 1, 0, 0, 0, 0, 0, 0x03, 0xe8, 0, 0, 0, 42,
    ],
    [
        0x9c, 0x40, 0x13, 0x89, 5, 0, 0x31, 0xe9, 1, 0, 0, 0, 0, 0, 0x03, 0xe8, 0, 0, 0, 42,
    ],
];

// In a table of two flows, one may be half open without a crowd: the third stranger is greeted.
fn greets_third(server: &mut Server) -> bool {
    let mut out = Outbox::new();
    meets(server, (1, 100), &REQUESTS[0], Way::Plain, &mut out)
        && meets(server, (3, 100), &REQUESTS[1], Way::Plain, &mut out)
        && meets(server, (4, 100), &REQUESTS[2], Way::Greeted, &mut out)
        && server.flows() == 2
}

fn greets_in_a_crowd(alloc: Global) -> Option<bool> {
    let mut server = server(alloc, CookieUse::InACrowd)?;
    Some(greets_third(&mut server))
}

// An Ack with a cookie of a server of the same key.
fn foreign_ack(alloc: Global) -> Option<Frame> {
    let mut server = server(alloc, CookieUse::Always)?;
    acked(alloc, &mut server, &mut Outbox::new())
}

// A client that returns a cookie takes the place of the flow that has been half open for longest.
fn makes_way(server: &mut Server, ack: &[u8]) -> bool {
    let mut out = Outbox::new();
    meets(server, (3, 50), &REQUESTS[1], Way::Plain, &mut out)
        && meets(server, (4, 60), &REQUESTS[2], Way::Plain, &mut out)
        && meets(server, (1, 150), ack, Way::Reopened, &mut out)
        && server.flow(peer(3)).is_none()
        && server.flow(peer(4)).is_some()
        && is_open(server, peer(1))
}

fn takes_a_place(alloc: Global) -> Option<bool> {
    let ack = foreign_ack(alloc)?;
    let mut server = server(alloc, CookieUse::InACrowd)?;
    Some(makes_way(&mut server, ack.bytes()))
}

// Whether a datagram of the first peer is met so.
fn arrives(server: &mut EventServer, bytes: &[u8], way: Way, out: &mut Outbox) -> bool {
    let Some(first) = Seq48::new(7000) else {
        return false;
    };
    if 2044 < bytes.len() {
        return false;
    }
    match server.arrive(peer(1), first, &DecodedDatagram::new(bytes), 150, out) {
        Ok(meeting) => meeting.way == way,
        Err(_) => false,
    }
}

fn tells_of_opening(server: &mut EventServer) -> bool {
    match server.next_event() {
        Some(event) => {
            event.peer == peer(1) && event.user == 0 && event.kind == EventKind::Opened
        }
        None => false,
    }
}

// If it takes no new flows, there is no event.
fn is_shut(server: &mut EventServer, ack: &[u8], out: &mut Outbox) -> bool {
    server.set_shut(true);
    arrives(server, ack, Way::Plain, out)
        && server.next_event().is_none()
        && server.server().flows() == 0
}

// A server opens a flow for the Ack, with an event for its owner; but not if it takes no new flows.
fn tells_of(server: &mut EventServer, ack: &[u8]) -> bool {
    let mut out = Outbox::new();
    let shut = is_shut(server, ack, &mut out);
    server.set_shut(false);
    shut && arrives(server, ack, Way::Reopened, &mut out) && tells_of_opening(server)
}

fn event_server(alloc: Global) -> Option<Box<EventServer>> {
    let server = EventServer::new(alloc, config()?, Pace::usual(), Rules::usual());
    let mut server = boxed(alloc, server).ok()?;
    server.rekey([7; 32], 0);
    Some(server)
}

fn tells(alloc: Global) -> Option<bool> {
    let ack = foreign_ack(alloc)?;
    let mut server = event_server(alloc)?;
    Some(tells_of(&mut server, ack.bytes()))
}

#[test]
fn a_cookie_opens_its_flow(rt: HostRuntime) {
    assert!(rt; opens(rt.alloc()) == Some(true));
}

#[test]
fn a_returned_cookie_takes_a_place(rt: HostRuntime) {
    assert!(rt; takes_a_place(rt.alloc()) == Some(true));
}

#[test]
fn what_a_cookie_opens_is_told(rt: HostRuntime) {
    assert!(rt; tells(rt.alloc()) == Some(true));
}

#[test]
fn a_crowd_is_greeted(rt: HostRuntime) {
    assert!(rt; greets_in_a_crowd(rt.alloc()) == Some(true));
}
