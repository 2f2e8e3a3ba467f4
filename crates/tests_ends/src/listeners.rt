//! Calls of a listener with room for one flow: datagrams of two peers. The frames are those of `full_listener` of
//! examples/.
use arrayvec::ArrayVec;
use dccp_endpoint::{Lists, Outbox, Outcome, Phase, Seq48};
use dccp_listener::{Heard, ListenConfig, Listener, Peer};
use std::alloc::Global;

// A Request from port 40000 to 5001 with number 1000 and service 42, sealed from 10.0.0.1 and from 10.0.0.3.
const REQUEST: [u8; 20] = [
    0x9c, 0x40, 0x13, 0x89, 5, 0, 0x31, 0xec, 1, 0, 0, 0, 0, 0, 0x03, 0xe8, 0, 0, 0, 42,
];

const OTHER_REQUEST: [u8; 20] = [
    0x9c, 0x40, 0x13, 0x89, 5, 0, 0x31, 0xea, 1, 0, 0, 0, 0, 0, 0x03, 0xe8, 0, 0, 0, 42,
];

fn peer(last: u8) -> Peer {
    Peer {
        address: [10, 0, 0, last],
        port: 40000,
    }
}

// A listener of one service, with room for one flow.
fn listener(alloc: Global) -> Option<Listener> {
    let mut services = ArrayVec::new();
    services.try_push(42).ok()?;
    Some(Listener::new(
        alloc,
        ListenConfig {
            own_address: [10, 0, 0, 2],
            own_port: 5001,
            services,
            lists: Lists::usual(),
            most: 1,
        },
    ))
}

// Whether the Request is taken and answered by a Response, and there is a flow.
fn takes(listener: &mut Listener, first: Seq48, out: &mut Outbox) -> bool {
    let heard = listener.arrive(peer(1), first, &REQUEST, out);
    let stands = match listener.flow(peer(1)) {
        Some(end) => end.phase() == Phase::Respond,
        None => false,
    };
    matches!(heard, Ok(Heard::Flow(Outcome::Took { delivered: None })))
        && has_type(out, 3)
        && stands
        && listener.flows() == 1
}

// Whether the other peer's Request is answered by a Reset, and nothing changes.
fn is_busy(listener: &mut Listener, first: Seq48, out: &mut Outbox) -> bool {
    let heard = listener.arrive(peer(3), first, &OTHER_REQUEST, out);
    matches!(heard, Ok(Heard::Busy))
        && has_type(out, 0x0f)
        && listener.flows() == 1
        && listener.peer(0) == Some(peer(1))
}

// Whether the frame that goes out has this byte, its type and X.
fn has_type(out: &Outbox, byte: u8) -> bool {
    match out.frame() {
        Some(frame) => frame.bytes().get(8) == Some(&byte),
        None => false,
    }
}

fn answers(listener: &mut Listener) -> Option<bool> {
    let first = Seq48::new(2000)?;
    let mut out = Outbox::new();
    Some(takes(listener, first, &mut out) && is_busy(listener, first, &mut out))
}

fn answers_anew(alloc: Global) -> Option<bool> {
    answers(&mut listener(alloc)?)
}

#[test]
fn two_peers_at_a_listener(rt: HostRuntime) {
    assert!(rt; answers_anew(rt.alloc()) == Some(true));
}
