//! The session of a client returns the Init Cookie of its server's Response (RFC 4340, section 8.1.4). The frames were
//! worked out by hand, and their checksums by another program.
use crate::fresh::{plain, session};
use crate::uses::wire::Wire;
use ccid_two::Kinds;
use dccp_endpoint::{NoMemory, Phase, Role};
use dccp_uses::{Pace, Session};
use std::alloc::Global;

// Number 1000, for the service 42.
const REQUEST: [u8; 20] = [
    0x9c, 0x40, 0x13, 0x89, 5, 0, 0x31, 0xec, 1, 0, 0, 0, 0, 0, 0x03, 0xe8, 0, 0, 0, 42,
];

// Number 2000, with an Init Cookie of two bytes, and with two of them.
const RESPONSE: [u8; 32] = [
    0x13, 0x89, 0x9c, 0x40, 8, 0, 0xfa, 0x02, 3, 0, 0, 0, 0, 0, 0x07, 0xd0, 0, 0, 0, 0, 0, 0, 0x03,
    0xe8, 0, 0, 0, 42, 36, 4, 7, 9,
];

const TWO_COOKIES: [u8; 36] = [
    0x13, 0x89, 0x9c, 0x40, 9, 0, 0xcc, 0xf9, 3, 0, 0, 0, 0, 0, 0x07, 0xd0, 0, 0, 0, 0, 0, 0, 0x03,
    0xe8, 0, 0, 0, 42, 36, 4, 7, 9, 36, 4, 8, 1,
];

// The Ack that answers it, and the one that the timer sends, both with the cookie; and that Ack without one.
const ACK: [u8; 28] = [
    0x9c, 0x40, 0x13, 0x89, 7, 0, 0xf7, 0x2f, 7, 0, 0, 0, 0, 0, 0x03, 0xe9, 0, 0, 0, 0, 0, 0, 0x07,
    0xd0, 36, 4, 7, 9,
];

const ACK_AGAIN: [u8; 28] = [
    0x9c, 0x40, 0x13, 0x89, 7, 0, 0xf7, 0x2e, 7, 0, 0, 0, 0, 0, 0x03, 0xea, 0, 0, 0, 0, 0, 0, 0x07,
    0xd0, 36, 4, 7, 9,
];

const PLAIN_ACK: [u8; 24] = [
    0x9c, 0x40, 0x13, 0x89, 6, 0, 0x23, 0x41, 7, 0, 0, 0, 0, 0, 0x03, 0xe9, 0, 0, 0, 0, 0, 0, 0x07,
    0xd0,
];

// The server's Ack, which opens the client, and the client's Close, without a cookie.
const OPENING_ACK: [u8; 24] = [
    0x13, 0x89, 0x9c, 0x40, 6, 0, 0x23, 0x3f, 7, 0, 0, 0, 0, 0, 0x07, 0xd1, 0, 0, 0, 0, 0, 0, 0x03,
    0xea,
];

const CLOSE: [u8; 24] = [
    0x9c, 0x40, 0x13, 0x89, 6, 0, 0x1d, 0x3e, 0x0d, 0, 0, 0, 0, 0, 0x03, 0xeb, 0, 0, 0, 0, 0, 0,
    0x07, 0xd1,
];

// A client that offers nothing.
fn client(alloc: Global) -> Result<Box<Session<Kinds>>, NoMemory> {
    session(alloc, plain(Role::Client), Pace::classic())
}

// Whether the next frame that goes out has these bytes.
fn goes_out(wire: &mut Wire, bytes: &[u8]) -> bool {
    match wire.take() {
        Some(frame) => frame.as_slice() == bytes,
        None => false,
    }
}

// Whether a Request goes out, and its Response leads to this Ack.
fn connects(client: &mut Session<Kinds>, wire: &mut Wire, response: &[u8], ack: &[u8]) -> bool {
    let opens = client.open(0, wire).is_ok() && goes_out(wire, &REQUEST);
    let _ = client.arrived(response, 20, wire);
    opens && client.end().phase() == Phase::PartOpen && goes_out(wire, ack)
}

// Whether the Ack that the timer sends has the cookie too.
fn repeats(client: &mut Session<Kinds>, wire: &mut Wire) -> bool {
    client.tick(220, wire);
    goes_out(wire, &ACK_AGAIN)
}

// Whether a packet in OPEN has none.
fn closes(client: &mut Session<Kinds>, wire: &mut Wire) -> bool {
    let _ = client.arrived(&OPENING_ACK, 300, wire);
    client.end().phase() == Phase::Open && client.close(310, wire).is_ok() && goes_out(wire, &CLOSE)
}

fn returns(client: &mut Session<Kinds>, wire: &mut Wire) -> bool {
    connects(client, wire, &RESPONSE, &ACK) && repeats(client, wire) && closes(client, wire)
}

fn returns_until_open(alloc: Global) -> Result<bool, NoMemory> {
    let mut client = client(alloc)?;
    Ok(returns(&mut client, &mut Wire::whole(alloc)))
}

#[test]
fn a_session_returns_its_cookie(rt: HostRuntime) {
    assert!(rt; matches!(returns_until_open(rt.alloc()), Ok(true)));
}

fn returns_neither(alloc: Global) -> Result<bool, NoMemory> {
    let mut client = client(alloc)?;
    Ok(connects(
        &mut client,
        &mut Wire::whole(alloc),
        &TWO_COOKIES,
        &PLAIN_ACK,
    ))
}

// If a Response has two, none is returned (own).
#[test]
fn a_session_returns_no_two_cookies(rt: HostRuntime) {
    assert!(rt; matches!(returns_neither(rt.alloc()), Ok(true)));
}
