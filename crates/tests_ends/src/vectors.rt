//! Ack Vectors in one option and in two, of an end that has received every second number from 0 to 504: each is
//! reported by a separate byte, and so is each number between two.
use crate::fresh::{end, plain};
use ccid_two::Kinds;
use dccp_endpoint::{Config, Endpoint, Frame, NoMemory, Outbox, Role, Timer, Vectors, seal_frame};
use dccp_options::kinds::ACK_VECTOR_0;
use dccp_options::{Opt, options};
use dccp_packets::decode;
use std::alloc::Global;

// A Request with number 0, which asks for Send Ack Vector, the Ack 2, which opens the connection, and one byte of data.
const REQUEST: [u8; 24] = [
    0x9c, 0x40, 0x13, 0x89, 6, 0, 0, 0, 1, 0, 0, 0, 0, 0, 0, 0, 0, 0, 0, 42, 34, 4, 6, 1,
];

const ACK: [u8; 24] = [
    0x9c, 0x40, 0x13, 0x89, 6, 0, 0, 0, 7, 0, 0, 0, 0, 0, 0, 2, 0, 0, 0, 0, 0, 0, 0x07, 0xd0,
];

const DATA: [u8; 17] = [
    0x9c, 0x40, 0x13, 0x89, 4, 0, 0, 0, 5, 0, 0, 0, 0, 0, 0, 0, 0xaa,
];

fn receive(server: &mut Endpoint<Kinds>, bytes: &[u8], out: &mut Outbox) -> Option<()> {
    let mut frame = Frame::of(bytes)?;
    if bytes.len() < 8 {
        return None;
    }
    seal_frame(&Config::usual(Role::Server).pseudo_in, &mut frame);
    let _ = server.receive(frame.bytes(), out);
    Some(())
}

// The numbers 0 and 2, and then data of each second number from 4 to 504.
fn receive_each(server: &mut Endpoint<Kinds>, out: &mut Outbox) -> Option<()> {
    receive(server, &REQUEST, out)?;
    receive(server, &ACK, out)?;
    for number in (4_u64..505).step_by(2) {
        let mut data = DATA;
        let [.., high, low] = number.to_be_bytes();
        data[14] = high;
        data[15] = low;
        receive(server, &data, out)?;
    }
    Some(())
}

// How many bytes of an Ack Vector an option has, and the first of them.
type Vector = (usize, u8);

fn vector_of(option: &Opt<'_>) -> Option<Vector> {
    let first = *option.body.first()?;
    (option.kind == ACK_VECTOR_0).then_some((option.body.len(), first))
}

// The first Ack Vector of a frame, and the last one if there are more.
fn vectors_of(frame: &[u8]) -> Option<(Option<Vector>, Option<Vector>)> {
    let Ok(packet) = decode(frame) else {
        return None;
    };
    if packet.options.len() > 1008 {
        return None;
    }
    let (mut first, mut last) = (None, None);
    for option in options(packet.options, false) {
        let vector = match option {
            Ok(option) => vector_of(&option),
            Err(_) => None,
        };
        if first.is_none() {
            first = vector;
        } else if vector.is_some() {
            last = vector;
        }
    }
    Some((first, last))
}

// The vectors of the Ack that its timer then sends.
fn acknowledges(server: &mut Endpoint<Kinds>) -> Option<(Option<Vector>, Option<Vector>)> {
    let mut out = Outbox::new();
    receive_each(server, &mut out)?;
    if !server.timer(Timer::Ack, &mut out) {
        return None;
    }
    vectors_of(out.frame()?.bytes())
}

fn acknowledged(alloc: Global, vectors: Vectors) -> Option<(Option<Vector>, Option<Vector>)> {
    let mut config = plain(Role::Server);
    config.vectors = vectors;
    match end(alloc, config) {
        Ok(mut server) => acknowledges(&mut server),
        Err(NoMemory) => None,
    }
}

// Of the 505 bytes one option has 253, and two have 253 and 252: their lengths are 255 and 254.
#[test]
fn an_ack_with_two_vectors(rt: HostRuntime) {
    let one = acknowledged(rt.alloc(), Vectors::One);
    assert!(rt;
        matches!(one, Some((Some((253, 0x00)), None))),
        "one option"
    );
    let two = acknowledged(rt.alloc(), Vectors::Two);
    assert!(rt;
        matches!(two, Some((Some((253, 0x00)), Some((252, 0xc0))))),
        "two options"
    );
}
