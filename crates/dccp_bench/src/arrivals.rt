//! A listener with as many flows as its limit allows, to which datagrams of 100,000 peers come:
//! `bench/listener` measures the time and the memory of it.

use crate::ratios::zero;
use arrayvec::ArrayVec;
use byteorder::{BigEndian, ByteOrder};
use ccid_two::Kinds;
use dccp_endpoint::{Config, Endpoint, Frame, Lists, Outbox, Ports, Pseudo, Seq48};
use dccp_listener::{Heard, ListenConfig, Listener, Peer};
use dccp_sum::seal;
use std::alloc::Global;
use std::io;
use std::ops::Range;

/// What comes, and where.
#[derive(Clone, Copy)]
pub(crate) enum Load {
    /// Requests at the listener.
    Requests,
    /// Requests with options.
    Options,
    /// Requests of whose options one has a fault.
    Faults,
    /// Acks.
    Acks,
    /// As many Requests at one end.
    End,
    /// Requests with options at one end.
    EndOptions,
    /// As many Acks at one end, which has answered a Request.
    EndAcks,
    /// As many Acks at one end in LISTEN, which refuses them.
    EndRefusals,
    /// Datagrams that nobody hears: what making them takes alone.
    Frames,
}

const FLOWS: u32 = 1_024;

const PEERS: u32 = 100_000;

// Each peer comes once before any comes again.
const STEP: u32 = 7_919;

const OWN_ADDRESS: [u8; 4] = [10, 0, 0, 2];

const OWN_PORT: u16 = 5_001;

const PEER_PORT: u16 = 40_000;

const SERVICE: u32 = 42;

// A Request for the service.
const REQUEST: [u8; 20] = [
    0x9c, 0x40, 0x13, 0x89, 5, 0, 0, 0, 1, 0, 0, 0, 0, 0, 3, 0xe8, 0, 0, 0, 42,
];

// The same with a Change L of the CCID: 2, or else 248.
const REQUEST_WITH_OPTIONS: [u8; 28] = [
    0x9c, 0x40, 0x13, 0x89, 7, 0, 0, 0, 1, 0, 0, 0, 0, 0, 3, 0xe8, 0, 0, 0, 42, 32, 5, 1, 2, 248,
    0, 0, 0,
];

// The same with an option after Mandatory that nobody knows.
const REQUEST_WITH_FAULT: [u8; 24] = [
    0x9c, 0x40, 0x13, 0x89, 6, 0, 0, 0, 1, 0, 0, 0, 0, 0, 3, 0xe8, 0, 0, 0, 42, 1, 123, 2, 0,
];

// An Ack, which belongs to no connection.
const ACK: [u8; 24] = [
    0x9c, 0x40, 0x13, 0x89, 6, 0, 0, 0, 7, 0, 0, 0, 0, 0, 3, 0xe9, 0, 0, 0, 0, 0, 0, 7, 0xd0,
];

// The peer at this place.
fn peer(place: u32) -> Peer {
    let [_, high, middle, low] = place.to_be_bytes();
    Peer {
        address: [10, high, middle, low],
        port: PEER_PORT,
    }
}

// What comes: a packet of the peer at this place, under this number.
#[derive(Clone, Copy)]
struct Arrival {
    place: u32,
    number: u32,
}

// A packet, where it stays: numbers and checksums are written into it.
fn frame_of(packet: &[u8]) -> Frame {
    match Frame::of(packet) {
        Some(frame) => frame,
        None => Frame::new(),
    }
}

// Writes the number and the checksum of what comes.
fn write(frame: &mut Frame, arrival: Arrival) {
    let bytes = frame.bytes_mut();
    if bytes.len() >= 16 {
        BigEndian::write_u32(&mut bytes[12..16], arrival.number);
        let from = peer(arrival.place).address;
        let to = OWN_ADDRESS;
        let _ = seal(&Pseudo::V4 { from, to }, bytes);
    }
}

fn listening(alloc: Global) -> Listener {
    let mut services = ArrayVec::new();
    let _ = services.try_push(SERVICE);
    Listener::new(
        alloc,
        ListenConfig {
            own_address: OWN_ADDRESS,
            own_port: OWN_PORT,
            services,
            lists: Lists::usual(),
            most: 1_024,
        },
    )
}

// Hands over this many packets, each of the peer that is a step after the one before. Returns how many were answered.
fn hear_all(
    listener: &mut Listener,
    packet: &[u8],
    count: u32,
    step: u32,
    first: Seq48,
    out: &mut Outbox,
) -> u32 {
    let mut frame = frame_of(packet);
    let mut answered = 0u32;
    let mut place = 0u32;
    for number in 0..count {
        place = place.wrapping_add(step) % PEERS;
        write(&mut frame, Arrival { place, number });
        let heard = listener.arrive(peer(place), first, frame.bytes(), out);
        if matches!(heard, Ok(Heard::Busy)) || out.frame().is_some() {
            answered = answered.wrapping_add(1);
        }
    }
    answered
}

// The same with this many packets, at a listener at which the first peers have all its flows.
fn at_listener(alloc: Global, packet: &[u8], count: u32, first: Seq48) -> u32 {
    let mut listener = listening(alloc);
    let mut out = Outbox::new();
    let _ = hear_all(&mut listener, &REQUEST, FLOWS, 1, first, &mut out);
    hear_all(&mut listener, packet, count, STEP, first, &mut out)
}

// The end that serves the first peer.
fn end(alloc: Global, first: Seq48) -> Option<Endpoint<Kinds>> {
    let addresses = Pseudo::V4 {
        from: OWN_ADDRESS,
        to: [10, 0, 0, 0],
    };
    let ports = Ports {
        own: OWN_PORT,
        peer: PEER_PORT,
    };
    let config = Config::server(addresses, ports, SERVICE, first);
    let congestion = Kinds::new(alloc).ok()?;
    Endpoint::new(alloc, config, congestion).ok()
}

// Hands packets of the first peer with these numbers to its end. Returns how many were answered.
fn hear_all_alone(
    end: &mut Endpoint<Kinds>,
    packet: &[u8],
    numbers: Range<u32>,
    out: &mut Outbox,
) -> u32 {
    let mut frame = frame_of(packet);
    let mut answered = 0u32;
    for number in numbers {
        write(&mut frame, Arrival { place: 0, number });
        let _ = end.receive(frame.bytes(), out);
        if out.frame().is_some() {
            answered = answered.wrapping_add(1);
        }
    }
    answered
}

// The same with this many packets, at an end that has taken another packet before.
fn at_end(alloc: Global, before: &[u8], packet: &[u8], count: u32, first: Seq48) -> u32 {
    let Some(mut end) = end(alloc, first) else {
        return 0;
    };
    let mut out = Outbox::new();
    let _ = hear_all_alone(&mut end, before, 0..1, &mut out);
    hear_all_alone(&mut end, packet, 1..count.saturating_add(1), &mut out)
}

// This many datagrams that no end takes. Returns how many have separate numbers.
fn nowhere(count: u32) -> u32 {
    let mut frame = frame_of(&REQUEST);
    let mut made = 0u32;
    let mut place = 0u32;
    for number in 0..count {
        place = place.wrapping_add(STEP) % PEERS;
        write(&mut frame, Arrival { place, number });
        if frame.bytes() != REQUEST.as_slice() {
            made = made.wrapping_add(1);
        }
    }
    made
}

/// This many datagrams come. Prints how many were answered, so that none is left out.
pub(crate) fn all(rt: &HostRuntime, load: Load, count: u32) -> io::Result<()> {
    let alloc = rt.alloc();
    let first = zero().add(2_000);
    let answered = match load {
        Load::Requests => at_listener(alloc, &REQUEST, count, first),
        Load::Options => at_listener(alloc, &REQUEST_WITH_OPTIONS, count, first),
        Load::Faults => at_listener(alloc, &REQUEST_WITH_FAULT, count, first),
        Load::Acks => at_listener(alloc, &ACK, count, first),
        Load::End => at_end(alloc, &REQUEST, &REQUEST, count, first),
        Load::EndOptions => at_end(alloc, &REQUEST, &REQUEST_WITH_OPTIONS, count, first),
        Load::EndAcks => at_end(alloc, &REQUEST, &ACK, count, first),
        Load::EndRefusals => at_end(alloc, &ACK, &ACK, count, first),
        Load::Frames => nowhere(count),
    };
    eprintln!(rt; "{answered}")
}
