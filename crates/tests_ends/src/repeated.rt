//! A step that gets no memory changes nothing. When it is made again, it gives what it would have given at first.
//!
//! Each event of the plain handshake is tried again after NoMemory. Its frames and both ends are then those of the
//! handshake, as `handshake` of examples/ has them. Then so many Acks go out and arrive that the lists of a world need
//! more room. With ample memory no step is refused; `tools/refusals` refuses each allocation in turn.
use crate::fresh::plain;
use ccid_two::Kinds;
use dccp_endpoint::{Endpoint, Feature, Held, NoMemory, Outcome, Phase, Place, Role, Stand, Timer};
use std::alloc::Global;
use two_ends::{Event, Seen, SentFrame, Side, World, WorldFault};

// How often something is tried that may get no memory. One allocation is refused in a run.
const TRIES: usize = 3;

fn new_world(alloc: Global) -> Result<World<Kinds>, NoMemory> {
    let client = plain(Role::Client);
    let server = plain(Role::Server);
    let for_client = Kinds::new(alloc)?;
    let for_server = Kinds::new(alloc)?;
    World::new(alloc, client, server, for_client, for_server)
}

// What is seen of an event, which is tried again if memory is refused.
fn repeat(world: &mut World<Kinds>, event: &Event) -> Option<Seen> {
    for _ in 0..TRIES {
        match world.step(event) {
            Ok(seen) => return Some(seen),
            Err(WorldFault::NoMemory) => {}
            Err(_) => return None,
        }
    }
    None
}

fn opens(world: &mut World<Kinds>) -> bool {
    matches!(repeat(world, &Event::Open), Some(Seen::Called(Ok(()))))
}

// Whether a frame is taken, and no data are delivered.
fn arrives(world: &mut World<Kinds>, from: Side, index: u64) -> bool {
    let seen = repeat(world, &Event::Deliver { from, index });
    matches!(
        seen,
        Some(Seen::Received(Outcome::Took { delivered: None }))
    )
}

// The plain handshake, and the frame that opens the client.
fn connects(world: &mut World<Kinds>) -> bool {
    opens(world)
        && arrives(world, Side::Client, 0)
        && arrives(world, Side::Server, 0)
        && arrives(world, Side::Client, 1)
        && arrives(world, Side::Server, 1)
}

// The frames of the client and of the server.
const OF_THE_CLIENT: [&[u8]; 2] = [
    &[
        0x9c, 0x40, 0x13, 0x89, 5, 0, 0x31, 0xec, 1, 0, 0, 0, 0, 0, 0x03, 0xe8, 0, 0, 0, 42,
    ],
    &[
        0x9c, 0x40, 0x13, 0x89, 6, 0, 0x23, 0x41, 7, 0, 0, 0, 0, 0, 0x03, 0xe9, 0, 0, 0, 0, 0, 0,
        0x07, 0xd0,
    ],
];

const OF_THE_SERVER: [&[u8]; 2] = [
    &[
        0x13, 0x89, 0x9c, 0x40, 7, 0, 0x26, 0x14, 3, 0, 0, 0, 0, 0, 0x07, 0xd0, 0, 0, 0, 0, 0, 0,
        0x03, 0xe8, 0, 0, 0, 42,
    ],
    &[
        0x13, 0x89, 0x9c, 0x40, 6, 0, 0x23, 0x40, 7, 0, 0, 0, 0, 0, 0x07, 0xd1, 0, 0, 0, 0, 0, 0,
        0x03, 0xe9,
    ],
];

fn are_frames(sent: &[SentFrame], frames: &[&[u8]; 2]) -> bool {
    match sent {
        [first, second] => {
            first.bytes.as_slice() == frames[0] && second.bytes.as_slice() == frames[1]
        }
        _ => false,
    }
}

// The value of each feature from 1 on, the same at both ends.
const VALUES: [(Feature, u64); 9] = [
    (Feature::Ccid, 2),
    (Feature::ShortSeqnos, 0),
    (Feature::SequenceWindow, 100),
    (Feature::EcnIncapable, 0),
    (Feature::AckRatio, 2),
    (Feature::SendAckVector, 0),
    (Feature::SendNdpCount, 0),
    (Feature::MinCsCov, 0),
    (Feature::CheckDataChecksum, 0),
];

// Whether an end holds each value, settled.
fn holds_values(end: &Endpoint<Kinds>) -> bool {
    for (feature, value) in &VALUES {
        let held = Held {
            value: *value,
            stand: Stand::Stable,
        };
        if end.held(*feature, Place::Here) != held || end.held(*feature, Place::There) != held {
            return false;
        }
    }
    true
}

fn is_open(end: &Endpoint<Kinds>) -> bool {
    end.phase() == Phase::Open && end.window() == 4 && end.in_flight() == 0 && holds_values(end)
}

// Both ends are OPEN, and sent these frames.
fn is_connected(world: &World<Kinds>) -> bool {
    is_open(world.end(Side::Client))
        && is_open(world.end(Side::Server))
        && are_frames(world.frames(Side::Client), &OF_THE_CLIENT)
        && are_frames(world.frames(Side::Server), &OF_THE_SERVER)
}

// How many Acks the client sends once it is OPEN: with its two frames of the handshake, more than a side has room for
// at the beginning.
const ACKS: u64 = 300;

// Their last number. The client's Request has 1,000, and each later frame the next number.
const LAST_NUMBER: u64 = 1_301;

// The client's timer for an Ack has run out, and the frame with this index, which it sends then, is taken.
fn acknowledges(world: &mut World<Kinds>, index: u64) -> bool {
    let timer = Event::Timer {
        side: Side::Client,
        timer: Timer::Ack,
    };
    matches!(repeat(world, &timer), Some(Seen::Fired(true))) && arrives(world, Side::Client, index)
}

// So many Acks after the two frames of the handshake.
fn acknowledges_often(world: &mut World<Kinds>) -> bool {
    for index in 2..2 + ACKS {
        if !acknowledges(world, index) {
            return false;
        }
    }
    true
}

fn has_sent_all(world: &World<Kinds>) -> bool {
    match world.frames(Side::Client).last() {
        Some(last) => last.number.get() == LAST_NUMBER,
        None => false,
    }
}

fn plays(world: &mut World<Kinds>) -> bool {
    connects(world) && is_connected(world) && acknowledges_often(world) && has_sent_all(world)
}

fn plays_from_the_start(alloc: Global) -> bool {
    for _ in 0..TRIES {
        if let Ok(mut world) = new_world(alloc) {
            return plays(&mut world);
        }
    }
    false
}

#[test]
fn a_refused_step_is_repeated(rt: HostRuntime) {
    assert!(rt; plays_from_the_start(rt.alloc()));
}
