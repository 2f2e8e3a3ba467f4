//! Whether an acknowledgement has room for what an inbox has to say: it has two full Ack Vectors and many Confirms.
use crate::fresh::{buffered_end, plain};
use arrayvec::ArrayVec;
use ccid_two::Kinds;
use data_dropped::BufferedEnd;
use dccp_endpoint::{Config, Feature, Frame, NoMemory, Outbox, Place, Role, Vectors, seal_frame};
use std::alloc::Global;

type Server = BufferedEnd<Kinds>;

type Bytes = ArrayVec<u8, 512>;

// A Request that asks for Send Ack Vector, an Ack that opens the connection, and one byte of data.
const REQUEST: [u8; 24] = [
    0x9c, 0x40, 0x13, 0x89, 6, 0, 0, 0, 1, 0, 0, 0, 0, 0, 0x03, 0xe8, 0, 0, 0, 42, 34, 4, 6, 1,
];

const ACK: [u8; 24] = [
    0x9c, 0x40, 0x13, 0x89, 6, 0, 0, 0, 7, 0, 0, 0, 0, 0, 0x03, 0xe9, 0, 0, 0, 0, 0, 0, 0x07, 0xd0,
];

// An Ack 1603 of 2071, whose Data Offset is to be set.
const LATE_ACK: [u8; 24] = [
    0x9c, 0x40, 0x13, 0x89, 0, 0, 0, 0, 7, 0, 0, 0, 0, 0, 0x06, 0x43, 0, 0, 0, 0, 0, 0, 0x08, 0x17,
];

const DATA: [u8; 17] = [
    0x9c, 0x40, 0x13, 0x89, 4, 0, 0, 0, 5, 0, 0, 0, 0, 0, 0, 0, 0xaa,
];

// Changes of Minimum Checksum Coverage, CCID, Send Ack Vector and ECN Incapable at both ends, and of Sequence Window:
// their Confirms have 24, 12, 11, 11 and 9 bytes.
const CHANGES: [u8; 41] = [
    34, 4, 8, 0, 32, 4, 8, 0, 34, 4, 1, 2, 32, 4, 1, 2, 34, 4, 6, 1, 32, 4, 6, 1, 34, 4, 4, 1, 32,
    4, 4, 1, 32, 9, 3, 0, 0, 0, 0, 0, 100,
];

const COVERAGES: [u64; 8] = [0, 1, 2, 3, 4, 5, 6, 7];

// The server, which reports up to 506 bytes of its history, and wishes for eight values of Minimum Checksum Coverage.
fn config() -> Option<Config> {
    let mut config = plain(Role::Server);
    config.vectors = Vectors::Two;
    for place in &[Place::Here, Place::There] {
        config.set(Feature::MinCsCov, *place, &COVERAGES).ok()?;
    }
    Some(config)
}

fn receive(server: &mut Server, bytes: &[u8], out: &mut Outbox) -> Option<()> {
    let mut frame = Frame::of(bytes)?;
    if bytes.len() < 8 {
        return None;
    }
    seal_frame(&Config::usual(Role::Server).pseudo_in, &mut frame);
    let _ = server.receive(frame.bytes(), out);
    Some(())
}

// Every second number from 1003 on arrives with data. The first data are held, and the others are dropped.
fn drop_many(server: &mut Server, out: &mut Outbox) -> Option<()> {
    for number in (1003_u64..1603).step_by(2) {
        let mut data = DATA;
        let [.., high, low] = number.to_be_bytes();
        data[14] = high;
        data[15] = low;
        receive(server, &data, out)?;
    }
    Some(())
}

// Puts an Ack with these Changes and this many more, for unknown features: 3 bytes each in the answer. Each has a word
// in the Data Offset, and Padding fills the last word.
fn put_changes(bytes: &mut Bytes, unknown: u8) -> Option<()> {
    let unknown = unknown.min(100);
    let mut ack = LATE_ACK;
    ack[4] = 17 + unknown;
    bytes.try_extend_from_slice(&ack).ok()?;
    bytes.try_extend_from_slice(&CHANGES).ok()?;
    for feature in 128..128 + unknown {
        bytes.try_extend_from_slice(&[34, 4, feature, 0]).ok()?;
    }
    bytes.try_extend_from_slice(&[0; 3]).ok()
}

// Opens the connection, and lets many data packets arrive.
fn begin(server: &mut Server, out: &mut Outbox) -> Option<()> {
    receive(server, &REQUEST, out)?;
    receive(server, &ACK, out)?;
    drop_many(server, out)
}

// The length of the frame, and its last byte.
fn length_and_last(out: &Outbox) -> Option<(usize, u8)> {
    let bytes = out.frame()?.bytes();
    Some((bytes.len(), *bytes.last()?))
}

// The same for the last answer of this server.
fn answered(server: &mut Server, unknown: u8) -> Option<(usize, u8)> {
    let mut out = Outbox::new();
    begin(server, &mut out)?;
    let mut changes = Bytes::new();
    put_changes(&mut changes, unknown)?;
    receive(server, changes.as_slice(), &mut out)?;
    length_and_last(&out)
}

// The same for a new server, when this many Changes of unknown features arrive.
fn answer(alloc: Global, unknown: u8) -> Option<(usize, u8)> {
    let config = config()?;
    match buffered_end(alloc, config, 1) {
        Ok(mut server) => answered(&mut server, unknown),
        Err(NoMemory) => None,
    }
}

// After a header of 24 bytes and vectors of 510 there are Confirms of 229 bytes, or of 232 with one more. Data Dropped
// and Slow Receiver take 256. Together these are 1,020 bytes, or 1,024, which the Data Offset cannot say.
#[test]
fn room_for_a_report(rt: HostRuntime) {
    assert!(rt;
        matches!(answer(rt.alloc(), 54), Some((1020, 2))),
        "room for it"
    );
    assert!(rt;
        matches!(answer(rt.alloc(), 55), Some((768, 0))),
        "no room for it"
    );
}
