//! Calls about received numbers: marks, Ack Vectors and the records that raise the floor. The lists are those of the
//! worked rows of proofs/rows/RowsReceived.antt with every number taken; the bytes follow by hand from the coding of
//! RFC 4340, section 11.4.
use crate::marks::calls::{CallTarget, all_come};
use ack_vectors::{Received, VectorBytes, Vectors};
use run_list::Marked;
use seq_circle::Seq48;
use std::alloc::Global;
use std::test::Fail;

// A call of a set, and its expected result.
enum Call {
    // Begins at this floor.
    Start(u64),
    // Takes this number.
    Take(u64, Marked),
    // Takes each number of a step's distance from the first up to the second, and each is new.
    TakeEach(u64, u64, usize),
    // Writes these bytes at this number, and they are the whole vector.
    Write(u64, &'static [u8]),
    // Writes this many bytes at this number, 0x00 and 0xc0 in turn, and says whether they are the whole vector: first
    // with room for one option, and then for two.
    WriteInTurn(u64, (usize, bool), (usize, bool)),
    // Writes the vector for this number, and records it under the first.
    SendWritten(u64, u64, Vectors),
    // Records a packet by its number and what it acknowledges, and whether its vector is whole.
    Send(u64, u64, bool),
    // Whether a whole vector is recorded under this number.
    Ack(u64, bool),
    // The floor is this one.
    Floor(u64),
}

fn start(received: &mut Received, first: u64) -> Option<bool> {
    received.start(Seq48::new(first)?);
    Some(true)
}

fn take(received: &mut Received, number: u64, answer: Marked) -> Option<bool> {
    Some(received.took(Seq48::new(number)?) == answer)
}

fn take_each(received: &mut Received, first: u64, past: u64, step: usize) -> Option<bool> {
    for number in (first..past).step_by(step.max(1)) {
        if take(received, number, Marked::New) != Some(true) {
            return None;
        }
    }
    Some(true)
}

fn write(received: &Received, number: u64, bytes: &[u8]) -> Option<bool> {
    let mut out = VectorBytes::new();
    let is_whole = received.write(&mut out, Seq48::new(number)?, Vectors::One);
    Some(is_whole && out.as_slice() == bytes)
}

fn are_in_turn(bytes: &[u8]) -> bool {
    for (at, byte) in bytes.iter().enumerate() {
        if *byte != if at % 2 == 0 { 0x00 } else { 0xc0 } {
            return false;
        }
    }
    true
}

fn is_in_turn(received: &Received, number: Seq48, vectors: Vectors, told: (usize, bool)) -> bool {
    let mut out = VectorBytes::new();
    let is_whole = received.write(&mut out, number, vectors);
    (out.len(), is_whole) == told && are_in_turn(out.as_slice())
}

fn write_in_turn(
    received: &Received,
    number: u64,
    one: (usize, bool),
    two: (usize, bool),
) -> Option<bool> {
    let number = Seq48::new(number)?;
    Some(
        is_in_turn(received, number, Vectors::One, one)
            && is_in_turn(received, number, Vectors::Two, two),
    )
}

fn send_written(received: &mut Received, number: u64, ack: u64, vectors: Vectors) -> Option<bool> {
    let mut out = VectorBytes::new();
    let whole = received.write(&mut out, Seq48::new(ack)?, vectors);
    send(received, number, ack, whole)
}

fn send(received: &mut Received, number: u64, ack: u64, whole: bool) -> Option<bool> {
    received.sent(Seq48::new(number)?, Seq48::new(ack)?, whole);
    Some(true)
}

fn ack(received: &mut Received, number: u64, answer: bool) -> Option<bool> {
    Some(received.peer_acked(Seq48::new(number)?) == answer)
}

impl CallTarget<Call> for Received {
    fn holds(&mut self, call: &Call) -> Option<bool> {
        match *call {
            Call::Start(first) => start(self, first),
            Call::Take(number, answer) => take(self, number, answer),
            Call::TakeEach(first, past, step) => take_each(self, first, past, step),
            Call::Write(number, bytes) => write(self, number, bytes),
            Call::WriteInTurn(number, one, two) => write_in_turn(self, number, one, two),
            Call::SendWritten(number, ack, vectors) => send_written(self, number, ack, vectors),
            Call::Send(number, ack, whole) => send(self, number, ack, whole),
            Call::Ack(number, answer) => ack(self, number, answer),
            Call::Floor(number) => Some(self.floor().get() == number),
        }
    }
}

// Makes these calls of a new set, one after another.
fn play(alloc: Global, name: &str, calls: &[Call]) -> Result<(), Fail> {
    all_come(&mut Received::new(alloc)?, name, calls)
}

const LISTS: [(&str, &[Call]); 6] = [
    (
        "vector_of_received",
        &[
            Call::Start(88),
            Call::TakeEach(88, 99, 1),
            Call::Take(100, Marked::New),
            Call::Write(100, &[0x00, 0xc0, 0x0a]),
            Call::Write(88, &[0x00]),
            Call::Write(87, &[]),
        ],
    ),
    (
        "full_run_of_64",
        &[
            Call::Start(1),
            Call::TakeEach(1, 65, 1),
            Call::Write(64, &[0x3f]),
            Call::Take(65, Marked::New),
            Call::Write(65, &[0x3f, 0x00]),
        ],
    ),
    (
        "floor_rises_by_record",
        &[
            Call::Start(10),
            Call::TakeEach(10, 12, 1),
            Call::Take(13, Marked::New),
            Call::Take(11, Marked::Again),
            Call::Write(13, &[0x00, 0xc0, 0x01]),
            Call::Send(50, 13, true),
            Call::Ack(49, false),
            Call::Floor(10),
            Call::Ack(50, true),
            Call::Floor(14),
            Call::Take(12, Marked::BelowFloor),
            Call::Take(15, Marked::New),
            Call::Write(15, &[0x00, 0xc0]),
        ],
    ),
    // All 2,048 even numbers: the floor follows, and the vector is cut where the options end.
    (
        "vector_cut_at_253",
        &[
            Call::Start(0),
            Call::TakeEach(0, 4_096, 2),
            Call::Floor(2_047),
            Call::WriteInTurn(4_094, (253, false), (506, false)),
            Call::Send(9, 4_094, false),
            Call::Ack(9, false),
            Call::Floor(2_047),
            Call::Take(2_046, Marked::BelowFloor),
            Call::Take(2_047, Marked::New),
        ],
    ),
    // Every second number received, so that each byte is for one number. One option has room for 253 of them, and two
    // for 506.
    (
        "vectors_at_the_edges",
        &[
            Call::Start(0),
            Call::TakeEach(0, 254, 2),
            Call::WriteInTurn(252, (253, true), (253, true)),
            Call::Start(0),
            Call::TakeEach(1, 254, 2),
            Call::WriteInTurn(253, (253, false), (254, true)),
            Call::TakeEach(255, 504, 2),
            Call::WriteInTurn(503, (253, false), (504, true)),
            Call::Take(505, Marked::New),
            Call::WriteInTurn(505, (253, false), (506, true)),
            Call::Start(0),
            Call::TakeEach(0, 507, 2),
            Call::WriteInTurn(504, (253, false), (505, true)),
            Call::WriteInTurn(506, (253, false), (506, false)),
        ],
    ),
    // A vector that one option cuts raises no floor, and two options hold it whole.
    (
        "floor_rises_by_two_options",
        &[
            Call::Start(0),
            Call::TakeEach(0, 505, 2),
            Call::SendWritten(7, 504, Vectors::One),
            Call::Ack(7, false),
            Call::Floor(0),
            Call::SendWritten(8, 504, Vectors::Two),
            Call::Ack(7, false),
            Call::Ack(8, true),
            Call::Floor(505),
        ],
    ),
];

#[test]
fn lists_of_received_numbers(rt: HostRuntime) -> Result<(), Fail> {
    for (name, calls) in &LISTS {
        play(rt.alloc(), name, *calls)?;
    }
    Ok(())
}
