//! The calls that no program makes, each once; the calls that print; and the room for payloads and values. What other
//! lines say, and how they are printed, is worked out in `proofs/`.
use schedule_text::{
    Event, Line, LineFault, LineWhy, Payload, Seen, Values, print_event, print_result, print_seen,
    read_frame, read_line,
};
use std::alloc::Global;

#[test]
fn a_line_is_read(rt: HostRuntime) {
    let fault = LineFault {
        column: 7,
        why: LineWhy::NotText,
    };
    assert!(rt; read_line(b"x y z \xc3\xa9").err() == Some(fault));
}

// The bytes of a frame, whose checksum is to be set.
fn is_sealed(line: &[u8], bytes: &[u8]) -> bool {
    match read_frame(line) {
        Ok(Some(said)) => {
            let frame = said.bytes.frame();
            said.seal && frame.bytes() == bytes
        }
        _ => false,
    }
}

#[test]
fn a_frame_is_read(rt: HostRuntime) {
    assert!(rt; is_sealed(b"seal 0011223344556677", &[0, 17, 34, 51, 68, 85, 102, 119]));
}

// How many of this many numbers find room.
fn kept(numbers: u64) -> usize {
    let mut values = Values::new();
    for number in 0..numbers {
        let _ = values.push(number);
    }
    values.numbers().len()
}

#[test]
fn payloads_and_values_have_their_room(rt: HostRuntime) {
    assert!(rt; Payload::of(&[1; 2049]).is_none(), "2,049 bytes");
    assert!(rt; Payload::of(&[1; 2048]).is_some(), "2,048 bytes");
    assert!(rt; kept(10) == 9, "ten values");
}

// The events of a handshake between two ends whose numbers pass the greatest one.
const EVENTS: [&[u8]; 7] = [
    b"open",
    b"deliver c0",
    b"deliver s0",
    b"deliver c1",
    b"deliver s1",
    b"timer client ack",
    b"deliver c2",
];

// Whether the event that a line says is printed as that line.
fn is_printed_as_said(line: &[u8], text: &mut Vec<u8>) -> bool {
    text.clear();
    match read_line(line) {
        Ok(Line::Event(event)) => print_event(&event, text).is_ok() && text.as_slice() == line,
        _ => false,
    }
}

fn are_printed(alloc: Global) -> bool {
    let mut text = Vec::new(alloc);
    for line in &EVENTS {
        if !is_printed_as_said(*line, &mut text) {
            return false;
        }
    }
    true
}

#[test]
fn events_of_a_wrap_are_printed(rt: HostRuntime) {
    assert!(rt; are_printed(rt.alloc()));
}

// Whether a timer's results are printed after the text, in a schedule and in a replay.
fn are_told(text: &mut Vec<u8>) -> bool {
    print_seen(7, &Event::Open, &Seen::Fired(true), b"", text).is_ok()
        && print_result(8, &Seen::Fired(false), b"", text).is_ok()
        && text.as_slice() == b"7 open: fired\n8: idle\n".as_slice()
}

fn are_told_anew(alloc: Global) -> bool {
    are_told(&mut Vec::new(alloc))
}

#[test]
fn results_are_printed(rt: HostRuntime) {
    assert!(rt; are_told_anew(rt.alloc()));
}
