//! A record that is shown by `Flows::show`, after a text that was there before.
use capture_reader::Record;
use packet_show::{Flows, Shown};
use std::alloc::Global;

// The shortest Data in IPv4, from port 1 to port 1.
const DATA: [u8; 32] = [
    0x45, 0, 0, 32, 0, 1, 0, 0, 64, 33, 0, 0, 10, 0, 0, 1, 10, 0, 0, 2, 0, 1, 0, 1, 3, 0, 0xe4,
    0xcd, 4, 0, 0, 0,
];

const TEXT: &[u8] =
    b"before 18446744073709551615 4294967295.999999 flow 1 10.0.0.1 1 > 10.0.0.2 1 Data seq 0 data 0 sum ok\n";

fn record(link: u32) -> Record<'static> {
    Record {
        number: u64::MAX,
        seconds: u32::MAX,
        fraction: 999_999,
        nanos: false,
        link,
        original: 1500,
        bytes: &DATA,
    }
}

// The text of a record of raw IP, that of a record with another link type, and how many flows there are.
fn shown(flows: &mut Flows, text: &mut Vec<u8>) -> Option<u64> {
    let lines = matches!(flows.show(&record(101), text), Ok(Shown::Line));
    let skips = matches!(flows.show(&record(113), text), Ok(Shown::Skipped));
    if lines && skips {
        Some(flows.count())
    } else {
        None
    }
}

fn are_shown(flows: &mut Flows, text: &mut Vec<u8>) -> bool {
    shown(flows, text) == Some(1) && text.as_slice() == TEXT
}

fn is_told(alloc: Global) -> bool {
    match b"before ".to_vec(alloc) {
        Ok(mut text) => are_shown(&mut Flows::new(alloc), &mut text),
        Err(_) => false,
    }
}

#[test]
fn a_record_after_a_text(rt: HostRuntime) {
    assert!(rt; is_told(rt.alloc()), "one line, and one skipped");
}
