//! Whole calls of the forms `run` and `show`: pieces of any length, and streams that fail. What a plain text can say is
//! played from `examples/`, and which lines are refused is worked out in `proofs/`.
use crate::calls::{Streams, Tool, comes, end_of};
use crate::words::{HANDSHAKE, SEVEN};
use dccp_command::Status;
use fault_campaign::OpenGate;
use std::alloc::Global;
use std::test::Fail;
use std::thread::Threads;

// Streams that fail, with the status and the text of the handshake over them.
const FAILING: [(&str, Streams, Status, &str); 5] = [
    (
        "the first read",
        Streams {
            failing_read: Some(1),
            failing_write: None,
            given: 7,
            taken: 4096,
        },
        Status::Read,
        "",
    ),
    // By then the first two lines were read, and the second is `open`.
    (
        "the third read",
        Streams {
            failing_read: Some(3),
            failing_write: None,
            given: 7,
            taken: 4096,
        },
        Status::Read,
        "2 open: ok\nsent c0 9c401389050031ec01000000000003e80000002a\n",
    ),
    (
        "the third write",
        Streams {
            failing_read: None,
            failing_write: Some(3),
            given: 7,
            taken: 1,
        },
        Status::Write,
        "2 ",
    ),
    (
        "a sink that takes nothing",
        Streams {
            failing_read: None,
            failing_write: None,
            given: 7,
            taken: 0,
        },
        Status::Write,
        "",
    ),
    // The text of a line goes out before more of a schedule is read.
    (
        "lines_are_answered_before_more_is_read",
        SECOND_PIECE,
        Status::Write,
        "2 open: ok\nsent c0 9c401389050031ec01000000000003e80000002a\n",
    ),
];

// Whether the handshake ends this way over these streams.
fn ends<R: Threads + Sync>(
    rt: &R,
    alloc: Global,
    streams: &Streams,
    status: Status,
    text: &'static str,
) -> Result<bool, Fail> {
    comes(
        rt,
        alloc,
        streams,
        ("run", HANDSHAKE.as_bytes()),
        (status, text),
    )
}

#[test]
fn failing_streams(rt: HostRuntime) -> Result<(), Fail> {
    for (name, streams, status, text) in &FAILING {
        assert!(rt; ends(&rt, rt.alloc(), streams, *status, text)?, "{name}");
    }
    Ok(())
}

// The second write fails, for an input that gives as many bytes a call as there is room for.
const SECOND_BLOCK: Streams = Streams {
    failing_read: None,
    failing_write: Some(2),
    given: 1_000_000,
    taken: 131_072,
};

// The same for an input that gives seven bytes a call.
const SECOND_PIECE: Streams = Streams {
    failing_read: None,
    failing_write: Some(2),
    given: 7,
    taken: 131_072,
};

// Whether a call whose second write fails has written a text of this many bytes that begins with this.
fn writes_block<R: Threads + Sync>(
    rt: &R,
    alloc: Global,
    (words, input): (&str, &[u8]),
    front: &str,
    (least, most): (usize, usize),
) -> Result<bool, Fail> {
    let call = (Tool::Dccp, words, input);
    let ended = end_of(
        rt,
        alloc,
        &OpenGate,
        &SECOND_BLOCK,
        call,
        (front.as_bytes(), ""),
    )?;
    let begins = ended.status == Status::Write && ended.begins;
    Ok(begins && least <= ended.written && ended.written < most)
}

fn many_openings(alloc: Global) -> Result<Vec<u8>, Fail> {
    let mut schedule = Vec::new(alloc);
    for _ in 0..3000 {
        schedule.extend_from_slice(b"open\n")?;
    }
    Ok(schedule)
}

fn writes_openings<R: Threads + Sync>(rt: &R, alloc: Global) -> Result<bool, Fail> {
    let schedule = many_openings(alloc)?;
    writes_block(
        rt,
        alloc,
        ("run", &schedule),
        "1 open: ok\nsent c0 ",
        (4096, 25 * 3000),
    )
}

// A capture's file header, a record of the client's Request in IPv4, and its line.
const FILE_HEADER: &str = "d4c3b2a1020004000000000000000000ffff000065000000";

const RECORD: &str = "0100000020a107002800000028000000\
4500002800010000402166b20a0000010a0000029c401389050031ec01000000000003e80000002a";

const RECORD_LINE: &str =
    "1 1.500000 flow 1 10.0.0.1 40000 > 10.0.0.2 5001 Request seq 1000 service 42 data 0 sum ok\n";

const ONE_RECORD: &str =
    "1 1.500000 flow 1 10.0.0.1 40000 > 10.0.0.2 5001 Request seq 1000 service 42 data 0 sum ok\n\
records 1 shown 1 skipped 0 flows 1\n";

// A capture of that record this many times.
fn capture_of(alloc: Global, count: usize) -> Result<Vec<u8>, Fail> {
    let item = hex::decode(alloc, RECORD)?;
    let mut capture = hex::decode(alloc, FILE_HEADER)?;
    for _ in 0..count {
        capture.extend_from_slice(&item)?;
    }
    Ok(capture)
}

// Whether `show` writes this for a capture of that record this many times.
fn is_shown<R: Threads + Sync>(
    rt: &R,
    alloc: Global,
    streams: &Streams,
    count: usize,
    (status, text): (Status, &str),
) -> Result<bool, Fail> {
    let capture = capture_of(alloc, count)?;
    comes(rt, alloc, streams, ("show", &capture), (status, text))
}

// The 13th read of seven bytes fails.
const THIRTEENTH_PIECE: Streams = Streams {
    failing_read: Some(13),
    failing_write: None,
    given: 7,
    taken: 4096,
};

fn writes_records<R: Threads + Sync>(rt: &R, alloc: Global) -> Result<bool, Fail> {
    let capture = capture_of(alloc, 1000)?;
    let size = RECORD_LINE.len();
    writes_block(
        rt,
        alloc,
        ("show", &capture),
        RECORD_LINE,
        (10 * size, 900 * size),
    )
}

// If reading does not wait, text is written in blocks of at least 4,096 bytes: neither line by line nor all at the end.
// Each further line of the schedule is `N open: refused NotFresh`.
#[test]
fn blocks_of_text(rt: HostRuntime) -> Result<(), Fail> {
    assert!(rt; writes_openings(&rt, rt.alloc())?, "of a schedule");
    assert!(rt; writes_records(&rt, rt.alloc())?, "of a capture");
    Ok(())
}

// Of one byte a call.
const ONE: Streams = Streams {
    failing_read: None,
    failing_write: None,
    given: 1,
    taken: 1,
};

// Of more bytes than there are.
const MANY: Streams = Streams {
    failing_read: None,
    failing_write: None,
    given: 4096,
    taken: 4096,
};

// A number of records, the streams, and how a capture of that many records ends over them.
const CAPTURES: [(&str, Streams, usize, Status, &str); 5] = [
    ("a byte a call", ONE, 1, Status::Done, ONE_RECORD),
    ("seven bytes a call", SEVEN, 1, Status::Done, ONE_RECORD),
    ("capture_of_one_packet", MANY, 1, Status::Done, ONE_RECORD),
    // The lines of whole records are written when the source fails inside the second record.
    (
        "failing_source_of_a_capture",
        THIRTEENTH_PIECE,
        1000,
        Status::Read,
        RECORD_LINE,
    ),
    // The line of a record goes out before more of a capture is read.
    (
        "records_are_answered_before_more_is_read",
        SECOND_PIECE,
        3,
        Status::Write,
        RECORD_LINE,
    ),
];

#[test]
fn captures_over_streams(rt: HostRuntime) -> Result<(), Fail> {
    for (name, streams, count, status, text) in &CAPTURES {
        let shown = is_shown(&rt, rt.alloc(), streams, *count, (*status, *text))?;
        assert!(rt; shown, "{name}");
    }
    Ok(())
}
