//! What a reader of captures does with its source, and the texts of its faults. Which records a capture has, and what
//! ends them, is worked out in `proofs/`.
use crate::streams::sources::{gives, source_of};
use capture_reader::{CaptureFault, Captures};
use dccp_io::MemorySource;
use std::alloc::Global;
use std::test::Fail;

// A whole file header whose magic number is not one, and four bytes.
const REFUSED: [u8; 28] =
    *b"\x00\xb2\xc3\xd4\x00\x02\x00\x04\t\t\t\t\t\t\t\t\t\t\t\t\x00\x00\x00\x01rest";

// Of its 28 bytes 26 are read.
fn is_handed_back(alloc: Global) -> Result<bool, Fail> {
    match Captures::new(alloc, source_of(alloc, &REFUSED, 0, 26)?) {
        Ok(_) => Ok(false),
        Err((fault, mut source)) => {
            let is_left = gives(alloc, &mut source, 100, b"st");
            Ok(is_left && fault == CaptureFault::BadMagic)
        }
    }
}

#[test]
fn a_refused_source_is_handed_back(rt: HostRuntime) -> Result<(), Fail> {
    assert!(rt; is_handed_back(rt.alloc())?);
    Ok(())
}

// The file header of a capture, and the header of a record of 40 bytes, of which 6 are there.
const BEGUN: [u8; 46] =
    *b"\xd4\xc3\xb2\xa1\x02\x00\x04\x00\x00\x00\x00\x00\x00\x00\x00\x00\xff\xff\x00\x00\x65\x00\x00\x00\
\x01\x00\x00\x00\x20\xa1\x07\x00\x28\x00\x00\x00\x28\x00\x00\x00\x45\x00\x00\x28\x00\x01";

fn fails_again(captures: &mut Captures<MemorySource>) -> bool {
    let first = matches!(captures.next(), Err(CaptureFault::ReadFault));
    let again = matches!(captures.next(), Err(CaptureFault::ReadFault));
    first && again && captures.holds_next()
}

// The fault is returned again without a further read, and the failed call took nothing: five calls of eight bytes were
// read.
fn fails_in_a_record(alloc: Global) -> Result<bool, Fail> {
    match Captures::new(alloc, source_of(alloc, &BEGUN, 6, 8)?) {
        Ok(mut captures) => {
            let stays = fails_again(&mut captures);
            let left = [0x45, 0, 0, 0x28, 0, 1];
            let is_left = gives(alloc, &mut captures.into_source(), 100, &left);
            Ok(stays && is_left)
        }
        Err(_) => Ok(false),
    }
}

#[test]
fn failed_source_of_records_stays_failed(rt: HostRuntime) -> Result<(), Fail> {
    assert!(rt; fails_in_a_record(rt.alloc())?);
    Ok(())
}

const TEXTS: [(CaptureFault, &str); 8] = [
    (
        CaptureFault::BadMagic,
        "the first four bytes are no magic number of a capture",
    ),
    (CaptureFault::BadVersion, "the version is not 2.4"),
    (CaptureFault::BadLink, "the link type is neither 1 nor 101"),
    (
        CaptureFault::CutShort,
        "the input ends inside a header or a record",
    ),
    (
        CaptureFault::RecordTooLong,
        "a record has more than 262144 bytes",
    ),
    (CaptureFault::ReadFault, "the source failed"),
    (CaptureFault::NoMemory, "no memory is left"),
    (
        CaptureFault::TooLarge,
        "the capture goes on after its first 4294967296 bytes",
    ),
];

fn is_shown(alloc: Global, fault: CaptureFault, text: &str) -> Result<bool, Fail> {
    let shown = format!(in alloc; "{fault}")?;
    Ok(shown.as_str() == text)
}

#[test]
fn texts_of_faults(rt: HostRuntime) -> Result<(), Fail> {
    for (fault, text) in &TEXTS {
        assert!(rt; is_shown(rt.alloc(), *fault, text)?, "{text}");
    }
    Ok(())
}
