//! Why a capture is refused.
use thiserror::Error;

/// What is wrong with the 24 bytes of a file header (own): the first of these that holds.
#[derive(Clone, Copy)]
pub enum FormatFault {
    /// The first four bytes are no magic number of a classic capture, in either byte order.
    BadMagic,
    /// The version is not 2.4.
    BadVersion,
    /// The link type is none of those that the reader of the capture knows.
    BadLink,
}

/// Why a capture ended early (own). For a whole file header the answer is the first of BadMagic, BadVersion and BadLink
/// that holds.
#[derive(Clone, Copy, Debug, PartialEq, Eq, Error)]
pub enum CaptureFault {
    /// The first four bytes are no magic number of a classic capture, in either byte order.
    #[error("the first four bytes are no magic number of a capture")]
    BadMagic,
    /// The version is not 2.4.
    #[error("the version is not 2.4")]
    BadVersion,
    /// The link type is neither 1, Ethernet, nor 101, raw IP.
    #[error("the link type is neither 1 nor 101")]
    BadLink,
    /// The input ends inside the file header, a record's header or a record's bytes.
    #[error("the input ends inside a header or a record")]
    CutShort,
    /// More than 262,144 bytes of a record were captured.
    #[error("a record has more than 262144 bytes")]
    RecordTooLong,
    /// The source failed.
    #[error("the source failed")]
    ReadFault,
    /// No memory was left for the block.
    #[error("no memory is left")]
    NoMemory,
    /// A byte after the first 4,294,967,296 is needed, even if the input ends just there. An input that ends there
    /// between two records is whole.
    #[error("the capture goes on after its first 4294967296 bytes")]
    TooLarge,
}

impl From<FormatFault> for CaptureFault {
    ghost use Rattle.std.specs.Prelude.{◌≡◌};
    ghost use Rattle.capture_reader.specs.Format.{header_fault};

    ghost from_gives = { λ fault capture. capture ≡ header_fault fault };

    fn from(fault: FormatFault) -> CaptureFault {
        match fault {
            FormatFault::BadMagic => CaptureFault::BadMagic,
            FormatFault::BadVersion => CaptureFault::BadVersion,
            FormatFault::BadLink => CaptureFault::BadLink,
        }
    }
}
