//! Why an input of pieces is refused, and why a piece is not accepted.
use capture_reader::FormatFault;
use seq_circle::NoMemory;

/// Why an input of pieces is refused (own).
#[derive(Clone, Copy)]
pub enum PieceFault {
    /// The first bytes are no magic number of a capture.
    BadMagic,
    /// The version is not one that the format has.
    BadVersion,
    /// A link type is not known.
    BadLink,
    /// The input ends inside a piece, or where it may not end.
    CutShort,
    /// A record or a block is longer than may be.
    TooLong,
    /// A block contradicts itself, or names an interface that is not there.
    BadBlock,
    /// A piece ends after the first 4,294,967,296 bytes.
    TooLarge,
}

impl From<FormatFault> for PieceFault {
    ghost use Rattle.std.specs.Prelude.{◌≡◌};
    ghost use Rattle.bridge_records.specs.Reading.{format_fault};

    ghost from_gives = { λ fault piece. piece ≡ format_fault fault };

    fn from(fault: FormatFault) -> PieceFault {
        match fault {
            FormatFault::BadMagic => PieceFault::BadMagic,
            FormatFault::BadVersion => PieceFault::BadVersion,
            FormatFault::BadLink => PieceFault::BadLink,
        }
    }
}

/// Why a job does not accept a piece (own).
#[derive(Clone, Copy)]
pub(crate) enum PieceError {
    /// The input is refused at the piece for this fault.
    Refused(PieceFault),
    /// No memory was left.
    NoMemory,
}

impl From<PieceFault> for PieceError {
    ghost use Rattle.std.specs.Prelude.{◌≡◌};
    ghost use Rattle.bridge_records.specs.declared.pieces.fault.PieceError.TheVariants as piece_error;

    ghost from_gives = { λ fault error. error ≡ piece_error.Refused fault };

    fn from(fault: PieceFault) -> PieceError {
        PieceError::Refused(fault)
    }
}

impl From<NoMemory> for PieceError {
    ghost use Rattle.std.specs.Prelude.{◌≡◌};
    ghost use Rattle.bridge_records.specs.declared.pieces.fault.PieceError.TheVariants as piece_error;

    ghost from_gives = { λ none error. error ≡ piece_error.NoMemory };

    fn from(_: NoMemory) -> PieceError {
        PieceError::NoMemory
    }
}
