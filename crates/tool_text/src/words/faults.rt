//! The faults of a line, and their columns.
ghost use Rattle.std.specs.Prelude.{◌≡◌};
ghost use Rattle.tool_text.specs.Refusals.{line_why_name, whole_line};

/// What is wrong with a line, and where (own).
#[derive(Clone, Copy, PartialEq, Eq)]
pub struct LineFault {
    /// The column, in bytes from 1.
    pub column: u32,
    pub why: LineWhy,
}

/// What may be wrong with a line, in the order in which it is judged (own). Missing, UnknownWord, BadPeer, BadNumber
/// and BadHex are judged together, word by word from the left. Each grammar of lines says which of these it can answer.
#[derive(Clone, Copy, PartialEq, Eq)]
pub enum LineWhy {
    /// It ends past the input's limit. The program judges this.
    TooMuchInput,
    /// It has more than 4,096 bytes: at column 4,097.
    LineTooLong,
    /// A byte is none of 32 to 126: at the first such byte.
    NotText,
    /// A word is empty or absent: at its column, which is the line's length plus 2 if it is absent.
    Missing,
    /// A word is none of those allowed in its place: at that word.
    UnknownWord,
    /// A word should be a peer, an IPv4 address and a port, and is not: at that word.
    BadPeer,
    /// A word should be a number, a feature or a list of numbers and is not, or the index of a name is no number: at
    /// that word.
    BadNumber,
    /// A word should be digits of bytes and is not: at the first other byte, or after an odd number of digits.
    BadHex,
    /// More words follow: at the first of them.
    Trailing,
    /// A frame has more than 2,044 bytes: at its digits.
    FrameTooLong,
    /// A frame whose checksum is to be set has fewer than 8 bytes: at its digits.
    SealShort,
    /// It must come before all events and comes after one. The program judges this, at column 1.
    HeaderLate,
    /// The values are not allowed for the feature: at the values.
    BadList,
    /// The feature is the peer's to set: at the values, and for an offer at the feature.
    NotOurs,
    /// There are too many events. The program judges this, at column 1.
    TooManyEvents,
    /// The frame was not sent. The program judges this, at the name.
    NoSuchFrame,
}

/// The word for a cause in the line of a refusal (own).
pub fn line_why_name(why: LineWhy) -> &'static [u8]
    ensures { result.now ≡ line_why_name why }
{
    match why {
        LineWhy::TooMuchInput => b"TooMuchInput",
        LineWhy::LineTooLong => b"LineTooLong",
        LineWhy::NotText => b"NotText",
        LineWhy::Missing => b"Missing",
        LineWhy::UnknownWord => b"UnknownWord",
        LineWhy::BadPeer => b"BadPeer",
        LineWhy::BadNumber => b"BadNumber",
        LineWhy::BadHex => b"BadHex",
        LineWhy::Trailing => b"Trailing",
        LineWhy::FrameTooLong => b"FrameTooLong",
        LineWhy::SealShort => b"SealShort",
        LineWhy::HeaderLate => b"HeaderLate",
        LineWhy::BadList => b"BadList",
        LineWhy::NotOurs => b"NotOurs",
        LineWhy::TooManyEvents => b"TooManyEvents",
        LineWhy::NoSuchFrame => b"NoSuchFrame",
    }
}

/// The fault of a whole line, at its first byte (own).
pub fn whole_line(why: LineWhy) -> LineFault
    ensures { result ≡ whole_line why }
{
    LineFault { column: 1, why }
}
