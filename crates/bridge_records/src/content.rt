//! What a piece of a capture holds.
use capture_reader::RecordHeader;

/// What a piece of a capture holds (own).
#[derive(Clone, Copy)]
pub enum Content {
    /// The capture begins. The fractions of its records are nanoseconds or microseconds.
    Begins(bool),
    /// A record of this link type: what its header says, with at most 262,144 captured bytes, and where in the piece
    /// these begin.
    Holds(u32, RecordHeader, usize),
}
