//! What an end answers.
use dccp_packets::Malformed;
use dccp_sum::SumFault;
use seq_circle::Seq48;

/// Why a packet was dropped. The end is unchanged.
#[derive(Clone, Copy, Debug, PartialEq, Eq)]
pub enum Why {
    /// The bytes are no packet.
    Malformed(Malformed),
    /// The checksum is wrong (RFC 4340, section 9).
    Sum(SumFault),
    /// The ports are not those of the connection.
    OtherFlow,
    /// A Reset that belongs to no connection: in CLOSED, LISTEN and TIMEWAIT, and in REQUEST if its acknowledgement
    /// number is outside the window (RFC 4340, section 8.5, steps 2 to 4).
    StrayReset,
    /// A packet with short numbers, which are not negotiated (RFC 4340, section 7.6.1).
    ShortOff,
    /// A Sync or SyncAck whose numbers are not valid (RFC 4340, section 7.5.3).
    BadSync,
}

/// What became of a packet.
#[derive(Clone, Copy, Debug, PartialEq, Eq)]
pub enum Outcome {
    /// It was taken. If it had data to deliver, `delivered` is where they are in the input: the place of the first
    /// byte, and the place after the last.
    Took { delivered: Option<(usize, usize)> },
    /// It was dropped.
    Dropped(Why),
    /// It was answered with a Sync that acknowledges this number.
    Synced(Seq48),
    /// It is a valid Reset with this code, and the end is in TIMEWAIT.
    WasReset(u8),
    /// It was answered with a Reset of this code and detail (RFC 4340, section 5.6).
    SentReset { code: u8, detail: [u8; 3] },
}

/// What a Reset says about the packet that it answers: its code and the bytes Data 1 to 3 (RFC 4340, section 5.6).
#[derive(Clone, Copy, Debug, PartialEq, Eq)]
pub struct Fault {
    /// The Reset Code.
    pub code: u8,
    /// Data 1.
    pub first: u8,
    /// Data 2.
    pub second: u8,
    /// Data 3.
    pub third: u8,
}
