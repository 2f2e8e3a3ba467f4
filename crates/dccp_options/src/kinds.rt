//! The types of options by name, and what the standard's table says about each (RFC 4340, section 5.8, table 3).
//!
//! An option's type is a plain number, since any byte may come. Padding and Mandatory count as understood in the table,
//! and are never listed.
ghost use Rattle.std.specs.Prelude.{◌≡◌};
ghost use Rattle.dccp_options.specs.Kinds as spec;
ghost use Rattle.dccp_options.specs.Vectors.{is_ack_vector};

/// Fills up an area; one byte (RFC 4340, section 5.8.1).
pub const PADDING: u8 = 0;

/// Marks the next option; one byte (RFC 4340, section 5.8.2).
pub const MANDATORY: u8 = 1;

/// The receiver is slow; one byte (RFC 4340, section 11.6).
pub const SLOW_RECEIVER: u8 = 2;

/// Asks for a value of a feature of the sender's (RFC 4340, section 6.1).
pub const CHANGE_L: u8 = 32;

/// Answers a Change R (RFC 4340, section 6.2).
pub const CONFIRM_L: u8 = 33;

/// Asks for a value of a feature of the receiver's (RFC 4340, section 6.1).
pub const CHANGE_R: u8 = 34;

/// Answers a Change L (RFC 4340, section 6.2).
pub const CONFIRM_R: u8 = 35;

/// A server's state, kept by the client (RFC 4340, section 8.1.4).
pub const INIT_COOKIE: u8 = 36;

/// How many packets without data went before (RFC 4340, section 7.7).
pub const NDP_COUNT: u8 = 37;

/// An Ack Vector with nonce 0 (RFC 4340, section 11.4).
pub const ACK_VECTOR_0: u8 = 38;

/// An Ack Vector with nonce 1 (RFC 4340, section 11.4).
pub const ACK_VECTOR_1: u8 = 39;

/// Which data was dropped, and why (RFC 4340, section 11.7).
pub const DATA_DROPPED: u8 = 40;

/// When the packet was sent (RFC 4340, section 13.1).
pub const TIMESTAMP: u8 = 41;

/// Answers a Timestamp (RFC 4340, section 13.3).
pub const TIMESTAMP_ECHO: u8 = 42;

/// How long the acknowledged packet waited (RFC 4340, section 13.2).
pub const ELAPSED_TIME: u8 = 43;

/// A checksum of the data alone (RFC 4340, section 9.3).
pub const DATA_CHECKSUM: u8 = 44;

// The first type that has a length.
const FIRST_WITH_LENGTH: u8 = 32;

/// Whether options of this type are one byte.
pub(crate) fn is_one_byte(kind: u8) -> bool
    ensures { result ≡ spec.is_one_byte kind }
{
    kind < FIRST_WITH_LENGTH
}

/// Whether an option of this type with that many bytes of data is understood.
pub(crate) fn is_understood(kind: u8, size: usize) -> bool
    ensures { result ≡ spec.is_understood kind size }
{
    match kind {
        PADDING | MANDATORY | SLOW_RECEIVER => true,
        CHANGE_L | CONFIRM_L | CHANGE_R | CONFIRM_R => 1 <= size,
        NDP_COUNT => 1 <= size && size <= 6,
        ACK_VECTOR_0 | ACK_VECTOR_1 | DATA_DROPPED => true,
        TIMESTAMP | DATA_CHECKSUM => size == 4,
        TIMESTAMP_ECHO => size == 4 || size == 6 || size == 8,
        ELAPSED_TIME => size == 2 || size == 4,
        _ => false,
    }
}

/// Whether Data packets ignore options of this type.
pub(crate) fn is_ignored_on_data(kind: u8) -> bool
    ensures { result ≡ spec.is_ignored_on_data kind }
{
    matches!(
        kind,
        MANDATORY
            | CHANGE_L
            | CONFIRM_L
            | CHANGE_R
            | CONFIRM_R
            | INIT_COOKIE
            | ACK_VECTOR_0
            | ACK_VECTOR_1
            | DATA_DROPPED
            | ELAPSED_TIME
    )
}

/// Whether options of this type are Ack Vectors.
pub(crate) fn is_ack_vector(kind: u8) -> bool
    ensures { result ≡ is_ack_vector kind }
{
    matches!(kind, ACK_VECTOR_0 | ACK_VECTOR_1)
}
