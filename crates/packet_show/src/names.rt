//! Tables of names, one line for each case.
ghost use Rattle.std.specs.Prelude.{◌≡◌};
ghost use Rattle.packet_show.specs.Names.{type_name, sum_name, option_name, option_form};

use dccp_options::kinds;
use dccp_packets::PacketType;
use dccp_sum::SumFault;

// The first option type that belongs to a CCID (RFC 4340, section 10.3).
const FIRST_OF_CCIDS: u8 = 128;

/// The name of a packet type (RFC 4340, section 5.1).
pub fn type_name(packet_type: PacketType) -> &'static [u8]
    ensures { result.now ≡ type_name packet_type }
{
    match packet_type {
        PacketType::Request => b"Request",
        PacketType::Response => b"Response",
        PacketType::Data => b"Data",
        PacketType::Ack => b"Ack",
        PacketType::DataAck => b"DataAck",
        PacketType::CloseReq => b"CloseReq",
        PacketType::Close => b"Close",
        PacketType::Reset => b"Reset",
        PacketType::Sync => b"Sync",
        PacketType::SyncAck => b"SyncAck",
    }
}

/// The verdict on a checksum as a word (RFC 4340, section 9): `ok`, `wrong`, or `coverage` if CsCov passes the packet's
/// end.
pub fn sum_name(checked: Result<(), SumFault>) -> &'static [u8]
    ensures { result.now ≡ sum_name checked }
{
    match checked {
        Ok(()) => b"ok",
        Err(SumFault::Wrong) => b"wrong",
        Err(SumFault::CoverageTooLarge) => b"coverage",
    }
}

/// What follows an option's name.
#[derive(Clone, Copy)]
pub(crate) enum OptionForm {
    /// Nothing.
    Bare,
    /// The data.
    Data,
    /// The feature's number, and the data after it.
    Feature,
    /// The option's type, and the data.
    Numbered,
}

/// The name of an option by its type (RFC 4340, section 5.8): `ccid` for one that belongs to a CCID, and `option` for one
/// that has no name.
pub fn option_name(kind: u8) -> &'static str
    ensures { result.now ≡ option_name kind }
{
    match kind {
        kinds::SLOW_RECEIVER => "slow-receiver",
        kinds::CHANGE_L => "change-l",
        kinds::CONFIRM_L => "confirm-l",
        kinds::CHANGE_R => "change-r",
        kinds::CONFIRM_R => "confirm-r",
        kinds::INIT_COOKIE => "init-cookie",
        kinds::NDP_COUNT => "ndp-count",
        kinds::ACK_VECTOR_0 => "ack-vector-0",
        kinds::ACK_VECTOR_1 => "ack-vector-1",
        kinds::DATA_DROPPED => "data-dropped",
        kinds::TIMESTAMP => "timestamp",
        kinds::TIMESTAMP_ECHO => "timestamp-echo",
        kinds::ELAPSED_TIME => "elapsed-time",
        kinds::DATA_CHECKSUM => "data-checksum",
        FIRST_OF_CCIDS..=255 => "ccid",
        _ => "option",
    }
}

pub(crate) fn option_form(kind: u8) -> OptionForm
    ensures { result ≡ option_form kind }
{
    match kind {
        kinds::SLOW_RECEIVER => OptionForm::Bare,
        kinds::CHANGE_L..=kinds::CONFIRM_R => OptionForm::Feature,
        kinds::INIT_COOKIE..=kinds::DATA_CHECKSUM => OptionForm::Data,
        _ => OptionForm::Numbered,
    }
}
