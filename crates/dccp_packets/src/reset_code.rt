//! The Reset Codes that have names.
ghost use Rattle.std.specs.Prelude.{◌≡◌, ◌<◌, ◌↔◌, IsSome, IfSome};
ghost use Rattle.dccp_packets.specs.ResetCodes.{number_of_code, code_of_number};

/// Why an end resets a connection: the Reset Codes 0 to 11, in their order (RFC 4340, section 5.6). A Reset carries the
/// number of one of them, and may carry any other byte too: 12 to 127 are reserved, and 128 to 255 belong to the CCIDs.
#[derive(Clone, Copy, Debug, PartialEq, Eq)]
pub enum ResetCode {
    /// 0: no cause is given.
    Unspecified,
    /// 1: the answer to a Close.
    Closed,
    /// 2: the application gave up.
    Aborted,
    /// 3: the packet belongs to no connection.
    NoConnection,
    /// 4: a packet of this type is not allowed now. Data 1 is its type.
    PacketError,
    /// 5: an option is wrong. Data 1 to 3 are its type and the first two bytes of its data.
    OptionError,
    /// 6: a mandatory option is not understood or not obeyed. Data 1 to 3 are as in `OptionError`.
    MandatoryError,
    /// 7: the port does not take the connection.
    ConnectionRefused,
    /// 8: the Service Code does not belong to the port.
    BadServiceCode,
    /// 9: the server takes no more connections now.
    TooBusy,
    /// 10: the Init Cookie that the client echoed is wrong or missing.
    BadInitCookie,
    /// 11: the other end broke the rules of congestion control.
    AggressionPenalty,
}

impl ResetCode {
    /// The code with this number, or None exactly if it is 12 or more.
    pub fn of(number: u8) -> Option<ResetCode>
        ensures value { result ≡ code_of_number number }
        ensures named { IsSome result ↔ (number < 12) }
        ensures again { IfSome result (λ code. number_of_code code ≡ number) }
    {
        match number {
            0 => Some(ResetCode::Unspecified),
            1 => Some(ResetCode::Closed),
            2 => Some(ResetCode::Aborted),
            3 => Some(ResetCode::NoConnection),
            4 => Some(ResetCode::PacketError),
            5 => Some(ResetCode::OptionError),
            6 => Some(ResetCode::MandatoryError),
            7 => Some(ResetCode::ConnectionRefused),
            8 => Some(ResetCode::BadServiceCode),
            9 => Some(ResetCode::TooBusy),
            10 => Some(ResetCode::BadInitCookie),
            11 => Some(ResetCode::AggressionPenalty),
            _ => None,
        }
    }

    /// The code's number, from 0 to 11, as `Kind::Reset` carries it.
    pub fn number(self) -> u8
        ensures value { result ≡ number_of_code self }
        ensures named { result < 12 }
    {
        match self {
            ResetCode::Unspecified => 0,
            ResetCode::Closed => 1,
            ResetCode::Aborted => 2,
            ResetCode::NoConnection => 3,
            ResetCode::PacketError => 4,
            ResetCode::OptionError => 5,
            ResetCode::MandatoryError => 6,
            ResetCode::ConnectionRefused => 7,
            ResetCode::BadServiceCode => 8,
            ResetCode::TooBusy => 9,
            ResetCode::BadInitCookie => 10,
            ResetCode::AggressionPenalty => 11,
        }
    }
}
