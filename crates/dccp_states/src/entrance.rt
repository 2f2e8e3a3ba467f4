//! What a packet's type means before its numbers are looked at.
ghost use Rattle.std.specs.Prelude.{◌≡◌};
ghost use Rattle.dccp_states.specs.Entrance.{gate};

use crate::Phase;
use dccp_packets::PacketType;

/// What an end does with a packet of some type in its phase, before it judges the numbers.
#[derive(Clone, Copy, Debug, PartialEq, Eq)]
pub enum Entrance {
    /// There is no connection that the packet belongs to: it gets a Reset 3, No Connection.
    NoConnection,
    /// A Reset that belongs to no connection: it is dropped.
    Stray,
    /// A Request that may open a connection.
    Accept,
    /// A packet that may answer the client's Request: its acknowledgement number is judged.
    InRequest,
    /// A packet that cannot answer a Request: it gets a Reset 4, Packet Error.
    PacketError,
    /// The packet's numbers are judged by the windows.
    Check,
}

/// The entrance of a packet by its type, in each phase (RFC 4340, section 8.5, steps 2 to 4). In CLOSED and TIMEWAIT a
/// Reset is stray and all else has no connection; in LISTEN a Request may open; in REQUEST a Response or a Reset is
/// expected, and all else an error. In every other phase the numbers decide.
pub fn gate(phase: Phase, kind: PacketType) -> Entrance
    ensures { result ≡ gate phase kind }
{
    match (phase, kind) {
        (Phase::Closed | Phase::TimeWait, PacketType::Reset) => Entrance::Stray,
        (Phase::Closed | Phase::TimeWait, _) => Entrance::NoConnection,
        (Phase::Listen, PacketType::Reset) => Entrance::Stray,
        (Phase::Listen, PacketType::Request) => Entrance::Accept,
        (Phase::Listen, _) => Entrance::NoConnection,
        (Phase::Request, PacketType::Response | PacketType::Reset) => Entrance::InRequest,
        (Phase::Request, _) => Entrance::PacketError,
        (Phase::Respond | Phase::PartOpen | Phase::Open | Phase::CloseReq | Phase::Closing, _) =>
            Entrance::Check,
    }
}
