//! The phase after a packet, and the reply to it.
ghost use Rattle.std.specs.Prelude.{◌≡◌};
ghost use Rattle.dccp_states.specs.Phases.{after};

use crate::Phase;
use dccp_packets::PacketType;

/// What an end sends for a packet that it took, by its type alone.
#[derive(Clone, Copy, Debug, PartialEq, Eq)]
pub enum Reply {
    /// Nothing by this table; an Ack may still be due for other reasons.
    Nothing,
    /// A Response.
    Response,
    /// An Ack.
    Ack,
    /// A Close.
    Close,
    /// A Reset 1, Closed.
    ResetClosed,
    /// A SyncAck that acknowledges the packet's number.
    SyncAck,
    /// Nothing: the peer tore the connection down.
    Torn,
}

/// The phase after a packet that was taken, and the reply, by the type of the packet (RFC 4340, section 8.5, steps 9 to
/// 15). A type that the table does not name in a phase does not change the phase, and is not answered.
pub fn after(phase: Phase, kind: PacketType) -> (Phase, Reply)
    ensures { result ≡ after phase kind }
{
    match (phase, kind) {
        (_, PacketType::Reset) => (Phase::TimeWait, Reply::Torn),
        (Phase::Request, PacketType::Response) => (Phase::PartOpen, Reply::Ack),
        (Phase::Respond, PacketType::Request) => (Phase::Respond, Reply::Response),
        (Phase::Respond, PacketType::Ack | PacketType::DataAck | PacketType::SyncAck) => (
            Phase::Open,
            Reply::Ack,
        ),
        (Phase::Respond, PacketType::Sync) => (Phase::Open, Reply::SyncAck),
        (Phase::PartOpen, PacketType::Response) => (Phase::PartOpen, Reply::Ack),
        (
            Phase::PartOpen,
            PacketType::Data | PacketType::Ack | PacketType::DataAck | PacketType::SyncAck,
        ) => (Phase::Open, Reply::Nothing),
        (Phase::PartOpen, PacketType::Sync) => (Phase::PartOpen, Reply::SyncAck),
        (Phase::PartOpen | Phase::Open, PacketType::CloseReq) => (Phase::Closing, Reply::Close),
        (
            Phase::Respond | Phase::PartOpen | Phase::Open | Phase::CloseReq | Phase::Closing,
            PacketType::Close,
        ) => (Phase::Closed, Reply::ResetClosed),
        (Phase::Open | Phase::CloseReq | Phase::Closing, PacketType::Sync) => (
            phase,
            Reply::SyncAck,
        ),
        _ => (phase, Reply::Nothing),
    }
}
