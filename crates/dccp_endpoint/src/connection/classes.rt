//! Classes of phases and of packet types that the steps of an end distinguish (RFC 4340, sections 8.1 and 8.5).
ghost use Rattle.std.specs.Prelude.{◌≡◌};
ghost use Rattle.dccp_endpoint.specs.End.{is_connected, is_live, is_open};
ghost use Rattle.dccp_endpoint.specs.Reporting.{carries_data, is_acking};

use dccp_packets::PacketType;
use dccp_states::Phase;

// The phase is OPEN.
pub(crate) fn is_open(phase: Phase) -> bool
    ensures { result ≡ is_open phase }
{
    matches!(phase, Phase::Open)
}

// The phases in which a first number was received.
pub(crate) fn is_live(phase: Phase) -> bool
    ensures { result ≡ is_live phase }
{
    matches!(
        phase,
        Phase::Respond | Phase::PartOpen | Phase::Open | Phase::CloseReq | Phase::Closing
    )
}

// PARTOPEN and OPEN: this end has done its part of the handshake.
pub(super) fn is_connected(phase: Phase) -> bool
    ensures { result ≡ is_connected phase }
{
    matches!(phase, Phase::PartOpen | Phase::Open)
}

// Ack and DataAck.
pub(super) fn is_acking(kind: PacketType) -> bool
    ensures { result ≡ is_acking kind }
{
    matches!(kind, PacketType::Ack | PacketType::DataAck)
}

// Data and DataAck.
pub(super) fn carries_data(kind: PacketType) -> bool
    ensures { result ≡ carries_data kind }
{
    matches!(kind, PacketType::Data | PacketType::DataAck)
}
