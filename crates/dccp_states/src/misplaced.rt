//! The packet types that are out of place.
ghost use Rattle.std.specs.Prelude.{◌≡◌};
ghost use Rattle.dccp_states.specs.Unexpected.{is_for_the_other_role, is_open_or_later, is_opening_type, is_early_data, unexpected};

use crate::{Phase, Role};
use dccp_packets::PacketType;

// Whether only the peer's role gets packets of this type.
fn is_for_the_other_role(role: Role, kind: PacketType) -> bool
    ensures { result ≡ is_for_the_other_role role kind }
{
    match role {
        Role::Server => matches!(kind, PacketType::CloseReq | PacketType::Response),
        Role::Client => kind == PacketType::Request,
    }
}

// Whether the phase is OPEN or comes after it (RFC 4340, section 4.3). TIMEWAIT does, in the standard's order of
// states, although no packet in TIMEWAIT gets as far as this test.
fn is_open_or_later(phase: Phase) -> bool
    ensures { result ≡ is_open_or_later phase }
{
    match phase {
        Phase::Closed | Phase::Listen | Phase::Request | Phase::Respond | Phase::PartOpen => false,
        Phase::Open | Phase::CloseReq | Phase::Closing | Phase::TimeWait => true,
    }
}

// Whether packets of this type open a connection.
fn is_opening_type(kind: PacketType) -> bool
    ensures { result ≡ is_opening_type kind }
{
    matches!(kind, PacketType::Request | PacketType::Response)
}

/// Whether a valid packet is out of place, so that a Sync answers it (RFC 4340, section 8.5, step 7). It is if a server
/// gets a CloseReq or a Response, if a client gets a Request, if Data comes in RESPOND, or if in OPEN or later a
/// Request or Response comes whose number is not before the first of the open connection (`from_osr`).
pub fn unexpected(role: Role, phase: Phase, kind: PacketType, from_osr: bool) -> bool
    ensures { result ≡ unexpected role phase kind from_osr }
{
    is_for_the_other_role(role, kind)
        || (is_open_or_later(phase) && is_opening_type(kind) && from_osr)
        || matches!((phase, kind), (Phase::Respond, PacketType::Data))
}
