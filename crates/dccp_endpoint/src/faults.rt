//! What can be wrong with the options of a packet, and where they count (RFC 4340, sections 5.8 and 8.5, step 8).
ghost use Rattle.std.specs.Prelude.{◌≡◌, ◌&&◌, slice_index};
ghost use Rattle.dccp_options.specs.Left.{entry_of_option};
ghost use Rattle.dccp_endpoint.specs.Faults.{counts, mandatory_fault};
ghost use Rattle.dccp_endpoint.specs.Heeding.{fault_of};

use crate::Fault;
use dccp_options::Opt;
use dccp_options::kinds::MANDATORY;
use dccp_packets::{PacketType, ResetCode};
use dccp_states::Phase;

// A byte of an option's data, or 0 where it is absent.
fn byte_of(body: &[u8], place: usize) -> u8
    ensures { result ≡ slice_index body.now place }
{
    body.get(place).copied().unwrap_or(0)
}

/// A Reset Code with the option's type and the first two bytes of its data (RFC 4340, section 5.6).
pub(crate) fn fault_of(code: ResetCode, option: &Opt<'_>) -> Fault
    ensures { result ≡ fault_of code (entry_of_option option.now) }
{
    Fault {
        code: code.number(),
        first: option.kind,
        second: byte_of(option.body, 0),
        third: byte_of(option.body, 1),
    }
}

/// A fault of Mandatory itself.
pub(crate) fn mandatory_fault() -> Fault
    ensures { result ≡ mandatory_fault }
{
    Fault {
        code: ResetCode::OptionError.number(),
        first: MANDATORY,
        second: 0,
        third: 0,
    }
}

/// Whether options of the negotiation count on a packet of this type.
pub(crate) fn counts(phase: Phase, kind: PacketType) -> bool
    ensures { result ≡ counts phase kind }
{
    match phase {
        Phase::Request => matches!(kind, PacketType::Response),
        Phase::Respond | Phase::PartOpen | Phase::Open => !matches!(
            kind,
            PacketType::Data | PacketType::CloseReq | PacketType::Close | PacketType::Reset
        ),
        Phase::Closed | Phase::Listen | Phase::CloseReq | Phase::Closing | Phase::TimeWait => false,
    }
}

/// Whether the options of the negotiation are heeded: only on a newest packet, and if they count there.
pub(crate) fn heeds_negotiation(newest: bool, phase: Phase, kind: PacketType) -> bool
    ensures { result ≡ (newest && counts phase kind) }
{
    newest && counts(phase, kind)
}
