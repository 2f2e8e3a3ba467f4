//! A packet's parts from its bytes, or why the bytes are refused.
//!
//! The refusals are laws on the grammar, and `decode` has one clause that its answer is the grammar's (`exact`).
//! Callers write `match decode(bytes) { .. }`: `decode(bytes)?` has no proof today, since the value of its Result holds
//! references beside a type with a model.
ghost use Rattle.std.specs.Prelude.{◌≡◌, ◌<◌, ◌≤◌, length, nat_lt, MatchResult, IfOk, IsTrue};
ghost use Rattle.dccp_packets.specs.Grammar.{decoded, is_valid, HeaderFits};

use crate::{Header, PacketType, fields};

/// A packet's parts. Options and payload are borrowed from the bytes that were decoded.
#[derive(Clone, Copy, Debug, PartialEq, Eq)]
pub struct Packet<'a> {
    /// The header, all of whose fields are in the fixed part.
    pub header: Header,
    /// The option area, up to the Data Offset (RFC 4340, section 5.8).
    pub options: &'a [u8],
    /// The application data, to the packet's end.
    pub payload: &'a [u8],
}

/// Why bytes are no packet. If several causes hold, the answer is the first of them in this order.
#[derive(Clone, Copy, Debug, PartialEq, Eq)]
pub enum Malformed {
    /// Fewer than 12 bytes, the shortest generic header (RFC 4340, section 5.1).
    Short,
    /// The type is 10 to 15 (RFC 4340, section 5.1).
    ReservedType,
    /// The Data Offset ends before the fixed part of the type does (RFC 4340, section 5.1).
    OffsetSmall,
    /// The Data Offset is greater than the number of bytes (RFC 4340, section 5.1).
    OffsetLarge,
    /// Short numbers on a type other than Data, Ack and DataAck (RFC 4340, section 5.1).
    ShortNumbers,
}

// The generic header with a short number.
const SHORTEST: usize = 12;

// Whether the Data Offset ends before the fixed part does: a separate function, so that an edit of it can be tried
// without the whole decoder.
fn ends_before(offset: usize, fixed: usize) -> bool
    ensures { result ≡ nat_lt offset fixed }
{
    offset < fixed
}

/// Reads `bytes` as a packet, which borrows them, or answers the first cause in the order of `Malformed` (RFC 4340,
/// section 5). Reserved bits are ignored. The checksum and the options are not checked.
pub fn decode(bytes: &[u8]) -> Result<Packet<'_>, Malformed>
    ensures exact { MatchResult result
        (λ p. decoded bytes.now ≡ Ok (record { header = p.header; options = p.options.now; payload = p.payload.now }))
        (λ e. decoded bytes.now ≡ Err e) }
    ensures valid { IfOk result (λ p. IsTrue (is_valid p.header)) }
    ensures fits { IfOk result (λ p. HeaderFits p.header) }
    ensures options_fit { IfOk result (λ p. length p.options.now ≤ 1008) }
{
    if bytes.len() < SHORTEST {
        return Err(Malformed::Short);
    }
    let Some(packet_type) = PacketType::of(fields::type_code(bytes)) else {
        return Err(Malformed::ReservedType);
    };
    let long = fields::has_long_numbers(bytes);
    let fixed = packet_type.fixed_length(long);
    let offset = fields::data_offset_bytes(bytes);
    if ends_before(offset, fixed) {
        return Err(Malformed::OffsetSmall);
    }
    if bytes.len() < offset {
        return Err(Malformed::OffsetLarge);
    }
    if !packet_type.has_form(long) {
        return Err(Malformed::ShortNumbers);
    }
    Ok(Packet {
        header: fields::header(packet_type, long, bytes),
        options: &bytes[fixed..offset],
        payload: &bytes[offset..],
    })
}
