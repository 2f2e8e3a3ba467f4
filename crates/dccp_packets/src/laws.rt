//! What is true of the grammar itself.
ghost use Rattle.std.specs.Prelude.{◌≡◌, ℕ, ◌+◌, ◌^◌, ◌<◌, ◌≤◌, ◌↔◌, Bool, true, false, not, List, length, IsTrue};
ghost use Rattle.seq_circle.specs.Circle.{is_far, is_ack_far};
ghost use Rattle.dccp_packets.specs.declared.header.Header.{Header};
ghost use Rattle.dccp_packets.specs.declared.header.Kind.{Kind};
ghost use Rattle.dccp_packets.specs.declared.header.PacketType.{PacketType};
ghost use Rattle.dccp_packets.specs.Forms.{may_be_short, near, ack_near, number_in_form, in_form};
ghost use Rattle.dccp_packets.specs.Grammar.{type_code, type_of, data_offset_bytes, fixed_length, has_long_numbers, has_form, decoded, spelling, padded, header_length, is_valid, has_forms, packet_type, is_long, HeaderFits, KindFits};
ghost use Rattle.dccp_packets.specs.Kinds.{ack_of};
ghost use Rattle.dccp_packets.specs.Table.{IsPacket, AreBytes, HasZeros};
ghost use Rattle.dccp_packets.specs.Widths.{in_widths, HasDetail};

use crate::Malformed;

/// What is spelled is read again: the header, the options filled with zeros up to four bytes, and the data, for every
/// type and form of numbers (RFC 4340, section 5).
pub fn what_is_spelled_is_read()
    ensures { (h : Header) (options payload : List ℕ) → HeaderFits h → IsTrue (is_valid h)
        → header_length h + length (padded options) ≤ 1020
        → decoded (spelling h options payload) ≡ Ok (record { header = h; options = padded options; payload = payload }) }
{}

/// What is written is read again even if numbers are too large for their fields: each is cut to the width of its field
/// (`read`), which does not change a header whose fields fit (`kept`). So a proof that needs only the type, the options
/// or the data, or numbers that are below 2^48 anyway, needs no premise on the other fields (RFC 4340, section 5; the
/// widths of section 5.1).
pub fn what_is_spelled_is_read_in_widths()
    ensures read { (h : Header) (options payload : List ℕ) → HasDetail h.kind → IsTrue (is_valid h)
        → header_length h + length (padded options) ≤ 1020
        → decoded (spelling h options payload) ≡ Ok (record { header = in_widths h; options = padded options; payload = payload }) }
    ensures kept { (h : Header) → HeaderFits h → in_widths h ≡ h }
{}

/// Reading finds exactly the packets of the table of RFC 4340, section 5: what is read is in it, and what is in it is
/// read.
pub fn what_is_read_is_the_table()
    ensures sound { (h : Header) (options payload bytes : List ℕ)
        → decoded bytes ≡ Ok (record { header = h; options = options; payload = payload }) → IsPacket h options payload bytes }
    ensures complete { (h : Header) (options payload bytes : List ℕ)
        → IsPacket h options payload bytes → decoded bytes ≡ Ok (record { header = h; options = options; payload = payload }) }
{}

/// Each fault is answered exactly if it holds and none before it does, in the order of `Malformed`.
pub fn the_first_fault_is_answered()
    ensures short { (bytes : List ℕ) → (decoded bytes ≡ Err Malformed.Short) ↔ (length bytes < 12) }
    ensures reserved_type { (bytes : List ℕ) → 12 ≤ length bytes
        → (decoded bytes ≡ Err Malformed.ReservedType) ↔ (10 ≤ type_code bytes) }
    ensures offset_small { (bytes : List ℕ) (kind : PacketType) → 12 ≤ length bytes
        → type_of (type_code bytes) ≡ Some kind
        → (decoded bytes ≡ Err Malformed.OffsetSmall) ↔ (data_offset_bytes bytes < fixed_length (has_long_numbers bytes) kind) }
    ensures offset_large { (bytes : List ℕ) (kind : PacketType) → 12 ≤ length bytes
        → type_of (type_code bytes) ≡ Some kind
        → fixed_length (has_long_numbers bytes) kind ≤ data_offset_bytes bytes
        → (decoded bytes ≡ Err Malformed.OffsetLarge) ↔ (length bytes < data_offset_bytes bytes) }
    ensures short_numbers { (bytes : List ℕ) (kind : PacketType) → 12 ≤ length bytes
        → type_of (type_code bytes) ≡ Some kind
        → fixed_length (has_long_numbers bytes) kind ≤ data_offset_bytes bytes → data_offset_bytes bytes ≤ length bytes
        → (decoded bytes ≡ Err Malformed.ShortNumbers) ↔ (has_form (has_long_numbers bytes) kind ≡ false) }
{}

/// Exactly one spelling of a packet has all reserved bits zero, and it is the one that `encode` writes (RFC 4340,
/// section 5).
pub fn one_spelling_has_no_reserved_bit()
    ensures { (h : Header) (options payload bytes : List ℕ) → IsPacket h options payload bytes → AreBytes bytes
        → HasZeros h bytes
        → bytes ≡ spelling h options payload }
{}

/// A number that is put into a form is read again in full: in the long form always, and in the short one from a
/// reference that is not far from it (`number`). So is the acknowledgement number of a packet whose type may have the
/// form (`ack`); its numbers are then both in this form (`form`; RFC 4340, sections 5.1 and 7.6).
pub fn numbers_in_a_form_are_read_in_full()
    ensures number { (short : Bool) (n reference : ℕ) → n < 2 ^ 48 → reference < 2 ^ 48
        → (short ≡ true → is_far n reference ≡ false)
        → near reference (number_in_form short n) ≡ n }
    ensures ack { (short : Bool) (k : Kind) (reference : ℕ) → KindFits k → has_forms true k ≡ true → reference < 2 ^ 48
        → (short ≡ true → is_ack_far (ack_of k) reference ≡ false) → ack_near reference (in_form short k) ≡ ack_of k }
    ensures form { (short : Bool) (k : Kind) (n : ℕ) → has_forms true k ≡ true
        → (short ≡ true → may_be_short (packet_type k) ≡ true)
        → (is_long (number_in_form short n) ≡ not short) × (has_forms (not short) (in_form short k) ≡ true) }
{}
