//! Names that occur in more than one of the tool's texts.
ghost use Rattle.std.specs.Prelude.{◌≡◌};
ghost use Rattle.tool_text.specs.Names.{malformed_name};

use dccp_packets::Malformed;

/// Why bytes are no packet, as a word (own).
pub fn malformed_name(fault: Malformed) -> &'static [u8]
    ensures { result.now ≡ malformed_name fault }
{
    match fault {
        Malformed::Short => b"Short",
        Malformed::ReservedType => b"ReservedType",
        Malformed::OffsetSmall => b"OffsetSmall",
        Malformed::OffsetLarge => b"OffsetLarge",
        Malformed::ShortNumbers => b"ShortNumbers",
    }
}
