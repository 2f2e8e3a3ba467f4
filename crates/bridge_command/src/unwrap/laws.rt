//! What the definition of unwrapping says of captures that `show` takes.
ghost use Rattle.std.specs.Prelude.{◌≡◌, ℕ, List, None, Ok};
ghost use Rattle.capture_reader.specs.Format.{opened};
ghost use Rattle.capture_reader.specs.Records.{captured};
ghost use Rattle.capture_reader.specs.declared.format.Format.{Format};
ghost use Rattle.packet_show.specs.Network.{carried};
ghost use Rattle.bridge_links.specs.Links.{IsPlainFrame, IsUnextended, ip_bytes};
ghost use Rattle.bridge_command.specs.Unwrapping.{unwrapped_parts, unwrapped_pieces};

/// If `show` takes a capture, Ethernet or raw IP, and it has no fault, each record that a reader of captures finds is
/// unwrapped, in their order, and nothing else is written (own).
pub fn each_record_is_unwrapped()
    ensures { (input : List ℕ) (format : Format) → opened input ≡ Ok format → (captured input).end ≡ None
        → ((unwrapped_pieces input).refusal ≡ None) × ((unwrapped_pieces input).deeds ≡ unwrapped_parts format.nanos (captured input).records) }
{}

/// What `show` finds in a record of raw IP, or of Ethernet without a VLAN tag, PPPoE and MPLS, it finds in the record
/// that is made of it; and nothing else, except for what comes after extension headers of IPv6, which `show` does not
/// skip (own).
pub fn what_show_shows_stays()
    ensures raw { (bytes : List ℕ) → IsUnextended 101 bytes → carried 101 (ip_bytes 101 bytes) ≡ carried 101 bytes }
    ensures ethernet { (bytes : List ℕ) → IsPlainFrame bytes → IsUnextended 1 bytes → carried 101 (ip_bytes 1 bytes) ≡ carried 1 bytes }
{}
