//! What is written of a capture is what `show` finds in it.
ghost use Rattle.std.specs.Prelude.{◌≡◌, ℕ, Bool, List, map, None, Ok};
ghost use Rattle.capture_reader.specs.Format.{opened};
ghost use Rattle.capture_reader.specs.Records.{RecordParts, captured};
ghost use Rattle.capture_reader.specs.declared.format.Format.{Format};
ghost use Rattle.packet_show.specs.Flows.{Flow};
ghost use Rattle.packet_show.specs.Lines.{shows};
ghost use Rattle.bridge_links.specs.Links.{IsPlainFrame, IsUnextended, ip_bytes};
ghost use Rattle.bridge_command.specs.Unwrapping.{records_among, unwrapped_entry, unwrapped_pieces};
ghost use Rattle.bridge_command.specs.Judging.{judged_ip, shown_of};
ghost use Rattle.bridge_command.specs.Telling.{all_told, first_telling, json_pieces};

/// If `show` takes a capture and it has no fault, each record that a reader of captures finds is written, in their
/// order, with the flows that were seen so far, and nothing else is written (own).
pub fn each_record_is_told()
    ensures { (payload : Bool) (input : List ℕ) (format : Format) → opened input ≡ Ok format → (captured input).end ≡ None
        → ((json_pieces payload input).refusal ≡ None) × ((json_pieces payload input).deeds ≡ all_told (first_telling payload) (captured input).records) }
{}

/// For any capture, classic or pcapng and with a fault or without, `unwrap` makes one record of each that is written,
/// in their order: its IP packet, or an empty one, at its time. And both refuse the same captures (own).
pub fn each_record_told_is_unwrapped()
    ensures { (payload : Bool) (input : List ℕ)
        → (records_among (unwrapped_pieces input).deeds ≡ map (λ t. unwrapped_entry t.entry) (json_pieces payload input).deeds)
        × ((unwrapped_pieces input).refusal ≡ (json_pieces payload input).refusal) }
{}

/// A record of raw IP, or of Ethernet without a VLAN tag, PPPoE and MPLS, is written as skipped exactly if `show` skips
/// it, except for packets with extension headers of IPv6, which `show` does not skip (own).
pub fn what_show_shows_is_told()
    ensures raw { (seen : List Flow) (e : RecordParts) → e.link ≡ 101 → IsUnextended e.link e.bytes
        → (shows seen e).shown ≡ shown_of (judged_ip (ip_bytes e.link e.bytes)) }
    ensures ethernet { (seen : List Flow) (e : RecordParts) → e.link ≡ 1 → IsPlainFrame e.bytes → IsUnextended e.link e.bytes
        → (shows seen e).shown ≡ shown_of (judged_ip (ip_bytes e.link e.bytes)) }
{}
