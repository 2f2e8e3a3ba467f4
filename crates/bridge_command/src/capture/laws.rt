//! What the definition of a capture of frames says.
ghost use Rattle.std.specs.Prelude.{◌≡◌, ℕ, ◌≤◌, ◌^◌, List, All, length, map, None, Some, false};
ghost use Rattle.capture_reader.specs.Records.{captured};
ghost use Rattle.bridge_records.specs.Writing.{capture_of, raw_entries};
ghost use Rattle.dccp_endpoint.specs.Usual.{to_client, to_server};
ghost use Rattle.packet_show.specs.Network.{carried};
ghost use Rattle.world_events.specs.declared.event.Side.TheVariants.{Client, Server};
ghost use Rattle.bridge_command.specs.Capturing.{frames_capture, transcript_gone};
ghost use Rattle.bridge_command.specs.FrameReading.{FitsFrame, travels, whole_frame};
ghost use Rattle.bridge_command.specs.FrameRecords.{TimedFrame, frame_record, ip_packet, travel_of};

/// The capture that is made of a transcript, refused or not, is that of the records of its frames. If these have no
/// more bytes than a reader of captures takes, it finds them, in their order, whole and with their times, and nothing
/// else (the savefile format of libpcap).
pub fn a_capture_has_each_frame()
    ensures made { (input : List ℕ)
        → frames_capture input ≡ capture_of false (map frame_record (transcript_gone input).deeds) }
    ensures fits { (input : List ℕ) → All FitsFrame (transcript_gone input).deeds }
    ensures read { (input : List ℕ) → length (frames_capture input) ≤ 2 ^ 32
        → captured (frames_capture input) ≡ record { records = raw_entries false 0 (map frame_record (transcript_gone input).deeds); end = None } }
{}

/// A record's bytes are an IPv4 packet that carries the frame whole, between the addresses of its way (RFC 791, section
/// 3.1). So `show` writes for each record the packet that the frame decodes to, and the verdict on its checksum.
pub fn a_frame_stands_in_its_record()
    ensures { (f : TimedFrame) → length f.frame ≤ 2044 → carried 101 (ip_packet f.travel f.frame) ≡ Some (whole_frame f) }
{}

/// The addresses are those of the usual ends, which the checksums of their frames count.
pub fn addresses_are_the_usual_ones()
    ensures client { travels (travel_of Client) ≡ to_server }
    ensures server { travels (travel_of Server) ≡ to_client }
{}
