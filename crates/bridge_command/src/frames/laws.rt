//! What the definition of `frames` says.
ghost use Rattle.std.specs.List.{list_all};
ghost use Rattle.std.specs.Prelude.{◌≡◌, ◌++◌, All, ◌%◌, ◌^◌, ◌<◌, ◌≤◌, ℕ, List, IsTrue, None, Ok, Some, codes, length, take, true};
ghost use Rattle.hex.specs.Hex.{IsBytes};
ghost use Rattle.dccp_packets.specs.Grammar.{HeaderFits, Parts, decoded, is_valid, padded};
ghost use Rattle.schedule_text.specs.Frames.{read_frame};
ghost use Rattle.seq_circle.specs.Circle.{distance};
ghost use Rattle.world_events.specs.declared.event.Side.{Side};
ghost use Rattle.tool_text.specs.Lines.{is_text};
ghost use Rattle.bridge_command.specs.Framing.{IsReadBack, frames_pieces};
ghost use Rattle.bridge_command.specs.FrameLines.{comment_line, no_frame_words, sealed_words};
ghost use Rattle.bridge_command.specs.Mapping.{moved_ack, moved_frame, moved_header, usual_end};
ghost use Rattle.bridge_command.specs.declared.frames.mapping.NoFrame.{NoFrame};

/// For any input of bytes, `replay` reads both lines of each packet that `frames` writes. The first, the line of
/// `show`, means nothing; the second is the packet's frame, whose checksum is to be set, or means nothing if it has
/// none (own).
pub fn each_packet_reads_back()
    ensures { (flow : ℕ) (side : Side) (input : List ℕ) → IsBytes input → All IsReadBack (frames_pieces flow side input).deeds }
{}

/// A frame's words are read by `replay` as that frame, whose checksum is to be set. The comment on a packet without a
/// frame, and the comment with a line of `show`, whose bytes are text, are read as lines that mean nothing (own).
pub fn lines_read_back()
    ensures frame { (bytes : List ℕ) → IsBytes bytes → 8 ≤ length bytes → length bytes ≤ 2044
        → read_frame (sealed_words bytes) ≡ Ok (Some (record { seal = true; bytes = bytes })) }
    ensures none { (why : NoFrame) → read_frame (no_frame_words why) ≡ Ok None }
    ensures comment { (front : List ℕ)
        → comment_line (front ++ codes "\n") ≡ take 4096 (codes "# " ++ front) ++ codes "\n" }
    ensures nothing { (front : List ℕ) → list_all is_text front ≡ true
        → read_frame (take 4096 (codes "# " ++ front)) ≡ Ok None }
{}

/// A frame is the captured packet with the usual end's ports and Service Code, and with its acknowledgement number
/// moved: it decodes to these fields, and to the same sequence number, options and data (RFC 4340, section 5). It has
/// 12 to 2,044 bytes.
pub fn a_frame_is_its_packet()
    ensures packet { (side : Side) (initial : ℕ) (packet : Parts) (bytes : List ℕ) → HeaderFits packet.header
        → IsTrue (is_valid packet.header)
        → moved_frame (usual_end side) initial packet ≡ Ok bytes
        → decoded bytes ≡ Ok (record { header = moved_header (usual_end side) initial packet.header; options = padded packet.options; payload = packet.payload }) }
    ensures size { (side : Side) (initial : ℕ) (packet : Parts) (bytes : List ℕ) → HeaderFits packet.header
        → IsTrue (is_valid packet.header)
        → moved_frame (usual_end side) initial packet ≡ Ok bytes → (12 ≤ length bytes) × (length bytes ≤ 2044) }
{}

/// A frame acknowledges a number as far above the usual end's initial number as the captured packet acknowledged one
/// above that of the captured end (`long`), and the short form of a number is moved as the number is (`short`; RFC
/// 4340, sections 3.1 and 7.6).
pub fn acknowledgements_keep_their_distance()
    ensures long { (side : Side) (initial ack : ℕ) → initial < 2 ^ 48 → ack < 2 ^ 48
        → distance (usual_end side).iss (moved_ack (usual_end side) initial ack) ≡ distance initial ack }
    ensures short { (side : Side) (initial ack : ℕ) → initial < 2 ^ 48 → ack < 2 ^ 48
        → moved_ack (usual_end side) initial (ack % 2 ^ 24) % 2 ^ 24 ≡ moved_ack (usual_end side) initial ack % 2 ^ 24 }
{}
