//! What a caller can rely on for the tables of packets and of lines, and for the window of CCID 2.
ghost use Rattle.std.specs.Prelude.{◌≡◌, ◌⊎◌, ◌↔◌, ◌≤◌, ℕ, List, Ok};
ghost use Rattle.ccid_two.specs.Window.{ccid_control, first_state};
ghost use Rattle.congestion_trait.specs.Calls.{Call, run};
ghost use Rattle.dccp_packets.specs.Grammar.{decoded};
ghost use Rattle.dccp_packets.specs.Table.{IsPacket};
ghost use Rattle.dccp_packets.specs.declared.header.Header.{Header};
ghost use Rattle.schedule_text.specs.Forms.{IsLine};
ghost use Rattle.schedule_text.specs.declared.line.Line.{Line};
ghost use Rattle.tool_text.specs.declared.words.faults.LineFault.{LineFault};
ghost use Rattle.schedule_text.specs.Faults.{line_fault};
ghost use Rattle.std.specs.Prelude.{Some};

use ccid_two::window_stays_in_range;
use dccp_packets::what_is_read_is_the_table;
use schedule_text::{lines_are_their_forms, the_first_fault_is_answered};

/// Bytes are a packet exactly if the table says so, by one row of it: no bytes are two packets (`exact`, `one`).
pub fn bytes_are_a_packet_by_the_table()
    ensures exact { (header : Header) (options payload bytes : List ℕ)
        → (decoded bytes ≡ Ok (record { header = header; options = options; payload = payload })) ↔ IsPacket header options payload bytes }
    ensures one { (one other : Header) (options payload others_options others_payload bytes : List ℕ) → IsPacket one options payload bytes
        → IsPacket other others_options others_payload bytes → (one ≡ other) × ((options ≡ others_options) × (payload ≡ others_payload)) }
{
    what_is_read_is_the_table();
}

/// A line is the words of what it says, or it has a first fault, and never both (`either`, `apart`). No line says two
/// things (`one`).
pub fn a_line_says_one_thing_or_has_a_fault()
    ensures either { (text : List ℕ) → ((said : Line) × IsLine text said) ⊎ ((fault : LineFault) × (line_fault text ≡ Some fault)) }
    ensures apart { (text : List ℕ) (said : Line) (fault : LineFault) → IsLine text said → line_fault text ≡ Some fault → ⊥ }
    ensures one { (text : List ℕ) (one other : Line) → IsLine text one → IsLine text other → one ≡ other }
{
    lines_are_their_forms();
    the_first_fault_is_answered();
}

/// After any sends, reports and timeouts, in any order, from 1 to 1,024 packets of CCID 2 may be in flight.
pub fn ccid_two_has_one_to_1024_packets_in_flight()
    ensures { (calls : List Call) → (1 ≤ (run ccid_control first_state calls).window) × ((run ccid_control first_state calls).window ≤ 1024) }
{
    window_stays_in_range();
}
