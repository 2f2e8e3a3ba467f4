//! What whole lines say.
ghost use Rattle.std.specs.Prelude.{◌≡◌, ◌↔◌, ℕ, List, Some, Ok, Err};
ghost use Rattle.dccp_ecn.specs.declared.event.EcnEvent.{EcnEvent};
ghost use Rattle.tool_text.specs.declared.words.faults.LineFault.{LineFault};
ghost use Rattle.tool_text.specs.Lines.{IsSpokenLine, first_fault};
ghost use Rattle.tool_jobs.specs.Forms.{ecn_row, read_ecn_line};

/// A line is accepted as an event exactly if it is the form's words, separated by one space, with a nonce of 0 or 1, or
/// with an index below 2^47 in decimal (own).
pub fn ecn_lines_are_their_forms()
    ensures { (text : List ℕ) (event : EcnEvent)
        → (read_ecn_line text ≡ Ok (Some event)) ↔ IsSpokenLine ecn_row text event }
{}

/// A line is refused exactly for its first fault, at that fault's column: its length, a byte that is no text, and then
/// its words from the left (own).
pub fn the_first_fault_of_an_ecn_line_is_answered()
    ensures { (text : List ℕ) (fault : LineFault)
        → (read_ecn_line text ≡ Err fault) ↔ (first_fault ecn_row text ≡ Some fault) }
{}
