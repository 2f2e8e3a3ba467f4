//! Laws above the definitions.
ghost use Rattle.std.specs.Prelude.{◌≡◌, ◌↔◌, ℕ, List, Option, Some, Ok, Err};
ghost use Rattle.world_events.specs.declared.event.Event.{Event};
ghost use Rattle.schedule_text.specs.declared.line.FrameLine.{FrameLine};
ghost use Rattle.schedule_text.specs.declared.line.Line.{Line};
ghost use Rattle.schedule_text.specs.declared.line.Line.TheVariants as line;
ghost use Rattle.tool_text.specs.declared.words.faults.LineFault.{LineFault};
ghost use Rattle.schedule_text.specs.Faults.{line_fault};
ghost use Rattle.schedule_text.specs.Forms.{IsFrameLine, IsLine};
ghost use Rattle.schedule_text.specs.Frames.{read_frame, frame_fault};
ghost use Rattle.schedule_text.specs.Printing.{event_text};
ghost use Rattle.schedule_text.specs.Range.{IsPrintable};
ghost use Rattle.schedule_text.specs.Reading.{read_line};

/// What is printed for an event is read as that event, as long as one line has room for it: an index below 2^47, one to
/// nine values below 2^48, at most 2,042 bytes of data. Early data are excluded, since no line has them (own).
pub fn printed_events_are_read()
    ensures { (event : Event) → IsPrintable event → read_line (event_text event) ≡ Ok (line.Event event) }
{}

/// A line is accepted exactly if it is the words of what it says: an empty line or a comment of text that is not too
/// long; or a form's words, separated by one space, with numbers in decimal in their ranges, a list or an offer that an
/// end may have, and the digits of data in either case (own).
pub fn lines_are_their_forms()
    ensures { (text : List ℕ) (said : Line) → (read_line text ≡ Ok said) ↔ IsLine text said }
{}

/// A line is refused exactly for its first fault in the order of `LineWhy`, at that fault's column: the table of forms
/// says what each word is judged for (own).
pub fn the_first_fault_is_answered()
    ensures { (text : List ℕ) (fault : LineFault) → (read_line text ≡ Err fault) ↔ (line_fault text ≡ Some fault) }
{}

/// A line of a replay is accepted exactly if it is the words of its frame: the digits of 1 to 2,044 bytes in either
/// case, and `seal` before them if the checksum is to be set, and then of at least 8 bytes. It has no frame exactly if
/// it is an empty line or a comment of text that is not too long (own).
pub fn frames_are_their_forms()
    ensures { (text : List ℕ) (said : Option FrameLine) → (read_frame text ≡ Ok said) ↔ IsFrameLine text said }
{}

/// A line of a replay is refused exactly for its first fault, at that fault's column (own).
pub fn the_first_fault_of_a_frame_is_answered()
    ensures { (text : List ℕ) (fault : LineFault) → (read_frame text ≡ Err fault) ↔ (frame_fault text ≡ Some fault) }
{}
