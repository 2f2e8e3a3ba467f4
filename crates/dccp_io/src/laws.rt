//! What the definition of lines says about whole inputs.
ghost use Rattle.std.specs.Prelude.{◌≡◌, ℕ, ◌<◌, List, ◌∷◌, length, drop};
ghost use Rattle.dccp_io.specs.Lines.{lines_of, first_line, next_in_bytes, next_in_lines};

/// The lines of an input are its first line, and then the lines of what is after it.
pub fn lines_follow_one_another()
    ensures { (bytes : List ℕ) → 0 < length bytes
        → lines_of bytes ≡ first_line bytes ∷ lines_of (drop (length (first_line bytes)) bytes) }
{}

/// The first of the lines that are left decides what comes next: the end if there is none, too much if that line does
/// not end in time, too long if it has a 4,097th byte, and otherwise that line.
pub fn the_first_line_stands_next()
    ensures { (given : ℕ) (bytes : List ℕ) → next_in_bytes given bytes ≡ next_in_lines given (lines_of bytes) }
{}
