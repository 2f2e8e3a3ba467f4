//! Why a line is not accepted.
ghost use Rattle.std.specs.Prelude.{◌≡◌};

use crate::words::LineFault;
use seq_circle::NoMemory;

/// Why a job does not accept a line (own).
#[derive(Clone, Copy)]
pub enum LineError {
    /// The line is refused for this fault.
    Refused(LineFault),
    /// No memory was left.
    NoMemory,
}

impl From<LineFault> for LineError {
    ghost use Rattle.std.specs.Prelude.{◌≡◌};
    ghost use Rattle.tool_text.specs.declared.lines.error.LineError.TheVariants as line_error;

    ghost from_gives = { λ fault error. error ≡ line_error.Refused fault };

    fn from(fault: LineFault) -> LineError {
        LineError::Refused(fault)
    }
}

impl From<NoMemory> for LineError {
    ghost use Rattle.std.specs.Prelude.{◌≡◌};
    ghost use Rattle.tool_text.specs.declared.lines.error.LineError.TheVariants as line_error;

    ghost from_gives = { λ none error. error ≡ line_error.NoMemory };

    fn from(_: NoMemory) -> LineError {
        LineError::NoMemory
    }
}
