//! The line of a refusal.
ghost use Rattle.std.specs.Prelude.{◌≡◌, ◌++◌, OnOk};
ghost use Rattle.tool_text.specs.Refusals.{refusal_line};
ghost use Rattle.tool_text.specs.Jobs.{too_long};

use crate::text::{put, put_counted, put_named};
use crate::words::{LineFault, LineWhy, line_why_name};
use seq_circle::NoMemory;

/// The fault of a line with a 4,097th byte, at that byte.
pub(crate) fn too_long() -> LineFault
    ensures { result ≡ too_long }
{
    LineFault {
        column: 4097,
        why: LineWhy::LineTooLong,
    }
}

/// A line that is refused (own): its number, from 1, and its first fault.
#[derive(Clone, Copy)]
pub struct LineRefusal {
    pub number: u64,
    pub fault: LineFault,
}

/// Puts the line of a refusal, under the number of the line that is refused. NoMemory means that the text could not
/// grow.
pub fn put_refusal(text: &mut Vec<u8>, number: u64, fault: LineFault) -> Result<(), NoMemory>
    ensures { OnOk result (text.new.items ≡ text.old.items ++ refusal_line number fault) }
{
    put_counted(text, b"line ", number)?;
    put_counted(text, b" column ", u64::from(fault.column))?;
    put_named(text, b": ", line_why_name(fault.why))?;
    put(text, b"\n")?;
    Ok(())
}
