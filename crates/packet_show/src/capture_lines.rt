//! The last line that `show` writes. It is written separately, after all others, so that none of them is lost if memory
//! for it runs out.
ghost use Rattle.std.specs.Prelude.{◌≡◌, ◌++◌, OnOk};
ghost use Rattle.packet_show.specs.CaptureText.{CountsFit, fault_name, counts_line, fault_line, last_line};

use crate::show::Tally;
use capture_reader::CaptureFault;
use seq_circle::NoMemory;
use tool_text::{put, put_counted, put_named};

fn fault_name(fault: CaptureFault) -> &'static [u8]
    ensures { result.now ≡ fault_name fault }
{
    match fault {
        CaptureFault::BadMagic => b"BadMagic",
        CaptureFault::BadVersion => b"BadVersion",
        CaptureFault::BadLink => b"BadLink",
        CaptureFault::CutShort => b"CutShort",
        CaptureFault::RecordTooLong => b"RecordTooLong",
        CaptureFault::ReadFault => b"ReadFault",
        CaptureFault::NoMemory => b"NoMemory",
        CaptureFault::TooLarge => b"TooLarge",
    }
}

fn put_counts(text: &mut Vec<u8>, tally: &Tally) -> Result<(), NoMemory>
    requires { CountsFit tally.now }
    ensures { OnOk result (text.new.items ≡ text.old.items ++ counts_line tally.now) }
{
    put_counted(text, b"records ", tally.shown + tally.skipped)?;
    put_counted(text, b" shown ", tally.shown)?;
    put_counted(text, b" skipped ", tally.skipped)?;
    put_counted(text, b" flows ", tally.flows.count())?;
    put(text, b"\n")
}

fn put_fault(text: &mut Vec<u8>, tally: &Tally, fault: CaptureFault) -> Result<(), NoMemory>
    requires { CountsFit tally.now }
    ensures { OnOk result (text.new.items ≡ text.old.items ++ fault_line tally.now fault) }
{
    put_named(text, b"capture ", fault_name(fault))?;
    put(text, b" after ")?;
    put_counted(text, b"record ", tally.shown + tally.skipped)?;
    put(text, b"\n")?;
    Ok(())
}

/// Puts the line after a capture's records: how many there were, or the fault that ended them.
pub(crate) fn put_last_line(
    text: &mut Vec<u8>,
    tally: &Tally,
    end: Option<CaptureFault>,
) -> Result<(), NoMemory>
    requires { CountsFit tally.now }
    ensures { OnOk result (text.new.items ≡ text.old.items ++ last_line tally.now end) }
{
    match end {
        None => put_counts(text, tally),
        Some(fault) => put_fault(text, tally, fault),
    }
}
