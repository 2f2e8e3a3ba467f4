//! The texts of the result of an event, and of the two ends at the end.
ghost use Rattle.std.specs.Prelude.{◌≡◌, ◌++◌, OnOk, slice_get};
ghost use Rattle.tool_jobs.specs.SeenText.{check_name, ecn_ending, ecn_event_line, ecn_seen_text, marked_name, vector_text};

use dccp_ecn::{Check, EcnSeen, EcnWorld};
use run_list::Marked;
use seq_circle::NoMemory;
use tool_text::{put, put_counted, put_hex_or_dash, put_named, put_number};

fn marked_name(answer: Marked) -> &'static [u8]
    ensures { result.now ≡ marked_name answer }
{
    match answer {
        Marked::New => b"new",
        Marked::Again => b"again",
        Marked::BelowFloor => b"below",
    }
}

fn check_name(told: Check) -> &'static [u8]
    ensures { result.now ≡ check_name told }
{
    match told {
        Check::Fits => b"fits",
        Check::Unfit => b"unfit",
        Check::Unknown => b"unknown",
    }
}

// Puts the report with this index, if there is one.
fn put_vector(text: &mut Vec<u8>, world: &EcnWorld, index: u64) -> Result<(), NoMemory>
    ensures { OnOk result (text.new.items ≡ text.old.items ++ vector_text (slice_get world.now.reports index)) }
{
    let Some((_, kind, bytes)) = world.report(index) else {
        return Ok(());
    };
    put_counted(text, b"vector ", u64::from(kind))?;
    put(text, b" ")?;
    put_hex_or_dash(text, bytes)?;
    Ok(())
}

// Puts the result of an event that left this world.
fn put_seen(text: &mut Vec<u8>, world: &EcnWorld, seen: EcnSeen) -> Result<(), NoMemory>
    ensures { OnOk result (text.new.items ≡ text.old.items ++ ecn_seen_text world.now seen) }
{
    match seen {
        EcnSeen::Sent => put(text, b"ok"),
        EcnSeen::Took(answer) => put(text, marked_name(answer)),
        EcnSeen::Reported(None) => put(text, b"nothing"),
        EcnSeen::Reported(Some(index)) => put_vector(text, world, index),
        EcnSeen::Checked(told) => put(text, check_name(told)),
    }
}

/// Puts the line of an event that took place (own): the number of its line, the line as it was read, and the result of
/// the event, which left this world. NoMemory means that the text could not grow.
pub(crate) fn put_event_line(
    text: &mut Vec<u8>,
    number: u64,
    line: &[u8],
    world: &EcnWorld,
    seen: EcnSeen,
) -> Result<(), NoMemory>
    ensures { OnOk result (text.new.items ≡ text.old.items ++ ecn_event_line number line.now world.now seen) }
{
    put_number(text, number)?;
    put_named(text, b" ", line)?;
    put(text, b": ")?;
    put_seen(text, world, seen)?;
    put(text, b"\n")?;
    Ok(())
}

/// Puts the last line (own): how many packets were sent, and how many reports kept. NoMemory means that the text could
/// not grow.
pub(crate) fn put_ending(text: &mut Vec<u8>, world: &EcnWorld) -> Result<(), NoMemory>
    ensures { OnOk result (text.new.items ≡ text.old.items ++ ecn_ending world.now) }
{
    put_counted(text, b"sent ", world.packet_count())?;
    put_counted(text, b" reports ", world.report_count())?;
    put(text, b"\n")?;
    Ok(())
}
