//! The lines of frames that were sent, and of ends.
ghost use Rattle.std.specs.Prelude.{◌≡◌, ◌++◌, codes, OnOk};
ghost use Rattle.schedule_text.specs.Printing.{side_letter};
ghost use Rattle.tool_jobs.specs.Text.{phase_name, stand_mark};
ghost use Rattle.tool_jobs.specs.EndLines.{bytes_line, held_text, row_text, end_name, end_counts, end_rows, end_line};

use ccid_two::Kinds;
use dccp_endpoint::{Endpoint, Held, Phase, Stand};
use feature_lists::{Feature, Place};
use schedule_text::side_name;
use seq_circle::NoMemory;
use tool_text::{put, put_counted, put_hex, put_named};
use world_events::Side;

// How the line of a frame that this side sent begins, up to the frame's index.
fn sent_by(side: Side) -> &'static [u8]
    ensures { result.now ≡ codes "sent " ++ side_letter side }
{
    match side {
        Side::Client => b"sent c",
        Side::Server => b"sent s",
    }
}

/// The word for a phase (own).
pub(crate) fn phase_name(phase: Phase) -> &'static [u8]
    ensures { result.now ≡ phase_name phase }
{
    match phase {
        Phase::Closed => b"CLOSED",
        Phase::Listen => b"LISTEN",
        Phase::Request => b"REQUEST",
        Phase::Respond => b"RESPOND",
        Phase::PartOpen => b"PARTOPEN",
        Phase::Open => b"OPEN",
        Phase::CloseReq => b"CLOSEREQ",
        Phase::Closing => b"CLOSING",
        Phase::TimeWait => b"TIMEWAIT",
    }
}

fn stand_mark(stand: Stand) -> &'static [u8]
    ensures { result.now ≡ stand_mark stand }
{
    match stand {
        Stand::Stable => b"",
        Stand::Changing => b"*",
        Stand::Unstable => b"!",
    }
}

/// Puts the line of a frame that was sent (own): its side, its index among the frames of the side, and its bytes.
/// NoMemory means that the text could not grow.
pub(crate) fn put_frame_line(
    text: &mut Vec<u8>,
    side: Side,
    index: u64,
    bytes: &[u8],
) -> Result<(), NoMemory>
    ensures { OnOk result (text.new.items ≡ text.old.items ++ bytes_line side index bytes.now) }
{
    put_counted(text, sent_by(side), index)?;
    put(text, b" ")?;
    put_hex(text, bytes)?;
    put(text, b"\n")?;
    Ok(())
}

// Puts a mark, and the value that an end has for a feature.
fn put_held(text: &mut Vec<u8>, mark: &[u8], held: Held) -> Result<(), NoMemory>
    ensures { OnOk result (text.new.items ≡ text.old.items ++ (mark.now ++ held_text held)) }
{
    put_counted(text, mark, held.value)?;
    put(text, stand_mark(held.stand))
}

#[tactic(auto, unfolding(crate::specs::EndLines::row_text))]
fn put_row(text: &mut Vec<u8>, end: &Endpoint<Kinds>, feature: Feature) -> Result<(), NoMemory>
    ensures { OnOk result (text.new.items ≡ text.old.items ++ row_text end.now.state feature) }
{
    put_counted(text, b" ", u64::from(feature.number()))?;
    put_held(text, b"=", end.held(feature, Place::Here))?;
    put_held(text, b"/", end.held(feature, Place::There))?;
    Ok(())
}

/// Puts the values of an end's features as its line has them (own): for each, after a space, its number and its values
/// here and there, marked if they are not settled. NoMemory means that the text could not grow.
#[tactic(auto, unfolding(crate::specs::EndLines::end_rows))]
pub fn put_end_rows(text: &mut Vec<u8>, end: &Endpoint<Kinds>) -> Result<(), NoMemory>
    ensures { OnOk result (text.new.items ≡ text.old.items ++ end_rows end.now.state) }
{
    for feature in &Feature::ALL {
        put_row(text, end, *feature)?;
    }
    Ok(())
}

fn put_end_name(text: &mut Vec<u8>, side: Side, end: &Endpoint<Kinds>) -> Result<(), NoMemory>
    ensures { OnOk result (text.new.items ≡ text.old.items ++ end_name side end.now.state) }
{
    put_named(text, b"end ", side_name(side))?;
    put_named(text, b" ", phase_name(end.phase()))
}

fn put_end_counts(text: &mut Vec<u8>, end: &Endpoint<Kinds>) -> Result<(), NoMemory>
    ensures { OnOk result (text.new.items ≡ text.old.items ++ end_counts end.now.congestion) }
{
    put_counted(text, b" window ", u64::from(end.window()))?;
    put_counted(text, b" flight ", u64::from(end.in_flight()))
}

/// Puts the line of an end when the input is over (own): its phase, the counts of its congestion control, and the
/// values of its features. NoMemory means that the text could not grow.
pub(crate) fn put_end_line(
    text: &mut Vec<u8>,
    side: Side,
    end: &Endpoint<Kinds>,
) -> Result<(), NoMemory>
    ensures { OnOk result (text.new.items ≡ text.old.items ++ end_line side end.now) }
{
    put_end_name(text, side, end)?;
    put_end_counts(text, end)?;
    put_end_rows(text, end)?;
    put(text, b"\n")?;
    Ok(())
}
