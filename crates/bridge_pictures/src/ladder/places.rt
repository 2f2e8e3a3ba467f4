//! Where the parts of a ladder are, and what they look like.
ghost use Rattle.std.specs.Prelude.{◌≡◌, ◌<◌, ◌≤◌, ◌^◌, ◌++◌, OnOk};
ghost use Rattle.bridge_pictures.specs.Places as spec;

use crate::ladder::phases::{Fate, phase_name};
use crate::svg::{Point, put_label, put_line};
use dccp_states::Phase;
use seq_circle::NoMemory;
use world_events::Side;

// The first row lies this far from the top, and each this far below the one before.
const TOP: u64 = 60;

const ROW: u64 = 18;

/// The left line, which is the client's, or that of a single end.
pub(crate) const LEFT: u64 = 460;

/// The right line.
pub(crate) const RIGHT: u64 = 860;

const MIDDLE: u64 = 660;

const WIDTH: u64 = 1320;

const BOTTOM: u64 = 40;

const NAME: u64 = 48;

// A text lies this far from its line, and its foot this far below the row's.
const GAP: u64 = 10;

const FOOT: u64 = 4;

/// The height of a row.
pub(crate) fn height_of(row: u32) -> u64
    ensures value { result ≡ spec.height_of row }
    ensures low { result ≤ 2 ^ 37 }
{
    TOP + ROW * u64::from(row)
}

fn line_of(side: Side) -> u64
    ensures value { result ≡ spec.line_of side }
{
    match side {
        Side::Client => LEFT,
        Side::Server => RIGHT,
    }
}

/// The place of a side's line in a row.
pub(crate) fn place_of(side: Side, row: u32) -> Point
    ensures { result ≡ spec.line_place side row }
{
    Point {
        x: line_of(side),
        y: height_of(row),
    }
}

// The place of a text beside a side's line.
fn beside(side: Side, row: u32) -> Point
    ensures { result ≡ spec.label_at side row }
{
    match side {
        Side::Client => Point {
            x: LEFT - GAP,
            y: height_of(row) + FOOT,
        },
        Side::Server => Point {
            x: RIGHT + GAP,
            y: height_of(row) + FOOT,
        },
    }
}

fn side_class(side: Side) -> &'static [u8]
    ensures { result.now ≡ spec.side_class side }
{
    match side {
        Side::Client => b"left",
        Side::Server => b"right",
    }
}

fn came_class(came: Fate) -> &'static [u8]
    ensures { result.now ≡ spec.came_class came }
{
    match came {
        Fate::Took => b"took",
        Fate::Dropped => b"dropped",
        Fate::Synced => b"synced",
        Fate::WasReset => b"was-reset",
        Fate::SentReset => b"sent-reset",
    }
}

/// How the arrow of a frame looks that came: a frame that had come before is a repeat.
pub(crate) fn arrow_class(came: Fate, again: bool) -> &'static [u8]
    ensures { result.now ≡ spec.arrow_class came again }
{
    if again {
        return b"again";
    }
    came_class(came)
}

/// Puts a text beside a side's line.
#[tactic(auto, unfolding(crate::specs::Places::text_beside))]
pub(crate) fn put_beside(
    text: &mut Vec<u8>,
    side: Side,
    row: u32,
    words: &[u8],
) -> Result<(), NoMemory>
    ensures { OnOk result (text.new.items ≡ text.old.items ++ spec.text_beside side row words.now) }
{
    put_label(text, side_class(side), beside(side, row), words)
}

/// Puts the arrow of a frame that this side sent in one row, and that came in another.
#[tactic(auto, unfolding(crate::specs::Places::arrow))]
pub(crate) fn put_arrow(
    text: &mut Vec<u8>,
    class: &[u8],
    from: Side,
    sent: u32,
    came: u32,
    words: &[u8],
) -> Result<(), NoMemory>
    ensures { OnOk result (text.new.items ≡ text.old.items ++ spec.arrow class.now from sent came words.now) }
{
    put_line(
        text,
        class,
        place_of(from, sent),
        place_of(from.other(), came),
        words,
    )
}

/// Puts a piece of a side's line, in the colour of its phase.
#[tactic(auto, unfolding(crate::specs::Places::segment))]
pub(crate) fn put_segment(
    text: &mut Vec<u8>,
    side: Side,
    phase: Phase,
    since: u32,
    row: u32,
) -> Result<(), NoMemory>
    ensures { OnOk result (text.new.items ≡ text.old.items ++ spec.segment side phase since row) }
{
    put_line(
        text,
        phase_name(phase),
        place_of(side, since),
        place_of(side, row),
        phase_name(phase),
    )
}

/// Puts a side's line down to this row, if no phase is known.
#[tactic(auto, unfolding(crate::specs::Places::plain))]
pub(crate) fn put_plain(text: &mut Vec<u8>, side: Side, row: u32) -> Result<(), NoMemory>
    ensures { OnOk result (text.new.items ≡ text.old.items ++ spec.plain side row) }
{
    put_line(
        text,
        b"plain",
        place_of(side, 0),
        place_of(side, row),
        b"its phases are not told",
    )
}

/// Puts the arrow of a frame that never came, which ends half way.
#[tactic(auto, unfolding(crate::specs::Places::lost))]
pub(crate) fn put_lost(text: &mut Vec<u8>, side: Side, row: u32) -> Result<(), NoMemory>
    ensures { OnOk result (text.new.items ≡ text.old.items ++ spec.lost side row) }
{
    let end = Point {
        x: MIDDLE,
        y: height_of(row) + ROW,
    };
    put_line(text, b"lost", place_of(side, row), end, b"never came")
}

/// The size of a ladder with this many rows.
pub(crate) fn size_of(rows: u32) -> Point
    ensures { result ≡ spec.ladder_size rows }
{
    Point {
        x: WIDTH,
        y: height_of(rows) + BOTTOM,
    }
}

// The place of what a side's line is called.
fn above(side: Side) -> Point
    ensures { result ≡ spec.above side }
{
    Point {
        x: line_of(side),
        y: NAME,
    }
}

/// Puts what a side's line is called.
#[tactic(auto, unfolding(crate::specs::Places::name))]
pub(crate) fn put_name(text: &mut Vec<u8>, side: Side, words: &[u8]) -> Result<(), NoMemory>
    ensures { OnOk result (text.new.items ≡ text.old.items ++ spec.name side words.now) }
{
    put_label(text, b"name", above(side), words)
}
