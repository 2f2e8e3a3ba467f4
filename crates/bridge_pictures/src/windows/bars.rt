//! The bars of a chart.
ghost use Rattle.std.specs.Prelude.{◌≡◌, ◌<◌, ◌≤◌, ◌^◌, ◌++◌, OnOk};
ghost use Rattle.bridge_pictures.specs.Bars as spec;

use crate::svg::{Snippet, put_snippets};
use seq_circle::NoMemory;

// A packet has this height, and a column this width, including a gap of one.
const PACKET: u64 = 8;

const COLUMN: u64 = 6;

/// The columns begin this far from the left edge.
pub(crate) const EDGE: u64 = 40;

/// How far a column lies from the left edge.
pub(crate) fn column_at(column: u32) -> u64
    ensures value { result ≡ spec.column_at column }
    ensures low { result ≤ 2 ^ 36 }
{
    EDGE + COLUMN * u64::from(column)
}

/// How high this many packets are.
pub(crate) fn packets_high(packets: u32) -> u64
    ensures value { result ≡ spec.packets_high packets }
    ensures low { result ≤ 2 ^ 36 }
{
    PACKET * u64::from(packets)
}

/// Puts a bar in a column, which begins this far from its group's line and has this height, with a tooltip.
#[tactic(auto, unfolding(crate::specs::Bars::bar))]
pub(crate) fn put_bar<'a>(
    text: &mut Vec<u8>,
    class: &'a [u8],
    column: u32,
    start: u64,
    height: u64,
    words: &'a [u8],
) -> Result<(), NoMemory>
    ensures { OnOk result (text.new.items ≡ text.old.items ++ spec.bar class.now column start height words.now) }
{
    put_snippets(
        text,
        &[
            Snippet::Plain(b"<rect class='"),
            Snippet::Plain(class),
            Snippet::Plain(b"' x='"),
            Snippet::Number(column_at(column)),
            Snippet::Plain(b"' width='5' y='"),
            Snippet::Number(start),
            Snippet::Plain(b"' height='"),
            Snippet::Number(height),
            Snippet::Plain(b"'><title>"),
            Snippet::Escaped(words),
            Snippet::Plain(b"</title></rect>\n"),
        ],
    )
}

/// Puts elements as a group whose line lies this far below the top, and which grows upwards.
#[tactic(auto, unfolding(crate::specs::Bars::upward))]
pub(crate) fn put_upward(text: &mut Vec<u8>, bottom: u64, elements: &[u8]) -> Result<(), NoMemory>
    ensures { OnOk result (text.new.items ≡ text.old.items ++ spec.upward bottom elements.now) }
{
    put_snippets(
        text,
        &[
            Snippet::Plain(b"<g transform='translate(0,"),
            Snippet::Number(bottom),
            Snippet::Plain(b") scale(1,-1)'>\n"),
            Snippet::Plain(elements),
            Snippet::Plain(b"</g>\n"),
        ],
    )
}

/// Puts elements as a group whose line lies this far below the top.
#[tactic(auto, unfolding(crate::specs::Bars::downward))]
pub(crate) fn put_downward(text: &mut Vec<u8>, top: u64, elements: &[u8]) -> Result<(), NoMemory>
    ensures { OnOk result (text.new.items ≡ text.old.items ++ spec.downward top elements.now) }
{
    put_snippets(
        text,
        &[
            Snippet::Plain(b"<g transform='translate(0,"),
            Snippet::Number(top),
            Snippet::Plain(b")'>\n"),
            Snippet::Plain(elements),
            Snippet::Plain(b"</g>\n"),
        ],
    )
}
