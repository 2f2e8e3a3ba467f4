//! The lines of a world: the frame that the actor of an event sent, and the two ends.
ghost use Rattle.std.specs.Prelude.{◌≡◌, ◌++◌, OnOk};
ghost use Rattle.tool_jobs.specs.WorldLines.{arrived, sent_line, end_lines};

use crate::ends::{put_end_line, put_frame_line};
use ccid_two::Kinds;
use seq_circle::NoMemory;
use two_ends::{Event, Side, World};

/// The bytes of the frame that an event brought to an end; none for a call.
pub(crate) fn arrived<'a>(world: &'a World<Kinds>, event: &Event) -> &'a [u8]
    ensures { result.now ≡ arrived world.now.world event.now }
{
    let Event::Deliver { from, index } = event else {
        return &[];
    };
    match world.frames(*from).get(*index as usize) {
        Some(frame) => frame.bytes.as_slice(),
        None => &[],
    }
}

/// Puts the line of the frame that a side sent in a step, if it sent one; before the step it had sent `before` frames.
pub(crate) fn put_sent_line(
    text: &mut Vec<u8>,
    world: &World<Kinds>,
    side: Side,
    before: usize,
) -> Result<(), NoMemory>
    ensures { OnOk result (text.new.items ≡ text.old.items ++ sent_line world.now.world side before) }
{
    match world.frames(side).get(before) {
        Some(frame) => put_frame_line(text, side, before as u64, frame.bytes.as_slice()),
        None => Ok(()),
    }
}

/// Puts the two lines at a schedule's end.
pub(crate) fn put_end_lines(text: &mut Vec<u8>, world: &World<Kinds>) -> Result<(), NoMemory>
    ensures { OnOk result (text.new.items ≡ text.old.items ++ end_lines world.now) }
{
    put_end_line(text, Side::Client, world.end(Side::Client))?;
    put_end_line(text, Side::Server, world.end(Side::Server))
}
