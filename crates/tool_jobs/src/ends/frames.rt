//! The role of a side's end, and the frame that arrives at an end by a line.
ghost use Rattle.std.specs.Prelude.{◌≡◌, ◌≤◌, length};
ghost use Rattle.tool_jobs.specs.Ends.{CanBeSealed, arriving, role_of};

use dccp_endpoint::{Role, seal_frame};
use dccp_packets::Frame;
use dccp_sum::{Pseudo, seal};
use schedule_text::FrameLine;
use world_events::Side;

/// The role that the end of a side is configured with (own).
pub fn role_of(side: Side) -> Role
    ensures { result ≡ role_of side }
{
    match side {
        Side::Client => Role::Client,
        Side::Server => Role::Server,
    }
}

/// The frame that arrives by a line (own): its checksum is set for these addresses if the line says so.
pub fn arriving(addresses: &Pseudo, said: &FrameLine<'_>) -> Frame
    requires { CanBeSealed said.now }
    ensures { result ≡ arriving addresses.now said.now }
{
    let mut frame = said.bytes.frame();
    if said.seal {
        seal_frame(addresses, &mut frame);
    }
    frame
}

/// Puts the bytes of that frame into this room, which has exactly their length.
pub(crate) fn put_arriving(room: &mut [u8], addresses: &Pseudo, said: &FrameLine<'_>)
    requires room { length room.old ≡ length said.now.bytes }
    requires short { length room.old ≤ 2044 }
    requires seals { CanBeSealed said.now }
    ensures { room.new ≡ arriving addresses.now said.now }
{
    said.bytes.put(room);
    if said.seal {
        let _ = seal(addresses, room);
    }
}
