//! The checksum of a frame.
ghost use Rattle.std.specs.Prelude.{◌≡◌, ◌≤◌, length};
ghost use Rattle.dccp_sum.specs.Checksum.{sealed};

use dccp_packets::Frame;
use dccp_sum::{Pseudo, seal};

/// Writes a frame's checksum for these addresses, over what was there (RFC 4340, section 9.1). A frame whose coverage
/// passes its end is unchanged.
pub fn seal_frame(pseudo: &Pseudo, frame: &mut Frame)
    requires { 8 ≤ length frame.old }
    ensures { frame.new ≡ sealed pseudo.now frame.old }
{
    let bytes = frame.bytes_mut();
    let _ = seal(pseudo, bytes);
}
