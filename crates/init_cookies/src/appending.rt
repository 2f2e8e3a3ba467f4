//! Options after those of a frame that goes out.
ghost use Rattle.std.specs.Prelude.{◌≡◌, ◌≤◌, length};
ghost use Rattle.std.specs.Bool.{OnFalse, OnTrue};
ghost use Rattle.init_cookies.specs.Appending.{appended, appended_bytes};

use dccp_endpoint::lengthen;
use dccp_packets::{Frame, Numbers, Outbox, decode};
use dccp_sum::Pseudo;

// Writes the frame's packet with these options after its own, if it has room. True exactly if it did.
fn write_longer(frame: &[u8], more: &[u8], pseudo: &Pseudo, longer: &mut Frame) -> bool
    requires { length more.now ≤ 256 }
    ensures longer { OnTrue result (longer.new ≡ appended_bytes pseudo.now more.now frame.now) }
    ensures same { OnFalse result (appended_bytes pseudo.now more.now frame.now ≡ frame.now) }
{
    match decode(frame) {
        Ok(packet) => lengthen(&packet, more, pseudo, longer),
        Err(_) => false,
    }
}

/// The frame in the Outbox goes out with these options after its own, at most 256 bytes, and with a new checksum, if it
/// has room for them: a Data Offset counts 1,020 bytes at most (RFC 4340, section 5.1).
pub fn append_options(out: &mut Outbox, more: &[u8], pseudo: &Pseudo)
    requires { length more.now ≤ 256 }
    ensures { out.new ≡ appended pseudo.now more.now out.old }
{
    let Some(sent) = out.sent() else {
        return;
    };
    let numbers = Numbers {
        number: sent.number,
        ack: sent.ack,
    };
    let mut longer = Frame::new();
    if write_longer(sent.bytes, more, pseudo, &mut longer) {
        out.put(longer, numbers);
    }
}
