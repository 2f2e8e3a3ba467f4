//! An end that is handed many frames of any sender.
ghost use Rattle.std.specs.Prelude.{◌≡◌, ◌<◌, ◌^◌, length};
ghost use Rattle.dccp_endpoint.specs.Feeding.{after_frame, count_of_outcome, count_of_taken, fed, receiving};

use crate::{Endpoint, Outcome};
use congestion_trait::Congestion;
use dccp_packets::{Frame, Outbox};

// Hands one frame to the end, and returns 1 if it was taken, otherwise 0.
fn feed_one<C: Congestion>(end: &mut Endpoint<C>, frame: &Frame) -> u32
    ensures after { end.new ≡ after_frame C.control end.old frame.now }
    ensures count { result ≡ count_of_outcome (receiving C.control end.old frame.now).answer }
    ensures few { result < 2 }
{
    let mut out = Outbox::new();
    match end.receive(frame.bytes(), &mut out) {
        Outcome::Took { .. } => 1,
        Outcome::Dropped(_)
        | Outcome::Synced(_)
        | Outcome::WasReset(_)
        | Outcome::SentReset { .. } => 0,
    }
}

/// Hands the frames to [`Endpoint::receive`] in order, each with its own Outbox, and returns how many were `Took`
/// (own). The end is then as the step of receiving, folded over the frames, leaves it, whatever bytes they are. What
/// the end sends is dropped. It takes no memory.
pub fn feed<C: Congestion>(end: &mut Endpoint<C>, frames: &[Frame]) -> u32
    requires few { length frames.now < 2 ^ 32 }
    ensures after { end.new ≡ fed C.control end.old frames.now }
    ensures taken { result ≡ count_of_taken C.control end.old frames.now }
{
    let mut taken = 0;
    for frame in frames {
        taken += feed_one(end, frame);
    }
    taken
}
