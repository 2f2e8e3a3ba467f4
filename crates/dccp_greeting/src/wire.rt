//! The network of this program.

use dccp_uses::Network;
use std::alloc::Global;

/// In place of a socket: frames are here until the other side takes them.
#[derive(Drop)]
pub(crate) struct Wire {
    alloc: Global,
    frames: Vec<Vec<u8>>,
}

impl Wire {
    pub(crate) fn new(alloc: Global) -> Wire {
        Wire {
            alloc,
            frames: Vec::new(alloc),
        }
    }

    /// The first frame that is here, if any.
    pub(crate) fn take(&mut self) -> Option<Vec<u8>> {
        if self.frames.is_empty() {
            return None;
        }
        Some(self.frames.remove(0))
    }
}

impl Network for Wire {
    // What contracts may say of a wire once it has carried a frame: nothing.
    ghost sends = { λ _ _ _. Unit {0} };

    fn send(&mut self, frame: &[u8]) {
        let mut datagram = Vec::new(self.alloc);
        if datagram.extend_from_slice(frame).is_ok() {
            // A frame for which there is no memory is lost.
            let _ = self.frames.push(datagram);
        }
    }
}
