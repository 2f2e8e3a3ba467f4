//! The frame that a call hands to C.
ghost use Rattle.std.specs.Prelude.{◌≡◌, ◌≤◌, length};
ghost use Rattle.dccp_c.specs.Framing.{handed_in, handed_of, nothing_handed};

use dccp_endpoint::{MOST_FRAME_BYTES, Outbox};

/// The frame that a call leaves for the peer: its first `length` bytes, at most 2,044, and its sequence number. If
/// `length` is 0, there is no frame, and the number is 0.
#[repr(C)]
#[derive(Drop)]
pub struct Frame {
    /// How many bytes it has.
    pub length: usize,
    /// Its sequence number, in full (RFC 4340, section 7.6).
    pub number: u64,
    /// The bytes. Those after the length have no meaning.
    pub bytes: [u8; MOST_FRAME_BYTES],
}

impl Frame {
    /// Leaves no bytes.
    pub fn clear(&mut self)
        ensures { handed_in self.new ≡ nothing_handed }
    {
        self.length = 0;
        self.number = 0;
    }

    /// Leaves these bytes, and this number.
    pub fn put(&mut self, bytes: &[u8], number: u64)
        requires { length bytes.now ≤ 2044 }
        ensures { handed_in self.new ≡ record { bytes = bytes.now; number = number } }
    {
        self.number = number;
        self.length = bytes.len();
        self.bytes[..bytes.len()].copy_from_slice(bytes);
    }

    /// Leaves the bytes and the number of the frame in the Outbox, or no frame if there is none.
    pub fn fill(&mut self, out: &Outbox)
        ensures { handed_in self.new ≡ handed_of out.now }
    {
        match out.sent() {
            None => self.clear(),
            Some(sent) => self.put(sent.bytes, sent.number.get()),
        }
    }
}
