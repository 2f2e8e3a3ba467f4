//! The data that an end is asked to send.
ghost use Rattle.std.specs.Prelude.{◌≡◌, ◌≤◌, ◌↔◌, [], length, IsSome, IfSome};
ghost use Rattle.std.specs.Borrow.{sem};

use arrayvec::ArrayVec;
use std::marker::Model;

// The most bytes of data: twice as many as an end takes.
const MOST_BYTES: usize = 2048;

const ZEROS: [u8; MOST_BYTES] = [0; MOST_BYTES];

/// The data that an end is asked to send: at most 2,048 bytes, in the value itself. Contracts see the list of bytes.
#[derive(Debug, Drop)]
pub struct Payload {
    bytes: ArrayVec<u8, MOST_BYTES>,
}

impl Model for Payload {
    ghost use Rattle.std.specs.Prelude.{List, ℕ};

    ghost Value = { List ℕ };

    ghost view = { λ p. p.bytes.items };
}

impl Payload {
    ghost use Rattle.world_events.specs.Lending.{LendsPayload};

    /// No bytes.
    pub fn new() -> Payload
        ensures { result ≡ [] }
    {
        Payload {
            bytes: ArrayVec::new(),
        }
    }

    /// These bytes, or None exactly if there are more than 2,048.
    pub fn of(bytes: &[u8]) -> Option<Payload>
        ensures made { IsSome result ↔ (length bytes.now ≤ 2048) }
        ensures value { IfSome result (λ p. p ≡ bytes.now) }
    {
        if MOST_BYTES < bytes.len() {
            return None;
        }
        Some(Payload::within(bytes))
    }

    // These bytes, which are not too many.
    pub(crate) fn within(bytes: &[u8]) -> Payload
        requires { length bytes.now ≤ 2048 }
        ensures { result ≡ bytes.now }
    {
        let mut payload = Payload::new();
        payload.set(bytes);
        payload
    }

    /// Replaces the data by these bytes, at most 2,048, in place.
    pub fn set(&mut self, bytes: &[u8])
        requires { length bytes.now ≤ 2048 }
        ensures { self.new ≡ bytes.now }
    {
        self.bytes.clear();
        let _ = self.bytes.try_extend_from_slice(bytes);
    }

    /// The bytes, at most 2,048.
    pub fn bytes(&self) -> &[u8]
        ensures value { result.now ≡ self.now }
        ensures fits { length result.now ≤ 2048 }
    {
        self.bytes.as_slice()
    }

    /// Makes the data `size` bytes long, at most 2,048, to be written in place; until then their values are not
    /// specified. If the length is right already, nothing is moved or cleared.
    pub fn resize(&mut self, size: usize)
        requires { size ≤ 2048 }
        ensures { length self.new ≡ size }
    {
        if self.bytes.as_slice().len() != size {
            self.bytes.clear();
            let _ = self.bytes.try_extend_from_slice(&ZEROS[..size]);
        }
    }

    /// The bytes, to be changed in place.
    pub fn bytes_mut(&mut self) -> &mut [u8]
        ensures* writes_back { sem 𝓛 (LendsPayload self.entry result) }
        ensures value { result.now ≡ self.old }
    {
        self.bytes.as_mut_slice()
    }
}
