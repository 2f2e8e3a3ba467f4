//! Data that are held.
ghost use Rattle.std.specs.Prelude.{◌≡◌, ◌≤◌, ◌++◌, drop, length};

use seq_circle::Seq48;
use std::marker::Model;

/// The data of one packet under its number, at most `MOST` bytes. Contracts see the number and the bytes.
#[derive(Drop)]
pub(crate) struct Item<const MOST: usize> {
    number: Seq48,
    count: usize,
    bytes: [u8; MOST],
}

impl<const MOST: usize> Model for Item<MOST> {
    ghost use Rattle.std.specs.Prelude.{◌≤◌, take};
    ghost use Rattle.data_dropped.specs.Inbox.{KeptData};

    ghost Value = { KeptData };

    ghost view = { λ item. record { number = item.number; payload = take item.count item.bytes } };

    ghost invariant = { λ item. item.count ≤ MOST };
}

impl<const MOST: usize> Item<MOST> {
    /// These data under this number.
    pub(crate) fn of(number: Seq48, payload: &[u8]) -> Item<MOST>
        requires { length payload.now ≤ MOST }
        ensures { result ≡ record { number = number; payload = payload.now } }
    {
        let mut bytes = [0; MOST];
        let count = payload.len();
        bytes[..count].copy_from_slice(payload);
        Item {
            number,
            count,
            bytes,
        }
    }

    /// The packet's number.
    pub(crate) fn number(&self) -> Seq48
        ensures { result ≡ self.now.number }
    {
        self.number
    }

    /// Writes the data over the front of these bytes, and returns how many they are.
    pub(crate) fn put(&self, into: &mut [u8; MOST]) -> usize
        ensures count { result ≡ length self.now.payload }
        ensures put { into.new ≡ self.now.payload ++ drop (length self.now.payload) into.old }
    {
        let count = self.count;
        into[..count].copy_from_slice(&self.bytes[..count]);
        count
    }
}
