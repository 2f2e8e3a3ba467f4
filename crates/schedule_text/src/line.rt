//! What a line says, and what is wrong with one.
ghost use Rattle.std.specs.Prelude.{◌≡◌, ◌≤◌, length};

use crate::{Event, Values};
use dccp_packets::Frame;
use feature_lists::{Feature, Place};
use seq_circle::Seq48;
use std::marker::Model;
use tool_text::Digits;
use world_events::Side;

/// What a line of a schedule says (own).
#[derive(Drop)]
pub enum Line {
    /// Nothing: it is empty or a comment.
    Nothing,
    /// The version of the schedule: 1 or 2.
    Version {
        number: u8,
    },
    /// The ends offer no feature.
    Plain,
    /// The side's initial sequence number.
    Iss {
        side: Side,
        number: Seq48,
    },
    /// The side's configured list, or its value, for a feature.
    Set {
        side: Side,
        place: Place,
        feature: Feature,
        values: Values,
    },
    /// The side offers a feature at its start, its Change marked with Mandatory or not.
    Offer {
        side: Side,
        place: Place,
        feature: Feature,
        mandatory: bool,
    },
    /// An event that happens.
    Event(Event),
}

/// The bytes of a frame, at most 2,044 of them, as the digits of a line (own). They are decoded into their final place,
/// so that no frame is moved. Contracts see the list of bytes.
#[derive(Drop)]
pub struct FrameDigits<'a> {
    pub(crate) digits: Digits<'a>,
}

impl<'a> Model for FrameDigits<'a> {
    ghost use Rattle.std.specs.Prelude.{ℕ, ◌≤◌, List, length};

    ghost Value = { List ℕ };

    ghost view = { λ f. f.digits };

    ghost invariant = { λ f. length f.digits ≤ 2044 };
}

impl<'a> FrameDigits<'a> {
    /// How many bytes there are (own).
    pub fn len(&self) -> usize
        ensures value { result ≡ length self.now }
        ensures fits { result ≤ 2044 }
    {
        self.digits.len()
    }

    /// Puts the bytes into the room for them (own).
    pub fn put(&self, room: &mut [u8])
        requires { length room.old ≡ length self.now }
        ensures { room.new ≡ self.now }
    {
        self.digits.put(room);
    }

    /// The frame of the bytes (own).
    pub fn frame(&self) -> Frame
        ensures { result ≡ self.now }
    {
        self.digits.frame()
    }
}

/// What a line of a replay says: a frame (own).
#[derive(Drop)]
pub struct FrameLine<'a> {
    /// The frame's checksum is to be set before it arrives.
    pub seal: bool,
    pub bytes: FrameDigits<'a>,
}
