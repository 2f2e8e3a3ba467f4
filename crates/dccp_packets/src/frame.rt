//! The bytes of one packet, and the place where an end leaves it with its numbers.
ghost use Rattle.std.specs.Prelude.{◌≡◌, ◌+◌, ◌<◌, ◌≤◌, ◌↔◌, [], ◌++◌, length, slice_set, Some, None, IsSome, IfSome, MatchOption};
ghost use Rattle.std.specs.Borrow.{sem};

use arrayvec::ArrayVec;
use seq_circle::Seq48;
use std::marker::Model;

/// The most bytes of a frame: 1,020 of header and options, which is all that a Data Offset counts (RFC 4340, section
/// 5.1), and 1,024 of data (own).
pub const MOST_FRAME_BYTES: usize = 2044;

/// A packet's bytes, at most `MOST_FRAME_BYTES` of them, in the value itself. Contracts see the list of bytes.
#[derive(Drop)]
pub struct Frame {
    bytes: ArrayVec<u8, MOST_FRAME_BYTES>,
}

impl Model for Frame {
    ghost use Rattle.std.specs.Prelude.{List, ℕ};

    ghost Value = { List ℕ };

    ghost view = { λ f. f.bytes.items };
}

impl Frame {
    ghost use Rattle.dccp_packets.specs.Lending.{LendsBytes, LendsVector};

    /// An empty frame.
    pub fn new() -> Frame
        ensures { result ≡ [] }
    {
        Frame {
            bytes: ArrayVec::new(),
        }
    }

    /// A frame of these bytes, or None exactly if there are more than `MOST_FRAME_BYTES`, 2,044.
    pub fn of(bytes: &[u8]) -> Option<Frame>
        ensures made { IsSome result ↔ (length bytes.now ≤ 2044) }
        ensures value { IfSome result (λ f. f ≡ bytes.now) }
    {
        if MOST_FRAME_BYTES < bytes.len() {
            return None;
        }
        let mut frame = Frame::new();
        frame.append(bytes);
        Some(frame)
    }

    /// The bytes, at most 2,044.
    pub fn bytes(&self) -> &[u8]
        ensures value { result.now ≡ self.now }
        ensures fits { length result.now ≤ 2044 }
    {
        self.bytes.as_slice()
    }

    /// The bytes, to be changed in place.
    pub fn bytes_mut(&mut self) -> &mut [u8]
        ensures* writes_back { sem 𝓛 (LendsBytes self.entry result) }
        ensures value { result.now ≡ self.old }
        ensures fits { length result.now ≤ 2044 }
    {
        self.bytes.as_mut_slice()
    }

    /// The vector that holds the bytes, for what appends to one.
    pub fn vector_mut(&mut self) -> &mut ArrayVec<u8, MOST_FRAME_BYTES>
        ensures* writes_back { sem 𝓛 (LendsVector self.entry result) }
        ensures value { result.now.items ≡ self.old }
    {
        &mut self.bytes
    }

    // Removes all bytes.
    pub(crate) fn clear(&mut self)
        ensures { self.new ≡ [] }
    {
        self.bytes.clear();
    }

    // Puts a byte in the place of one that is there.
    pub(crate) fn set(&mut self, place: usize, byte: u8)
        requires { place < length self.old }
        ensures { self.new ≡ slice_set self.old place byte }
    {
        self.bytes[place] = byte;
    }

    /// Appends bytes. There must be room: a frame has at most 2,044.
    // Many frames have no options or no data, so a copy of no bytes is not begun.
    pub fn append(&mut self, piece: &[u8])
        requires { length self.old + length piece.now ≤ 2044 }
        ensures { self.new ≡ self.old ++ piece.now }
    {
        if piece.is_empty() {
            return;
        }
        let _ = self.bytes.try_extend_from_slice(piece);
    }
}

/// The sequence number and the acknowledgement number of a packet, in full, even if its frame has their short form (RFC
/// 4340, section 7.6).
#[derive(Clone, Copy, Debug, PartialEq, Eq)]
pub struct Numbers {
    /// The sequence number.
    pub number: Seq48,
    /// The acknowledgement number, or None for a Request and a Data, which have none (RFC 4340, section 5.1).
    pub ack: Option<Seq48>,
}

/// A frame that goes out, with its numbers.
#[derive(Clone, Copy, Debug)]
pub struct Sent<'a> {
    /// The bytes, at most 2,044.
    pub bytes: &'a [u8],
    /// The sequence number, whole.
    pub number: Seq48,
    /// The acknowledgement number, whole, or None if the packet has none.
    pub ack: Option<Seq48>,
}

/// Where an end leaves the frame that one of its calls sends, with its numbers. It holds one frame or none. Contracts
/// see None, or the bytes and the numbers. Each call of an end that takes an Outbox empties it first. Its frame has
/// room for the longest one and stays where it is, so an Outbox is made once and handed to many calls.
///
/// The caller that fills it is responsible for the numbers: an end's calls guarantee that they are those of the frame.
#[derive(Drop)]
pub struct Outbox {
    // those of an earlier call, if there are no numbers
    frame: Frame,
    numbers: Option<Numbers>,
}

impl Model for Outbox {
    ghost use Rattle.std.specs.Prelude.{Option};
    ghost use Rattle.dccp_packets.specs.Outgoing.{Outgoing, outgoing_if};

    ghost Value = { Option Outgoing };

    ghost view = { λ o. outgoing_if o.numbers o.frame };
}

impl Outbox {
    ghost use Rattle.dccp_packets.specs.Lending.{LendsFrame};
    ghost use Rattle.dccp_packets.specs.Outgoing.{bytes_sent, outgoing};

    /// An Outbox that holds no frame.
    pub fn new() -> Outbox
        ensures { result ≡ None }
    {
        Outbox {
            frame: Frame::new(),
            numbers: None,
        }
    }

    /// The frame that it holds.
    pub fn frame(&self) -> Option<&Frame>
        ensures { MatchOption result (self.now ≡ None) (λ f. bytes_sent self.now ≡ Some f.now) }
    {
        match self.numbers {
            Some(_) => Some(&self.frame),
            None => None,
        }
    }

    /// The frame that it holds and its numbers.
    pub fn sent(&self) -> Option<Sent<'_>>
        ensures value { MatchOption result (self.now ≡ None)
            (λ sent. self.now ≡ Some (record { bytes = sent.bytes.now; number = sent.number; ack = sent.ack })) }
        ensures fits { IfSome result (λ sent. length sent.bytes.now ≤ 2044) }
    {
        match self.numbers {
            Some(Numbers { number, ack }) => Some(Sent {
                bytes: self.frame.bytes(),
                number,
                ack,
            }),
            None => None,
        }
    }

    /// Removes the frame, if it holds one.
    pub fn clear(&mut self)
        ensures { self.new ≡ None }
    {
        self.numbers = None;
    }

    /// Holds only `frame` from now on, with its numbers.
    pub fn put(&mut self, frame: Frame, numbers: Numbers)
        ensures { self.new ≡ Some (outgoing numbers frame) }
    {
        self.frame = frame;
        self.numbers = Some(numbers);
    }

    /// Holds only an empty frame from now on, with these numbers, to be written in place. A frame has room for 2,044
    /// bytes, and a move copies them all.
    pub fn begin(&mut self, numbers: Numbers) -> &mut Frame
        ensures* writes_back { sem 𝓛 (LendsFrame numbers self.entry result) }
        ensures empty { result.now ≡ [] }
    {
        self.frame.clear();
        self.numbers = Some(numbers);
        &mut self.frame
    }
}
