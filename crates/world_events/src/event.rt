//! What may happen to two ends, and why it did not.
ghost use Rattle.std.specs.Prelude.{◌≡◌, ◌<◌, ◌≤◌, [], ◌∷◌, ◌++◌, true, false, length};
ghost use Rattle.world_events.specs.Actors.{actor, other};

use crate::payload::Payload;
use arrayvec::ArrayVec;
use dccp_states::Timer;
use feature_lists::{Feature, Place};
use std::marker::Model;

// The most numbers of a list: one more than an end takes.
const MOST_VALUES: usize = 9;

/// One of the two ends.
#[derive(Clone, Copy, Debug, PartialEq, Eq)]
pub enum Side {
    Client,
    Server,
}

/// The numbers that a side asks for as values of a feature, best first: at most nine, in the value itself. Contracts
/// see the list of numbers.
#[derive(Debug, Drop)]
pub struct Values {
    numbers: ArrayVec<u64, MOST_VALUES>,
}

impl Model for Values {
    ghost use Rattle.std.specs.Prelude.{List, ℕ};

    ghost Value = { List ℕ };

    ghost view = { λ v. v.numbers.items };
}

impl Values {
    /// No number.
    pub fn new() -> Values
        ensures { result ≡ [] }
    {
        Values {
            numbers: ArrayVec::new(),
        }
    }

    /// Puts a number after the others and returns true. Returns false, and changes nothing, exactly if there are nine
    /// already.
    pub fn push(&mut self, number: u64) -> bool
        ensures put { result ≡ true → (length self.old < 9) × (self.new ≡ self.old ++ number ∷ []) }
        ensures full { result ≡ false → (length self.old ≡ 9) × (self.new ≡ self.old) }
    {
        self.numbers.try_push(number).is_ok()
    }

    /// The numbers in order, at most nine.
    pub fn numbers(&self) -> &[u64]
        ensures value { result.now ≡ self.now }
        ensures fits { length result.now ≤ 9 }
    {
        self.numbers.as_slice()
    }
}

/// One thing that happens (own): a call of a side's end, or a delivery.
#[derive(Debug, Drop)]
pub enum Event {
    /// The client opens the connection.
    Open,
    /// The frame with this index, from 0, among all that the side `from` ever sent arrives at the other side.
    Deliver {
        from: Side,
        index: u64,
    },
    /// The side sends these data (RFC 4340, section 5.4).
    Send {
        side: Side,
        payload: Payload,
    },
    /// The side, in PARTOPEN, sends these data when it has received only the Response (own; RFC 4340, section 8.1.5,
    /// permits it). No line of a schedule says this.
    SendEarly {
        side: Side,
        payload: Payload,
    },
    /// The side asks for these values of a feature, best first (RFC 4340, section 6).
    Prefer {
        side: Side,
        feature: Feature,
        place: Place,
        values: Values,
    },
    /// A timer of the side has run out.
    Timer {
        side: Side,
        timer: Timer,
    },
    /// The side closes the connection in order (RFC 4340, section 8.3).
    Close {
        side: Side,
    },
    /// The side ends the connection at once.
    Abort {
        side: Side,
    },
}

/// Why an event did not happen. The world is unchanged.
#[derive(Clone, Copy, Debug, PartialEq, Eq)]
pub enum WorldFault {
    /// No frame with this index was sent.
    NoSuchFrame,
    /// The side that would act has sent 2^47 - 1 frames.
    Full,
    /// The frame has short numbers that are ambiguous for the end that takes it (RFC 4340, section 7.6): its number
    /// lies 2^23 or more from that end's greatest number received, or the one that it acknowledges lies so far from the
    /// greatest number sent, up and down the circle.
    FarShort,
    /// No memory was left for what the step may have to keep.
    NoMemory,
}

impl Side {
    /// The other side.
    pub fn other(self) -> Side
        ensures { result ≡ other self }
    {
        match self {
            Side::Client => Side::Server,
            Side::Server => Side::Client,
        }
    }
}

impl Event {
    /// The side that acts: the one that is called or whose timer has run out, or at which a frame arrives.
    pub fn actor(&self) -> Side
        ensures { result ≡ actor self.now }
    {
        match self {
            Event::Open => Side::Client,
            Event::Deliver { from, .. } => from.other(),
            Event::Send { side, .. } | Event::SendEarly { side, .. } => *side,
            Event::Prefer { side, .. } | Event::Timer { side, .. } => *side,
            Event::Close { side } | Event::Abort { side } => *side,
        }
    }

    /// Turns the event into the arrival of a frame (own): the one with this index, from 0, among all that the side
    /// `from` ever sent. An event is large, since it has room for data. So an event of the same kind is changed in
    /// place, and its room is not cleared again.
    pub fn become_delivery(&mut self, from: Side, index: u64)
        ensures { self.new ≡ Event.Deliver from index }
    {
        if let Event::Deliver {
            from: sender,
            index: which,
        } = self
        {
            *sender = from;
            *which = index;
        } else {
            *self = Event::Deliver { from, index };
        }
    }

    /// Turns the event into a timer of this side that has run out (own), in the same way.
    pub fn become_timer(&mut self, side: Side, timer: Timer)
        ensures { self.new ≡ Event.Timer side timer }
    {
        if let Event::Timer {
            side: owner,
            timer: fired,
        } = self
        {
            *owner = side;
            *fired = timer;
        } else {
            *self = Event::Timer { side, timer };
        }
    }

    /// Turns the event into the sending of these data by this side (own), at most 2,048 bytes, in the same way.
    pub fn become_sending(&mut self, side: Side, data: &[u8])
        requires { length data.now ≤ 2048 }
        ensures { self.new ≡ Event.Send side data.now }
    {
        if let Event::Send {
            side: sender,
            payload,
        } = self
        {
            *sender = side;
            payload.set(data);
        } else {
            *self = Event::Send {
                side,
                payload: Payload::within(data),
            };
        }
    }

    /// Turns the event into this side's wish for these values of a feature, best first (own), in the same way.
    pub fn become_wish(&mut self, side: Side, feature: Feature, place: Place, values: Values)
        ensures { self.new ≡ Event.Prefer side feature place values }
    {
        if let Event::Prefer {
            side: wisher,
            feature: about,
            place: located,
            values: wished,
        } = self
        {
            *wisher = side;
            *about = feature;
            *located = place;
            *wished = values;
        } else {
            self.begin_wish(side, feature, place, values);
        }
    }

    // Turns an event of another kind into a wish. The values are put there last, so that only they are moved.
    fn begin_wish(&mut self, side: Side, feature: Feature, place: Place, values: Values)
        ensures { self.new ≡ Event.Prefer side feature place values }
    {
        *self = Event::Prefer {
            side,
            feature,
            place,
            values: Values::new(),
        };
        if let Event::Prefer { values: wished, .. } = self {
            *wished = values;
        }
    }
}
