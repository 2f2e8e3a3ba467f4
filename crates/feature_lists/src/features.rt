//! The features, and where they are located.
//!
//! The features' table is one definition for contracts (`specs/Features`) and these methods for code. No other crate
//! repeats a part of it.
ghost use Rattle.std.specs.Prelude.{◌≡◌, ℕ, ◌+◌, ◌<◌, ◌≤◌, IsSome, IfSome, ◌↔◌};
ghost use Rattle.feature_lists.specs.Features.{described, feature_number, feature_numbered, initial_of, is_permitted, usual_values};

// The range of Sequence Window: Wmin and Wmax of RFC 4340, section 7.5.2. Wmax is 2^46 - 1.
const NARROWEST_WINDOW: u64 = 32;

const WIDEST_WINDOW: u64 = 70_368_744_177_663;

/// A feature of DCCP, numbered 1 to 9 in this order (RFC 4340, section 6.4).
#[derive(Clone, Copy, Debug, PartialEq, Eq)]
pub enum Feature {
    /// 1: the Congestion Control ID of the half-connection in which the feature's location sends data.
    Ccid,
    /// 2: Allow Short Sequence Numbers.
    ShortSeqnos,
    /// 3: Sequence Window, in packets.
    SequenceWindow,
    /// 4: ECN Incapable.
    EcnIncapable,
    /// 5: Ack Ratio, in data packets for one acknowledgement.
    AckRatio,
    /// 6: Send Ack Vector.
    SendAckVector,
    /// 7: Send NDP Count.
    SendNdpCount,
    /// 8: Minimum Checksum Coverage.
    MinCsCov,
    /// 9: Check Data Checksum.
    CheckDataChecksum,
}

/// Where a feature is located, as an end sees it (RFC 4340, section 6): at the end itself, or at its peer.
#[derive(Clone, Copy, Debug, PartialEq, Eq)]
pub enum Place {
    /// The feature is located at this end: this end's Changes of it are Change L.
    Here,
    /// The feature is located at the peer: this end's Changes of it are Change R.
    There,
}

impl Feature {
    /// The nine features, in the order of their numbers.
    pub const ALL: [Feature; 9] = [
        Feature::Ccid,
        Feature::ShortSeqnos,
        Feature::SequenceWindow,
        Feature::EcnIncapable,
        Feature::AckRatio,
        Feature::SendAckVector,
        Feature::SendNdpCount,
        Feature::MinCsCov,
        Feature::CheckDataChecksum,
    ];

    /// The feature numbered `n`, or None exactly if `n` is not 1 to 9.
    pub fn of(n: u8) -> Option<Feature>
        ensures value { result ≡ feature_numbered n }
        ensures known { IsSome result ↔ ((1 ≤ n) × (n ≤ 9)) }
        ensures number { IfSome result (λ feature. feature_number feature ≡ n) }
    {
        match n {
            1 => Some(Feature::Ccid),
            2 => Some(Feature::ShortSeqnos),
            3 => Some(Feature::SequenceWindow),
            4 => Some(Feature::EcnIncapable),
            5 => Some(Feature::AckRatio),
            6 => Some(Feature::SendAckVector),
            7 => Some(Feature::SendNdpCount),
            8 => Some(Feature::MinCsCov),
            9 => Some(Feature::CheckDataChecksum),
            _ => None,
        }
    }

    /// The feature's number, from 1 to 9 (RFC 4340, section 6.4).
    pub fn number(self) -> u8
        ensures value { result ≡ feature_number self }
        ensures found { feature_numbered result ≡ Some self }
    {
        match self {
            Feature::Ccid => 1,
            Feature::ShortSeqnos => 2,
            Feature::SequenceWindow => 3,
            Feature::EcnIncapable => 4,
            Feature::AckRatio => 5,
            Feature::SendAckVector => 6,
            Feature::SendNdpCount => 7,
            Feature::MinCsCov => 8,
            Feature::CheckDataChecksum => 9,
        }
    }

    /// Whether the feature is server-priority, so that its value is the reconciliation of two lists (RFC 4340, section
    /// 6.3.1). Any other is non-negotiable: its value is the one that its location states (section 6.3.2).
    pub fn is_server_priority(self) -> bool
        ensures { result ≡ (described self).is_server_priority }
    {
        !matches!(self, Feature::SequenceWindow | Feature::AckRatio)
    }

    /// The length of one value in bytes: 6 for Sequence Window, 2 for Ack Ratio, and 1 for each other (RFC 4340,
    /// section 6.4).
    pub fn width(self) -> usize
        ensures { result ≡ (described self).width }
    {
        match self {
            Feature::SequenceWindow => 6,
            Feature::AckRatio => 2,
            _ => 1,
        }
    }

    /// Whether every end has to understand the feature (RFC 4340, section 6.4).
    pub fn is_required(self) -> bool
        ensures { result ≡ (described self).is_required }
    {
        matches!(
            self,
            Feature::Ccid | Feature::ShortSeqnos | Feature::SequenceWindow
        )
    }

    /// Whether the value is permitted for the feature at this place (own): an end of this project wishes for no other.
    /// A non-negotiable feature has at There the range that it has at Here.
    pub fn is_permitted(self, place: Place, value: u64) -> bool
        ensures { result ≡ is_permitted self place value }
    {
        match (self, place) {
            (Feature::Ccid, _) => value == 2 || value == 248,
            (Feature::ShortSeqnos, _) => value <= 1,
            (Feature::SequenceWindow, _) => { NARROWEST_WINDOW <= value && value <= WIDEST_WINDOW }
            (Feature::EcnIncapable, Place::Here) => value == 1,
            (Feature::EcnIncapable, Place::There) => value <= 1,
            (Feature::AckRatio, _) => value <= 65_535,
            (Feature::SendAckVector, _) => value <= 1,
            (Feature::SendNdpCount, _) => value == 0,
            (Feature::MinCsCov, _) => value <= 15,
            (Feature::CheckDataChecksum, _) => value == 0,
        }
    }

    /// The values that an end wishes for the feature at this place by default (own), best first. For a non-negotiable
    /// feature at There they are those of Here, but no end wishes for them.
    pub fn usual_values(self, place: Place) -> &'static [u64]
        ensures { result.now ≡ usual_values self place }
    {
        match (self, place) {
            (Feature::Ccid, _) => &[2, 248],
            (Feature::ShortSeqnos, _) => &[0],
            (Feature::SequenceWindow, _) => &[100],
            (Feature::EcnIncapable, Place::Here) => &[1],
            (Feature::EcnIncapable, Place::There) => &[1, 0],
            (Feature::AckRatio, _) => &[2],
            (Feature::SendAckVector, Place::Here) => &[1, 0],
            (Feature::SendAckVector, Place::There) => &[1],
            (Feature::SendNdpCount, _) => &[0],
            (Feature::MinCsCov, _) => &[0],
            (Feature::CheckDataChecksum, _) => &[0],
        }
    }
}

/// The value that a feature has at both ends before any negotiation (RFC 4340, section 6.4).
pub fn initial(feature: Feature) -> u64
    ensures { result ≡ initial_of feature }
{
    match feature {
        Feature::Ccid => 2,
        Feature::ShortSeqnos => 0,
        Feature::SequenceWindow => 100,
        Feature::EcnIncapable => 0,
        Feature::AckRatio => 2,
        Feature::SendAckVector => 0,
        Feature::SendNdpCount => 0,
        Feature::MinCsCov => 0,
        Feature::CheckDataChecksum => 0,
    }
}
