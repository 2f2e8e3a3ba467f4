//! What the rules of a path see of an end.
ghost use Rattle.std.specs.Prelude.{◌≡◌};
ghost use Rattle.dccp_endpoint.specs.End.{is_open};
ghost use Rattle.dccp_uses.specs.Path.{is_handshake, is_stand_stable, sight_of};

use dccp_endpoint::{Congestion, Endpoint, Feature, Held, Phase, Place, Seq48, Stand};

/// What the rules of a path see of an end.
#[derive(Clone, Copy, Debug, PartialEq, Eq)]
pub struct Sight {
    /// The phase of its connection.
    pub phase: Phase,
    /// GSS, the greatest number sent.
    pub gss: Seq48,
    /// GAR, the greatest acknowledgement number received.
    pub gar: Seq48,
    /// GSR, the greatest number received.
    pub gsr: Seq48,
    /// How many data packets are in flight.
    pub in_flight: u32,
    /// How many data packets may be in flight.
    pub window: u32,
    /// The CCID of its data.
    pub ccid: u64,
    /// The Ack Ratio of its data.
    pub ratio: Held,
    /// The Sequence Window of its peer.
    pub width: u64,
}

impl Sight {
    /// What the rules see of this end now (own).
    pub fn of<C: Congestion>(end: &Endpoint<C>) -> Sight
        ensures { result ≡ sight_of C.control end.now }
    {
        let marks = end.marks();
        Sight {
            phase: end.phase(),
            gss: marks.gss,
            gar: marks.gar,
            gsr: marks.gsr,
            in_flight: end.in_flight(),
            window: end.window(),
            ccid: end.held(Feature::Ccid, Place::Here).value,
            ratio: end.held(Feature::AckRatio, Place::Here),
            width: marks.peer_w,
        }
    }
}

// The first packet of this end waits for its answer.
pub(crate) fn is_handshake(phase: Phase) -> bool
    ensures { result ≡ is_handshake phase }
{
    matches!(phase, Phase::Request | Phase::Respond)
}

pub(crate) fn is_open(phase: Phase) -> bool
    ensures { result ≡ is_open phase }
{
    matches!(phase, Phase::Open)
}

pub(crate) fn is_stand_stable(stand: Stand) -> bool
    ensures { result ≡ is_stand_stable stand }
{
    matches!(stand, Stand::Stable)
}
