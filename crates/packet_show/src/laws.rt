//! What the definitions say about flows.
ghost use Rattle.std.specs.Prelude.{◌≡◌, ℕ};
ghost use Rattle.packet_show.specs.Flows.{AddressAndPort, flow_between};

/// The flow between two ends is the same, whichever of them sends.
pub fn a_flow_has_both_directions()
    ensures { (version : ℕ) (a b : AddressAndPort) → flow_between version a b ≡ flow_between version b a }
{}
