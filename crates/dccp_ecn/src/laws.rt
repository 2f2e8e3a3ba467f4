//! What the definitions say of vectors, and of every list of events.
ghost use Rattle.std.specs.Prelude.{◌≡◌, ℕ, ◌^◌, ◌<◌, ◌≤◌, ◌↔◌, Bool, List, Some, None, IsTrue, length, nat_lt, if◌then◌else◌};
ghost use Rattle.seq_circle.specs.Circle.{distance};
ghost use Rattle.dccp_options.specs.Vectors.{state_at};
ghost use Rattle.ack_vectors.specs.Vector.{numbers_between, numbers_told_within};
ghost use Rattle.dccp_ecn.specs.Arrivals.{Arrivals};
ghost use Rattle.dccp_ecn.specs.EcnVector.{ecn_bytes, ecn_states, is_ecn_whole, nonces_received};
ghost use Rattle.dccp_ecn.specs.Nonces.{sum_of, zeros_in};
ghost use Rattle.dccp_ecn.specs.World.{after_events, ecn_begins};
ghost use Rattle.dccp_ecn.specs.declared.event.EcnEvent.{EcnEvent};
ghost use Rattle.dccp_ecn.specs.Run.{AreHonest, run_of_events, state_by};

/// What a vector reports is read back, number by number from the acknowledgement down: state 0 for what came first
/// unmarked, 1 for what came first marked and 3 for what did not come, and nothing past its bytes. They fit an option,
/// and reach the floor exactly if the vector is whole (RFC 4340, section 11.4).
pub fn a_vector_with_marks_reads_back()
    ensures states { (e : Arrivals) (ack n : ℕ) → ack < 2 ^ 48 → n < 2 ^ 48 → state_at ack (ecn_bytes e ack) n
        ≡ (if nat_lt (distance n ack) (numbers_told_within 253 (ecn_states e) e.set.floor ack) then Some (ecn_states e n) else None) }
    ensures fits { (e : Arrivals) (ack : ℕ) → length (ecn_bytes e ack) ≤ 253 }
    ensures whole { (e : Arrivals) (ack : ℕ)
        → IsTrue (is_ecn_whole e ack) ↔ (numbers_told_within 253 (ecn_states e) e.set.floor ack ≡ numbers_between e.set.floor ack) }
{}

/// The nonce of a vector is that of packets that came unmarked, each with its nonce: a packet that came marked counts
/// for nothing (RFC 4340, section 12.2).
pub fn every_vector_has_its_nonce()
    ensures { (e : Arrivals) (ack : ℕ) → ack < 2 ^ 48
        → (nonce : Bool) × (sum_of (nonces_received e) (zeros_in ack (ecn_bytes e ack)) ≡ Some nonce) }
{}

/// After every list of events the two ends are as the run by itself says: what was sent, what came, and for each report
/// the packets that came before it, whatever their order. So each report is the vector of the receipts before it, at
/// the greatest of their numbers.
pub fn every_run_is_told()
    ensures { (events : List EcnEvent) → after_events ecn_begins events ≡ state_by (run_of_events events) }
{}

/// After every list of events every report is honest: its check answers Unknown exactly if it says of a packet before
/// the last 4,096 that it came unmarked, and otherwise Fits; with the other nonce that check answers Unfit (RFC 4340,
/// section 12.2).
pub fn every_report_is_honest()
    ensures { (events : List EcnEvent) → AreHonest (after_events ecn_begins events) }
{}
