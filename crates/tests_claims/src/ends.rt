//! What a caller can rely on for the calls of one end.
ghost use Rattle.std.specs.Prelude.{◌≡◌, ◌≢◌, ◌⊎◌, ◌↔◌, ◌<◌, ◌≤◌, ℕ, List, true, Option, Some, None, Ok, Err, length};
ghost use Rattle.dccp_endpoint.specs.Controlled.{in_flight_of, window_of};
ghost use Rattle.dccp_endpoint.specs.End.{value_in};
ghost use Rattle.dccp_endpoint.specs.Outcomes.{HasCause};
ghost use Rattle.dccp_packets.specs.Outgoing.{Outgoing};
ghost use Rattle.dccp_states.specs.declared.outcome.Outcome.TheVariants as outcomes;
ghost use Rattle.dccp_states.specs.declared.outcome.Why.{Why};
ghost use Rattle.dccp_states.specs.declared.phase.Phase.TheVariants as phases;
ghost use Rattle.feature_lists.specs.declared.features.Feature.TheVariants.{Ccid, SendAckVector};
ghost use Rattle.feature_lists.specs.declared.features.Place.TheVariants.{Here, There};

use congestion_trait::Congestion;
use dccp_endpoint::Endpoint;
use dccp_packets::Outbox;
use dccp_states::{Outcome, SendFault};

/// Bytes that arrive have an outcome exactly if its cause holds (`exact`). What is dropped changes nothing and sends
/// nothing (`dropped`). After an answer by a Sync, something goes out, and neither the phase nor a row changes
/// (`synced`); a valid Reset changes the phase to TIMEWAIT, sends nothing, and keeps the rows and the numbers received
/// (`ended`); and after an answer by a Reset, something goes out (`reset`). What is taken is answered, or an
/// acknowledgement is due for it (`taken`).
pub fn received<C: Congestion>(end: &mut Endpoint<C>, bytes: &[u8], out: &mut Outbox) -> Outcome
    requires { length bytes.now ≤ 2044 }
    ensures exact { (outcome : Outcome) → (result ≡ outcome) ↔ HasCause end.old.state bytes.now outcome }
    ensures dropped { (why : Why) → result ≡ outcomes.Dropped why → (end.new ≡ end.old) × (out.new ≡ None) }
    ensures synced { (number : ℕ) → result ≡ outcomes.Synced number → ((frame : Outgoing) × (out.new ≡ Some frame))
        × ((end.new.state.phase ≡ end.old.state.phase) × (end.new.state.rows ≡ end.old.state.rows)) }
    ensures ended { (code : ℕ) → result ≡ outcomes.WasReset code → (end.new.state.phase ≡ phases.TimeWait)
        × ((out.new ≡ None) × ((end.new.state.rows ≡ end.old.state.rows) × (end.new.state.marks.gsr ≡ end.old.state.marks.gsr))) }
    ensures reset { (code : ℕ) (detail : List ℕ) → result ≡ outcomes.SentReset code detail → (frame : Outgoing) × (out.new ≡ Some frame) }
    ensures taken { (place : Option (ℕ × ℕ)) → result ≡ outcomes.Took place → (end.new.state.owed ≡ true) ⊎ ((frame : Outgoing) × (out.new ≡ Some frame)) }
{
    end.receive(bytes, out)
}

/// Data are taken exactly if the end is OPEN, the data have at most 1,024 bytes, CCID 2 gets its Ack Vectors, and fewer
/// packets are in flight than allowed (`sends`, `open`, `short`, `reported`, `room`). A refused call changes nothing
/// and sends nothing (`refused`).
pub fn sent<C: Congestion>(
    end: &mut Endpoint<C>,
    payload: &[u8],
    out: &mut Outbox,
) -> Result<(), SendFault>
    ensures sends { end.old.state.phase ≡ phases.Open → length payload.now ≤ 1024
        → (value_in end.old.state.rows Ccid Here ≢ 2) ⊎ (value_in end.old.state.rows SendAckVector There ≡ 1)
        → in_flight_of C.control end.old.congestion < window_of C.control end.old.congestion → result ≡ Ok tt }
    ensures open { result ≡ Ok tt → end.old.state.phase ≡ phases.Open }
    ensures short { result ≡ Ok tt → length payload.now ≤ 1024 }
    ensures reported { result ≡ Ok tt → value_in end.old.state.rows Ccid Here ≡ 2 → value_in end.old.state.rows SendAckVector There ≡ 1 }
    ensures room { result ≡ Ok tt → in_flight_of C.control end.old.congestion < window_of C.control end.old.congestion }
    ensures refused { (fault : SendFault) → result ≡ Err fault → (end.new ≡ end.old) × (out.new ≡ None) }
{
    end.send(payload, out)
}
