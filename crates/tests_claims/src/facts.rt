//! What a reader can rely on for the facts of two ends after every list of events.
ghost use Rattle.std.specs.Prelude.{◌≡◌, ◌≢◌, ◌⊎◌, ◌↔◌, ◌+◌, ◌-◌, ◌^◌, ◌<◌, ◌≤◌, ℕ, List, [], true, false, Some, None, Contains, length, slice_get, take};
ghost use Rattle.ack_vectors.specs.Vector.{is_whole_under};
ghost use Rattle.ack_vectors.specs.declared.received.VectorRecord.{VectorRecord};
ghost use Rattle.dccp_endpoint.specs.End.{floor_of, is_live, marked_of};
ghost use Rattle.dccp_endpoint.specs.Receiving.{receives};
ghost use Rattle.dccp_endpoint.specs.Reporting.{is_acking};
ghost use Rattle.dccp_options.specs.Vectors.{ack_vectors};
ghost use Rattle.dccp_packets.specs.Grammar.{Parts, packet_type};
ghost use Rattle.dccp_packets.specs.Kinds.{ack_of};
ghost use Rattle.dccp_states.specs.declared.phase.Phase.TheVariants as phases;
ghost use Rattle.run_list.specs.MarkedSet.{has};
ghost use Rattle.seq_circle.specs.Circle.{IsBefore, IsFrom, IsWithin, residue};
ghost use Rattle.two_ends.specs.Controlled.{ControlledWorld};
ghost use Rattle.two_ends.specs.Frames.{is_reset, options_in, packet_of};
ghost use Rattle.two_ends.specs.Pairs.{FeatureAt, times_said};
ghost use Rattle.two_ends.specs.Placed.{count_of_own_numbers, has_own_number};
ghost use Rattle.two_ends.specs.Reached.{ReachedByEvents};
ghost use Rattle.two_ends.specs.World.{half_of};
ghost use Rattle.two_ends.specs.declared.frames.SentFrame.{SentFrame};
ghost use Rattle.world_events.specs.Actors.{other};
ghost use Rattle.world_events.specs.declared.event.Side.{Side};

use congestion_trait::Congestion;
use two_ends::{
    every_run_numbers_its_frames, frames_are_numbered_in_order, frames_say_one_thing_of_a_feature,
    records_are_of_own_frames, resets_move_nothing, sets_hold_what_was_processed,
    the_newest_acknowledgement_was_processed, what_is_heard_was_sent,
};

/// Frames have their numbers in order from the first, up to the greatest sent, and there are fewer than 2^47 (`number`,
/// `greatest`, `few`); a Reset without a connection has no option (`bare`). What an end has as its first and greatest
/// number received, and as its greatest acknowledged, was sent (`heard`, `acknowledged`).
pub fn numbers_are_in_order<C: Congestion>()
    ensures number { (w : ControlledWorld C) → ReachedByEvents C.control w → (side : Side) (index : ℕ) (frame : SentFrame)
        → slice_get (half_of w.world side).frames index ≡ Some frame
        → has_own_number (half_of w.world side).end.config.role (packet_of frame.bytes) ≡ true
        → frame.number ≡ residue ((half_of w.world side).end.marks.iss
        + count_of_own_numbers (half_of w.world side).end.config.role (take index (half_of w.world side).frames)) }
    ensures greatest { (w : ControlledWorld C) → ReachedByEvents C.control w → (side : Side)
        → (half_of w.world side).end.marks.gss ≡ residue ((half_of w.world side).end.marks.iss
        + count_of_own_numbers (half_of w.world side).end.config.role (half_of w.world side).frames + (2 ^ 48 - 1)) }
    ensures few { (w : ControlledWorld C) → ReachedByEvents C.control w → (side : Side) → length (half_of w.world side).frames < 2 ^ 47 }
    ensures bare { (w : ControlledWorld C) → ReachedByEvents C.control w → (side : Side) (index : ℕ) (frame : SentFrame)
        → slice_get (half_of w.world side).frames index ≡ Some frame
        → has_own_number (half_of w.world side).end.config.role (packet_of frame.bytes) ≡ false → options_in frame.bytes ≡ [] }
    ensures heard { (w : ControlledWorld C) → ReachedByEvents C.control w → (side : Side)
        → (is_live (half_of w.world side).end.phase ≡ true)
        ⊎ ((half_of w.world side).end.marks.isr ≡ 0 → (half_of w.world side).end.marks.gsr ≡ 0 → ⊥)
        → (early : ℕ) × (late : ℕ) × (early ≤ late)
        × (late < count_of_own_numbers (half_of w.world (other side)).end.config.role (half_of w.world (other side)).frames)
        × ((half_of w.world side).end.marks.isr ≡ residue ((half_of w.world (other side)).end.marks.iss + early))
        × ((half_of w.world side).end.marks.gsr ≡ residue ((half_of w.world (other side)).end.marks.iss + late)) }
    ensures acknowledged { (w : ControlledWorld C) → ReachedByEvents C.control w → (side : Side)
        → 1 ≤ count_of_own_numbers (half_of w.world side).end.config.role (half_of w.world side).frames
        → (place : ℕ) × (place < count_of_own_numbers (half_of w.world side).end.config.role (half_of w.world side).frames)
        × ((half_of w.world side).end.marks.gar ≡ residue ((half_of w.world side).end.marks.iss + place)) }
{
    every_run_numbers_its_frames::<C>();
    frames_are_numbered_in_order();
    what_is_heard_was_sent();
}

/// No number that an end processed is after its greatest received (`none_after`). From its floor up to that, its set
/// has just the numbers that it processed, and it counts them (`set`, `counted`); the floor is in between (`floor`). If
/// the greatest is that of an Ack or a DataAck, it was processed (`newest`, `live`). A Reset that arrives changes none
/// of this (`numbers`, `kept`).
pub fn sets_are_what_was_processed<C: Congestion>()
    ensures none_after { (w : ControlledWorld C) → ReachedByEvents C.control w → (side : Side) (n : ℕ) → Contains (half_of w.world side).processed n
        → IsBefore (half_of w.world side).end.marks.gsr n → ⊥ }
    ensures set { (w : ControlledWorld C) → ReachedByEvents C.control w → (side : Side) (n : ℕ) → 1 ≤ length (half_of w.world side).processed
        → n < 2 ^ 48 → IsFrom (floor_of (half_of w.world side).end) n → IsFrom n (half_of w.world side).end.marks.gsr
        → (has (half_of w.world side).end.received.set.numbers n ≡ true) ↔ Contains (half_of w.world side).processed n }
    ensures counted { (w : ControlledWorld C) → ReachedByEvents C.control w → (side : Side)
        → marked_of (half_of w.world side).end ≡ length (half_of w.world side).processed }
    ensures floor { (w : ControlledWorld C) → ReachedByEvents C.control w → (side : Side)
        → IsWithin (floor_of (half_of w.world side).end) (half_of w.world side).end.marks.isr (residue ((half_of w.world side).end.marks.gsr + 1)) }
    ensures newest { (w : ControlledWorld C) → ReachedByEvents C.control w → (side : Side) (index : ℕ) (frame : SentFrame) (packet : Parts)
        → (half_of w.world side).end.phase ≢ phases.Closed → 1 ≤ length (half_of w.world side).processed
        → slice_get (half_of w.world (other side)).frames index ≡ Some frame → packet_of frame.bytes ≡ Some packet
        → is_acking (packet_type packet.header.kind) ≡ true → frame.number ≡ (half_of w.world side).end.marks.gsr
        → Contains (half_of w.world side).processed (half_of w.world side).end.marks.gsr }
    ensures live { (w : ControlledWorld C) → ReachedByEvents C.control w → (side : Side) (index : ℕ) (frame : SentFrame) (packet : Parts)
        → is_live (half_of w.world side).end.phase ≡ true → slice_get (half_of w.world (other side)).frames index ≡ Some frame
        → packet_of frame.bytes ≡ Some packet → is_acking (packet_type packet.header.kind) ≡ true
        → frame.number ≡ (half_of w.world side).end.marks.gsr
        → Contains (half_of w.world side).processed (half_of w.world side).end.marks.gsr }
    ensures numbers { (w : ControlledWorld C) → ReachedByEvents C.control w → (side : Side) (bytes : List ℕ) (packet : Parts)
        → packet_of bytes ≡ Some packet → is_reset packet.header.kind ≡ true
        → ((receives (half_of w.world side).end bytes).after.marks.isr ≡ (half_of w.world side).end.marks.isr)
        × ((receives (half_of w.world side).end bytes).after.marks.gsr ≡ (half_of w.world side).end.marks.gsr)
        × ((receives (half_of w.world side).end bytes).after.marks.osr ≡ (half_of w.world side).end.marks.osr)
        × ((receives (half_of w.world side).end bytes).after.marks.gar ≡ (half_of w.world side).end.marks.gar) }
    ensures kept { (w : ControlledWorld C) → ReachedByEvents C.control w → (side : Side) (bytes : List ℕ) (packet : Parts)
        → packet_of bytes ≡ Some packet → is_reset packet.header.kind ≡ true
        → ((receives (half_of w.world side).end bytes).after.rows ≡ (half_of w.world side).end.rows)
        × ((receives (half_of w.world side).end bytes).after.received ≡ (half_of w.world side).end.received)
        × ((receives (half_of w.world side).end bytes).after.marked ≡ (half_of w.world side).end.marked) }
{
    every_run_numbers_its_frames::<C>();
    sets_hold_what_was_processed();
    the_newest_acknowledgement_was_processed();
    resets_move_nothing();
}

/// Each record of an Ack Vector is that of a frame of its own side (`recorded`). No frame says two things of one
/// feature and side, or has an Ack Vector without an acknowledgement number (`once`, `vectors`).
pub fn records_and_frames_agree<C: Congestion>()
    ensures recorded { (w : ControlledWorld C) → ReachedByEvents C.control w → (side : Side) (r : VectorRecord)
        → Contains (half_of w.world side).end.received.records r
        → (index : ℕ) × (frame : SentFrame) × (packet : Parts) × (slice_get (half_of w.world side).frames index ≡ Some frame)
        × (packet_of frame.bytes ≡ Some packet) × (is_acking (packet_type packet.header.kind) ≡ true)
        × (frame.number ≡ r.number) × (frame.ack ≡ Some r.ack)
        × (r.whole ≡ is_whole_under (has (take frame.processed (half_of w.world side).processed)) frame.floor r.ack
        (half_of w.world side).end.config.vectors) × (IsBefore (floor_of (half_of w.world side).end) frame.floor → ⊥) }
    ensures once { (w : ControlledWorld C) → ReachedByEvents C.control w → (side : Side) (index : ℕ) (frame : SentFrame) (pair : FeatureAt)
        → slice_get (half_of w.world side).frames index ≡ Some frame → times_said pair side frame.bytes ≤ 1 }
    ensures vectors { (w : ControlledWorld C) → ReachedByEvents C.control w → (side : Side) (index : ℕ) (frame : SentFrame) (packet : Parts)
        → slice_get (half_of w.world side).frames index ≡ Some frame → packet_of frame.bytes ≡ Some packet
        → ack_of packet.header.kind ≡ None → ack_vectors (options_in frame.bytes) ≡ [] }
{
    every_run_numbers_its_frames::<C>();
    records_are_of_own_frames();
    frames_say_one_thing_of_a_feature();
}
