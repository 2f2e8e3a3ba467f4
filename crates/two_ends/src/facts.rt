//! What each fact of a world means, in plain words: a function for each, whose clauses follow from it and from no
//! weaker one.
ghost use Rattle.std.specs.Prelude.{◌≡◌, ◌≢◌, ◌⊎◌, ◌↔◌, ℕ, ◌+◌, ◌-◌, ◌^◌, ◌<◌, ◌≤◌, List, [], length, true, false, Some, None, Contains, take, slice_get};
ghost use Rattle.ack_vectors.specs.Vector.{is_whole_under};
ghost use Rattle.ack_vectors.specs.declared.received.VectorRecord.{VectorRecord};
ghost use Rattle.dccp_endpoint.specs.End.{floor_of, is_live, marked_of};
ghost use Rattle.dccp_endpoint.specs.Receiving.{receives};
ghost use Rattle.dccp_endpoint.specs.Reporting.{is_acking};
ghost use Rattle.dccp_options.specs.Vectors.{ack_vectors};
ghost use Rattle.dccp_packets.specs.Grammar.{Parts, packet_type};
ghost use Rattle.dccp_packets.specs.Kinds.{ack_of};
ghost use Rattle.dccp_states.specs.declared.phase.Phase.TheVariants as phases;
ghost use Rattle.run_list.specs.MarkedSet.{has};
ghost use Rattle.seq_circle.specs.Circle.{IsBefore, IsFrom, IsWithin, residue};
ghost use Rattle.world_events.specs.Actors.{other};
ghost use Rattle.world_events.specs.declared.event.Side.{Side};
ghost use Rattle.two_ends.specs.declared.frames.SentFrame.{SentFrame};
ghost use Rattle.two_ends.specs.Frames.{is_reset, options_in, packet_of};
ghost use Rattle.two_ends.specs.Numbered.{Facts};
ghost use Rattle.two_ends.specs.Pairs.{FeatureAt, times_said};
ghost use Rattle.two_ends.specs.Placed.{count_of_own_numbers, has_own_number};
ghost use Rattle.two_ends.specs.World.{WorldState, half_of};

/// Except for Resets without a connection, a side's frames carry its first number, the next, and so on up to its
/// greatest number sent: a frame's number is as many steps after the first as frames went before it. There are fewer
/// than 2^47 (RFC 4340, section 7.1). A Reset without a connection carries no option (own).
pub fn frames_are_numbered_in_order()
    ensures number { (w : WorldState) → Facts w → (side : Side) (index : ℕ) (frame : SentFrame)
        → slice_get (half_of w side).frames index ≡ Some frame
        → has_own_number (half_of w side).end.config.role (packet_of frame.bytes) ≡ true
        → frame.number ≡ residue ((half_of w side).end.marks.iss
        + count_of_own_numbers (half_of w side).end.config.role (take index (half_of w side).frames)) }
    ensures greatest { (w : WorldState) → Facts w → (side : Side)
        → (half_of w side).end.marks.gss ≡ residue ((half_of w side).end.marks.iss
        + count_of_own_numbers (half_of w side).end.config.role (half_of w side).frames + (2 ^ 48 - 1)) }
    ensures few { (w : WorldState) → Facts w → (side : Side) → length (half_of w side).frames < 2 ^ 47 }
    ensures bare { (w : WorldState) → Facts w → (side : Side) (index : ℕ) (frame : SentFrame)
        → slice_get (half_of w side).frames index ≡ Some frame
        → has_own_number (half_of w side).end.config.role (packet_of frame.bytes) ≡ false → options_in frame.bytes ≡ [] }
{}

/// In a phase in which a first number was received, that number and the greatest received are numbers of frames of the
/// connection that the other side sent, and the first is not the later one. The same holds if one of the two is not 0.
/// The greatest number known acknowledged is one that the side itself sent, once it has sent one (RFC 4340, section
/// 7.1).
pub fn what_is_heard_was_sent()
    ensures heard { (w : WorldState) → Facts w → (side : Side)
        → (is_live (half_of w side).end.phase ≡ true)
        ⊎ ((half_of w side).end.marks.isr ≡ 0 → (half_of w side).end.marks.gsr ≡ 0 → ⊥)
        → (early : ℕ) × (late : ℕ) × (early ≤ late)
        × (late < count_of_own_numbers (half_of w (other side)).end.config.role (half_of w (other side)).frames)
        × ((half_of w side).end.marks.isr ≡ residue ((half_of w (other side)).end.marks.iss + early))
        × ((half_of w side).end.marks.gsr ≡ residue ((half_of w (other side)).end.marks.iss + late)) }
    ensures acknowledged { (w : WorldState) → Facts w → (side : Side)
        → 1 ≤ count_of_own_numbers (half_of w side).end.config.role (half_of w side).frames
        → (place : ℕ) × (place < count_of_own_numbers (half_of w side).end.config.role (half_of w side).frames)
        × ((half_of w side).end.marks.gar ≡ residue ((half_of w side).end.marks.iss + place)) }
{}

/// No number that a side processed is after its greatest number received. From its floor up to that, its set has just
/// the numbers that it processed, and its end counts them. The floor lies between the first number received and the one
/// after the greatest (RFC 4340, section 11.4; the floor is own).
pub fn sets_hold_what_was_processed()
    ensures none_after { (w : WorldState) → Facts w → (side : Side) (n : ℕ) → Contains (half_of w side).processed n
        → IsBefore (half_of w side).end.marks.gsr n → ⊥ }
    ensures set { (w : WorldState) → Facts w → (side : Side) (n : ℕ) → 1 ≤ length (half_of w side).processed → n < 2 ^ 48
        → IsFrom (floor_of (half_of w side).end) n → IsFrom n (half_of w side).end.marks.gsr
        → (has (half_of w side).end.received.set.numbers n ≡ true) ↔ Contains (half_of w side).processed n }
    ensures counted { (w : WorldState) → Facts w → (side : Side) → marked_of (half_of w side).end ≡ length (half_of w side).processed }
    ensures floor { (w : WorldState) → Facts w → (side : Side)
        → IsWithin (floor_of (half_of w side).end) (half_of w side).end.marks.isr (residue ((half_of w side).end.marks.gsr + 1)) }
{}

/// A Reset that arrives changes no number received, none acknowledged, no row, and nothing that was marked (own).
pub fn resets_move_nothing()
    ensures numbers { (w : WorldState) → Facts w → (side : Side) (bytes : List ℕ) (packet : Parts) → packet_of bytes ≡ Some packet
        → is_reset packet.header.kind ≡ true
        → ((receives (half_of w side).end bytes).after.marks.isr ≡ (half_of w side).end.marks.isr)
        × ((receives (half_of w side).end bytes).after.marks.gsr ≡ (half_of w side).end.marks.gsr)
        × ((receives (half_of w side).end bytes).after.marks.osr ≡ (half_of w side).end.marks.osr)
        × ((receives (half_of w side).end bytes).after.marks.gar ≡ (half_of w side).end.marks.gar) }
    ensures kept { (w : WorldState) → Facts w → (side : Side) (bytes : List ℕ) (packet : Parts) → packet_of bytes ≡ Some packet
        → is_reset packet.header.kind ≡ true
        → ((receives (half_of w side).end bytes).after.rows ≡ (half_of w side).end.rows)
        × ((receives (half_of w side).end bytes).after.received ≡ (half_of w side).end.received)
        × ((receives (half_of w side).end bytes).after.marked ≡ (half_of w side).end.marked) }
{}

/// If the frame of the greatest number received is an Ack or a DataAck, the number was processed. This holds once some
/// number was processed, in every phase except CLOSED, also in TIMEWAIT; and in each phase in which a first number was
/// received (own).
pub fn the_newest_acknowledgement_was_processed()
    ensures processed { (w : WorldState) → Facts w → (side : Side) (index : ℕ) (frame : SentFrame) (packet : Parts)
        → (half_of w side).end.phase ≢ phases.Closed → 1 ≤ length (half_of w side).processed
        → slice_get (half_of w (other side)).frames index ≡ Some frame → packet_of frame.bytes ≡ Some packet
        → is_acking (packet_type packet.header.kind) ≡ true → frame.number ≡ (half_of w side).end.marks.gsr
        → Contains (half_of w side).processed (half_of w side).end.marks.gsr }
    ensures live { (w : WorldState) → Facts w → (side : Side) (index : ℕ) (frame : SentFrame) (packet : Parts)
        → is_live (half_of w side).end.phase ≡ true → slice_get (half_of w (other side)).frames index ≡ Some frame
        → packet_of frame.bytes ≡ Some packet
        → is_acking (packet_type packet.header.kind) ≡ true → frame.number ≡ (half_of w side).end.marks.gsr
        → Contains (half_of w side).processed (half_of w side).end.marks.gsr }
{}

/// Each record of an Ack Vector is of a frame of its own side, an Ack or a DataAck, with that frame's number and the
/// one that it acknowledges, and says whether the vector of what was processed then was whole (RFC 4340, section
/// 11.4.2).
pub fn records_are_of_own_frames()
    ensures { (w : WorldState) → Facts w → (side : Side) (r : VectorRecord) → Contains (half_of w side).end.received.records r
        → (index : ℕ) × (frame : SentFrame) × (packet : Parts) × (slice_get (half_of w side).frames index ≡ Some frame)
        × (packet_of frame.bytes ≡ Some packet) × (is_acking (packet_type packet.header.kind) ≡ true)
        × (frame.number ≡ r.number) × (frame.ack ≡ Some r.ack)
        × (r.whole ≡ is_whole_under (has (take frame.processed (half_of w side).processed)) frame.floor r.ack
        (half_of w side).end.config.vectors) × (IsBefore (floor_of (half_of w side).end) frame.floor → ⊥) }
{}

/// No frame says two things about one feature and side, and none has an Ack Vector without an acknowledgement number
/// (RFC 4340, sections 6 and 11.4).
pub fn frames_say_one_thing_of_a_feature()
    ensures once { (w : WorldState) → Facts w → (side : Side) (index : ℕ) (frame : SentFrame) (pair : FeatureAt)
        → slice_get (half_of w side).frames index ≡ Some frame → times_said pair side frame.bytes ≤ 1 }
    ensures vectors { (w : WorldState) → Facts w → (side : Side) (index : ℕ) (frame : SentFrame) (packet : Parts)
        → slice_get (half_of w side).frames index ≡ Some frame → packet_of frame.bytes ≡ Some packet
        → ack_of packet.header.kind ≡ None → ack_vectors (options_in frame.bytes) ≡ [] }
{}
