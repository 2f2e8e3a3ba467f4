//! What it means that a world is safe, in other words, and what else holds of frames' numbers and of what the ends ask
//! for.
//!
//! Each part of `Safe` has a function whose clauses follow from it and from no weaker one. A reader can compare them
//! with the definitions; numbers are plain counts in them.
ghost use Rattle.std.specs.Prelude.{◌≡◌, ◌≢◌, ◌⊎◌, ℕ, ◌+◌, ◌^◌, ◌<◌, ◌≤◌, true, false, List, [], ◌∷◌, ◌++◌, Some, None, IsTrue, IsSome, Contains, length, take, drop, slice_get};
ghost use Rattle.ack_vectors.specs.Vector.{is_whole_under};
ghost use Rattle.congestion_trait.specs.Flight.{Has};
ghost use Rattle.congestion_trait.specs.declared.flight.Standing.TheVariants as standing;
ghost use Rattle.dccp_endpoint.specs.Drafts.{Fits};
ghost use Rattle.dccp_endpoint.specs.End.{floor_of, held_of};
ghost use Rattle.dccp_endpoint.specs.declared.config.Config.{Config};
ghost use Rattle.dccp_options.specs.Vectors.{is_received, state_at};
ghost use Rattle.dccp_packets.specs.Grammar.{Parts, is_long, packet_type};
ghost use Rattle.dccp_packets.specs.Kinds.{ack_of, value_of};
ghost use Rattle.dccp_packets.specs.declared.header.PacketType.TheVariants as types;
ghost use Rattle.dccp_states.specs.declared.outcome.Outcome.TheVariants as outcome;
ghost use Rattle.dccp_states.specs.declared.phase.Role.TheVariants as role;
ghost use Rattle.feature_lists.specs.Features.{initial_of};
ghost use Rattle.feature_lists.specs.Lists.{IsFirstShared, SharesNothing, has_entry};
ghost use Rattle.feature_lists.specs.declared.features.Feature.{Feature};
ghost use Rattle.feature_lists.specs.declared.features.Place.{Place};
ghost use Rattle.feature_lists.specs.declared.features.Place.TheVariants as place;
ghost use Rattle.feature_machine.specs.declared.stands.Stand.TheVariants.{Stable};
ghost use Rattle.run_list.specs.MarkedSet.{has};
ghost use Rattle.seq_circle.specs.Circle.{IsBefore};
ghost use Rattle.seq_circle.specs.Counts.{number_of};
ghost use Rattle.world_events.specs.Actors.{other};
ghost use Rattle.world_events.specs.declared.event.Event.{Event};
ghost use Rattle.world_events.specs.declared.event.Event.TheVariants as events;
ghost use Rattle.dccp_states.specs.declared.seen.Seen.TheVariants as seen;
ghost use Rattle.world_events.specs.declared.event.Side.{Side};
ghost use Rattle.world_events.specs.declared.event.Side.TheVariants.{Client, Server};
ghost use Rattle.two_ends.specs.declared.frames.SentFrame.{SentFrame};
ghost use Rattle.two_ends.specs.Asked.{AllIsAsked, KeepsInitialValues};
ghost use Rattle.two_ends.specs.CameOf.{CameOfLists, CameOfLocation};
ghost use Rattle.two_ends.specs.Controlled.{ControlledWorld, IsNeverFar, congestion_of, plays, plays_from_start};
ghost use Rattle.two_ends.specs.Counted.{AreAmongFirst, AreResets};
ghost use Rattle.dccp_endpoint.specs.Spelled.{ack_in_width, in_width};
ghost use Rattle.two_ends.specs.Delivered.{DeliversItsData, IsDeliveredOnce, frames_delivered};
ghost use Rattle.two_ends.specs.Frames.{packet_of};
ghost use Rattle.two_ends.specs.Negotiated.{HasSent, IsNotNegotiable, IsServerPriority, IsSettled, last_list_sent, last_value, list_said, pair_was_negotiated, value_said};
ghost use Rattle.two_ends.specs.Numbered.{Facts};
ghost use Rattle.two_ends.specs.Pairs.{FeatureAt, held_at, said_by};
ghost use Rattle.two_ends.specs.Preferred.{AsksNothing, IsLastAsked, WantsValues, row_of, values_configured};
ghost use Rattle.two_ends.specs.Reached.{IsBeginning};
ghost use Rattle.two_ends.specs.Reported.{HasSentVector, IsSpokenOf, IsUntold, LiesBelowFloor, processed_by};
ghost use Rattle.two_ends.specs.Safe.{Safe};
ghost use Rattle.two_ends.specs.Shared.{ChangesByLists};
ghost use Rattle.two_ends.specs.World.{WorldState, half_of};

use congestion_trait::Congestion;
use dccp_endpoint::every_step_has_one_effect;

/// What *agree* means. A feature that both ends call settled has one value: the client holds for its own feature the
/// value that the server holds for the client's, and the other way round. If it was negotiated by lists, both have sent
/// one, and the value is the first entry of the server's last list that is in the client's last list (RFC 4340, section
/// 6.3.1). The value of a feature that is not negotiable is, at the other end too, the last one that its location sent.
pub fn settled_features_are_alike<C: Congestion>()
    ensures clients { (w : ControlledWorld C) → Safe C.control w → (feature : Feature)
        → (held_of w.world.client.end feature place.Here).stand ≡ Stable → (held_of w.world.server.end feature place.There).stand ≡ Stable
        → (held_of w.world.client.end feature place.Here).value ≡ (held_of w.world.server.end feature place.There).value }
    ensures servers { (w : ControlledWorld C) → Safe C.control w → (feature : Feature)
        → (held_of w.world.client.end feature place.There).stand ≡ Stable → (held_of w.world.server.end feature place.Here).stand ≡ Stable
        → (held_of w.world.client.end feature place.There).value ≡ (held_of w.world.server.end feature place.Here).value }
    ensures listed { (w : ControlledWorld C) → Safe C.control w → (pair : FeatureAt) (side : Side) → IsSettled w.world pair
        → IsServerPriority pair
        → IsTrue (pair_was_negotiated w.world pair) → IsSome (last_list_sent w.world pair side) }
    ensures first { (w : ControlledWorld C) → Safe C.control w
        → (pair : FeatureAt) (side : Side) (value : ℕ) (later clients : List ℕ)
        → IsSettled w.world pair → IsServerPriority pair → last_list_sent w.world pair Server ≡ Some (value ∷ later)
        → last_list_sent w.world pair Client ≡ Some clients → IsTrue (has_entry clients value) → (held_at w.world pair side).value ≡ value }
    ensures shared { (w : ControlledWorld C) → Safe C.control w
        → (pair : FeatureAt) (side : Side) (value : ℕ) (servers clients : List ℕ)
        → IsSettled w.world pair → IsServerPriority pair → last_list_sent w.world pair Server ≡ Some servers
        → last_list_sent w.world pair Client ≡ Some clients → IsFirstShared servers clients value → (held_at w.world pair side).value ≡ value }
    ensures told { (w : ControlledWorld C) → Safe C.control w → (pair : FeatureAt) (side : Side) (value : ℕ)
        → IsSettled w.world pair → IsNotNegotiable pair
        → IsTrue (pair_was_negotiated w.world pair) → last_value w.world pair ≡ Some value → (held_at w.world pair side).value ≡ value }
{}

/// What *given* means, in all stands. An end holds the initial value of a feature in three cases: as long as one of the
/// two sides has sent no list for it; if no list of the server's shares an entry with one of the client's; or, if the
/// feature is not negotiable, as long as its location has sent no value. Another value is the first entry in a list of
/// the server's that is in one of the client's too, or else one that the location sent.
pub fn values_come_from_both_sides<C: Congestion>()
    ensures silent { (w : ControlledWorld C) → Safe C.control w → (pair : FeatureAt) (quiet side : Side)
        → IsServerPriority pair
        → ((index : ℕ) (frame : SentFrame) → slice_get (half_of w.world quiet).frames index ≡ Some frame → list_said (said_by pair quiet frame.bytes) ≡ None)
        → (held_at w.world pair side).value ≡ initial_of pair.feature }
    ensures apart { (w : ControlledWorld C) → Safe C.control w → (pair : FeatureAt) (side : Side) → IsServerPriority pair
        → ((servers clients : List ℕ) → HasSent w.world pair Server servers → HasSent w.world pair Client clients → SharesNothing servers clients)
        → (held_at w.world pair side).value ≡ initial_of pair.feature }
    ensures untold { (w : ControlledWorld C) → Safe C.control w → (pair : FeatureAt) (side : Side) → IsNotNegotiable pair
        → ((index : ℕ) (frame : SentFrame) → slice_get (half_of w.world pair.location).frames index ≡ Some frame
        → value_said (said_by pair pair.location frame.bytes) ≡ None) → (held_at w.world pair side).value ≡ initial_of pair.feature }
    ensures listed { (w : ControlledWorld C) → Safe C.control w → (pair : FeatureAt) (side : Side) → IsServerPriority pair
        → (held_at w.world pair side).value ≢ initial_of pair.feature → CameOfLists w.world pair (held_at w.world pair side).value }
    ensures said { (w : ControlledWorld C) → Safe C.control w → (pair : FeatureAt) (side : Side) → IsNotNegotiable pair
        → (held_at w.world pair side).value ≢ initial_of pair.feature → CameOfLocation w.world pair (held_at w.world pair side).value }
{}

/// What *truthful* means. A number that a vector reports as received is one that its sender had processed when it sent
/// the vector. A number that it reports as not received, whole or cut, is none of those. A whole vector reports as
/// received each of those from the frame's floor up to the number that it acknowledges. The sender had processed no
/// number after that.
pub fn vectors_tell_what_was_processed<C: Congestion>()
    ensures received { (w : ControlledWorld C) → Safe C.control w → (side : Side) (frame : SentFrame) (ack n : ℕ) (bytes : List ℕ)
        → HasSentVector (half_of w.world side) frame ack bytes → ack < 2 ^ 48 → n < 2 ^ 48
        → IsTrue (is_received (state_at ack bytes n)) → Contains (processed_by (half_of w.world side) frame) n }
    ensures missing { (w : ControlledWorld C) → Safe C.control w → (side : Side) (frame : SentFrame) (ack n state : ℕ) (bytes : List ℕ)
        → HasSentVector (half_of w.world side) frame ack bytes → frame.floor < 2 ^ 48 → ack < 2 ^ 48 → n < 2 ^ 48
        → state_at ack bytes n ≡ Some state → is_received (Some state) ≡ false → Contains (processed_by (half_of w.world side) frame) n → ⊥ }
    ensures all { (w : ControlledWorld C) → Safe C.control w → (side : Side) (frame : SentFrame) (ack n : ℕ) (bytes : List ℕ)
        → HasSentVector (half_of w.world side) frame ack bytes
        → is_whole_under (has (processed_by (half_of w.world side) frame)) frame.floor ack (half_of w.world side).end.config.vectors ≡ true
        → IsSpokenOf frame ack n
        → Contains (processed_by (half_of w.world side) frame) n → IsTrue (is_received (state_at ack bytes n)) }
    ensures none_after { (w : ControlledWorld C) → Safe C.control w → (side : Side) (frame : SentFrame) (ack n : ℕ) (bytes : List ℕ)
        → HasSentVector (half_of w.world side) frame ack bytes
        → Contains (processed_by (half_of w.world side) frame) n → IsBefore ack n → ⊥ }
{}

/// What *told* means, by plain counts. Take a number below an end's floor that no whole vector which the other side
/// processed has reported. Then the end has processed a number that is 2,048 or more after it. A packet lies below the
/// floor if its count is from that of ISR on, and less than that of the floor.
pub fn what_none_told_is_far_below<C: Congestion>()
    ensures by_counts { (w : ControlledWorld C) → Safe C.control w → (side : Side) (iss first count floor : ℕ) → iss < 2 ^ 48
        → 1 ≤ first → first ≤ count → count < floor → floor ≤ 2 ^ 47 + 1 → count + 2047 ≤ 2 ^ 47
        → (half_of w.world side).end.marks.isr ≡ number_of iss first → floor_of (half_of w.world side).end ≡ number_of iss floor
        → IsUntold w.world side (number_of iss count)
        → AreAmongFirst iss (count + 2047) (half_of w.world side).processed → ⊥ }
    ensures below { (w : ControlledWorld C) → Safe C.control w → (side : Side) (iss count n : ℕ) → iss < 2 ^ 48 → 1 ≤ count
        → count + 2047 ≤ 2 ^ 47
        → n ≡ number_of iss count → LiesBelowFloor (half_of w.world side) n → IsUntold w.world side n
        → AreAmongFirst iss (count + 2047) (half_of w.world side).processed → ⊥ }
{}

/// What the numbers that are kept of a frame mean, in each world whose facts hold: each frame is a packet with these as
/// its sequence number and acknowledgement number, in full if it has long numbers, and their low 24 bits if it has
/// short ones.
pub fn frames_spell_their_numbers()
    ensures packet { (w : WorldState) → Facts w → (side : Side) (index : ℕ) (frame : SentFrame)
        → slice_get (half_of w side).frames index ≡ Some frame
        → IsSome (packet_of frame.bytes) }
    ensures number { (w : WorldState) → Facts w → (side : Side) (index : ℕ) (frame : SentFrame) (packet : Parts)
        → slice_get (half_of w side).frames index ≡ Some frame → packet_of frame.bytes ≡ Some packet
        → value_of packet.header.number ≡ in_width (is_long packet.header.number) frame.number }
    ensures ack { (w : WorldState) → Facts w → (side : Side) (index : ℕ) (frame : SentFrame) (packet : Parts)
        → slice_get (half_of w side).frames index ≡ Some frame → packet_of frame.bytes ≡ Some packet
        → ack_of packet.header.kind ≡ ack_in_width (is_long packet.header.number) frame.ack }
{}

/// What it means that a step *delivers*, and that data are delivered once. Data come only from the delivery of a frame,
/// which is a Data or a DataAck. They are all of its payload, up to its end, and the receiving side has processed its
/// number by this step, and no other (`frame`). No frame is twice among those whose data a schedule delivers (`once`;
/// RFC 4340, section 8.5, step 16).
pub fn delivered_data_are_those_of_their_frame<C: Congestion>()
    ensures frame { (old new : WorldState) (event : Event) (begins ends : ℕ)
        → DeliversItsData old event new (seen.Received (outcome.Took (Some (begins, ends))))
        → (from : Side) × (index : ℕ) × (frame : SentFrame) × (packet : Parts) × (event ≡ events.Deliver from index)
        × (slice_get (half_of old from).frames index ≡ Some frame) × (packet_of frame.bytes ≡ Some packet)
        × ((packet_type packet.header.kind ≡ types.Data) ⊎ (packet_type packet.header.kind ≡ types.DataAck))
        × (begins ≤ ends) × (ends ≡ length frame.bytes) × (drop begins frame.bytes ≡ packet.payload)
        × ((half_of new (other from)).processed ≡ (half_of old (other from)).processed ++ frame.number ∷ []) }
    ensures once { (w : ControlledWorld C) (events : List Event) → IsDeliveredOnce C.control w events
        → (early late : ℕ) (named : Side × ℕ) → early < late → slice_get (frames_delivered C.control w events) early ≡ Some named
        → slice_get (frames_delivered C.control w events) late ≡ Some named → ⊥ }
{}

/// After every list of events no further event is refused as `FarShort`, as long as each side has sent fewer than 2^23
/// frames (own). An event sends at most one frame.
pub fn few_frames_are_never_far<C: Congestion>()
    ensures { (client server : Config) (for_client for_server : C) (events : List Event) (next : Event)
        → Fits client → Fits server → IsNeverFar C.control (plays_from_start C.control client server for_client for_server events) next }
{
    every_step_has_one_effect();
}

/// What *once* means. A side does not process a number that it processed before. It has not processed a number that the
/// other side has not sent, or has sent only in Resets.
pub fn no_number_is_processed_again<C: Congestion>()
    ensures apart { (w : ControlledWorld C) → Safe C.control w → (side : Side) (early n : ℕ)
        → Contains (take early (half_of w.world side).processed) n
        → Contains (drop early (half_of w.world side).processed) n → ⊥ }
    ensures sent { (w : ControlledWorld C) → Safe C.control w → (side : Side) (n : ℕ)
        → AreResets (half_of w.world (other side)).frames n
        → Contains (half_of w.world side).processed n → ⊥ }
{}

/// What *heard* means. A number that the flight list of a congestion control has as Reported was processed by the other
/// side. So its own side has sent it, and not only in Resets.
pub fn what_is_reported_arrived<C: Congestion>()
    ensures processed { (w : ControlledWorld C) → Safe C.control w → (side : Side) (n : ℕ)
        → Has (C.control.flight (congestion_of w side)) n standing.Reported → Contains (half_of w.world (other side)).processed n }
    ensures sent { (w : ControlledWorld C) → Safe C.control w → (side : Side) (n : ℕ)
        → AreResets (half_of w.world side).frames n
        → Has (C.control.flight (congestion_of w side)) n standing.Reported → ⊥ }
{}

/// A feature for which no frame of either side carries a Change has its initial value at both ends, whatever their
/// stands, after every list of events (RFC 4340, section 6).
pub fn what_none_asked_for_stays<C: Congestion>()
    ensures { (client server : Config) (for_client for_server : C) (events : List Event) → client.role ≡ role.Client
        → server.role ≡ role.Server
        → Fits client → Fits server → KeepsInitialValues (plays_from_start C.control client server for_client for_server events).world }
{
    every_step_has_one_effect();
}

/// After every list of events, the last list that an end sent for a feature is the active one of its row, and if the
/// row is STABLE, no later request waits. So if a row is STABLE and its end has sent a list, that list is what its
/// owner last asked for and was not refused, or otherwise what was configured.
pub fn last_lists_are_active<C: Congestion>()
    ensures { (client server : Config) (for_client for_server : C) (events : List Event) → client.role ≡ role.Client
        → server.role ≡ role.Server
        → Fits client → Fits server → AllIsAsked (plays_from_start C.control client server for_client for_server events).world }
{
    every_step_has_one_effect();
}

/// What an owner asked for last is what its end negotiates for, after every list of events. The values of the last
/// `prefer` of a side for a feature that was accepted are its row's active ones, or, in UNSTABLE, those that wait for
/// the row's next Change. If none was accepted, they are those that the side was configured with. So if a row is
/// STABLE, the last list that its end sent for it, if it sent one, has just these values ([`last_lists_are_active`]).
pub fn what_was_asked_last_is_wanted<C: Congestion>()
    ensures asked { (start : ControlledWorld C) (events : List Event) → IsBeginning C.control start
        → (side : Side) (feature : Feature) (place : Place) (values : List ℕ)
        → IsLastAsked C.control start events side feature place values
        → WantsValues (row_of (plays C.control start events).world side feature place) values }
    ensures configured { (start : ControlledWorld C) (events : List Event) → IsBeginning C.control start
        → (side : Side) (feature : Feature) (place : Place) → AsksNothing C.control start events side feature place
        → WantsValues (row_of (plays C.control start events).world side feature place) (values_configured start.world side feature place) }
{
    every_step_has_one_effect();
}

/// How a value changes. In every step of every list of events, the value that an end holds of a feature negotiated by
/// lists changes only to the first entry, in the server's order, that its active list shares with a list in a frame of
/// the other side (RFC 4340, section 6.3.1). So if nothing is shared, the value is the one held before.
pub fn values_change_by_shared_lists<C: Congestion>()
    ensures { (client server : Config) (for_client for_server : C) (events : List Event) (next : Event)
        → client.role ≡ role.Client
        → server.role ≡ role.Server → Fits client → Fits server
        → ChangesByLists (plays_from_start C.control client server for_client for_server events).world
        (plays_from_start C.control client server for_client for_server (events ++ next ∷ [])).world }
{
    every_step_has_one_effect();
}
