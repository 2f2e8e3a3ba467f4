//! What a reader can rely on for two ends after every list of events: the six parts of what is safe, and what is
//! delivered.
ghost use Rattle.std.specs.Prelude.{◌≡◌, ◌≢◌, ◌⊎◌, ℕ, ◌+◌, ◌^◌, ◌<◌, ◌≤◌, List, ◌∷◌, ◌++◌, [], Some, None, Ok, IsTrue, IsSome, Contains, true, false, length, take, drop, slice_get};
ghost use Rattle.ack_vectors.specs.Vector.{is_whole_under};
ghost use Rattle.congestion_trait.specs.Flight.{Has};
ghost use Rattle.congestion_trait.specs.declared.flight.Standing.TheVariants.{Reported};
ghost use Rattle.dccp_endpoint.specs.Drafts.{Fits};
ghost use Rattle.dccp_endpoint.specs.End.{floor_of, held_of};
ghost use Rattle.dccp_endpoint.specs.declared.config.Config.{Config};
ghost use Rattle.dccp_options.specs.Vectors.{is_received, state_at};
ghost use Rattle.dccp_packets.specs.Grammar.{Parts, packet_type};
ghost use Rattle.dccp_packets.specs.declared.header.PacketType.TheVariants as types;
ghost use Rattle.dccp_states.specs.declared.outcome.Outcome.TheVariants as outcomes;
ghost use Rattle.dccp_states.specs.declared.seen.Seen.TheVariants as seens;
ghost use Rattle.feature_lists.specs.Features.{initial_of};
ghost use Rattle.feature_lists.specs.Lists.{IsFirstShared, SharesNothing};
ghost use Rattle.feature_lists.specs.declared.features.Feature.{Feature};
ghost use Rattle.feature_lists.specs.declared.features.Place.TheVariants.{Here, There};
ghost use Rattle.feature_machine.specs.declared.stands.Stand.TheVariants.{Stable};
ghost use Rattle.run_list.specs.MarkedSet.{has};
ghost use Rattle.seq_circle.specs.Circle.{IsBefore};
ghost use Rattle.seq_circle.specs.Counts.{number_of};
ghost use Rattle.two_ends.specs.CameOf.{CameOfLists, CameOfLocation};
ghost use Rattle.two_ends.specs.Controlled.{ControlledWorld, begins_with, congestion_of};
ghost use Rattle.two_ends.specs.Counted.{AreAmongFirst, AreResets};
ghost use Rattle.two_ends.specs.Delivered.{frames_delivered};
ghost use Rattle.two_ends.specs.Frames.{packet_of};
ghost use Rattle.two_ends.specs.Negotiated.{HasSent, IsNotNegotiable, IsServerPriority, IsSettled, last_list_sent, last_value, list_said, pair_was_negotiated, value_said};
ghost use Rattle.two_ends.specs.Numbered.{Facts};
ghost use Rattle.two_ends.specs.Pairs.{FeatureAt, held_at, said_by};
ghost use Rattle.two_ends.specs.Reached.{ReachedByEvents};
ghost use Rattle.two_ends.specs.Reported.{HasSentVector, IsSpokenOf, IsUntold, processed_by};
ghost use Rattle.two_ends.specs.Safe.{Safe};
ghost use Rattle.two_ends.specs.World.{half_of};
ghost use Rattle.two_ends.specs.declared.frames.SentFrame.{SentFrame};
ghost use Rattle.world_events.specs.Actors.{other};
ghost use Rattle.world_events.specs.declared.event.Event.{Event};
ghost use Rattle.world_events.specs.declared.event.Event.TheVariants as events;
ghost use Rattle.world_events.specs.declared.event.Side.{Side};
ghost use Rattle.world_events.specs.declared.event.Side.TheVariants.{Client, Server};

use congestion_trait::Congestion;
use two_ends::{
    Event, Seen, World, WorldFault, data_are_delivered_once,
    delivered_data_are_those_of_their_frame, every_run_is_safe, no_number_is_processed_again,
    settled_features_are_alike, values_come_from_both_sides, vectors_tell_what_was_processed,
    what_is_reported_arrived, what_none_told_is_far_below,
};

/// *agree*: if a feature is settled at both ends, they hold one value (`clients`, `servers`): the first of the server's
/// last list that is also in the client's, if there is one, and then each has sent a list (`shared`, `listed`); or what
/// the location sent last (`told`).
pub fn settled_ends_hold_one_value<C: Congestion>()
    ensures clients { (w : ControlledWorld C) → ReachedByEvents C.control w → (feature : Feature)
        → (held_of w.world.client.end feature Here).stand ≡ Stable → (held_of w.world.server.end feature There).stand ≡ Stable
        → (held_of w.world.client.end feature Here).value ≡ (held_of w.world.server.end feature There).value }
    ensures servers { (w : ControlledWorld C) → ReachedByEvents C.control w → (feature : Feature)
        → (held_of w.world.client.end feature There).stand ≡ Stable → (held_of w.world.server.end feature Here).stand ≡ Stable
        → (held_of w.world.client.end feature There).value ≡ (held_of w.world.server.end feature Here).value }
    ensures listed { (w : ControlledWorld C) → ReachedByEvents C.control w → (pair : FeatureAt) (side : Side) → IsSettled w.world pair
        → IsServerPriority pair → IsTrue (pair_was_negotiated w.world pair) → IsSome (last_list_sent w.world pair side) }
    ensures shared { (w : ControlledWorld C) → ReachedByEvents C.control w → (pair : FeatureAt) (side : Side) (value : ℕ) (servers clients : List ℕ)
        → IsSettled w.world pair → IsServerPriority pair → last_list_sent w.world pair Server ≡ Some servers
        → last_list_sent w.world pair Client ≡ Some clients → IsFirstShared servers clients value → (held_at w.world pair side).value ≡ value }
    ensures told { (w : ControlledWorld C) → ReachedByEvents C.control w → (pair : FeatureAt) (side : Side) (value : ℕ) → IsSettled w.world pair
        → IsNotNegotiable pair → IsTrue (pair_was_negotiated w.world pair) → last_value w.world pair ≡ Some value
        → (held_at w.world pair side).value ≡ value }
{
    every_run_is_safe::<C>();
    settled_features_are_alike::<C>();
}

/// *given*: a value that is not the initial one is in frames: it is the first that lists of both share (`listed`), or
/// the location sent it (`said`). It is the initial one if a side sent no list (`silent`), if no two lists share an
/// entry (`apart`), and if the location sent none (`untold`).
pub fn each_value_was_given<C: Congestion>()
    ensures listed { (w : ControlledWorld C) → ReachedByEvents C.control w → (pair : FeatureAt) (side : Side) → IsServerPriority pair
        → (held_at w.world pair side).value ≢ initial_of pair.feature → CameOfLists w.world pair (held_at w.world pair side).value }
    ensures said { (w : ControlledWorld C) → ReachedByEvents C.control w → (pair : FeatureAt) (side : Side) → IsNotNegotiable pair
        → (held_at w.world pair side).value ≢ initial_of pair.feature → CameOfLocation w.world pair (held_at w.world pair side).value }
    ensures silent { (w : ControlledWorld C) → ReachedByEvents C.control w → (pair : FeatureAt) (quiet side : Side) → IsServerPriority pair
        → ((index : ℕ) (frame : SentFrame) → slice_get (half_of w.world quiet).frames index ≡ Some frame
        → list_said (said_by pair quiet frame.bytes) ≡ None) → (held_at w.world pair side).value ≡ initial_of pair.feature }
    ensures apart { (w : ControlledWorld C) → ReachedByEvents C.control w → (pair : FeatureAt) (side : Side) → IsServerPriority pair
        → ((servers clients : List ℕ) → HasSent w.world pair Server servers → HasSent w.world pair Client clients → SharesNothing servers clients)
        → (held_at w.world pair side).value ≡ initial_of pair.feature }
    ensures untold { (w : ControlledWorld C) → ReachedByEvents C.control w → (pair : FeatureAt) (side : Side) → IsNotNegotiable pair
        → ((index : ℕ) (frame : SentFrame) → slice_get (half_of w.world pair.location).frames index ≡ Some frame
        → value_said (said_by pair pair.location frame.bytes) ≡ None) → (held_at w.world pair side).value ≡ initial_of pair.feature }
{
    every_run_is_safe::<C>();
    values_come_from_both_sides::<C>();
}

/// *truthful*: for every Ack Vector ever sent: what it reports as received was processed when it was sent (`received`),
/// what it reports otherwise was not (`missing`), a whole one leaves out nothing that was processed (`all`), and
/// nothing after its acknowledgement number was processed (`none_after`).
pub fn each_vector_is_true<C: Congestion>()
    ensures received { (w : ControlledWorld C) → ReachedByEvents C.control w → (side : Side) (frame : SentFrame) (ack n : ℕ) (bytes : List ℕ)
        → HasSentVector (half_of w.world side) frame ack bytes → ack < 2 ^ 48 → n < 2 ^ 48
        → IsTrue (is_received (state_at ack bytes n)) → Contains (processed_by (half_of w.world side) frame) n }
    ensures missing { (w : ControlledWorld C) → ReachedByEvents C.control w → (side : Side) (frame : SentFrame) (ack n state : ℕ) (bytes : List ℕ)
        → HasSentVector (half_of w.world side) frame ack bytes → frame.floor < 2 ^ 48 → ack < 2 ^ 48 → n < 2 ^ 48
        → state_at ack bytes n ≡ Some state → is_received (Some state) ≡ false → Contains (processed_by (half_of w.world side) frame) n → ⊥ }
    ensures all { (w : ControlledWorld C) → ReachedByEvents C.control w → (side : Side) (frame : SentFrame) (ack n : ℕ) (bytes : List ℕ)
        → HasSentVector (half_of w.world side) frame ack bytes
        → is_whole_under (has (processed_by (half_of w.world side) frame)) frame.floor ack (half_of w.world side).end.config.vectors ≡ true
        → IsSpokenOf frame ack n → Contains (processed_by (half_of w.world side) frame) n → IsTrue (is_received (state_at ack bytes n)) }
    ensures none_after { (w : ControlledWorld C) → ReachedByEvents C.control w → (side : Side) (frame : SentFrame) (ack n : ℕ) (bytes : List ℕ)
        → HasSentVector (half_of w.world side) frame ack bytes → Contains (processed_by (half_of w.world side) frame) n → IsBefore ack n → ⊥ }
{
    every_run_is_safe::<C>();
    vectors_tell_what_was_processed::<C>();
}

/// *told*: what lies below a floor was reported in a whole vector that arrived, or a number 2,048 or more after it was
/// processed.
pub fn what_lies_below_a_floor_was_told<C: Congestion>()
    ensures { (w : ControlledWorld C) → ReachedByEvents C.control w → (side : Side) (iss first count floor : ℕ) → iss < 2 ^ 48 → 1 ≤ first
        → first ≤ count → count < floor → floor ≤ 2 ^ 47 + 1 → count + 2047 ≤ 2 ^ 47
        → (half_of w.world side).end.marks.isr ≡ number_of iss first → floor_of (half_of w.world side).end ≡ number_of iss floor
        → IsUntold w.world side (number_of iss count) → AreAmongFirst iss (count + 2047) (half_of w.world side).processed → ⊥ }
{
    every_run_is_safe::<C>();
    what_none_told_is_far_below::<C>();
}

/// *once* and *heard*: no number is processed both early and late (`once`), and none that the other side did not send
/// (`sent`); and what a congestion control has as Reported was processed by the other side (`heard`).
pub fn each_number_is_processed_once<C: Congestion>()
    ensures once { (w : ControlledWorld C) → ReachedByEvents C.control w → (side : Side) (early n : ℕ)
        → Contains (take early (half_of w.world side).processed) n → Contains (drop early (half_of w.world side).processed) n → ⊥ }
    ensures sent { (w : ControlledWorld C) → ReachedByEvents C.control w → (side : Side) (n : ℕ) → AreResets (half_of w.world (other side)).frames n
        → Contains (half_of w.world side).processed n → ⊥ }
    ensures heard { (w : ControlledWorld C) → ReachedByEvents C.control w → (side : Side) (n : ℕ)
        → Has (C.control.flight (congestion_of w side)) n Reported → Contains (half_of w.world (other side)).processed n }
{
    every_run_is_safe::<C>();
    no_number_is_processed_again::<C>();
    what_is_reported_arrived::<C>();
}

/// Of all frames whose data a list of events delivers, no two are the same.
pub fn no_data_are_delivered_again<C: Congestion>()
    ensures { (client server : Config) (for_client for_server : C) (events : List Event) (i j : ℕ) (frame : Side × ℕ) → Fits client → Fits server
        → slice_get (frames_delivered C.control (begins_with C.control client server for_client for_server) events) i ≡ Some frame
        → slice_get (frames_delivered C.control (begins_with C.control client server for_client for_server) events) j ≡ Some frame → i ≡ j }
{
    data_are_delivered_once::<C>();
}

/// A step that delivers data delivers those of a frame that arrives, a Data or a DataAck: all bytes from a place up to
/// the frame's end, which are its payload; and after it the receiver has processed the frame's number (`delivers`).
/// Every step leaves a safe world, with all its facts (`safe`, `facts`).
pub fn stepped<C: Congestion>(world: &mut World<C>, event: &Event) -> Result<Seen, WorldFault>
    ensures delivers { (begins ends : ℕ) → result ≡ Ok (seens.Received (outcomes.Took (Some (begins, ends))))
        → (from : Side) × ((index : ℕ) × ((frame : SentFrame) × ((packet : Parts) × ((event.now ≡ events.Deliver from index)
        × ((slice_get (half_of world.old.world from).frames index ≡ Some frame) × ((packet_of frame.bytes ≡ Some packet)
        × (((packet_type packet.header.kind ≡ types.Data) ⊎ (packet_type packet.header.kind ≡ types.DataAck))
        × ((drop begins frame.bytes ≡ packet.payload) × ((ends ≡ length frame.bytes)
        × ((half_of world.new.world (other from)).processed ≡ (half_of world.old.world (other from)).processed ++ frame.number ∷ [])))))))))) }
    ensures safe { Safe C.control world.new }
    ensures facts { Facts world.new.world }
{
    delivered_data_are_those_of_their_frame::<C>();
    world.step(event)
}
