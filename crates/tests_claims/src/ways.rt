//! What a reader can rely on about progress, as lists of timers and deliveries. The two ends always have each other's
//! configurations.
ghost use Rattle.std.specs.Prelude.{◌≡◌, ◌⊎◌, ◌≤◌, ◌<◌, ◌+◌, ◌^◌, ◌-◌, ℕ, List, [], ◌∷◌, Some, Ok, false, drop, length, slice_get};
ghost use Rattle.dccp_endpoint.specs.Calling.{lacks_vectors};
ghost use Rattle.dccp_endpoint.specs.Drafts.{Fits};
ghost use Rattle.dccp_endpoint.specs.End.{held_of};
ghost use Rattle.dccp_endpoint.specs.declared.config.Config.{Config};
ghost use Rattle.dccp_states.specs.declared.outcome.Outcome.TheVariants as outcome;
ghost use Rattle.dccp_states.specs.declared.phase.Role.TheVariants as role;
ghost use Rattle.dccp_states.specs.declared.seen.Seen.TheVariants as seen;
ghost use Rattle.feature_lists.specs.declared.features.Feature.{Feature};
ghost use Rattle.feature_lists.specs.declared.features.Place.{Place};
ghost use Rattle.feature_lists.specs.declared.features.Place.TheVariants as place;
ghost use Rattle.feature_machine.specs.declared.stands.Stand.TheVariants.{Stable};
ghost use Rattle.two_ends.specs.Controlled.{ControlledWorld, ControlledStep, happens_to, plays, plays_from_start};
ghost use Rattle.two_ends.specs.Reached.{ReachedByEvents};
ghost use Rattle.two_ends.specs.World.{half_of};
ghost use Rattle.two_ends.specs.declared.frames.SentFrame.{SentFrame};
ghost use Rattle.two_ends_progress.specs.Paired.{AreForEachOther};
ghost use Rattle.world_events.specs.declared.event.Event.{Event};
ghost use Rattle.world_events.specs.declared.event.Event.TheVariants as event;
ghost use Rattle.world_events.specs.declared.event.Side.{Side};
ghost use Rattle.tests_claims.specs.Ways.{AreBothOpen, IsAnEndOver, IsEndOver, IsPassiveWay};

use congestion_trait::Congestion;
use two_ends_progress::{
    closing_ends_both, data_get_through, negotiations_settle, openings_end_in_open,
    openings_get_through,
};

/// After `open` at most thirteen timers and deliveries lead both ends to OPEN, or an end is over.
pub fn an_opening_takes_thirteen_events<C: Congestion>()
    ensures { (client server : Config) (for_client for_server : C) → client.role ≡ role.Client → server.role ≡ role.Server
        → Fits client → Fits server → AreForEachOther client server
        → (way : List Event) × (IsPassiveWay 13 way
        × (IsAnEndOver (plays C.control (plays_from_start C.control client server for_client for_server (event.Open ∷ [])) way).world
        ⊎ AreBothOpen (plays C.control (plays_from_start C.control client server for_client for_server (event.Open ∷ [])) way).world)) }
{
    openings_get_through::<C>();
    openings_end_in_open::<C>();
}

/// If both ends are OPEN, at most twenty-four timers and deliveries settle all features, and each then has one value;
/// or an end is over.
pub fn a_negotiation_takes_twenty_four_events<C: Congestion>()
    ensures { (w : ControlledWorld C) (reached : ReachedByEvents C.control w) → AreForEachOther reached.client reached.server → AreBothOpen w.world
        → ((side : Side) → length (half_of w.world side).frames + 24 < 2 ^ 47 - 1)
        → (way : List Event) × (IsPassiveWay 24 way × (IsAnEndOver (plays C.control w way).world
        ⊎ ((feature : Feature)
        → ((held_of (plays C.control w way).world.client.end feature place.Here).stand ≡ Stable)
        × (((held_of (plays C.control w way).world.server.end feature place.There).stand ≡ Stable)
        × (((held_of (plays C.control w way).world.client.end feature place.Here).value
        ≡ (held_of (plays C.control w way).world.server.end feature place.There).value)
        × (((held_of (plays C.control w way).world.client.end feature place.There).stand ≡ Stable)
        × (((held_of (plays C.control w way).world.server.end feature place.Here).stand ≡ Stable)
        × ((held_of (plays C.control w way).world.client.end feature place.There).value
        ≡ (held_of (plays C.control w way).world.server.end feature place.Here).value)))))))) }
{
    negotiations_settle::<C>();
}

/// After `close` of either at most seven timers and deliveries lead both ends to CLOSED or TIMEWAIT.
pub fn a_closing_takes_seven_events<C: Congestion>()
    ensures { (w : ControlledWorld C) (reached : ReachedByEvents C.control w) (closer : Side) → AreForEachOther reached.client reached.server
        → AreBothOpen w.world → ((side : Side) → length (half_of w.world side).frames + 8 < 2 ^ 47 - 1)
        → (way : List Event) × (IsPassiveWay 7 way
        × ((side : Side) → IsEndOver (plays C.control (plays C.control w (event.Close closer ∷ [])) way).world side)) }
{
    closing_ends_both::<C>();
}

/// If both ends are OPEN and all rows of both are STABLE, and a sender gets the reports that its CCID needs, its data
/// get through after at most six timers and deliveries: `send` takes them, and the frame that goes out delivers exactly
/// these.
pub fn data_take_six_events<C: Congestion>()
    ensures { (w : ControlledWorld C) (reached : ReachedByEvents C.control w) (side : Side) (payload : List ℕ)
        → AreForEachOther reached.client reached.server → AreBothOpen w.world
        → ((each : Side) (feature : Feature) (at : Place) → (held_of (half_of w.world each).end feature at).stand ≡ Stable)
        → ((each : Side) → length (half_of w.world each).frames + 8 < 2 ^ 23) → lacks_vectors (half_of w.world side).end.rows ≡ false
        → length payload ≤ 1024
        → (way : List Event) × ((sent : ControlledStep C) × ((handed : ControlledStep C) × ((frame : SentFrame) × ((begins : ℕ)
        × (IsPassiveWay 6 way × ((happens_to C.control (plays C.control w way) (event.Send side payload) ≡ Ok sent)
        × ((sent.seen ≡ seen.Called (Ok tt))
        × ((happens_to C.control sent.after (event.Deliver side (length (half_of (plays C.control w way).world side).frames)) ≡ Ok handed)
        × ((handed.seen ≡ seen.Received (outcome.Took (Some (begins, length frame.bytes))))
        × ((slice_get (half_of sent.after.world side).frames (length (half_of (plays C.control w way).world side).frames) ≡ Some frame)
        × (drop begins frame.bytes ≡ payload))))))))))) }
{
    data_get_through::<C>();
}
