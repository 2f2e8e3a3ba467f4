//! The laws, each over every list of events and every kind of congestion control.
ghost use Rattle.std.specs.Prelude.{◌≡◌, ◌≢◌, ◌⊎◌, ◌≤◌, ◌<◌, ◌+◌, ◌^◌, ℕ, true, false, List, [], ◌∷◌, ◌++◌, Some, None, Ok, Contains, length, drop, slice_get};
ghost use Rattle.dccp_endpoint.specs.Calling.{lacks_vectors};
ghost use Rattle.dccp_endpoint.specs.Drafts.{Fits};
ghost use Rattle.dccp_endpoint.specs.End.{held_of, is_live, value_in};
ghost use Rattle.dccp_endpoint.specs.Steps.{next_number};
ghost use Rattle.dccp_endpoint.specs.declared.config.Config.{Config};
ghost use Rattle.dccp_states.specs.declared.calls.Timer.{Timer};
ghost use Rattle.dccp_states.specs.declared.phase.Phase.TheVariants as phases;
ghost use Rattle.dccp_states.specs.declared.phase.Role.TheVariants as role;
ghost use Rattle.dccp_states.specs.declared.outcome.Outcome.TheVariants as outcome;
ghost use Rattle.dccp_states.specs.declared.seen.Seen.TheVariants as seen;
ghost use Rattle.feature_lists.specs.declared.features.Feature.{Feature};
ghost use Rattle.feature_lists.specs.declared.features.Feature.TheVariants.{Ccid, SendAckVector};
ghost use Rattle.feature_lists.specs.declared.features.Place.{Place};
ghost use Rattle.feature_lists.specs.declared.features.Place.TheVariants as place;
ghost use Rattle.feature_machine.specs.declared.stands.Stand.TheVariants.{Stable};
ghost use Rattle.two_ends.specs.Controlled.{ControlledWorld, ControlledStep, happens_to, plays, plays_from_start};
ghost use Rattle.two_ends.specs.Reached.{IsBeginning};
ghost use Rattle.two_ends.specs.World.{WorldState, half_of};
ghost use Rattle.two_ends.specs.declared.frames.SentFrame.{SentFrame};
ghost use Rattle.two_ends_progress.specs.GettingThrough.{AreFew, GetsThrough, LacksReports};
ghost use Rattle.two_ends_progress.specs.Greatest.{GreatestIsMet};
ghost use Rattle.two_ends_progress.specs.Leading.{AreOpen, AreOver, HaveRoomFor, HasWay};
ghost use Rattle.two_ends_progress.specs.Opening.{AreConnected, HasEnded, IsInHandshake};
ghost use Rattle.two_ends_progress.specs.Paired.{AreForEachOther};
ghost use Rattle.two_ends_progress.specs.Settled.{AreSettled, HaveAgreed};
ghost use Rattle.validity_windows.specs.Verdict.{by_window};
ghost use Rattle.validity_windows.specs.declared.verdict.Verdict.TheVariants as verdicts;
ghost use Rattle.world_events.specs.Actors.{other};
ghost use Rattle.world_events.specs.declared.event.Event.{Event};
ghost use Rattle.world_events.specs.declared.event.Event.TheVariants as event;
ghost use Rattle.world_events.specs.declared.event.Side.{Side};

use congestion_trait::Congestion;
use dccp_endpoint::every_step_has_one_effect;
use two_ends::every_run_is_safe;

/// A connection can be closed. If both ends are OPEN, whatever led there, and either side is asked to close, then at
/// most seven timers and deliveries lead both to CLOSED or TIMEWAIT (RFC 4340, section 8.3). Premises: the
/// configurations are for each other, as they are if frames of the one pass the checksum and the ports of the other;
/// and neither side is near the 2^47 - 1 frames after which it takes no event.
pub fn closing_ends_both<C: Congestion>()
    ensures { (client server : Config) (for_client for_server : C) (events : List Event) (side : Side) → client.role ≡ role.Client
        → server.role ≡ role.Server → Fits client → Fits server → AreForEachOther client server
        → AreOpen (plays_from_start C.control client server for_client for_server events).world
        → HaveRoomFor 8 (plays_from_start C.control client server for_client for_server events).world
        → HasWay C.control 7 (plays C.control (plays_from_start C.control client server for_client for_server events) (event.Close side ∷ []))
        (λ (w : ControlledWorld C). AreOver w.world) }
{
    every_step_has_one_effect();
}

/// What such a way of closing is, in plain words: a list of at most seven events (`few`), each of them a timer of a
/// side or the delivery of a frame (`passive`), after which each end is in CLOSED or in TIMEWAIT (`over`).
pub fn closing_takes_seven_events<C: Congestion>()
    ensures few { (w : ControlledWorld C) (way : HasWay C.control 7 w (λ (v : ControlledWorld C). AreOver v.world)) → length way.events ≤ 7 }
    ensures passive { (w : ControlledWorld C) (way : HasWay C.control 7 w (λ (v : ControlledWorld C). AreOver v.world)) (place : ℕ) (e : Event)
        → slice_get way.events place ≡ Some e
        → ((side : Side) × ((timer : Timer) × (e ≡ event.Timer side timer))) ⊎ ((from : Side) × ((index : ℕ) × (e ≡ event.Deliver from index))) }
    ensures over { (w : ControlledWorld C) (way : HasWay C.control 7 w (λ (v : ControlledWorld C). AreOver v.world)) (side : Side)
        → ((half_of (plays C.control w way.events).world side).end.phase ≡ phases.Closed)
        ⊎ ((half_of (plays C.control w way.events).world side).end.phase ≡ phases.TimeWait) }
{}

/// What an opening is that gets through, and what a way of it is, in plain words. In an opening the client asks, and
/// the server has heard nothing, or has answered a Request and would take the next; or the client is in PARTOPEN and
/// the server in RESPOND (`asking`, `again`, `answered`). The way is a list of at most four events (`few`), each of
/// them a timer of a side or the delivery of a frame (`passive`), after which an end is in CLOSED or in TIMEWAIT, or
/// each is in PARTOPEN or in OPEN (`through`).
pub fn openings_take_four_events<C: Congestion>()
    ensures asking { (w : WorldState) → w.client.end.phase ≡ phases.Request → w.server.end.phase ≡ phases.Listen → IsInHandshake w }
    ensures again { (w : WorldState) → w.client.end.phase ≡ phases.Request → w.server.end.phase ≡ phases.Respond
        → by_window w.server.end.marks (next_number w.client.end) None ≡ verdicts.Valid → IsInHandshake w }
    ensures answered { (w : WorldState) → w.client.end.phase ≡ phases.PartOpen → w.server.end.phase ≡ phases.Respond → IsInHandshake w }
    ensures few { (w : ControlledWorld C) (way : HasWay C.control 4 w (λ (v : ControlledWorld C). HasEnded v.world ⊎ AreConnected v.world)) → length way.events ≤ 4 }
    ensures passive { (w : ControlledWorld C) (way : HasWay C.control 4 w (λ (v : ControlledWorld C). HasEnded v.world ⊎ AreConnected v.world)) (place : ℕ) (e : Event)
        → slice_get way.events place ≡ Some e
        → ((side : Side) × ((timer : Timer) × (e ≡ event.Timer side timer))) ⊎ ((from : Side) × ((index : ℕ) × (e ≡ event.Deliver from index))) }
    ensures through { (w : ControlledWorld C) (way : HasWay C.control 4 w (λ (v : ControlledWorld C). HasEnded v.world ⊎ AreConnected v.world))
        → ((side : Side) × (((half_of (plays C.control w way.events).world side).end.phase ≡ phases.Closed)
        ⊎ ((half_of (plays C.control w way.events).world side).end.phase ≡ phases.TimeWait)))
        ⊎ ((side : Side) → ((half_of (plays C.control w way.events).world side).end.phase ≡ phases.PartOpen)
        ⊎ ((half_of (plays C.control w way.events).world side).end.phase ≡ phases.Open)) }
{}

/// An opening gets through. The client is in REQUEST and the server in LISTEN, or in RESPOND with the client's next
/// number in its window; or the client is in PARTOPEN and the server in RESPOND. Then at most four timers and
/// deliveries lead both to PARTOPEN or OPEN, or an end to CLOSED or TIMEWAIT (`asked`; RFC 4340, section 8.1). The
/// world after `open` at the start is one of these (`started`). The configurations are for each other. The law does not
/// cover a server in RESPOND whose window does not have the client's next number: it answers no further Request.
pub fn openings_get_through<C: Congestion>()
    ensures asked { (client server : Config) (for_client for_server : C) (events : List Event) → client.role ≡ role.Client
        → server.role ≡ role.Server → Fits client → Fits server → AreForEachOther client server
        → IsInHandshake (plays_from_start C.control client server for_client for_server events).world
        → HaveRoomFor 4 (plays_from_start C.control client server for_client for_server events).world
        → HasWay C.control 4 (plays_from_start C.control client server for_client for_server events)
        (λ (w : ControlledWorld C). HasEnded w.world ⊎ AreConnected w.world) }
    ensures started { (client server : Config) (for_client for_server : C) → client.role ≡ role.Client → server.role ≡ role.Server
        → IsInHandshake (plays_from_start C.control client server for_client for_server (event.Open ∷ [])).world }
{
    every_step_has_one_effect();
}

/// An opening ends in OPEN. From the same worlds, if each side has sent fewer than 2^23 - 13 frames, at most thirteen
/// timers and deliveries lead both ends to OPEN, or an end to CLOSED or TIMEWAIT (RFC 4340, section 8.1). With so few
/// frames the short numbers are unambiguous.
pub fn openings_end_in_open<C: Congestion>()
    ensures { (client server : Config) (for_client for_server : C) (events : List Event) → client.role ≡ role.Client
        → server.role ≡ role.Server → Fits client → Fits server → AreForEachOther client server
        → IsInHandshake (plays_from_start C.control client server for_client for_server events).world
        → AreFew 13 (plays_from_start C.control client server for_client for_server events).world
        → HasWay C.control 13 (plays_from_start C.control client server for_client for_server events)
        (λ (w : ControlledWorld C). HasEnded w.world ⊎ AreOpen w.world) }
{
    every_step_has_one_effect();
    every_run_is_safe::<C>();
}

/// Negotiations settle. If both ends are OPEN, whatever led there, at most twenty-four timers and deliveries lead to a
/// world in which an end is in CLOSED or in TIMEWAIT, or in which both are OPEN, all eighteen rows of both are STABLE,
/// and each feature has one value (RFC 4340, section 6). The configurations are for each other, and neither side is
/// near the 2^47 - 1 frames after which it takes no event.
pub fn negotiations_settle<C: Congestion>()
    ensures { (client server : Config) (for_client for_server : C) (events : List Event) → client.role ≡ role.Client
        → server.role ≡ role.Server → Fits client → Fits server → AreForEachOther client server
        → AreOpen (plays_from_start C.control client server for_client for_server events).world
        → HaveRoomFor 24 (plays_from_start C.control client server for_client for_server events).world
        → HasWay C.control 24 (plays_from_start C.control client server for_client for_server events)
        (λ (w : ControlledWorld C). HasEnded w.world ⊎ HaveAgreed w.world) }
{
    every_step_has_one_effect();
    every_run_is_safe::<C>();
}

/// What such a way of settling is, in plain words: a list of at most twenty-four events (`few`), each of them a timer
/// of a side or the delivery of a frame (`passive`). After it an end is in CLOSED or in TIMEWAIT; or both are OPEN
/// (`opened`), each row of each is STABLE (`settled`), and for each feature both ends hold the same value (`clients`,
/// `servers`).
pub fn settling_takes_twenty_four_events<C: Congestion>()
    ensures few { (w : ControlledWorld C) (way : HasWay C.control 24 w (λ (v : ControlledWorld C). HasEnded v.world ⊎ HaveAgreed v.world)) → length way.events ≤ 24 }
    ensures passive { (w : ControlledWorld C) (way : HasWay C.control 24 w (λ (v : ControlledWorld C). HasEnded v.world ⊎ HaveAgreed v.world)) (place : ℕ) (e : Event)
        → slice_get way.events place ≡ Some e
        → ((side : Side) × ((timer : Timer) × (e ≡ event.Timer side timer))) ⊎ ((from : Side) × ((index : ℕ) × (e ≡ event.Deliver from index))) }
    ensures opened { (w : ControlledWorld C) (way : HasWay C.control 24 w (λ (v : ControlledWorld C). HasEnded v.world ⊎ HaveAgreed v.world))
        → ((side : Side) × (((half_of (plays C.control w way.events).world side).end.phase ≡ phases.Closed)
        ⊎ ((half_of (plays C.control w way.events).world side).end.phase ≡ phases.TimeWait)))
        ⊎ ((side : Side) → (half_of (plays C.control w way.events).world side).end.phase ≡ phases.Open) }
    ensures settled { (w : ControlledWorld C) (way : HasWay C.control 24 w (λ (v : ControlledWorld C). HasEnded v.world ⊎ HaveAgreed v.world))
        → ((side : Side) → (half_of (plays C.control w way.events).world side).end.phase ≡ phases.Open)
        → (side : Side) (feature : Feature) (place : Place)
        → (held_of (half_of (plays C.control w way.events).world side).end feature place).stand ≡ Stable }
    ensures clients { (w : ControlledWorld C) (way : HasWay C.control 24 w (λ (v : ControlledWorld C). HasEnded v.world ⊎ HaveAgreed v.world))
        → ((side : Side) → (half_of (plays C.control w way.events).world side).end.phase ≡ phases.Open) → (feature : Feature)
        → (held_of (plays C.control w way.events).world.client.end feature place.Here).value
        ≡ (held_of (plays C.control w way.events).world.server.end feature place.There).value }
    ensures servers { (w : ControlledWorld C) (way : HasWay C.control 24 w (λ (v : ControlledWorld C). HasEnded v.world ⊎ HaveAgreed v.world))
        → ((side : Side) → (half_of (plays C.control w way.events).world side).end.phase ≡ phases.Open) → (feature : Feature)
        → (held_of (plays C.control w way.events).world.client.end feature place.There).value
        ≡ (held_of (plays C.control w way.events).world.server.end feature place.Here).value }
{}

/// Data get through. If both ends are OPEN and all rows of both are STABLE, whatever led there and whatever was lost,
/// at most six timers and deliveries lead to a world in which `send` of a side takes up to 1,024 bytes, and in which
/// the delivery of the frame that carries them hands over exactly these data (RFC 4340, sections 7 and 8.5). Premises:
/// a sender whose CCID needs Ack Vectors gets some; the configurations are for each other; and each side has sent fewer
/// than 2^23 - 8 frames, so that short numbers are unambiguous.
pub fn data_get_through<C: Congestion>()
    ensures { (client server : Config) (for_client for_server : C) (events : List Event) (side : Side) (payload : List ℕ)
        → client.role ≡ role.Client → server.role ≡ role.Server → Fits client → Fits server → AreForEachOther client server
        → AreOpen (plays_from_start C.control client server for_client for_server events).world
        → AreSettled (plays_from_start C.control client server for_client for_server events).world
        → AreFew 8 (plays_from_start C.control client server for_client for_server events).world
        → lacks_vectors (half_of (plays_from_start C.control client server for_client for_server events).world side).end.rows ≡ false
        → length payload ≤ 1024
        → HasWay C.control 6 (plays_from_start C.control client server for_client for_server events)
        (λ (w : ControlledWorld C). GetsThrough C.control w side payload) }
{
    every_step_has_one_effect();
    every_run_is_safe::<C>();
}

/// From every world in which both ends are OPEN, at most thirty timers and deliveries lead to a world in which an end is
/// in CLOSED or in TIMEWAIT, or both have agreed that the sender gets no Ack Vectors though its CCID needs them, or its
/// data get through. So no list of events leaves a sender stuck.
pub fn senders_are_never_stuck<C: Congestion>()
    ensures { (client server : Config) (for_client for_server : C) (events : List Event) (side : Side) (payload : List ℕ)
        → client.role ≡ role.Client → server.role ≡ role.Server → Fits client → Fits server → AreForEachOther client server
        → AreOpen (plays_from_start C.control client server for_client for_server events).world
        → AreFew 32 (plays_from_start C.control client server for_client for_server events).world → length payload ≤ 1024
        → HasWay C.control 30 (plays_from_start C.control client server for_client for_server events)
        (λ (w : ControlledWorld C). HasEnded w.world ⊎ (LacksReports w.world side ⊎ GetsThrough C.control w side payload)) }
{
    every_step_has_one_effect();
    every_run_is_safe::<C>();
}

/// What such a way of sending is, in plain words: a list of at most six events (`few`), each of them a timer of a side
/// or the delivery of a frame (`passive`). After it `send` is accepted (`taken`). In the world that it leaves, the
/// delivery of the frame that it added hands over the bytes from a place up to the frame's end, which are the data
/// (`handed`). It is enough that each side has sent fewer than 2^23 - 8 frames (`counts`).
pub fn sending_takes_six_events<C: Congestion>()
    ensures few { (w : ControlledWorld C) (side : Side) (payload : List ℕ) (way : HasWay C.control 6 w (λ (v : ControlledWorld C). GetsThrough C.control v side payload))
        → length way.events ≤ 6 }
    ensures passive { (w : ControlledWorld C) (side : Side) (payload : List ℕ) (way : HasWay C.control 6 w (λ (v : ControlledWorld C). GetsThrough C.control v side payload))
        (place : ℕ) (e : Event) → slice_get way.events place ≡ Some e
        → ((side : Side) × ((timer : Timer) × (e ≡ event.Timer side timer))) ⊎ ((from : Side) × ((index : ℕ) × (e ≡ event.Deliver from index))) }
    ensures taken { (w : ControlledWorld C) (side : Side) (payload : List ℕ) → GetsThrough C.control w side payload
        → (step : ControlledStep C) × (happens_to C.control w (event.Send side payload) ≡ Ok step) × (step.seen ≡ seen.Called (Ok tt)) }
    ensures handed { (w : ControlledWorld C) (side : Side) (payload : List ℕ) → GetsThrough C.control w side payload
        → let sent = plays C.control w (event.Send side payload ∷ []) in
        let index = length (half_of w.world side).frames in
        (frame : SentFrame) × (step : ControlledStep C) × (begins : ℕ) × (slice_get (half_of sent.world side).frames index ≡ Some frame)
        × (happens_to C.control sent (event.Deliver side index) ≡ Ok step)
        × (step.seen ≡ seen.Received (outcome.Took (Some (begins, length frame.bytes)))) × (drop begins frame.bytes ≡ payload) }
    ensures counts { (w : WorldState) → length w.client.frames + 8 < 2 ^ 23 → length w.server.frames + 8 < 2 ^ 23 → AreFew 8 w }
{}

/// A sender that gets no reports, since both ends agreed so, in plain words: both ends are OPEN (`opened`), all rows
/// are STABLE (`settled`), its CCID is 2 (`ccid`), and its peer sends no Ack Vectors (`vectors`).
pub fn a_sender_lacks_reports_by_agreement()
    ensures opened { (w : WorldState) (side each : Side) → LacksReports w side → (half_of w each).end.phase ≡ phases.Open }
    ensures settled { (w : WorldState) (side each : Side) (feature : Feature) (place : Place) → LacksReports w side
        → (held_of (half_of w each).end feature place).stand ≡ Stable }
    ensures ccid { (w : WorldState) (side : Side) → LacksReports w side → value_in (half_of w side).end.rows Ccid place.Here ≡ 2 }
    ensures vectors { (w : WorldState) (side : Side) → LacksReports w side → value_in (half_of w side).end.rows SendAckVector place.There ≢ 1 }
{}

/// Where the greatest number received comes from, after every list of events, from any two configurations whose fields
/// fit. Once an end has received a first number, in every phase except CLOSED, it processed its GSR; or a frame with
/// that number arrived, valid and of a type that the phase did not expect, and was answered by a Sync for that number
/// (RFC 4340, section 8.5, step 7). So no other packet raises GSR.
pub fn the_greatest_number_was_processed_or_refused<C: Congestion>()
    ensures { (start : ControlledWorld C) (events : List Event) → IsBeginning C.control start → (side : Side) → GreatestIsMet C.control start events side }
{
    every_step_has_one_effect();
}

/// The same in plain words. The side's phase is not CLOSED, and a first number was received: its phase says so, or it
/// has processed a number. Then GSR is among the numbers that it processed; or after some of the events a frame of the
/// other side with just this number arrived, and was answered by a Sync for that number.
pub fn a_number_that_is_not_processed_was_answered_by_a_sync<C: Congestion>()
    ensures { (start : ControlledWorld C) (events : List Event) (side : Side) → GreatestIsMet C.control start events side
        → (half_of (plays C.control start events).world side).end.phase ≢ phases.Closed
        → (is_live (half_of (plays C.control start events).world side).end.phase ≡ true)
        ⊎ (1 ≤ length (half_of (plays C.control start events).world side).processed)
        → Contains (half_of (plays C.control start events).world side).processed (half_of (plays C.control start events).world side).end.marks.gsr
        ⊎ ((early : List Event) × ((index : ℕ) × ((later : List Event) × ((frame : SentFrame) × ((after : ControlledWorld C)
        × ((events ≡ early ++ event.Deliver (other side) index ∷ later)
        × ((slice_get (half_of (plays C.control start early).world (other side)).frames index ≡ Some frame)
        × ((frame.number ≡ (half_of (plays C.control start events).world side).end.marks.gsr)
        × (happens_to C.control (plays C.control start early) (event.Deliver (other side) index)
        ≡ Ok (record { after = after; seen = seen.Received (outcome.Synced (half_of (plays C.control start events).world side).end.marks.gsr) })))))))))) }
{}
