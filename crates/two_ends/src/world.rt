//! The world: two ends and every frame that either ever sent, with what holds after every schedule.
//!
//! Both ends have one kind of congestion control, `C`. A kind that is a choice (`Kinds` of ccid_two) lets them differ
//! while they run. The type's invariant is that some schedule leads to the world, so that `safe` is proved in only one
//! place.
ghost use Rattle.std.specs.Prelude.{◌≡◌, ◌<◌, ◌^◌, List};
ghost use Rattle.dccp_endpoint.specs.Drafts.{Fits};
ghost use Rattle.two_ends.specs.Controlled.{begins_with, plays_from_start};
ghost use Rattle.two_ends.specs.Delivered.{IsDeliveredOnce};
ghost use Rattle.two_ends.specs.Numbered.{Facts};
ghost use Rattle.two_ends.specs.Safe.{Safe};
ghost use Rattle.world_events.specs.declared.event.Event.{Event};
ghost use Rattle.dccp_endpoint.specs.declared.config.Config.{Config};
ghost use Rattle.dccp_states.specs.declared.phase.Role.TheVariants as role;

use crate::sides::Sides;
use crate::{Event, Seen, SentFrame, Side, WorldFault};
use congestion_trait::Congestion;
use dccp_endpoint::{Config, Endpoint, every_step_has_one_effect};
use feature_lists::{Feature, Place};
use seq_circle::NoMemory;
use std::alloc::Global;
use std::marker::Model;

/// A client, a server, and every frame that either ever sent. [`World::step`] lets one thing happen: a side is asked to
/// open, to send data, to prefer other values of a feature, or to close; a timer of it has run out; or a frame arrives.
/// After each step the world is safe and its facts hold, whatever was sent, preferred, delivered, lost, repeated or
/// reordered before, and whatever the congestion controls do: so both ends agree on each feature that they call
/// settled, and each value was given to them; each number is processed once; each Ack Vector that was ever sent reports
/// just what its sender had processed; a floor passes a number only if it was reported to the other side, or is more
/// than 2,047 below one that was processed; and what an end believes received, by its congestion control, the other one
/// processed. A frame with short numbers is refused if these are ambiguous for its receiver.
///
/// The facts: a side's frames, except for Resets without a connection, carry its first number, the next, and so on up to
/// its greatest number sent, in this order (RFC 4340, section 7.1); there are fewer than 2^47. The bytes of each frame
/// spell the numbers that are kept for it, in full or their low 24 bits. A Reset without a connection, whose code is 3
/// or a server's 8, has no option. Once an end has received a first number (in CLOSED and TIMEWAIT numbers that are 0
/// may mean none), that and its greatest number received are numbers of such frames of the other side, and the first is
/// not the later one. Once it has sent such a frame, GAR, the greatest acknowledgement number that it received or its
/// first number, is the number of one of its own. No number that a side processed is after its greatest number
/// received. From its floor up to that, its set has just the numbers that it processed; the floor is not after the
/// next. If the frame of its greatest number is an Ack or a DataAck, the side processed it, unless its phase is CLOSED.
/// Each record of an Ack Vector is of one of the end's own frames, with that frame's numbers, and says whether its
/// vector was whole. A Reset that arrives changes nothing received, nothing acknowledged, no row and nothing that was
/// marked. No frame says two things about one feature and side, and none has an Ack Vector without an acknowledgement
/// number.
#[derive(Drop)]
pub struct World<C: Congestion> {
    sides: Sides<C>,
}

impl<C: Congestion> Model for World<C> {
    ghost use Rattle.two_ends.specs.Controlled.{ControlledWorld};
    ghost use Rattle.two_ends.specs.Reached.{ReachedByEvents};

    ghost Value = { ControlledWorld C };

    ghost view = { λ w. w.sides };

    ghost invariant = { λ w. ReachedByEvents C.control w.sides };
}

impl<C: Congestion + Drop> World<C> {
    ghost use Rattle.std.specs.Prelude.{◌≡◌, IfOk, IsTrue};
    ghost use Rattle.dccp_states.specs.declared.phase.Role.TheVariants as role;
    ghost use Rattle.two_ends.specs.Controlled.{begins_with};
    ghost use Rattle.two_ends.specs.Safe.{Safe};
    ghost use Rattle.two_ends.specs.Numbered.{Facts};

    /// Two ends of these configurations, with their wishes and offers and a congestion control for the data of each,
    /// that have sent and received nothing. Both congestion controls are started with CCID 2, the first value of the
    /// feature, which they have to know. The world is safe and its facts hold: no frame has a number yet, nothing was
    /// heard, processed or recorded, every feature has its initial value, and a Reset would move nothing.
    pub fn new(
        alloc: Global,
        client: Config,
        server: Config,
        for_client: C,
        for_server: C,
    ) -> Result<World<C>, NoMemory>
        requires client { client.role ≡ role.Client }
        requires server { server.role ≡ role.Server }
        requires known { IsTrue (C.control.is_known 2) }
        ensures start { IfOk result (λ w. w ≡ begins_with C.control client server for_client for_server) }
        ensures safe { IfOk result (λ w. Safe C.control w) }
        ensures facts { IfOk result (λ w. Facts w.world) }
    {
        every_step_has_one_effect();
        config_fits(&client);
        config_fits(&server);
        let sides = Sides::new(alloc, client, server, for_client, for_server)?;
        Ok(World { sides })
    }
}

impl<C: Congestion> World<C> {
    ghost use Rattle.std.specs.Prelude.{◌≡◌, ◌≢◌, ◌↔◌, ◌<◌, ◌^◌, length, IfOk, OnErr, Ok, Err};
    ghost use Rattle.two_ends.specs.World.{half_of, LacksFrame, ActorIsFull, DeliversFar};
    ghost use Rattle.two_ends.specs.Controlled.{end_of_side, happens_to};
    ghost use Rattle.two_ends.specs.Delivered.{DeliversItsData};
    ghost use Rattle.two_ends.specs.Safe.{Safe};
    ghost use Rattle.two_ends.specs.Numbered.{Facts};

    /// Lets one event happen, exactly as `happens_to` says. It is refused for the first of these causes. `NoSuchFrame`:
    /// a delivery's index is not below the number of frames of its sender. `Full`: the acting side has sent 2^47 - 1
    /// frames. `FarShort`: a frame with short numbers arrives at an end that takes these, and its number is 2^23 or
    /// more from that end's greatest number received, or the one that it acknowledges from the greatest number sent, up
    /// and down the circle. `NoMemory`. A refusal leaves the world unchanged, since all memory that the step may need
    /// is taken before it. While both sides have sent fewer than 2^23 frames, `FarShort` never comes.
    ///
    /// Data that it delivers are those of the frame that arrives: `place`, as the outcome has it, is where the payload
    /// of the frame's bytes lies, and the receiving side has processed the frame's number by that step
    /// ([`data_are_delivered_once`]).
    ///
    /// After it, refused or not, the world is safe, and the facts at [`World`] hold.
    #[inline(always)]
    pub fn step(&mut self, event: &Event) -> Result<Seen, WorldFault>
        ensures ok { IfOk result (λ seen. happens_to C.control self.old event.now ≡ Ok (record { after = self.new; seen = seen })) }
        ensures no_such_frame { (result ≡ Err WorldFault.NoSuchFrame) ↔ (happens_to C.control self.old event.now ≡ Err WorldFault.NoSuchFrame) }
        ensures full { (result ≡ Err WorldFault.Full) ↔ (happens_to C.control self.old event.now ≡ Err WorldFault.Full) }
        ensures far_short { (result ≡ Err WorldFault.FarShort) ↔ (happens_to C.control self.old event.now ≡ Err WorldFault.FarShort) }
        ensures lacks { (result ≡ Err WorldFault.NoSuchFrame) ↔ LacksFrame self.old.world event.now }
        ensures filled { (result ≡ Err WorldFault.Full) ↔ ((LacksFrame self.old.world event.now → ⊥) × ActorIsFull self.old.world event.now) }
        ensures far { (result ≡ Err WorldFault.FarShort) ↔ ((LacksFrame self.old.world event.now → ⊥) × (ActorIsFull self.old.world event.now → ⊥) × DeliversFar self.old.world event.now) }
        ensures near { length self.old.world.client.frames < 2 ^ 23 → length self.old.world.server.frames < 2 ^ 23
            → result ≢ Err WorldFault.FarShort }
        ensures err { OnErr result (self.new ≡ self.old) }
        ensures delivers { IfOk result (λ seen. DeliversItsData self.old.world event.now self.new.world seen) }
        ensures safe { Safe C.control self.new }
        ensures facts { Facts self.new.world }
    {
        every_step_has_one_effect();
        self.sides.step(event)
    }

    /// All frames that a side ever sent, oldest first.
    pub fn frames(&self, side: Side) -> &[SentFrame]
        ensures { result.now ≡ (half_of self.now.world side).frames }
    {
        self.sides.half(side).frames()
    }

    /// The numbers that a side processed, in order.
    pub fn processed(&self, side: Side) -> &[u64]
        ensures { result.now ≡ (half_of self.now.world side).processed }
    {
        self.sides.half(side).processed()
    }

    /// The end of a side, with its congestion control.
    pub fn end(&self, side: Side) -> &Endpoint<C>
        ensures { result.now ≡ end_of_side self.now side }
    {
        self.sides.half(side).end()
    }
}

// The types of the fields keep their widths, and the lists their order; each call here gives one to the prover.
fn config_fits(config: &Config)
    ensures { Fits config.now }
{
    port_fits(config.own_port);
    port_fits(config.peer_port);
    service_fits(config.service);
    let _ = config.iss.get();
    let _ = config.lists.wish(Feature::Ccid, Place::Here);
}

fn port_fits(port: u16)
    ensures { port < 2 ^ 16 }
{}

fn service_fits(service: u32)
    ensures { service < 2 ^ 32 }
{}

/// The world is safe after every list of events, with any congestion control, from any configurations of a client and a
/// server whose fields fit their widths: as numbers of the logic they may be of any size, while those of a `Config`
/// always fit.
pub fn every_run_is_safe<C: Congestion>()
    ensures { (client server : Config) (for_client for_server : C) (events : List Event) → client.role ≡ role.Client
        → server.role ≡ role.Server
        → Fits client → Fits server → Safe C.control (plays_from_start C.control client server for_client for_server events) }
{
    every_step_has_one_effect();
}

/// The world's facts, as at [`World`], after every list of events, with any congestion control, from any
/// two configurations, whatever their roles, whose fields fit their widths.
pub fn every_run_numbers_its_frames<C: Congestion>()
    ensures { (client server : Config) (for_client for_server : C) (events : List Event) → Fits client → Fits server
        → Facts (plays_from_start C.control client server for_client for_server events).world }
{
    every_step_has_one_effect();
}

/// No frame's data are delivered twice, however often each frame arrives: after every list of events, with any
/// congestion control, from any two configurations whose fields fit their widths, the frames whose data were delivered
/// are all different ones (RFC 4340, section 8.5, step 16).
pub fn data_are_delivered_once<C: Congestion>()
    ensures { (client server : Config) (for_client for_server : C) (events : List Event) → Fits client → Fits server
        → IsDeliveredOnce C.control (begins_with C.control client server for_client for_server) events }
{
    every_step_has_one_effect();
}
