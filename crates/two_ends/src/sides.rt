//! The two sides together, and exactly what an event does to them.
ghost use Rattle.std.specs.Prelude.{◌≡◌, ◌≢◌, ◌↔◌, Ok, Err, Some, None, IfOk, IfSome, IsTrue, OnErr, true, false, is_some, slice_get};
ghost use Rattle.dccp_endpoint.specs.Inputs.{Arrives};
ghost use Rattle.two_ends.specs.Controlled.{controlled_half_steps, said_by};
ghost use Rattle.two_ends.specs.World.{is_far_at, is_far_frame, is_full, input_said};

use crate::far::is_far_frame;
use crate::half::HalfWorld;
use crate::{Event, Seen, SentFrame, Side, WorldFault};
use congestion_trait::Congestion;
use dccp_endpoint::{Config, Endpoint, UserCall};
use seq_circle::NoMemory;
use std::alloc::Global;
use std::marker::Model;

// The most frames of a side for which its numbers keep their order (RFC 4340, section 3.1).
const MOST_FRAMES: usize = (1 << 47) - 1;

// A side is large, so it is in a block, and is not moved when the two are handed on.
#[derive(Drop)]
pub(crate) struct Sides<C> {
    client: Box<HalfWorld<C>>,
    server: Box<HalfWorld<C>>,
}

impl<C> Model for Sides<C> {
    ghost use Rattle.two_ends.specs.Controlled.{ControlledWorld};

    ghost Value = { ControlledWorld C };

    ghost view = { λ s. record { world = record { client = s.client.value.half; server = s.server.value.half }; for_client = s.client.value.congestion; for_server = s.server.value.congestion } };
}

impl<C: Congestion + Drop> Sides<C> {
    ghost use Rattle.std.specs.Prelude.{◌≡◌, IfOk, IsTrue};
    ghost use Rattle.two_ends.specs.Controlled.{begins_with};

    pub(crate) fn new(
        alloc: Global,
        client: Config,
        server: Config,
        for_client: C,
        for_server: C,
    ) -> Result<Sides<C>, NoMemory>
        requires { IsTrue (C.control.is_known 2) }
        ensures { IfOk result (λ sides. sides ≡ begins_with C.control client server for_client for_server) }
    {
        let client = HalfWorld::new(alloc, client, for_client)?;
        let server = HalfWorld::new(alloc, server, for_server)?;
        Ok(Sides { client, server })
    }
}

impl<C: Congestion> Sides<C> {
    ghost use Rattle.std.specs.Prelude.{◌≡◌, ◌≢◌, ◌↔◌, true, false, is_some, IfOk, OnErr, Ok, Err, slice_get, None};
    ghost use Rattle.two_ends.specs.Controlled.{congestion_of, controls, happens_to, said_by};
    ghost use Rattle.two_ends.specs.World.{half_of, input_said, is_far_at, is_full, takes_place, Calls, Delivers};
    ghost use Rattle.world_events.specs.Actors.{other};

    pub(crate) fn half(&self, side: Side) -> &HalfWorld<C>
        ensures half { result.now.half ≡ half_of self.now.world side }
        ensures congestion { result.now.congestion ≡ congestion_of self.now side }
    {
        match side {
            Side::Client => &self.client,
            Side::Server => &self.server,
        }
    }

    // One event: exactly what `happens_to` says, unless memory runs out. What it calls is inlined down to a step of a
    // side, since each call between would copy the answer.
    #[inline(always)]
    pub(crate) fn step(&mut self, event: &Event) -> Result<Seen, WorldFault>
        ensures ok { IfOk result (λ seen. happens_to C.control self.old event.now ≡ Ok (record { after = self.new; seen = seen })) }
        ensures no_such_frame { (result ≡ Err WorldFault.NoSuchFrame) ↔ (happens_to C.control self.old event.now ≡ Err WorldFault.NoSuchFrame) }
        ensures full { (result ≡ Err WorldFault.Full) ↔ (happens_to C.control self.old event.now ≡ Err WorldFault.Full) }
        ensures far_short { (result ≡ Err WorldFault.FarShort) ↔ (happens_to C.control self.old event.now ≡ Err WorldFault.FarShort) }
        ensures err { OnErr result (self.new ≡ self.old) }
    {
        match event {
            Event::Open => self.call(Side::Client, UserCall::Open),
            Event::Send { side, payload } => self.call(*side, UserCall::Send(payload.bytes())),
            Event::SendEarly { side, payload } => {
                self.call(*side, UserCall::SendEarly(payload.bytes()))
            }
            Event::Prefer {
                side,
                feature,
                place,
                values,
            } => {
                let call = UserCall::Prefer {
                    feature: *feature,
                    place: *place,
                    values: values.numbers(),
                };
                self.call(*side, call)
            }
            Event::Timer { side, timer } => self.call(*side, UserCall::Timer(*timer)),
            Event::Close { side } => self.call(*side, UserCall::Close),
            Event::Abort { side } => self.call(*side, UserCall::Abort),
            Event::Deliver { from, index } => self.deliver(*from, *index),
        }
    }

    // A frame of one side arrives at the other.
    #[inline(always)]
    fn deliver(&mut self, from: Side, index: u64) -> Result<Seen, WorldFault>
        ensures ok { IfOk result (λ seen. controls C.control self.old (other from) (takes_place self.old.world (Delivers from index)) ≡ Ok (record { after = self.new; seen = seen })) }
        ensures no_such_frame { (result ≡ Err WorldFault.NoSuchFrame) ↔ (slice_get (half_of self.old.world from).frames index ≡ None) }
        ensures full { (result ≡ Err WorldFault.Full) ↔ ((is_some (slice_get (half_of self.old.world from).frames index) ≡ true) × (is_full (half_of self.old.world (other from)) ≡ true)) }
        ensures far_short { (result ≡ Err WorldFault.FarShort) ↔ ((is_full (half_of self.old.world (other from)) ≡ false)
            × (is_far_at (half_of self.old.world (other from)).end (slice_get (half_of self.old.world from).frames index) ≡ true)) }
        ensures err { OnErr result (self.new ≡ self.old) }
    {
        match from {
            Side::Client => deliver(self.client.frames(), index, &mut self.server),
            Side::Server => deliver(self.server.frames(), index, &mut self.client),
        }
    }

    fn call(&mut self, side: Side, call: UserCall<'_>) -> Result<Seen, WorldFault>
        ensures ok { IfOk result (λ seen.
            controls C.control self.old side (takes_place self.old.world (Calls side (input_said call.entry (said_by C.control (congestion_of self.old side)))))
            ≡ Ok (record { after = self.new; seen = seen })) }
        ensures there { result ≢ Err WorldFault.NoSuchFrame }
        ensures full { (result ≡ Err WorldFault.Full) ↔ (is_full (half_of self.old.world side) ≡ true) }
        ensures near { result ≢ Err WorldFault.FarShort }
        ensures err { OnErr result (self.new ≡ self.old) }
    {
        match side {
            Side::Client => call_half(&mut self.client, call),
            Side::Server => call_half(&mut self.server, call),
        }
    }
}

// The side has sent all the frames that the order of its numbers allows.
fn is_full<C: Congestion>(half: &HalfWorld<C>) -> bool
    ensures { result ≡ is_full half.now.half }
{
    MOST_FRAMES <= half.frames().len()
}

fn call_half<C: Congestion>(half: &mut HalfWorld<C>, call: UserCall<'_>) -> Result<Seen, WorldFault>
    ensures ok { IfOk result (λ seen. (is_full half.old.half ≡ false) × (record { after = half.new; seen = seen }
        ≡ controlled_half_steps C.control half.old None (input_said call.entry (said_by C.control half.old.congestion)))) }
    ensures full { (result ≡ Err WorldFault.Full) ↔ (is_full half.old.half ≡ true) }
    ensures there { result ≢ Err WorldFault.NoSuchFrame }
    ensures near { result ≢ Err WorldFault.FarShort }
    ensures err { OnErr result (half.new ≡ half.old) }
{
    if is_full(half) {
        return Err(WorldFault::Full);
    }
    match half.call(call) {
        Ok(seen) => Ok(seen),
        Err(NoMemory) => Err(WorldFault::NoMemory),
    }
}

#[inline(always)]
fn deliver<C: Congestion>(
    frames: &[SentFrame],
    index: u64,
    half: &mut HalfWorld<C>,
) -> Result<Seen, WorldFault>
    ensures ok { IfOk result (λ seen. IfSome (slice_get frames.now index) (λ frame.
        (is_full half.old.half ≡ false) × (is_far_frame half.old.half.end frame ≡ false)
        × (record { after = half.new; seen = seen } ≡ controlled_half_steps C.control half.old (Some frame.number) (Arrives frame.bytes)))) }
    ensures no_such_frame { (result ≡ Err WorldFault.NoSuchFrame) ↔ (slice_get frames.now index ≡ None) }
    ensures full { (result ≡ Err WorldFault.Full) ↔ ((is_some (slice_get frames.now index) ≡ true) × (is_full half.old.half ≡ true)) }
    ensures far_short { (result ≡ Err WorldFault.FarShort) ↔ ((is_full half.old.half ≡ false) × (is_far_at half.old.half.end (slice_get frames.now index) ≡ true)) }
    ensures err { OnErr result (half.new ≡ half.old) }
{
    match frames.get(index as usize) {
        Some(frame) => receive_half(half, frame),
        None => Err(WorldFault::NoSuchFrame),
    }
}

#[inline(always)]
fn receive_half<C: Congestion>(
    half: &mut HalfWorld<C>,
    frame: &SentFrame,
) -> Result<Seen, WorldFault>
    ensures ok { IfOk result (λ seen. (is_full half.old.half ≡ false) × (is_far_frame half.old.half.end frame.now ≡ false)
        × (record { after = half.new; seen = seen } ≡ controlled_half_steps C.control half.old (Some frame.now.number) (Arrives frame.now.bytes))) }
    ensures full { (result ≡ Err WorldFault.Full) ↔ (is_full half.old.half ≡ true) }
    ensures far_short { (result ≡ Err WorldFault.FarShort) ↔ ((is_full half.old.half ≡ false) × (is_far_frame half.old.half.end frame.now ≡ true)) }
    ensures there { result ≢ Err WorldFault.NoSuchFrame }
    ensures err { OnErr result (half.new ≡ half.old) }
{
    if is_full(half) {
        return Err(WorldFault::Full);
    }
    if is_far_frame(half.end(), frame) {
        return Err(WorldFault::FarShort);
    }
    match half.receive(frame.bytes.as_slice(), frame.number) {
        Ok(seen) => Ok(seen),
        Err(NoMemory) => Err(WorldFault::NoMemory),
    }
}
