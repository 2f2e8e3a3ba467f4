//! An end with a bounded inbox.
use crate::answers::Got;
use crate::appending::buffer;
use crate::delivery::settle;
use crate::inbox::Inbox;
use congestion_trait::Congestion;
use dccp_endpoint::{
    AbortFault, CloseFault, Config, Endpoint, Feature, NoMemory, OpenFault, Outbox, Outcome, Phase,
    Place, PreferFault, Role, SendFault, Seq48, Timer,
};
use std::alloc::Global;
use std::marker::Model;

/// An end whose application reads when it likes: data that the end delivers are held in an [`Inbox`], up to a number of
/// packets, until they are taken. Data are dropped for lack of room, or after `stop`. The end's acknowledgements report
/// these drops by Data Dropped. They report by Slow Receiver that three quarters of the room are taken. Both come after
/// the end's own options, as far as the packet has room (RFC 4340, sections 11.6 and 11.7; that they are sent, and
/// when, is own). Otherwise the end is like any other, and each packet is acknowledged whether its data were kept or
/// dropped.
///
/// It has every call of an end, and `end` gives the end for its readers. Only `new` takes memory.
#[derive(Drop)]
pub struct BufferedEnd<C> {
    end: Endpoint<C>,
    inbox: Inbox,
}

impl<C> Model for BufferedEnd<C> {
    ghost use Rattle.data_dropped.specs.Buffering.{BufferedState};

    ghost Value = { BufferedState C };

    ghost view = { λ b. record { end = b.end; inbox = b.inbox } };
}

impl<C: Congestion + Drop> BufferedEnd<C> {
    ghost use Rattle.std.specs.Prelude.{◌≡◌, ◌≤◌, IfOk, IsTrue};
    ghost use Rattle.data_dropped.specs.Buffering.{begins_buffered};

    /// An end of this configuration, as `Endpoint::new` makes it, and an empty inbox for 1 to 1,024 packets. NoMemory
    /// if there is no memory for either; no other call takes any.
    pub fn new(
        alloc: Global,
        config: Config,
        congestion: C,
        capacity: u16,
    ) -> Result<BufferedEnd<C>, NoMemory>
        requires known { IsTrue (C.control.is_known 2) }
        requires some { 1 ≤ capacity }
        requires few { capacity ≤ 1024 }
        ensures { IfOk result (λ b. b ≡ begins_buffered C.control config congestion capacity) }
    {
        let inbox = Inbox::new(alloc, capacity)?;
        let end = Endpoint::new(alloc, config, congestion)?;
        Ok(BufferedEnd { end, inbox })
    }
}

impl<C: Congestion> BufferedEnd<C> {
    ghost use Rattle.std.specs.Prelude.{◌≡◌, ◌≢◌, ◌<◌, ◌≤◌, ◌↔◌, ◌⊎◌, [], Err, IsNone, None, OnErr, false, length, true};
    ghost use Rattle.congestion_trait.specs.Control.{may_send};
    ghost use Rattle.feature_lists.specs.Wishes.{wish_of};
    ghost use Rattle.feature_lists.specs.declared.features.Feature.TheVariants as feature;
    ghost use Rattle.feature_lists.specs.declared.features.Place.TheVariants as place;
    ghost use Rattle.feature_lists.specs.declared.wishes.PreferFault.TheVariants as prefer;
    ghost use Rattle.dccp_endpoint.specs.Calling.{aborts, applies, closes, fires, opens, prefers, sends_payload};
    ghost use Rattle.dccp_endpoint.specs.Controlled.{has_in_flight, in_flight_of, window_of, with_control};
    ghost use Rattle.dccp_endpoint.specs.Early.{sends_early, sends_soon};
    ghost use Rattle.dccp_endpoint.specs.End.{is_connected, value_in};
    ghost use Rattle.data_dropped.specs.Buffering.{HasDataWithin, beside, buffers};
    ghost use Rattle.data_dropped.specs.Drops.{HaveCodes};
    ghost use Rattle.data_dropped.specs.Frames.{buffered_frame};
    ghost use Rattle.data_dropped.specs.Inbox.{first_over, first_taken, stopping, taking};

    /// The client sends its Request, as by `Endpoint::open`. The inbox is unchanged, as by each call of the end except
    /// `receive`.
    pub fn open(&mut self, out: &mut Outbox) -> Result<(), OpenFault>
        ensures step { record { after = self.new; frame = out.new; answer = result } ≡ beside self.old.inbox (with_control C.control self.old.end.congestion (opens self.old.end.state)) }
        ensures not_fresh { (result ≡ Err OpenFault.NotFresh) ↔ ((self.old.end.state.config.role ≡ Role.Server) ⊎ (self.old.end.state.opened ≡ true)) }
        ensures refused { OnErr result (self.new ≡ self.old) }
        ensures sends_nothing { OnErr result (out.new ≡ None) }
    {
        let answer = self.end.open(out);
        self.speak(out);
        answer
    }

    /// Sends data, as by `Endpoint::send`; a DataAck also reports the drops.
    pub fn send(&mut self, payload: &[u8], out: &mut Outbox) -> Result<(), SendFault>
        ensures step { record { after = self.new; frame = out.new; answer = result } ≡ beside self.old.inbox (with_control C.control self.old.end.congestion (sends_payload self.old.end.state payload.now (may_send C.control self.old.end.congestion))) }
        ensures not_open { (result ≡ Err SendFault.NotOpen) ↔ (self.old.end.state.phase ≢ Phase.Open) }
        ensures too_long { (result ≡ Err SendFault.TooLong) ↔ ((self.old.end.state.phase ≡ Phase.Open) × (1024 < length payload.now)) }
        ensures not_negotiated { (result ≡ Err SendFault.NotNegotiated) ↔ ((self.old.end.state.phase ≡ Phase.Open) × (length payload.now ≤ 1024)
            × (value_in self.old.end.state.rows feature.Ccid place.Here ≡ 2) × (value_in self.old.end.state.rows feature.SendAckVector place.There ≢ 1)) }
        ensures window_full { (result ≡ Err SendFault.WindowFull) ↔ ((self.old.end.state.phase ≡ Phase.Open) × (length payload.now ≤ 1024)
            × ((value_in self.old.end.state.rows feature.Ccid place.Here ≢ 2) ⊎ (value_in self.old.end.state.rows feature.SendAckVector place.There ≡ 1))
            × (window_of C.control self.old.end.congestion ≤ in_flight_of C.control self.old.end.congestion)) }
        ensures refused { OnErr result (self.new ≡ self.old) }
        ensures sends_nothing { OnErr result (out.new ≡ None) }
    {
        let answer = self.end.send(payload, out);
        self.speak(out);
        answer
    }

    /// Sends data of a client that speaks first, as by `Endpoint::send_early`.
    pub fn send_early(&mut self, payload: &[u8], out: &mut Outbox) -> Result<(), SendFault>
        ensures step { record { after = self.new; frame = out.new; answer = result } ≡ beside self.old.inbox (with_control C.control self.old.end.congestion (sends_early self.old.end.state payload.now (may_send C.control self.old.end.congestion))) }
        ensures not_open { (result ≡ Err SendFault.NotOpen) ↔ (self.old.end.state.phase ≢ Phase.PartOpen) }
        ensures too_long { (result ≡ Err SendFault.TooLong) ↔ ((self.old.end.state.phase ≡ Phase.PartOpen) × (1024 < length payload.now)) }
        ensures not_negotiated { (result ≡ Err SendFault.NotNegotiated) ↔ ((self.old.end.state.phase ≡ Phase.PartOpen) × (length payload.now ≤ 1024)
            × (value_in self.old.end.state.rows feature.Ccid place.Here ≡ 2) × (value_in self.old.end.state.rows feature.SendAckVector place.There ≢ 1)) }
        ensures window_full { (result ≡ Err SendFault.WindowFull) ↔ ((self.old.end.state.phase ≡ Phase.PartOpen) × (length payload.now ≤ 1024)
            × ((value_in self.old.end.state.rows feature.Ccid place.Here ≢ 2) ⊎ (value_in self.old.end.state.rows feature.SendAckVector place.There ≡ 1))
            × (window_of C.control self.old.end.congestion ≤ in_flight_of C.control self.old.end.congestion)) }
        ensures stays { self.new.end.state.phase ≡ self.old.end.state.phase }
        ensures refused { OnErr result (self.new ≡ self.old) }
        ensures sends_nothing { OnErr result (out.new ≡ None) }
    {
        let answer = self.end.send_early(payload, out);
        self.speak(out);
        answer
    }

    /// Sends data as soon as the phase lets them go, as by `Endpoint::send_soon`.
    pub fn send_soon(&mut self, payload: &[u8], out: &mut Outbox) -> Result<(), SendFault>
        ensures step { record { after = self.new; frame = out.new; answer = result } ≡ beside self.old.inbox (with_control C.control self.old.end.congestion (sends_soon self.old.end.state payload.now (may_send C.control self.old.end.congestion))) }
        ensures refused { OnErr result (self.new ≡ self.old) }
        ensures sends_nothing { OnErr result (out.new ≡ None) }
    {
        let answer = self.end.send_soon(payload, out);
        self.speak(out);
        answer
    }

    /// Ends the connection in order, as by `Endpoint::close`.
    pub fn close(&mut self, out: &mut Outbox) -> Result<(), CloseFault>
        ensures step { record { after = self.new; frame = out.new; answer = result } ≡ beside self.old.inbox (with_control C.control self.old.end.congestion (closes self.old.end.state)) }
        ensures not_open { (result ≡ Err CloseFault.NotOpen) ↔ ((self.old.end.state.phase ≢ Phase.PartOpen) × (self.old.end.state.phase ≢ Phase.Open)) }
        ensures refused { OnErr result (self.new ≡ self.old) }
        ensures sends_nothing { OnErr result (out.new ≡ None) }
    {
        let answer = self.end.close(out);
        self.speak(out);
        answer
    }

    /// Ends the connection at once, as by `Endpoint::abort`.
    pub fn abort(&mut self, out: &mut Outbox) -> Result<(), AbortFault>
        ensures step { record { after = self.new; frame = out.new; answer = result } ≡ beside self.old.inbox (with_control C.control self.old.end.congestion (aborts self.old.end.state)) }
        ensures not_live { (result ≡ Err AbortFault.NotLive) ↔ ((self.old.end.state.phase ≡ Phase.Closed) ⊎ (self.old.end.state.phase ≡ Phase.Listen) ⊎ (self.old.end.state.phase ≡ Phase.TimeWait)) }
        ensures refused { OnErr result (self.new ≡ self.old) }
        ensures sends_nothing { OnErr result (out.new ≡ None) }
    {
        let answer = self.end.abort(out);
        self.speak(out);
        answer
    }

    /// The end wants these values for a feature, as by `Endpoint::prefer`; an Ack also reports the drops.
    pub fn prefer(
        &mut self,
        feature: Feature,
        place: Place,
        values: &[u64],
        out: &mut Outbox,
    ) -> Result<(), PreferFault>
        ensures step { record { after = self.new; frame = out.new; answer = result } ≡ beside self.old.inbox (with_control C.control self.old.end.congestion (prefers self.old.end.state (feature, place) values.now)) }
        ensures not_open { (result ≡ Err PreferFault.NotOpen) ↔ ((self.old.end.state.phase ≢ Phase.PartOpen) × (self.old.end.state.phase ≢ Phase.Open)) }
        ensures bad_list { (result ≡ Err PreferFault.BadList) ↔ ((is_connected self.old.end.state.phase ≡ true) × (wish_of feature place values.now ≡ Err prefer.BadList)) }
        ensures not_ours { (result ≡ Err PreferFault.NotOurs) ↔ ((is_connected self.old.end.state.phase ≡ true) × (wish_of feature place values.now ≡ Err prefer.NotOurs)) }
        ensures refused { OnErr result (self.new ≡ self.old) }
        ensures sends_nothing { OnErr result (out.new ≡ None) }
    {
        let answer = self.end.prefer(feature, place, values, out);
        self.speak(out);
        answer
    }

    /// A timer has run out, as by `Endpoint::timer`; an Ack reports the drops.
    pub fn timer(&mut self, timer: Timer, out: &mut Outbox) -> bool
        ensures step { record { after = self.new; frame = out.new; answer = result } ≡ beside self.old.inbox (with_control C.control self.old.end.congestion (fires self.old.end.state timer (has_in_flight C.control self.old.end.congestion))) }
        ensures applies { result ≡ applies timer self.old.end.state (has_in_flight C.control self.old.end.congestion) }
        ensures idle { result ≡ false → self.new ≡ self.old }
        ensures sends_nothing { result ≡ false → out.new ≡ None }
    {
        let answer = self.end.timer(timer, out);
        self.speak(out);
        answer
    }

    // Adds to the frame in the Outbox what the inbox has to say.
    fn speak(&self, out: &mut Outbox)
        ensures codes { HaveCodes self.now.inbox.drops }
        ensures says { out.new ≡ buffered_frame self.now.end.state.config.pseudo_out self.now.inbox out.old }
    {
        buffer(out, &self.inbox, &self.end.pseudo_out());
    }

    /// Takes bytes that arrived, at most 2,044, as `Endpoint::receive` does. Data that are delivered go into the inbox
    /// under their packet's number, or are dropped: `arrival` says which, and is None if none were delivered. What goes
    /// out is the end's frame. An Ack or a DataAck reports the drops after its options, and that the inbox is slow, as
    /// the inbox is after the step, if there is anything to report and the packet has room for it.
    pub fn receive(&mut self, bytes: &[u8], out: &mut Outbox) -> Got
        requires { length bytes.now ≤ 2044 }
        ensures step { record { after = self.new; frame = out.new; outcome = result.outcome; arrival = result.arrival } ≡ buffers C.control self.old bytes.now }
        ensures within { HasDataWithin bytes.now result.outcome }
        ensures codes { HaveCodes self.new.inbox.drops }
    {
        let outcome = self.end.receive(bytes, out);
        let number = self.end.last_taken();
        let arrival = settle(&mut self.inbox, number, bytes, &outcome);
        self.speak(out);
        Got { outcome, arrival }
    }

    /// Takes the first item, as `Inbox::take` does.
    pub fn take(&mut self, into: &mut [u8; 1024]) -> Option<(Seq48, usize)>
        ensures rest { self.new ≡ record self.old { inbox = taking self.old.inbox } }
        ensures answer { result ≡ first_taken self.old.inbox.items }
        ensures data { into.new ≡ first_over self.old.inbox.items into.old }
        ensures none { IsNone result ↔ (self.old.inbox.items ≡ []) }
    {
        self.inbox.take(into)
    }

    /// The application stops listening, as by `Inbox::stop`.
    pub fn stop(&mut self)
        ensures { self.new ≡ record self.old { inbox = stopping self.old.inbox } }
    {
        self.inbox.stop();
    }

    /// The end.
    pub fn end(&self) -> &Endpoint<C>
        ensures { result.now ≡ self.now.end }
    {
        &self.end
    }
}
