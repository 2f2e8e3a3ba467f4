//! The end with its congestion control.
use crate::connection::{Connection, is_live, is_open, is_part_open};
use crate::{
    AbortFault, CloseFault, Config, Feature, Held, Marks, OpenFault, Outcome, Phase, Place,
    PreferFault, Pseudo, Role, SendFault, Timer, Why,
};
use congestion_trait::{Congestion, Standing};
use dccp_packets::{Number, Outbox, Packet};
use seq_circle::{NoMemory, Seq48};
use std::alloc::Global;
use std::marker::Model;

// The CCID with which every end begins (RFC 4340, section 10).
const FIRST_CCID: u8 = 2;

/// One end of a connection, with the congestion control of the data that it sends. It has no socket and no clock; its
/// owner has both. Each call that takes an Outbox first empties it and leaves at most one frame there, which the owner
/// sends to the peer. A refused call leaves the end and its congestion control unchanged and the box empty. Only `new`
/// may take memory. No call returns the congestion control: `window`, `in_flight`, `is_reported` and `stands` read it.
///
/// # The order of calls
///
/// An end serves one connection. `new` makes a client's end, and `open` opens it once; `new` makes a server's end for a
/// peer from which a datagram came. After that, in any order:
///
/// - `receive` for each datagram of the peer, of at most [`MOST_FRAME_BYTES`](crate::MOST_FRAME_BYTES) bytes: the owner
///   drops a longer one
/// - `timer` for each timer that has run out
/// - `send` for data in OPEN, `send_early` for data of a client that speaks first, in PARTOPEN, and `send_soon` in both
/// - `prefer` for another value of a feature, in PARTOPEN and OPEN
/// - `close` to end the connection in order, in PARTOPEN and OPEN, and `abort` to end it at once
/// - `act` for any of the calls above except `receive`, handed in as a value
/// - the readers `phase`, `is_live`, `pseudo_out`, `marks`, `held`, `window`, `in_flight`, `is_reported`, `stands`,
///   `floor`, `marked`, `last_taken`, `takes_short` and `read_number`, at any time
///
/// A feature's value, as `held` shows it, is settled for this end if its stand is Stable. That says nothing about the
/// other end, which may hold another value until it is Stable too. The connection has ended once the phase is CLOSED
/// again. Keep an end in TIMEWAIT until its timer has run out.
///
/// # What an outcome of `receive` asks of the owner
///
/// Whatever the outcome, a frame in the box goes to the peer.
///
/// | Outcome | What the owner does |
/// |---|---|
/// | `Took` with data | takes them from their place in the datagram |
/// | `Took` without data | nothing; the phase, a feature, or what is in flight may have changed |
/// | `Dropped` | nothing |
/// | `Synced` | limits how many Syncs go out (RFC 4340, section 7.5.4) |
/// | `WasReset` | learns that the connection has ended, with this code; the timer TimeWait runs |
/// | `SentReset` with 1 | learns that the peer has closed; the end may go |
/// | `SentReset` with 5 or 6, or with 8 at a client | learns that the connection has failed; the end may go |
/// | `SentReset` with 3 or 4, or with 8 at a server | limits how many Resets go out; the end is as it was, except for the number that 4 takes |
///
/// # What is left to the owner
///
/// - The timers. Each runs in the phases that [`Endpoint::timer`] lists, and begins anew once `timer` was called for
///   it. The waits of RFC 4340: for Request a second at first (section 8.1.1), for Ack 200 milliseconds in PARTOPEN
///   (section 8.1.5), for Negotiate a round trip (section 6.6.3), for Close two (section 8.3), each doubled from time
///   to time, up to 64 seconds; for TimeWait two maximum segment lifetimes, four minutes. Rto is TCP's, and begins anew
///   when a packet is no longer in flight (RFC 4341, section 5). In OPEN an Ack is due within a short wait after data
///   were delivered (own).
/// - Initial sequence numbers that nobody can guess (section 7.2).
/// - Limits: how many Syncs and Resets go out in a second, and for how many peers ends are made.
/// - Giving up: `abort` after minutes without an answer to the Request, or in PARTOPEN (sections 8.1.1 and 8.1.5).
/// - Whether short numbers are asked for ([`Feature::ShortSeqnos`]). A packet with short numbers that comes 2^23 or
///   more packets late may be taken for another (section 7.6). The proofs about two ends assume that none does.
/// - Data that `send` refuses with `WindowFull`: to be offered again, or dropped.
///
/// # Sizes
///
/// An end has 3,000 bytes besides its congestion control's, which are 184 for `Kinds` of ccid_two, and takes two blocks
/// in `new`, of 17,920 bytes together. A flight list takes one of 32,768; `Kinds` has two. An [`Outbox`] has 2,088
/// bytes: one may serve all ends of a thread.
#[derive(Drop)]
pub struct Endpoint<C> {
    connection: Connection,
    congestion: C,
}

impl<C> Model for Endpoint<C> {
    ghost use Rattle.dccp_endpoint.specs.Controlled.{End};

    ghost Value = { End C };

    ghost view = { λ e. record { state = e.connection; congestion = e.congestion } };
}

impl<C: Congestion + Drop> Endpoint<C> {
    ghost use Rattle.std.specs.Prelude.{◌≡◌, IsTrue, IfOk};
    ghost use Rattle.dccp_endpoint.specs.Controlled.{begins};

    /// An end of this configuration: CLOSED for a client, LISTEN for a server (RFC 4340, section 8.1). The congestion
    /// control is started with CCID 2, and has to know it. With `NoMemory` it is dropped, so this call alone requires
    /// `Drop` of `C`.
    pub fn new(alloc: Global, config: Config, congestion: C) -> Result<Endpoint<C>, NoMemory>
        requires { IsTrue (C.control.is_known 2) }
        ensures { IfOk result (λ e. e ≡ begins C.control config congestion) }
    {
        let connection = Connection::new(alloc, config)?;
        let mut congestion = congestion;
        congestion.start(FIRST_CCID);
        Ok(Endpoint {
            connection,
            congestion,
        })
    }
}

impl<C: Congestion> Endpoint<C> {
    ghost use Rattle.std.specs.Prelude.{◌≡◌, ◌≢◌, ◌↔◌, ◌⊎◌, ◌≤◌, ◌<◌, IsTrue, true, false, None, Ok, Err, OnErr, length};
    ghost use Rattle.congestion_trait.specs.Control.{may_send};
    ghost use Rattle.congestion_trait.specs.Flight.{Has};
    ghost use Rattle.congestion_trait.specs.declared.flight.Standing.TheVariants.{Reported};
    ghost use Rattle.feature_lists.specs.Wishes.{wish_of};
    ghost use Rattle.feature_lists.specs.declared.features.Feature.TheVariants as feature;
    ghost use Rattle.feature_lists.specs.declared.features.Place.TheVariants as place;
    ghost use Rattle.feature_lists.specs.declared.wishes.PreferFault.TheVariants as prefer;
    ghost use Rattle.run_list.specs.MarkedSet.{IsSound};
    ghost use Rattle.validity_windows.specs.Windows.{InRange};
    ghost use Rattle.dccp_endpoint.specs.Calling.{aborts, applies, closes, fires, opens, prefers, sends_payload};
    ghost use Rattle.dccp_endpoint.specs.Controlled.{has_in_flight, in_flight_of, window_of, with_control};
    ghost use Rattle.dccp_endpoint.specs.Early.{sends_early, sends_soon};
    ghost use Rattle.dccp_endpoint.specs.End.{IsProper, floor_of, held_of, is_connected, is_live, last_taken, marked_of, value_in};
    ghost use Rattle.dccp_endpoint.specs.Outcomes.{HasCause, HasEffectOf, HasNoOtherCause, OnDropped};
    ghost use Rattle.dccp_endpoint.specs.Incoming.{parts_of_packet};
    ghost use Rattle.dccp_endpoint.specs.Receiving.{read_number, receives, takes_short};
    ghost use Rattle.dccp_packets.specs.Grammar.{decoded};
    ghost use Rattle.dccp_states.specs.declared.calls.Timer.TheVariants as timers;

    /// The phase of the connection.
    pub fn phase(&self) -> Phase
        ensures { result ≡ self.now.state.phase }
    {
        self.connection.phase
    }

    /// Whether a first number was received, so that the windows judge what arrives: in RESPOND, PARTOPEN, OPEN, CLOSEREQ
    /// and CLOSING (RFC 4340, section 8.5, steps 5 and 6).
    pub fn is_live(&self) -> bool
        ensures { result ≡ is_live self.now.state.phase }
    {
        is_live(self.connection.phase)
    }

    /// The addresses of the packets that it sends, for a caller that seals a frame of the end again.
    pub fn pseudo_out(&self) -> Pseudo
        ensures { result ≡ self.now.state.config.pseudo_out }
    {
        self.connection.config.pseudo_out
    }

    /// The Service Code that it asks for as a client, or serves as a server (RFC 4340, section 8.1.2).
    pub fn service(&self) -> u32
        ensures { result ≡ self.now.state.config.service }
    {
        self.connection.config.service
    }

    /// The first and greatest numbers sent and received, and the widths of the windows (RFC 4340, section 7.1). The
    /// widths are in their range, so that `Marks::windows` and `Marks::check` may be called on them; and the end is
    /// proper, as an end always is.
    pub fn marks(&self) -> Marks
        ensures value { result ≡ self.now.state.marks }
        ensures in_range { InRange result }
        ensures proper { IsProper self.now.state }
    {
        self.connection.marks
    }

    /// The value that the end holds for a feature at a place, and the stand of its negotiation (RFC 4340, section
    /// 6.6.2).
    pub fn held(&self, feature: Feature, place: Place) -> Held
        ensures { result ≡ held_of self.now.state feature place }
    {
        self.connection.rows.held(feature, place)
    }

    /// How many data packets may be in flight: 1 to 1,024.
    pub fn window(&self) -> u32
        ensures value { result ≡ window_of C.control self.now.congestion }
        ensures low { 1 ≤ result }
        ensures high { result ≤ 1024 }
    {
        self.congestion.window()
    }

    /// How many data packets are in flight: sent, and neither reported nor found lost.
    pub fn in_flight(&self) -> u32
        ensures { result ≡ in_flight_of C.control self.now.congestion }
    {
        self.congestion.in_flight()
    }

    /// Whether the end believes that its data packet of this number was received.
    pub fn is_reported(&self, number: Seq48) -> bool
        ensures { IsTrue result ↔ Has (C.control.flight self.now.congestion) number Reported }
    {
        self.congestion.is_reported(number)
    }

    /// Whether its data packet of this number has this standing. Known are the last 2,048 that it has sent since it
    /// began, changed its CCID, or had a timeout.
    pub fn stands(&self, number: Seq48, standing: Standing) -> bool
        ensures { IsTrue result ↔ Has (C.control.flight self.now.congestion) number standing }
    {
        self.congestion.stands(number, standing)
    }

    /// The least number that an Ack Vector may report (RFC 4340, section 11.4.2), or 0 before the first was received.
    /// All numbers that are kept lie from it up to 2,047 above it.
    pub fn floor(&self) -> Seq48
        ensures value { result ≡ floor_of self.now.state }
        ensures sound { IsSound self.now.state.received.set }
    {
        self.connection.received.floor()
    }

    /// The number of the packet that was taken last, in full, or 0 before the first was (own): after a `receive` that
    /// answers `Took`, the number of its packet, in whichever form that came (RFC 4340, section 7.6).
    pub fn last_taken(&self) -> Seq48
        ensures { result ≡ last_taken self.now.state }
    {
        self.connection.last
    }

    /// Whether packets with short numbers are taken (RFC 4340, section 7.6.1): the peer's Allow Short Sequence Numbers
    /// is 1, and a first number was received.
    pub fn takes_short(&self) -> bool
        ensures { result ≡ takes_short self.now.state }
    {
        self.connection.takes_short()
    }

    /// The number of a packet in full: a short one is read near the greatest number received (RFC 4340, section 7.6).
    /// ShortOff exactly if it is short, and short numbers are not taken.
    pub fn read_number(&self, number: &Number) -> Result<Seq48, Why>
        ensures { result ≡ read_number self.now.state number.now }
    {
        self.connection.read_number(number)
    }

    /// How many numbers were taken: how many marks answered New. At 2^64 - 1 it stays.
    pub fn marked(&self) -> u64
        ensures { result ≡ marked_of self.now.state }
    {
        self.connection.marked
    }

    /// The client sends its Request (RFC 4340, section 8.1.1). Refused with `NotFresh` exactly if the end is a server
    /// or was opened before.
    pub fn open(&mut self, out: &mut Outbox) -> Result<(), OpenFault>
        ensures step { record { after = self.new; frame = out.new; answer = result } ≡ with_control C.control self.old.congestion (opens self.old.state) }
        ensures not_fresh { (result ≡ Err OpenFault.NotFresh) ↔ ((self.old.state.config.role ≡ Role.Server) ⊎ (self.old.state.opened ≡ true)) }
        ensures refused { OnErr result (self.new ≡ self.old) }
        ensures sends_nothing { OnErr result (out.new ≡ None) }
    {
        self.connection.open(out)
    }

    /// Sends data, at most 1,024 bytes: in a DataAck if an acknowledgement is owed, with an Ack Vector if Send Ack
    /// Vector is 1, else in a Data (RFC 4340, section 8.1.5). The congestion control counts the packet as in flight.
    /// Refused with `NotOpen` exactly outside OPEN; then with `TooLong` exactly if the data are longer; then with
    /// `NotNegotiated` exactly if CCID here is 2 and the peer sends no Ack Vectors (RFC 4341, section 4); then with
    /// `WindowFull` exactly if as many packets are in flight as the window allows.
    #[tactic(auto, unfolding(crate::specs::Calling::sends_payload))]
    pub fn send(&mut self, payload: &[u8], out: &mut Outbox) -> Result<(), SendFault>
        ensures step { record { after = self.new; frame = out.new; answer = result } ≡ with_control C.control self.old.congestion (sends_payload self.old.state payload.now (may_send C.control self.old.congestion)) }
        ensures not_open { (result ≡ Err SendFault.NotOpen) ↔ (self.old.state.phase ≢ Phase.Open) }
        ensures too_long { (result ≡ Err SendFault.TooLong) ↔ ((self.old.state.phase ≡ Phase.Open) × (1024 < length payload.now)) }
        ensures not_negotiated { (result ≡ Err SendFault.NotNegotiated) ↔ ((self.old.state.phase ≡ Phase.Open) × (length payload.now ≤ 1024)
            × (value_in self.old.state.rows feature.Ccid place.Here ≡ 2) × (value_in self.old.state.rows feature.SendAckVector place.There ≢ 1)) }
        ensures window_full { (result ≡ Err SendFault.WindowFull) ↔ ((self.old.state.phase ≡ Phase.Open) × (length payload.now ≤ 1024)
            × ((value_in self.old.state.rows feature.Ccid place.Here ≢ 2) ⊎ (value_in self.old.state.rows feature.SendAckVector place.There ≡ 1))
            × (window_of C.control self.old.congestion ≤ in_flight_of C.control self.old.congestion)) }
        ensures refused { OnErr result (self.new ≡ self.old) }
        ensures sends_nothing { OnErr result (out.new ≡ None) }
    {
        out.clear();
        let may_send = self.congestion.may_send();
        match self.connection.send_fault(payload, may_send) {
            Some(fault) => Err(fault),
            None => {
                let number = self.connection.send_data(payload, out);
                self.congestion.on_sent(number);
                Ok(())
            }
        }
    }

    /// Sends data of a client that speaks first, at most 1,024 bytes, in PARTOPEN, when it has received only the
    /// Response (own; RFC 4340, section 8.1.5, permits it). They go in a DataAck, which acknowledges the greatest
    /// number received, and has an Ack Vector if Send Ack Vector is 1. The phase stays, and no acknowledgement is owed
    /// then. The congestion control counts the packet as in flight. Refused with `NotOpen` exactly outside PARTOPEN;
    /// then as `send` is, with `TooLong`, then `NotNegotiated`, then `WindowFull`.
    #[tactic(auto, unfolding(crate::specs::Early::sends_early))]
    pub fn send_early(&mut self, payload: &[u8], out: &mut Outbox) -> Result<(), SendFault>
        ensures step { record { after = self.new; frame = out.new; answer = result } ≡ with_control C.control self.old.congestion (sends_early self.old.state payload.now (may_send C.control self.old.congestion)) }
        ensures not_open { (result ≡ Err SendFault.NotOpen) ↔ (self.old.state.phase ≢ Phase.PartOpen) }
        ensures too_long { (result ≡ Err SendFault.TooLong) ↔ ((self.old.state.phase ≡ Phase.PartOpen) × (1024 < length payload.now)) }
        ensures not_negotiated { (result ≡ Err SendFault.NotNegotiated) ↔ ((self.old.state.phase ≡ Phase.PartOpen) × (length payload.now ≤ 1024)
            × (value_in self.old.state.rows feature.Ccid place.Here ≡ 2) × (value_in self.old.state.rows feature.SendAckVector place.There ≢ 1)) }
        ensures window_full { (result ≡ Err SendFault.WindowFull) ↔ ((self.old.state.phase ≡ Phase.PartOpen) × (length payload.now ≤ 1024)
            × ((value_in self.old.state.rows feature.Ccid place.Here ≢ 2) ⊎ (value_in self.old.state.rows feature.SendAckVector place.There ≡ 1))
            × (window_of C.control self.old.congestion ≤ in_flight_of C.control self.old.congestion)) }
        ensures stays { self.new.state.phase ≡ self.old.state.phase }
        ensures refused { OnErr result (self.new ≡ self.old) }
        ensures sends_nothing { OnErr result (out.new ≡ None) }
    {
        out.clear();
        let may_send = self.congestion.may_send();
        match self.connection.early_fault(payload, may_send) {
            Some(fault) => Err(fault),
            None => {
                let number = self.connection.send_early_data(payload, out);
                self.congestion.on_sent(number);
                Ok(())
            }
        }
    }

    /// Sends data as soon as the phase lets them go: in PARTOPEN by [`Endpoint::send_early`], in any other phase by
    /// [`Endpoint::send`]; refused as that call is (own).
    pub fn send_soon(&mut self, payload: &[u8], out: &mut Outbox) -> Result<(), SendFault>
        ensures step { record { after = self.new; frame = out.new; answer = result } ≡ with_control C.control self.old.congestion (sends_soon self.old.state payload.now (may_send C.control self.old.congestion)) }
        ensures refused { OnErr result (self.new ≡ self.old) }
        ensures sends_nothing { OnErr result (out.new ≡ None) }
    {
        if is_part_open(self.connection.phase) {
            self.send_early(payload, out)
        } else {
            self.send(payload, out)
        }
    }

    /// Ends the connection in order: a client sends Close and is in CLOSING; a server asks for it by CloseReq and is in
    /// CLOSEREQ (RFC 4340, section 8.3). Refused with `NotOpen` exactly outside PARTOPEN and OPEN.
    pub fn close(&mut self, out: &mut Outbox) -> Result<(), CloseFault>
        ensures step { record { after = self.new; frame = out.new; answer = result } ≡ with_control C.control self.old.congestion (closes self.old.state) }
        ensures not_open { (result ≡ Err CloseFault.NotOpen) ↔ ((self.old.state.phase ≢ Phase.PartOpen) × (self.old.state.phase ≢ Phase.Open)) }
        ensures refused { OnErr result (self.new ≡ self.old) }
        ensures sends_nothing { OnErr result (out.new ≡ None) }
    {
        self.connection.close(out)
    }

    /// Ends the connection at once: the phase is CLOSED, and a Reset with the code Aborted goes out. In REQUEST nothing
    /// goes out, since nothing has come from the other end (RFC 4340, section 8.3). Refused with `NotLive` exactly in
    /// CLOSED, LISTEN and TIMEWAIT.
    pub fn abort(&mut self, out: &mut Outbox) -> Result<(), AbortFault>
        ensures step { record { after = self.new; frame = out.new; answer = result } ≡ with_control C.control self.old.congestion (aborts self.old.state) }
        ensures not_live { (result ≡ Err AbortFault.NotLive) ↔ ((self.old.state.phase ≡ Phase.Closed) ⊎ (self.old.state.phase ≡ Phase.Listen) ⊎ (self.old.state.phase ≡ Phase.TimeWait)) }
        ensures refused { OnErr result (self.new ≡ self.old) }
        ensures sends_nothing { OnErr result (out.new ≡ None) }
    {
        self.connection.abort(out)
    }

    /// The end wants these values, best first, for a feature at a place (RFC 4340, section 6.6.1). A row in STABLE asks
    /// at once, by an Ack with its Change; any other asks later, and nothing goes out. Refused with
    /// `NotOpen` exactly outside PARTOPEN and OPEN; then as `feature_lists::wish` refuses, with `BadList` or `NotOurs`.
    pub fn prefer(
        &mut self,
        feature: Feature,
        place: Place,
        values: &[u64],
        out: &mut Outbox,
    ) -> Result<(), PreferFault>
        ensures step { record { after = self.new; frame = out.new; answer = result } ≡ with_control C.control self.old.congestion (prefers self.old.state (feature, place) values.now) }
        ensures not_open { (result ≡ Err PreferFault.NotOpen) ↔ ((self.old.state.phase ≢ Phase.PartOpen) × (self.old.state.phase ≢ Phase.Open)) }
        ensures bad_list { (result ≡ Err PreferFault.BadList) ↔ ((is_connected self.old.state.phase ≡ true) × (wish_of feature place values.now ≡ Err prefer.BadList)) }
        ensures not_ours { (result ≡ Err PreferFault.NotOurs) ↔ ((is_connected self.old.state.phase ≡ true) × (wish_of feature place values.now ≡ Err prefer.NotOurs)) }
        ensures refused { OnErr result (self.new ≡ self.old) }
        ensures sends_nothing { OnErr result (out.new ≡ None) }
    {
        self.connection.prefer(feature, place, values, out)
    }

    /// A timer has run out. True exactly if it has something to do in this phase (`applies`):
    ///
    /// | Timer | Phases | Does |
    /// |---|---|---|
    /// | Request | REQUEST | another Request goes out, with all Changes that are due |
    /// | Ack | PARTOPEN, OPEN | an Ack goes out, with its Ack Vector |
    /// | Negotiate | PARTOPEN, OPEN, if a row asks | an Ack goes out with all Changes that are due |
    /// | Rto | OPEN, with packets in flight | the congestion control hears that its timer has run out; no packet goes out |
    /// | Close | CLOSEREQ; CLOSING | CloseReq; Close goes out again |
    /// | TimeWait | TIMEWAIT | the phase is CLOSED |
    ///
    /// If it is false, nothing changes and nothing is sent (RFC 4340, section 8; for Rto RFC 4341, section 5).
    pub fn timer(&mut self, timer: Timer, out: &mut Outbox) -> bool
        ensures step { record { after = self.new; frame = out.new; answer = result } ≡ with_control C.control self.old.congestion (fires self.old.state timer (has_in_flight C.control self.old.congestion)) }
        ensures applies { result ≡ applies timer self.old.state (has_in_flight C.control self.old.congestion) }
        ensures idle { result ≡ false → self.new ≡ self.old }
        ensures sends_nothing { result ≡ false → out.new ≡ None }
    {
        match timer {
            Timer::Rto => self.time_out(out),
            Timer::Request | Timer::Ack | Timer::Negotiate | Timer::Close | Timer::TimeWait => {
                self.connection.timer(timer, out)
            }
        }
    }

    // The timer of the congestion control has run out. True exactly if the congestion control is told.
    #[tactic(auto, unfolding(crate::specs::Calling::fires))]
    fn time_out(&mut self, out: &mut Outbox) -> bool
        ensures { record { after = self.new; frame = out.new; answer = result } ≡ with_control C.control self.old.congestion (fires self.old.state timers.Rto (has_in_flight C.control self.old.congestion)) }
    {
        out.clear();
        if !is_open(self.connection.phase) || self.congestion.in_flight() == 0 {
            return false;
        }
        self.congestion.on_timeout();
        true
    }

    /// Takes bytes that arrived, as RFC 4340, section 8.5 says under this profile, at most 2,044 of them. Bytes are
    /// dropped, for the first of these causes, if they are no packet, if the checksum is wrong, if the ports are not
    /// those of the connection, or if the numbers are short and short ones are not taken. If short ones are taken,
    /// since the peer's Allow Short Sequence Numbers is 1, they are read near the greatest number received and the
    /// greatest sent. The phase decides whether the packet may enter, the windows whether its numbers are valid, its
    /// type whether it is unexpected; then its options are read, its number is marked, what it acknowledges is looked
    /// up among the Ack Vectors that were sent, and it moves the phase and is answered. Options of the negotiation
    /// count only on newest packets, in RESPOND, PARTOPEN and OPEN, and on the Response in REQUEST.
    ///
    /// Once the options are read without a fault, the congestion control hears of them: first of the Ack Vectors, on
    /// every packet with an acknowledgement number except a Sync, with the Ack Ratio that holds here after the packet.
    /// Then, if this end's CCID changed, it is started with the new CCID, if it knows that.
    ///
    /// Each outcome has exactly its causes (`cause`, `no_other_cause`), and each cause has one effect (`effect`). A
    /// packet that is dropped changes nothing and sends nothing (`dropped`). A valid Reset moves the phase to TIMEWAIT,
    /// and nothing else. A Sync takes the next number and acknowledges the number that `Synced` has. If the packet's
    /// numbers are not valid, nothing else changes. If the packet is unexpected, it has raised the greatest number
    /// received and, unless it is a Sync, the greatest acknowledged. A Reset has the code and the detail that
    /// `SentReset` has. Without a connection (codes 3 and 8) it changes nothing. In REQUEST, where the packet is
    /// neither a Reset nor a Response that acknowledges within the window (code 4), it takes the next number and
    /// acknowledges the packet, and nothing else changes. Otherwise (codes 1, 5, 6 and 8) the packet's numbers were
    /// taken, the end closes, and the Reset takes the next number and acknowledges the greatest number received.
    /// Another service (8) and the first fault of the options (5 and 6) leave what was negotiated as it was before the
    /// packet, and its number unmarked; a Close (1) was marked. `reading_stops_at_the_first_fault` says which option
    /// goes wrong first.
    ///
    /// A packet that is `Took` moves the phase and is answered by the table of phases; its data are delivered if it is
    /// a Data or a DataAck, the end is OPEN then, and its number is new. The rows have heard its options in their
    /// order, and the Confirms that they answer go out on the packet that acknowledges it: the table's, or an Ack if
    /// the table has none in PARTOPEN and OPEN. In OPEN an Ack also goes out if as many data packets were delivered
    /// since the last one as the peer's Ack Ratio says. Each Ack has an Ack Vector if Send Ack Vector is 1. With a
    /// Response all offers are made, and it carries the Changes of all rows that ask and have no Confirm in it.
    pub fn receive(&mut self, bytes: &[u8], out: &mut Outbox) -> Outcome
        requires { length bytes.now ≤ 2044 }
        ensures step { record { after = self.new; frame = out.new; answer = result } ≡ with_control C.control self.old.congestion (receives self.old.state bytes.now) }
        ensures cause { HasCause self.old.state bytes.now result }
        ensures no_other_cause { HasNoOtherCause self.old.state bytes.now result }
        ensures dropped { OnDropped result ((self.new ≡ self.old) × (out.new ≡ None)) }
        ensures effect { HasEffectOf self.old.state bytes.now result self.new.state out.new (receives self.old.state bytes.now).calls }
    {
        self.connection.shows_proper();
        out.clear();
        self.connection.take_bytes(bytes, out, &mut self.congestion)
    }

    /// Takes bytes that arrived, as [`Endpoint::receive`] does, for an owner that has decoded them: `packet` is what
    /// `decode` made of `bytes`.
    pub fn receive_packet(&mut self, packet: &Packet<'_>, bytes: &[u8], out: &mut Outbox) -> Outcome
        requires short { length bytes.now ≤ 2044 }
        requires read { decoded bytes.now ≡ Ok (parts_of_packet packet.now) }
        requires options { length packet.now.options.now ≤ 1008 }
        ensures step { record { after = self.new; frame = out.new; answer = result } ≡ with_control C.control self.old.congestion (receives self.old.state bytes.now) }
        ensures cause { HasCause self.old.state bytes.now result }
        ensures no_other_cause { HasNoOtherCause self.old.state bytes.now result }
        ensures dropped { OnDropped result ((self.new ≡ self.old) × (out.new ≡ None)) }
        ensures effect { HasEffectOf self.old.state bytes.now result self.new.state out.new (receives self.old.state bytes.now).calls }
    {
        self.connection.shows_proper();
        out.clear();
        self.connection
            .take_packet(packet, bytes, out, &mut self.congestion)
    }
}
