//! An end with its timers over a network.
ghost use Rattle.std.specs.Prelude.{◌≡◌};

use crate::holding::{give_back, settle_heard, speak};
use crate::network::hand_over;
use crate::news::{news_if, news_kept};
use crate::{Alarms, ClientCookie, Due, Network, News, Pace, Path, SendRefusal, TimedEnd};
use data_dropped::Intake;
use dccp_endpoint::{
    AbortFault, CloseFault, Config, Congestion, DecodedDatagram, Endpoint, Feature,
    MOST_FRAME_BYTES, NoMemory, OpenFault, Outbox, Place, PreferFault, Seq48, Timer,
};
use path_rules::window_within;
use std::alloc::Global;
use std::marker::Model;

/// An end with the timers that its owner keeps for it. Each call takes the time, in milliseconds since any moment, and
/// the network that carries the end's frames to its peer.
///
/// The order of calls: a client is made (`new`) and opened (`open`); a server's end is made by `accept`. After that,
/// call `arrived` for each datagram from the peer, and `tick` once `until_first` has passed; ask for that again after
/// every other call. `send` sends data as long as there is `room`. `close` ends the connection in order, `abort` at
/// once. It has ended once the phase of `end` is CLOSED. Keep the session in TIMEWAIT, since it still answers late
/// packets.
///
/// Data that arrive are in their datagram. If `holding` gives the session an inbox, they wait there until `read` takes
/// them, and drops are reported to the peer. A client returns the Init Cookie of its server (RFC 4340, section 8.1.4).
#[derive(Drop)]
pub struct Session<C> {
    timed: TimedEnd<C>,
    intake: Intake,
    cookie: ClientCookie,
}

impl<C> Model for Session<C> {
    ghost use Rattle.dccp_uses.specs.Holding.{HoldingState};

    ghost Value = { HoldingState C };

    ghost view = { λ s. record { timed = s.timed; inbox = s.intake; cookie = s.cookie } };
}

impl<C: Congestion + Drop> Session<C> {
    ghost use Rattle.std.specs.Prelude.{◌≡◌, IfOk, IsTrue};
    ghost use Rattle.dccp_uses.specs.Holding.{without_inbox};
    ghost use Rattle.dccp_uses.specs.Timed.{timed_begins};

    /// A session of an end that has sent and received nothing, under the rules of this pace. The congestion control has
    /// to know CCID 2.
    pub fn new(
        alloc: Global,
        config: Config,
        congestion: C,
        pace: Pace,
    ) -> Result<Session<C>, NoMemory>
        requires { IsTrue (C.control.is_known 2) }
        ensures { IfOk result (λ s. s ≡ without_inbox (timed_begins C.control config congestion pace)) }
    {
        let timed = TimedEnd::new(alloc, config, congestion, pace)?;
        Ok(Session {
            timed,
            intake: Intake::none(),
            cookie: ClientCookie::none(),
        })
    }

    /// The same session with this intake for its data. Data that waited in an earlier inbox are lost, so call it for a
    /// new session.
    pub fn holding(self, intake: Intake) -> Session<C>
        ensures { result ≡ record self { inbox = intake } }
    {
        Session {
            timed: self.timed,
            intake,
            cookie: self.cookie,
        }
    }
}

impl<C: Congestion> Session<C> {
    ghost use Rattle.std.specs.Prelude.{◌≡◌, ◌≤◌, ◌<◌, ◌-◌, ◌↔◌, ℕ, None, OnErr, false, length};
    ghost use Rattle.dccp_endpoint.specs.Controlled.{in_flight_of, window_of};
    ghost use Rattle.data_dropped.specs.Intakes.{count_held, first_read, read_over, without_first, without_listener};
    ghost use Rattle.path_rules.specs.Allowance.{window_within};
    ghost use Rattle.dccp_uses.specs.Handing.{Hands, HandsAll};
    ghost use Rattle.dccp_uses.specs.Holding.{holding_frame, steps_beside};
    ghost use Rattle.dccp_uses.specs.Timed.{first_wait_left, timed_aborts, timed_closes, timed_opens, timed_prefers, timed_sends};
    ghost use Rattle.dccp_uses.specs.Sessions.{Does, NoneIsDue, holding_hears, holding_rings, rings_each_due};
    ghost use Rattle.dccp_uses.specs.Upkeeps.{every_due};

    /// The end, to be read.
    pub fn end(&self) -> &Endpoint<C>
        ensures { result.now ≡ self.now.timed.end }
    {
        self.timed.end()
    }

    /// The timers that run.
    pub fn alarms(&self) -> &Alarms
        ensures { result.now ≡ self.now.timed.upkeep.alarms }
    {
        self.timed.alarms()
    }

    /// What is kept of its path.
    pub fn path(&self) -> &Path
        ensures { result.now ≡ self.now.timed.upkeep.path }
    {
        self.timed.path()
    }

    /// In how many milliseconds `tick` has something to do, or None if it will have nothing.
    pub fn until_first(&self, now: u64) -> Option<u64>
        ensures { result ≡ first_wait_left self.now.timed now }
    {
        self.timed.until_first(now)
    }

    /// For how many further data packets the window has room, as far as the application that reads them allows. If it
    /// is 0, `send` is refused, with `WindowFull` or `Held`.
    pub fn room(&self) -> u32
        ensures { result ≡ window_within self.now.timed.upkeep.path.reader.allowance (window_of C.control self.now.timed.end.congestion) - in_flight_of C.control self.now.timed.end.congestion }
    {
        let end = self.timed.end();
        let window = window_within(self.timed.path().reader.allowance, end.window());
        window.saturating_sub(end.in_flight())
    }

    // Hands over the frame that the end has left, with what the inbox has to say, and with the cookie.
    fn hand<N: Network>(&self, out: &mut Outbox, network: &mut N)
        ensures handed { Hands N.sends network.old (holding_frame self.now out.old) network.new }
        ensures quiet { out.old ≡ None → network.new ≡ network.old }
    {
        speak(&self.intake, &self.timed, out);
        give_back(&self.cookie, &self.timed, out);
        hand_over(out, network);
    }

    /// Takes the data that have waited longest in the inbox: writes them over the front of `into`, and returns their
    /// packet's number and their length. None if none wait; then nothing changes.
    pub fn read(&mut self, into: &mut [u8; 2032]) -> Option<(Seq48, usize)>
        ensures rest { self.new ≡ record self.old { inbox = without_first self.old.inbox } }
        ensures answer { result ≡ first_read self.old.inbox }
        ensures data { into.new ≡ read_over self.old.inbox into.old }
    {
        self.intake.read(into)
    }

    /// The application stops listening: data that arrive from now on are dropped, and this is reported to the peer (RFC
    /// 4340, section 11.7). False if there is no inbox; then nothing changes.
    pub fn stop(&mut self) -> bool
        ensures stops { self.new ≡ record self.old { inbox = without_listener self.old.inbox } }
        ensures no_inbox { (result ≡ false) ↔ (self.old.inbox ≡ None) }
    {
        self.intake.stop()
    }

    /// How many packets' data wait in the inbox.
    pub fn held(&self) -> usize
        ensures { result ≡ count_held self.now.inbox }
    {
        self.intake.held()
    }

    /// A client asks for its service, once: its Request goes out. Refused as `Endpoint::open` is; then nothing has
    /// changed and nothing is sent.
    pub fn open<N: Network>(&mut self, now: u64, network: &mut N) -> Result<(), OpenFault>
        ensures does { Does N.sends (steps_beside self.old (timed_opens C.control now self.old.timed)) self.new network.old network.new result }
        ensures refused { OnErr result (self.new ≡ self.old) }
        ensures sends_nothing { OnErr result (network.new ≡ network.old) }
    {
        let mut out = Outbox::new();
        let answer = self.timed.open(now, &mut out);
        self.hand(&mut out, network);
        answer
    }

    /// Sends data, at most 1,024 bytes, if the end takes them, also in PARTOPEN, so that a client may speak first.
    /// Refused with `Held` if they have to wait for the application that reads them; otherwise refused as
    /// `Endpoint::send_soon` is, with `WindowFull` if there is no room. Then nothing has changed and nothing is sent.
    /// The data may be offered again, unless the application no longer listens.
    pub fn send<N: Network>(
        &mut self,
        payload: &[u8],
        now: u64,
        network: &mut N,
    ) -> Result<(), SendRefusal>
        ensures does { Does N.sends (steps_beside self.old (timed_sends C.control now self.old.timed payload.now)) self.new network.old network.new result }
        ensures refused { OnErr result (self.new ≡ self.old) }
        ensures sends_nothing { OnErr result (network.new ≡ network.old) }
    {
        let mut out = Outbox::new();
        let answer = self.timed.send(payload, now, &mut out);
        self.hand(&mut out, network);
        answer
    }

    /// Asks for these values of a feature, best first. Refused as `Endpoint::prefer` is; then nothing has changed and
    /// nothing is sent. `Endpoint::held` shows the result, once that is Stable again.
    pub fn prefer<N: Network>(
        &mut self,
        feature: Feature,
        place: Place,
        values: &[u64],
        now: u64,
        network: &mut N,
    ) -> Result<(), PreferFault>
        ensures does { Does N.sends (steps_beside self.old (timed_prefers C.control now self.old.timed feature place values.now)) self.new network.old network.new result }
        ensures refused { OnErr result (self.new ≡ self.old) }
        ensures sends_nothing { OnErr result (network.new ≡ network.old) }
    {
        let mut out = Outbox::new();
        let answer = self.timed.prefer(feature, place, values, now, &mut out);
        self.hand(&mut out, network);
        answer
    }

    /// Ends the connection in order. Refused as `Endpoint::close` is; then nothing has changed and nothing is sent.
    pub fn close<N: Network>(&mut self, now: u64, network: &mut N) -> Result<(), CloseFault>
        ensures does { Does N.sends (steps_beside self.old (timed_closes C.control now self.old.timed)) self.new network.old network.new result }
        ensures refused { OnErr result (self.new ≡ self.old) }
        ensures sends_nothing { OnErr result (network.new ≡ network.old) }
    {
        let mut out = Outbox::new();
        let answer = self.timed.close(now, &mut out);
        self.hand(&mut out, network);
        answer
    }

    /// Gives the connection up. Refused as `Endpoint::abort` is; then nothing has changed and nothing is sent.
    pub fn abort<N: Network>(&mut self, now: u64, network: &mut N) -> Result<(), AbortFault>
        ensures does { Does N.sends (steps_beside self.old (timed_aborts C.control now self.old.timed)) self.new network.old network.new result }
        ensures refused { OnErr result (self.new ≡ self.old) }
        ensures sends_nothing { OnErr result (network.new ≡ network.old) }
    {
        let mut out = Outbox::new();
        let answer = self.timed.abort(now, &mut out);
        self.hand(&mut out, network);
        answer
    }

    /// Takes a datagram from the peer, the bytes of a DCCP packet. One that is longer than 2,044 bytes is no frame of
    /// such an end: it changes nothing and nothing is sent. Data that it brings are within the datagram; in a session
    /// with an inbox they wait there, or were dropped.
    pub fn arrived<N: Network>(&mut self, datagram: &[u8], now: u64, network: &mut N) -> News
        ensures does { Does N.sends (holding_hears C.control now self.old datagram.now) self.new network.old network.new result }
        ensures too_long { (result ≡ News.TooLong) ↔ (2044 < length datagram.now) }
        ensures unchanged { 2044 < length datagram.now → (self.new ≡ self.old) × (network.new ≡ network.old) }
        ensures inside { (first past : ℕ) → result ≡ News.Data first past
            → (first ≤ past) × (past ≤ length datagram.now) }
    {
        if MOST_FRAME_BYTES < datagram.len() {
            return News::TooLong;
        }
        let decoded = DecodedDatagram::new(datagram);
        let was = self.timed.end().phase();
        let mut out = Outbox::new();
        let outcome = self.timed.receive(&decoded, now, &mut out);
        let is = self.timed.end().phase();
        self.cookie.keep(was, is, &decoded);
        let arrival = settle_heard(&mut self.intake, &self.timed, datagram, &outcome);
        self.hand(&mut out, network);
        news_kept(arrival, news_if(outcome, was, is))
    }

    /// Fires each timer that has run out by `now`, once, and then follows one rule of the path. After that nothing is
    /// due at this time.
    pub fn tick<N: Network>(&mut self, now: u64, network: &mut N)
        ensures session { self.new ≡ (rings_each_due C.control now self.old every_due).holding }
        ensures handed { HandsAll N.sends network.old (rings_each_due C.control now self.old every_due).frames network.new }
        ensures once { NoneIsDue now self.new.timed }
    {
        self.ring(Due::Timer(Timer::Request), now, network);
        self.ring(Due::Timer(Timer::Ack), now, network);
        self.ring(Due::Timer(Timer::Negotiate), now, network);
        self.ring(Due::Timer(Timer::Rto), now, network);
        self.ring(Due::Timer(Timer::Close), now, network);
        self.ring(Due::Timer(Timer::TimeWait), now, network);
        self.ring(Due::Rules, now, network);
    }

    // Does what is due of the end, if it is. Returns whether the end had something to do.
    fn ring<N: Network>(&mut self, due: Due, now: u64, network: &mut N) -> bool
        ensures does { Does N.sends (holding_rings C.control now self.old due) self.new network.old network.new result }
    {
        if !self.timed.is_due(due, now) {
            return false;
        }
        let mut out = Outbox::new();
        let applies = self.timed.tell(due, now, &mut out);
        self.hand(&mut out, network);
        applies
    }
}
