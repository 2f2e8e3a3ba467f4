//! A server, as its owner uses it.
ghost use Rattle.std.specs.Prelude.{◌≡◌};

use crate::anew::refuses_last_sync;
use crate::duty::Duty;
use crate::lives::{life_of, write_user};
use crate::meeting::{Meeting, Way, greet_with_cookie, leave_out};
use crate::room::{ArrivalResult, arrive, ask, follow, forget, is_crowded, who_leaves};
use crate::timed_listener::TimedListener;
use ccid_two::Kinds;
use dccp_endpoint::{DecodedDatagram, Endpoint, Outbox, Seen, Seq48, UserCall};
use dccp_listener::{Heard, ListenConfig, NoFlow, Peer};
use dccp_packets::Frame;
use dccp_uses::{Due, Pace, Reader, Restraint, Upkeep, due_rule, is_taken, restraint_of};
use init_cookies::{CookieKeys, FirstRequest, put_request};
use server_peers::{
    CookieUse, DatagramKind, Life, Register, Rules, Strangers, answer_spared, asking_of, entry_by,
    first_given_up, hurried, is_ever_in_use, is_half_open, is_in_use, least_left, opening_of,
    refuse_stranger, rekeyed, route_of, spare,
};
use std::alloc::Global;
use std::marker::Model;

/// A server: a listener with the timers of its flows and the rules of their paths, which makes room and gives flows up
/// by its own rules. Each call takes the time, in milliseconds since any moment, and leaves at most one frame in the
/// Outbox, which goes to the peer of the call.
///
/// Datagrams go into `arrive`, and the owner's calls into `ask`. Once `until_first` has passed, call `tick` until it
/// returns None; call `until_first` again after every other call. `forget` removes a flow at once, whatever its phase.
#[derive(Drop)]
pub struct Server {
    timed: TimedListener,
    lives: Register<Life>,
    rules: Rules,
    strangers: Strangers,
    cookies: CookieUse,
    keys: Option<CookieKeys>,
}

impl Model for Server {
    ghost use Rattle.dccp_server.specs.Rooms.{IsLiving, RuledRoom, as_room};

    ghost Value = { RuledRoom };

    ghost view = { λ s. record { room = as_room s.timed s.lives; rules = s.rules; strangers = s.strangers; cookies = s.cookies; keys = s.keys } };

    ghost invariant = { λ s. IsLiving (as_room s.timed s.lives) };
}

impl Server {
    ghost use Rattle.std.specs.Option.{option_map};
    ghost use Rattle.std.specs.Prelude.{◌≡◌, ◌≤◌, ◌↔◌, IfErr, IfOk, IsErr, MatchOption, OnErr, OnOk, None, Some, if◌then◌else◌, is_some, length, slice_get, true};
    ghost use Rattle.std.specs.Map.{keys_of};
    ghost use Rattle.dccp_listener.specs.Calls.{reset_for, seen_if};
    ghost use Rattle.dccp_listener.specs.Chain.{Calls, Sends, asked, config_for};
    ghost use Rattle.dccp_listener.specs.Listens.{listens, is_table_full};
    ghost use Rattle.dccp_listener.specs.Peers.{end_of_peer};
    ghost use Rattle.dccp_listener.specs.Runs.{Stepped};
    ghost use Rattle.dccp_listener.specs.Standing.{IsListening};
    ghost use Rattle.dccp_packets.specs.Grammar.{decoded};
    ghost use Rattle.server_peers.specs.Lives.{life_of};
    ghost use Rattle.dccp_server.specs.Meeting.{IsMet, cleared, entry_met, flow_at, heard_again, hurrying, is_unproved, maker_of, may_meet, needs_no_flow, received_hurrying, reopened, returned, unreceived_hurrying, unreopened};
    ghost use Rattle.server_peers.specs.CookieUses.{rekeyed};
    ghost use Rattle.server_peers.specs.Places.{peer_after};
    ghost use Rattle.dccp_server.specs.Refusals.{refused_frame, refused_server};
    ghost use Rattle.server_peers.specs.Refusals.{flow_asked};
    ghost use Rattle.dccp_server.specs.Rooms.{IsServed, forgets, is_to_be_heard, received_at, duty_done, duty_due, duty_frame, duty_in, room_does, room_waits, ruled_begins, who_is_over, who_leaves, with_user};
    ghost use Rattle.dccp_server.specs.Serving.{Does, Follows, doing_frame, flow_restraint, flow_restraint_by, upkeep_at};

    /// A server without flows. Its ends make the offers of the lists, and follow the rules of `pace` on their paths;
    /// the server follows `rules`. It takes no memory.
    pub fn new(alloc: Global, config: ListenConfig, pace: Pace, rules: Rules) -> Server
        requires { IsListening config }
        ensures { result ≡ ruled_begins config pace rules }
    {
        Server {
            timed: TimedListener::new(alloc, config, pace),
            lives: Register::new(alloc),
            rules,
            strangers: Strangers::none_answered(),
            cookies: CookieUse::InACrowd,
            keys: None,
        }
    }

    /// Whether a peer has a flow.
    pub fn has_flow(&self, peer: Peer) -> bool
        ensures { result ≡ is_some (end_of_peer self.now.room.served.listening.flows peer) }
    {
        self.lives.has(peer)
    }

    /// Keeps what is known of a peer's flow at hand from now on: calls about the same peer are faster, and have the
    /// same results.
    pub(crate) fn seek(&mut self, peer: Peer)
        ensures { self.new ≡ self.old }
    {
        self.timed.seek(peer);
        self.lives.seek(peer);
    }

    /// A datagram of a peer has arrived, at most 2,044 bytes: `Listener::arrive`, and then the rules. A datagram that
    /// would be answered by one Sync too many is ignored. If the listener is busy and a flow may leave, that flow is
    /// forgotten, and the datagram is heard once more. If the datagram shows that the peer has connected again, the
    /// peer's old flow is forgotten and nothing is sent, so that the peer asks again. An answer to a peer without a
    /// flow that is one too many is not sent.
    pub fn arrive(
        &mut self,
        peer: Peer,
        iss: Seq48,
        datagram: &DecodedDatagram<'_>,
        now: u64,
        out: &mut Outbox,
    ) -> ArrivalResult
        requires { length datagram.now ≤ 2044 }
        ensures { IsServed now self.old self.new peer iss datagram.now out.new result.heard result.evicted result.anew }
    {
        let was = self.has_flow(peer);
        let arrival = arrive(
            &mut self.timed,
            &mut self.lives,
            &self.rules,
            peer,
            iss,
            datagram,
            now,
            out,
        );
        let answers = !was && (!self.has_flow(peer) && out.frame().is_some());
        self.strangers = spare(
            &self.rules,
            &self.strangers,
            answers,
            &arrival.heard,
            now,
            out,
        );
        arrival
    }

    // Drops the flow that the peer had, since its cookie was valid.
    fn clear(&mut self, peer: Peer, now: u64, out: &mut Outbox)
        ensures { self.new ≡ cleared now self.old peer }
    {
        if self.has_flow(peer) {
            self.forget(peer, now, out);
        }
    }

    // Whether nothing has proved yet that the peer is at the address in its datagrams.
    fn is_unproved(&self, peer: Peer) -> bool
        ensures { result ≡ is_unproved (flow_at self.now peer) }
    {
        match self.timed.flow(peer) {
            Some(end) => is_half_open(end.phase()),
            None => true,
        }
    }

    /// The opening that a datagram brings back, if it brings one.
    pub(crate) fn returned(
        &self,
        peer: Peer,
        datagram: &DecodedDatagram<'_>,
        now: u64,
    ) -> Option<FirstRequest>
        requires { length datagram.now ≤ 2044 }
        ensures { result ≡ returned now self.now peer datagram.now }
    {
        let Some(keys) = &self.keys else {
            return None;
        };
        if !self.is_unproved(peer) {
            return None;
        }
        opening_of(now, keys, &route_of(self.timed.config(), peer), datagram)
    }

    // Whether a Request of the peer needs no flow.
    fn needs_no_flow(&self, peer: Peer, datagram: &DecodedDatagram<'_>, now: u64) -> bool
        ensures { result ≡ needs_no_flow now self.now peer datagram.now (flow_at self.now peer) }
    {
        match self.timed.flow(peer) {
            Some(end) => {
                is_ever_in_use(self.cookies)
                    && (is_half_open(end.phase()) && !self.would_hear(peer, datagram, now))
            }
            None => is_in_use(self.cookies, is_crowded(&self.timed, &self.lives)),
        }
    }

    // Whether a datagram of a flow's peer would be heard.
    fn would_hear(&self, peer: Peer, datagram: &DecodedDatagram<'_>, now: u64) -> bool
        ensures { result ≡ is_to_be_heard now self.now.rules self.now.room peer datagram.now }
    {
        if refuses_last_sync(&self.rules, &life_of(&self.lives, peer), datagram) {
            return true;
        }
        self.timed.would_admit(peer, datagram, now)
    }

    // The kind of a datagram that brings this opening back, if it brings one.
    fn entry_met(
        &self,
        opening: Option<FirstRequest>,
        peer: Peer,
        iss: Seq48,
        datagram: &DecodedDatagram<'_>,
        now: u64,
    ) -> DatagramKind
        requires short { length datagram.now ≤ 2044 }
        requires brought { opening ≡ returned now self.now peer datagram.now }
        ensures { result ≡ entry_met now self.now peer iss datagram.now }
    {
        if let Some(opening) = opening {
            return DatagramKind::Returns(opening);
        }
        if self.keys.is_some() && self.needs_no_flow(peer, datagram, now) {
            let route = route_of(self.timed.config(), peer);
            return entry_by(asking_of(now, iss, &route, datagram));
        }
        DatagramKind::Plain
    }

    // The Request of an opening arrives again.
    fn hear_again(
        &mut self,
        peer: Peer,
        opening: &FirstRequest,
        now: u64,
        out: &mut Outbox,
    ) -> ArrivalResult
        ensures opened { IfOk result.heard (λ _. self.new ≡ heard_again now self.old peer opening.now) }
        ensures evicted { IfOk result.heard (λ _. result.evicted ≡ maker_of now self.old peer opening.now) }
        ensures unopened { OnErr result.heard (self.new ≡ unreopened now self.old peer opening.now result.evicted) }
    {
        let mut request = Frame::new();
        put_request(&route_of(self.timed.config(), peer), opening, &mut request);
        self.clear(peer, now, out);
        let datagram = DecodedDatagram::new(request.bytes());
        self.arrive_hurrying(peer, opening.iss(), &datagram, opening.time(), out)
    }

    // A Request arrives while half-open flows are over their time at once.
    fn arrive_hurrying(
        &mut self,
        peer: Peer,
        iss: Seq48,
        datagram: &DecodedDatagram<'_>,
        now: u64,
        out: &mut Outbox,
    ) -> ArrivalResult
        requires { length datagram.now ≤ 2044 }
        ensures opened { IfOk result.heard (λ _. self.new ≡ received_hurrying now self.old peer iss datagram.now) }
        ensures evicted { IfOk result.heard (λ _. result.evicted ≡ (received_at now (hurrying self.old) peer iss datagram.now).evicted) }
        ensures unopened { OnErr result.heard (self.new ≡ unreceived_hurrying now self.old peer iss datagram.now result.evicted) }
    {
        let rules = self.rules;
        self.set_rules(hurried(&rules));
        let arrival = self.arrive(peer, iss, datagram, now, out);
        self.set_rules(rules);
        arrival
    }

    // The same, and the owner's number for a flow that was half open stays.
    fn reopen(
        &mut self,
        peer: Peer,
        opening: &FirstRequest,
        now: u64,
        out: &mut Outbox,
    ) -> ArrivalResult
        ensures opened { IfOk result.heard (λ _. self.new ≡ reopened now self.old peer opening.now) }
        ensures evicted { IfOk result.heard (λ _. result.evicted ≡ maker_of now self.old peer opening.now) }
        ensures unopened { OnErr result.heard (self.new ≡ unreopened now self.old peer opening.now result.evicted) }
    {
        let user = self.life(peer).user;
        let arrival = self.hear_again(peer, opening, now, out);
        if arrival.heard.is_ok() {
            let _ = self.set_user(peer, user);
        }
        arrival
    }

    /// A datagram of a peer has arrived, at most 2,044 bytes: `arrive`, with Init Cookies if `set_cookies` says so and
    /// there is a key (RFC 4340, section 8.1.4). A Request that needs no flow is answered with a cookie, or left out if
    /// its options are too long for one. A packet that brings a valid cookie back opens its flow and is served.
    pub fn meet(
        &mut self,
        peer: Peer,
        iss: Seq48,
        datagram: &DecodedDatagram<'_>,
        now: u64,
        out: &mut Outbox,
    ) -> Meeting
        requires { length datagram.now ≤ 2044 }
        ensures met { IsMet now self.old self.new peer iss datagram.now out.new result.arrival.heard result.arrival.evicted result.arrival.anew result.made_room result.way }
        ensures way { may_meet (entry_met now self.old peer iss datagram.now) result.way ≡ true }
    {
        let opening = self.returned(peer, datagram, now);
        self.meet_by(opening, peer, iss, datagram, now, out)
    }

    /// The same of a datagram that brings this opening back, if it brings one.
    pub(crate) fn meet_by(
        &mut self,
        opening: Option<FirstRequest>,
        peer: Peer,
        iss: Seq48,
        datagram: &DecodedDatagram<'_>,
        now: u64,
        out: &mut Outbox,
    ) -> Meeting
        requires short { length datagram.now ≤ 2044 }
        requires brought { opening ≡ returned now self.old peer datagram.now }
        ensures met { IsMet now self.old self.new peer iss datagram.now out.new result.arrival.heard result.arrival.evicted result.arrival.anew result.made_room result.way }
        ensures way { may_meet (entry_met now self.old peer iss datagram.now) result.way ≡ true }
    {
        match self.entry_met(opening, peer, iss, datagram, now) {
            DatagramKind::Plain => self.serve(peer, iss, datagram, now, out),
            DatagramKind::TooLong => leave_out(Ok(None), out),
            DatagramKind::Asks(opening) => self.greet(peer, &opening, iss, datagram, now, out),
            DatagramKind::Returns(opening) => self.serve_returned(
                peer, &opening, iss, datagram, now, out,
            ),
        }
    }

    /// It is served as if there were no cookies.
    pub(crate) fn serve(
        &mut self,
        peer: Peer,
        iss: Seq48,
        datagram: &DecodedDatagram<'_>,
        now: u64,
        out: &mut Outbox,
    ) -> Meeting
        requires { length datagram.now ≤ 2044 }
        ensures served { IsServed now self.old self.new peer iss datagram.now out.new result.arrival.heard result.arrival.evicted result.arrival.anew }
        ensures nobody { result.made_room ≡ None }
        ensures plain { result.way ≡ Way.Plain }
    {
        let arrival = self.arrive(peer, iss, datagram, now, out);
        Meeting {
            arrival,
            way: Way::Plain,
            made_room: None,
        }
    }

    // A Request that needs no flow: it is greeted if a fresh end takes it, otherwise served.
    fn greet(
        &mut self,
        peer: Peer,
        opening: &FirstRequest,
        iss: Seq48,
        datagram: &DecodedDatagram<'_>,
        now: u64,
        out: &mut Outbox,
    ) -> Meeting
        requires short { length datagram.now ≤ 2044 }
        requires asks { entry_met now self.old peer iss datagram.now ≡ DatagramKind.Asks opening.now }
        ensures met { IsMet now self.old self.new peer iss datagram.now out.new result.arrival.heard result.arrival.evicted result.arrival.anew result.made_room result.way }
        ensures way { may_meet (DatagramKind.Asks opening.now) result.way ≡ true }
    {
        let Some(keys) = self.keys else {
            return self.serve(peer, iss, datagram, now, out);
        };
        match greet_with_cookie(&self.timed, &keys, peer, opening, out) {
            Ok(outcome) => {
                if is_taken(&outcome) {
                    Meeting::unserved(Ok(Some(Heard::Flow(outcome))), Way::Greeted, None)
                } else {
                    self.serve(peer, iss, datagram, now, out)
                }
            }
            Err(fault) => leave_out(Err(fault), out),
        }
    }

    // A packet that brings an opening back: its flow is opened, and hears it.
    fn serve_returned(
        &mut self,
        peer: Peer,
        opening: &FirstRequest,
        iss: Seq48,
        datagram: &DecodedDatagram<'_>,
        now: u64,
        out: &mut Outbox,
    ) -> Meeting
        requires short { length datagram.now ≤ 2044 }
        requires returns { entry_met now self.old peer iss datagram.now ≡ DatagramKind.Returns opening.now }
        ensures met { IsMet now self.old self.new peer iss datagram.now out.new result.arrival.heard result.arrival.evicted result.arrival.anew result.made_room result.way }
        ensures way { may_meet (DatagramKind.Returns opening.now) result.way ≡ true }
    {
        let first = self.reopen(peer, opening, now, out);
        if let Err(fault) = first.heard {
            out.clear();
            return Meeting::unserved(Err(fault), Way::Unopened, first.evicted);
        }
        if !self.has_flow(peer) {
            out.clear();
            return Meeting::unserved(Ok(None), Way::Unopened, first.evicted);
        }
        let mut meeting = self.serve(peer, iss, datagram, now, out);
        meeting.way = Way::Reopened;
        meeting.made_room = first.evicted;
        meeting
    }

    /// Calls a peer's end: `Listener::ask`. NoFlow exactly if the peer has no flow. It takes no memory.
    pub fn ask(
        &mut self,
        peer: Peer,
        call: UserCall<'_>,
        now: u64,
        out: &mut Outbox,
    ) -> Result<Seen, NoFlow>
        ensures after { self.new ≡ record self.old { room = room_does now self.old.room peer (Does (Calls (asked call.entry))) } }
        ensures sent { out.new ≡ (listens self.old.room.served.listening peer (Calls (asked call.entry))).frame }
        ensures told { Stepped (seen_if result) ≡ (listens self.old.room.served.listening peer (Calls (asked call.entry))).told }
    {
        ask(&mut self.timed, &mut self.lives, peer, call, now, out)
    }

    /// Sends data to a peer: `ask` with `UserCall::Send`. They have to wait exactly if there is a `restraint`: then Err
    /// has it, nothing changes, and nothing goes out.
    pub fn send(
        &mut self,
        peer: Peer,
        payload: &[u8],
        now: u64,
        out: &mut Outbox,
    ) -> Result<Result<Seen, NoFlow>, Restraint>
        ensures held { IfErr result (λ why. flow_restraint self.old.room.served peer ≡ Some why) }
        ensures unchanged { OnErr result ((self.new ≡ self.old) × (out.new ≡ None)) }
        ensures free { OnOk result (flow_restraint self.old.room.served peer ≡ None) }
        ensures after { OnOk result (self.new ≡ record self.old { room = room_does now self.old.room peer (Does (Calls (Sends payload.now))) }) }
        ensures sent { OnOk result (out.new ≡ (listens self.old.room.served.listening peer (Calls (Sends payload.now))).frame) }
        ensures told { IfOk result (λ answer. Stepped (seen_if answer) ≡ (listens self.old.room.served.listening peer (Calls (Sends payload.now))).told) }
    {
        if let Some(why) = self.restraint(peer) {
            out.clear();
            return Err(why);
        }
        Ok(self.ask(peer, UserCall::Send(payload), now, out))
    }

    /// Ends a peer's flow at once, whatever its phase, and sends nothing.
    pub fn forget(&mut self, peer: Peer, now: u64, out: &mut Outbox)
        ensures after { self.new ≡ record self.old { room = forgets now self.old.room peer } }
        ensures sent { out.new ≡ None }
    {
        forget(&mut self.timed, &mut self.lives, peer, now, out);
    }

    // The peer whose flow is given up first, if one is.
    fn over(&self, now: u64) -> Option<Peer>
        ensures { result ≡ who_is_over now self.now.rules self.now.room }
    {
        let crowded = is_crowded(&self.timed, &self.lives);
        first_given_up(&self.rules, crowded, &self.lives, now)
    }

    // The duty for what is due at a peer's flow.
    fn duty_due(&self, peer: Peer, due: Due, now: u64) -> Duty
        ensures { result ≡ duty_due now self.now.room.served peer due }
    {
        match due {
            Due::Timer(timer) => Duty::Ring(peer, timer),
            Due::Rules => Duty::Follow(peer, due_rule(&self.timed.upkeep(peer).path, now)),
        }
    }

    /// What has to be done first: the first thing due at the flow that has waited longest, a timer or a rule of its
    /// path. If nothing is due, a flow that has been in its phase or silent for too long is given up: the longest half
    /// open, else the longest silent, else the longest in CLOSEREQ or CLOSING.
    pub fn duty(&self, now: u64) -> Option<Duty>
        ensures { result ≡ duty_in now self.now.rules self.now.room }
    {
        if let Some((peer, due)) = self.timed.due(now) {
            return Some(self.duty_due(peer, due, now));
        }
        match self.over(now) {
            Some(peer) => Some(Duty::GiveUp(peer)),
            None => None,
        }
    }

    // The first rule of a peer's path that is due makes its end do something.
    fn follow(&mut self, peer: Peer, now: u64, out: &mut Outbox)
        ensures after { self.new ≡ record self.old { room = room_does now self.old.room peer Follows } }
        ensures sent { out.new ≡ doing_frame now self.old.room.served peer Follows }
    {
        follow(&mut self.timed, &mut self.lives, peer, now, out);
    }

    /// Does a duty.
    pub(crate) fn perform(&mut self, duty: Duty, now: u64, out: &mut Outbox)
        ensures after { self.new ≡ record self.old { room = duty_done now self.old.room (Some duty) } }
        ensures sent { out.new ≡ duty_frame now self.old.room (Some duty) }
    {
        match duty {
            Duty::Ring(peer, timer) => {
                let _ = self.ask(peer, UserCall::Timer(timer), now, out);
            }
            Duty::Follow(peer, _) => self.follow(peer, now, out),
            Duty::GiveUp(peer) => {
                let _ = self.ask(peer, UserCall::Abort, now, out);
            }
        }
    }

    /// Does what has to be done first, and returns it, or None if there was nothing to do.
    pub fn tick(&mut self, now: u64, out: &mut Outbox) -> Option<Duty>
        ensures duty { result ≡ duty_in now self.old.rules self.old.room }
        ensures after { self.new ≡ record self.old { room = duty_done now self.old.room result } }
        ensures sent { out.new ≡ duty_frame now self.old.room result }
    {
        let Some(duty) = self.duty(now) else {
            out.clear();
            return None;
        };
        self.perform(duty, now, out);
        Some(duty)
    }

    /// In how many milliseconds something is due at a flow, or one is given up; 2^64 - 1 if there is no such time.
    pub fn until_first(&self, now: u64) -> u64
        ensures { result ≡ room_waits now self.now.rules self.now.room }
    {
        let crowded = is_crowded(&self.timed, &self.lives);
        let least = self.timed.until_first(now);
        least_left(&self.rules, crowded, &self.lives, now, least)
    }

    /// A peer's end, or None exactly if it has none.
    pub fn flow(&self, peer: Peer) -> Option<&Endpoint<Kinds>>
        ensures { MatchOption result (end_of_peer self.now.room.served.listening.flows peer ≡ None) (λ end. end_of_peer self.now.room.served.listening.flows peer ≡ Some end.now) }
    {
        self.timed.flow(peer)
    }

    /// How many flows there are.
    pub fn flows(&self) -> u16
        ensures { result ≡ length self.now.room.served.listening.flows }
    {
        self.timed.flows()
    }

    /// The first peer that has a flow, by address and then by port.
    pub fn first_peer(&self) -> Option<Peer>
        ensures { result ≡ slice_get (keys_of self.now.room.served.listening.flows) 0 }
    {
        self.lives.first_peer()
    }

    /// The first peer that has a flow and comes after this one, which may have none. From `first_peer` on it names each
    /// peer once, and no call goes through all flows.
    pub fn peer_after(&self, peer: Peer) -> Option<Peer>
        ensures { result ≡ peer_after peer (keys_of self.now.room.served.listening.flows) }
    {
        self.lives.peer_after(peer)
    }

    /// What is kept of a peer's flow: its timers and its path. If the peer has no flow, it is what is kept of one that
    /// begins.
    pub fn upkeep(&self, peer: Peer) -> Upkeep
        ensures { result ≡ upkeep_at self.now.room.served.pace self.now.room.served.upkeeps peer }
    {
        self.timed.upkeep(peer)
    }

    /// Why data to a peer have to wait for the application that reads them (RFC 4340, sections 11.6 and 11.7). None if
    /// they need not, and also if it has no flow. `send` heeds it, and `ask` does not.
    pub fn restraint(&self, peer: Peer) -> Option<Restraint>
        ensures { result ≡ flow_restraint self.now.room.served peer }
    {
        match self.timed.flow(peer) {
            Some(end) => self.restraint_at(peer, end),
            None => None,
        }
    }

    /// The same of its end.
    pub(crate) fn restraint_at(&self, peer: Peer, end: &Endpoint<Kinds>) -> Option<Restraint>
        ensures { result ≡ flow_restraint_by (upkeep_at self.now.room.served.pace self.now.room.served.upkeeps peer) (Some end.now) }
    {
        restraint_of(&self.timed.reader(peer), end.in_flight())
    }

    /// What is known of the application that reads a peer's data (RFC 4340, sections 11.6 and 11.7; own).
    pub fn reader(&self, peer: Peer) -> Reader
        ensures { result ≡ (upkeep_at self.now.room.served.pace self.now.room.served.upkeeps peer).path.reader }
    {
        self.timed.reader(peer)
    }

    /// What is known of a peer's flow besides its end; a life that has not begun if the peer has none.
    pub fn life(&self, peer: Peer) -> Life
        ensures { result ≡ life_of self.now.room.lives peer }
    {
        life_of(&self.lives, peer)
    }

    /// The rules.
    pub fn rules(&self) -> Rules
        ensures { result ≡ self.now.rules }
    {
        self.rules
    }

    /// Sets the rules.
    pub fn set_rules(&mut self, rules: Rules)
        ensures { self.new ≡ record self.old { rules = rules } }
    {
        self.rules = rules;
    }
    /// Whether the table is full.
    pub fn is_full(&self) -> bool
        ensures { result ≡ is_table_full self.now.room.served.listening }
    {
        self.timed.config().most <= self.timed.flows()
    }

    /// The Service Code of the flow that a datagram of at most 2,044 bytes would open, so that the owner can decide
    /// whether to accept it; None if it opens none, or the peer has one. Nothing changes.
    pub fn asks(&self, peer: Peer, datagram: &DecodedDatagram<'_>) -> Option<u32>
        requires { length datagram.now ≤ 2044 }
        ensures { result ≡ flow_asked self.now.room.served.listening peer datagram.now }
    {
        if self.has_flow(peer) {
            return None;
        }
        let mut out = Outbox::new();
        refuse_stranger(self.timed.config(), peer, datagram, 0, &mut out)
    }

    // Refuses a datagram of a peer that has no flow. Returns whether it would have opened one.
    fn turn_away(
        &self,
        peer: Peer,
        datagram: &DecodedDatagram<'_>,
        code: u8,
        out: &mut Outbox,
    ) -> bool
        requires { length datagram.now ≤ 2044 }
        ensures opens { result ≡ is_some (flow_asked self.now.room.served.listening peer datagram.now) }
        ensures sent { out.new ≡ (if result then reset_for code (config_for self.now.room.served.listening.config peer 0 datagram.now) (decoded datagram.now) else None) }
    {
        out.clear();
        if self.has_flow(peer) {
            return false;
        }
        refuse_stranger(self.timed.config(), peer, datagram, code, out).is_some()
    }

    /// Refuses a datagram of at most 2,044 bytes that would open a flow, by a Reset with this code (RFC 4340, section
    /// 5.6), which is one of the answers to strangers that the rules limit. False if it opens none, or the peer has
    /// one; then nothing changes and nothing goes out.
    pub fn refuse(
        &mut self,
        peer: Peer,
        datagram: &DecodedDatagram<'_>,
        code: u8,
        now: u64,
        out: &mut Outbox,
    ) -> bool
        requires { length datagram.now ≤ 2044 }
        ensures opens { result ≡ is_some (flow_asked self.old.room.served.listening peer datagram.now) }
        ensures sent { out.new ≡ refused_frame now self.old peer datagram.now code }
        ensures after { self.new ≡ refused_server now self.old peer datagram.now }
    {
        if !self.turn_away(peer, datagram, code, out) {
            return false;
        }
        let spared = answer_spared(&self.rules, &self.strangers, now);
        self.strangers = spared.strangers;
        if !spared.goes {
            out.clear();
        }
        true
    }

    /// The flow that makes room for a Request at a full table by these rules, if one may.
    pub(crate) fn leaver(&self, rules: &Rules, now: u64) -> Option<Peer>
        ensures { result ≡ who_leaves now rules.now self.now.room }
    {
        who_leaves(&self.timed, &self.lives, rules, now)
    }

    /// Sets the owner's number for a peer's flow, which is dropped with the flow. NoFlow comes exactly if the peer has
    /// none, and then nothing changes.
    pub fn set_user(&mut self, peer: Peer, user: u64) -> Result<(), NoFlow>
        ensures after { self.new ≡ record self.old { room = with_user user self.old.room peer } }
        ensures no_flow { IsErr result ↔ (end_of_peer self.old.room.served.listening.flows peer ≡ None) }
    {
        write_user(&self.timed, &mut self.lives, peer, user)
    }

    /// Cookies are used in this way from now on, once there is a key.
    pub fn set_cookies(&mut self, cookies: CookieUse)
        ensures { self.new ≡ record self.old { cookies = cookies } }
    {
        self.cookies = cookies;
    }

    /// The key of its cookies, if it has one.
    pub fn key(&self) -> Option<[u8; 32]>
        ensures { result ≡ option_map (λ keys. keys.key) self.now.keys }
    {
        match &self.keys {
            Some(keys) => Some(keys.key()),
            None => None,
        }
    }

    /// Cookies are written with this key from now on: 32 bytes that were drawn at random. Those of the key before it
    /// stay valid for their two minutes.
    pub fn rekey(&mut self, key: [u8; 32], now: u64)
        ensures { self.new ≡ record self.old { keys = Some (rekeyed key now self.old.keys) } }
    {
        self.keys = Some(rekeyed(&self.keys, key, now));
    }
}
