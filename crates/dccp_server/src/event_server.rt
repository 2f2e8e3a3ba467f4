//! A server that lists the events of its flows.
ghost use Rattle.std.specs.Prelude.{◌≡◌, ◌≤◌, length};
ghost use Rattle.dccp_server.specs.Events.{ends_old, flow_state, has_place, leaver_life, leaver_life_by, room_maker, rules_of_opening, time_of_opening};
ghost use Rattle.server_peers.specs.Events.{evicted_event};

use crate::duty::Duty;
use crate::meeting::{Meeting, Way};
use crate::server::Server;
use dccp_endpoint::{DecodedDatagram, Outbox, ResetCode, Seen, Seq48, UserCall};
use dccp_listener::{ListenConfig, NoFlow, Peer};
use dccp_uses::{Pace, Restraint};
use init_cookies::FirstRequest;
use server_peers::{
    CookieUse, EndCause, EndReason, EventKind, FlowEvent, FlowEvents, FlowState, Life, Rules,
    aborted_end, data_told, ending_heard, event_if, events_between, hurried, is_ended, seen_flow,
    silent_end,
};
use std::alloc::Global;
use std::marker::Model;

// What the owner sees of a peer's flow, if it has one.
fn flow_state(server: &Server, peer: Peer) -> Option<FlowState>
    ensures { result ≡ flow_state server.now.room peer }
{
    match server.flow(peer) {
        Some(end) => {
            let waits = server.restraint_at(peer, end).is_some();
            Some(seen_flow(end, server.life(peer).user, waits))
        }
        None => None,
    }
}

// The time as of which a datagram opens a flow, if it opens one.
fn time_of_opening(now: u64, opening: &Option<FirstRequest>) -> u64
    ensures { result ≡ time_of_opening now opening.now }
{
    match opening {
        Some(opening) => opening.time(),
        None => now,
    }
}

// The rules by which room is made for it.
fn rules_of_opening(rules: Rules, opening: &Option<FirstRequest>) -> Rules
    ensures { result ≡ rules_of_opening rules opening.now }
{
    match opening {
        Some(_) => hurried(&rules),
        None => rules,
    }
}

// Whether a peer has a flow, or there is a place for one more.
fn has_place(server: &Server, peer: Peer) -> bool
    ensures { result ≡ has_place server.now peer }
{
    server.has_flow(peer) || !server.is_full()
}

// The life of the flow that would make room for one more of this peer, if all places are taken, for a datagram that
// brings this opening back, if it brings one.
fn leaver_life_by(
    server: &Server,
    peer: Peer,
    opening: &Option<FirstRequest>,
    now: u64,
) -> Option<Life>
    ensures { result ≡ leaver_life_by now server.now peer opening.now }
{
    if has_place(server, peer) {
        return None;
    }
    let rules = rules_of_opening(server.rules(), opening);
    match server.leaver(&rules, time_of_opening(now, opening)) {
        Some(leaver) => Some(server.life(leaver)),
        None => None,
    }
}

// The same, for a datagram of which no more is wanted: its cookie is read only if somebody has to leave.
fn leaver_life(
    server: &Server,
    peer: Peer,
    datagram: &DecodedDatagram<'_>,
    now: u64,
) -> Option<Life>
    requires { length datagram.now ≤ 2044 }
    ensures { result ≡ leaver_life now server.now peer datagram.now }
{
    if has_place(server, peer) {
        return None;
    }
    leaver_life_by(server, peer, &server.returned(peer, datagram, now), now)
}

/// The peer whose flow has made room, for the flow that a cookie opened or for the datagram.
pub fn room_maker(made_room: Option<Peer>, evicted: Option<Peer>) -> Option<Peer>
    ensures { result ≡ room_maker made_room evicted }
{
    match made_room {
        Some(peer) => Some(peer),
        None => evicted,
    }
}

// Whether the flow that the peer had was ended, since the peer has connected again.
fn ends_old(anew: bool, way: Way) -> bool
    ensures { result ≡ ends_old anew way }
{
    match way {
        Way::Unopened => true,
        Way::Plain | Way::Greeted | Way::Unanswered | Way::Reopened => anew,
    }
}

// The event of a flow that has made room, by its life before.
fn evicted_event(life: Option<Life>, evicted: Option<Peer>) -> Option<FlowEvent>
    ensures { result ≡ evicted_event life evicted }
{
    match (life, evicted) {
        (Some(life), Some(peer)) => {
            let kind = EventKind::Ended(silent_end(EndCause::Evicted));
            event_if(!is_ended(life.phase), peer, life.user, kind)
        }
        (None, _) | (_, None) => None,
    }
}

/// The server takes no new flows, and the datagram would have opened one (own).
#[derive(Clone, Copy, Debug)]
pub struct NoNewFlows;

/// A [`Server`] that lists what its calls have done to its flows (own). The calls are those of the server. After each,
/// call `next_event` until it returns None: events that are not taken before the next call are lost.
#[derive(Drop)]
pub struct EventServer {
    server: Server,
    events: FlowEvents,
    is_shut: bool,
}

impl Model for EventServer {
    ghost use Rattle.dccp_server.specs.Events.{WatchedServer};

    ghost Value = { WatchedServer };

    ghost view = { λ s. record { server = s.server; events = s.events; is_shut = s.is_shut } };
}

impl EventServer {
    ghost use Rattle.std.specs.Prelude.{◌≡◌, ◌≤◌, ◌↔◌, IfErr, IfOk, IsErr, None, Some, OnErr, OnOk, false, is_some, length, true};
    ghost use Rattle.dccp_listener.specs.Calls.{seen_if};
    ghost use Rattle.dccp_listener.specs.Chain.{Calls, Sends, asked};
    ghost use Rattle.dccp_listener.specs.Listens.{listens};
    ghost use Rattle.dccp_listener.specs.Peers.{end_of_peer};
    ghost use Rattle.dccp_listener.specs.Runs.{Stepped};
    ghost use Rattle.dccp_listener.specs.Standing.{IsListening};
    ghost use Rattle.dccp_server.specs.Events.{called_on, ends_old, entry_at, flow_state, heard_on, is_shut_out, leaver_life, room_maker, shut_out, ticked_on};
    ghost use Rattle.server_peers.specs.Events.{aborted_end, events_between, events_left, first_event, no_events, silent_end};
    ghost use Rattle.dccp_server.specs.Meeting.{IsMet, may_meet};
    ghost use Rattle.server_peers.specs.CookieUses.{rekeyed};
    ghost use Rattle.dccp_packets.specs.ResetCodes.{number_of_code};
    ghost use Rattle.dccp_packets.specs.declared.reset_code.ResetCode.TheVariants as codes;
    ghost use Rattle.dccp_server.specs.Refusals.{refused_frame};
    ghost use Rattle.server_peers.specs.Refusals.{flow_asked};
    ghost use Rattle.dccp_server.specs.Rooms.{duty_done, duty_frame, duty_in, forgets, room_does, ruled_begins, with_user};
    ghost use Rattle.server_peers.specs.Strangers.{told_of_arrival};
    ghost use Rattle.dccp_server.specs.Serving.{Does, flow_restraint};
    ghost use Rattle.server_peers.specs.declared.flow_event.EndCause.TheVariants as causes;

    /// A server without flows, as `Server::new` makes it. It takes no memory.
    pub fn new(alloc: Global, config: ListenConfig, pace: Pace, rules: Rules) -> EventServer
        requires { IsListening config }
        ensures { result ≡ record { server = ruled_begins config pace rules; events = no_events; is_shut = false } }
    {
        EventServer {
            server: Server::new(alloc, config, pace, rules),
            events: FlowEvents::none(),
            is_shut: false,
        }
    }

    /// The server, to be read.
    pub fn server(&self) -> &Server
        ensures { result.now ≡ self.now.server }
    {
        &self.server
    }

    /// Keeps what is known of a peer's flow at hand from now on: calls about the same peer are faster, and have the
    /// same results.
    pub fn seek(&mut self, peer: Peer)
        ensures { self.new ≡ self.old }
    {
        self.server.seek(peer);
    }

    /// The next event of the last call, or None if there are no more.
    pub fn next_event(&mut self) -> Option<FlowEvent>
        ensures next { result ≡ first_event self.old.events }
        ensures after { self.new ≡ record self.old { events = events_left self.old.events } }
    {
        let next = self.events.first();
        self.events.drop_first();
        next
    }

    /// `Server::meet`, with its events. NoNewFlows comes exactly if no new flow is taken and the datagram would open
    /// one: it is refused by a Reset with the code Connection Refused (RFC 4340, section 5.6). While no new flow is
    /// taken, no cookie is given, and none opens a flow.
    pub fn arrive(
        &mut self,
        peer: Peer,
        iss: Seq48,
        datagram: &DecodedDatagram<'_>,
        now: u64,
        out: &mut Outbox,
    ) -> Result<Meeting, NoNewFlows>
        requires { length datagram.now ≤ 2044 }
        ensures open { OnOk result (is_shut_out self.old peer datagram.now ≡ false) }
        ensures shut { OnErr result ((is_shut_out self.old peer datagram.now ≡ true) × (self.new ≡ shut_out now self.old peer datagram.now)
            × (out.new ≡ refused_frame now self.old.server peer datagram.now (number_of_code codes.ConnectionRefused))) }
        ensures met { IfOk result (λ it. IsMet now self.old.server self.new.server peer iss datagram.now out.new it.arrival.heard it.arrival.evicted it.arrival.anew it.made_room it.way) }
        ensures way { IfOk result (λ it. may_meet (entry_at now self.old peer iss datagram.now) it.way ≡ true) }
        ensures told { IfOk result (λ it. self.new ≡ heard_on now self.old self.new.server peer datagram.now (told_of_arrival it.arrival.heard) (room_maker it.made_room it.arrival.evicted) (ends_old it.arrival.anew it.way)) }
    {
        let code = ResetCode::ConnectionRefused.number();
        if self.is_shut && self.server.refuse(peer, datagram, code, now, out) {
            self.events = FlowEvents::none();
            return Err(NoNewFlows);
        }
        Ok(self.hear(peer, iss, datagram, now, out))
    }

    // The same if it is not refused.
    fn hear(
        &mut self,
        peer: Peer,
        iss: Seq48,
        datagram: &DecodedDatagram<'_>,
        now: u64,
        out: &mut Outbox,
    ) -> Meeting
        requires { length datagram.now ≤ 2044 }
        ensures met { IsMet now self.old.server self.new.server peer iss datagram.now out.new result.arrival.heard result.arrival.evicted result.arrival.anew result.made_room result.way }
        ensures way { may_meet (entry_at now self.old peer iss datagram.now) result.way ≡ true }
        ensures told { self.new ≡ heard_on now self.old self.new.server peer datagram.now (told_of_arrival result.arrival.heard) (room_maker result.made_room result.arrival.evicted) (ends_old result.arrival.anew result.way) }
    {
        let was = flow_state(&self.server, peer);
        let (life, meeting) = self.meet(peer, iss, datagram, now, out);
        let maker = room_maker(meeting.made_room, meeting.arrival.evicted);
        let anew = ends_old(meeting.arrival.anew, meeting.way);
        self.events = events_between(
            peer,
            was,
            flow_state(&self.server, peer),
            data_told(&meeting.arrival.heard),
            ending_heard(was, &meeting.arrival.heard, anew),
            evicted_event(life, maker),
        );
        meeting
    }

    // The datagram is met, or served without cookies if no new flow is taken. Returns also the life of the flow that
    // would have made room.
    fn meet(
        &mut self,
        peer: Peer,
        iss: Seq48,
        datagram: &DecodedDatagram<'_>,
        now: u64,
        out: &mut Outbox,
    ) -> (Option<Life>, Meeting)
        requires { length datagram.now ≤ 2044 }
        ensures life { result.0 ≡ leaver_life now self.old.server peer datagram.now }
        ensures met { IsMet now self.old.server self.new.server peer iss datagram.now out.new result.1.arrival.heard result.1.arrival.evicted result.1.arrival.anew result.1.made_room result.1.way }
        ensures way { may_meet (entry_at now self.old peer iss datagram.now) result.1.way ≡ true }
        ensures rest { self.new ≡ record self.old { server = self.new.server } }
    {
        if self.is_shut {
            let life = leaver_life(&self.server, peer, datagram, now);
            return (life, self.server.serve(peer, iss, datagram, now, out));
        }
        let opening = self.server.returned(peer, datagram, now);
        let life = leaver_life_by(&self.server, peer, &opening, now);
        let meeting = self.server.meet_by(opening, peer, iss, datagram, now, out);
        (life, meeting)
    }

    /// Refuses a datagram that would open a flow, in place of `arrive`: `Server::refuse`.
    pub fn refuse(
        &mut self,
        peer: Peer,
        datagram: &DecodedDatagram<'_>,
        code: u8,
        now: u64,
        out: &mut Outbox,
    ) -> bool
        requires { length datagram.now ≤ 2044 }
        ensures opens { result ≡ is_some (flow_asked self.old.server.room.served.listening peer datagram.now) }
        ensures sent { out.new ≡ refused_frame now self.old.server peer datagram.now code }
        ensures after { self.new ≡ shut_out now self.old peer datagram.now }
    {
        self.events = FlowEvents::none();
        self.server.refuse(peer, datagram, code, now, out)
    }

    /// Takes no new flows from now on, or takes them again. Present flows go on.
    pub fn set_shut(&mut self, is_shut: bool)
        ensures { self.new ≡ record self.old { is_shut = is_shut } }
    {
        self.is_shut = is_shut;
    }

    /// `Server::ask`, with its events: a call that ends a connection counts as the owner's abort.
    pub fn ask(
        &mut self,
        peer: Peer,
        call: UserCall<'_>,
        now: u64,
        out: &mut Outbox,
    ) -> Result<Seen, NoFlow>
        ensures after { self.new ≡ called_on self.old (record self.old.server { room = room_does now self.old.server.room peer (Does (Calls (asked call.entry))) }) peer (aborted_end causes.Own) }
        ensures sent { out.new ≡ (listens self.old.server.room.served.listening peer (Calls (asked call.entry))).frame }
        ensures told { Stepped (seen_if result) ≡ (listens self.old.server.room.served.listening peer (Calls (asked call.entry))).told }
    {
        let was = flow_state(&self.server, peer);
        let answer = self.server.ask(peer, call, now, out);
        self.tell(peer, was, aborted_end(EndCause::Own));
        answer
    }

    /// `Server::send`, with its events. If the data have to wait, the events of the call before it stay.
    pub fn send(
        &mut self,
        peer: Peer,
        payload: &[u8],
        now: u64,
        out: &mut Outbox,
    ) -> Result<Result<Seen, NoFlow>, Restraint>
        ensures held { IfErr result (λ why. flow_restraint self.old.server.room.served peer ≡ Some why) }
        ensures unchanged { OnErr result ((self.new ≡ self.old) × (out.new ≡ None)) }
        ensures free { OnOk result (flow_restraint self.old.server.room.served peer ≡ None) }
        ensures after { OnOk result (self.new ≡ called_on self.old (record self.old.server { room = room_does now self.old.server.room peer (Does (Calls (Sends payload.now))) }) peer (aborted_end causes.Own)) }
        ensures sent { OnOk result (out.new ≡ (listens self.old.server.room.served.listening peer (Calls (Sends payload.now))).frame) }
        ensures told { IfOk result (λ answer. Stepped (seen_if answer) ≡ (listens self.old.server.room.served.listening peer (Calls (Sends payload.now))).told) }
    {
        if let Some(why) = self.server.restraint(peer) {
            out.clear();
            return Err(why);
        }
        Ok(self.ask(peer, UserCall::Send(payload), now, out))
    }

    // Lists the events of a peer's flow, of which the owner saw `was` before.
    fn tell(&mut self, peer: Peer, was: Option<FlowState>, ending: EndReason)
        ensures { self.new ≡ record self.old { events = events_between peer was (flow_state self.old.server.room peer) None ending None } }
    {
        let is = flow_state(&self.server, peer);
        self.events = events_between(peer, was, is, None, ending, None);
    }

    /// `Server::forget`, with its events.
    pub fn forget(&mut self, peer: Peer, now: u64, out: &mut Outbox)
        ensures after { self.new ≡ called_on self.old (record self.old.server { room = forgets now self.old.server.room peer }) peer (silent_end causes.Own) }
        ensures sent { out.new ≡ None }
    {
        let was = flow_state(&self.server, peer);
        self.server.forget(peer, now, out);
        self.tell(peer, was, silent_end(EndCause::Own));
    }

    /// `Server::tick`, with its events: a connection that it ends was given up.
    pub fn tick(&mut self, now: u64, out: &mut Outbox) -> Option<Duty>
        ensures duty { result ≡ duty_in now self.old.server.rules self.old.server.room }
        ensures after { self.new ≡ ticked_on self.old (record self.old.server { room = duty_done now self.old.server.room result }) result }
        ensures sent { out.new ≡ duty_frame now self.old.server.room result }
    {
        let Some(duty) = self.server.duty(now) else {
            out.clear();
            self.events = FlowEvents::none();
            return None;
        };
        let peer = duty.peer();
        self.server.seek(peer);
        let was = flow_state(&self.server, peer);
        self.server.perform(duty, now, out);
        self.tell(peer, was, aborted_end(EndCause::Silent));
        Some(duty)
    }

    /// `Server::set_rules`.
    pub fn set_rules(&mut self, rules: Rules)
        ensures { self.new ≡ record self.old { server = record self.old.server { rules = rules } } }
    {
        self.server.set_rules(rules);
    }

    /// `Server::set_user`.
    pub fn set_user(&mut self, peer: Peer, user: u64) -> Result<(), NoFlow>
        ensures after { self.new ≡ record self.old { server = record self.old.server { room = with_user user self.old.server.room peer } } }
        ensures no_flow { IsErr result ↔ (end_of_peer self.old.server.room.served.listening.flows peer ≡ None) }
    {
        self.server.set_user(peer, user)
    }

    /// `Server::set_cookies`.
    pub fn set_cookies(&mut self, cookies: CookieUse)
        ensures { self.new ≡ record self.old { server = record self.old.server { cookies = cookies } } }
    {
        self.server.set_cookies(cookies);
    }

    /// `Server::rekey`.
    pub fn rekey(&mut self, key: [u8; 32], now: u64)
        ensures { self.new ≡ record self.old { server = record self.old.server { keys = Some (rekeyed key now self.old.server.keys) } } }
    {
        self.server.rekey(key, now);
    }
}
