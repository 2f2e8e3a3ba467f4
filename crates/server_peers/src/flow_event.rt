//! The events of a flow.
ghost use Rattle.std.specs.Prelude.{◌≡◌};
ghost use Rattle.dccp_endpoint.specs.Calling.{is_closing, lacks_vectors};
ghost use Rattle.dccp_endpoint.specs.End.{is_open};
ghost use Rattle.server_peers.specs.Events.{aborted_end, answer_cause, is_closing_at, data_event, data_of, data_told, ending_by, ending_heard, ending_told, event_if, events_between, is_on, is_open_at, is_orderly, is_ended, reset_cause, silent_end, seen_flow, takes_at, takes_data, user_of};
ghost use Rattle.server_peers.specs.Strangers.{told_of_arrival};

use ccid_two::Kinds;
use dccp_endpoint::{Endpoint, Feature, NoMemory, Outcome, Phase, Place, ResetCode};
use dccp_listener::{Heard, Peer};

/// Why a connection of a server is over (own).
#[derive(Clone, Copy, PartialEq, Eq)]
pub enum EndCause {
    /// The peer has closed or aborted it.
    Peer,
    /// The owner has closed, aborted or forgotten it.
    Own,
    /// The peer was silent, or did not continue the handshake or the closing, for longer than the rules allow.
    Silent,
    /// It made room for another.
    Evicted,
    /// The end has answered a fault of the peer with a Reset.
    Fault,
    /// The peer has connected again from its port.
    Anew,
}

/// Why a connection is over, and its Reset Code (RFC 4340, section 5.6): None if no Reset was sent or received.
#[derive(Clone, Copy, PartialEq, Eq)]
pub struct EndReason {
    /// Why.
    pub cause: EndCause,
    /// The Reset Code: 1 is an orderly close.
    pub code: Option<u8>,
}

/// What has happened to a flow (own).
#[derive(Clone, Copy, PartialEq, Eq)]
pub enum EventKind {
    /// The handshake is complete: the peer has shown that it hears the answers.
    Opened,
    /// Data came: they are in the datagram from the place `first` up to the place `past`.
    Data { first: usize, past: usize },
    /// Data came, and wait in the flow's inbox (`FlowInboxes`).
    Waits,
    /// Data came that the flow's inbox dropped, for the reason of this Drop Code (RFC 4340, section 11.7): 1, the owner
    /// no longer reads; 2, the inbox is full.
    Dropped { code: u8 },
    /// Data that were refused before the call may be sent now: the window has room, the application that reads them has
    /// room, and the peer sends the Ack Vectors that CCID 2 needs.
    Room,
    /// The connection is over. Each flow has this event once, even if its handshake was never complete.
    Ended(EndReason),
}

/// An event, and the peer of its flow (own).
#[derive(Clone, Copy, PartialEq, Eq)]
pub struct FlowEvent {
    /// The peer of the flow.
    pub peer: Peer,
    /// The owner's number for the flow.
    pub user: u64,
    /// What has happened.
    pub kind: EventKind,
}

/// What an owner sees of a flow (own).
#[derive(Clone, Copy)]
pub struct FlowState {
    /// The phase of its connection.
    pub phase: Phase,
    /// Whether data may be sent.
    pub takes_data: bool,
    /// The owner's number for the flow.
    pub user: u64,
}

/// The events of a call, each at most once, in this order (own).
#[derive(Clone, Copy)]
pub struct FlowEvents {
    /// The end of a flow that made room.
    pub evicted: Option<FlowEvent>,
    /// The peer's handshake is complete.
    pub opened: Option<FlowEvent>,
    /// It brought data.
    pub delivery: Option<FlowEvent>,
    /// Data may be sent to it.
    pub room: Option<FlowEvent>,
    /// Its connection is over.
    pub ended: Option<FlowEvent>,
}

impl FlowEvents {
    ghost use Rattle.std.specs.Prelude.{◌≡◌};
    ghost use Rattle.server_peers.specs.Events.{events_left, first_event, no_events};

    /// No events.
    pub fn none() -> FlowEvents
        ensures { result ≡ no_events }
    {
        FlowEvents {
            evicted: None,
            opened: None,
            delivery: None,
            room: None,
            ended: None,
        }
    }

    /// The first, if there is one.
    pub fn first(&self) -> Option<FlowEvent>
        ensures { result ≡ first_event self.now }
    {
        let opening = self.evicted.or(self.opened);
        opening.or(self.delivery).or(self.room).or(self.ended)
    }

    /// Drops the first.
    pub fn drop_first(&mut self)
        ensures { self.new ≡ events_left self.old }
    {
        if self.evicted.is_some() {
            self.evicted = None;
        } else if self.opened.is_some() {
            self.opened = None;
        } else if self.delivery.is_some() {
            self.delivery = None;
        } else if self.room.is_some() {
            self.room = None;
        } else {
            self.ended = None;
        }
    }
}

/// Whether a connection in this phase is over, or has not begun.
pub fn is_ended(phase: Phase) -> bool
    ensures { result ≡ is_ended phase }
{
    match phase {
        Phase::Closed | Phase::Listen | Phase::TimeWait => true,
        Phase::Request
        | Phase::Respond
        | Phase::PartOpen
        | Phase::Open
        | Phase::CloseReq
        | Phase::Closing => false,
    }
}

fn is_open(phase: Phase) -> bool
    ensures { result ≡ is_open phase }
{
    matches!(phase, Phase::Open)
}

fn is_closing(phase: Phase) -> bool
    ensures { result ≡ is_closing phase }
{
    matches!(phase, Phase::CloseReq | Phase::Closing)
}

// Whether CCID 2 gets no Ack Vectors from the peer.
fn lacks_vectors(end: &Endpoint<Kinds>) -> bool
    ensures { result ≡ lacks_vectors end.now.state.rows }
{
    end.held(Feature::Ccid, Place::Here).value == 2
        && end.held(Feature::SendAckVector, Place::There).value != 1
}

// Whether data may be sent: `Endpoint::send` would refuse them at most for their length.
fn takes_data(end: &Endpoint<Kinds>) -> bool
    ensures { result ≡ takes_data end.now }
{
    is_open(end.phase()) && !lacks_vectors(end) && end.in_flight() < end.window()
}

/// What an owner sees of a flow with this end and this number of the owner. `waits` says whether its data have to wait
/// for the application that reads them.
pub fn seen_flow(end: &Endpoint<Kinds>, user: u64, waits: bool) -> FlowState
    ensures { result ≡ seen_flow user waits end.now }
{
    FlowState {
        phase: end.phase(),
        takes_data: takes_data(end) && !waits,
        user,
    }
}

// Whether there is a connection, and it is not over.
fn is_on(flow: Option<FlowState>) -> bool
    ensures { result ≡ is_on flow }
{
    match flow {
        Some(flow) => !is_ended(flow.phase),
        None => false,
    }
}

fn is_open_at(flow: Option<FlowState>) -> bool
    ensures { result ≡ is_open_at flow }
{
    match flow {
        Some(flow) => is_open(flow.phase),
        None => false,
    }
}

fn takes_at(flow: Option<FlowState>) -> bool
    ensures { result ≡ takes_at flow }
{
    match flow {
        Some(flow) => flow.takes_data,
        None => false,
    }
}

fn is_closing_at(flow: Option<FlowState>) -> bool
    ensures { result ≡ is_closing_at flow }
{
    match flow {
        Some(flow) => is_closing(flow.phase),
        None => false,
    }
}

fn user_of(was: Option<FlowState>, is: Option<FlowState>) -> u64
    ensures { result ≡ user_of was is }
{
    match is.or(was) {
        Some(flow) => flow.user,
        None => 0,
    }
}

// Code 1 is an orderly close (RFC 4340, section 5.6).
fn is_orderly(code: u8) -> bool
    ensures { result ≡ is_orderly code }
{
    code == ResetCode::Closed.number()
}

// Who has ended a connection by the peer's Reset, which may answer this end's Close.
fn reset_cause(was: Option<FlowState>, code: u8) -> EndCause
    ensures { result ≡ reset_cause was code }
{
    if is_orderly(code) && is_closing_at(was) {
        EndCause::Own
    } else {
        EndCause::Peer
    }
}

// Who has ended it by a packet that the end has answered with a Reset.
fn answer_cause(was: Option<FlowState>, code: u8) -> EndCause
    ensures { result ≡ answer_cause was code }
{
    if is_orderly(code) {
        return reset_cause(was, code);
    }
    EndCause::Fault
}

fn ending_told(was: Option<FlowState>, outcome: &Outcome) -> EndReason
    ensures { result ≡ ending_told was outcome.now }
{
    match *outcome {
        Outcome::WasReset(code) => EndReason {
            cause: reset_cause(was, code),
            code: Some(code),
        },
        Outcome::SentReset { code, detail: _ } => EndReason {
            cause: answer_cause(was, code),
            code: Some(code),
        },
        Outcome::Took { delivered: _ } | Outcome::Dropped(_) | Outcome::Synced(_) => EndReason {
            cause: EndCause::Peer,
            code: None,
        },
    }
}

// How the result of a datagram has ended a connection.
fn ending_by(was: Option<FlowState>, heard: &Result<Option<Heard>, NoMemory>) -> EndReason
    ensures { result ≡ ending_by was (told_of_arrival heard.now) }
{
    match heard {
        Ok(Some(Heard::Flow(outcome))) => ending_told(was, outcome),
        Ok(Some(Heard::Busy) | None) | Err(NoMemory) => silent_end(EndCause::Peer),
    }
}

/// An end that no Reset announces.
pub fn silent_end(cause: EndCause) -> EndReason
    ensures { result ≡ silent_end cause }
{
    EndReason { cause, code: None }
}

/// An end by this end's Reset, with the code Aborted.
pub fn aborted_end(cause: EndCause) -> EndReason
    ensures { result ≡ aborted_end cause }
{
    EndReason {
        cause,
        code: Some(ResetCode::Aborted.number()),
    }
}

/// How a datagram ends a connection, if it does.
pub fn ending_heard(
    was: Option<FlowState>,
    heard: &Result<Option<Heard>, NoMemory>,
    anew: bool,
) -> EndReason
    ensures { result ≡ ending_heard was (told_of_arrival heard.now) anew }
{
    if anew {
        return silent_end(EndCause::Anew);
    }
    ending_by(was, heard)
}

fn data_of(outcome: &Outcome) -> Option<(usize, usize)>
    ensures { result ≡ data_of outcome.now }
{
    match *outcome {
        Outcome::Took { delivered } => delivered,
        Outcome::Dropped(_)
        | Outcome::Synced(_)
        | Outcome::WasReset(_)
        | Outcome::SentReset { .. } => None,
    }
}

/// The place of the data that a datagram has brought.
pub fn data_told(heard: &Result<Option<Heard>, NoMemory>) -> Option<(usize, usize)>
    ensures { result ≡ data_told (told_of_arrival heard.now) }
{
    match heard {
        Ok(Some(Heard::Flow(outcome))) => data_of(outcome),
        Ok(Some(Heard::Busy) | None) | Err(NoMemory) => None,
    }
}

/// The event, if this holds.
pub fn event_if(holds: bool, peer: Peer, user: u64, kind: EventKind) -> Option<FlowEvent>
    ensures { result ≡ event_if holds peer user kind }
{
    if holds {
        Some(FlowEvent { peer, user, kind })
    } else {
        None
    }
}

fn data_event(place: Option<(usize, usize)>, peer: Peer, user: u64) -> Option<FlowEvent>
    ensures { result ≡ data_event place peer user }
{
    match place {
        Some((first, past)) => event_if(true, peer, user, EventKind::Data { first, past }),
        None => None,
    }
}

/// The events of a peer's flow, by what its owner saw of it before a call and sees after it. The call may have brought
/// data, at this place, and ends the connection in this way, if it ends it.
pub fn events_between(
    peer: Peer,
    was: Option<FlowState>,
    is: Option<FlowState>,
    place: Option<(usize, usize)>,
    ending: EndReason,
    evicted: Option<FlowEvent>,
) -> FlowEvents
    ensures { result ≡ events_between peer was is place ending evicted }
{
    let user = user_of(was, is);
    let opened = is_open_at(is) && !is_open_at(was);
    let room = takes_at(is) && !takes_at(was);
    let ended = is_on(was) && !is_on(is);
    FlowEvents {
        evicted,
        opened: event_if(opened, peer, user, EventKind::Opened),
        delivery: data_event(place, peer, user),
        room: event_if(room, peer, user, EventKind::Room),
        ended: event_if(ended, peer, user, EventKind::Ended(ending)),
    }
}
