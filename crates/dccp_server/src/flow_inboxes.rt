//! The data of a listener's flows that wait until their owner reads them.
ghost use Rattle.std.specs.Prelude.{◌≡◌, None, Some, true};
ghost use Rattle.data_dropped.specs.Buffering.{HasDataWithin};
ghost use Rattle.dccp_listener.specs.Peers.{end_of_peer};
ghost use Rattle.dccp_server.specs.FlowInboxes.{event_kept, flow_speaks_by, kind_kept, lies_within};
ghost use Rattle.dccp_states.specs.declared.outcome.Outcome.TheVariants.{Took};

use crate::server::Server;
use data_dropped::{Arrival, Intake};
use dccp_endpoint::{NoMemory, Outbox, Outcome, Seq48};
use dccp_listener::{Heard, Peer};
use server_peers::{EventKind, FlowEvent, data_told};
use std::alloc::Global;
use std::collections::BTreeMap;
use std::marker::Model;

/// The data of a listener's flows that wait until their owner reads them: an inbox for each flow with data, to be kept
/// with the listener's server (own). Contracts see the inboxes in the order of peers.
///
/// After each datagram, `settle` takes its data. `speak` adds to each frame of a flow the report of what was dropped
/// (RFC 4340, sections 11.6 and 11.7). After each call that may end a flow, `tidy` drops its inbox, unless data wait
/// there, which can still be read. The next flow of the same peer has a new inbox, and data that waited are lost.
///
/// No call takes memory, except those of `settle` and `stop` that make an inbox: 2,048 bytes for each packet that it may
/// hold, and 32 KB. So a flow whose handshake is not complete takes none.
#[derive(Drop)]
pub struct FlowInboxes {
    alloc: Global,
    capacity: u16,
    most: u16,
    intakes: BTreeMap<Peer, Intake>,
}

impl Model for FlowInboxes {
    ghost use Rattle.std.specs.Prelude.{◌≤◌};
    ghost use Rattle.dccp_server.specs.FlowInboxes.{Inboxes};

    ghost Value = { Inboxes };

    ghost view = { λ it. record { capacity = it.capacity; most = it.most; entries = it.intakes.entries } };

    ghost invariant = { λ it. it.capacity ≤ 1024 };
}

// Whether the place lies within the datagram.
fn lies_within(bytes: &[u8], place: (usize, usize)) -> bool
    ensures value { result ≡ lies_within bytes.now place }
    ensures within { result ≡ true → HasDataWithin bytes.now (Took (Some place)) }
{
    place.0 <= place.1 && place.1 <= bytes.len()
}

// Adds what this inbox has to say to the frame in the box, if the peer to which it goes has a flow.
fn speak_at(intake: &Intake, server: &Server, peer: Peer, out: &mut Outbox)
    ensures says { out.new ≡ flow_speaks_by intake.now (end_of_peer server.now.room.served.listening.flows peer) out.old }
    ensures silent { out.old ≡ None → out.new ≡ None }
{
    if let Some(end) = server.flow(peer) {
        intake.speak(&end.pseudo_out(), out);
    }
}

impl FlowInboxes {
    ghost use Rattle.std.specs.Prelude.{◌≡◌, ◌≤◌, ◌==◌, None, OnErr, OnOk, IfOk, false, not, if◌then◌else◌};
    ghost use Rattle.data_dropped.specs.Buffering.{HasDataWithin};
    ghost use Rattle.dccp_listener.specs.Peers.{end_of_peer};
    ghost use Rattle.dccp_server.specs.FlowInboxes.{begun_fresh, flow_delivers, flow_delivers_by, flow_first_read, flow_held, flow_most_said, flow_read_over, flow_speaks, flow_stopped, flow_takes_in, flow_without_first, finds_no_place, finds_no_place_by, lacks_place, needs_no_inbox, no_inboxes, tidied, tidied_if, with_place, without_inbox_of};
    ghost use Rattle.server_peers.specs.Strangers.{told_of_arrival};
    ghost use Rattle.dccp_states.specs.declared.outcome.Outcome.TheVariants.{Took};

    /// No flow has an inbox yet. Each inbox has room for this many packets, at most 1,024; with 0, no flow gets an
    /// inbox. There are at most `most` of them, those of flows that are over included. It takes no memory.
    pub fn new(alloc: Global, capacity: u16, most: u16) -> FlowInboxes
        requires { capacity ≤ 1024 }
        ensures { result ≡ no_inboxes capacity most }
    {
        FlowInboxes {
            alloc,
            capacity,
            most,
            intakes: BTreeMap::new(alloc),
        }
    }

    fn needs_no_inbox(&self, peer: Peer) -> bool
        ensures { result ≡ needs_no_inbox self.now peer }
    {
        self.capacity == 0 || self.intakes.contains_key(&peer)
    }

    // Whether there are as many inboxes as the limit allows, and the peer's would be a further one.
    fn lacks_place(&self, peer: Peer) -> bool
        ensures { result ≡ lacks_place self.now peer }
    {
        !self.needs_no_inbox(peer) && usize::from(self.most) <= self.intakes.len()
    }

    // The peer has an inbox from now on, if flows have any. NoMemory if there is no place for it, or no memory.
    fn place(&mut self, peer: Peer) -> Result<(), NoMemory>
        ensures placed { OnOk result (self.new ≡ with_place self.old peer) }
        ensures room { OnOk result (lacks_place self.old peer ≡ false) }
        ensures unchanged { OnErr result (self.new ≡ self.old) }
    {
        if self.needs_no_inbox(peer) {
            return Ok(());
        }
        if self.lacks_place(peer) {
            return Err(NoMemory);
        }
        let intake = Intake::new(self.alloc, self.capacity)?;
        match self.intakes.insert(peer, intake) {
            Ok(_) => Ok(()),
            Err(_) => Err(NoMemory),
        }
    }

    // Data of the peer came under this number, at this place in the datagram.
    fn take_in(
        &mut self,
        peer: Peer,
        number: Seq48,
        bytes: &[u8],
        place: (usize, usize),
    ) -> Option<Arrival>
        requires { HasDataWithin bytes.now (Took (Some place)) }
        ensures inboxes { self.new ≡ (flow_takes_in self.old peer number bytes.now place).inboxes }
        ensures arrival { result ≡ (flow_takes_in self.old peer number bytes.now place).arrival }
    {
        match self.intakes.get_mut(&peer) {
            Some(intake) => {
                let outcome = Outcome::Took {
                    delivered: Some(place),
                };
                intake.settle(number, bytes, &Some(outcome))
            }
            None => None,
        }
    }

    // The same for data within the datagram, once the peer has an inbox.
    fn keep(
        &mut self,
        server: &Server,
        peer: Peer,
        bytes: &[u8],
        place: (usize, usize),
    ) -> Result<Option<Arrival>, NoMemory>
        ensures kept { IfOk result (λ arrival. record { inboxes = self.new; arrival = arrival } ≡ flow_delivers_by self.old peer bytes.now (Some place) (end_of_peer server.now.room.served.listening.flows peer)) }
        ensures room { OnOk result (finds_no_place_by self.old peer bytes.now (Some place) (end_of_peer server.now.room.served.listening.flows peer) ≡ false) }
        ensures unchanged { OnErr result (self.new ≡ self.old) }
    {
        // Without inboxes the flow need not be looked up.
        if self.capacity == 0 && self.intakes.is_empty() {
            return Ok(None);
        }
        let Some(end) = server.flow(peer) else {
            return Ok(None);
        };
        if !lies_within(bytes, place) {
            return Ok(None);
        }
        self.place(peer)?;
        Ok(self.take_in(peer, end.last_taken(), bytes, place))
    }

    /// The server has heard a datagram of a peer, or left it out. Data that it brought come into the peer's inbox,
    /// which is made for the first that come. Returns what became of them, or None if none came into an inbox. NoMemory
    /// if there is none for the inbox, and always if there are `most` inboxes and it would be a further one; then
    /// nothing changes, and the data are only in the datagram.
    pub fn settle(
        &mut self,
        server: &Server,
        peer: Peer,
        bytes: &[u8],
        heard: &Result<Option<Heard>, NoMemory>,
    ) -> Result<Option<Arrival>, NoMemory>
        ensures settled { IfOk result (λ arrival. record { inboxes = self.new; arrival = arrival } ≡ flow_delivers self.old server.now peer bytes.now (told_of_arrival heard.now)) }
        ensures room { OnOk result (finds_no_place self.old server.now peer bytes.now (told_of_arrival heard.now) ≡ false) }
        ensures unchanged { OnErr result (self.new ≡ self.old) }
    {
        match data_told(heard) {
            Some(place) => self.keep(server, peer, bytes, place),
            None => Ok(None),
        }
    }

    /// `had` says whether the peer had a flow before a datagram. With a new flow, the data that waited from the one
    /// before are lost.
    pub fn begin(&mut self, server: &Server, peer: Peer, had: bool)
        ensures { self.new ≡ begun_fresh self.old peer had (end_of_peer server.now.room.served.listening.flows peer) }
    {
        if !had && server.flow(peer).is_some() {
            self.forget(peer);
        }
    }

    #[tactic(auto, using(crate::proofs::FlowInboxing::nothing_said))]
    /// Adds what the peer's inbox has to say to the frame in the box, which goes to the peer.
    pub fn speak(&self, server: &Server, peer: Peer, out: &mut Outbox)
        ensures says { out.new ≡ flow_speaks self.now server.now peer out.old }
        ensures silent { out.old ≡ None → out.new ≡ None }
    {
        if let Some(intake) = self.intakes.get(&peer) {
            speak_at(intake, server, peer, out);
        }
    }

    /// Drops the peer's inbox, if its flow is over and no data wait.
    pub fn tidy(&mut self, server: &Server, peer: Peer)
        ensures { self.new ≡ tidied self.old server.now peer }
    {
        if self.intakes.is_empty() {
            return;
        }
        if server.flow(peer).is_none() && self.held(peer) == 0 {
            self.forget(peer);
        }
    }

    /// The same for a peer whose flow may have made room.
    pub fn tidy_if(&mut self, server: &Server, peer: Option<Peer>)
        ensures { self.new ≡ tidied_if self.old server.now peer }
    {
        if let Some(peer) = peer {
            self.tidy(server, peer);
        }
    }

    /// Drops a peer's inbox with the data that wait there.
    pub fn forget(&mut self, peer: Peer)
        ensures { self.new ≡ without_inbox_of self.old peer }
    {
        let _ = self.intakes.remove(&peer);
    }

    /// Takes the data of a peer that have waited longest: writes them over the front of `into`, and returns their
    /// packet's number and their length. None if none wait; then nothing changes.
    pub fn read(&mut self, peer: Peer, into: &mut [u8; 2032]) -> Option<(Seq48, usize)>
        ensures rest { self.new ≡ flow_without_first self.old peer }
        ensures answer { result ≡ flow_first_read self.old peer }
        ensures data { into.new ≡ flow_read_over self.old peer into.old }
    {
        match self.intakes.get_mut(&peer) {
            Some(intake) => intake.read(into),
            None => None,
        }
    }

    /// The owner stops reading a peer's data: those that arrive from now on are dropped, and this is reported to the
    /// peer (RFC 4340, section 11.7). False if flows have no inbox. NoMemory comes as in `settle`. In both cases
    /// nothing changes.
    pub fn stop(&mut self, peer: Peer) -> Result<bool, NoMemory>
        ensures stopped { OnOk result (self.new ≡ flow_stopped (with_place self.old peer) peer) }
        ensures room { OnOk result (lacks_place self.old peer ≡ false) }
        ensures has_any { IfOk result (λ has. has ≡ not (self.old.capacity == 0)) }
        ensures unchanged { OnErr result (self.new ≡ self.old) }
    {
        self.place(peer)?;
        if let Some(intake) = self.intakes.get_mut(&peer) {
            let _ = intake.stop();
        }
        Ok(self.capacity != 0)
    }

    /// How many packets' data of a peer wait.
    pub fn held(&self, peer: Peer) -> usize
        ensures { result ≡ flow_held self.now peer }
    {
        match self.intakes.get(&peer) {
            Some(intake) => intake.held(),
            None => 0,
        }
    }

    /// The most bytes that a peer's inbox adds to an acknowledgement.
    pub fn most_said(&self, peer: Peer) -> usize
        ensures { result ≡ flow_most_said self.now peer }
    {
        match self.intakes.get(&peer) {
            Some(intake) => intake.most_said(),
            None => 0,
        }
    }
}

fn kind_kept(arrival: Option<Arrival>, kind: EventKind) -> EventKind
    ensures { result ≡ kind_kept arrival kind }
{
    match (arrival, kind) {
        (Some(Arrival::Kept), EventKind::Data { .. }) => EventKind::Waits,
        (Some(Arrival::Dropped(code)), EventKind::Data { .. }) => EventKind::Dropped { code },
        (
            Some(Arrival::Kept | Arrival::Dropped(_)),
            EventKind::Opened
            | EventKind::Waits
            | EventKind::Dropped { .. }
            | EventKind::Room
            | EventKind::Ended(_),
        )
        | (None, _) => kind,
    }
}

/// The event of a flow, by what became of the data that the datagram brought: data in an inbox have their own event.
pub fn event_kept(event: FlowEvent, arrival: Option<Arrival>) -> FlowEvent
    ensures { result ≡ event_kept arrival event }
{
    FlowEvent {
        kind: kind_kept(arrival, event.kind),
        ..event
    }
}
