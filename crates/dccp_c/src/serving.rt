//! A listener of C: the server, and the place where it leaves its frame.
use data_dropped::Arrival;
use dccp_endpoint::Outbox;
use dccp_listener::Peer;
use dccp_server::{EventServer, FlowDropRecord, FlowInboxes, Way};

/// A server, what its last datagram did to others, and the place where each of its calls leaves its frame.
#[derive(Drop)]
pub struct OwnedServer {
    /// The server, with what its last call has done to its flows.
    pub server: EventServer,
    /// The frame that the last call has left, if any.
    pub out: Outbox,
    /// The peer whose flow made room for the last datagram.
    pub evicted: Option<Peer>,
    /// How the last datagram was met.
    pub way: Way,
    /// Which packets its peers have reported as dropped.
    pub drops: FlowDropRecord,
    /// The data of its flows that wait.
    pub inboxes: FlowInboxes,
    /// What became of the data of the last datagram, if they came into an inbox.
    pub arrival: Option<Arrival>,
}
