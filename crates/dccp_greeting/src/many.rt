//! A server of many peers, over `Server`.

use crate::client::{Client, SERVER_ADDRESS, SERVER_PORT, SERVICE};
use crate::wire::Wire;
use arrayvec::ArrayVec;
use dccp_endpoint::{DecodedDatagram, Lists, MOST_FRAME_BYTES, Outbox, Outcome, Seq48};
use dccp_listener::{Heard, ListenConfig, Peer};
use dccp_server::{Rules, Server};
use dccp_uses::{Network, Pace};
use std::alloc::Global;

/// A server with all its peers, and what came of them.
#[derive(Drop)]
pub(crate) struct ServerOfMany {
    server: Server,
    out: Outbox,
    pub(crate) got: Vec<u8>,
}

impl ServerOfMany {
    /// A server that may have one flow.
    pub(crate) fn new(alloc: Global) -> ServerOfMany {
        let mut services = ArrayVec::new();
        let _ = services.try_push(SERVICE);
        let config = ListenConfig {
            own_address: SERVER_ADDRESS,
            own_port: SERVER_PORT,
            services,
            lists: Lists::usual(),
            most: 1,
        };
        ServerOfMany {
            server: Server::new(alloc, config, Pace::usual(), Rules::usual()),
            out: Outbox::new(),
            got: Vec::new(alloc),
        }
    }

    // A datagram of a peer, whose address and port a socket gives. A real server draws the number.
    fn arrived(&mut self, peer: Peer, datagram: &[u8], now: u64, network: &mut Wire) -> Option<()> {
        if MOST_FRAME_BYTES < datagram.len() {
            return Some(());
        }
        let first = Seq48::new(2_000)?;
        let decoded = DecodedDatagram::new(datagram);
        let arrival = self
            .server
            .arrive(peer, first, &decoded, now, &mut self.out);
        self.send(network);
        let Ok(Some(Heard::Flow(outcome))) = arrival.heard else {
            // Busy, as a Reset has told the peer; or it was left out, or there was no memory: it counts as lost.
            return Some(());
        };
        self.take(&outcome, datagram)
    }

    // Data are in the datagram that brought them.
    fn take(&mut self, outcome: &Outcome, datagram: &[u8]) -> Option<()> {
        match *outcome {
            Outcome::Took {
                delivered: Some((first, past)),
            } => self.got.extend_from_slice(datagram.get(first..past)?).ok(),
            _ => Some(()),
        }
    }

    // What a call has left in the box goes to the peer of the call.
    fn send(&self, network: &mut Wire) {
        if let Some(frame) = self.out.frame() {
            network.send(frame.bytes());
        }
    }

    // The client's next datagram arrives, if there is one.
    fn hear(&mut self, client: &mut Client, now: u64) -> Option<()> {
        let Some(datagram) = client.to_server.take() else {
            return Some(());
        };
        self.arrived(client.peer, &datagram, now, &mut client.to_client)
    }

    // A datagram each way, and the timers of both.
    fn turn(&mut self, client: &mut Client, now: u64) -> Option<()> {
        self.hear(client, now)?;
        client.turn(now);
        Some(())
    }
}

// Does all duties of this time. A real server sends the frame to the peer of the duty.
fn tick(server: &mut ServerOfMany, first: &mut Client, second: &mut Client, now: u64) {
    // Something may be due thirteen times at each of two flows, and both flows may be given up.
    for _ in 0..28 {
        let Some(duty) = server.server.tick(now, &mut server.out) else {
            return;
        };
        let client = if duty.peer() == first.peer {
            &mut *first
        } else {
            &mut *second
        };
        server.send(&mut client.to_client);
    }
}

// All talk until the first client's connection has ended. Returns the Reset Code that the second got.
fn exchange(server: &mut ServerOfMany, first: &mut Client, second: &mut Client) -> Option<u8> {
    first.open()?;
    second.open()?;
    for turn in 0..1_000 {
        let now = turn * 10;
        server.turn(first, now)?;
        server.turn(second, now)?;
        tick(server, first, second, now);
        if first.ended.is_some() {
            return second.ended;
        }
    }
    None
}

// A second client comes.
fn talk_beside(alloc: Global, server: &mut ServerOfMany, first: &mut Client) -> Option<u8> {
    let mut second = Client::new(alloc, 3)?;
    exchange(server, first, &mut second)
}

/// Two clients come. Returns the code of the Reset that the second got; None if memory ran out or a call was refused.
pub(crate) fn talk(alloc: Global, server: &mut ServerOfMany) -> Option<u8> {
    let mut first = Client::new(alloc, 1)?;
    talk_beside(alloc, server, &mut first)
}
