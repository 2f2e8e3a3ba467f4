//! A server of one connection, over `accept`.

use crate::client::{Client, SERVER_ADDRESS, SERVER_PORT, SERVICE};
use crate::wire::Wire;
use ccid_two::Kinds;
use dccp_endpoint::{Config, Ports, Pseudo, Seq48};
use dccp_listener::Peer;
use dccp_uses::{News, Pace, Session, accept, widened};
use std::alloc::Global;

/// A server with at most one connection, and what came over it.
#[derive(Drop)]
pub(crate) struct ServerOfOne {
    alloc: Global,
    connection: Option<Session<Kinds>>,
    pub(crate) got: Vec<u8>,
}

// The configuration of the end for a peer. A real server draws the number.
fn config_for(peer: Peer) -> Option<Config> {
    let address = peer.address;
    let addresses = Pseudo::V4 {
        from: SERVER_ADDRESS,
        to: address,
    };
    let ports = Ports {
        own: SERVER_PORT,
        peer: peer.port,
    };
    let first = Seq48::new(2_000)?;
    Some(widened(Config::server(addresses, ports, SERVICE, first)))
}

impl ServerOfOne {
    pub(crate) fn new(alloc: Global) -> ServerOfOne {
        ServerOfOne {
            alloc,
            connection: None,
            got: Vec::new(alloc),
        }
    }

    // A datagram of a stranger, whose address and port a socket gives.
    fn meet(&mut self, peer: Peer, datagram: &[u8], now: u64, network: &mut Wire) -> Option<()> {
        let config = config_for(peer)?;
        let Ok(congestion) = Kinds::new(self.alloc) else {
            return None;
        };
        let Ok(connection) = accept(
            self.alloc,
            config,
            congestion,
            Pace::usual(),
            datagram,
            now,
            network,
        ) else {
            return None;
        };
        self.connection = connection;
        Some(())
    }

    fn arrived(&mut self, peer: Peer, datagram: &[u8], now: u64, network: &mut Wire) -> Option<()> {
        let Some(connection) = &mut self.connection else {
            return self.meet(peer, datagram, now, network);
        };
        match connection.arrived(datagram, now, network) {
            News::Data { first, past } => self.got.extend_from_slice(&datagram[first..past]).ok(),
            News::Waits | News::Dropped { .. } | News::Ended { .. } | News::Quiet | News::TooLong =>
                Some(()),
        }
    }

    // The client's next datagram arrives, if there is one.
    fn hear(&mut self, client: &mut Client, now: u64) -> Option<()> {
        let Some(datagram) = client.to_server.take() else {
            return Some(());
        };
        self.arrived(client.peer, &datagram, now, &mut client.to_client)
    }

    fn tick(&mut self, now: u64, network: &mut Wire) {
        if let Some(connection) = &mut self.connection {
            connection.tick(now, network);
        }
    }
}

// Both talk until the connection has ended. None if memory ran out or a call was refused.
fn exchange(server: &mut ServerOfOne, client: &mut Client) -> Option<()> {
    client.open()?;
    // A turn takes 10 milliseconds. A real loop sleeps until a datagram comes, or `until_first` has gone by.
    for turn in 0..1_000 {
        let now = turn * 10;
        server.hear(client, now)?;
        server.tick(now, &mut client.to_client);
        client.turn(now);
        if client.ended.is_some() {
            return Some(());
        }
    }
    None
}

/// A client comes. None if memory ran out or a call was refused.
pub(crate) fn talk(alloc: Global, server: &mut ServerOfOne) -> Option<()> {
    let mut client = Client::new(alloc, 1)?;
    exchange(server, &mut client)
}
