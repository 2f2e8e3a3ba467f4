//! A client: it sends a greeting, and closes once that has arrived.

use crate::wire::Wire;
use ccid_two::Kinds;
use dccp_endpoint::{Config, Ports, Pseudo, Seq48};
use dccp_listener::Peer;
use dccp_uses::{News, Pace, Session, widened};
use std::alloc::Global;

/// The Service Code that it asks for.
pub(crate) const SERVICE: u32 = 42;

pub(crate) const SERVER_ADDRESS: [u8; 4] = [192, 0, 2, 2];

pub(crate) const SERVER_PORT: u16 = 5_001;

/// A client's connection, the wires to its server and back, and what has happened so far.
#[derive(Drop)]
pub(crate) struct Client {
    /// The address and port that its datagrams come from.
    pub(crate) peer: Peer,
    connection: Session<Kinds>,
    pub(crate) to_server: Wire,
    pub(crate) to_client: Wire,
    is_sent: bool,
    /// The code of the Reset that has ended its connection.
    pub(crate) ended: Option<u8>,
}

impl Client {
    /// The client whose address ends with this byte. A real client draws the number of its first packet.
    pub(crate) fn new(alloc: Global, last: u8) -> Option<Client> {
        let peer = Peer {
            address: [192, 0, 2, last],
            port: 40_000,
        };
        let address = peer.address;
        let addresses = Pseudo::V4 {
            from: address,
            to: SERVER_ADDRESS,
        };
        let ports = Ports {
            own: peer.port,
            peer: SERVER_PORT,
        };
        let config = widened(Config::client(addresses, ports, SERVICE, Seq48::new(1_000)?));
        let Ok(congestion) = Kinds::new(alloc) else {
            return None;
        };
        let Ok(connection) = Session::new(alloc, config, congestion, Pace::usual()) else {
            return None;
        };
        Some(Client {
            peer,
            connection,
            to_server: Wire::new(alloc),
            to_client: Wire::new(alloc),
            is_sent: false,
            ended: None,
        })
    }

    pub(crate) fn open(&mut self) -> Option<()> {
        self.connection.open(0, &mut self.to_server).ok()
    }

    // The server's next datagram arrives, if there is one.
    fn hear(&mut self, now: u64) {
        let Some(datagram) = self.to_client.take() else {
            return;
        };
        let news = self.connection.arrived(&datagram, now, &mut self.to_server);
        if let News::Ended { code } = news {
            self.ended = Some(code);
        }
    }

    // Sends the greeting once it may, and closes once that has arrived.
    fn talk(&mut self, now: u64) {
        let network = &mut self.to_server;
        if !self.is_sent {
            // Refused until the connection is open, and where the window has no room.
            self.is_sent = self.connection.send(b"hello", now, network).is_ok();
        } else if self.connection.end().in_flight() == 0 {
            let _ = self.connection.close(now, network);
        }
    }

    /// A datagram of the server, what the client does by itself, and its timers.
    pub(crate) fn turn(&mut self, now: u64) {
        self.hear(now);
        self.talk(now);
        self.connection.tick(now, &mut self.to_server);
    }
}
