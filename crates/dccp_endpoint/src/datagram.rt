//! A datagram that is decoded once.
ghost use Rattle.std.specs.Prelude.{◌≡◌, ◌≤◌, length};
ghost use Rattle.dccp_endpoint.specs.Incoming.{IsReadAs};

use crate::endpoint::Endpoint;
use congestion_trait::Congestion;
use dccp_packets::{Malformed, Outbox, Packet, decode};
use dccp_states::{Outcome, Why};
use std::marker::Model;

/// A datagram that has arrived, decoded once for all who look at it: an end, and its owner. Contracts see its bytes.
#[derive(Drop)]
pub struct DecodedDatagram<'a> {
    bytes: &'a [u8],
    packet: Result<Packet<'a>, Malformed>,
}

impl<'a> Model for DecodedDatagram<'a> {
    ghost use Rattle.std.specs.Prelude.{List, ℕ};
    ghost use Rattle.dccp_endpoint.specs.Incoming.{IsReadAs};

    ghost Value = { List ℕ };

    ghost view = { λ d. d.bytes.now };

    ghost invariant = { λ d. IsReadAs d.bytes.now d.packet };
}

impl<'a> DecodedDatagram<'a> {
    ghost use Rattle.dccp_endpoint.specs.Controlled.{with_control};
    ghost use Rattle.dccp_endpoint.specs.Outcomes.{HasCause};
    ghost use Rattle.dccp_endpoint.specs.Receiving.{receives};

    /// Decodes these bytes.
    pub fn new(bytes: &'a [u8]) -> DecodedDatagram<'a>
        ensures { result ≡ bytes.now }
    {
        DecodedDatagram {
            bytes,
            packet: decode(bytes),
        }
    }

    /// Its bytes.
    pub fn bytes(&self) -> &'a [u8]
        ensures { result.now ≡ self.now }
    {
        self.bytes
    }

    /// The packet, or why it is none.
    pub fn packet(&self) -> &Result<Packet<'a>, Malformed>
        ensures { IsReadAs self.now result.now }
    {
        &self.packet
    }

    /// An end hears it, as [`Endpoint::receive`] takes its bytes.
    #[inline]
    #[tactic(auto, unfolding(crate::specs::Receiving::receives))]
    pub fn reach<C: Congestion>(&self, end: &mut Endpoint<C>, out: &mut Outbox) -> Outcome
        requires { length self.now ≤ 2044 }
        ensures step { record { after = end.new; frame = out.new; answer = result } ≡ with_control C.control end.old.congestion (receives end.old.state self.now) }
        ensures cause { HasCause end.old.state self.now result }
    {
        match &self.packet {
            Ok(packet) => end.receive_packet(packet, self.bytes, out),
            Err(fault) => {
                out.clear();
                Outcome::Dropped(Why::Malformed(*fault))
            }
        }
    }
}
