//! A packet that arrived, read once.
use dccp_packets::{Packet, PacketType};
use seq_circle::Seq48;
use std::marker::Model;

// What an end has to know of a packet of its connection, with its numbers in full. Small fields come first, since a gap
// would be copied too.
#[derive(Drop)]
pub(crate) struct IncomingPacket<'a> {
    pub(crate) kind: PacketType,
    // of a Reset, else 0
    pub(crate) code: u8,
    // no number was received before it, or none as great
    pub(crate) newest: bool,
    pub(crate) service: Option<u32>,
    pub(crate) number: Seq48,
    pub(crate) ack: Option<Seq48>,
    pub(crate) options: &'a [u8],
    // in the input, the first place and the one past the last
    pub(crate) data_place: (usize, usize),
}

impl<'a> Model for IncomingPacket<'a> {
    ghost use Rattle.std.specs.Prelude.{◌≡◌, ◌≤◌, length, is_some};
    ghost use Rattle.dccp_options.specs.Grammar.{options_of};
    ghost use Rattle.dccp_packets.specs.Kinds.{has_ack, is_data};
    ghost use Rattle.dccp_endpoint.specs.Incoming.{Incoming};

    ghost Value = { Incoming };

    ghost view = { λ p. record { kind = p.kind; number = p.number; ack = p.ack; service = p.service; code = p.code; options = options_of p.options.now (is_data p.kind); data_place = p.data_place; newest = p.newest } };

    ghost invariant = { λ p. (is_some p.ack ≡ has_ack p.kind) × (length p.options.now ≤ 1008) };
}

impl<'a> IncomingPacket<'a> {
    ghost use Rattle.std.specs.Prelude.{◌≡◌, ◌≤◌, length, is_some};
    ghost use Rattle.dccp_packets.specs.Grammar.{packet_type};
    ghost use Rattle.dccp_packets.specs.Kinds.{has_ack};
    ghost use Rattle.dccp_endpoint.specs.Incoming.{incoming_of, parts_of_packet};

    // What is read of a packet with these numbers in full, in an input of this many bytes.
    pub(crate) fn of(
        packet: &Packet<'a>,
        number: Seq48,
        ack: Option<Seq48>,
        size: usize,
        newest: bool,
    ) -> IncomingPacket<'a>
        requires short { length packet.now.options.now ≤ 1008 }
        requires acknowledges { is_some ack ≡ has_ack (packet_type packet.now.header.kind) }
        ensures { result ≡ incoming_of (parts_of_packet packet.now) number ack size newest }
    {
        let kind = &packet.header.kind;
        IncomingPacket {
            kind: kind.packet_type(),
            number,
            ack,
            service: kind.service(),
            code: kind.reset_code(),
            options: packet.options,
            data_place: (size.saturating_sub(packet.payload.len()), size),
            newest,
        }
    }
}
