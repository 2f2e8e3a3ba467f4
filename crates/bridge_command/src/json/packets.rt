//! A packet of DCCP as members of an object (RFC 4340, section 5; the names are own).
ghost use Rattle.std.specs.List.{list_all};
ghost use Rattle.std.specs.Net.Text.{ip_text};
ghost use Rattle.std.specs.Prelude.{◌≡◌, ◌≤◌, length, not, true, OnOk};
ghost use Rattle.dccp_packets.specs.Grammar.{is_long};
ghost use Rattle.dccp_packets.specs.declared.header.Number.TheVariants.{Long};
ghost use Rattle.packet_show.specs.Lines.{parts_by};
ghost use Rattle.packet_show.specs.Network.{carried_by};
ghost use Rattle.tool_text.specs.Lines.{is_text};
ghost use Rattle.bridge_command.specs.Members.{members_seen, with_text_named};
ghost use Rattle.bridge_command.specs.Objects.{destination_text, ecn_of, hops_of, source_text, verdict_name, with_ack, with_addresses, with_code, with_header_fields, with_ip, with_kind, with_options, with_packet_fields, with_payload, with_ports, with_rest};

use crate::json::objects::{Items, Object};
use crate::json::options::push_options;
use crate::json::skips::byte_at;
use dccp_packets::{Header, Kind, Number, Packet};
use dccp_sum::{Pseudo, check};
use packet_show::{Datagram, sum_name, type_name};
use seq_circle::{NoMemory, Seq48};
use std::net::{IpAddr, Ipv4Addr, Ipv6Addr};

// The address that a packet goes from.
fn source(pseudo: &Pseudo) -> IpAddr
    ensures { ip_text result ≡ source_text pseudo.now }
{
    match *pseudo {
        Pseudo::V4 { from, .. } => IpAddr::V4(Ipv4Addr::from_octets(from)),
        Pseudo::V6 { from, .. } => IpAddr::V6(Ipv6Addr::from_octets(from)),
    }
}

// The address that a packet goes to.
fn destination(pseudo: &Pseudo) -> IpAddr
    ensures { ip_text result ≡ destination_text pseudo.now }
{
    match *pseudo {
        Pseudo::V4 { to, .. } => IpAddr::V4(Ipv4Addr::from_octets(to)),
        Pseudo::V6 { to, .. } => IpAddr::V6(Ipv6Addr::from_octets(to)),
    }
}

// Puts an address under this name.
fn put_address(object: &mut Object, name: &str, address: IpAddr) -> Result<(), NoMemory>
    ensures { OnOk result (members_seen object.new ≡ with_text_named name.now (ip_text address) (members_seen object.old)) }
{
    let alloc = object.alloc;
    let Ok(text) = format!(in alloc; "{address}") else {
        return Err(NoMemory);
    };
    object.string(name, &text)
}

// Puts the addresses that a packet goes from and to.
fn put_addresses(object: &mut Object, there: &Datagram<'_>) -> Result<(), NoMemory>
    ensures { OnOk result (members_seen object.new ≡ with_addresses (carried_by there.now) (members_seen object.old)) }
{
    put_address(object, "source", source(&there.pseudo))?;
    put_address(object, "destination", destination(&there.pseudo))
}

// How many hops an IP packet may still go.
fn hops_of(pseudo: &Pseudo, ip: &[u8]) -> u8
    ensures { result ≡ hops_of pseudo.now ip.now }
{
    match pseudo {
        Pseudo::V4 { .. } => byte_at(ip, 8),
        Pseudo::V6 { .. } => byte_at(ip, 7),
    }
}

// Its ECN field.
fn ecn_of(pseudo: &Pseudo, ip: &[u8]) -> u8
    ensures { result ≡ ecn_of pseudo.now ip.now }
{
    match pseudo {
        Pseudo::V4 { .. } => byte_at(ip, 1) % 4,
        Pseudo::V6 { .. } => byte_at(ip, 1) / 16 % 4,
    }
}

/// Puts what an IP packet says of its DCCP packet: the hops that are left, its ECN field, and the addresses.
pub(crate) fn put_ip(object: &mut Object, there: &Datagram<'_>, ip: &[u8]) -> Result<(), NoMemory>
    ensures { OnOk result (members_seen object.new ≡ with_ip (carried_by there.now) ip.now (members_seen object.old)) }
{
    object.numbers(&[
        ("ttl", u64::from(hops_of(&there.pseudo, ip))),
        ("ecn", u64::from(ecn_of(&there.pseudo, ip))),
    ])?;
    put_addresses(object, there)
}

// Puts the ports of a packet.
fn put_ports(object: &mut Object, header: &Header) -> Result<(), NoMemory>
    ensures { OnOk result (members_seen object.new ≡ with_ports header.now (members_seen object.old)) }
{
    object.numbers(&[
        ("source_port", u64::from(header.from)),
        ("destination_port", u64::from(header.to)),
    ])
}

fn is_short(number: Number) -> bool
    ensures { result ≡ not (is_long number) }
{
    matches!(number, Number::Short(_))
}

// Puts the fields of the generic header.
#[tactic(auto, using(crate::proofs::ObjectTexts::type_is_text))]
fn put_header(object: &mut Object, header: &Header) -> Result<(), NoMemory>
    ensures { OnOk result (members_seen object.new ≡ with_header_fields header.now (members_seen object.old)) }
{
    object.text("type", type_name(header.kind.packet_type()))?;
    object.number("sequence", header.number.value().get())?;
    object.truth("short", is_short(header.number))?;
    object.numbers(&[
        ("ccval", u64::from(header.ccval)),
        ("cscov", u64::from(header.cscov)),
        ("checksum", u64::from(header.checksum)),
    ])
}

fn put_ack(object: &mut Object, ack: Number) -> Result<(), NoMemory>
    ensures { OnOk result (members_seen object.new ≡ with_ack ack (members_seen object.old)) }
{
    object.number("acknowledgement", ack.value().get())
}

// Puts the number that a Reset acknowledges, the Reset Code, and Data 1 to 3.
fn put_reset(object: &mut Object, ack: Seq48, code: u8, detail: [u8; 3]) -> Result<(), NoMemory>
    ensures { OnOk result (members_seen object.new ≡ with_code code detail (with_ack (Long ack) (members_seen object.old))) }
{
    object.numbers(&[
        ("acknowledgement", ack.get()),
        ("reset_code", u64::from(code)),
        ("data_1", u64::from(detail[0])),
        ("data_2", u64::from(detail[1])),
        ("data_3", u64::from(detail[2])),
    ])
}

// Puts what only packets of this type carry.
fn put_kind(object: &mut Object, kind: &Kind) -> Result<(), NoMemory>
    ensures { OnOk result (members_seen object.new ≡ with_kind kind.now (members_seen object.old)) }
{
    match *kind {
        Kind::Request { service } => object.number("service_code", u64::from(service)),
        Kind::Response { ack, service } => object.numbers(&[
            ("acknowledgement", ack.get()),
            ("service_code", u64::from(service)),
        ]),
        Kind::Data => Ok(()),
        Kind::Ack { ack } | Kind::DataAck { ack } => put_ack(object, ack),
        Kind::CloseReq { ack } | Kind::Close { ack } | Kind::Sync { ack } | Kind::SyncAck { ack } =>
            put_ack(object, Number::Long(ack)),
        Kind::Reset { ack, code, detail } => put_reset(object, ack, code, detail),
    }
}

// Puts the options, of which some are ignored on Data packets.
fn put_options(object: &mut Object, packet: &Packet<'_>) -> Result<(), NoMemory>
    requires { length packet.now.options.now ≤ 1008 }
    ensures { OnOk result (members_seen object.new ≡ with_options (parts_by packet.now) (members_seen object.old)) }
{
    let on_data = packet.header.kind.packet_type().is_data();
    let mut items = Items::new(object.alloc);
    push_options(&mut items, packet.options, on_data)?;
    object.list("options", items)
}

// The verdict on the checksum; it is unknown if bytes are missing.
#[tactic(auto, using(crate::proofs::ObjectTexts::verdict_is_text))]
fn verdict_name(there: &Datagram<'_>) -> &'static [u8]
    requires low { 8 ≤ length there.now.bytes.now }
    requires high { length there.now.bytes.now ≤ 65535 }
    ensures value { result.now ≡ verdict_name (carried_by there.now) }
    ensures text { list_all is_text result.now ≡ true }
{
    if there.whole {
        return sum_name(check(&there.pseudo, there.bytes));
    }
    b"unknown"
}

// Puts how many bytes of data are there, and the verdict on the checksum.
fn put_rest(object: &mut Object, there: &Datagram<'_>, packet: &Packet<'_>) -> Result<(), NoMemory>
    requires low { 8 ≤ length there.now.bytes.now }
    requires high { length there.now.bytes.now ≤ 65535 }
    ensures { OnOk result (members_seen object.new ≡ with_rest (carried_by there.now) (parts_by packet.now) (members_seen object.old)) }
{
    object.number("data", packet.payload.len() as u64)?;
    object.text("verdict", verdict_name(there))
}

// Puts the bytes of data in hexadecimal, if they are asked for.
fn put_payload(object: &mut Object, payload: bool, bytes: &[u8]) -> Result<(), NoMemory>
    ensures { OnOk result (members_seen object.new ≡ with_payload payload bytes.now (members_seen object.old)) }
{
    if !payload {
        return Ok(());
    }
    let text = hex::encode(object.alloc, bytes)?;
    object.string("payload", &text)
}

/// Puts a packet: its ports, its header, what only its type carries, its options, and the rest.
pub(crate) fn put_packet(
    object: &mut Object,
    payload: bool,
    there: &Datagram<'_>,
    packet: &Packet<'_>,
) -> Result<(), NoMemory>
    requires low { 8 ≤ length there.now.bytes.now }
    requires high { length there.now.bytes.now ≤ 65535 }
    requires options { length packet.now.options.now ≤ 1008 }
    ensures { OnOk result (members_seen object.new ≡ with_packet_fields payload (carried_by there.now) (parts_by packet.now) (members_seen object.old)) }
{
    put_ports(object, &packet.header)?;
    put_header(object, &packet.header)?;
    put_kind(object, &packet.header.kind)?;
    put_options(object, packet)?;
    put_rest(object, there, packet)?;
    put_payload(object, payload, packet.payload)
}
