//! How a server turns away, without an end, a datagram that would open a connection.
ghost use Rattle.std.specs.Prelude.{◌≡◌, ◌≤◌, None, Ok, if◌then◌else◌, is_some, length};
ghost use Rattle.dccp_endpoint.specs.Incoming.{parts_of_packet};
ghost use Rattle.dccp_listener.specs.Chain.{config_for};
ghost use Rattle.dccp_packets.specs.Grammar.{decoded};
ghost use Rattle.dccp_listener.specs.Calls.{reset_for};
ghost use Rattle.server_peers.specs.Refusals.{opens_by, refusal_frame, service_opened};

use dccp_endpoint::{Config, DecodedDatagram, Outbox, Role, Seq48, answer_stranger};
use dccp_listener::{ListenConfig, Peer, config_for, refuse_packet};
use dccp_packets::{Packet, decode};

// Turns a packet away. Returns whether it would have opened a connection.
fn turn_away(config: &Config, packet: &Packet<'_>, bytes: &[u8], code: u8, out: &mut Outbox) -> bool
    requires server { config.now.role ≡ Role.Server }
    requires empty { out.old ≡ None }
    requires short { length bytes.now ≤ 2044 }
    requires read { decoded bytes.now ≡ Ok (parts_of_packet packet.now) }
    requires options { length packet.now.options.now ≤ 1008 }
    ensures sent { out.new ≡ refusal_frame code config.now bytes.now }
    ensures opens { result ≡ opens_by config.now bytes.now }
{
    if answer_stranger(config, packet, bytes, out).is_some() {
        return false;
    }
    refuse_packet(config, packet, bytes, code, out);
    true
}

/// Turns a datagram of at most 2,044 bytes away. It is answered as a server's end of this configuration that has
/// received nothing would answer it, except that a Reset with this code answers one that would open a connection there
/// (own; RFC 4340, sections 5.6 and 8.3.1). Returns whether it would. It takes no memory.
#[tactic(auto, unfolding(dccp_endpoint::specs::Receiving::receives))]
pub fn refuse(config: &Config, bytes: &[u8], code: u8, out: &mut Outbox) -> bool
    requires server { config.now.role ≡ Role.Server }
    requires empty { out.old ≡ None }
    requires short { length bytes.now ≤ 2044 }
    ensures sent { out.new ≡ refusal_frame code config.now bytes.now }
    ensures opens { result ≡ opens_by config.now bytes.now }
{
    match decode(bytes) {
        Ok(packet) => turn_away(config, &packet, bytes, code, out),
        Err(_) => false,
    }
}

// The same for a packet of a peer without a flow: nothing goes out if it opens none.
fn refuse_flow(
    config: &ListenConfig,
    peer: Peer,
    packet: &Packet<'_>,
    bytes: &[u8],
    code: u8,
    out: &mut Outbox,
) -> Option<u32>
    requires empty { out.old ≡ None }
    requires short { length bytes.now ≤ 2044 }
    requires read { decoded bytes.now ≡ Ok (parts_of_packet packet.now) }
    requires options { length packet.now.options.now ≤ 1008 }
    ensures sent { out.new ≡ (if is_some result then reset_for code (config_for config.now peer 0 bytes.now) (decoded bytes.now) else None) }
    ensures service { result ≡ service_opened (config_for config.now peer 0 bytes.now) bytes.now }
{
    let Some(zero) = Seq48::new(0) else {
        unreachable!();
    };
    let own = config_for(config, peer, zero, packet, bytes);
    if turn_away(&own, packet, bytes, code, out) {
        return Some(own.service);
    }
    out.clear();
    None
}

/// Refuses a datagram of a peer without a flow by a Reset with this code, and returns the Service Code of the flow that
/// it would have opened. Nothing goes out if it opens none.
#[tactic(auto, unfolding(dccp_endpoint::specs::Receiving::receives))]
pub fn refuse_stranger(
    config: &ListenConfig,
    peer: Peer,
    datagram: &DecodedDatagram<'_>,
    code: u8,
    out: &mut Outbox,
) -> Option<u32>
    requires { length datagram.now ≤ 2044 }
    ensures sent { out.new ≡ (if is_some result then reset_for code (config_for config.now peer 0 datagram.now) (decoded datagram.now) else None) }
    ensures service { result ≡ service_opened (config_for config.now peer 0 datagram.now) datagram.now }
{
    out.clear();
    match datagram.packet() {
        Ok(packet) => refuse_flow(config, peer, packet, datagram.bytes(), code, out),
        Err(_) => None,
    }
}
