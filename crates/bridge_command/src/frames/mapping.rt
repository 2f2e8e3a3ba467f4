//! A packet's header as the usual end of a side would get it.
ghost use Rattle.std.specs.Prelude.{◌≡◌, IsTrue};
ghost use Rattle.dccp_packets.specs.Grammar.{is_long, is_valid};
ghost use Rattle.bridge_command.specs.Mapping.{moved_ack, moved_header, moved_kind, moved_number, usual_end};

use dccp_endpoint::Config;
use dccp_packets::{Header, Kind, Number};
use seq_circle::Seq48;
use tool_jobs::role_of;
use world_events::Side;

/// The part of an end's configuration that the packets to it depend on (own).
#[derive(Clone, Copy)]
pub(crate) struct UsualEnd {
    /// Their destination port.
    pub(crate) own_port: u16,
    /// Their source port.
    pub(crate) peer_port: u16,
    /// The Service Code of a connection (RFC 4340, section 8.1.2).
    pub(crate) service: u32,
    /// The end's initial sequence number (RFC 4340, section 7.2).
    pub(crate) iss: Seq48,
}

/// Why a packet has no frame in a replay (own).
#[derive(Clone, Copy)]
pub(crate) enum NoFrame {
    /// It has an acknowledgement number, and before it the captured end sent no number of 48 bits from which that could
    /// be counted.
    NumberUnknown,
    /// It has more than 2,044 bytes.
    FrameTooLong,
}

/// The end of a side that `replay` plays.
pub(crate) fn usual_end(side: Side) -> UsualEnd
    ensures { result ≡ usual_end side }
{
    let config = Config::usual(role_of(side));
    UsualEnd {
        own_port: config.own_port,
        peer_port: config.peer_port,
        service: config.service,
        iss: config.iss,
    }
}

// An acknowledgement number, as far above the end's initial number as above that of the captured end.
fn moved_ack(end: &UsualEnd, initial: Seq48, ack: Seq48) -> Seq48
    ensures { result ≡ moved_ack end.now initial ack }
{
    end.iss.add(initial.distance(ack))
}

fn moved_number(end: &UsualEnd, initial: Seq48, ack: Number) -> Number
    ensures value { result ≡ moved_number end.now initial ack }
    ensures form { is_long result ≡ is_long ack }
{
    let moved = moved_ack(end, initial, ack.value());
    match ack {
        Number::Long(_) => Number::Long(moved),
        Number::Short(_) => Number::Short(moved.low()),
    }
}

// What a type alone carries, with the end's Service Code and the acknowledgement number moved.
fn moved_kind(end: &UsualEnd, initial: Seq48, kind: &Kind) -> Kind
    ensures { result ≡ moved_kind end.now initial kind.now }
{
    let service = end.service;
    match *kind {
        Kind::Request { .. } => Kind::Request { service },
        Kind::Response { ack, .. } => Kind::Response {
            ack: moved_ack(end, initial, ack),
            service,
        },
        Kind::Data => Kind::Data,
        Kind::Ack { ack } => Kind::Ack {
            ack: moved_number(end, initial, ack),
        },
        Kind::DataAck { ack } => Kind::DataAck {
            ack: moved_number(end, initial, ack),
        },
        Kind::CloseReq { ack } => Kind::CloseReq {
            ack: moved_ack(end, initial, ack),
        },
        Kind::Close { ack } => Kind::Close {
            ack: moved_ack(end, initial, ack),
        },
        Kind::Reset { ack, code, detail } => Kind::Reset {
            ack: moved_ack(end, initial, ack),
            code,
            detail,
        },
        Kind::Sync { ack } => Kind::Sync {
            ack: moved_ack(end, initial, ack),
        },
        Kind::SyncAck { ack } => Kind::SyncAck {
            ack: moved_ack(end, initial, ack),
        },
    }
}

/// A header with the end's ports and Service Code, and its acknowledgement number moved. The checksum is still to be
/// set.
#[tactic(auto, using(crate::proofs::NumberMoving::moved_valid))]
pub(crate) fn moved_header(end: &UsualEnd, initial: Seq48, header: &Header) -> Header
    requires { IsTrue (is_valid header.now) }
    ensures value { result ≡ moved_header end.now initial header.now }
    ensures valid { IsTrue (is_valid result) }
{
    Header {
        from: end.peer_port,
        to: end.own_port,
        ccval: header.ccval,
        cscov: header.cscov,
        checksum: 0,
        number: header.number,
        kind: moved_kind(end, initial, &header.kind),
    }
}
