//! A client that connects again from the same port, while its old connection has not ended.
ghost use Rattle.std.specs.Prelude.{◌≡◌};
ghost use Rattle.dccp_packets.specs.Grammar.{decoded};
ghost use Rattle.dccp_uses.specs.Anew.{refused_number, refuses_sync, sync_refused};

use dccp_endpoint::{DecodedDatagram, Seq48};
use dccp_packets::Kind;

// The number that a Reset for a Sync acknowledges.
fn refused_number(kind: Kind) -> Option<Seq48>
    ensures { result ≡ refused_number kind }
{
    match kind {
        Kind::Reset {
            ack,
            code,
            detail: _,
        } => { if code == 4 { Some(ack) } else { None } }
        Kind::Request { service: _ }
        | Kind::Response { ack: _, service: _ }
        | Kind::Data
        | Kind::Ack { ack: _ }
        | Kind::DataAck { ack: _ }
        | Kind::CloseReq { ack: _ }
        | Kind::Close { ack: _ }
        | Kind::Sync { ack: _ }
        | Kind::SyncAck { ack: _ } => None,
    }
}

/// The number of the Sync that a datagram refuses, if it is the Reset with which a client in REQUEST answers a Sync
/// (RFC 4340, section 8.5, step 4).
pub fn sync_refused(datagram: &DecodedDatagram<'_>) -> Option<Seq48>
    ensures { result ≡ sync_refused (decoded datagram.now) }
{
    match datagram.packet() {
        Ok(packet) => refused_number(packet.header.kind),
        Err(_) => None,
    }
}

/// Whether a datagram refuses the last Sync of its client's old connection, which has this number (own). The old
/// connection answers such a Reset with a further Sync, and so on without end. So its owner ends it and sends nothing,
/// and the client's next Request opens another connection. Only someone who sees the connection's packets knows the
/// number.
pub fn refuses_sync(last: Option<Seq48>, datagram: &DecodedDatagram<'_>) -> bool
    ensures { result ≡ refuses_sync last datagram.now }
{
    let Some(last) = last else {
        return false;
    };
    match sync_refused(datagram) {
        Some(number) => last.get() == number.get(),
        None => false,
    }
}
