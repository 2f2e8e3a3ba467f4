//! How a peer without a flow is answered.
ghost use Rattle.std.specs.Prelude.{◌≡◌, ◌≤◌, IfOk, OnErr, None, Ok, length};
ghost use Rattle.ccid_two.specs.Kinds.{at_first, kinds_control};
ghost use Rattle.dccp_endpoint.specs.Controlled.{begins};
ghost use Rattle.dccp_endpoint.specs.Feeding.{receiving};
ghost use Rattle.dccp_endpoint.specs.Incoming.{parts_of_packet};
ghost use Rattle.dccp_packets.specs.Grammar.{decoded};
ghost use Rattle.dccp_listener.specs.Calls.{reset_by, reset_for};

use ccid_two::Kinds;
use dccp_endpoint::{Config, Endpoint, Fault, NoMemory, Outbox, Outcome, Seq48, put_reset};
use dccp_packets::{Number, Packet};
use std::alloc::Global;

/// A fresh end hears a datagram. NoMemory if there is none for the end, and then nothing goes out.
pub(crate) fn greet(
    alloc: Global,
    config: &Config,
    packet: &Packet<'_>,
    bytes: &[u8],
    out: &mut Outbox,
) -> Result<(Endpoint<Kinds>, Outcome), NoMemory>
    requires short { length bytes.now ≤ 2044 }
    requires read { decoded bytes.now ≡ Ok (parts_of_packet packet.now) }
    requires options { length packet.now.options.now ≤ 1008 }
    ensures met { IfOk result (λ met. record { after = met.0; frame = out.new; answer = met.1 } ≡ receiving kinds_control (begins kinds_control config.now at_first) bytes.now) }
    ensures unmet { OnErr result (out.new ≡ out.old) }
{
    let congestion = Kinds::new(alloc)?;
    let mut end = Endpoint::new(alloc, *config, congestion)?;
    let outcome = end.receive_packet(packet, bytes, out);
    Ok((end, outcome))
}

/// Leaves the Reset with this code in the empty Outbox that refuses a packet: under the number 0, without a connection
/// (RFC 4340, section 5.6). `packet` is what `decode` makes of `bytes`; only the clauses look at the bytes. Nothing goes
/// out if its number is a short one.
pub fn refuse_packet(config: &Config, packet: &Packet<'_>, bytes: &[u8], code: u8, out: &mut Outbox)
    requires empty { out.old ≡ None }
    requires read { decoded bytes.now ≡ Ok (parts_of_packet packet.now) }
    ensures { out.new ≡ reset_for code config.now (decoded bytes.now) }
{
    let _ = bytes;
    refuse_number(config, &packet.header.number, code, out);
}

// The same by its number.
fn refuse_number(config: &Config, number: &Number, code: u8, out: &mut Outbox)
    requires { out.old ≡ None }
    ensures { out.new ≡ reset_by code config.now number.now }
{
    let fault = Fault {
        code,
        first: 0,
        second: 0,
        third: 0,
    };
    let Some(zero) = Seq48::new(0) else {
        unreachable!();
    };
    match *number {
        Number::Long(number) => {
            let _ = put_reset(config, zero, number, fault, out);
        }
        Number::Short(_) => {}
    }
}
