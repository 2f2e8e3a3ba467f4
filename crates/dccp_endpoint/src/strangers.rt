//! The answer, without an end, to a packet that opens no connection (RFC 4340, section 8.5, steps 1 to 8).
ghost use Rattle.std.specs.Prelude.{◌≡◌, ◌≤◌, ℕ, List, Some, None, Ok, false, length};
ghost use Rattle.dccp_endpoint.specs.Drafts.{sent_of};
ghost use Rattle.dccp_endpoint.specs.End.{new_end};
ghost use Rattle.dccp_endpoint.specs.Incoming.{incoming, parts_of_packet};
ghost use Rattle.dccp_endpoint.specs.Receiving.{checks_header, fault_if, is_of_connection, number_without_connection, reads_request, receives, takes};
ghost use Rattle.dccp_endpoint.specs.Steps.{detail_of, reset_of, without_detail};
ghost use Rattle.dccp_endpoint.specs.Strangers.{IsStrangerAnswered, IsRequestAnswered};
ghost use Rattle.dccp_packets.specs.Forms.{ack_near};
ghost use Rattle.dccp_packets.specs.Grammar.{decoded};
ghost use Rattle.dccp_packets.specs.ResetCodes.{number_of_code};
ghost use Rattle.dccp_states.specs.declared.outcome.Outcome.TheVariants.{SentReset};

use crate::heeding::heed_request;
use crate::outgoing::{number_without_connection, put_reset};
use crate::{Config, Fault, Outcome, ResetCode, Role, Why};
use dccp_packets::{Header, Kind, Number, Outbox, Packet};
use dccp_sum::check;
use seq_circle::Seq48;

/// A Reset Code without details.
pub(crate) fn without_detail(code: ResetCode) -> Fault
    ensures { result ≡ without_detail (number_of_code code) }
{
    Fault {
        code: code.number(),
        first: 0,
        second: 0,
        third: 0,
    }
}

/// Whether the ports of a packet are those of its peer and of the end with this configuration.
pub(crate) fn is_of_connection(config: &Config, header: &Header) -> bool
    ensures { result ≡ is_of_connection (new_end config.now) header.now }
{
    header.from == config.peer_port && header.to == config.own_port
}

// Step 1: the number of a packet with a long one, or why it is dropped.
fn check_header(config: &Config, bytes: &[u8], header: &Header) -> Result<Seq48, Why>
    requires server { config.now.role ≡ Role.Server }
    requires low { 8 ≤ length bytes.now }
    requires high { length bytes.now ≤ 65535 }
    ensures { result ≡ checks_header (new_end config.now) bytes.now header.now }
{
    if let Err(fault) = check(&config.pseudo_in, bytes) {
        return Err(Why::Sum(fault));
    }
    if !is_of_connection(config, header) {
        return Err(Why::OtherFlow);
    }
    match header.number {
        Number::Long(number) => Ok(number),
        Number::Short(_) => Err(Why::ShortOff),
    }
}

// A Request for the service. A fresh end hears its options (step 8), and answers it; or it closes, and names their
// fault under its first number.
fn hear_request(config: &Config, area: &[u8], number: Seq48, out: &mut Outbox) -> Option<Outcome>
    requires empty { out.old ≡ None }
    requires short { length area.now ≤ 1008 }
    ensures { IsRequestAnswered config.now number (fault_if (reads_request config.now.lists area.now)) out.new result }
{
    match heed_request(&config.lists, area) {
        Ok(()) => None,
        Err(fault) => {
            let first = config.iss.sub(1).next();
            Some(put_reset(config, first, number, fault, out))
        }
    }
}

// Steps 2 and 3, if the packet leaves there with a Reset of no connection.
fn reset_stranger(
    config: &Config,
    packet: &Packet<'_>,
    number: Seq48,
    code: ResetCode,
    out: &mut Outbox,
) -> Outcome
    ensures sent { out.new ≡ Some (sent_of config.now false (number_without_connection (ack_near (new_end config.now).marks.gss packet.now.header.kind)) (reset_of number (without_detail (number_of_code code)))) }
    ensures answer { result ≡ SentReset (number_of_code code) (detail_of (without_detail (number_of_code code))) }
{
    let ack = packet.header.kind.ack_near(config.iss.sub(1));
    let own = number_without_connection(ack);
    put_reset(config, own, number, without_detail(code), out)
}

// Steps 2 to 8 at a server in LISTEN: a Reset is dropped, a Request for the service has its options heard, and a Reset
// of no connection answers any other packet.
#[tactic(auto, using(crate::proofs::Fresh::request_answered))]
fn turn_away(
    config: &Config,
    packet: &Packet<'_>,
    number: Seq48,
    out: &mut Outbox,
) -> Option<Outcome>
    requires server { config.now.role ≡ Role.Server }
    requires empty { out.old ≡ None }
    requires short { length packet.now.options.now ≤ 1008 }
    ensures { (bytes : List ℕ)
        → IsStrangerAnswered (takes (new_end config.now) (incoming (new_end config.now) bytes (parts_of_packet packet.now) number)) out.new result }
{
    match packet.header.kind {
        Kind::Request { service } => {
            if service == config.service {
                hear_request(config, packet.options, number, out)
            } else {
                let code = ResetCode::BadServiceCode;
                let outcome = reset_stranger(config, packet, number, code, out);
                Some(outcome)
            }
        }
        Kind::Reset { .. } => Some(Outcome::Dropped(Why::StrayReset)),
        Kind::Response { .. }
        | Kind::Data
        | Kind::Ack { .. }
        | Kind::DataAck { .. }
        | Kind::CloseReq { .. }
        | Kind::Close { .. }
        | Kind::Sync { .. }
        | Kind::SyncAck { .. } => {
            let code = ResetCode::NoConnection;
            let outcome = reset_stranger(config, packet, number, code, out);
            Some(outcome)
        }
    }
}

/// Answers a packet as a server's end of this configuration would that has received nothing yet, if that end would not
/// stay. Returns its answer, and leaves its frame in the Outbox, which has to be empty before. Returns None, and sends
/// nothing, if the end would stay, in RESPOND: then an end has to receive the packet (RFC 4340, section 8.5). `packet`
/// is what `decode` makes of `bytes`, at most 2,044 of them. It takes no memory.
#[tactic(auto, unfolding(crate::specs::Receiving::receives))]
pub fn answer_stranger(
    config: &Config,
    packet: &Packet<'_>,
    bytes: &[u8],
    out: &mut Outbox,
) -> Option<Outcome>
    requires server { config.now.role ≡ Role.Server }
    requires empty { out.old ≡ None }
    requires short { length bytes.now ≤ 2044 }
    requires read { decoded bytes.now ≡ Ok (parts_of_packet packet.now) }
    requires options { length packet.now.options.now ≤ 1008 }
    ensures { IsStrangerAnswered (receives (new_end config.now) bytes.now) out.new result }
{
    match check_header(config, bytes, &packet.header) {
        Ok(number) => turn_away(config, packet, number, out),
        Err(why) => Some(Outcome::Dropped(why)),
    }
}
