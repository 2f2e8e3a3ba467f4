//! What an end sends for a packet that arrives: the replies of the table of phases, the acknowledgements that are due,
//! and the Sync or Reset for a packet that leaves the steps (RFC 4340, sections 8.5 and 11.3).
ghost use Rattle.std.specs.Prelude.{◌≡◌};
ghost use Rattle.dccp_endpoint.specs.Receiving.{packet_fault};

use super::Connection;
use super::classes::{is_connected, is_open};
use crate::incoming::IncomingPacket;
use crate::outgoing::{number_without_connection, put_reset};
use crate::speaking::DueConfirm;
use crate::strangers::without_detail;
use crate::{Exit, Fault, Outcome};
use dccp_packets::{Kind, Outbox, ResetCode};
use dccp_states::{Phase, Reply};
use feature_lists::{Feature, Place};
use seq_circle::Seq48;

// Packet Error names the packet's type.
fn packet_fault(packet: &IncomingPacket<'_>) -> Fault
    ensures { result ≡ packet_fault packet.now }
{
    Fault {
        code: ResetCode::PacketError.number(),
        first: packet.kind.code(),
        second: 0,
        third: 0,
    }
}

impl Connection {
    ghost use Rattle.std.specs.Prelude.{◌≡◌, if◌then◌else◌, [], None, false};
    ghost use Rattle.dccp_packets.specs.Forms.{may_be_short};
    ghost use Rattle.dccp_packets.specs.Grammar.{packet_type};
    ghost use Rattle.dccp_endpoint.specs.Speaking.{HaveRoom, confirming};
    ghost use Rattle.dccp_endpoint.specs.Receiving.{needs_ack, acknowledges, responds, replies, resets, resets_without_connection, leaves};
    ghost use Rattle.dccp_endpoint.specs.Reporting.{is_enough};
    ghost use Rattle.dccp_states.specs.declared.outcome.Outcome.TheVariants.{Took};
    ghost use Rattle.dccp_endpoint.specs.Steps.{idle, sends};

    // What the table of phases sends; a Reset has left at step 9.
    #[inline(always)]
    pub(crate) fn reply(
        &mut self,
        packet: &IncomingPacket<'_>,
        confirms: &[DueConfirm],
        delivered: Option<(usize, usize)>,
        reply: Reply,
        out: &mut Outbox,
    ) -> Outcome
        requires empty { out.old ≡ None }
        requires room { HaveRoom confirms.now }
        ensures { record { after = self.new; frame = out.new; calls = []; answer = result } ≡ replies self.old packet.now confirms.now (Took delivered) reply }
    {
        let ack = self.marks.gsr;
        match reply {
            Reply::Nothing => self.acknowledge_if_due(confirms, delivered, out),
            Reply::Response => self.respond(confirms, delivered, out),
            Reply::Ack => self.acknowledge(confirms, delivered, out),
            Reply::Close => self.send_and_take(Kind::Close { ack }, &[], delivered, out),
            Reply::ResetClosed => self.reset(ack, without_detail(ResetCode::Closed), out),
            Reply::SyncAck => {
                let ack = packet.number;
                self.send_and_take(Kind::SyncAck { ack }, confirms, delivered, out)
            }
            Reply::Torn => Outcome::Took { delivered },
        }
    }

    // Whether as many data packets are not acknowledged as the peer's Ack Ratio says.
    fn is_enough(&self) -> bool
        ensures { result ≡ is_enough self.now.rows self.now.unacked }
    {
        let ratio = self.rows().held(Feature::AckRatio, Place::There).value;
        ratio != 0 && ratio <= u64::from(self.unacked)
    }

    // Whether an Ack is needed if the table has no reply: in PARTOPEN and OPEN if Confirms are due, and in OPEN after
    // enough data packets.
    fn needs_ack(&self, confirms: &[DueConfirm]) -> bool
        ensures { result ≡ needs_ack self.now.phase confirms.now self.now.rows self.now.unacked }
    {
        is_connected(self.phase)
            && (!confirms.is_empty() || (is_open(self.phase) && self.is_enough()))
    }

    // If the table has no reply, sends an Ack if one is needed.
    fn acknowledge_if_due(
        &mut self,
        confirms: &[DueConfirm],
        delivered: Option<(usize, usize)>,
        out: &mut Outbox,
    ) -> Outcome
        requires empty { out.old ≡ None }
        requires room { HaveRoom confirms.now }
        ensures { record { after = self.new; frame = out.new; calls = []; answer = result }
            ≡ (if needs_ack self.old.phase confirms.now self.old.rows self.old.unacked
            then acknowledges self.old confirms.now (Took delivered) else idle self.old (Took delivered)) }
    {
        if self.needs_ack(confirms) {
            return self.acknowledge(confirms, delivered, out);
        }
        Outcome::Took { delivered }
    }

    // An Ack with the Confirms that are due.
    fn acknowledge(
        &mut self,
        confirms: &[DueConfirm],
        delivered: Option<(usize, usize)>,
        out: &mut Outbox,
    ) -> Outcome
        requires { HaveRoom confirms.now }
        ensures { record { after = self.new; frame = out.new; calls = []; answer = result } ≡ acknowledges self.old confirms.now (Took delivered) }
    {
        self.send_ack(confirms, out);
        Outcome::Took { delivered }
    }

    // A Response opens the offered rows that have no Confirm in it, and carries the Changes of these and of all others
    // that ask.
    fn respond(
        &mut self,
        confirms: &[DueConfirm],
        delivered: Option<(usize, usize)>,
        out: &mut Outbox,
    ) -> Outcome
        requires { HaveRoom confirms.now }
        ensures { record { after = self.new; frame = out.new; calls = []; answer = result } ≡ responds self.old confirms.now (Took delivered) }
    {
        let ack = self.marks.gsr;
        let service = self.config.service;
        self.send_offering(Kind::Response { ack, service }, confirms, out);
        Outcome::Took { delivered }
    }

    fn send_and_take(
        &mut self,
        kind: Kind,
        confirms: &[DueConfirm],
        delivered: Option<(usize, usize)>,
        out: &mut Outbox,
    ) -> Outcome
        requires form { may_be_short (packet_type kind) ≡ false }
        requires room { HaveRoom confirms.now }
        ensures { record { after = self.new; frame = out.new; calls = []; answer = result } ≡ sends self.old (confirming kind confirms.now) (Took delivered) }
    {
        self.send_confirming(kind, confirms, out);
        Outcome::Took { delivered }
    }

    // What is done with a packet that leaves before step 10.
    pub(crate) fn leave(
        &mut self,
        packet: &IncomingPacket<'_>,
        exit: Exit,
        out: &mut Outbox,
    ) -> Outcome
        requires { out.old ≡ None }
        ensures { record { after = self.new; frame = out.new; calls = []; answer = result } ≡ leaves self.old packet.now exit }
    {
        match exit {
            Exit::Drop(why) => Outcome::Dropped(why),
            Exit::Sync(number) => {
                self.send(Kind::Sync { ack: number }, out);
                Outcome::Synced(number)
            }
            Exit::ResetWithoutConnection(code) => {
                self.reset_without_connection(packet, without_detail(code), out)
            }
            Exit::PacketError => self.reset(packet.number, packet_fault(packet), out),
            Exit::Shut(fault) => {
                self.phase = Phase::Closed;
                self.reset(self.marks.gsr, fault, out)
            }
            Exit::TimeWait(code) => {
                self.phase = Phase::TimeWait;
                Outcome::WasReset(code)
            }
        }
    }

    // A Reset under the next number.
    fn reset(&mut self, ack: Seq48, fault: Fault, out: &mut Outbox) -> Outcome
        ensures { record { after = self.new; frame = out.new; calls = []; answer = result } ≡ resets self.old ack fault }
    {
        let number = self.take_number();
        put_reset(&self.config, number, ack, fault, out)
    }

    // A Reset without a connection takes its numbers from the packet, and the end is unchanged (own).
    fn reset_without_connection(
        &mut self,
        packet: &IncomingPacket<'_>,
        fault: Fault,
        out: &mut Outbox,
    ) -> Outcome
        ensures { record { after = self.new; frame = out.new; calls = []; answer = result } ≡ resets_without_connection self.old packet.now fault }
    {
        let number = number_without_connection(packet.ack);
        put_reset(&self.config, number, packet.number, fault, out)
    }
}
