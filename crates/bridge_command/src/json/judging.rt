//! What a record holds, as members of its object.
ghost use Rattle.std.specs.Prelude.{◌≡◌, ◌≤◌, ◌++◌, codes, length, IfOk, OnOk};
ghost use Rattle.capture_reader.specs.Records.{entry_of};
ghost use Rattle.packet_show.specs.Lines.{parts_by};
ghost use Rattle.packet_show.specs.Network.{carried_by};
ghost use Rattle.bridge_command.specs.Judging.{HoldsPacket, flow_number_of, judged_ip};
ghost use Rattle.bridge_command.specs.Members.{members_seen, with_text_named};
ghost use Rattle.bridge_command.specs.Objects.{nanoseconds_of, with_judged, with_malformed, with_stamp};
ghost use Rattle.bridge_command.specs.Skips.{skip_name};
ghost use Rattle.bridge_command.specs.Telling.{first_telling, telling_after, telling_with, told_line, told_members, record_told};

use crate::json::objects::Object;
use crate::json::packets::{put_ip, put_packet};
use crate::json::skips::{Skip, ip_skip, skip_name};
use bridge_links::ip_packet;
use bridge_records::RAW_IP;
use capture_reader::Record;
use dccp_packets::{Malformed, Packet, decode};
use packet_show::{Datagram, Flows, carried};
use seq_circle::NoMemory;
use std::alloc::Global;
use std::marker::Model;
use tool_text::malformed_name;

/// The job that writes each record. Contracts see whether the bytes of data are asked for, and the flows that were
/// seen.
#[derive(Drop)]
pub(crate) struct JsonJob {
    alloc: Global,
    payload: bool,
    flows: Flows,
}

impl Model for JsonJob {
    ghost use Rattle.bridge_command.specs.Telling.{JsonParts};

    ghost Value = { JsonParts };

    ghost view = { λ t. record { payload = t.payload; seen = t.flows } };
}

impl JsonJob {
    /// Before the first record.
    pub(crate) fn new(alloc: Global, payload: bool) -> JsonJob
        ensures { result ≡ first_telling payload }
    {
        JsonJob {
            alloc,
            payload,
            flows: Flows::new(alloc),
        }
    }

    /// Where its memory comes from.
    pub(crate) fn alloc(&self) -> Global {
        self.alloc
    }
}

// The fraction of a time in nanoseconds.
fn nanoseconds_of(nanos: bool, fraction: u32) -> u64
    ensures { result ≡ nanoseconds_of nanos fraction }
{
    if nanos {
        u64::from(fraction)
    } else {
        u64::from(fraction) * 1_000
    }
}

// Puts a record's number, its time, its link type, how many bytes it had on the link, and how many were captured.
fn put_stamp(object: &mut Object, item: &Record<'_>) -> Result<(), NoMemory>
    ensures { OnOk result (members_seen object.new ≡ with_stamp (entry_of item.now) (members_seen object.old)) }
{
    object.numbers(&[
        ("record", item.number),
        ("seconds", u64::from(item.seconds)),
        ("nanoseconds", nanoseconds_of(item.nanos, item.fraction)),
        ("link", u64::from(item.link)),
        ("length", u64::from(item.original)),
        ("captured", item.bytes.len() as u64),
    ])
}

fn put_skip(object: &mut Object, skip: Skip) -> Result<(), NoMemory>
    ensures { OnOk result (members_seen object.new ≡ with_text_named (codes "skipped") (skip_name skip) (members_seen object.old)) }
{
    object.string("skipped", skip_name(skip))
}

// Puts why bytes are no packet.
#[tactic(auto, using(crate::proofs::ObjectTexts::malformed_is_text))]
fn put_malformed(
    object: &mut Object,
    there: &Datagram<'_>,
    ip: &[u8],
    fault: Malformed,
) -> Result<(), NoMemory>
    ensures { OnOk result (members_seen object.new ≡ with_malformed (carried_by there.now) ip.now fault (members_seen object.old)) }
{
    put_ip(object, there, ip)?;
    object.text("malformed", malformed_name(fault))
}

impl JsonJob {
    // Puts a packet, with the number of its flow.
    fn put_numbered(
        &mut self,
        object: &mut Object,
        there: &Datagram<'_>,
        packet: &Packet<'_>,
        ip: &[u8],
    ) -> Result<(), NoMemory>
        requires low { 8 ≤ length there.now.bytes.now }
        requires high { length there.now.bytes.now ≤ 65535 }
        requires options { length packet.now.options.now ≤ 1008 }
        ensures told { OnOk result (members_seen object.new ≡ with_judged self.old.payload (flow_number_of self.old.seen (HoldsPacket (carried_by there.now) (parts_by packet.now)))
            ip.now (HoldsPacket (carried_by there.now) (parts_by packet.now)) (members_seen object.old)) }
        ensures next { OnOk result (self.new ≡ telling_with self.old (HoldsPacket (carried_by there.now) (parts_by packet.now))) }
    {
        let header = &packet.header;
        let flow = self.flows.number(&there.pseudo, header.from, header.to)?;
        put_ip(object, there, ip)?;
        object.number("flow", flow)?;
        put_packet(object, self.payload, there, packet)
    }

    // Puts what an IP packet holds.
    fn put_judged(&mut self, object: &mut Object, ip: &[u8]) -> Result<(), NoMemory>
        ensures told { OnOk result (members_seen object.new ≡ with_judged self.old.payload (flow_number_of self.old.seen (judged_ip ip.now)) ip.now (judged_ip ip.now) (members_seen object.old)) }
        ensures next { OnOk result (self.new ≡ telling_with self.old (judged_ip ip.now)) }
    {
        let Some(there) = carried(RAW_IP, ip) else {
            return put_skip(object, ip_skip(ip));
        };
        match decode(there.bytes) {
            Ok(packet) => self.put_numbered(object, &there, &packet, ip),
            Err(fault) if there.whole => put_malformed(object, &there, ip, fault),
            Err(_) => put_skip(object, Skip::CutShort),
        }
    }

    // The object of a record.
    #[tactic(auto, unfolding(crate::specs::Objects::record_members))]
    fn object_of(&mut self, item: &Record<'_>) -> Result<Object, NoMemory>
        ensures told { IfOk result (λ o. members_seen o ≡ told_members (record_told self.old (entry_of item.now))) }
        ensures next { OnOk result (self.new ≡ telling_after self.old (entry_of item.now)) }
    {
        let mut object = Object::new(self.alloc);
        put_stamp(&mut object, item)?;
        let packet = ip_packet(self.alloc, item.link, item.bytes)?;
        self.put_judged(&mut object, packet.bytes())?;
        Ok(object)
    }

    /// Puts the line of a record.
    pub(crate) fn put_record(
        &mut self,
        text: &mut Vec<u8>,
        item: &Record<'_>,
    ) -> Result<(), NoMemory>
        ensures told { OnOk result (text.new.items ≡ text.old.items ++ told_line (record_told self.old (entry_of item.now))) }
        ensures next { OnOk result (self.new ≡ telling_after self.old (entry_of item.now)) }
    {
        let object = self.object_of(item)?;
        object.put_line(text)
    }
}
