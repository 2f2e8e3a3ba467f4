//! The line of a packet.
#![tactic(auto, using(tool_text::proofs::Keeping::keeps_itself, tool_text::proofs::Keeping::keeps_on))]

ghost use Rattle.std.specs.Prelude.{◌≡◌, ◌≤◌, ◌++◌, length, OnOk};
ghost use Rattle.capture_reader.specs.Records.{entry_of};
ghost use Rattle.tool_text.specs.Text.{Keeps};
ghost use Rattle.packet_show.specs.Network.{carried_by};
ghost use Rattle.packet_show.specs.Text.{ack_text, code_text, kind_text};
ghost use Rattle.packet_show.specs.Lines.{body_text, stamp_text, sender_text, receiver_text, header_text, sum_text, rest_text, packet_line, malformed_line, parts_by, words_text};

use crate::names::{sum_name, type_name};
use crate::network::Datagram;
use crate::numbers::{put_fraction, put_from, put_sequence, put_to};
use crate::options::put_options;
use capture_reader::Record;
use dccp_packets::{Header, Kind, Malformed, Number, Packet};
use dccp_sum::check;
use seq_circle::NoMemory;
use tool_text::{malformed_name, put, put_counted, put_named, put_number};

fn put_stamp(text: &mut Vec<u8>, item: &Record<'_>) -> Result<(), NoMemory>
    ensures ok { OnOk result (text.new.items ≡ text.old.items ++ stamp_text (entry_of item.now)) }
    ensures front { Keeps text.old.items text.new.items }
{
    put_number(text, item.number)?;
    put_counted(text, b" ", u64::from(item.seconds))?;
    put(text, b".")?;
    put_fraction(text, item.nanos, item.fraction)
}

// Puts the flow's number, and the end that sends the packet.
fn put_sender(
    text: &mut Vec<u8>,
    there: &Datagram<'_>,
    port: u16,
    flow: u64,
) -> Result<(), NoMemory>
    ensures ok { OnOk result (text.new.items ≡ text.old.items ++ sender_text (carried_by there.now) port flow) }
    ensures front { Keeps text.old.items text.new.items }
{
    put_counted(text, b" flow ", flow)?;
    put(text, b" ")?;
    put_from(text, &there.pseudo)?;
    put_counted(text, b" ", u64::from(port))
}

// Puts the end that receives the packet.
fn put_receiver(text: &mut Vec<u8>, there: &Datagram<'_>, port: u16) -> Result<(), NoMemory>
    ensures ok { OnOk result (text.new.items ≡ text.old.items ++ receiver_text (carried_by there.now) port) }
    ensures front { Keeps text.old.items text.new.items }
{
    put(text, b" > ")?;
    put_to(text, &there.pseudo)?;
    put_counted(text, b" ", u64::from(port))
}

fn put_ack(text: &mut Vec<u8>, ack: Number) -> Result<(), NoMemory>
    ensures ok { OnOk result (text.new.items ≡ text.old.items ++ ack_text ack) }
    ensures front { Keeps text.old.items text.new.items }
{
    put_sequence(text, b" ack ", ack)
}

// Puts a Reset's code and its bytes Data 1 to 3.
fn put_code(text: &mut Vec<u8>, code: u8, detail: [u8; 3]) -> Result<(), NoMemory>
    ensures ok { OnOk result (text.new.items ≡ text.old.items ++ code_text code detail) }
    ensures front { Keeps text.old.items text.new.items }
{
    put_counted(text, b" code ", u64::from(code))?;
    put_counted(text, b" ", u64::from(detail[0]))?;
    put_counted(text, b" ", u64::from(detail[1]))?;
    put_counted(text, b" ", u64::from(detail[2]))
}

// Puts the fields that only this type carries.
fn put_kind(text: &mut Vec<u8>, kind: &Kind) -> Result<(), NoMemory>
    ensures ok { OnOk result (text.new.items ≡ text.old.items ++ kind_text kind.now) }
    ensures front { Keeps text.old.items text.new.items }
{
    match *kind {
        Kind::Request { service } => put_counted(text, b" service ", u64::from(service)),
        Kind::Response { ack, service } => {
            put_ack(text, Number::Long(ack))?;
            put_counted(text, b" service ", u64::from(service))
        }
        Kind::Data => Ok(()),
        Kind::Ack { ack } | Kind::DataAck { ack } => put_ack(text, ack),
        Kind::CloseReq { ack } | Kind::Close { ack } | Kind::Sync { ack } | Kind::SyncAck { ack } =>
            put_ack(text, Number::Long(ack)),
        Kind::Reset { ack, code, detail } => {
            put_ack(text, Number::Long(ack))?;
            put_code(text, code, detail)
        }
    }
}

fn put_header(text: &mut Vec<u8>, header: &Header) -> Result<(), NoMemory>
    ensures ok { OnOk result (text.new.items ≡ text.old.items ++ header_text header.now) }
    ensures front { Keeps text.old.items text.new.items }
{
    put_named(text, b" ", type_name(header.kind.packet_type()))?;
    put_sequence(text, b" seq ", header.number)?;
    put_kind(text, &header.kind)
}

fn put_sum(text: &mut Vec<u8>, there: &Datagram<'_>) -> Result<(), NoMemory>
    requires low { 8 ≤ length there.now.bytes.now }
    requires high { length there.now.bytes.now ≤ 65535 }
    ensures ok { OnOk result (text.new.items ≡ text.old.items ++ sum_text (carried_by there.now)) }
    ensures front { Keeps text.old.items text.new.items }
{
    put(text, b" sum ")?;
    if there.whole {
        return put(text, sum_name(check(&there.pseudo, there.bytes)));
    }
    put(text, b"unknown")
}

// Puts the options, and how many bytes of data are there.
fn put_body(text: &mut Vec<u8>, packet: &Packet<'_>) -> Result<(), NoMemory>
    requires { length packet.now.options.now ≤ 1008 }
    ensures ok { OnOk result (text.new.items ≡ text.old.items ++ body_text (parts_by packet.now)) }
    ensures front { Keeps text.old.items text.new.items }
{
    let is_data = packet.header.kind.packet_type().is_data();
    put_options(text, packet.options, is_data)?;
    put_counted(text, b" data ", packet.payload.len() as u64)
}

// Puts the options, how many bytes of data are there, and the verdict on the checksum.
fn put_rest(text: &mut Vec<u8>, there: &Datagram<'_>, packet: &Packet<'_>) -> Result<(), NoMemory>
    requires low { 8 ≤ length there.now.bytes.now }
    requires high { length there.now.bytes.now ≤ 65535 }
    requires options { length packet.now.options.now ≤ 1008 }
    ensures ok { OnOk result (text.new.items ≡ text.old.items ++ rest_text (carried_by there.now) (parts_by packet.now)) }
    ensures front { Keeps text.old.items text.new.items }
{
    put_body(text, packet)?;
    put_sum(text, there)?;
    put(text, b"\n")
}

/// Puts the line of a packet of the flow of this number, and a newline (own). NoMemory comes if the text could not
/// grow; then a prefix of the line may be there.
pub fn put_packet(
    text: &mut Vec<u8>,
    item: &Record<'_>,
    there: &Datagram<'_>,
    packet: &Packet<'_>,
    flow: u64,
) -> Result<(), NoMemory>
    requires low { 8 ≤ length there.now.bytes.now }
    requires high { length there.now.bytes.now ≤ 65535 }
    requires options { length packet.now.options.now ≤ 1008 }
    ensures ok { OnOk result (text.new.items ≡ text.old.items ++ packet_line (entry_of item.now) (carried_by there.now) (parts_by packet.now) flow) }
    ensures front { Keeps text.old.items text.new.items }
{
    put_stamp(text, item)?;
    put_sender(text, there, packet.header.from, flow)?;
    put_receiver(text, there, packet.header.to)?;
    put_header(text, &packet.header)?;
    put_rest(text, there, packet)?;
    Ok(())
}

/// Puts what a packet says (own): its type and its numbers, what the type carries, its options, and how many bytes of
/// data are there, each after a space. NoMemory comes if the text could not grow.
pub fn put_words(text: &mut Vec<u8>, packet: &Packet<'_>) -> Result<(), NoMemory>
    requires options { length packet.now.options.now ≤ 1008 }
    ensures ok { OnOk result (text.new.items ≡ text.old.items ++ words_text (parts_by packet.now)) }
    ensures front { Keeps text.old.items text.new.items }
{
    put_header(text, &packet.header)?;
    put_body(text, packet)
}

/// Puts the line of bytes that are no packet.
pub(crate) fn put_malformed(
    text: &mut Vec<u8>,
    item: &Record<'_>,
    fault: Malformed,
) -> Result<(), NoMemory>
    ensures ok { OnOk result (text.new.items ≡ text.old.items ++ malformed_line (entry_of item.now) fault) }
    ensures front { Keeps text.old.items text.new.items }
{
    put_stamp(text, item)?;
    put(text, b" malform")?;
    put_named(text, b"ed ", malformed_name(fault))?;
    put(text, b"\n")
}
