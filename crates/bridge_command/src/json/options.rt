//! Options as objects (RFC 4340, section 5.8; the names of members are own).
ghost use Rattle.std.specs.Prelude.{◌≡◌, ◌≤◌, ◌++◌, length, IfOk, OnOk, option_map};
ghost use Rattle.dccp_options.specs.Grammar.{options_of};
ghost use Rattle.dccp_options.specs.Left.{item_of};
ghost use Rattle.bridge_command.specs.Members.{listed, members_seen};
ghost use Rattle.bridge_command.specs.OptionObjects as spec;

use crate::json::objects::{Items, Object};
use dccp_options::{Opt, OptFault, kinds, options};
use packet_show::option_name;
use seq_circle::NoMemory;
use std::alloc::Global;

// The features that are not negotiable (RFC 4340, section 6.4).
const SEQUENCE_WINDOW: u8 = 3;

const ACK_RATIO: u8 = 5;

// How many bytes a Timestamp has.
const TIMESTAMP_SIZE: usize = 4;

// The number that bytes are, the most significant first; of more than eight, the last eight count.
fn number_of(bytes: &[u8]) -> u64
    ensures { result ≡ spec.number_after 0 bytes.now }
{
    let mut number = 0_u64;
    for byte in bytes {
        number = number.wrapping_mul(256).wrapping_add(u64::from(*byte));
    }
    number
}

// Puts bytes in hexadecimal, if there are any.
fn put_bytes(object: &mut Object, bytes: &[u8]) -> Result<(), NoMemory>
    ensures { OnOk result (members_seen object.new ≡ spec.with_bytes bytes.now (members_seen object.old)) }
{
    if bytes.is_empty() {
        return Ok(());
    }
    let text = hex::encode(object.alloc, bytes)?;
    object.string("bytes", &text)
}

// Puts each byte as a number at a list's end.
fn push_numbers(items: &mut Items, bytes: &[u8]) -> Result<(), NoMemory>
    ensures { OnOk result (listed items.new ≡ listed items.old ++ spec.byte_values bytes.now) }
{
    for byte in bytes {
        items.number(u64::from(*byte))?;
    }
    Ok(())
}

// Puts the values of a feature at a list's end.
fn push_values(items: &mut Items, feature: u8, values: &[u8]) -> Result<(), NoMemory>
    ensures { OnOk result (listed items.new ≡ listed items.old ++ spec.feature_values feature values.now) }
{
    if (feature == SEQUENCE_WINDOW || feature == ACK_RATIO) && !values.is_empty() {
        return items.number(number_of(values));
    }
    push_numbers(items, values)
}

// Puts a feature's number and values, if there is one.
fn put_feature(object: &mut Object, body: &[u8]) -> Result<(), NoMemory>
    ensures { OnOk result (members_seen object.new ≡ spec.with_feature body.now (members_seen object.old)) }
{
    match body {
        [] => Ok(()),
        [feature, values @ ..] => {
            let mut items = Items::new(object.alloc);
            push_values(&mut items, *feature, values)?;
            object.number("feature", u64::from(*feature))?;
            object.list("values", items)
        }
    }
}

// A run of an Ack Vector.
fn vector_run(alloc: Global, byte: u8) -> Result<Object, NoMemory>
    ensures { IfOk result (λ o. members_seen o ≡ spec.vector_run byte) }
{
    let mut object = Object::new(alloc);
    object.numbers(&[
        ("state", u64::from(byte / 64)),
        ("length", u64::from(byte % 64) + 1),
    ])?;
    Ok(object)
}

// A block of Data Dropped.
fn drop_block(alloc: Global, byte: u8) -> Result<Object, NoMemory>
    ensures { IfOk result (λ o. members_seen o ≡ spec.drop_block byte) }
{
    let mut object = Object::new(alloc);
    if byte < 128 {
        object.number("length", u64::from(byte % 128) + 1)?;
        return Ok(object);
    }
    object.numbers(&[
        ("length", u64::from(byte % 16) + 1),
        ("code", u64::from(byte / 16 % 8)),
    ])?;
    Ok(object)
}

// Puts the runs of an Ack Vector at a list's end.
fn push_runs(items: &mut Items, body: &[u8]) -> Result<(), NoMemory>
    ensures { OnOk result (listed items.new ≡ listed items.old ++ spec.vector_runs body.now) }
{
    for byte in body {
        items.object(vector_run(items.alloc, *byte)?)?;
    }
    Ok(())
}

// Puts the blocks of Data Dropped at a list's end.
fn push_blocks(items: &mut Items, body: &[u8]) -> Result<(), NoMemory>
    ensures { OnOk result (listed items.new ≡ listed items.old ++ spec.drop_blocks body.now) }
{
    for byte in body {
        items.object(drop_block(items.alloc, *byte)?)?;
    }
    Ok(())
}

// Puts an Ack Vector of this nonce.
fn put_vector(object: &mut Object, nonce: u64, body: &[u8]) -> Result<(), NoMemory>
    ensures { OnOk result (members_seen object.new ≡ spec.with_vector nonce body.now (members_seen object.old)) }
{
    let mut runs = Items::new(object.alloc);
    push_runs(&mut runs, body)?;
    object.number("nonce", nonce)?;
    object.list("runs", runs)
}

// Puts Data Dropped.
fn put_drops(object: &mut Object, body: &[u8]) -> Result<(), NoMemory>
    ensures { OnOk result (members_seen object.new ≡ spec.with_drops body.now (members_seen object.old)) }
{
    let mut blocks = Items::new(object.alloc);
    push_blocks(&mut blocks, body)?;
    object.list("blocks", blocks)
}

// Puts a Timestamp Echo with the time that elapsed.
fn put_echo(object: &mut Object, body: &[u8]) -> Result<(), NoMemory>
    requires { 4 ≤ length body.now }
    ensures { OnOk result (members_seen object.new ≡ spec.with_echo body.now (members_seen object.old)) }
{
    object.numbers(&[
        ("timestamp", number_of(&body[..TIMESTAMP_SIZE])),
        ("elapsed", number_of(&body[TIMESTAMP_SIZE..])),
    ])
}

// The name of the number that an option of this type is, if it has this many bytes.
fn number_name(kind: u8, size: usize) -> Option<&'static str>
    ensures { option_map (λ name. name.now) result ≡ spec.number_name kind size }
{
    match kind {
        kinds::NDP_COUNT if 1 <= size && size <= 6 => Some("count"),
        kinds::TIMESTAMP | kinds::TIMESTAMP_ECHO if size == 4 => Some("timestamp"),
        kinds::ELAPSED_TIME if size == 2 || size == 4 => Some("elapsed"),
        kinds::DATA_CHECKSUM if size == 4 => Some("checksum"),
        _ => None,
    }
}

// Puts such a number, or else the bytes.
fn put_number_or_bytes(object: &mut Object, kind: u8, body: &[u8]) -> Result<(), NoMemory>
    ensures { OnOk result (members_seen object.new ≡ spec.with_number_or_bytes (spec.number_name kind (length body.now)) body.now (members_seen object.old)) }
{
    match number_name(kind, body.len()) {
        Some(name) => object.number(name, number_of(body)),
        None => put_bytes(object, body),
    }
}

// Puts what an option carries.
#[tactic(auto, unfolding(crate::specs::OptionObjects::with_fields))]
fn put_fields(object: &mut Object, kind: u8, body: &[u8]) -> Result<(), NoMemory>
    ensures { OnOk result (members_seen object.new ≡ spec.with_fields kind body.now (members_seen object.old)) }
{
    match kind {
        kinds::CHANGE_L..=kinds::CONFIRM_R => put_feature(object, body),
        kinds::ACK_VECTOR_0 => put_vector(object, 0, body),
        kinds::ACK_VECTOR_1 => put_vector(object, 1, body),
        kinds::DATA_DROPPED => put_drops(object, body),
        kinds::TIMESTAMP_ECHO if body.len() == 6 || body.len() == 8 => put_echo(object, body),
        _ => put_number_or_bytes(object, kind, body),
    }
}

// Puts an option.
fn put_option(object: &mut Object, option: &Opt<'_>) -> Result<(), NoMemory>
    ensures { OnOk result (members_seen object.new ≡ spec.with_option option.now.kind option.now.mandatory option.now.body.now (members_seen object.old)) }
{
    object.number("type", u64::from(option.kind))?;
    object.string("name", option_name(option.kind))?;
    object.truth("mandatory", option.mandatory)?;
    put_fields(object, option.kind, option.body)
}

// The object of an option, or of the fault of Mandatory that ends the options.
#[tactic(auto, unfolding(crate::specs::OptionObjects::option_members))]
fn option_object(alloc: Global, item: &Result<Opt<'_>, OptFault>) -> Result<Object, NoMemory>
    ensures { IfOk result (λ o. members_seen o ≡ spec.option_members (item_of item.now)) }
{
    let mut object = Object::new(alloc);
    match item {
        Ok(option) => put_option(&mut object, option)?,
        Err(_) => object.string("fault", "mandatory")?,
    }
    Ok(object)
}

/// Puts the options of an area at a list's end, of which some are ignored on Data packets.
pub(crate) fn push_options(items: &mut Items, area: &[u8], on_data: bool) -> Result<(), NoMemory>
    requires { length area.now ≤ 1008 }
    ensures { OnOk result (listed items.new ≡ listed items.old ++ spec.option_values (options_of area.now on_data)) }
{
    for item in options(area, on_data) {
        items.object(option_object(items.alloc, &item)?)?;
    }
    Ok(())
}
