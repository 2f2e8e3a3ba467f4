//! What a record of a capture says, as words of a picture.
ghost use Rattle.std.specs.Prelude.{◌≡◌, ◌≤◌, ◌++◌, length, OnOk};
ghost use Rattle.capture_reader.specs.Records.{entry_of};
ghost use Rattle.packet_show.specs.Lines.{parts_by};
ghost use Rattle.bridge_pictures.specs.Stamps as spec;

use crate::svg::{Snippet, put_snippets};
use capture_reader::Record;
use dccp_packets::Packet;
use packet_show::put_words;
use seq_circle::NoMemory;

fn milliseconds(nanos: bool, fraction: u32) -> u32
    ensures value { result ≡ spec.milliseconds nanos fraction }
    ensures low { result ≤ 999 }
{
    if nanos {
        return (fraction / 1_000_000).min(999);
    }
    (fraction / 1_000).min(999)
}

fn three_digits(number: u32) -> [u8; 3]
    requires { number ≤ 999 }
    ensures { result ≡ spec.three_digits number }
{
    let hundreds = b'0' + (number / 100) as u8;
    let tens = b'0' + (number / 10 % 10) as u8;
    let ones = b'0' + (number % 10) as u8;
    [hundreds, tens, ones]
}

/// Puts a record's number and its time, down to milliseconds. NoMemory comes if no memory was left, here and below.
#[tactic(auto, unfolding(crate::specs::Stamps::stamp))]
pub(crate) fn put_stamp(text: &mut Vec<u8>, item: &Record<'_>) -> Result<(), NoMemory>
    ensures { OnOk result (text.new.items ≡ text.old.items ++ spec.stamp (entry_of item.now)) }
{
    let fraction = three_digits(milliseconds(item.nanos, item.fraction));
    put_snippets(
        text,
        &[
            Snippet::Number(item.number),
            Snippet::Plain(b" "),
            Snippet::Number(u64::from(item.seconds)),
            Snippet::Plain(b"."),
            Snippet::Plain(&fraction),
        ],
    )
}

/// Puts a record's number and time, and what the packet in it says.
#[tactic(auto, unfolding(crate::specs::Stamps::record_words))]
pub(crate) fn put_record_words(
    text: &mut Vec<u8>,
    item: &Record<'_>,
    packet: &Packet<'_>,
) -> Result<(), NoMemory>
    requires { length packet.now.options.now ≤ 1008 }
    ensures { OnOk result (text.new.items ≡ text.old.items ++ spec.record_words (entry_of item.now) (parts_by packet.now)) }
{
    put_stamp(text, item)?;
    put_words(text, packet)
}
