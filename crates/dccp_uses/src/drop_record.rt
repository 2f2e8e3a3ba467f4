//! Which packets were reported as dropped, and why.
ghost use Rattle.std.specs.Prelude.{◌≡◌, ℕ, Bool, None, Some};
ghost use Rattle.data_dropped.specs.Drops.{drop_code, last_code};
ghost use Rattle.dccp_packets.specs.Grammar.{decoded};
ghost use Rattle.dccp_uses.specs.DropRecord.{drop_recorded, packet_recorded, record_after, report_recorded};

use crate::Reader;
use crate::notice::new_reach;
use circular_buffer::HeapCircularBuffer;
use data_dropped::{DropEntry, DropReport};
use dccp_endpoint::{DecodedDatagram, NoMemory, Seq48};
use dccp_options::options;
use std::alloc::Global;
use std::marker::Model;

/// How many drops a record keeps (own).
pub const MOST_DROPS: usize = 2048;

/// A record of packets that were reported as dropped, of one end or of several, each of which has a key (own).
pub trait DropLog {
    /// The key of an end.
    type Key: Copy;

    // A drop of the end with this key is recorded: its number, and its code.
    ghost recorded: { Self.Key → ℕ → ℕ → Self → Self };

    /// Adds one more drop, which may replace the oldest.
    fn note(&mut self, key: Self::Key, number: Seq48, code: u8)
        ensures { self.new ≡ recorded key number code self.old };
}

/// A drop as a record keeps it (own).
pub trait DropMark {
    /// The key of an end.
    type Key: Copy;

    // It is of this number's packet of the end with this key.
    ghost is_meant: { Self.Key → ℕ → Self → Bool };

    // Its Drop Code.
    ghost code_kept: { Self → ℕ };

    /// Whether it is of this number's packet of the end with this key.
    fn is_of(&self, key: Self::Key, number: Seq48) -> bool
        ensures { result ≡ is_meant key number self.now };

    /// Its Drop Code.
    fn code(&self) -> u8
        ensures { result ≡ code_kept self.now };
}

// The drops that a report is the first to name.
fn record_report<L: DropLog>(
    log: &mut L,
    key: L::Key,
    counted: Option<Seq48>,
    ack: Seq48,
    report: &DropReport<'_>,
)
    requires { report.now.ack ≡ ack }
    ensures { log.new ≡ report_recorded (L.recorded key) counted (Some report.now) log.old }
{
    let mut number = ack;
    let mut left = new_reach(counted, ack);
    while 0 < left {
        if let Some(code) = report.code(number) {
            log.note(key, number, code);
        }
        number = number.sub(1);
        left -= 1;
    }
}

// The drops that a datagram, which reports from this number downwards, is the first to name.
fn record_datagram<L: DropLog>(
    log: &mut L,
    key: L::Key,
    counted: Option<Seq48>,
    ack: Seq48,
    datagram: &DecodedDatagram<'_>,
)
    ensures { log.new ≡ packet_recorded (L.recorded key) counted ack (decoded datagram.now) log.old }
{
    let Ok(packet) = datagram.packet() else {
        return;
    };
    let list = options(packet.options, packet.header.kind.packet_type().is_data());
    if let Some(report) = DropReport::of(ack, list) {
        record_report(log, key, counted, ack, &report);
    }
}

/// The end with this key has heard this datagram (RFC 4340, section 11.7). `before` and `after` are what was known of
/// its reader before and after that (`Path::reader`).
#[tactic(auto, using(crate::proofs::Numbering::nothing_new))]
pub fn record_heard<L: DropLog>(
    log: &mut L,
    key: L::Key,
    before: &Reader,
    after: &Reader,
    datagram: &DecodedDatagram<'_>,
)
    ensures { log.new ≡ record_after (L.recorded key) before.now.counted after.now.counted datagram.now log.old }
{
    let Some(ack) = after.counted else {
        return;
    };
    if new_reach(before.counted, ack) == 0 {
        return;
    }
    record_datagram(log, key, before.counted, ack, datagram);
}

/// The last 2,048 packets that a peer has reported as dropped, and why. The owner of a sender may ask this besides
/// `Endpoint::stands`, since a packet that was dropped counts there as one that came (RFC 4340, section 11.7; own). The
/// owner keeps a record for an end, whose rules have to heed its reader (`Pace::heeds`). Only `new` takes memory.
/// Contracts see the list of its drops, the oldest first.
#[derive(Drop)]
pub struct DropRecord {
    drops: HeapCircularBuffer<DropEntry>,
}

impl Model for DropRecord {
    ghost use Rattle.std.specs.Prelude.{◌≡◌, List};
    ghost use Rattle.data_dropped.specs.declared.drops.DropEntry.{DropEntry};

    ghost Value = { List DropEntry };

    ghost view = { λ it. it.drops.items };

    ghost invariant = { λ it. it.drops.capacity ≡ 2048 };
}

impl DropRecord {
    ghost use Rattle.std.specs.Prelude.{◌≡◌, [], IfOk};

    /// An empty record. NoMemory if there is no block for 2,048 drops.
    pub fn new(alloc: Global) -> Result<DropRecord, NoMemory>
        ensures { IfOk result (λ it. it ≡ []) }
    {
        let Ok(drops) = HeapCircularBuffer::with_capacity(alloc, MOST_DROPS) else {
            return Err(NoMemory);
        };
        Ok(DropRecord { drops })
    }

    /// An end has heard this datagram. `before` and `after` are what was known of its reader before and after that
    /// (`Path::reader`).
    pub fn heard(&mut self, before: &Reader, after: &Reader, datagram: &DecodedDatagram<'_>)
        ensures { self.new ≡ record_after drop_recorded before.now.counted after.now.counted datagram.now self.old }
    {
        record_heard(self, (), before, after, datagram);
    }

    /// The Drop Code of the packet with this number, 0 to 7 (RFC 4340, section 11.7), or None if none is recorded. It
    /// looks through the whole record.
    pub fn code(&self, number: Seq48) -> Option<u8>
        ensures { result ≡ drop_code self.now number }
    {
        last_code(&self.drops, (), number)
    }
}

impl DropLog for DropRecord {
    type Key = ();

    ghost recorded = { λ key. drop_recorded };

    fn note(&mut self, _key: (), number: Seq48, code: u8) {
        self.drops.push_back(DropEntry { number, code });
    }
}

impl DropMark for DropEntry {
    ghost use Rattle.std.specs.Prelude.{◌==◌};

    type Key = ();

    ghost is_meant = { λ key number it. it.number == number };

    ghost code_kept = { λ it. it.code };

    fn is_of(&self, _key: (), number: Seq48) -> bool {
        self.number == number
    }

    fn code(&self) -> u8 {
        self.code
    }
}

/// The code of the last of these drops that is of this number's packet of the end with this key.
pub fn last_code<D: DropMark>(
    drops: &HeapCircularBuffer<D>,
    key: D::Key,
    number: Seq48,
) -> Option<u8>
    ensures { result ≡ last_code (D.is_meant key number) D.code_kept None drops.now.items }
{
    let mut found = None;
    for drop in drops.iter() {
        if drop.is_of(key, number) {
            found = Some(drop.code());
        }
    }
    found
}
