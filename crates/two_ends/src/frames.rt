//! Frames that were sent.
ghost use Rattle.std.specs.Prelude.{◌≡◌, ◌≤◌, ◌++◌, [], length, OnOk};
ghost use Rattle.two_ends.specs.World.{HasPlace, HasRoomForFrame, as_sent};

use dccp_packets::{MOST_FRAME_BYTES, Outbox};
use seq_circle::{NoMemory, Seq48};
use smallvec::SmallVec;
use std::alloc::Global;
use std::marker::Model;
use std::mem;

// A frame of no more bytes, as most are, takes no separate block.
const FEW_BYTES: usize = 48;

/// The bytes of a frame that was sent, at most 2,044. Contracts see the list of bytes.
#[derive(Drop)]
pub struct FrameBytes {
    bytes: SmallVec<u8, FEW_BYTES>,
}

impl Model for FrameBytes {
    ghost use Rattle.std.specs.Prelude.{List, ℕ, ◌≤◌, length};

    ghost Value = { List ℕ };

    ghost view = { λ f. f.bytes.items };

    ghost invariant = { λ f. length f.bytes.items ≤ 2044 };
}

impl FrameBytes {
    /// The bytes, at most 2,044.
    pub fn as_slice(&self) -> &[u8]
        ensures value { result.now ≡ self.now }
        ensures fits { length result.now ≤ 2044 }
    {
        self.bytes.as_slice()
    }
}

/// A frame that was sent, with its numbers in full (RFC 4340, section 7.6).
#[derive(Drop)]
pub struct SentFrame {
    pub bytes: FrameBytes,
    /// Its sequence number.
    pub number: Seq48,
    /// Its acknowledgement number, or None exactly for the types that have none.
    pub ack: Option<Seq48>,
    /// How many numbers its sender had processed, the packet of the same step included.
    pub processed: u64,
    /// Its sender's floor then: the least number that its Ack Vector may report.
    pub floor: Seq48,
}

/// Takes all memory that keeping one more frame may need: a place in the list, and room for a frame of any length in
/// the spare block.
#[inline(always)]
pub(crate) fn take_memory(frames: &mut Vec<SentFrame>, spare: &mut Vec<u8>) -> Result<(), NoMemory>
    requires empty { spare.old.items ≡ [] }
    ensures same { frames.new.items ≡ frames.old.items }
    ensures still_empty { spare.new.items ≡ [] }
    ensures place { OnOk result (HasPlace frames.new) }
    ensures room { OnOk result (HasRoomForFrame spare.new) }
{
    if frames.len() == frames.capacity() {
        frames.reserve(1)?;
    }
    if spare.capacity() < MOST_FRAME_BYTES {
        spare.reserve(MOST_FRAME_BYTES)?;
    }
    Ok(())
}

/// Keeps the frame that a step sent, if any, in memory that was taken before the step: a place in the list, and the
/// spare block if a long frame gets no block of its own.
#[inline(always)]
pub(crate) fn keep_frame(
    alloc: Global,
    frames: &mut Vec<SentFrame>,
    spare: &mut Vec<u8>,
    out: &Outbox,
    processed: u64,
    floor: Seq48,
)
    requires place { HasPlace frames.old }
    requires room { HasRoomForFrame spare.old }
    requires empty { spare.old.items ≡ [] }
    ensures sent { frames.new.items ≡ frames.old.items ++ as_sent processed floor out.now }
    ensures still_empty { spare.new.items ≡ [] }
{
    match out.sent() {
        Some(_) => keep_sent(alloc, frames, spare, out, processed, floor),
        None => {}
    }
}

// The same, as a separate function, so that a step which sent nothing costs no call.
#[inline(never)]
fn keep_sent(
    alloc: Global,
    frames: &mut Vec<SentFrame>,
    spare: &mut Vec<u8>,
    out: &Outbox,
    processed: u64,
    floor: Seq48,
)
    requires place { HasPlace frames.old }
    requires room { HasRoomForFrame spare.old }
    requires empty { spare.old.items ≡ [] }
    ensures sent { frames.new.items ≡ frames.old.items ++ as_sent processed floor out.now }
    ensures still_empty { spare.new.items ≡ [] }
{
    let Some(sent) = out.sent() else { return };
    let bytes = copied(alloc, sent.bytes, spare);
    let frame = SentFrame {
        bytes,
        number: sent.number,
        ack: sent.ack,
        processed,
        floor,
    };
    match frames.push(frame) {
        Ok(()) => {}
        Err(_) => unreachable!(),
    }
}

// The bytes; if they are many, in a separate block, or in the spare one if there is no other.
fn copied(alloc: Global, bytes: &[u8], spare: &mut Vec<u8>) -> FrameBytes
    requires room { HasRoomForFrame spare.old }
    requires empty { spare.old.items ≡ [] }
    requires fits { length bytes.now ≤ 2044 }
    ensures value { result ≡ bytes.now }
    ensures still_empty { spare.new.items ≡ [] }
{
    let mut kept = SmallVec::new(alloc);
    match kept.extend_from_slice(bytes) {
        Ok(()) => FrameBytes { bytes: kept },
        Err(_) => in_spare(alloc, bytes, spare),
    }
}

// The bytes in the spare block, since there was no other.
fn in_spare(alloc: Global, bytes: &[u8], spare: &mut Vec<u8>) -> FrameBytes
    requires room { HasRoomForFrame spare.old }
    requires empty { spare.old.items ≡ [] }
    requires fits { length bytes.now ≤ 2044 }
    ensures value { result ≡ bytes.now }
    ensures still_empty { spare.new.items ≡ [] }
{
    let mut block = mem::replace(spare, Vec::new(alloc));
    match block.extend_from_slice(bytes) {
        Ok(()) => FrameBytes {
            bytes: SmallVec::from_vec(block),
        },
        Err(_) => unreachable!(),
    }
}
