//! Which packets of a listener's flows were reported as dropped, and why.
ghost use Rattle.std.specs.Prelude.{◌≡◌};
ghost use Rattle.dccp_server.specs.FlowDrops.{flow_drop_code, flow_record_after, flow_recorded};

use circular_buffer::HeapCircularBuffer;
use dccp_endpoint::{DecodedDatagram, NoMemory, Seq48};
use dccp_listener::Peer;
use dccp_uses::{DropLog, DropMark, MOST_DROPS, Reader, last_code, record_heard};
use server_peers::is_peer;
use std::alloc::Global;
use std::marker::Model;

/// Data to a peer that were dropped. No call gives one out; contracts speak of them.
#[derive(Clone, Copy)]
pub struct FlowDrop {
    /// The peer.
    pub peer: Peer,
    /// The number of the packet whose data they were.
    pub number: Seq48,
    /// The Drop Code (RFC 4340, section 11.7).
    pub code: u8,
}

/// The last 2,048 packets that the peers of a listener have reported as dropped, and why. It is what `DropRecord` of
/// dccp_uses is for a single end (RFC 4340, section 11.7; own). Only `new` takes memory. Contracts see the list of its
/// drops, the oldest first.
#[derive(Drop)]
pub struct FlowDropRecord {
    drops: HeapCircularBuffer<FlowDrop>,
}

impl Model for FlowDropRecord {
    ghost use Rattle.std.specs.Prelude.{◌≡◌, List};
    ghost use Rattle.dccp_server.specs.declared.flow_drops.FlowDrop.{FlowDrop};

    ghost Value = { List FlowDrop };

    ghost view = { λ it. it.drops.items };

    ghost invariant = { λ it. it.drops.capacity ≡ 2048 };
}

impl FlowDropRecord {
    ghost use Rattle.std.specs.Prelude.{◌≡◌, [], IfOk};

    /// An empty record. NoMemory if there is no block for 2,048 drops.
    pub fn new(alloc: Global) -> Result<FlowDropRecord, NoMemory>
        ensures { IfOk result (λ it. it ≡ []) }
    {
        let Ok(drops) = HeapCircularBuffer::with_capacity(alloc, MOST_DROPS) else {
            return Err(NoMemory);
        };
        Ok(FlowDropRecord { drops })
    }

    /// A peer's flow has heard this datagram. `before` and `after` are what was known of its reader before and after
    /// that (`Path::reader` of its `Upkeep`).
    pub fn heard(
        &mut self,
        peer: Peer,
        before: &Reader,
        after: &Reader,
        datagram: &DecodedDatagram<'_>,
    )
        ensures { self.new ≡ flow_record_after peer before.now.counted after.now.counted datagram.now self.old }
    {
        record_heard(self, peer, before, after, datagram);
    }

    /// The Drop Code of the packet to a peer with this number, 0 to 7 (RFC 4340, section 11.7), or None if none is
    /// recorded. It looks through the whole record.
    pub fn code(&self, peer: Peer, number: Seq48) -> Option<u8>
        ensures { result ≡ flow_drop_code self.now peer number }
    {
        last_code(&self.drops, peer, number)
    }
}

impl DropLog for FlowDropRecord {
    type Key = Peer;

    ghost recorded = { flow_recorded };

    fn note(&mut self, peer: Peer, number: Seq48, code: u8) {
        self.drops.push_back(FlowDrop { peer, number, code });
    }
}

impl DropMark for FlowDrop {
    ghost use Rattle.std.specs.Prelude.{◌==◌, ◌&&◌};
    ghost use Rattle.dccp_listener.specs.Peers.{is_peer};

    type Key = Peer;

    ghost is_meant = { λ peer number it. is_peer peer it.peer && it.number == number };

    ghost code_kept = { λ it. it.code };

    fn is_of(&self, peer: Peer, number: Seq48) -> bool {
        is_peer(peer, self.peer) && self.number == number
    }

    fn code(&self) -> u8 {
        self.code
    }
}
