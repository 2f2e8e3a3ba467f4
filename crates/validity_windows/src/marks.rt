//! The numbers by which an end judges a packet.
ghost use Rattle.std.specs.Prelude.{◌≡◌, is_some};
ghost use Rattle.dccp_packets.specs.Kinds.{has_ack};
ghost use Rattle.validity_windows.specs.Beginning.{new_marks, begun};

use crate::verdict::gar_after;
use dccp_packets::PacketType;
use seq_circle::Seq48;

/// The numbers that an end keeps of its connection (RFC 4340, section 7.1), and the widths of both windows, each in 32
/// to 2^46 - 1. They begin with `new`, and `begin` takes the first packet received. The caller numbers the packets that
/// it sends, and counts them in `gss`. The fields are public, so the range of the widths is a condition of the calls;
/// an end keeps it in its invariant.
#[derive(Clone, Copy, Debug, PartialEq, Eq)]
pub struct Marks {
    /// ISS, the first number sent.
    pub iss: Seq48,
    /// GSS, the greatest number sent; ISS - 1 before the first packet.
    pub gss: Seq48,
    /// GAR, the greatest acknowledgement number received, except for those of Syncs; ISS before that.
    pub gar: Seq48,
    /// ISR, the first number received; 0 before that (own).
    pub isr: Seq48,
    /// GSR, the greatest number received; 0 before the first (own).
    pub gsr: Seq48,
    /// OSR, the number of the packet that opened the connection at this end; ISR before that, and 0 before ISR (own).
    pub osr: Seq48,
    /// The width of the window of acknowledgement numbers: the feature Sequence Window of this end.
    pub own_w: u64,
    /// The width of the window of sequence numbers: the feature Sequence Window of the peer.
    pub peer_w: u64,
}

fn zero() -> Seq48
    ensures { result ≡ 0 }
{
    match Seq48::new(0) {
        Some(zero) => zero,
        None => unreachable!(),
    }
}

impl Marks {
    /// The marks of an end whose first packet will have the number `iss`, before any packet. Both windows have this
    /// width: the value with which the feature Sequence Window begins at both ends (RFC 4340, section 7.5.2).
    pub fn new(iss: Seq48, width: u64) -> Marks
        ensures { result ≡ new_marks iss width }
    {
        let unknown = zero();
        Marks {
            iss,
            gss: iss.sub(1),
            gar: iss,
            isr: unknown,
            gsr: unknown,
            osr: unknown,
            own_w: width,
            peer_w: width,
        }
    }

    /// Takes the first packet received: ISR, GSR and OSR become its number, and GAR the later of itself and the
    /// acknowledgement number (RFC 4340, section 8.5, steps 3 and 4). `ack` is there exactly for the types that have
    /// one.
    pub fn begin(&mut self, kind: PacketType, number: Seq48, ack: Option<Seq48>)
        requires { is_some ack ≡ has_ack kind }
        ensures { self.new ≡ begun self.old kind number ack }
    {
        self.isr = number;
        self.gsr = number;
        self.osr = number;
        self.gar = gar_after(self.gar, kind, ack);
    }
}

/// The four ends of the two windows (RFC 4340, section 7.5.1), each in its window.
#[derive(Clone, Copy, Debug, PartialEq, Eq)]
pub struct Windows {
    /// SWL, the least valid sequence number.
    pub swl: Seq48,
    /// SWH, the greatest valid sequence number.
    pub swh: Seq48,
    /// AWL, the least valid acknowledgement number.
    pub awl: Seq48,
    /// AWH, the greatest valid acknowledgement number.
    pub awh: Seq48,
}
