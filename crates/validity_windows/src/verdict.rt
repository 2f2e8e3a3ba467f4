//! The verdict on a packet's numbers.
ghost use Rattle.std.specs.Prelude.{◌≡◌, ◌≢◌, is_some};
ghost use Rattle.validity_windows.specs.Windows.{InRange, windows, ack_low, ack_high};
ghost use Rattle.dccp_packets.specs.Kinds.{has_ack};
ghost use Rattle.validity_windows.specs.Verdict.{is_ack_within, is_in_window, is_after_greatest, is_not_old, by_window, by_greatest, by_low_end, verdict, gar_after, taken};
ghost use Rattle.validity_windows.specs.declared.verdict.Verdict.TheVariants.{Valid};

use crate::{Marks, Windows};
use dccp_packets::PacketType;
use seq_circle::Seq48;

/// An end's verdict on a packet's numbers.
#[derive(Clone, Copy, Debug, PartialEq, Eq)]
pub enum Verdict {
    /// They are valid.
    Valid,
    /// They are not, and a Sync that acknowledges this number answers the packet.
    SyncFor(Seq48),
    /// They are not, and the packet is dropped.
    Drop,
}

// Whether the acknowledgement number, if there is one, lies in this interval.
fn is_ack_within(ack: Option<Seq48>, low: Seq48, high: Seq48) -> bool
    ensures { result ≡ is_ack_within low high ack }
{
    match ack {
        Some(ack) => ack.within(low, high),
        None => true,
    }
}

// The greatest acknowledgement number received, this packet's included; that of a Sync does not count.
pub(crate) fn gar_after(gar: Seq48, kind: PacketType, ack: Option<Seq48>) -> Seq48
    ensures { result ≡ gar_after gar kind ack }
{
    match (kind, ack) {
        (PacketType::Sync, _) | (_, None) => gar,
        (_, Some(ack)) => gar.max_of(ack),
    }
}

impl Marks {
    /// The windows of valid numbers (RFC 4340, section 7.5.1), with W the width `peer_w` and W' the width `own_w`: SWL
    /// is the later of GSR + 1 - floor(W/4) and ISR, SWH is GSR + ceil(3W/4), AWL is the later of GSS + 1 - W' and ISS,
    /// and AWH is GSS. Both widths lie in 32 to 2^46 - 1. Before the first packet was sent, AWL is ISS and AWH is ISS -
    /// 1, so every acknowledgement number is in the window. Check no packet before that (own).
    pub fn windows(&self) -> Windows
        requires { InRange self.now }
        ensures { result ≡ windows self.now }
    {
        Windows {
            swl: self.gsr.next().sub(self.peer_w / 4).max_of(self.isr),
            swh: self.gsr.add((3 * self.peer_w + 3) / 4),
            awl: self.gss.next().sub(self.own_w).max_of(self.iss),
            awh: self.gss,
        }
    }

    // The rule for data, acknowledgements and the opening types.
    fn by_window(&self, number: Seq48, ack: Option<Seq48>) -> Verdict
        requires { InRange self.now }
        ensures { result ≡ by_window self.now number ack }
    {
        let windows = self.windows();
        if number.within(windows.swl, windows.swh) && self.acknowledges(ack) {
            Verdict::Valid
        } else {
            Verdict::SyncFor(number)
        }
    }

    // The rule for what ends a connection. A Sync for numbers that are not valid acknowledges `answer`.
    fn by_greatest(&self, number: Seq48, ack: Option<Seq48>, answer: Seq48) -> Verdict
        requires { InRange self.now }
        ensures { result ≡ by_greatest self.now number ack answer }
    {
        let windows = self.windows();
        if number.within(self.gsr.next(), windows.swh)
            && is_ack_within(ack, self.gar, windows.awh)
        {
            Verdict::Valid
        } else {
            Verdict::SyncFor(answer)
        }
    }

    // The rule for Sync and SyncAck, which bring the numbers back in step.
    fn by_low_end(&self, number: Seq48, ack: Option<Seq48>) -> Verdict
        requires { InRange self.now }
        ensures { result ≡ by_low_end self.now number ack }
    {
        let windows = self.windows();
        if number.within(windows.swl, windows.swl.open_end()) && self.acknowledges(ack) {
            Verdict::Valid
        } else {
            Verdict::Drop
        }
    }

    /// Whether an acknowledgement number, if there is one, is that of a packet that this end sent lately: it lies in
    /// AWL to AWH (RFC 4340, section 7.5.1). An end in REQUEST asks this of a Response or Reset, since the peer's
    /// numbers are not known yet. The widths are in range, and at least one packet was sent.
    pub fn acknowledges(&self, ack: Option<Seq48>) -> bool
        requires { InRange self.now }
        ensures { result ≡ is_ack_within (ack_low self.now) (ack_high self.now) ack }
    {
        let windows = self.windows();
        is_ack_within(ack, windows.awl, windows.awh)
    }

    /// The verdict on a packet of this type with these numbers (RFC 4340, section 7.5.3). The widths are in range,
    /// `ack` is there exactly for the types that have an acknowledgement number (`PacketType::has_ack`), and at least
    /// one packet was sent and one received, possibly this one.
    ///
    /// | Types | Valid where | Otherwise |
    /// |---|---|---|
    /// | Request, Response, Data, Ack, DataAck | SWL to SWH, acknowledging AWL to AWH | SyncFor the packet's number |
    /// | CloseReq, Close | after GSR and up to SWH, acknowledging GAR to AWH | SyncFor the packet's number |
    /// | Reset | the same | SyncFor GSR |
    /// | Sync, SyncAck | from SWL on, less than half the circle, acknowledging AWL to AWH | Drop |
    ///
    /// A packet without an acknowledgement number is judged by its number alone. For sound marks the intervals are
    /// those of whole numbers, wherever the circle's end lies (`verdicts_are_those_of_whole_numbers`).
    #[inline(always)]
    pub fn check(&self, kind: PacketType, number: Seq48, ack: Option<Seq48>) -> Verdict
        requires in_range { InRange self.now }
        requires ack { is_some ack ≡ has_ack kind }
        ensures { result ≡ verdict self.now kind number ack }
    {
        match kind {
            PacketType::Request
            | PacketType::Response
            | PacketType::Data
            | PacketType::Ack
            | PacketType::DataAck => self.by_window(number, ack),
            PacketType::CloseReq | PacketType::Close => self.by_greatest(number, ack, number),
            PacketType::Reset => self.by_greatest(number, ack, self.gsr),
            PacketType::Sync | PacketType::SyncAck => self.by_low_end(number, ack),
        }
    }

    /// Takes the numbers of a packet that `check` calls Valid: GSR becomes the later of itself and the number, and GAR
    /// the later of itself and the acknowledgement number, unless the packet is a Sync (RFC 4340, section 7.1). A Reset
    /// is never taken (own): it moves neither. The conditions of `check` hold here too.
    pub fn take(&mut self, kind: PacketType, number: Seq48, ack: Option<Seq48>)
        requires in_range { InRange self.old }
        requires ack { is_some ack ≡ has_ack kind }
        requires valid { verdict self.old kind number ack ≡ Valid }
        requires no_reset { kind ≢ PacketType.Reset }
        ensures { self.new ≡ taken self.old kind number ack }
    {
        self.gsr = self.gsr.max_of(number);
        self.gar = gar_after(self.gar, kind, ack);
    }
}
