//! The two forms of numbers: cut to their low 24 bits, and read in full by a reference.
ghost use Rattle.std.specs.Prelude.{◌≡◌, is_some};
ghost use Rattle.dccp_packets.specs.Forms.{may_be_short, near, ack_near, number_in_form, shortened, in_form};
ghost use Rattle.dccp_packets.specs.Grammar.{packet_type};
ghost use Rattle.dccp_packets.specs.Kinds.{has_ack};

use crate::{Kind, Number, PacketType};
use seq_circle::{Seq48, extend};

impl PacketType {
    /// Whether packets of this type may carry short numbers: only Data, Ack and DataAck may (RFC 4340, section 5.1).
    pub fn may_be_short(self) -> bool
        ensures { result ≡ may_be_short self }
    {
        self.has_form(false)
    }
}

impl Number {
    /// The number in this form. The short form has only its low 24 bits (RFC 4340, section 7.6).
    pub fn in_form(number: Seq48, short: bool) -> Number
        ensures { result ≡ number_in_form short number }
    {
        if short {
            Number::Short(number.low())
        } else {
            Number::Long(number)
        }
    }

    /// The number in full. A short form is read as a number near the reference: the one that was shortened, if that is
    /// not far from the reference (`seq_circle::extend`; RFC 4340, section 7.6).
    pub fn near(&self, reference: Seq48) -> Seq48
        ensures { result ≡ near reference self.now }
    {
        match *self {
            Number::Long(number) => number,
            Number::Short(short) => extend(short, reference),
        }
    }

    // The short form of the number.
    fn shortened(&self) -> Number
        ensures { result ≡ shortened self.now }
    {
        match *self {
            Number::Long(number) => Number::Short(number.low()),
            Number::Short(short) => Number::Short(short),
        }
    }
}

impl Kind {
    /// The acknowledgement number in full, as `Number::near` reads it, or None exactly for the types that have none
    /// (RFC 4340, sections 5.1 and 7.6).
    pub fn ack_near(&self, reference: Seq48) -> Option<Seq48>
        ensures value { result ≡ ack_near reference self.now }
        ensures by_type { is_some result ≡ has_ack (packet_type self.now) }
    {
        match self {
            Kind::Ack { ack } | Kind::DataAck { ack } => Some(ack.near(reference)),
            Kind::Request { .. }
            | Kind::Response { .. }
            | Kind::Data
            | Kind::CloseReq { .. }
            | Kind::Close { .. }
            | Kind::Reset { .. }
            | Kind::Sync { .. }
            | Kind::SyncAck { .. } => self.ack(),
        }
    }

    /// The same type and fields, as a packet has them whose sequence number has this form: the acknowledgement number
    /// of an Ack or a DataAck is cut to its low 24 bits if the sequence number is short. The other types have no short
    /// form, and are unchanged (RFC 4340, section 5.1).
    pub fn in_form(&self, short: bool) -> Kind
        ensures value { result ≡ in_form short self.now }
        ensures same_type { packet_type result ≡ packet_type self.now }
    {
        if !short {
            return *self;
        }
        match self {
            Kind::Ack { ack } => Kind::Ack {
                ack: ack.shortened(),
            },
            Kind::DataAck { ack } => Kind::DataAck {
                ack: ack.shortened(),
            },
            Kind::Request { .. }
            | Kind::Response { .. }
            | Kind::Data
            | Kind::CloseReq { .. }
            | Kind::Close { .. }
            | Kind::Reset { .. }
            | Kind::Sync { .. }
            | Kind::SyncAck { .. } => *self,
        }
    }
}
