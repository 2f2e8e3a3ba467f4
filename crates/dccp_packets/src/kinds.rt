//! What the type and the fields of a packet say about it.
ghost use Rattle.std.specs.Prelude.{◌≡◌, is_some};
ghost use Rattle.dccp_packets.specs.Grammar.{packet_type};
ghost use Rattle.dccp_packets.specs.Kinds.{value_of, ack_of, has_ack, service_of, reset_code, is_data};
ghost use Rattle.dccp_packets.specs.Widths.{kind_in_widths};

use crate::{Kind, Number, PacketType};
use seq_circle::Seq48;

impl Number {
    /// The number as its bits spell it. A short form gives only its 24 bits, which `seq_circle::extend` completes.
    pub fn value(&self) -> Seq48
        ensures { result ≡ value_of self.now }
    {
        match *self {
            Number::Long(number) => number,
            Number::Short(number) => match Seq48::new(u64::from(number.get())) {
                Some(number) => number,
                None => unreachable!(),
            },
        }
    }
}

impl PacketType {
    /// Whether packets of this type have an acknowledgement number: all except Request and Data have one (RFC 4340,
    /// section 5.1).
    pub fn has_ack(self) -> bool
        ensures { result ≡ has_ack self }
    {
        !matches!(self, PacketType::Request | PacketType::Data)
    }

    /// Whether this is the type Data, on which some options are ignored (RFC 4340, section 5.8).
    pub fn is_data(self) -> bool
        ensures { result ≡ is_data self }
    {
        matches!(self, PacketType::Data)
    }
}

impl Kind {
    /// The acknowledgement number, or None exactly for the types that have none. A short form gives only its 24 bits,
    /// as `Number::value` does (RFC 4340, section 5.1). It fits the width of its field.
    #[tactic(auto, using(crate::proofs::ReadBack::ack_kept))]
    pub fn ack(&self) -> Option<Seq48>
        ensures value { result ≡ ack_of self.now }
        ensures by_type { is_some result ≡ has_ack (packet_type self.now) }
        ensures fits { result ≡ ack_of (kind_in_widths self.now) }
    {
        self.known_to_fit();
        match self {
            Kind::Request { .. } | Kind::Data => None,
            Kind::Ack { ack } | Kind::DataAck { ack } => Some(ack.value()),
            Kind::Response { ack, .. }
            | Kind::CloseReq { ack }
            | Kind::Close { ack }
            | Kind::Reset { ack, .. }
            | Kind::Sync { ack }
            | Kind::SyncAck { ack } => Some(*ack),
        }
    }

    /// The Service Code of a Request or a Response, or None exactly for the other types (RFC 4340, section 8.1.2).
    pub fn service(&self) -> Option<u32>
        ensures { result ≡ service_of self.now }
    {
        match *self {
            Kind::Request { service } | Kind::Response { service, .. } => Some(service),
            Kind::Data
            | Kind::Ack { .. }
            | Kind::DataAck { .. }
            | Kind::CloseReq { .. }
            | Kind::Close { .. }
            | Kind::Reset { .. }
            | Kind::Sync { .. }
            | Kind::SyncAck { .. } => None,
        }
    }

    /// The Reset Code of a Reset, whether it has a name or not, and 0 for the other types (RFC 4340, section 5.6).
    pub fn reset_code(&self) -> u8
        ensures { result ≡ reset_code self.now }
    {
        match *self {
            Kind::Reset { code, .. } => code,
            Kind::Request { .. }
            | Kind::Response { .. }
            | Kind::Data
            | Kind::Ack { .. }
            | Kind::DataAck { .. }
            | Kind::CloseReq { .. }
            | Kind::Close { .. }
            | Kind::Sync { .. }
            | Kind::SyncAck { .. } => 0,
        }
    }
}
