//! The fields that a packet's header carries, without their places on the wire.
ghost use Rattle.std.specs.Prelude.{◌≡◌, ◌<◌, ◌^◌, length};
ghost use Rattle.dccp_packets.specs.Grammar.{type_of, code_of, fixed_length, has_form, packet_type, is_long, has_forms, is_valid, header_length, NumberFits, KindFits, HeaderFits};

use crate::fields::NIBBLE;
use seq_circle::{Seq24, Seq48};

/// The ten packet types (RFC 4340, section 5.1), in the order of their codes 0 to 9.
#[derive(Clone, Copy, Debug, PartialEq, Eq)]
pub enum PacketType {
    /// Opens a connection (section 5.2).
    Request,
    /// The server's answer to a Request (section 5.3).
    Response,
    /// Application data alone (section 5.4).
    Data,
    /// An acknowledgement alone (section 5.4).
    Ack,
    /// Application data with an acknowledgement (section 5.4).
    DataAck,
    /// The server asks the client to close (section 5.5).
    CloseReq,
    /// Ends a connection, to be answered by a Reset (section 5.5).
    Close,
    /// Ends a connection at once (section 5.6).
    Reset,
    /// Brings sequence numbers back in step (section 5.7).
    Sync,
    /// Answers a Sync (section 5.7).
    SyncAck,
}

/// A sequence or acknowledgement number in one of its two forms (RFC 4340, section 5.1, bit X).
#[derive(Clone, Copy, Debug, PartialEq, Eq)]
pub enum Number {
    /// All 48 bits (X = 1).
    Long(Seq48),
    /// The low 24 bits alone (X = 0), which only Data, Ack and DataAck may carry.
    Short(Seq24),
}

/// A packet's type, with the fields that this type alone carries (RFC 4340, sections 5.2 to 5.7).
#[derive(Clone, Copy, Debug, PartialEq, Eq)]
pub enum Kind {
    /// `service` is the Service Code (RFC 4340, section 8.1.2).
    Request {
        service: u32,
    },
    /// Acknowledges the Request and repeats its Service Code.
    Response {
        ack: Seq48,
        service: u32,
    },
    /// Carries no acknowledgement number and no further field (RFC 4340, section 5.4).
    Data,
    /// The acknowledgement has the form of the sequence number.
    Ack {
        ack: Number,
    },
    /// The acknowledgement has the form of the sequence number.
    DataAck {
        ack: Number,
    },
    /// Acknowledges a packet of the client (RFC 4340, section 5.5).
    CloseReq {
        ack: Seq48,
    },
    /// Acknowledges a packet of the other end (RFC 4340, section 5.5).
    Close {
        ack: Seq48,
    },
    /// `code` is the Reset Code and `detail` its bytes Data 1 to 3 (RFC 4340, section 5.6).
    Reset {
        ack: Seq48,
        code: u8,
        detail: [u8; 3],
    },
    /// Acknowledges the packet that made it necessary (RFC 4340, section 5.7).
    Sync {
        ack: Seq48,
    },
    /// Acknowledges the Sync (RFC 4340, section 5.7).
    SyncAck {
        ack: Seq48,
    },
}

/// A packet's header without its Data Offset, which follows from the type and the options (RFC 4340, section 5.1).
#[derive(Clone, Copy, Debug, PartialEq, Eq)]
pub struct Header {
    /// Source port.
    pub from: u16,
    /// Destination port.
    pub to: u16,
    /// CCVal, 0 to 15: for the sender's CCID.
    pub ccval: u8,
    /// CsCov, 0 to 15: how much of the data the checksum covers (section 9.2).
    pub cscov: u8,
    /// Checksum, as it is in the packet (section 9).
    pub checksum: u16,
    /// Sequence number.
    pub number: Number,
    /// Type, with the fields that it alone carries.
    pub kind: Kind,
}

impl PacketType {
    // The type of a code, unless it is reserved.
    pub(crate) fn of(code: u8) -> Option<PacketType>
        ensures { result ≡ type_of code }
    {
        match code {
            0 => Some(PacketType::Request),
            1 => Some(PacketType::Response),
            2 => Some(PacketType::Data),
            3 => Some(PacketType::Ack),
            4 => Some(PacketType::DataAck),
            5 => Some(PacketType::CloseReq),
            6 => Some(PacketType::Close),
            7 => Some(PacketType::Reset),
            8 => Some(PacketType::Sync),
            9 => Some(PacketType::SyncAck),
            _ => None,
        }
    }

    /// The type's code, from 0 to 9 (RFC 4340, section 5.1).
    pub fn code(self) -> u8
        ensures { result ≡ code_of self }
    {
        match self {
            PacketType::Request => 0,
            PacketType::Response => 1,
            PacketType::Data => 2,
            PacketType::Ack => 3,
            PacketType::DataAck => 4,
            PacketType::CloseReq => 5,
            PacketType::Close => 6,
            PacketType::Reset => 7,
            PacketType::Sync => 8,
            PacketType::SyncAck => 9,
        }
    }

    // How many bytes come before the options. A type without a short form always has its long one.
    pub(crate) fn fixed_length(self, long: bool) -> usize
        ensures { result ≡ fixed_length long self }
    {
        match self {
            PacketType::Request => 20,
            PacketType::Response | PacketType::Reset => 28,
            PacketType::Data => if long { 16 } else { 12 },
            PacketType::Ack | PacketType::DataAck => if long { 24 } else { 16 },
            PacketType::CloseReq | PacketType::Close | PacketType::Sync | PacketType::SyncAck => 24,
        }
    }

    // Whether the type may carry numbers of this form.
    pub(crate) fn has_form(self, long: bool) -> bool
        ensures { result ≡ has_form long self }
    {
        match self {
            PacketType::Data | PacketType::Ack | PacketType::DataAck => true,
            PacketType::Request
            | PacketType::Response
            | PacketType::CloseReq
            | PacketType::Close
            | PacketType::Reset
            | PacketType::Sync
            | PacketType::SyncAck => long,
        }
    }
}

impl Number {
    pub(crate) fn is_long(&self) -> bool
        ensures { result ≡ is_long self.now }
    {
        match self {
            Number::Long(_) => true,
            Number::Short(_) => false,
        }
    }

    // What the types of the fields keep, as a fact for callers.
    fn known_to_fit(&self)
        ensures { NumberFits self.now }
    {
        match self {
            Number::Long(number) => {
                let _ = number.get();
            }
            Number::Short(number) => {
                let _ = number.get();
            }
        }
    }
}

impl Kind {
    /// The type of the packet (own: the way from a header to its type).
    pub fn packet_type(&self) -> PacketType
        ensures { result ≡ packet_type self.now }
    {
        match self {
            Kind::Request { .. } => PacketType::Request,
            Kind::Response { .. } => PacketType::Response,
            Kind::Data => PacketType::Data,
            Kind::Ack { .. } => PacketType::Ack,
            Kind::DataAck { .. } => PacketType::DataAck,
            Kind::CloseReq { .. } => PacketType::CloseReq,
            Kind::Close { .. } => PacketType::Close,
            Kind::Reset { .. } => PacketType::Reset,
            Kind::Sync { .. } => PacketType::Sync,
            Kind::SyncAck { .. } => PacketType::SyncAck,
        }
    }

    // What the types of the fields keep, as a fact for callers.
    pub(crate) fn known_to_fit(&self)
        ensures { KindFits self.now }
    {
        match *self {
            Kind::Data => {}
            Kind::Request { service } => service_fits(service),
            Kind::Response { ack, service } => {
                let _ = ack.get();
                service_fits(service);
            }
            Kind::Ack { ack } | Kind::DataAck { ack } => ack.known_to_fit(),
            Kind::CloseReq { ack }
            | Kind::Close { ack }
            | Kind::Sync { ack }
            | Kind::SyncAck { ack } => {
                let _ = ack.get();
            }
            Kind::Reset { ack, code, detail } => {
                let _ = ack.get();
                code_fits(code);
                detail_has_three(detail);
            }
        }
    }

    // Whether all numbers of the packet have a form that its type may carry, if its sequence number has this one.
    fn has_forms(&self, long: bool) -> bool
        ensures { result ≡ has_forms long self.now }
    {
        match self {
            Kind::Ack { ack } | Kind::DataAck { ack } => ack.is_long() == long,
            Kind::Request { .. }
            | Kind::Response { .. }
            | Kind::Data
            | Kind::CloseReq { .. }
            | Kind::Close { .. }
            | Kind::Reset { .. }
            | Kind::Sync { .. }
            | Kind::SyncAck { .. } => self.packet_type().has_form(long),
        }
    }
}

impl Header {
    /// Whether the header has a spelling: CCVal and CsCov are below 16, and the numbers have a form that the type may
    /// carry. In an Ack or a DataAck both numbers have the same form (RFC 4340, section 5.1). No bytes spell a header
    /// with short numbers on a type without a short form: if `encode` wrote one, it would be read as something else.
    pub fn valid(&self) -> bool
        ensures { result ≡ is_valid self.now }
    {
        self.ccval < NIBBLE && self.cscov < NIBBLE && self.kind.has_forms(self.number.is_long())
    }

    pub(crate) fn known_to_fit(&self)
        ensures { HeaderFits self.now }
    {
        short_fits(self.from);
        short_fits(self.to);
        short_fits(self.checksum);
        self.number.known_to_fit();
        self.kind.known_to_fit();
    }

    // The length of the fixed part, in bytes.
    pub(crate) fn length(&self) -> usize
        ensures { result ≡ header_length self.now }
    {
        self.kind.packet_type().fixed_length(self.number.is_long())
    }
}

// Gives the prover the range that a field has by its type, for a field inside a variant or after a reference.
fn service_fits(service: u32)
    ensures { service < 2 ^ 32 }
{}

fn short_fits(field: u16)
    ensures { field < 2 ^ 16 }
{}

fn code_fits(code: u8)
    ensures { code < 2 ^ 8 }
{}

pub(crate) fn detail_has_three(detail: [u8; 3])
    ensures { length detail ≡ 3 }
{}
