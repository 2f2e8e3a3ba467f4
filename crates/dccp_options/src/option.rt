//! An option of a packet, and what can be wrong with a list of them.
ghost use Rattle.std.specs.Prelude.{◌≡◌, length};
ghost use Rattle.dccp_options.specs.Kinds as spec;
ghost use Rattle.dccp_options.specs.Vectors.{is_ack_vector};

use crate::kinds::{is_ack_vector, is_understood};

/// The most bytes of data that an option has: its length counts its type and itself too (RFC 4340, section 5.8).
pub const MOST_OPTION_BYTES: usize = 253;

/// An option of a packet's option area (RFC 4340, section 5.8).
#[derive(Clone, Copy, Debug, PartialEq, Eq)]
pub struct Opt<'a> {
    /// Where the option's type byte is in the area, counted from 0. A Mandatory that marks it comes before that.
    pub place: u16,
    /// Whether Mandatory marks the option (RFC 4340, section 5.8.2).
    pub mandatory: bool,
    /// The option's type.
    pub kind: u8,
    /// The option's data, without its type and length.
    pub body: &'a [u8],
}

impl<'a> Opt<'a> {
    /// Whether the standard's table has the option's type with its length (RFC 4340, section 5.8, table 3). Init Cookie
    /// is not understood, nor are types from 128 on, which belong to a CCID (own).
    pub fn is_understood(&self) -> bool
        ensures { result ≡ spec.is_understood self.now.kind (length self.now.body.now) }
    {
        is_understood(self.kind, self.body.len())
    }

    /// Whether the option is an Ack Vector, with nonce 0 or 1 (RFC 4340, section 11.4).
    pub fn is_ack_vector(&self) -> bool
        ensures { result ≡ is_ack_vector self.now.kind }
    {
        is_ack_vector(self.kind)
    }
}

/// What makes a list of options wrong; both are about Mandatory (RFC 4340, section 5.8.2).
#[derive(Clone, Copy, Debug, PartialEq, Eq)]
pub enum OptFault {
    /// Mandatory with no option after it, or only with one whose length is wrong.
    MandatoryAtEnd,
    /// Mandatory directly after Mandatory.
    MandatoryTwice,
}
