//! Writing an option area.
ghost use Rattle.std.specs.Prelude.{◌≡◌, ◌+◌, ◌<◌, ◌≤◌, ◌↔◌, ◌++◌, [], length, IsErr, OnOk, OnErr};
ghost use Rattle.dccp_options.specs.Written.{mark, spelled};

use crate::kinds::MANDATORY;
use arrayvec::ArrayVec;
use std::marker::Model;

const ROOM: usize = 1008;

/// The option does not fit into what is left of 1,008 bytes (own).
#[derive(Clone, Copy, Debug, PartialEq, Eq)]
pub struct OptFull;

/// An option area that is being written, of at most 1,008 bytes. Contracts see the bytes.
#[derive(Drop)]
pub struct OptWriter {
    area: ArrayVec<u8, ROOM>,
}

impl Model for OptWriter {
    ghost use Rattle.std.specs.Prelude.{List, ℕ, ◌≤◌, length};

    ghost Value = { List ℕ };

    ghost view = { λ writer. writer.area.items };

    ghost invariant = { λ writer. length writer.area.items ≤ 1008 };
}

impl OptWriter {
    /// A writer that has written nothing.
    pub fn new() -> OptWriter
        ensures { result ≡ [] }
    {
        OptWriter {
            area: ArrayVec::new(),
        }
    }

    /// Writes an option of a type from 32 on, with at most 253 bytes of data: a Mandatory before it if it is to be
    /// marked, its type, its length and its data (RFC 4340, section 5.8). OptFull exactly if that does not fit; then
    /// nothing is written.
    pub fn put(&mut self, mandatory: bool, kind: u8, body: &[u8]) -> Result<(), OptFull>
        requires has_length { 32 ≤ kind }
        requires fits_length { length body.now ≤ 253 }
        ensures ok { OnOk result (self.new ≡ self.old ++ spelled mandatory kind body.now) }
        ensures full { IsErr result ↔ (1008 < length self.old + length (spelled mandatory kind body.now)) }
        ensures unchanged { OnErr result (self.new ≡ self.old) }
    {
        let count = body.len() + 2;
        if self.area.remaining_capacity() < usize::from(mandatory) + count {
            return Err(OptFull);
        }
        if mandatory {
            self.area.push(MANDATORY);
        }
        self.area.push(kind);
        self.area.push(count as u8);
        let _ = self.area.try_extend_from_slice(body);
        Ok(())
    }

    /// The bytes that were written.
    pub fn bytes(&self) -> &[u8]
        ensures value { result.now ≡ self.now }
        ensures fits { length result.now ≤ 1008 }
    {
        self.area.as_slice()
    }
}
