//! A report that is kept.
ghost use Rattle.std.specs.Prelude.{◌≡◌, ◌≤◌, IfOk, length};
ghost use Rattle.dccp_ecn.specs.World.{EcnReport, report_at, checks, checks_forged, other_kind};

use crate::{Check, EcnReceived, NonceLedger};
use ack_vectors::VectorBytes;
use dccp_options::kinds::{ACK_VECTOR_0, ACK_VECTOR_1};
use seq_circle::{NoMemory, Seq48};
use std::alloc::Global;
use std::marker::Model;

/// A vector that was reported: the number that it acknowledges, its type and its bytes.
#[derive(Drop)]
pub(crate) struct Report {
    ack: Seq48,
    kind: u8,
    bytes: Vec<u8>,
}

impl Model for Report {
    ghost use Rattle.dccp_ecn.specs.World.{EcnReport};

    ghost Value = { EcnReport };

    ghost view = { λ r. record { ack = r.ack; kind = r.kind; bytes = r.bytes.items } };
}

// The type of a vector with the other nonce.
fn other_kind(kind: u8) -> u8
    ensures { result ≡ other_kind kind }
{
    if kind == ACK_VECTOR_0 {
        ACK_VECTOR_1
    } else {
        ACK_VECTOR_0
    }
}

impl Report {
    /// The vector of what was received, at this acknowledgement.
    pub(crate) fn of(alloc: Global, received: &EcnReceived, ack: Seq48) -> Result<Report, NoMemory>
        ensures { IfOk result (λ report. report ≡ report_at received.now ack) }
    {
        let mut out = VectorBytes::new();
        let vector = received.write(&mut out, ack);
        let bytes = Vec::from_slice(alloc, out.as_slice())?;
        Ok(Report {
            ack,
            kind: vector.kind,
            bytes,
        })
    }

    /// The number that it acknowledges.
    pub(crate) fn ack(&self) -> Seq48
        ensures { result ≡ self.now.ack }
    {
        self.ack
    }

    /// Its type: 38 or 39.
    pub(crate) fn kind(&self) -> u8
        ensures { result ≡ self.now.kind }
    {
        self.kind
    }

    /// Its bytes.
    pub(crate) fn bytes(&self) -> &[u8]
        ensures { result.now ≡ self.now.bytes }
    {
        &self.bytes
    }

    /// The sender's verdict on it.
    pub(crate) fn checked_by(&self, ledger: &NonceLedger) -> Check
        ensures { result ≡ checks ledger.now self.now }
    {
        ledger.check(self.ack, self.kind, &self.bytes)
    }

    /// The sender's verdict on it with the other nonce.
    pub(crate) fn forged_by(&self, ledger: &NonceLedger) -> Check
        ensures { result ≡ checks_forged ledger.now self.now }
    {
        ledger.check(self.ack, other_kind(self.kind), &self.bytes)
    }
}
