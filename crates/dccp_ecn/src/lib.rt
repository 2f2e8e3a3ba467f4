//! ECN nonces: the two halves that an ECN-capable DCCP end has (RFC 4340, section 12). A receiver keeps which packets
//! came unmarked, which marked and which not at all, and reports them by Ack Vectors with a nonce. A sender keeps the
//! nonces that it sent, and distinguishes a report that can be honest from one that hides a mark or a loss.
//!
//! Nothing here sets or reads the ECN bits of an IP header, or reads a packet. All memory is taken in
//! `EcnReceived::new`; `EcnWorld`, in which both halves are played, takes some with each packet and report. The ends of
//! `dccp_endpoint` are ECN incapable and use none of it.
#![tactic(auto)]

mod arrived;
mod event;
mod halves;
mod laws;
mod ledger;
mod nonces;
mod received;
mod report;
mod ring;
mod world;
mod writing;

pub use crate::arrived::Arrived;
pub use crate::event::{EcnEvent, EcnFault, EcnSeen};
pub use crate::laws::{
    a_vector_with_marks_reads_back, every_report_is_honest, every_run_is_told,
    every_vector_has_its_nonce,
};
pub use crate::ledger::{Check, NonceLedger};
pub use crate::received::{EcnReceived, EcnVector};
pub use crate::world::EcnWorld;
