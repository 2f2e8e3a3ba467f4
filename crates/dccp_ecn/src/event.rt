//! What may happen between the two ends, and its results.
use crate::Check;
use run_list::Marked;

/// What may happen. Packets and reports have indices from 0, in their order.
#[derive(Clone, Copy, Debug, PartialEq, Eq)]
pub enum EcnEvent {
    /// The sender sends a packet with this nonce.
    Send(bool),
    /// The packet with this index comes, unmarked. Packets may come in any order, and again.
    Deliver(u64),
    /// It comes marked.
    Mark(u64),
    /// The receiver reports what came, up to the greatest number.
    Report,
    /// The sender checks the report with this index.
    Check(u64),
    /// The sender checks it with the other nonce, as if someone had forged it.
    Forge(u64),
}

/// The result of an event.
#[derive(Clone, Copy, Debug, PartialEq, Eq)]
pub enum EcnSeen {
    /// The packet was sent.
    Sent,
    /// The receiver's answer to the packet's number.
    Took(Marked),
    /// The index of the report, or None if nothing has come yet.
    Reported(Option<u64>),
    /// The sender's verdict on the report.
    Checked(Check),
}

/// Why an event does not take place, in the order in which the causes are looked for. It changes nothing then.
#[derive(Clone, Copy, Debug, PartialEq, Eq)]
pub enum EcnFault {
    /// No packet with this index was sent, or there is no report with it.
    NoSuchFrame,
    /// 2^46 packets were sent, or 2^46 reports kept.
    Full,
    /// No memory was left for a packet's nonce or a report.
    NoMemory,
}
