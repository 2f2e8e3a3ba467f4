//! An end of C: the end with its timers, where its data go, the place where it leaves its frame, and which of the data
//! that it sent were dropped.
use ccid_two::Kinds;
use data_dropped::Intake;
use dccp_endpoint::Outbox;
use dccp_uses::{ClientCookie, DropRecord, TimedEnd};

/// An end with its timers, where its data go, the place where each of its calls leaves its frame, and a record of what
/// was dropped of the data that it sent.
#[derive(Drop)]
pub struct OwnedEnd {
    /// The end with its timers.
    pub timed: TimedEnd<Kinds>,
    /// Where data go that arrive.
    pub intake: Intake,
    /// The frame that the last call has left, if any.
    pub out: Outbox,
    /// The Init Cookie that it returns, if it has one.
    pub cookie: ClientCookie,
    /// Which of its packets the peer has reported as dropped.
    pub drops: DropRecord,
}
