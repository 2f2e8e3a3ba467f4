//! How a packet leaves the steps of receiving before the last.
use crate::{Fault, Why};
use dccp_packets::ResetCode;
use seq_circle::Seq48;

// What is done with a packet that leaves at one of the steps 2 to 9 of receiving (RFC 4340, section 8.5). Only this
// crate's code and definitions use it.
#[derive(Clone, Copy)]
pub enum Exit {
    /// It is dropped.
    Drop(Why),
    /// A Sync that acknowledges this number answers it.
    Sync(Seq48),
    /// A Reset of this code answers it without a connection.
    ResetWithoutConnection(ResetCode),
    /// A Reset that names its type answers it, since the end waits for the answer to its Request.
    PacketError,
    /// The end closes, and a Reset names this fault.
    Shut(Fault),
    /// It is a valid Reset of this code, and the end waits in TIMEWAIT.
    TimeWait(u8),
}
