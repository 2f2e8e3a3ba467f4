//! Data of a client that speaks first, in PARTOPEN (own; RFC 4340, section 8.1.5, permits it).
ghost use Rattle.std.specs.Prelude.{◌≡◌};
ghost use Rattle.dccp_endpoint.specs.Early.{is_part_open};

use super::Connection;
use crate::SendFault;
use dccp_packets::Outbox;
use dccp_states::Phase;
use seq_circle::Seq48;

// The phase is PARTOPEN.
pub(crate) fn is_part_open(phase: Phase) -> bool
    ensures { result ≡ is_part_open phase }
{
    matches!(phase, Phase::PartOpen)
}

impl Connection {
    ghost use Rattle.std.specs.Prelude.{◌≡◌, ◌≤◌, [], length, true, Ok};
    ghost use Rattle.dccp_endpoint.specs.Calling.{sends_data};
    ghost use Rattle.dccp_endpoint.specs.Early.{early_fault};
    ghost use Rattle.dccp_endpoint.specs.Steps.{next_number};

    /// Why early data are not sent, or None if they are.
    pub(crate) fn early_fault(&self, payload: &[u8], may_send: bool) -> Option<SendFault>
        ensures { result ≡ early_fault self.now payload.now may_send }
    {
        self.fault_where(is_part_open(self.phase), payload, may_send)
    }

    /// Sends data on a DataAck, even if no acknowledgement is owed, and returns its number.
    pub(crate) fn send_early_data(&mut self, payload: &[u8], out: &mut Outbox) -> Seq48
        requires { length payload.now ≤ 1024 }
        ensures step { record { after = self.new; frame = out.new; calls = []; answer = Ok (tt {0}) } ≡ sends_data self.old payload.now true }
        ensures number { result ≡ next_number self.old }
    {
        self.send_data_ack(payload, out);
        self.marks.gss
    }
}
